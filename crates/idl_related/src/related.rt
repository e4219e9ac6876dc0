//! The second places of all that is found in a root.

ghost use Rattle.std.specs.Prelude.{◌≡◌, IfOk, IfSome, List, None, reverse};
ghost use Rattle.idl_event.specs.declared.told.event.Event.{Event};
ghost use Rattle.std.specs.List.{list_any};
ghost use Rattle.idl_related.specs.FirstDeclared.{AreOfFaults};
ghost use Rattle.idl_related.specs.Related.{AreRelated, HasRedeclaration};
ghost use Rattle.idl_related.specs.Judged.{AreOfFindings};
ghost use Rattle.idl_related.specs.Told.{has_second};

use crate::judged::JudgedUnits;
use crate::second::Related;
use crate::told::{RelatedPlaces, has_second, matched};
use idl_base::Seq;
use idl_event::Expansion;
use idl_finding::Finding;
use idl_unit::split;
use std::alloc::{AllocError, Global};

/// For each of these findings of what a root expands to, in order, its second places. They are to be all that is found in the root, or the
/// first of it: where one is a redeclaration the places are those of all, one after another, and of others alone each may have another one's.
///
/// The units are judged for it, up to the last of which is told, or all where one is a redeclaration; and nothing of that is kept. Where no
/// finding has second places none is judged.
pub fn related_of(
    alloc: Global,
    expansion: &Expansion,
    findings: &[Finding],
) -> Result<Seq<Seq<Related>>, AllocError>
    ensures { IfOk result (AreRelated expansion.now findings.now) }
{
    if let Some(none) = unrelated(alloc, findings)? {
        return Ok(none);
    }
    let told = told_of(alloc, expansion, findings)?;
    matched(alloc, findings, told)
}

// What is told of the units of what a root expands to, from the last event to the first, as these findings ask.
fn told_of(
    alloc: Global,
    expansion: &Expansion,
    findings: &[Finding],
) -> Result<Vec<RelatedPlaces>, AllocError>
    ensures told { IfOk result (λ told. AreOfFindings expansion.now told.items) }
    ensures first_declared { IfOk result (λ told.
        HasRedeclaration findings.now → AreOfFaults expansion.now (reverse told.items)) }
{
    let units = split(alloc, expansion)?;
    let mut all = JudgedUnits::new(alloc, expansion, units.as_slice(), findings)?;
    all.pass_all()?;
    all.told_backwards()
}

/// For each of these findings no second place, where none of them may have any; else nothing.
pub fn unrelated(
    alloc: Global,
    findings: &[Finding],
) -> Result<Option<Seq<Seq<Related>>>, AllocError>
    ensures { IfOk result (λ none. IfSome none (λ related.
        (events : List Event) → AreRelated events findings.now related)) }
{
    if may_have_second(findings) {
        return Ok(None);
    }
    Ok(Some(matched(alloc, findings, Vec::new(alloc))?))
}

// Whether any of these findings may have second places.
fn may_have_second(findings: &[Finding]) -> bool
    ensures { result ≡ list_any (λ f. has_second f.code) findings.now }
{
    findings.iter().any(|finding| has_second(finding.code))
}
