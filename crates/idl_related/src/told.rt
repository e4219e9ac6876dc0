//! Second places as they are told, and the findings to which they go.

ghost use Rattle.std.specs.Prelude.{◌≡◌, ◌∷◌, All, IfOk, List, None, length, reverse};
ghost use Rattle.std.specs.List.{list_any};
ghost use Rattle.idl_event.specs.declared.told.event.Event.{Event};
ghost use Rattle.idl_related.specs.FirstDeclared.{assigned};
ghost use Rattle.idl_related.specs.Related.{AreOfFinding};
ghost use Rattle.idl_related.specs.Judged.{AreOfFindings};
ghost use Rattle.idl_related.specs.Told.{has_second, is_redeclaration};
ghost use Rattle.idl_finding.specs.declared.finding.Finding.{Finding as FoundFinding};

use crate::second::Related;
use idl_base::Seq;
use idl_fault::Code;
use idl_finding::Finding;
use std::alloc::{AllocError, Global};

/// The second places of what is found in a unit, the event that it names, and its code.
pub struct RelatedPlaces {
    pub event: usize,
    pub code: Code,
    pub related: Seq<Related>,
}

impl Drop for RelatedPlaces {
    fn drop(self) {
        let RelatedPlaces {
            event: _event,
            code: _code,
            related: _related,
        } = self;
    }
}

impl RelatedPlaces {
    // The places, taken out.
    fn into_related(self) -> Seq<Related>
        ensures { result ≡ self.related }
    {
        let RelatedPlaces {
            event: _event,
            code: _code,
            related,
        } = self;
        related
    }
}

/// Whether what is found of this code may have second places. It is found in units alone.
pub fn has_second(code: Code) -> bool
    ensures { result ≡ has_second code }
{
    match code {
        Code::NameNotFound
        | Code::AmbiguousName
        | Code::OtherCase
        | Code::AlreadyDeclared
        | Code::NameOfScope
        | Code::DeclaredAfterUse
        | Code::WrongKind
        | Code::NoScope
        | Code::OtherForward
        | Code::IncompleteBase
        | Code::RepeatedBase
        | Code::DeclaredAgain
        | Code::LocalBase
        | Code::ReachedThroughBase
        | Code::NoConstantType
        | Code::IncompleteType
        | Code::BadDiscriminator
        | Code::RepeatedLabel
        | Code::OtherPrefix
        | Code::RepeatedId
        | Code::RepeatedVersion
        | Code::RepeatedTypeprefix => true,
        _ => false,
    }
}

/// Whether a name is declared that is declared already in its scope.
pub fn is_redeclaration(code: Code) -> bool
    ensures { result ≡ is_redeclaration code }
{
    match code {
        Code::AlreadyDeclared => true,
        _ => false,
    }
}

/// Whether any of them is a redeclaration.
pub fn has_redeclaration(findings: &[Finding]) -> bool
    ensures { result ≡ list_any (λ f. is_redeclaration f.code) findings.now }
{
    findings
        .iter()
        .any(|finding| is_redeclaration(finding.code))
}

/// How many of these findings may have second places.
pub fn count_with_second(findings: &[Finding]) -> usize {
    let mut count = 0_usize;
    for finding in findings {
        if has_second(finding.code) {
            count = count.saturating_add(1);
        }
    }
    count
}

/// For each finding, in order, what is told of it: of those that may have second places one after another, from the last on.
pub fn matched(
    alloc: Global,
    findings: &[Finding],
    mut told: Vec<RelatedPlaces>,
) -> Result<Seq<Seq<Related>>, AllocError>
    ensures lists { IfOk result (λ related.
        (events : List Event) → AreOfFindings events told.items
        → (length related ≡ length findings.now) × All (AreOfFinding events) related) }
    ensures assigned { IfOk result (λ related.
        related ≡ assigned findings.now (reverse told.items)) }
{
    let mut all = Vec::with_capacity(alloc, findings.len())?;
    'findings: for finding in findings {
        let related = next_of(alloc, finding.code, &mut told);
        all.push(related)?;
    }
    Ok(Seq::from_vec(all))
}

// What is told last, which goes; of a code that has no second places nothing.
fn next_of(alloc: Global, code: Code, told: &mut Vec<RelatedPlaces>) -> Seq<Related>
    ensures next { (events : List Event) → AreOfFindings events told.old.items
        → AreOfFinding events result }
    ensures left { (events : List Event) → AreOfFindings events told.old.items
        → AreOfFindings events told.new.items }
    ensures assigned { (f : FoundFinding) (findings : List FoundFinding) → f.code ≡ code
        → assigned (f ∷ findings) (reverse told.old.items)
        ≡ result ∷ assigned findings (reverse told.new.items) }
{
    if !has_second(code) {
        return Seq::new(alloc);
    }
    match told.pop() {
        Some(last) => last.into_related(),
        None => Seq::new(alloc),
    }
}
