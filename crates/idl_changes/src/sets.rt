//! Parts of entries that refer to others: exceptions, in any order, and the base of a struct.

ghost use Rattle.std.specs.Prelude.{◌≡◌, ◌++◌, [], OnOk, codes, if◌then◌else◌};
ghost use Rattle.std.specs.Cmp.Lexicographic.{pointwise};
ghost use Rattle.std.specs.List.{list_any};
ghost use Rattle.idl_changes.specs.Differences.{base_differences, gone_references, new_references, reference_differences, told};
ghost use Rattle.idl_changes.specs.Partners.{is_same_reference};

use crate::change::{Difference, Turn};
use crate::matched::Named;
use crate::parts::{in_a_row, push_changed, push_named, push_told};
use crate::rows::Line;
use crate::sides::Sides;
use idl_base::Bytes;
use idl_repo::details::Reference;
use std::alloc::AllocError;

/// Compares the exceptions that two entries raise.
#[tactic(auto, unfolding(crate::specs::Differences::reference_differences))]
pub fn compare_references(
    sides: &Sides<'_>,
    part: &[u8],
    references: (&[Reference], &[Reference]),
    out: &mut Vec<Difference>,
) -> Result<(), AllocError>
    ensures { OnOk result (out.new.items ≡ out.old.items ++ reference_differences sides.now.0
        sides.now.1 part.now references.entry.0.now references.entry.1.now) }
{
    push_all_gone(sides, part, references, out)?;
    push_all_new(sides, part, references, out)
}

// Tells of the old ones that aren't among the new ones.
fn push_all_gone(
    sides: &Sides<'_>,
    part: &[u8],
    references: (&[Reference], &[Reference]),
    out: &mut Vec<Difference>,
) -> Result<(), AllocError>
    ensures { OnOk result (out.new.items ≡ out.old.items ++ gone_references sides.now.0
        sides.now.1 part.now references.entry.0.now references.entry.1.now) }
{
    let (old, new) = references;
    for reference in old {
        push_gone(sides, (part, reference), new, out)?;
    }
    Ok(())
}

// Tells that an exception is gone, unless it is among these.
fn push_gone(
    sides: &Sides<'_>,
    named: (&[u8], &Reference),
    others: &[Reference],
    out: &mut Vec<Difference>,
) -> Result<(), AllocError>
    ensures { OnOk result (out.new.items ≡ out.old.items
        ++ (if list_any (is_same_reference sides.now.0 sides.now.1 named.entry.1.now) others.now
        then []
        else told Line.ExceptionGone (named.entry.0.now ++ (codes " " ++ named.entry.1.now.path))
        Turn.Gone)) }
{
    if goes_on(sides, named.1, others) {
        return Ok(());
    }
    push_reference(Line::ExceptionGone, named, Turn::Gone, out)
}

// Whether an old reference is the same as one of these new ones.
fn goes_on(sides: &Sides<'_>, reference: &Reference, others: &[Reference]) -> bool
    ensures { result
        ≡ list_any (is_same_reference sides.now.0 sides.now.1 reference.now) others.now }
{
    others
        .iter()
        .any(|other| sides.is_same_reference(reference, other))
}

// Tells of the new ones that aren't among the old ones.
fn push_all_new(
    sides: &Sides<'_>,
    part: &[u8],
    references: (&[Reference], &[Reference]),
    out: &mut Vec<Difference>,
) -> Result<(), AllocError>
    ensures { OnOk result (out.new.items ≡ out.old.items ++ new_references sides.now.0
        sides.now.1 part.now references.entry.0.now references.entry.1.now) }
{
    let (old, new) = references;
    for reference in new {
        push_new(sides, (part, reference), old, out)?;
    }
    Ok(())
}

// Tells that an exception is new, unless it is among these.
fn push_new(
    sides: &Sides<'_>,
    named: (&[u8], &Reference),
    others: &[Reference],
    out: &mut Vec<Difference>,
) -> Result<(), AllocError>
    ensures { OnOk result (out.new.items ≡ out.old.items
        ++ (if list_any (λ r. is_same_reference sides.now.0 sides.now.1 r named.entry.1.now)
        others.now
        then []
        else told Line.ExceptionNew (named.entry.0.now ++ (codes " " ++ named.entry.1.now.path))
        Turn.New)) }
{
    if was_there(sides, named.1, others) {
        return Ok(());
    }
    push_reference(Line::ExceptionNew, named, Turn::New, out)
}

// Whether one of these old references is the same as a new one.
fn was_there(sides: &Sides<'_>, reference: &Reference, others: &[Reference]) -> bool
    ensures { result
        ≡ list_any (λ r. is_same_reference sides.now.0 sides.now.1 r reference.now) others.now }
{
    others
        .iter()
        .any(|other| sides.is_same_reference(other, reference))
}

// Tells what became of a reference, by its path.
fn push_reference(
    line: Line,
    named: (&[u8], &Reference),
    turn: Turn,
    out: &mut Vec<Difference>,
) -> Result<(), AllocError>
    ensures { OnOk result (out.new.items ≡ out.old.items
        ++ told line (named.entry.0.now ++ (codes " " ++ named.entry.1.now.path)) turn) }
{
    let mut part = Vec::from_slice(*out.allocator(), named.0)?;
    push_named(&mut part, named.1.path.as_bytes())?;
    push_told(line, &part, turn, out)
}

/// Compares the bases of structs.
pub fn compare_bases(
    sides: &Sides<'_>,
    old: &[Reference],
    new: &[Reference],
    out: &mut Vec<Difference>,
) -> Result<(), AllocError>
    ensures { OnOk result (out.new.items
        ≡ out.old.items ++ base_differences sides.now.0 sides.now.1 old.now new.now) }
{
    if are_same(sides, old, new) {
        return Ok(());
    }
    let was = in_a_row(*out.allocator(), old)?;
    let is = in_a_row(*out.allocator(), new)?;
    push_changed(
        Line::StructBase,
        b"base",
        (was.as_slice(), is.as_slice()),
        out,
    )
}

// Whether references are the same, one after another.
fn are_same(sides: &Sides<'_>, old: &[Reference], new: &[Reference]) -> bool
    ensures { result ≡ pointwise (is_same_reference sides.now.0 sides.now.1) old.now new.now }
{
    if old.len() != new.len() {
        return false;
    }
    for (place, reference) in old.iter().enumerate() {
        if !sides.is_same_reference(reference, &new[place]) {
            return false;
        }
    }
    true
}

impl Named for Reference {
    ghost use Rattle.idl_changes.specs.Differences.{path_of};

    ghost name_of = { path_of };

    fn name(&self) -> &Bytes {
        &self.path
    }
}
