//! Types of two listings: whether they are written the same, whether they are sent the same, and what is told where they aren't.

ghost use Rattle.std.specs.Prelude.{◌≡◌, ◌++◌, IfOk, OnOk, false};
ghost use Rattle.idl_changes.specs.Differences.{changed, constant_type_differences, type_differences, type_line};
ghost use Rattle.idl_changes.specs.Partners.{is_same_element, is_sent, is_written};
ghost use Rattle.idl_changes.specs.Spelled.{spelled};

use crate::change::Difference;
use crate::parts::push_changed;
use crate::rows::Line;
use crate::sides::Sides;
use crate::spelled::spelled;
use idl_repo::details::{ElementTree, LayeredType};
use std::alloc::AllocError;

/// Compares types.
pub fn compare_types(
    sides: &Sides<'_>,
    part: &[u8],
    types: (&LayeredType, &LayeredType),
    out: &mut Vec<Difference>,
) -> Result<(), AllocError>
    ensures { OnOk result (out.new.items ≡ out.old.items ++ type_differences sides.now.0
        sides.now.1 part.now types.entry.0.now types.entry.1.now) }
{
    let (old, new) = types;
    if is_written(sides, old, new) {
        return Ok(());
    }
    let line = type_line(sides, old, new)?;
    push_types(line, part, types, out)
}

/// Compares the types of constants.
pub fn compare_constant_types(
    sides: &Sides<'_>,
    old: &LayeredType,
    new: &LayeredType,
    out: &mut Vec<Difference>,
) -> Result<(), AllocError>
    ensures { OnOk result (out.new.items ≡ out.old.items
        ++ constant_type_differences sides.now.0 sides.now.1 old.now new.now) }
{
    if is_written(sides, old, new) {
        return Ok(());
    }
    let line = if is_sent(sides, old, new)? {
        Line::ConstantAlias
    } else {
        Line::ConstantType
    };
    push_types(line, b"type", (old, new), out)
}

// Tells that a part was of this type and is of that one.
fn push_types(
    line: Line,
    part: &[u8],
    types: (&LayeredType, &LayeredType),
    out: &mut Vec<Difference>,
) -> Result<(), AllocError>
    ensures { OnOk result (out.new.items ≡ out.old.items
        ++ changed line part.now (spelled types.entry.0.now) (spelled types.entry.1.now)) }
{
    let was = spelled(*out.allocator(), types.0)?;
    let is = spelled(*out.allocator(), types.1)?;
    push_changed(line, part, (was.as_slice(), is.as_slice()), out)
}

// The line of a type that is written otherwise.
#[tactic(auto, unfolding(crate::specs::Differences::type_line))]
fn type_line(sides: &Sides<'_>, old: &LayeredType, new: &LayeredType) -> Result<Line, AllocError>
    requires { is_written sides.now.0 sides.now.1 old.now new.now ≡ false }
    ensures { IfOk result (λ line.
        line ≡ type_line sides.now.0 sides.now.1 old.now new.now) }
{
    let same = is_sent(sides, old, new)?;
    if !same {
        return Ok(Line::Type);
    }
    let plain = sides.before().plain(old)?;
    if plain.layers.is_empty() {
        Ok(Line::AliasedType)
    } else {
        Ok(Line::LayeredType)
    }
}

/// Whether types are written the same.
#[tactic(auto, unfolding(crate::specs::Partners::is_written))]
pub fn is_written(sides: &Sides<'_>, old: &LayeredType, new: &LayeredType) -> bool
    ensures { result ≡ is_written sides.now.0 sides.now.1 old.now new.now }
{
    is_same_element(sides, &old.element, &new.element) && old.layers == new.layers
}

// Whether types are sent the same.
#[tactic(auto, unfolding(crate::specs::Partners::is_sent))]
fn is_sent(sides: &Sides<'_>, old: &LayeredType, new: &LayeredType) -> Result<bool, AllocError>
    requires { is_written sides.now.0 sides.now.1 old.now new.now ≡ false }
    ensures { IfOk result (λ same. same ≡ is_sent sides.now.0 sides.now.1 old.now new.now) }
{
    let old_plain = sides.before().plain(old)?;
    let new_plain = sides.after().plain(new)?;
    Ok(is_written(sides, &old_plain, &new_plain))
}

// Whether what types are of is the same.
fn is_same_element(sides: &Sides<'_>, old: &ElementTree, new: &ElementTree) -> bool
    ensures { result ≡ is_same_element sides.now.0 sides.now.1 old.now new.now }
{
    match (old, new) {
        (ElementTree::Named(old), ElementTree::Named(new)) => sides.is_same_reference(old, new),
        _ => *old == *new,
    }
}
