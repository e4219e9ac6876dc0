//! Parts of entries that have no parts.

ghost use Rattle.std.specs.Prelude.{◌≡◌, ◌++◌, [], IfOk, OnOk, codes, unwrap_or};
ghost use Rattle.idl_changes.specs.Differences.{changed, context_differences, flag_differences, in_a_row, text_differences, told, value_differences, yes_or_no};

use crate::change::{Difference, Turn};
use crate::matched::Named;
use crate::rows::{Line, weights_of};
use idl_base::{Bytes, Text};
use std::alloc::{AllocError, Global};

/// Tells a line of the table of a part.
pub fn push_told(
    line: Line,
    part: &[u8],
    turn: Turn,
    out: &mut Vec<Difference>,
) -> Result<(), AllocError>
    ensures { OnOk result (out.new.items ≡ out.old.items ++ told line part.now turn) }
{
    let part = Text::from_slice(*out.allocator(), part)?;
    let weights = weights_of(line);
    out.push(Difference {
        weights,
        part,
        turn,
    })?;
    Ok(())
}

/// Tells that a part was this text and is that one.
pub fn push_changed(
    line: Line,
    part: &[u8],
    texts: (&[u8], &[u8]),
    out: &mut Vec<Difference>,
) -> Result<(), AllocError>
    ensures { OnOk result (out.new.items
        ≡ out.old.items ++ changed line part.now texts.entry.0.now texts.entry.1.now) }
{
    let was = Text::from_slice(*out.allocator(), texts.0)?;
    let is = Text::from_slice(*out.allocator(), texts.1)?;
    push_told(line, part, Turn::Changed(was, is), out)
}

/// Compares a part that has a text.
pub fn compare_texts(
    line: Line,
    part: &[u8],
    texts: (&[u8], &[u8]),
    out: &mut Vec<Difference>,
) -> Result<(), AllocError>
    ensures { OnOk result (out.new.items ≡ out.old.items
        ++ text_differences line part.now texts.entry.0.now texts.entry.1.now) }
{
    if texts.0 == texts.1 {
        return Ok(());
    }
    push_changed(line, part, texts, out)
}

/// Compares whether a word stands there.
pub fn compare_flags(
    line: Line,
    part: &[u8],
    flags: (bool, bool),
    out: &mut Vec<Difference>,
) -> Result<(), AllocError>
    ensures { OnOk result (out.new.items
        ≡ out.old.items ++ flag_differences line part.now flags.0 flags.1) }
{
    if flags.0 == flags.1 {
        return Ok(());
    }
    push_changed(line, part, (yes_or_no(flags.0), yes_or_no(flags.1)), out)
}

/// Whether a word stands there.
pub fn yes_or_no(stands: bool) -> &'static [u8]
    ensures { result.now ≡ yes_or_no stands }
{
    if stands { b"yes" } else { b"no" }
}

/// Compares values.
pub fn compare_values(
    old: &Option<Bytes>,
    new: &Option<Bytes>,
    out: &mut Vec<Difference>,
) -> Result<(), AllocError>
    ensures { OnOk result (out.new.items
        ≡ out.old.items ++ value_differences old.now new.now) }
{
    if *old == *new {
        return Ok(());
    }
    let texts = (text_or_none(old), text_or_none(new));
    push_changed(Line::ConstantValue, b"value", texts, out)
}

// A text, if there is one.
fn text_or_none(text: &Option<Bytes>) -> &[u8]
    ensures { result.now ≡ unwrap_or text.now [] }
{
    match text {
        Some(text) => text.as_bytes(),
        None => &[],
    }
}

/// Compares contexts.
pub fn compare_contexts(
    old: &[Bytes],
    new: &[Bytes],
    out: &mut Vec<Difference>,
) -> Result<(), AllocError>
    ensures { OnOk result (out.new.items
        ≡ out.old.items ++ context_differences old.now new.now) }
{
    if old == new {
        return Ok(());
    }
    let was = in_a_row(*out.allocator(), old)?;
    let is = in_a_row(*out.allocator(), new)?;
    push_changed(
        Line::Context,
        b"context",
        (was.as_slice(), is.as_slice()),
        out,
    )
}

/// Names in a row, or `none`.
pub fn in_a_row<T: Named>(alloc: Global, items: &[T]) -> Result<Vec<u8>, AllocError>
    ensures { IfOk result (λ row. row.items ≡ in_a_row T.name_of items.now) }
{
    let Some((first, others)) = items.split_first() else {
        return Vec::from_slice(alloc, b"none");
    };
    let mut row = Vec::from_slice(alloc, first.name().as_bytes())?;
    for item in others {
        push_named(&mut row, item.name().as_bytes())?;
    }
    Ok(row)
}

/// Writes a name with a blank before it.
pub fn push_named(text: &mut Vec<u8>, name: &[u8]) -> Result<(), AllocError>
    ensures { OnOk result (text.new.items ≡ text.old.items ++ (codes " " ++ name.now)) }
{
    text.extend_from_slice(b" ")?;
    text.extend_from_slice(name)
}

/// A name of a part: a word, and a name behind it.
pub fn part_of(alloc: Global, word: &[u8], name: &[u8]) -> Result<Vec<u8>, AllocError>
    ensures { IfOk result (λ part. part.items ≡ word.now ++ name.now) }
{
    let mut part = Vec::from_slice(alloc, word)?;
    part.extend_from_slice(name)?;
    Ok(part)
}
