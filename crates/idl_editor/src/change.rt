//! Changes of a text, as an editor tells them.

ghost use Rattle.std.specs.Prelude.{◌≡◌, ◌≤◌, IfOk, length};
ghost use Rattle.idl_source.specs.texts.Cut.{cut_lines};
ghost use Rattle.idl_editor.specs.Changes.{changed_in, replaced, text_after};
ghost use Rattle.idl_editor.specs.Splices.{IsSplice};

use crate::column::Encoding;
use crate::position::{Position, offset_of};
use crate::splice::{LineSplice, splice_of};
use idl_base::ByteRange;
use std::alloc::{AllocError, Global};

/// A range of a text, from a position up to another one.
#[derive(Clone, Copy, Debug, PartialEq, Eq, Hash)]
pub struct Range {
    pub start: Position,
    pub end: Position,
}

/// Other text in the place of a range, or of the whole text.
#[derive(Clone, Copy)]
pub struct ContentChange<'a> {
    pub range: Option<Range>,
    pub text: &'a [u8],
}

/// A text after a change, and what becomes of the lines of the file before it.
#[derive(Drop)]
pub struct EditedText {
    pub text: Vec<u8>,
    pub splice: LineSplice,
}

/// The text after a change, and the splice by which the lines of the old text become those of the new one.
pub fn after_change(
    alloc: Global,
    encoding: Encoding,
    text: &[u8],
    change: ContentChange<'_>,
) -> Result<EditedText, AllocError>
    ensures text { IfOk result (λ after.
        after.text.items ≡ text_after encoding text.now change.entry) }
    ensures lines { IfOk result (λ after.
        IsSplice (cut_lines text.now) after.splice (cut_lines after.text.items)) }
{
    let range = range_of(encoding, text, change.range);
    let splice = splice_of(alloc, text, range, change.text)?;
    let text = replaced(alloc, text, range, change.text)?;
    Ok(EditedText { text, splice })
}

// The bytes that a change takes the place of.
fn range_of(encoding: Encoding, text: &[u8], range: Option<Range>) -> ByteRange
    ensures value { result ≡ changed_in encoding text.now range }
    ensures ordered { result.from ≤ result.to }
    ensures within { result.to ≤ length text.now }
{
    match range {
        None => ByteRange {
            from: 0,
            to: text.len(),
        },
        Some(range) => {
            let from = offset_of(encoding, text, range.start);
            let to = offset_of(encoding, text, range.end).max(from);
            ByteRange { from, to }
        }
    }
}

// A text with other bytes in the place of a range.
fn replaced(alloc: Global, text: &[u8], range: ByteRange, new: &[u8]) -> Result<Vec<u8>, AllocError>
    requires ordered { range.from ≤ range.to }
    requires within { range.to ≤ length text.now }
    ensures { IfOk result (λ after. after.items ≡ replaced text.now range new.now) }
{
    let mut after = Vec::from_slice(alloc, &text[..range.from])?;
    after.extend_from_slice(new)?;
    after.extend_from_slice(&text[range.to..])?;
    Ok(after)
}
