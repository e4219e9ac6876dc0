//! A change of a text as one splice of lines.
//!
//! Positions are looked up in the bytes of the text, and the splice is of the lines that the change touches between two
//! line feeds: there a text is cut by itself (`joined_lines`), whatever carriage returns stand in it.

ghost use Rattle.std.specs.Prelude.{◌≡◌, ◌≤◌, ◌++◌, IfOk, length, slice_range};
ghost use Rattle.idl_base.specs.Spans.{piece};
ghost use Rattle.idl_source.specs.texts.Cut.{cut_lines};
ghost use Rattle.idl_editor.specs.Changes.{replaced};
ghost use Rattle.idl_editor.specs.Splices.{IsSplice, IsWholeAround};

use idl_base::ByteRange;
use idl_source::{Line, NEWLINE, Span, cut};
use memchr::{memchr, memrchr};
use std::alloc::{AllocError, Global};

/// Lines in the place of a span of lines.
#[derive(Drop)]
pub struct LineSplice {
    pub span: Span,
    pub lines: Vec<Line>,
}

/// What becomes of the lines of a text where other bytes stand in the place of a range of it. The lines that the range
/// touches are cut anew.
pub fn splice_of(
    alloc: Global,
    text: &[u8],
    range: ByteRange,
    new: &[u8],
) -> Result<LineSplice, AllocError>
    requires ordered { range.from ≤ range.to }
    requires within { range.to ≤ length text.now }
    ensures { IfOk result (λ splice.
        IsSplice (cut_lines text.now) splice (cut_lines (replaced text.now range new.now))) }
{
    let whole = whole_around(text, range);
    let mut middle = Vec::from_slice(alloc, &text[whole.from..range.from])?;
    middle.extend_from_slice(new)?;
    middle.extend_from_slice(&text[range.to..whole.to])?;
    let lines = cut(alloc, &middle)?;
    let span = Span {
        from: line_count(&text[..whole.from]) + 1,
        del: line_count(&text[whole.from..whole.to]),
    };
    Ok(LineSplice { span, lines })
}

// The lines that a range touches, with their ends.
fn whole_around(text: &[u8], range: ByteRange) -> ByteRange
    requires ordered { range.from ≤ range.to }
    requires within { range.to ≤ length text.now }
    ensures { IsWholeAround text.now range result }
{
    let from = match memrchr(NEWLINE, &text[..range.from]) {
        Some(place) => place + 1,
        None => 0,
    };
    let to = match memchr(NEWLINE, &text[range.to..]) {
        Some(place) => range.to + place + 1,
        None => text.len(),
    };
    ByteRange { from, to }
}

// How many lines a file of these bytes has.
fn line_count(bytes: &[u8]) -> usize
    ensures count { result ≡ length (cut_lines bytes.now) }
    ensures within { result ≤ length bytes.now }
{
    let mut count: usize = 0;
    let mut begun = false;
    for byte in bytes {
        begun = *byte != NEWLINE;
        if !begun {
            count += 1;
        }
    }
    if begun { count + 1 } else { count }
}
