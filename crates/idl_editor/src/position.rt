//! Positions in a text.

ghost use Rattle.std.specs.Prelude.{◌≡◌, ◌≤◌, length};
ghost use Rattle.idl_editor.specs.Positions.{end_size, is_break, line_size, line_start, offset_at, whole_size};

use crate::column::{Encoding, column_of};

/// A position in a text: a line, where 0 is the first, and a column in units of an encoding.
#[derive(Clone, Copy, Debug, PartialEq, Eq, Hash)]
pub struct Position {
    pub line: usize,
    pub column: usize,
}

/// How many bytes of a text are before a position.
///
/// A line ends in a line feed, a carriage return, or both in this order. A column behind the line is the line's end, and a
/// line behind the text is the text's end.
pub fn offset_of(encoding: Encoding, text: &[u8], position: Position) -> usize
    ensures value { result ≡ offset_at encoding text.now position }
    ensures within { result ≤ length text.now }
{
    let start = line_start(text, position.line);
    let rest = &text[start..];
    start + column_of(encoding, &rest[..line_size(rest)], position.column)
}

// Where the line of this number begins.
fn line_start(text: &[u8], line: usize) -> usize
    ensures value { result ≡ line_start line text.now }
    ensures within { result ≤ length text.now }
{
    let mut start = 0;
    'lines: for done in 0..line {
        if start == text.len() {
            return start;
        }
        start += whole_size(&text[start..]);
    }
    start
}

// How many bytes the first line has, with its end.
fn whole_size(text: &[u8]) -> usize
    ensures value { result ≡ whole_size text.now }
    ensures within { result ≤ length text.now }
{
    let size = line_size(text);
    size + end_size(&text[size..])
}

// How many bytes of a line's end these bytes begin with.
fn end_size(bytes: &[u8]) -> usize
    ensures value { result ≡ end_size bytes.now }
    ensures within { result ≤ length bytes.now }
{
    match bytes {
        [] => 0,
        [b'\r', b'\n', ..] => 2,
        _ => 1,
    }
}

// How many bytes the first line has, without its end.
fn line_size(text: &[u8]) -> usize
    ensures value { result ≡ line_size text.now }
    ensures within { result ≤ length text.now }
{
    for (size, byte) in text.iter().enumerate() {
        if is_break(*byte) {
            return size;
        }
    }
    text.len()
}

// Whether a byte ends a line.
fn is_break(byte: u8) -> bool
    ensures { result ≡ is_break byte }
{
    byte == b'\n' || byte == b'\r'
}
