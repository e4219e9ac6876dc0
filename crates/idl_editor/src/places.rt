//! Places in files as positions of an editor.

ghost use Rattle.std.specs.Prelude.{◌≡◌, ◌≤◌, ◌<◌, ◌^◌, length};
ghost use Rattle.idl_editor.specs.Places.{behind_return, is_around, is_up_to, position_behind, returns};

use crate::change::Range;
use crate::column::{Encoding, units_of};
use crate::position::Position;
use memchr::{memchr_iter, memrchr};

// What ends a line to an editor, and none in a file.
const RETURN: u8 = b'\r';

/// The position behind these bytes of a line, behind so many lines of an editor.
pub fn position_behind(encoding: Encoding, before: usize, bytes: &[u8]) -> Position
    requires { before < 2 ^ 62 }
    ensures { result ≡ position_behind encoding before bytes.now }
{
    Position {
        line: before + returns_in(bytes),
        column: units_of(encoding, behind_return(bytes)),
    }
}

// The bytes behind the last carriage return.
fn behind_return(bytes: &[u8]) -> &[u8]
    ensures { result.now ≡ behind_return bytes.now }
{
    match memrchr(RETURN, bytes) {
        Some(place) => &bytes[place + 1..],
        None => bytes,
    }
}

/// How many carriage returns these bytes have.
pub fn returns_in(bytes: &[u8]) -> usize
    ensures value { result ≡ returns bytes.now }
    ensures few { result ≤ length bytes.now }
{
    memchr_iter(RETURN, bytes).count()
}

/// Whether a range goes from nowhere before to nowhere behind another one.
pub fn is_around(outer: Range, inner: Range) -> bool
    ensures { result ≡ is_around outer inner }
{
    is_up_to(outer.start, inner.start) && is_up_to(inner.end, outer.end)
}

/// Whether a position is the same as another one, or before it.
pub fn is_up_to(one: Position, other: Position) -> bool
    ensures { result ≡ is_up_to one other }
{
    one.line < other.line || one.line == other.line && one.column <= other.column
}
