//! Columns of a line, counted in units of an encoding.

ghost use Rattle.std.specs.Prelude.{◌≡◌, ◌≤◌, ◌*◌, length};
ghost use Rattle.bstr.specs.Utf8.{pieces};
ghost use Rattle.idl_editor.specs.Columns.{run_size, run_units, units};

use bstr::decode_utf8;

/// What an editor counts in a line.
#[derive(Clone, Copy, Debug, PartialEq, Eq)]
pub enum Encoding {
    /// Bytes.
    Utf8,
    /// Units of 16 bits.
    Utf16,
}

// From here on a character takes two units of 16 bits.
const SUPPLEMENTARY: char = '\u{10000}';

/// How many bytes of a line the longest run of characters takes that has at most so many units.
///
/// Within a character the column is where it begins, and behind the line it is the line's end. Bytes that are no character
/// count as U+FFFD, one for each longest piece that could begin one.
pub fn column_of(encoding: Encoding, line: &[u8], count: usize) -> usize
    ensures value { result ≡ run_size encoding count (pieces line.now) }
    ensures within { result ≤ length line.now }
{
    let mut column = 0;
    let mut left = count;
    'pieces: while column < line.len() {
        let (character, size) = decode_utf8(&line[column..]);
        let units = units(encoding, character, size);
        if units > left {
            return column;
        }
        left -= units;
        column += size;
    }
    column
}

/// How many units these bytes of a line take.
pub fn units_of(encoding: Encoding, bytes: &[u8]) -> usize
    ensures { result ≡ run_units encoding (pieces bytes.now) }
{
    let mut count = 0;
    let mut column = 0;
    'pieces: while column < bytes.len() {
        let (character, size) = decode_utf8(&bytes[column..]);
        count += units(encoding, character, size);
        column += size;
    }
    count
}

// How many units a piece of so many bytes takes.
fn units(encoding: Encoding, character: Option<char>, size: usize) -> usize
    ensures value { result ≡ units encoding (record { char = character; size = size }) }
    ensures few { 1 ≤ size → result ≤ 2 * size }
{
    match (encoding, character) {
        (Encoding::Utf8, _) => size,
        (Encoding::Utf16, Some(character)) if character >= SUPPLEMENTARY => 2,
        (Encoding::Utf16, _) => 1,
    }
}
