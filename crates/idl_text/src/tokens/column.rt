//! Where a token begins on its line.

ghost use Rattle.std.specs.Prelude.{◌≡◌, ◌∷◌, [], ℕ, List, Option, Some, drop, filter, map, nat_eq, slice_get, true};
ghost use Rattle.std.specs.List.{starts_with};
ghost use Rattle.std.specs.Option.{option_copied};
ghost use Rattle.std.specs.Str.{bytes_eq};
ghost use Rattle.idl_lex.specs.bytes.Columns.{text_from};
ghost use Rattle.idl_lex.specs.bytes.Context.{line_start};
ghost use Rattle.idl_lex.specs.tokens.Tokens.{tokens_of};
ghost use Rattle.idl_text.specs.Starts.{Start, column_among, column_if, column_in, column_of_only, column_with, cut_after, line_of, on_line, starts_left, starts_of};

use crate::tokens::lexed::Lexed;
use crate::tokens::starts_left::StartsLeft;
use idl_source::Line;

/// How many bytes of its line are before a token of a file: before the one that has this number on the line, from 0 on, if it is
/// spelled so, or else before the only one there that is. What goes over joined lines has no column.
///
/// It takes no memory, and goes over the chunk of the line alone.
pub fn column_in(lexed: &Lexed, line: u32, number: Option<usize>, text: &[u8]) -> Option<usize>
    ensures { result ≡ column_in lexed.now line number text.now }
{
    let bytes = line_of(lexed.file().lines(), line)?.as_bytes();
    column_with(bytes, column_among(lexed, line, number, text), text)
}

/// A column at which a line goes on with this text: one that goes over joined lines has none.
pub(crate) fn column_with(bytes: &[u8], column: Option<usize>, text: &[u8]) -> Option<usize>
    ensures { result ≡ column_with text.now bytes.now column }
{
    let column = column?;
    let rest = &bytes[column.min(bytes.len())..];
    if rest.starts_with(text) {
        Some(column)
    } else {
        None
    }
}

/// The line with this number, from 1 on.
pub(crate) fn line_of(lines: &[Line], number: u32) -> Option<&Line>
    ensures { option_copied result ≡ line_of lines.now number }
{
    if number == 0 {
        return None;
    }
    lines.get(number as usize - 1)
}

// Where the token begins that is looked for.
fn column_among(lexed: &Lexed, line: u32, number: Option<usize>, text: &[u8]) -> Option<usize>
    ensures { result ≡ column_among number text.now (on_line line (starts_of lexed.now)) }
{
    let starts = lexed.starts_around(line)?.starts;
    if let Some(number) = number {
        if let Some(column) = column_by(&starts, line, number, text) {
            return Some(column);
        }
    }
    column_of_only(&starts, line, text)
}

// Where the token with this number on the line begins, if it is spelled so.
fn column_by(starts: &StartsLeft<'_>, line: u32, number: usize, text: &[u8]) -> Option<usize>
    ensures { result
        ≡ column_if text.now (slice_get (on_line line (starts_left starts.now)) number) }
{
    let mut left = starts.copied();
    let mut count = 0;
    'starts: while let Some((token, column)) = left.next() {
        if token.line() != line {
            continue;
        }
        if count == number {
            return if token.token().as_bytes() == text {
                Some(column)
            } else {
                None
            };
        }
        count += 1;
    }
    None
}

// Where the only token on the line begins that is spelled so.
fn column_of_only(starts: &StartsLeft<'_>, line: u32, text: &[u8]) -> Option<usize>
    ensures { result
        ≡ column_of_only (filter (λ s. bytes_eq s.0.token text.now)
        (on_line line (starts_left starts.now))) }
{
    let mut left = starts.copied();
    let mut only = None;
    'starts: while let Some((token, column)) = left.next() {
        if token.line() != line || token.token().as_bytes() != text {
            continue;
        }
        if only.is_some() {
            return None;
        }
        only = Some(column);
    }
    only
}

/// Each token of a file begins where its piece does, as the lexer cuts the text, and none is left out. This does nothing: it carries
/// the laws.
pub fn beginnings()
    ensures all { (lines : List (List ℕ)) → map (λ s. s.0) (starts_of lines) ≡ tokens_of lines }
    ensures places { (lines : List (List ℕ))
        → starts_of lines ≡ cut_after line_start 0 (text_from 1 lines) }
{}

/// Where a column is told, the line goes on with the text there. It is told of the token with the number, where that is spelled so, and
/// of the only one that is spelled so, unless these go over joined lines.
///
/// This does nothing: it carries the laws.
pub fn columns()
    ensures there { (lines : List (List ℕ)) (line : ℕ) (number : Option ℕ)
        (text bytes : List ℕ) (column : ℕ) → line_of lines line ≡ Some bytes
        → column_in lines line number text ≡ Some column
        → starts_with nat_eq (drop column bytes) text ≡ true }
    ensures numbered { (lines : List (List ℕ)) (line number : ℕ) (text bytes : List ℕ) (s : Start)
        → line_of lines line ≡ Some bytes
        → slice_get (on_line line (starts_of lines)) number ≡ Some s
        → bytes_eq s.0.token text ≡ true
        → column_in lines line (Some number) text ≡ column_with text bytes (Some s.1) }
    ensures only { (lines : List (List ℕ)) (line : ℕ) (number : Option ℕ) (text bytes : List ℕ)
        (s : Start) → line_of lines line ≡ Some bytes
        → filter (λ s. bytes_eq s.0.token text) (on_line line (starts_of lines)) ≡ s ∷ []
        → column_in lines line number text ≡ column_with text bytes (Some s.1) }
{}
