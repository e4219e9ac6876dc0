//! The joined text of a file's lines, byte by byte: so each byte is found where it stands, and the gaps between tokens are passed
//! over. No memory is taken, and no bytes are put together.

ghost use Rattle.std.specs.Prelude.{◌≡◌, ◌≤◌, ◌<◌, ◌+◌, ◌^◌, ◌++◌, ◌∷◌, ◌↔◌, [], drop, false, get_or, length, IfNone, IfSome, IsTrue, MatchOption};
ghost use Rattle.idl_lex.specs.bytes.Columns.{behind_gaps, bytes_in, bytes_left, ending, gap_length, standing, text_from, text_of_line};
ghost use Rattle.idl_lex.specs.bytes.Context.{closes, ends_block};
ghost use Rattle.idl_lex.specs.bytes.Scan.{taken};

use crate::bytes::byte::is_space;
use crate::bytes::state::Inside;
use crate::tokens::logical::{front, is_continued};
use idl_source::{Line, NEWLINE};
use std::marker::Model;

/// A byte of a joined text where it stands: the number of its line, and how many bytes of that line are before it.
#[derive(Clone, Copy)]
pub struct TextByte {
    pub byte: u8,
    pub line: u32,
    pub column: usize,
}

/// The joined text of lines, from a byte on. To every contract it is the list of its bytes.
#[derive(Drop)]
pub struct TextLeft<'a> {
    here: LineLeft<'a>,
    // The lines after the one that is read.
    later: &'a [Line],
}

// What the line with this number has of the text but the newline that ends it, whether one does, and how many of these bytes are
// passed.
#[derive(Clone, Copy)]
struct LineLeft<'a> {
    number: u32,
    bytes: &'a [u8],
    ends: bool,
    column: usize,
}

impl<'a> Model for TextLeft<'a> {
    ghost use Rattle.std.specs.Prelude.{◌+◌, ◌<◌, ◌^◌, ◌++◌, List, length};
    ghost use Rattle.idl_lex.specs.bytes.Columns.{bytes_left, text_from};
    ghost use Rattle.idl_lex.specs.declared.bytes.text_left.TextByte.{TextByte};

    ghost Value = { List TextByte };

    ghost view = { λ left. bytes_left left.here ++ text_from (left.here.number + 1) left.later.now };

    ghost invariant = { λ left. left.here.number + length left.later.now < 2 ^ 32 };
}

impl<'a> TextLeft<'a> {
    /// The text of lines of a file, of which so many are before them.
    pub fn new(lines: &'a [Line], before: u32) -> TextLeft<'a>
        requires { before + length lines.now ≤ 200000 }
        ensures { result ≡ text_from (before + 1) lines.now }
    {
        TextLeft {
            here: LineLeft {
                number: before,
                bytes: &[],
                ends: false,
                column: 0,
            },
            later: lines,
        }
    }

    /// The same text again. It takes no memory.
    pub fn copied(&self) -> TextLeft<'a>
        ensures { result ≡ self.now }
    {
        TextLeft {
            here: self.here,
            later: self.later,
        }
    }

    /// The first byte, and those after it.
    pub fn split_first(&self) -> Option<(TextByte, TextLeft<'a>)>
        ensures { MatchOption result (self.now ≡ []) (λ parts. self.now ≡ parts.0 ∷ parts.1) }
    {
        let mut here = self.here;
        let mut later = self.later;
        'lines: while here.is_passed() {
            let [next, rest @ ..] = later else {
                return None;
            };
            here = LineLeft::new(here.number + 1, next, rest);
            later = rest;
        }
        let (first, here) = here.split_first();
        Some((first, TextLeft { here, later }))
    }

    /// What comes after the white bytes and the closed comments with which it begins.
    pub fn behind_gaps(&self) -> TextLeft<'a>
        ensures { result ≡ behind_gaps self.now }
    {
        let mut left = self.copied();
        'gaps: while let Some(behind) = left.behind_gap() {
            left = behind;
        }
        left
    }

    /// What comes after so many bytes.
    pub fn behind_bytes(&self, count: usize) -> TextLeft<'a>
        ensures { result ≡ drop count self.now }
    {
        let mut left = self.copied();
        for _ in 0..count {
            let Some((_first, rest)) = left.split_first() else {
                return left;
            };
            left = rest;
        }
        left
    }

    // What comes after the white byte or the closed comment with which it begins, if it begins with one.
    fn behind_gap(&self) -> Option<TextLeft<'a>>
        ensures none { IfNone result (gap_length (bytes_in self.now) ≡ 0) }
        ensures some { IfSome result (λ behind. 1 ≤ gap_length (bytes_in self.now)) }
        ensures behind { IfSome result (λ behind.
            behind ≡ drop (gap_length (bytes_in self.now)) self.now) }
    {
        let (first, rest) = self.split_first()?;
        if is_space(first.byte) {
            return Some(rest);
        }
        if first.byte != b'/' {
            return None;
        }
        if !rest.closes() {
            return None;
        }
        Some(rest.behind_piece(Inside::Slash))
    }

    // Whether it makes, after a `/`, a comment that is closed.
    fn closes(&self) -> bool
        ensures { result ≡ closes (bytes_in self.now) }
    {
        let Some((first, rest)) = self.split_first() else {
            return false;
        };
        if first.byte == b'/' {
            return true;
        }
        if first.byte != b'*' {
            return false;
        }
        rest.ends_block()
    }

    // Whether `*/` stands in it.
    fn ends_block(&self) -> bool
        ensures { result ≡ ends_block false (bytes_in self.now) }
    {
        let mut left = self.copied();
        let mut is_after_star = false;
        'bytes: while let Some((first, rest)) = left.split_first() {
            if is_after_star && first.byte == b'/' {
                return true;
            }
            is_after_star = first.byte == b'*';
            left = rest;
        }
        false
    }

    // What comes after the bytes that a piece takes that is in this state.
    fn behind_piece(&self, state: Inside) -> TextLeft<'a>
        ensures { result ≡ drop (taken state (bytes_in self.now)) self.now }
    {
        let mut left = self.copied();
        let mut now = state;
        'bytes: while let Some((first, rest)) = left.split_first() {
            let Some(next) = now.step(first.byte) else {
                return left;
            };
            now = next;
            left = rest;
        }
        left
    }
}

impl<'a> LineLeft<'a> {
    // The line with this number, before these others.
    fn new(number: u32, line: &'a Line, later: &[Line]) -> LineLeft<'a>
        ensures number { result.number ≡ number }
        ensures all { bytes_left result ≡ standing number 0 (text_of_line line.now later.now) }
    {
        let bytes = line.as_bytes();
        let is_joined = !later.is_empty() && is_continued(bytes);
        LineLeft {
            number,
            bytes: if is_joined { front(bytes) } else { bytes },
            ends: !is_joined,
            column: 0,
        }
    }

    // Whether none of its bytes is left.
    fn is_passed(&self) -> bool
        ensures { IsTrue result ↔ (bytes_left self.now ≡ []) }
    {
        if self.ends {
            self.bytes.len() < self.column
        } else {
            self.bytes.len() <= self.column
        }
    }

    // The first of its bytes that are left, and those after it.
    fn split_first(&self) -> (TextByte, LineLeft<'a>)
        requires { 0 < length (bytes_left self.now) }
        ensures all { bytes_left self.now ≡ result.0 ∷ bytes_left result.1 }
        ensures number { result.1.number ≡ self.now.number }
    {
        let first = TextByte {
            byte: self.byte(),
            line: self.number,
            column: self.column,
        };
        let rest = LineLeft {
            number: self.number,
            bytes: self.bytes,
            ends: self.ends,
            column: self.column + 1,
        };
        (first, rest)
    }

    // The first of them, without its place.
    fn byte(&self) -> u8
        requires { self.now.column < length (self.now.bytes.now ++ ending self.now.ends) }
        ensures is { result ≡ get_or (self.now.bytes.now ++ ending self.now.ends) self.now.column 0 }
        ensures room { self.now.column < 2 ^ 63 }
    {
        if self.column < self.bytes.len() {
            self.bytes[self.column]
        } else {
            NEWLINE
        }
    }
}
