//! Reading a piece byte by byte: each front of a piece is a piece, so the longest one ends where no further byte can be taken.

ghost use Rattle.std.specs.Prelude.{◌≡◌, ◌≤◌, length, IfSome};
ghost use Rattle.idl_lex.specs.bytes.Piece.{is_pair};
ghost use Rattle.idl_lex.specs.bytes.Scan.{number_step, literal_step, taken, header_len, closing_end, further};
ghost use Rattle.idl_lex.specs.declared.bytes.state.Inside.TheVariants.{Mark, Word};

use crate::bytes::byte::{is_digit, is_e, is_quote, is_sign, is_word_byte, is_word_start, is_x};
use idl_source::NEWLINE;

/// Inside which piece a place is. A number may be hexadecimal and after an `e`; a literal has its quote, and may be after a
/// backslash; a comment may be after a `*`.
#[derive(Clone, Copy)]
pub enum Inside {
    Word,
    Wide,
    Zero,
    Number(bool, bool),
    Dot,
    Literal(u8, bool),
    Slash,
    Line,
    Block(bool),
    Mark(u8),
    Whole,
}

impl Inside {
    ghost use Rattle.std.specs.Prelude.{◌≡◌};
    ghost use Rattle.idl_lex.specs.bytes.Scan.{step_of, start_of};

    /// The state after a piece's first byte.
    pub fn start(b: u8) -> Inside
        ensures { result ≡ start_of b }
    {
        if is_word_start(b) {
            if b == b'L' {
                Inside::Wide
            } else {
                Inside::Word
            }
        } else if b == b'0' {
            Inside::Zero
        } else if is_digit(b) {
            Inside::Number(false, false)
        } else if b == b'.' {
            Inside::Dot
        } else if is_quote(b) {
            Inside::Literal(b, false)
        } else if b == b'/' {
            Inside::Slash
        } else {
            Inside::Mark(b)
        }
    }

    /// The state after one more byte, or none where the piece ends before it.
    pub(crate) fn step(self, b: u8) -> Option<Inside>
        ensures { result ≡ step_of self b }
    {
        match self {
            Inside::Wide if is_quote(b) => Some(Inside::Literal(b, false)),
            Inside::Word | Inside::Wide if is_word_byte(b) => Some(Inside::Word),
            Inside::Zero if is_x(b) => Some(Inside::Number(true, false)),
            Inside::Zero => number_step(false, false, b),
            Inside::Number(is_hexadecimal, is_after_e) => number_step(
                is_hexadecimal,
                is_after_e,
                b,
            ),
            Inside::Dot if is_digit(b) => Some(Inside::Number(false, false)),
            Inside::Literal(quote, is_escaped) => literal_step(quote, is_escaped, b),
            Inside::Slash if b == b'/' => Some(Inside::Line),
            Inside::Slash if b == b'*' => Some(Inside::Block(false)),
            Inside::Line if b != NEWLINE => Some(Inside::Line),
            Inside::Block(is_after_star) if is_after_star && b == b'/' => Some(Inside::Whole),
            Inside::Block(_) => Some(Inside::Block(b == b'*')),
            Inside::Mark(a) if is_pair(a, b) => Some(Inside::Whole),
            _ => None,
        }
    }
}

/// How many of these bytes a piece takes that is in this state.
pub fn taken(state: Inside, bytes: &[u8]) -> usize
    ensures len { result ≡ taken state bytes.now }
    ensures within { result ≤ length bytes.now }
{
    let mut now = state;
    for (i, b) in bytes.iter().enumerate() {
        match now.step(*b) {
            None => return i,
            Some(next) => now = next,
        }
    }
    bytes.len()
}

/// How many bytes the longest piece has after its first one, of those that stand there; on a line that includes a file, or not.
pub fn further(includes: bool, first: u8, rest: &[u8]) -> usize
    ensures len { result ≡ further includes first rest.now }
    ensures within { result ≤ length rest.now }
{
    if includes && first == b'<' {
        if let Some(len) = header_len(rest) {
            return len;
        }
    }
    match Inside::start(first) {
        Inside::Mark(first) => mark_len(first, rest),
        state => taken(state, rest),
    }
}

/// How many bytes a word takes of these.
pub fn word_len(bytes: &[u8]) -> usize
    ensures len { result ≡ taken Word bytes.now }
    ensures within { result ≤ length bytes.now }
{
    for (i, b) in bytes.iter().enumerate() {
        if !is_word_byte(*b) {
            return i;
        }
    }
    bytes.len()
}

// How many bytes a mark has after its first one, of those that stand there.
fn mark_len(first: u8, rest: &[u8]) -> usize
    ensures len { result ≡ taken (Mark first) rest.now }
    ensures within { result ≤ length rest.now }
{
    match rest {
        [second, ..] if is_pair(first, *second) => 1,
        _ => 0,
    }
}

// How many bytes an included file's name has after its `<`, if a `>` stands on the line.
fn header_len(rest: &[u8]) -> Option<usize>
    ensures len { result ≡ header_len rest.now }
    ensures within { IfSome result (λ len. len ≤ length rest.now) }
{
    for (i, b) in rest.iter().enumerate() {
        if *b == NEWLINE {
            return None;
        }
        if *b == b'>' {
            return Some(i + 1);
        }
    }
    None
}

/// Where the last `>` of these bytes ends, or 0 where there is none: no included file's name begins from there on.
pub fn closing_end(bytes: &[u8]) -> usize
    ensures { result ≡ closing_end bytes.now }
{
    let mut end = 0;
    for (i, b) in bytes.iter().enumerate() {
        if *b == b'>' {
            end = i + 1;
        }
    }
    end
}

fn number_step(is_hexadecimal: bool, is_after_e: bool, b: u8) -> Option<Inside>
    ensures { result ≡ number_step is_hexadecimal is_after_e b }
{
    if is_word_byte(b) || b == b'.' || (is_after_e && is_sign(b)) {
        Some(Inside::Number(is_hexadecimal, is_e(b) && !is_hexadecimal))
    } else {
        None
    }
}

fn literal_step(quote: u8, is_escaped: bool, b: u8) -> Option<Inside>
    ensures { result ≡ literal_step quote is_escaped b }
{
    if b == NEWLINE {
        None
    } else if is_escaped {
        Some(Inside::Literal(quote, false))
    } else if b == quote {
        Some(Inside::Whole)
    } else {
        Some(Inside::Literal(quote, b == b'\\'))
    }
}

// Whether two bytes are one mark.
fn is_pair(a: u8, b: u8) -> bool
    ensures { result ≡ is_pair a b }
{
    (a == b
        && (a == b':'
            || a == b'<'
            || a == b'>'
            || a == b'#'
            || a == b'&'
            || a == b'|'
            || a == b'='))
        || (b == b'=' && (a == b'!' || a == b'<' || a == b'>'))
}
