//! Character and string literals: what stands between their quotes, and what they count as.

ghost use Rattle.std.specs.Prelude.{◌≡◌, ◌≤◌, ◌<◌, ◌+◌, ◌^◌, ◌∷◌, [], drop, length, take, Some, None, IfOk, IfSome, IfNone, Bool};
ghost use Rattle.std.specs.Option.{option_copied, option_map};
ghost use Rattle.idl_lex.specs.kinds.Literal.{body_of, literal_kind, simple_escape, numbered_character, after_letter, by_number, escape, digits_len, characters, character_kind, one_kind, string_kind, literal_value, quoted_value, closed_value, closing, all_good, is_text_character};

use crate::bytes::byte::{is_digit_of, is_quote};
use crate::kinds::kind::{Defect, TokenKind};
use crate::kinds::number::{are_digits, number};
use idl_source::idl_base::Seq;
use std::alloc::{AllocError, Global};

const BACKSLASH: u8 = b'\\';

/// The kind of a literal: whether it is wide, its quote, and the bytes after that quote.
pub fn literal_kind(is_wide: bool, quote: u8, rest: &[u8]) -> TokenKind
    ensures { result ≡ literal_kind is_wide quote rest.now }
{
    match body_of(quote, rest) {
        None => TokenKind::Bad(Defect::UnclosedLiteral),
        Some(body) if quote == b'\'' => character_kind(is_wide, body),
        Some(body) => string_kind(is_wide, body),
    }
}

/// The value of a literal: the numbers of its characters, with what its escapes stand for; of a byte its own (ISO 8859-1). `None` of
/// what is no closed literal, or has a bad escape. The spelling is a token's: what stands behind a closing quote isn't looked at.
pub fn decode(alloc: Global, spelling: &[u8]) -> Result<Option<Seq<u16>>, AllocError>
    ensures { IfOk result (λ value. value ≡ literal_value spelling.now) }
{
    match spelling {
        [b'L', rest @ ..] => quoted_value(alloc, true, rest),
        _ => quoted_value(alloc, false, spelling),
    }
}

// The bytes before the closing quote, if there is one.
fn body_of(quote: u8, rest: &[u8]) -> Option<&[u8]>
    ensures { option_copied result ≡ body_of quote rest.entry.now }
{
    match closing(quote, rest) {
        Some(len) => Some(&rest[..len]),
        None => None,
    }
}

// How many bytes stand before the closing quote, if there is one.
fn closing(quote: u8, rest: &[u8]) -> Option<usize>
    ensures len { result ≡ closing quote Bool.false rest.now }
    ensures within { IfSome result (λ len. len ≤ length rest.now) }
{
    let mut is_escaped = false;
    let mut i = 0;
    'bytes: while i < rest.len() {
        if is_escaped {
            is_escaped = false;
        } else if rest[i] == quote {
            return Some(i);
        } else {
            is_escaped = rest[i] == BACKSLASH;
        }
        i += 1;
    }
    None
}

// The kind of a character literal with these bytes between its quotes.
fn character_kind(is_wide: bool, body: &[u8]) -> TokenKind
    ensures { result ≡ character_kind is_wide (characters is_wide body.now) }
{
    let Some((character, len)) = first_character(is_wide, body) else {
        return TokenKind::Bad(Defect::NotOneCharacter);
    };
    if len == body.len() {
        return one_kind(is_wide, character);
    }
    TokenKind::Bad(Defect::NotOneCharacter)
}

// The kind of a character literal with this character, or a bad escape, between its quotes.
fn one_kind(is_wide: bool, character: Option<u16>) -> TokenKind
    ensures { result ≡ one_kind is_wide character }
{
    match character {
        None => TokenKind::Bad(Defect::BadEscape),
        Some(_) if is_wide => TokenKind::WideCharacter,
        Some(_) => TokenKind::Character,
    }
}

// The kind of a string literal with these bytes between its quotes.
fn string_kind(is_wide: bool, body: &[u8]) -> TokenKind
    ensures { result ≡ string_kind is_wide (characters is_wide body.now) }
{
    let mut left = body;
    'characters: while let Some((character, len)) = first_character(is_wide, left) {
        if !is_text_character(character) {
            return TokenKind::Bad(Defect::BadEscape);
        }
        left = &left[len..];
    }
    if is_wide {
        TokenKind::WideString
    } else {
        TokenKind::String
    }
}

// Whether a character may stand in a string.
fn is_text_character(character: Option<u16>) -> bool
    ensures { result ≡ is_text_character character }
{
    match character {
        None => false,
        Some(character) => character != 0,
    }
}

// The value of a literal that begins with its quote.
fn quoted_value(alloc: Global, is_wide: bool, bytes: &[u8]) -> Result<Option<Seq<u16>>, AllocError>
    ensures { IfOk result (λ value. value ≡ quoted_value is_wide bytes.now) }
{
    match bytes {
        [quote, rest @ ..] if is_quote(*quote) => closed_value(alloc, is_wide, *quote, rest),
        _ => Ok(None),
    }
}

// The characters of a literal, if it is closed, and no escape in it is bad.
fn closed_value(
    alloc: Global,
    is_wide: bool,
    quote: u8,
    rest: &[u8],
) -> Result<Option<Seq<u16>>, AllocError>
    ensures { IfOk result (λ value. value ≡ closed_value is_wide (body_of quote rest.now)) }
{
    match body_of(quote, rest) {
        None => Ok(None),
        Some(body) => body_value(alloc, is_wide, body),
    }
}

// The characters between the quotes, if no escape is bad.
fn body_value(alloc: Global, is_wide: bool, body: &[u8]) -> Result<Option<Seq<u16>>, AllocError>
    ensures { IfOk result (λ value. value ≡ all_good (characters is_wide body.now)) }
{
    let mut value = Vec::new(alloc);
    let mut left = body;
    'characters: while let Some((character, len)) = first_character(is_wide, left) {
        match character {
            None => return Ok(None),
            Some(character) => value.push(character)?,
        }
        left = &left[len..];
    }
    Ok(Some(Seq::from_vec(value)))
}

// The first character, or none for a bad escape, and how many bytes it takes.
fn first_character(is_wide: bool, bytes: &[u8]) -> Option<(Option<u16>, usize)>
    ensures some { IfSome result
        (λ read. characters is_wide bytes.now
        ≡ read.0 ∷ characters is_wide (drop read.1 bytes.now)) }
    ensures within { IfSome result (λ read. (0 < read.1) × (read.1 ≤ length bytes.now)) }
    ensures none { IfNone result (bytes.now ≡ []) }
{
    let Some((first, rest)) = bytes.split_first() else {
        return None;
    };
    if *first != BACKSLASH {
        return Some((Some(u16::from(*first)), 1));
    }
    let (character, len) = escape(is_wide, rest);
    Some((character, 1 + len))
}

// What stands after a backslash, and how many bytes it takes.
fn escape(is_wide: bool, bytes: &[u8]) -> (Option<u16>, usize)
    ensures value { result ≡ escape is_wide bytes.now }
    ensures within { result.1 ≤ length bytes.now }
{
    match bytes {
        [] => (None, 0),
        [b, ..] if is_digit_of(8, *b) => by_number(8, 3, 255, bytes),
        [b'x', rest @ ..] => after_letter(by_number(16, 2, 255, rest)),
        [b'u', rest @ ..] if is_wide => after_letter(by_number(16, 4, 65535, rest)),
        [b, ..] => (simple_escape(*b), 1),
    }
}

// A character by its number, of a few digits to a base, at most this; and how many bytes it takes.
fn by_number(base: u8, digits: usize, most: u16, bytes: &[u8]) -> (Option<u16>, usize)
    requires { (0 < base) × (base ≤ 36) }
    ensures value { result ≡ by_number base digits most bytes.now }
    ensures within { result.1 ≤ length bytes.now }
{
    let len = digits_len(base, digits, bytes);
    (numbered_character(base, most, &bytes[..len]), len)
}

// What was read behind a letter, with that letter.
fn after_letter(read: (Option<u16>, usize)) -> (Option<u16>, usize)
    requires { read.1 < 2 ^ 63 }
    ensures { result ≡ after_letter read }
{
    let (character, len) = read;
    (character, 1 + len)
}

// How many digits stand here, up to a limit.
fn digits_len(base: u8, most: usize, bytes: &[u8]) -> usize
    ensures len { result ≡ digits_len base most bytes.now }
    ensures within { result ≤ length bytes.now }
{
    bytes
        .iter()
        .take(most)
        .take_while(|b| is_digit_of(base, **b))
        .count()
}

// The character of a number that is at most this.
fn numbered_character(base: u8, most: u16, digits: &[u8]) -> Option<u16>
    requires { 0 < base }
    ensures { result ≡ numbered_character base most digits.now }
{
    if !are_digits(base, digits) {
        return None;
    }
    let value = number(base, digits)?;
    if value > u64::from(most) {
        return None;
    }
    Some(value as u16)
}

// What a letter or a sign stands for after a backslash.
fn simple_escape(b: u8) -> Option<u16>
    ensures { result ≡ simple_escape b }
{
    match b {
        b'n' => Some(10),
        b't' => Some(9),
        b'v' => Some(11),
        b'b' => Some(8),
        b'r' => Some(13),
        b'f' => Some(12),
        b'a' => Some(7),
        b'\\' | b'?' | b'\'' | b'"' => Some(u16::from(b)),
        _ => None,
    }
}
