//! Numbers: integers with their values, and what is none.

ghost use Rattle.std.specs.Prelude.{◌≡◌, ◌^◌, ◌<◌, ◌≤◌, ◌+◌, ◌*◌, ◌||◌, nat_eq, IfSome, IfNone};
ghost use Rattle.std.specs.List.{list_all, list_any};
ghost use Rattle.idl_lex.specs.bytes.Byte.{is_digit_of, is_e, is_d};
ghost use Rattle.idl_lex.specs.kinds.Number.{number, number_kind, integer_value, based, no_integer, is_floating, is_hexadecimal, are_digits};

use crate::bytes::byte::{digit_value, is_d, is_digit_of, is_e, is_x};
use crate::kinds::kind::{Defect, TokenKind};

/// The kind of a number: an integer below 2^64, or why it is none.
pub fn number_kind(spelling: &[u8]) -> TokenKind
    ensures { result ≡ number_kind spelling.now }
{
    let (base, digits) = based(spelling);
    if !are_digits(base, digits) {
        return no_integer(spelling);
    }
    match number(base, digits) {
        Some(_) => TokenKind::Integer,
        None => TokenKind::Bad(Defect::IntegerTooLarge),
    }
}

/// The value of the integer with this spelling; `None` of what is no integer below 2^64.
pub fn integer_value(spelling: &[u8]) -> Option<u64>
    ensures { result ≡ integer_value spelling.now }
{
    let (base, digits) = based(spelling);
    if !are_digits(base, digits) {
        return None;
    }
    number(base, digits)
}

// The base to which a number is written, and its digits.
fn based(spelling: &[u8]) -> (u8, &[u8])
    ensures same { (result.0, result.1.now) ≡ based spelling.entry.now }
    ensures base { 0 < result.0 }
{
    match spelling {
        [b'0', x, digits @ ..] if is_x(*x) => (16, digits),
        [b'0', ..] => (8, spelling),
        _ => (10, spelling),
    }
}

/// Whether there are bytes, and all of them are digits to the base.
pub fn are_digits(base: u8, digits: &[u8]) -> bool
    ensures { result ≡ are_digits base digits.now }
{
    match digits {
        [] => false,
        _ => are_all_digits(base, digits),
    }
}

// Whether all bytes are digits to the base.
fn are_all_digits(base: u8, bytes: &[u8]) -> bool
    ensures { result ≡ list_all (is_digit_of base) bytes.now }
{
    bytes.iter().all(|b| is_digit_of(base, *b))
}

/// The number that the digits spell to a base, if it is below 2^64.
pub fn number(base: u8, digits: &[u8]) -> Option<u64>
    requires { 0 < base }
    ensures some { IfSome result (λ value. value ≡ number base digits.now) }
    ensures below { IfSome result (λ value. value < 2 ^ 64) }
    ensures none { IfNone result (2 ^ 64 ≤ number base digits.now) }
{
    let mut value = 0u64;
    for b in digits {
        match with_digit(value, base, digit_value(*b)) {
            None => return None,
            Some(next) => value = next,
        }
    }
    Some(value)
}

// The number with one digit more, if it is below 2^64.
fn with_digit(value: u64, base: u8, digit: u8) -> Option<u64>
    ensures some { IfSome result (λ next. next ≡ value * base + digit) }
    ensures below { IfSome result (λ next. next < 2 ^ 64) }
    ensures none { IfNone result (2 ^ 64 ≤ value * base + digit) }
{
    value
        .checked_mul(u64::from(base))?
        .checked_add(u64::from(digit))
}

// What is wrong with a number that is no integer.
fn no_integer(spelling: &[u8]) -> TokenKind
    ensures { result ≡ no_integer spelling.now }
{
    if is_floating(spelling) {
        TokenKind::Bad(Defect::FloatingLiteral)
    } else {
        TokenKind::Bad(Defect::MalformedInteger)
    }
}

// Whether the number is one of floating or fixed point.
fn is_floating(spelling: &[u8]) -> bool
    ensures { result ≡ is_floating spelling.now }
{
    if holds_dot(spelling) {
        return true;
    }
    if is_hexadecimal(spelling) {
        return false;
    }
    holds_suffix(spelling)
}

// Whether there is a `.`.
fn holds_dot(bytes: &[u8]) -> bool
    ensures { result ≡ list_any (λ b. nat_eq b 46) bytes.now }
{
    bytes.iter().any(|b| *b == b'.')
}

// Whether there is a letter of an exponent or of a fixed literal.
fn holds_suffix(bytes: &[u8]) -> bool
    ensures { result ≡ list_any (λ b. is_e b || is_d b) bytes.now }
{
    bytes.iter().any(|b| is_e(*b) || is_d(*b))
}

// Whether the number begins with `0x` or `0X`.
fn is_hexadecimal(spelling: &[u8]) -> bool
    ensures { result ≡ is_hexadecimal spelling.now }
{
    match spelling {
        [b'0', x, ..] => is_x(*x),
        _ => false,
    }
}
