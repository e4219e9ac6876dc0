//! Classes of bytes.

ghost use Rattle.std.specs.Prelude.{◌≡◌, ◌≤◌, get_or};
ghost use Rattle.idl_lex.specs.bytes.Byte.{is_space, is_letter, is_digit, is_word_start, is_word_byte, is_quote, is_x, is_e, is_d, is_sign, digit_value, is_digit_of};
ghost use Rattle.idl_lex.specs.bytes.ByteTable.{classes};

// What each byte is: white space, a mark that stands alone, a digit, a letter or `_`, or another one.
const CLASSES: [u8; 256] = [
    0, 0, 0, 0, 0, 0, 0, 0, 0, 1, 1, 1, 1, 1, 0, 0, 0, 0, 0, 0, 0, 0, 0, 0, 0, 0, 0, 0, 0, 0, 0, 0,
    1, 0, 0, 0, 0, 0, 0, 0, 2, 2, 0, 0, 2, 0, 0, 0, 3, 3, 3, 3, 3, 3, 3, 3, 3, 3, 0, 2, 0, 0, 0, 0,
    0, 4, 4, 4, 4, 4, 4, 4, 4, 4, 4, 4, 4, 4, 4, 4, 4, 4, 4, 4, 4, 4, 4, 4, 4, 4, 4, 2, 0, 2, 0, 4,
    0, 4, 4, 4, 4, 4, 4, 4, 4, 4, 4, 4, 4, 4, 4, 4, 4, 4, 4, 4, 4, 4, 4, 4, 4, 4, 4, 2, 0, 2, 0, 0,
    0, 0, 0, 0, 0, 0, 0, 0, 0, 0, 0, 0, 0, 0, 0, 0, 0, 0, 0, 0, 0, 0, 0, 0, 0, 0, 0, 0, 0, 0, 0, 0,
    0, 0, 0, 0, 0, 0, 0, 0, 0, 0, 0, 0, 0, 0, 0, 0, 0, 0, 0, 0, 0, 0, 0, 0, 0, 0, 0, 0, 0, 0, 0, 0,
    0, 0, 0, 0, 0, 0, 0, 0, 0, 0, 0, 0, 0, 0, 0, 0, 0, 0, 0, 0, 0, 0, 0, 0, 0, 0, 0, 0, 0, 0, 0, 0,
    0, 0, 0, 0, 0, 0, 0, 0, 0, 0, 0, 0, 0, 0, 0, 0, 0, 0, 0, 0, 0, 0, 0, 0, 0, 0, 0, 0, 0, 0, 0, 0,
];

const SPACE: u8 = 1;

/// A mark that none other begins with, and neither a number nor a comment.
pub const LONE_MARK: u8 = 2;

const DIGIT: u8 = 3;

const WORD_START: u8 = 4;

/// What the byte is.
pub fn class(b: u8) -> u8
    ensures { result ≡ get_or classes b 0 }
{
    classes()[b as usize]
}

#[tactic(auto, unfolding(crate::specs::bytes::ByteTable::classes))]
fn classes() -> &'static [u8]
    ensures { result.now ≡ classes }
{
    &CLASSES
}

/// Whether the byte is a blank, a tab, a newline, a form feed or a carriage return.
pub fn is_space(b: u8) -> bool
    ensures { result ≡ is_space b }
{
    class(b) == SPACE
}

/// Whether the byte is an ASCII letter.
pub fn is_letter(b: u8) -> bool
    ensures { result ≡ is_letter b }
{
    65 <= b && b <= 90 || 97 <= b && b <= 122
}

/// Whether the byte is an ASCII digit.
pub fn is_digit(b: u8) -> bool
    ensures { result ≡ is_digit b }
{
    48 <= b && b <= 57
}

/// Whether a word can begin with the byte.
pub fn is_word_start(b: u8) -> bool
    ensures { result ≡ is_word_start b }
{
    class(b) == WORD_START
}

/// Whether the byte can stand in a word.
pub fn is_word_byte(b: u8) -> bool
    ensures { result ≡ is_word_byte b }
{
    DIGIT <= class(b)
}

/// Whether the byte is a quote of a character or of a string.
pub fn is_quote(b: u8) -> bool
    ensures { result ≡ is_quote b }
{
    b == b'\'' || b == b'"'
}

/// Whether the byte makes a number hexadecimal.
pub fn is_x(b: u8) -> bool
    ensures { result ≡ is_x b }
{
    b == b'x' || b == b'X'
}

/// Whether the byte begins an exponent.
pub fn is_e(b: u8) -> bool
    ensures { result ≡ is_e b }
{
    b == b'e' || b == b'E'
}

/// Whether the byte ends a fixed literal.
pub fn is_d(b: u8) -> bool
    ensures { result ≡ is_d b }
{
    b == b'd' || b == b'D'
}

/// Whether the byte is a sign.
pub fn is_sign(b: u8) -> bool
    ensures { result ≡ is_sign b }
{
    b == b'+' || b == b'-'
}

/// What the byte counts as a digit, a letter from 10 on; 36 of any other byte.
pub fn digit_value(b: u8) -> u8
    ensures value { result ≡ digit_value b }
    ensures small { result ≤ 36 }
{
    if is_digit(b) {
        b - b'0'
    } else if b'a' <= b && b <= b'z' {
        b - 87
    } else if b'A' <= b && b <= b'Z' {
        b - 55
    } else {
        36
    }
}

/// Whether the byte is a digit to a base of 36 at most.
pub fn is_digit_of(base: u8, b: u8) -> bool
    ensures { result ≡ is_digit_of base b }
{
    digit_value(b) < base
}
