//! Kinds of tokens, each decided by the token's spelling.

ghost use Rattle.std.specs.Prelude.{◌≡◌, ◌∷◌, true};
ghost use Rattle.std.specs.Str.{bytes_eq};
ghost use Rattle.idl_lex.specs.kinds.Kind.{kind_of, word_kind, escaped_kind, letter_kind, other_kind, is_fraction, unmarked_kind, is_like_keyword};
ghost use Rattle.idl_lex.specs.kinds.Word.{is_word};

use crate::bytes::byte::{is_digit, is_letter, is_quote};
use crate::kinds::keyword::Keyword;
use crate::kinds::keyword_table::{are_alike, keyword_at, like_keyword};
use crate::kinds::literal::literal_kind;
use crate::kinds::mark::{Mark, PreprocessorMark};
use crate::kinds::mark_table::mark_kind;
use crate::kinds::number::number_kind;

/// What a token counts as in IDL.
#[derive(Clone, Copy, Debug, PartialEq, Eq)]
pub enum TokenKind {
    /// A keyword of the language.
    Accepted(Keyword),
    /// A keyword of the standard that this profile leaves out.
    Refused,
    /// A word that differs from a keyword in the case of letters alone.
    Miscased,
    /// A word that is no keyword.
    Identifier,
    /// `_` and an identifier, which may be spelled as a keyword.
    Escaped,
    /// An integer below 2^64.
    Integer,
    /// A literal of one character in `'`.
    Character,
    /// A literal of one character in `'`, with `L` before it.
    WideCharacter,
    /// A literal in `"`.
    String,
    /// A literal in `"`, with `L` before it.
    WideString,
    /// A mark of the language.
    Punctuation(Mark),
    /// The name of an included file in `<` and `>`.
    HeaderName,
    /// A mark that the preprocessor alone knows.
    Preprocessing(PreprocessorMark),
    /// No token of IDL.
    Bad(Defect),
}

/// Why a token is none of IDL.
#[derive(Clone, Copy, Debug, PartialEq, Eq)]
pub enum Defect {
    /// A byte that begins no token.
    UnknownByte,
    /// A word of `_` before no letter.
    NothingEscaped,
    /// A literal that isn't closed on its line.
    UnclosedLiteral,
    /// A character literal that isn't one character.
    NotOneCharacter,
    /// A literal with a bad escape, or a string with the zero character in it.
    BadEscape,
    /// A number that is neither an integer nor a floating or fixed literal.
    MalformedInteger,
    /// A floating or fixed literal.
    FloatingLiteral,
    /// An integer of 2^64 or more.
    IntegerTooLarge,
    /// A comment that isn't closed.
    UnclosedComment,
}

/// The kind of the token with this spelling.
#[tactic(auto, unfolding(crate::specs::kinds::Kind::kind_of))]
pub fn kind_of(spelling: &[u8]) -> TokenKind
    ensures { result ≡ kind_of spelling.now }
{
    match spelling {
        [] => TokenKind::Bad(Defect::UnknownByte),
        [b, rest @ ..] if is_letter(*b) => letter_kind(*b, rest, spelling),
        [b'_', rest @ ..] => escaped_kind(rest),
        [b, ..] if is_digit(*b) => number_kind(spelling),
        [b, rest @ ..] if is_quote(*b) => literal_kind(false, *b, rest),
        [b, rest @ ..] => other_kind(*b, rest, spelling),
    }
}

/// The kind of a word.
#[tactic(auto, unfolding(crate::specs::kinds::Kind::kind_of))]
pub fn kind_of_word(word: &[u8]) -> TokenKind
    requires { is_word word.now ≡ true }
    ensures { result ≡ kind_of word.now }
{
    match word {
        [b'_', escaped @ ..] => escaped_kind(escaped),
        _ => word_kind(word),
    }
}

/// Whether the word is a keyword but for the case of letters, or is one.
pub fn is_like_keyword(word: &[u8]) -> bool
    ensures { result ≡ is_like_keyword word.now }
{
    like_keyword(word).is_some()
}

// The kind of a wide literal, or of a word that begins with a letter.
fn letter_kind(b: u8, rest: &[u8], spelling: &[u8]) -> TokenKind
    requires { spelling.now ≡ b ∷ rest.now }
    ensures { result ≡ letter_kind b rest.now }
{
    match rest {
        [quote, body @ ..] if b == b'L' && is_quote(*quote) => literal_kind(true, *quote, body),
        _ => word_kind(spelling),
    }
}

// The kind of a word that begins with a letter.
fn word_kind(word: &[u8]) -> TokenKind
    ensures { result ≡ word_kind word.now }
{
    match keyword_at(word) {
        Some((spelling, kind)) if are_same(spelling, word) => kind,
        Some((spelling, _)) if are_alike(spelling, word) => TokenKind::Miscased,
        _ => TokenKind::Identifier,
    }
}

// Whether two words are the same. Words are short, and so compared byte by byte.
fn are_same(a: &[u8], b: &[u8]) -> bool
    ensures { result ≡ bytes_eq a.now b.now }
{
    if a.len() != b.len() {
        return false;
    }
    for (i, byte) in a.iter().enumerate() {
        if *byte != b[i] {
            return false;
        }
    }
    true
}

// The kind of `_` and these bytes.
fn escaped_kind(rest: &[u8]) -> TokenKind
    ensures { result ≡ escaped_kind rest.now }
{
    match rest {
        [first, ..] if is_letter(*first) => TokenKind::Escaped,
        _ => TokenKind::Bad(Defect::NothingEscaped),
    }
}

// The kind of a number that begins with a `.`, of a mark, or of what is none.
fn other_kind(b: u8, rest: &[u8], spelling: &[u8]) -> TokenKind
    requires { spelling.now ≡ b ∷ rest.now }
    ensures { result ≡ other_kind b rest.now }
{
    if is_fraction(b, rest) {
        return number_kind(spelling);
    }
    match mark_kind(spelling) {
        Some(kind) => kind,
        None => unmarked_kind(b, rest),
    }
}

// Whether these are a `.` and a digit.
fn is_fraction(b: u8, rest: &[u8]) -> bool
    ensures { result ≡ is_fraction b rest.now }
{
    match rest {
        [digit, ..] if b == b'.' => is_digit(*digit),
        _ => false,
    }
}

// The kind of what is no mark.
fn unmarked_kind(b: u8, rest: &[u8]) -> TokenKind
    ensures { result ≡ unmarked_kind b rest.now }
{
    match rest {
        [.., b'>'] if b == b'<' => TokenKind::HeaderName,
        [b'*', ..] if b == b'/' => TokenKind::Bad(Defect::UnclosedComment),
        _ => TokenKind::Bad(Defect::UnknownByte),
    }
}
