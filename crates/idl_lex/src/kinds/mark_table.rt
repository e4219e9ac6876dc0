//! The marks by their bytes.

ghost use Rattle.std.specs.Prelude.{◌≡◌, ◌∷◌, [], true};
ghost use Rattle.idl_lex.specs.kinds.Kind.{kind_of};
ghost use Rattle.idl_lex.specs.kinds.Marks.{is_lone_mark, mark_kind};

use crate::bytes::byte::{LONE_MARK, class};
use crate::kinds::kind::{Defect, TokenKind};
use crate::kinds::mark::{Mark, PreprocessorMark};

/// The kind of the mark that is spelled so.
pub fn mark_kind(spelling: &[u8]) -> Option<TokenKind>
    ensures { result ≡ mark_kind spelling.now }
{
    match spelling {
        [a] => single(*a),
        [a, b] => double(*a, *b),
        _ => None,
    }
}

/// Whether the byte is a mark that none other begins with, and neither a number nor a comment.
pub fn is_lone_mark(b: u8) -> bool
    ensures { result ≡ is_lone_mark b }
{
    class(b) == LONE_MARK
}

/// The kind of a mark that none other begins with.
pub fn lone_kind(b: u8) -> TokenKind
    requires { is_lone_mark b ≡ true }
    ensures { result ≡ kind_of (b ∷ []) }
{
    match b {
        b';' => TokenKind::Punctuation(Mark::Semicolon),
        b',' => TokenKind::Punctuation(Mark::Comma),
        b'{' => TokenKind::Punctuation(Mark::OpenBrace),
        b'}' => TokenKind::Punctuation(Mark::CloseBrace),
        b'(' => TokenKind::Punctuation(Mark::OpenParenthesis),
        b')' => TokenKind::Punctuation(Mark::CloseParenthesis),
        b'[' => TokenKind::Punctuation(Mark::OpenBracket),
        b']' => TokenKind::Punctuation(Mark::CloseBracket),
        _ => TokenKind::Bad(Defect::UnknownByte),
    }
}

// The kind of the mark of one byte.
#[tactic(auto, unfolding(crate::specs::kinds::Marks::marks))]
fn single(a: u8) -> Option<TokenKind>
    ensures { result ≡ mark_kind (a ∷ []) }
{
    match a {
        b';' => Some(TokenKind::Punctuation(Mark::Semicolon)),
        b',' => Some(TokenKind::Punctuation(Mark::Comma)),
        b'{' => Some(TokenKind::Punctuation(Mark::OpenBrace)),
        b'}' => Some(TokenKind::Punctuation(Mark::CloseBrace)),
        b'(' => Some(TokenKind::Punctuation(Mark::OpenParenthesis)),
        b')' => Some(TokenKind::Punctuation(Mark::CloseParenthesis)),
        b':' => Some(TokenKind::Punctuation(Mark::Colon)),
        b'<' => Some(TokenKind::Punctuation(Mark::Less)),
        b'>' => Some(TokenKind::Punctuation(Mark::Greater)),
        b'=' => Some(TokenKind::Punctuation(Mark::Equals)),
        b'[' => Some(TokenKind::Punctuation(Mark::OpenBracket)),
        b']' => Some(TokenKind::Punctuation(Mark::CloseBracket)),
        b'+' => Some(TokenKind::Punctuation(Mark::Plus)),
        b'-' => Some(TokenKind::Punctuation(Mark::Minus)),
        b'*' => Some(TokenKind::Punctuation(Mark::Star)),
        b'/' => Some(TokenKind::Punctuation(Mark::Slash)),
        b'%' => Some(TokenKind::Punctuation(Mark::Percent)),
        b'~' => Some(TokenKind::Punctuation(Mark::Tilde)),
        b'|' => Some(TokenKind::Punctuation(Mark::Bar)),
        b'^' => Some(TokenKind::Punctuation(Mark::Caret)),
        b'&' => Some(TokenKind::Punctuation(Mark::Ampersand)),
        b'#' => Some(TokenKind::Preprocessing(PreprocessorMark::Hash)),
        b'!' => Some(TokenKind::Preprocessing(PreprocessorMark::Exclamation)),
        b'?' => Some(TokenKind::Preprocessing(PreprocessorMark::Question)),
        b'.' => Some(TokenKind::Preprocessing(PreprocessorMark::Dot)),
        _ => None,
    }
}

// The kind of the mark of two bytes.
#[tactic(auto, unfolding(crate::specs::kinds::Marks::marks))]
fn double(a: u8, b: u8) -> Option<TokenKind>
    ensures { result ≡ mark_kind (a ∷ b ∷ []) }
{
    match (a, b) {
        (b':', b':') => Some(TokenKind::Punctuation(Mark::ColonColon)),
        (b'<', b'<') => Some(TokenKind::Punctuation(Mark::ShiftLeft)),
        (b'>', b'>') => Some(TokenKind::Punctuation(Mark::ShiftRight)),
        (b'#', b'#') => Some(TokenKind::Preprocessing(PreprocessorMark::HashHash)),
        (b'&', b'&') => Some(TokenKind::Preprocessing(PreprocessorMark::AndAnd)),
        (b'|', b'|') => Some(TokenKind::Preprocessing(PreprocessorMark::OrOr)),
        (b'=', b'=') => Some(TokenKind::Preprocessing(PreprocessorMark::EqualsEquals)),
        (b'!', b'=') => Some(TokenKind::Preprocessing(PreprocessorMark::NotEquals)),
        (b'<', b'=') => Some(TokenKind::Preprocessing(PreprocessorMark::LessEquals)),
        (b'>', b'=') => Some(TokenKind::Preprocessing(PreprocessorMark::GreaterEquals)),
        _ => None,
    }
}
