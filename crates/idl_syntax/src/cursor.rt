//! Single tokens.

ghost use Rattle.std.specs.Prelude.{◌≡◌, ◌<◌, length, IfOk};
ghost use Rattle.std.specs.Option.{option_copied};
ghost use Rattle.idl_tree.specs.Lexeme.{lexemes};
ghost use Rattle.idl_tree.specs.reading.Reading.{first};
ghost use Rattle.idl_tree.specs.reading.Tests.{by_word, identifier_at, identifier_of, is_mark, is_word, keyword_of};
ghost use Rattle.idl_syntax.specs.Gives.{Advances, Passes, Reads};
ghost use Rattle.idl_syntax.specs.Next.{closed_with, mark_of};

use crate::fault::ReadingFault;
use idl_base::Bytes;
use idl_lex::Token;
use idl_lex::kinds::{Keyword, Mark, TokenKind};
use std::alloc::AllocError;

/// The mark that the next token is.
#[tactic(auto, unfolding(idl_tree::specs::Lexeme::lexeme_of))]
pub fn punctuation(tokens: &[Token]) -> Option<Mark>
    ensures { result ≡ mark_of (first (lexemes tokens.now)) }
{
    match tokens {
        [token, ..] => match token.kind() {
            TokenKind::Punctuation(mark) => Some(mark),
            _ => None,
        },
        [] => None,
    }
}

/// The keyword that the next token is.
#[tactic(auto, unfolding(idl_tree::specs::Lexeme::lexeme_of))]
pub fn keyword(tokens: &[Token]) -> Option<Keyword>
    ensures { result ≡ keyword_of (first (lexemes tokens.now)) }
{
    match tokens {
        [token, ..] => match token.kind() {
            TokenKind::Accepted(keyword) => Some(keyword),
            _ => None,
        },
        [] => None,
    }
}

/// Whether the next token is this mark.
pub fn is_at(tokens: &[Token], mark: Mark) -> bool
    ensures { result ≡ is_mark mark (first (lexemes tokens.now)) }
{
    match punctuation(tokens) {
        Some(found) => found == mark,
        None => false,
    }
}

/// Whether the next token is this keyword.
pub fn is_at_word(tokens: &[Token], word: Keyword) -> bool
    ensures { result ≡ is_word word (first (lexemes tokens.now)) }
{
    match keyword(tokens) {
        Some(found) => found == word,
        None => false,
    }
}

/// What stands behind this mark.
pub fn behind(tokens: &[Token], mark: Mark) -> Result<&[Token], ReadingFault>
    ensures reads { Passes (is_mark mark) tokens.now result }
    ensures shorter { IfOk result (λ x. length x.now < length tokens.now) }
{
    if is_at(tokens, mark) {
        Ok(&tokens[1..])
    } else {
        Err(ReadingFault::NoTree(tokens.len()))
    }
}

/// What was read, with this mark behind it.
pub fn closed<T: Drop>(read: T, tokens: &[Token], mark: Mark) -> Result<(T, &[Token]), ReadingFault>
    ensures reads { Reads (closed_with mark read) tokens.now result }
    ensures shorter { Advances tokens.now result }
{
    let rest = behind(tokens, mark)?;
    Ok((read, rest))
}

/// What stands behind this keyword.
pub fn behind_word(tokens: &[Token], word: Keyword) -> Result<&[Token], ReadingFault>
    ensures reads { Passes (is_word word) tokens.now result }
    ensures shorter { IfOk result (λ x. length x.now < length tokens.now) }
{
    if is_at_word(tokens, word) {
        Ok(&tokens[1..])
    } else {
        Err(ReadingFault::NoTree(tokens.len()))
    }
}

/// A keyword that says it all.
pub fn by_word<T: Copy>(
    tokens: &[Token],
    word: Keyword,
    value: T,
) -> Result<(T, &[Token]), ReadingFault>
    ensures reads { Reads (by_word word value) tokens.now result }
    ensures shorter { Advances tokens.now result }
{
    let rest = behind_word(tokens, word)?;
    Ok((value, rest))
}

/// The name that the next token is, without an escape.
#[tactic(auto, unfolding(idl_tree::specs::Lexeme::lexeme_of))]
pub fn name(tokens: &[Token]) -> Option<&[u8]>
    ensures { option_copied result ≡ identifier_of (first (lexemes tokens.now)) }
{
    match tokens {
        [token, ..] => token.name(),
        [] => None,
    }
}

/// The same, shared with the token.
#[tactic(auto, unfolding(idl_tree::specs::Lexeme::lexeme_of))]
fn shared_name(tokens: &[Token]) -> Result<Option<Bytes>, AllocError>
    ensures { IfOk result (λ name. name ≡ identifier_of (first (lexemes tokens.now))) }
{
    match tokens {
        [token, ..] => token.shared_name(),
        [] => Ok(None),
    }
}

/// An identifier.
pub fn identifier(tokens: &[Token]) -> Result<(Bytes, &[Token]), ReadingFault>
    ensures reads { Reads identifier_at tokens.now result }
    ensures shorter { Advances tokens.now result }
{
    match shared_name(tokens)? {
        Some(name) => Ok((name, &tokens[1..])),
        None => Err(ReadingFault::NoTree(tokens.len())),
    }
}
