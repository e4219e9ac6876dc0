//! Literals.

ghost use Rattle.std.specs.Prelude.{◌≡◌, is_some, Some, IfOk};
ghost use Rattle.std.specs.Option.{option_map};
ghost use Rattle.idl_lex.specs.kinds.Literal.{literal_value};
ghost use Rattle.idl_tree.specs.Lexeme.{lexeme_of, lexemes, one_character, only_one};
ghost use Rattle.idl_tree.specs.reading.ReadExpression.{literal_at, text_of, wide_text_of, single_of, single_literal};
ghost use Rattle.idl_tree.specs.reading.ReadInterface.{text_at};
ghost use Rattle.idl_tree.specs.reading.Reading.{first, many_of};
ghost use Rattle.idl_tree.specs.reading.Tests.{pick};
ghost use Rattle.idl_syntax.specs.Gives.{Advances, Reads, Remains};
ghost use Rattle.idl_syntax.specs.Literal.{is_at_text, is_at_wide_text, single_at, wide_text_at};

use crate::fault::ReadingFault;
use crate::production::Production;
use idl_base::Seq;
use idl_lex::Token;
use idl_lex::kinds::{Keyword, TokenKind, decode, integer_value};
use idl_tree::{Literal, Several};
use std::alloc::{AllocError, Global};

/// A literal.
pub fn literal(alloc: Global, tokens: &[Token]) -> Result<(Literal, &[Token]), ReadingFault>
    ensures reads { Reads literal_at tokens.now result }
    ensures shorter { Advances tokens.now result }
{
    if is_at_text(tokens) {
        let (pieces, rest) = text(alloc, tokens)?;
        Ok((Literal::Text(pieces), rest))
    } else if is_at_wide_text(tokens) {
        let (pieces, rest) = wide_text(alloc, tokens)?;
        Ok((Literal::WideText(pieces), rest))
    } else {
        single_literal(alloc, tokens)
    }
}

/// Whether the next token is a narrow string literal.
fn is_at_text(tokens: &[Token]) -> bool
    ensures { result ≡ is_at_text tokens.now }
{
    match tokens {
        [token, ..] => matches!(token.kind(), TokenKind::String),
        [] => false,
    }
}

/// Whether the next token is a wide string literal.
fn is_at_wide_text(tokens: &[Token]) -> bool
    ensures { result ≡ is_at_wide_text tokens.now }
{
    match tokens {
        [token, ..] => matches!(token.kind(), TokenKind::WideString),
        [] => false,
    }
}

/// One narrow string literal or more, side by side.
#[tactic(auto, unfolding(idl_tree::specs::reading::ReadInterface::text_at, idl_tree::specs::reading::ReadConstruction::all_with))]
pub fn text(alloc: Global, tokens: &[Token]) -> Result<(Several<Seq<u16>>, &[Token]), ReadingFault>
    ensures reads { Reads text_at tokens.now result }
    ensures shorter { Advances tokens.now result }
{
    let Some(first) = text_piece(alloc, tokens)? else {
        return Err(ReadingFault::NoTree(tokens.len()));
    };
    let (more, rest) = more_text(alloc, &tokens[1..])?;
    Ok((Several { first, rest: more }, rest))
}

/// Narrow string literals, side by side.
pub struct NarrowText;

impl Production for NarrowText {
    type Tree = Several<Seq<u16>>;

    ghost reader = { λ _. text_at };

    fn read<'a>(
        &self,
        alloc: Global,
        tokens: &'a [Token],
    ) -> Result<(Several<Seq<u16>>, &'a [Token]), ReadingFault> {
        text(alloc, tokens)
    }
}

/// The narrow string literals that stand here.
fn more_text(alloc: Global, tokens: &[Token]) -> Result<(Seq<Seq<u16>>, &[Token]), ReadingFault>
    ensures reads { Reads (many_of (λ t. is_some (text_of t)) (pick text_of)) tokens.now result }
    ensures within { Remains tokens.now result }
{
    let mut pieces = Vec::new(alloc);
    let mut rest = tokens;
    'pieces: while let Some(piece) = text_piece(alloc, rest)? {
        pieces.push(piece)?;
        rest = &rest[1..];
    }
    Ok((Seq::from_vec(pieces), rest))
}

/// The value of the next token, if it is a narrow string literal.
#[tactic(auto, unfolding(idl_tree::specs::Lexeme::lexeme_of))]
fn text_piece(alloc: Global, tokens: &[Token]) -> Result<Option<Seq<u16>>, AllocError>
    ensures { IfOk result (λ piece. piece ≡ text_of (first (lexemes tokens.now))) }
{
    match tokens {
        [token, ..] => match token.kind() {
            TokenKind::String => decode(alloc, token.as_bytes()),
            _ => Ok(None),
        },
        [] => Ok(None),
    }
}

/// One wide string literal or more, side by side.
#[tactic(auto, unfolding(idl_tree::specs::reading::ReadConstruction::all_with))]
fn wide_text(alloc: Global, tokens: &[Token]) -> Result<(Several<Seq<u16>>, &[Token]), ReadingFault>
    ensures reads { Reads wide_text_at tokens.now result }
    ensures shorter { Advances tokens.now result }
{
    let Some(first) = wide_text_piece(alloc, tokens)? else {
        return Err(ReadingFault::NoTree(tokens.len()));
    };
    let (more, rest) = more_wide_text(alloc, &tokens[1..])?;
    Ok((Several { first, rest: more }, rest))
}

/// The wide string literals that stand here.
fn more_wide_text(
    alloc: Global,
    tokens: &[Token],
) -> Result<(Seq<Seq<u16>>, &[Token]), ReadingFault>
    ensures reads { Reads (many_of (λ t. is_some (wide_text_of t)) (pick wide_text_of)) tokens.now
        result }
    ensures within { Remains tokens.now result }
{
    let mut pieces = Vec::new(alloc);
    let mut rest = tokens;
    'pieces: while let Some(piece) = wide_text_piece(alloc, rest)? {
        pieces.push(piece)?;
        rest = &rest[1..];
    }
    Ok((Seq::from_vec(pieces), rest))
}

/// The value of the next token, if it is a wide string literal.
#[tactic(auto, unfolding(idl_tree::specs::Lexeme::lexeme_of))]
fn wide_text_piece(alloc: Global, tokens: &[Token]) -> Result<Option<Seq<u16>>, AllocError>
    ensures { IfOk result (λ piece. piece ≡ wide_text_of (first (lexemes tokens.now))) }
{
    match tokens {
        [token, ..] => match token.kind() {
            TokenKind::WideString => decode(alloc, token.as_bytes()),
            _ => Ok(None),
        },
        [] => Ok(None),
    }
}

/// A literal that is one token.
fn single_literal(alloc: Global, tokens: &[Token]) -> Result<(Literal, &[Token]), ReadingFault>
    ensures reads { Reads single_at tokens.now result }
    ensures shorter { Advances tokens.now result }
{
    match tokens {
        [token, rest @ ..] => match value(alloc, token)? {
            Some(literal) => Ok((literal, rest)),
            None => Err(ReadingFault::NoTree(tokens.len())),
        },
        [] => Err(ReadingFault::NoTree(0)),
    }
}

/// The literal that a token is by itself, if it is one.
#[tactic(auto, unfolding(idl_tree::specs::Lexeme::lexeme_of))]
fn value(alloc: Global, token: &Token) -> Result<Option<Literal>, AllocError>
    ensures { IfOk result (λ found. found ≡ option_map single_literal (single_of (Some (lexeme_of
        token.now)))) }
{
    match token.kind() {
        TokenKind::Integer => Ok(integer_value(token.as_bytes()).map(Literal::Integer)),
        TokenKind::Character => Ok(character(alloc, token)?.map(Literal::Character)),
        TokenKind::WideCharacter => Ok(character(alloc, token)?.map(Literal::WideCharacter)),
        TokenKind::Accepted(Keyword::True) => Ok(Some(Literal::True)),
        TokenKind::Accepted(Keyword::False) => Ok(Some(Literal::False)),
        _ => Ok(None),
    }
}

/// The one character of a character literal.
fn character(alloc: Global, token: &Token) -> Result<Option<u16>, AllocError>
    ensures { IfOk result (λ found. found ≡ one_character (literal_value token.now)) }
{
    match decode(alloc, token.as_bytes())? {
        Some(characters) => Ok(only_one(characters.as_slice())),
        None => Ok(None),
    }
}

/// The one of these characters, if they are one.
fn only_one(characters: &[u16]) -> Option<u16>
    ensures { result ≡ only_one characters.now }
{
    match characters {
        [character] => Some(*character),
        _ => None,
    }
}
