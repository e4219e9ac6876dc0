//! The pragmas that are units.
//!
//! The rules of tokens don't count in a pragma, and a word that is like a keyword but for the case of
//! letters is a name there.

ghost use Rattle.std.specs.Prelude.{◌≡◌, IfOk, Option, List, ℕ};
ghost use Rattle.std.specs.Option.{option_copied, option_map};
ghost use Rattle.idl_lex.specs.kinds.Kind.{kind_of};
ghost use Rattle.idl_tree.specs.Pragma.{further_parts, id_of, is_separator, name_before, name_from, only, part_of, pragma_by, pragma_of, prefix_of, text_of, versioned};
ghost use Rattle.idl_syntax.specs.Behind.{behind_view};

use crate::version::version;
use idl_base::{Bytes, Seq};
use idl_lex::Token;
use idl_lex::kinds::{Mark, TokenKind, decode};
use idl_tree::{Pragma, ScopedName};
use std::alloc::{AllocError, Global};

/// The pragma that these tokens are, from the word `pragma` on.
pub fn pragma(alloc: Global, tokens: &[Token]) -> Result<Option<Pragma>, AllocError>
    ensures { IfOk result (λ pragma. pragma ≡ pragma_of tokens.now) }
{
    match tokens {
        [_pragma, word, operands @ ..] => pragma_by(alloc, word.as_bytes(), operands),
        _ => Ok(None),
    }
}

/// The pragma with this word and these operands.
fn pragma_by(alloc: Global, word: &[u8], operands: &[Token]) -> Result<Option<Pragma>, AllocError>
    ensures { IfOk result (λ pragma. pragma ≡ pragma_by word.now operands.now) }
{
    if word == b"prefix".as_slice() {
        return prefix(alloc, operands);
    }
    if word == b"ID".as_slice() {
        return id(alloc, operands);
    }
    if word == b"version".as_slice() {
        return versioned(alloc, operands);
    }
    Ok(None)
}

/// A prefix with its text.
fn prefix(alloc: Global, operands: &[Token]) -> Result<Option<Pragma>, AllocError>
    ensures { IfOk result (λ pragma. pragma ≡ prefix_of (only operands.now)) }
{
    match operands {
        [token] => Ok(text(alloc, token)?.map(Pragma::Prefix)),
        _ => Ok(None),
    }
}

/// An id with its name and text.
fn id(alloc: Global, operands: &[Token]) -> Result<Option<Pragma>, AllocError>
    ensures { IfOk result (λ pragma. pragma ≡ id_of (name_before operands.now)) }
{
    let Some((name, last)) = name_before(alloc, operands)? else {
        return Ok(None);
    };
    match text(alloc, last)? {
        Some(text) => Ok(Some(Pragma::Id(name, text))),
        None => Ok(None),
    }
}

/// A version with its name and numbers.
fn versioned(alloc: Global, operands: &[Token]) -> Result<Option<Pragma>, AllocError>
    ensures { IfOk result (λ pragma. pragma ≡ versioned (name_before operands.now)) }
{
    let Some((name, last)) = name_before(alloc, operands)? else {
        return Ok(None);
    };
    match version(last.as_bytes()) {
        Some((major, minor)) => Ok(Some(Pragma::Version(name, major, minor))),
        None => Ok(None),
    }
}

/// A scoped name, and the one token behind it.
fn name_before(alloc: Global, tokens: &[Token]) -> Result<Option<(ScopedName, &Token)>, AllocError>
    ensures { IfOk result (λ read. behind_view read ≡ name_before tokens.now) }
{
    match tokens {
        [first, rest @ ..] if is_separator(first) => name_from(alloc, true, rest),
        _ => name_from(alloc, false, tokens),
    }
}

/// A scoped name from its first part on, and the one token behind it.
fn name_from(
    alloc: Global,
    is_global: bool,
    tokens: &[Token],
) -> Result<Option<(ScopedName, &Token)>, AllocError>
    ensures { IfOk result (λ read. behind_view read ≡ name_from is_global tokens.now) }
{
    let [first, rest @ ..] = tokens else {
        return Ok(None);
    };
    let Some(first) = part(first)? else {
        return Ok(None);
    };
    let Some((rest, last)) = further_parts(alloc, rest)? else {
        return Ok(None);
    };
    let name = ScopedName {
        is_global,
        first,
        rest,
    };
    Ok(Some((name, last)))
}

/// Further parts of a name, each behind `::`, and the one token behind them.
fn further_parts(
    alloc: Global,
    tokens: &[Token],
) -> Result<Option<(Seq<Bytes>, &Token)>, AllocError>
    ensures { IfOk result (λ read. behind_view read ≡ further_parts tokens.now) }
{
    let mut parts = Vec::new(alloc);
    let mut left = tokens;
    while let [separator, name, rest @ ..] = left {
        if !is_separator(separator) {
            return Ok(None);
        }
        let Some(part) = part(name)? else {
            return Ok(None);
        };
        parts.push(part)?;
        left = rest;
    }
    match left {
        [last] => Ok(Some((Seq::from_vec(parts), last))),
        _ => Ok(None),
    }
}

/// The name that a token is, without an escape, shared with it.
fn part(token: &Token) -> Result<Option<Bytes>, AllocError>
    ensures { IfOk result (λ part. part ≡ part_of token.now) }
{
    match token.kind() {
        TokenKind::Miscased => Ok(Some(token.spelling().clone()?)),
        _ => token.shared_name(),
    }
}

fn is_separator(token: &Token) -> bool
    ensures { result ≡ is_separator (kind_of token.now) }
{
    matches!(token.kind(), TokenKind::Punctuation(Mark::ColonColon))
}

/// The value of a narrow string literal.
fn text(alloc: Global, token: &Token) -> Result<Option<Seq<u16>>, AllocError>
    ensures { IfOk result (λ text. text ≡ text_of token.now) }
{
    match token.kind() {
        TokenKind::String => decode(alloc, token.as_bytes()),
        _ => Ok(None),
    }
}
