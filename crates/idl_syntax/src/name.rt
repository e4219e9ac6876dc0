//! Scoped names, and lists of names.

ghost use Rattle.idl_lex.specs.declared.kinds.mark.Mark.TheVariants.{ColonColon};
ghost use Rattle.idl_tree.specs.reading.ReadInterface.{list_at, raises_at, raises_if};
ghost use Rattle.idl_tree.specs.reading.ReadName.{name_at, part_at};
ghost use Rattle.idl_tree.specs.reading.Tests.{identifier_at, is_mark};
ghost use Rattle.idl_syntax.specs.Gives.{Advances, Reads, Remains};

use crate::cursor::{behind, behind_word, closed, identifier, is_at, is_at_word};
use crate::fault::ReadingFault;
use crate::production::{Production, Series, listed, many};
use idl_base::Bytes;
use idl_lex::Token;
use idl_lex::kinds::{Keyword, Mark};
use idl_tree::{ScopedName, Several};
use std::alloc::Global;

/// A scoped name, with or without a leading `::`.
#[tactic(auto, unfolding(idl_tree::specs::reading::ReadName::name_at, idl_tree::specs::reading::ReadName::parts_at))]
pub fn scoped_name(alloc: Global, tokens: &[Token]) -> Result<(ScopedName, &[Token]), ReadingFault>
    ensures reads { Reads name_at tokens.now result }
    ensures shorter { Advances tokens.now result }
{
    let is_global = is_at(tokens, Mark::ColonColon);
    let rest = if is_global { &tokens[1..] } else { tokens };
    let (first, rest) = identifier(rest)?;
    let (more, rest) = many(alloc, &NamePart, rest)?;
    let name = ScopedName {
        is_global,
        first,
        rest: more,
    };
    Ok((name, rest))
}

/// A further part of a name.
struct NamePart;

impl Production for NamePart {
    type Tree = Bytes;

    ghost reader = { λ _. part_at };

    #[tactic(auto, unfolding(idl_tree::specs::reading::ReadName::part_at))]
    fn read<'a>(
        &self,
        _alloc: Global,
        tokens: &'a [Token],
    ) -> Result<(Bytes, &'a [Token]), ReadingFault> {
        let rest = behind(tokens, Mark::ColonColon)?;
        identifier(rest)
    }
}

impl Series for NamePart {
    ghost begins = { λ _. is_mark ColonColon };

    fn is_ahead(&self, tokens: &[Token]) -> bool {
        is_at(tokens, Mark::ColonColon)
    }
}

/// A scoped name.
pub struct NameProduction;

impl Production for NameProduction {
    type Tree = ScopedName;

    ghost reader = { λ _. name_at };

    fn read<'a>(
        &self,
        alloc: Global,
        tokens: &'a [Token],
    ) -> Result<(ScopedName, &'a [Token]), ReadingFault> {
        scoped_name(alloc, tokens)
    }
}

/// An identifier.
pub struct Identifier;

impl Production for Identifier {
    type Tree = Bytes;

    ghost reader = { λ _. identifier_at };

    fn read<'a>(
        &self,
        _alloc: Global,
        tokens: &'a [Token],
    ) -> Result<(Bytes, &'a [Token]), ReadingFault> {
        identifier(tokens)
    }
}

/// Scoped names in parentheses.
#[tactic(auto, unfolding(idl_tree::specs::reading::ReadInterface::list_at))]
fn scoped_name_list(
    alloc: Global,
    tokens: &[Token],
) -> Result<(Several<ScopedName>, &[Token]), ReadingFault>
    ensures reads { Reads list_at tokens.now result }
    ensures shorter { Advances tokens.now result }
{
    let rest = behind(tokens, Mark::OpenParenthesis)?;
    let (names, rest) = listed(alloc, &NameProduction, rest)?;
    closed(names, rest, Mark::CloseParenthesis)
}

/// A keyword and scoped names in parentheses.
#[tactic(auto, unfolding(idl_tree::specs::reading::ReadInterface::raises_at))]
pub fn raises(
    alloc: Global,
    word: Keyword,
    tokens: &[Token],
) -> Result<(Several<ScopedName>, &[Token]), ReadingFault>
    ensures reads { Reads (raises_at word) tokens.now result }
    ensures shorter { Advances tokens.now result }
{
    let rest = behind_word(tokens, word)?;
    scoped_name_list(alloc, rest)
}

/// The same, if the keyword stands there.
#[tactic(auto, unfolding(idl_tree::specs::reading::ReadInterface::raises_if))]
pub fn raises_if(
    alloc: Global,
    word: Keyword,
    tokens: &[Token],
) -> Result<(Option<Several<ScopedName>>, &[Token]), ReadingFault>
    ensures reads { Reads (raises_if word) tokens.now result }
    ensures within { Remains tokens.now result }
{
    if !is_at_word(tokens, word) {
        return Ok((None, tokens));
    }
    let (names, rest) = raises(alloc, word, tokens)?;
    Ok((Some(names), rest))
}
