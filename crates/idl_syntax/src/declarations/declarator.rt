//! Declared names.

ghost use Rattle.idl_lex.specs.declared.kinds.mark.Mark.TheVariants.{OpenBracket};
ghost use Rattle.idl_tree.specs.reading.ReadExpression.{expression_at};
ghost use Rattle.idl_tree.specs.reading.ReadType.{declarator_with, length_with};
ghost use Rattle.idl_tree.specs.reading.Tests.{is_mark};
ghost use Rattle.idl_syntax.specs.Gives.{Advances, Reads};

use crate::cursor::{behind, closed, identifier, is_at};
use crate::expression::expression;
use crate::fault::ReadingFault;
use crate::production::{Production, Series, many};
use idl_lex::Token;
use idl_lex::kinds::Mark;
use idl_tree::Expression;
use idl_tree::declarations::Declarator;
use std::alloc::Global;

/// The length of an array, in brackets, with parts of less than so many levels.
#[derive(Clone, Copy)]
struct ArrayLength {
    depth: usize,
}

impl Production for ArrayLength {
    type Tree = Expression;

    ghost reader = { λ one. length_with (expression_at one.depth) };

    #[tactic(auto, unfolding(idl_tree::specs::reading::ReadType::length_with))]
    fn read<'a>(
        &self,
        alloc: Global,
        tokens: &'a [Token],
    ) -> Result<(Expression, &'a [Token]), ReadingFault> {
        let rest = behind(tokens, Mark::OpenBracket)?;
        let (length, rest) = expression(alloc, self.depth, rest)?;
        closed(length, rest, Mark::CloseBracket)
    }
}

impl Series for ArrayLength {
    ghost begins = { λ _. is_mark OpenBracket };

    fn is_ahead(&self, tokens: &[Token]) -> bool {
        is_at(tokens, Mark::OpenBracket)
    }
}

/// A declared name, with the lengths of its array if it is one.
#[tactic(auto, unfolding(idl_tree::specs::reading::ReadType::declarator_with))]
#[inline(never)]
pub fn declarator(
    alloc: Global,
    depth: usize,
    tokens: &[Token],
) -> Result<(Declarator, &[Token]), ReadingFault>
    ensures reads { Reads (declarator_with (expression_at depth)) tokens.now result }
    ensures shorter { Advances tokens.now result }
{
    let (name, rest) = identifier(tokens)?;
    let (lengths, rest) = many(alloc, &ArrayLength { depth }, rest)?;
    Ok((Declarator { name, lengths }, rest))
}

/// A declared name, with parts of less than so many levels.
#[derive(Clone, Copy)]
pub struct Declared {
    pub depth: usize,
}

impl Production for Declared {
    type Tree = Declarator;

    ghost reader = { λ one. declarator_with (expression_at one.depth) };

    fn read<'a>(
        &self,
        alloc: Global,
        tokens: &'a [Token],
    ) -> Result<(Declarator, &'a [Token]), ReadingFault> {
        declarator(alloc, self.depth, tokens)
    }
}
