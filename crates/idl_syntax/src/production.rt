//! Productions of which lists are read, and the lists.

ghost use Rattle.std.specs.Prelude.{◌≡◌, Bool, Option};
ghost use Rattle.idl_lex.specs.declared.kinds.mark.Mark.TheVariants.{Comma};
ghost use Rattle.idl_syntax.specs.Gives.{Advances, Reads, Remains};
ghost use Rattle.idl_tree.specs.Lexeme.{Lexeme, lexemes};
ghost use Rattle.idl_tree.specs.reading.ReadConstruction.{all_with, listed_with};
ghost use Rattle.idl_tree.specs.reading.ReadExpression.{behind_with};
ghost use Rattle.idl_tree.specs.reading.Reading.{Reader, first, many_of};
ghost use Rattle.idl_tree.specs.reading.Tests.{is_mark};

use crate::cursor::is_at;
use crate::fault::ReadingFault;
use idl_base::Seq;
use idl_lex::Token;
use idl_lex::kinds::Mark;
use idl_tree::Several;
use std::alloc::Global;

/// A production of which lists are read. What may stand in itself is none: its lists are read where it is.
pub trait Production {
    /// What is read.
    type Tree: Drop;

    /// How it is read.
    ghost reader: { Self → Reader Self.Tree };

    /// Reads one.
    fn read<'a>(
        &self,
        alloc: Global,
        tokens: &'a [Token],
    ) -> Result<(Self::Tree, &'a [Token]), ReadingFault>
        ensures reads { Reads (reader self.now) tokens.now result }
        ensures shorter { Advances tokens.now result };
}

/// A production that is known by its first token, so that its trees may stand side by side.
pub trait Series: Production {
    /// The first tokens by which it is known.
    ghost begins: { Self → Option Lexeme → Bool };

    /// Whether one begins here.
    fn is_ahead(&self, tokens: &[Token]) -> bool
        ensures { result ≡ begins self.now (first (lexemes tokens.now)) };
}

/// The trees that stand here, side by side.
pub fn many<'a, P: Series>(
    alloc: Global,
    production: &P,
    tokens: &'a [Token],
) -> Result<(Seq<P::Tree>, &'a [Token]), ReadingFault>
    ensures reads { Reads (many_of (P.begins production.now) (P.reader production.now)) tokens.now
        result }
    ensures within { Remains tokens.now result }
{
    let mut trees = Vec::new(alloc);
    let mut rest = tokens;
    'trees: while production.is_ahead(rest) {
        let (one, after) = production.read(alloc, rest)?;
        trees.push(one)?;
        rest = after;
    }
    Ok((Seq::from_vec(trees), rest))
}

/// One tree or more, side by side.
#[tactic(auto, unfolding(idl_tree::specs::reading::ReadConstruction::all_with))]
pub fn all<'a, P: Series>(
    alloc: Global,
    production: &P,
    tokens: &'a [Token],
) -> Result<(Several<P::Tree>, &'a [Token]), ReadingFault>
    ensures reads { Reads (all_with (P.begins production.now) (P.reader production.now)) tokens.now
        result }
    ensures shorter { Advances tokens.now result }
{
    let (first, rest) = production.read(alloc, tokens)?;
    let (more, rest) = many(alloc, production, rest)?;
    Ok((Several { first, rest: more }, rest))
}

/// Trees that each stand behind a comma.
pub fn more_listed<'a, P: Production>(
    alloc: Global,
    production: &P,
    tokens: &'a [Token],
) -> Result<(Seq<P::Tree>, &'a [Token]), ReadingFault>
    ensures reads { Reads (many_of (is_mark Comma) (behind_with Comma (P.reader production.now)))
        tokens.now result }
    ensures within { Remains tokens.now result }
{
    let mut trees = Vec::new(alloc);
    let mut rest = tokens;
    'trees: while is_at(rest, Mark::Comma) {
        let (one, after) = production.read(alloc, &rest[1..])?;
        trees.push(one)?;
        rest = after;
    }
    Ok((Seq::from_vec(trees), rest))
}

/// One tree or more, with commas between.
#[tactic(auto, unfolding(idl_tree::specs::reading::ReadExpression::parted_with))]
pub fn listed<'a, P: Production>(
    alloc: Global,
    production: &P,
    tokens: &'a [Token],
) -> Result<(Several<P::Tree>, &'a [Token]), ReadingFault>
    ensures reads { Reads (listed_with (P.reader production.now)) tokens.now result }
    ensures shorter { Advances tokens.now result }
{
    let (first, rest) = production.read(alloc, tokens)?;
    let (more, rest) = more_listed(alloc, production, rest)?;
    Ok((Several { first, rest: more }, rest))
}
