//! Closings, and openings of modules and interfaces.

ghost use Rattle.idl_tree.specs.reading.ReadUnit.{bases_at, closing_at, interface_at, interface_rest, module_at};
ghost use Rattle.idl_syntax.specs.Gives.{Advances, Reads, Remains};

use crate::cursor::{behind, behind_word, closed, identifier, is_at, is_at_word};
use crate::fault::ReadingFault;
use crate::name::NameProduction;
use crate::production::listed;
use idl_base::Bytes;
use idl_lex::Token;
use idl_lex::kinds::{Keyword, Mark};
use idl_tree::declarations::{Forward, Interface};
use idl_tree::{ScopedName, Several, Tree};
use std::alloc::Global;

/// The closing of a scope.
#[tactic(auto, unfolding(idl_tree::specs::reading::ReadUnit::closing_at))]
pub fn closing(tokens: &[Token]) -> Result<(Tree, &[Token]), ReadingFault>
    ensures reads { Reads closing_at tokens.now result }
    ensures shorter { Advances tokens.now result }
{
    let rest = behind(tokens, Mark::CloseBrace)?;
    let rest = behind(rest, Mark::Semicolon)?;
    Ok((Tree::Closing, rest))
}

/// The opening of a module.
#[tactic(auto, unfolding(idl_tree::specs::reading::ReadUnit::module_at))]
pub fn module(tokens: &[Token]) -> Result<(Tree, &[Token]), ReadingFault>
    ensures reads { Reads module_at tokens.now result }
    ensures shorter { Advances tokens.now result }
{
    let rest = behind_word(tokens, Keyword::Module)?;
    let (name, rest) = identifier(rest)?;
    closed(Tree::Module(name), rest, Mark::OpenBrace)
}

/// The opening of an interface, or its declaration ahead.
#[tactic(auto, unfolding(idl_tree::specs::reading::ReadUnit::interface_at))]
pub fn interface(alloc: Global, tokens: &[Token]) -> Result<(Tree, &[Token]), ReadingFault>
    ensures reads { Reads interface_at tokens.now result }
    ensures shorter { Advances tokens.now result }
{
    let is_local = is_at_word(tokens, Keyword::Local);
    let rest = if is_local { &tokens[1..] } else { tokens };
    let rest = behind_word(rest, Keyword::Interface)?;
    let (name, rest) = identifier(rest)?;
    interface_rest(alloc, is_local, name, rest)
}

/// What stands behind its name.
#[tactic(auto, unfolding(idl_tree::specs::reading::ReadUnit::interface_rest))]
fn interface_rest(
    alloc: Global,
    is_local: bool,
    name: Bytes,
    tokens: &[Token],
) -> Result<(Tree, &[Token]), ReadingFault>
    ensures reads { Reads (interface_rest is_local name) tokens.now result }
    ensures shorter { Advances tokens.now result }
{
    if is_at(tokens, Mark::Semicolon) {
        let ahead = Forward::Interface(is_local, name);
        return closed(Tree::Forward(ahead), tokens, Mark::Semicolon);
    }
    let (bases, rest) = bases(alloc, tokens)?;
    let interface = Interface {
        is_local,
        name,
        bases,
    };
    closed(Tree::Interface(interface), rest, Mark::OpenBrace)
}

/// The bases of an interface, if there are any.
#[tactic(auto, unfolding(idl_tree::specs::reading::ReadUnit::bases_at))]
fn bases(
    alloc: Global,
    tokens: &[Token],
) -> Result<(Option<Several<ScopedName>>, &[Token]), ReadingFault>
    ensures reads { Reads bases_at tokens.now result }
    ensures within { Remains tokens.now result }
{
    if !is_at(tokens, Mark::Colon) {
        return Ok((None, tokens));
    }
    let rest = behind(tokens, Mark::Colon)?;
    let (names, rest) = listed(alloc, &NameProduction, rest)?;
    Ok((Some(names), rest))
}
