//! The tree of a unit of tokens, and what a pragma says, or the fault for which there is none.

ghost use Rattle.std.specs.Prelude.{◌≡◌, ◌+◌, None, Some, IfOk, IfErr, length};
ghost use Rattle.idl_parse.specs.Parse.{IsFaultOf, pragma_faults};
ghost use Rattle.idl_syntax.specs.Gives.{Advances, Reads};
ghost use Rattle.idl_tree.specs.Lexeme.{lexemes};
ghost use Rattle.idl_tree.specs.Pragma.{pragma_of};
ghost use Rattle.idl_tree.specs.Unit.{spell};
ghost use Rattle.idl_tree.specs.reading.ReadUnit.{unit_at};
ghost use Rattle.idl_unit.specs.Faults.{least_fault};
ghost use Rattle.idl_unit.specs.TokenRules.{token_faults};

use crate::fault::SyntaxFault;
use idl_fault::Code;
use idl_lex::Token;
use idl_syntax::ReadingFault;
use idl_syntax::pragma::pragma;
use idl_syntax::unit::unit;
use idl_tree::{Pragma, Tree, nesting, reading};
use idl_unit::{Fault, token_fault};
use std::alloc::{AllocError, Global};

// As many levels as brackets may stand in one another, and one more.
const LEVELS: usize = 65;

/// The tree of a unit of tokens: the one that has its spelling (the grammar of ISO/IEC 19516,
/// clause 7). It is made where it is given back, since trees are large.
///
/// A unit in which the rules of tokens find a fault has none, and neither has one that no tree
/// spells. What nests deeper than 64 levels is such a fault, so calls go no deeper than that.
pub fn parse_tokens(alloc: Global, tokens: &[Token]) -> Result<Tree, SyntaxFault>
    ensures rules { IfOk result (λ tree. least_fault (token_faults tokens.now) ≡ None) }
    ensures tree { IfOk result (λ tree. lexemes tokens.now ≡ spell tree) }
    ensures fault { IfErr result (IsFaultOf tokens.now) }
{
    if let Some(fault) = token_fault(tokens) {
        return Err(SyntaxFault::Rule(fault));
    }
    // It does nothing: it carries the laws of what is read.
    reading();
    match nested_unit(alloc, tokens) {
        Ok((tree, [])) => Ok(tree),
        Ok((_tree, rest)) => Err(SyntaxFault::NoTree(rest.len())),
        Err(ReadingFault::Memory) => Err(SyntaxFault::Memory),
        // Where all tokens are the beginning of a tree, it is told at the last.
        Err(ReadingFault::NoTree(left)) => Err(SyntaxFault::NoTree(left.max(1))),
    }
}

/// What is read of a unit in which the rules of tokens find nothing: its brackets need no more levels than are allowed here.
fn nested_unit(alloc: Global, tokens: &[Token]) -> Result<(Tree, &[Token]), ReadingFault>
    requires { least_fault (token_faults tokens.now) ≡ None }
    ensures reads { Reads (unit_at (length tokens.now + 1)) tokens.now result }
    ensures shorter { Advances tokens.now result }
{
    // It does nothing: it carries the law that more levels change nothing.
    nesting();
    unit(alloc, LEVELS, tokens)
}

/// What a pragma says, which stands inside a unit of tokens or outside, or its fault (E25, E26).
pub fn parse_pragma(
    alloc: Global,
    tokens: &[Token],
    inside: bool,
) -> Result<Result<Pragma, Fault>, AllocError>
    ensures rules { IfOk result (λ r. IfOk r (λ p.
        least_fault (pragma_faults tokens.now inside) ≡ None)) }
    ensures pragma { IfOk result (λ r. IfOk r (λ p. pragma_of tokens.now ≡ Some p)) }
    ensures fault { IfOk result (λ r. IfErr r (λ fault.
        least_fault (pragma_faults tokens.now inside) ≡ Some fault)) }
{
    if inside {
        return Ok(Err(Fault {
            index: 0,
            code: Code::PragmaInside,
        }));
    }
    match pragma(alloc, tokens)? {
        Some(pragma) => Ok(Ok(pragma)),
        None => Ok(Err(Fault {
            index: 0,
            code: Code::MalformedPragma,
        })),
    }
}
