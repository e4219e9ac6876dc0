//! Operations.

ghost use Rattle.std.specs.Prelude.{◌≡◌};
ghost use Rattle.idl_tree.specs.Lexeme.{lexemes};
ghost use Rattle.idl_tree.specs.reading.ReadInterface.{context_at, context_if, direction_of, operation_rest_with, operation_with, parameter_with, parameters_with, result_with};
ghost use Rattle.idl_tree.specs.reading.ReadType.{type_at};
ghost use Rattle.idl_tree.specs.reading.Reading.{first};
ghost use Rattle.idl_syntax.specs.Gives.{Advances, Reads, Remains};

use crate::cursor::{behind, behind_word, closed, identifier, is_at, is_at_word, keyword};
use crate::declarations::data_type::data_type;
use crate::fault::ReadingFault;
use crate::literal::NarrowText;
use crate::name::raises_if;
use crate::production::{Production, listed};
use idl_base::{Boxed, Bytes, Seq};
use idl_lex::Token;
use idl_lex::kinds::{Keyword, Mark};
use idl_tree::declarations::{Direction, Operation, Parameter, TypeTree};
use idl_tree::{ScopedName, Several};
use std::alloc::Global;

/// The direction that the next token is.
fn direction(tokens: &[Token]) -> Option<Direction>
    ensures { result ≡ direction_of (first (lexemes tokens.now)) }
{
    match keyword(tokens) {
        Some(Keyword::In) => Some(Direction::In),
        Some(Keyword::Out) => Some(Direction::Out),
        Some(Keyword::Inout) => Some(Direction::InOut),
        _ => None,
    }
}

/// A parameter, with parts of less than so many levels.
#[derive(Clone, Copy)]
struct ParameterProduction {
    depth: usize,
}

impl Production for ParameterProduction {
    type Tree = Parameter;

    ghost reader = { λ one. parameter_with (type_at one.depth) };

    #[tactic(auto, unfolding(idl_tree::specs::reading::ReadInterface::parameter_with))]
    fn read<'a>(
        &self,
        alloc: Global,
        tokens: &'a [Token],
    ) -> Result<(Parameter, &'a [Token]), ReadingFault> {
        let Some(direction) = direction(tokens) else {
            return Err(ReadingFault::NoTree(tokens.len()));
        };
        let (kind, rest) = data_type(alloc, self.depth, &tokens[1..])?;
        let (name, rest) = identifier(rest)?;
        let parameter = Parameter {
            direction,
            kind,
            name,
        };
        Ok((parameter, rest))
    }
}

/// The parameters before a closing parenthesis, if there are any.
#[tactic(auto, unfolding(idl_tree::specs::reading::ReadInterface::parameters_with))]
fn parameters(
    alloc: Global,
    depth: usize,
    tokens: &[Token],
) -> Result<(Option<Several<Parameter>>, &[Token]), ReadingFault>
    ensures reads { Reads (parameters_with (type_at depth)) tokens.now result }
    ensures within { Remains tokens.now result }
{
    if is_at(tokens, Mark::CloseParenthesis) {
        return Ok((None, tokens));
    }
    let (parameters, rest) = listed(alloc, &ParameterProduction { depth }, tokens)?;
    Ok((Some(parameters), rest))
}

/// An operation's result, which is none of `void`.
#[tactic(auto, unfolding(idl_tree::specs::reading::ReadInterface::result_with))]
fn operation_result(
    alloc: Global,
    depth: usize,
    tokens: &[Token],
) -> Result<(Option<TypeTree>, &[Token]), ReadingFault>
    ensures reads { Reads (result_with (type_at depth)) tokens.now result }
    ensures shorter { Advances tokens.now result }
{
    if is_at_word(tokens, Keyword::Void) {
        let rest = behind_word(tokens, Keyword::Void)?;
        Ok((None, rest))
    } else {
        let (result, rest) = data_type(alloc, depth, tokens)?;
        Ok((Some(result), rest))
    }
}

/// `context` and narrow strings in parentheses.
#[tactic(auto, unfolding(idl_tree::specs::reading::ReadInterface::context_at))]
fn context(
    alloc: Global,
    tokens: &[Token],
) -> Result<(Several<Several<Seq<u16>>>, &[Token]), ReadingFault>
    ensures reads { Reads context_at tokens.now result }
    ensures shorter { Advances tokens.now result }
{
    let rest = behind_word(tokens, Keyword::Context)?;
    let rest = behind(rest, Mark::OpenParenthesis)?;
    let (texts, rest) = listed(alloc, &NarrowText, rest)?;
    closed(texts, rest, Mark::CloseParenthesis)
}

/// The same, if the keyword stands there.
#[tactic(auto, unfolding(idl_tree::specs::reading::ReadInterface::context_if))]
fn context_if(
    alloc: Global,
    tokens: &[Token],
) -> Result<(Option<Boxed<Several<Several<Seq<u16>>>>>, &[Token]), ReadingFault>
    ensures reads { Reads context_if tokens.now result }
    ensures within { Remains tokens.now result }
{
    if !is_at_word(tokens, Keyword::Context) {
        return Ok((None, tokens));
    }
    let (texts, rest) = context(alloc, tokens)?;
    Ok((Some(Boxed::new(alloc, texts)?), rest))
}

/// An operation.
#[tactic(auto, unfolding(idl_tree::specs::reading::ReadInterface::operation_with))]
pub fn operation(
    alloc: Global,
    depth: usize,
    tokens: &[Token],
) -> Result<(Operation, &[Token]), ReadingFault>
    ensures reads { Reads (operation_with (type_at depth)) tokens.now result }
    ensures shorter { Advances tokens.now result }
{
    let is_oneway = is_at_word(tokens, Keyword::Oneway);
    let rest = if is_oneway { &tokens[1..] } else { tokens };
    let (result, rest) = operation_result(alloc, depth, rest)?;
    let (name, rest) = identifier(rest)?;
    operation_rest(alloc, depth, ((is_oneway, result), name), rest)
}

/// What stands behind the name of an operation, of which it is known whether it is oneway, and its
/// result.
#[tactic(auto, unfolding(idl_tree::specs::reading::ReadInterface::operation_rest_with))]
fn operation_rest(
    alloc: Global,
    depth: usize,
    head: ((bool, Option<TypeTree>), Bytes),
    tokens: &[Token],
) -> Result<(Operation, &[Token]), ReadingFault>
    ensures reads { Reads (operation_rest_with (type_at depth) head.0.0 head.0.1 head.1)
        tokens.now result }
    ensures shorter { Advances tokens.now result }
{
    let rest = behind(tokens, Mark::OpenParenthesis)?;
    let (parameters, rest) = parameters(alloc, depth, rest)?;
    let rest = behind(rest, Mark::CloseParenthesis)?;
    let (raised, rest) = raises_if(alloc, Keyword::Raises, rest)?;
    let (context, rest) = context_if(alloc, rest)?;
    let ((is_oneway, result), name) = head;
    let operation = Operation {
        is_oneway,
        result,
        name,
        parameters,
        raises: raised,
        context,
    };
    Ok((operation, rest))
}
