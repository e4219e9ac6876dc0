//! Expressions: a function for each rank of operators, and one for the operands behind its first.

ghost use Rattle.std.specs.Prelude.{◌≡◌};
ghost use Rattle.idl_lex.specs.declared.kinds.mark.Mark.TheVariants as mark;
ghost use Rattle.idl_tree.specs.Lexeme.{lexemes};
ghost use Rattle.idl_tree.specs.reading.ReadExpression.{and_with, behind_with, exclusive_or_with, expression_at, or_with, parentheses_with, primary_with, product_operator_of, product_with, shift_operator_of, shift_with, sum_operator_of, sum_with, unary_with};
ghost use Rattle.idl_tree.specs.reading.ReadName.{begins_name};
ghost use Rattle.idl_tree.specs.reading.Reading.{first, many_of};
ghost use Rattle.idl_tree.specs.reading.Tests.{is_mark};
ghost use Rattle.idl_syntax.specs.Gives.{Advances, Reads, Remains};
ghost use Rattle.idl_syntax.specs.Steps.{steps_with};

use crate::cursor::{behind, closed, is_at, name};
use crate::fault::ReadingFault;
use crate::literal::literal;
use crate::name::scoped_name;
use crate::operator::{product_operator, shift_operator, sum_operator, unary_operator};
use idl_base::{Boxed, Seq};
use idl_lex::Token;
use idl_lex::kinds::Mark;
use idl_tree::Expression;
use idl_tree::expression::{
    And, ExclusiveOr, Primary, Product, ProductOperator, Shift, ShiftOperator, Sum, SumOperator,
    Unary,
};
use std::alloc::Global;

/// An expression, with less than so many levels of parentheses.
#[cycle(expression)]
#[tactic(auto, unfolding(idl_tree::specs::reading::ReadExpression::expression_at))]
pub fn expression(
    alloc: Global,
    depth: usize,
    tokens: &[Token],
) -> Result<(Expression, &[Token]), ReadingFault>
    ensures reads { Reads (expression_at depth) tokens.now result }
    ensures shorter { Advances tokens.now result }
{
    if depth == 0 {
        return Err(ReadingFault::NoTree(tokens.len()));
    }
    alternatives(alloc, depth - 1, tokens)
}

/// Operands with `|` between them.
#[cycle(expression)]
#[tactic(auto, unfolding(idl_tree::specs::reading::ReadExpression::parted_with))]
fn alternatives(
    alloc: Global,
    depth: usize,
    tokens: &[Token],
) -> Result<(Expression, &[Token]), ReadingFault>
    ensures reads { Reads (or_with (expression_at depth)) tokens.now result }
    ensures shorter { Advances tokens.now result }
{
    let (first, rest) = exclusive_or(alloc, depth, tokens)?;
    let first = Boxed::new(alloc, first)?;
    let (more, rest) = more_alternatives(alloc, depth, rest)?;
    Ok((Expression { first, rest: more }, rest))
}

/// Operands, each behind a `|`.
#[cycle(expression)]
fn more_alternatives(
    alloc: Global,
    depth: usize,
    tokens: &[Token],
) -> Result<(Seq<ExclusiveOr>, &[Token]), ReadingFault>
    ensures reads { Reads (many_of (is_mark mark.Bar) (behind_with mark.Bar (exclusive_or_with
        (expression_at depth)))) tokens.now result }
    ensures within { Remains tokens.now result }
{
    let mut operands = Vec::new(alloc);
    let mut rest = tokens;
    'more_alternatives: while is_at(rest, Mark::Bar) {
        let (operand, after) = exclusive_or(alloc, depth, &rest[1..])?;
        operands.push(operand)?;
        rest = after;
    }
    Ok((Seq::from_vec(operands), rest))
}

/// Operands with `^` between them.
#[cycle(expression)]
#[tactic(auto, unfolding(idl_tree::specs::reading::ReadExpression::parted_with))]
fn exclusive_or(
    alloc: Global,
    depth: usize,
    tokens: &[Token],
) -> Result<(ExclusiveOr, &[Token]), ReadingFault>
    ensures reads { Reads (exclusive_or_with (expression_at depth)) tokens.now result }
    ensures shorter { Advances tokens.now result }
{
    let (first, rest) = and(alloc, depth, tokens)?;
    let first = Boxed::new(alloc, first)?;
    let (more, rest) = more_ands(alloc, depth, rest)?;
    Ok((ExclusiveOr { first, rest: more }, rest))
}

/// Operands, each behind a `^`.
#[cycle(expression)]
fn more_ands(
    alloc: Global,
    depth: usize,
    tokens: &[Token],
) -> Result<(Seq<And>, &[Token]), ReadingFault>
    ensures reads { Reads (many_of (is_mark mark.Caret) (behind_with mark.Caret (and_with
        (expression_at depth)))) tokens.now result }
    ensures within { Remains tokens.now result }
{
    let mut operands = Vec::new(alloc);
    let mut rest = tokens;
    'more_ands: while is_at(rest, Mark::Caret) {
        let (operand, after) = and(alloc, depth, &rest[1..])?;
        operands.push(operand)?;
        rest = after;
    }
    Ok((Seq::from_vec(operands), rest))
}

/// Operands with `&` between them.
#[cycle(expression)]
#[tactic(auto, unfolding(idl_tree::specs::reading::ReadExpression::parted_with))]
fn and(alloc: Global, depth: usize, tokens: &[Token]) -> Result<(And, &[Token]), ReadingFault>
    ensures reads { Reads (and_with (expression_at depth)) tokens.now result }
    ensures shorter { Advances tokens.now result }
{
    let (first, rest) = shift(alloc, depth, tokens)?;
    let first = Boxed::new(alloc, first)?;
    let (more, rest) = more_shifts(alloc, depth, rest)?;
    Ok((And { first, rest: more }, rest))
}

/// Operands, each behind a `&`.
#[cycle(expression)]
fn more_shifts(
    alloc: Global,
    depth: usize,
    tokens: &[Token],
) -> Result<(Seq<Shift>, &[Token]), ReadingFault>
    ensures reads { Reads (many_of (is_mark mark.Ampersand) (behind_with mark.Ampersand (shift_with
        (expression_at depth)))) tokens.now result }
    ensures within { Remains tokens.now result }
{
    let mut operands = Vec::new(alloc);
    let mut rest = tokens;
    'more_shifts: while is_at(rest, Mark::Ampersand) {
        let (operand, after) = shift(alloc, depth, &rest[1..])?;
        operands.push(operand)?;
        rest = after;
    }
    Ok((Seq::from_vec(operands), rest))
}

/// An operand, and shifts of it.
#[cycle(expression)]
#[tactic(auto, unfolding(idl_tree::specs::reading::ReadExpression::chain_with))]
fn shift(alloc: Global, depth: usize, tokens: &[Token]) -> Result<(Shift, &[Token]), ReadingFault>
    ensures reads { Reads (shift_with (expression_at depth)) tokens.now result }
    ensures shorter { Advances tokens.now result }
{
    let (first, rest) = sum(alloc, depth, tokens)?;
    let first = Boxed::new(alloc, first)?;
    let (more, rest) = more_sums(alloc, depth, rest)?;
    Ok((Shift { first, rest: more }, rest))
}

/// Shifts, each with its operator.
#[cycle(expression)]
fn more_sums(
    alloc: Global,
    depth: usize,
    tokens: &[Token],
) -> Result<(Seq<(ShiftOperator, Sum)>, &[Token]), ReadingFault>
    ensures reads { Reads (steps_with shift_operator_of (sum_with (expression_at depth))) tokens.now
        result }
    ensures within { Remains tokens.now result }
{
    let mut steps = Vec::new(alloc);
    let mut rest = tokens;
    'more_sums: while let Some(operator) = shift_operator(rest) {
        let (operand, after) = sum(alloc, depth, &rest[1..])?;
        steps.push((operator, operand))?;
        rest = after;
    }
    Ok((Seq::from_vec(steps), rest))
}

/// An operand, and what is added or taken away.
#[cycle(expression)]
#[tactic(auto, unfolding(idl_tree::specs::reading::ReadExpression::chain_with))]
fn sum(alloc: Global, depth: usize, tokens: &[Token]) -> Result<(Sum, &[Token]), ReadingFault>
    ensures reads { Reads (sum_with (expression_at depth)) tokens.now result }
    ensures shorter { Advances tokens.now result }
{
    let (first, rest) = product(alloc, depth, tokens)?;
    let first = Boxed::new(alloc, first)?;
    let (more, rest) = more_products(alloc, depth, rest)?;
    Ok((Sum { first, rest: more }, rest))
}

/// What is added or taken away, each with its operator.
#[cycle(expression)]
fn more_products(
    alloc: Global,
    depth: usize,
    tokens: &[Token],
) -> Result<(Seq<(SumOperator, Product)>, &[Token]), ReadingFault>
    ensures reads { Reads (steps_with sum_operator_of (product_with (expression_at depth)))
        tokens.now result }
    ensures within { Remains tokens.now result }
{
    let mut steps = Vec::new(alloc);
    let mut rest = tokens;
    'more_products: while let Some(operator) = sum_operator(rest) {
        let (operand, after) = product(alloc, depth, &rest[1..])?;
        steps.push((operator, operand))?;
        rest = after;
    }
    Ok((Seq::from_vec(steps), rest))
}

/// An operand, and factors and divisors.
#[cycle(expression)]
#[tactic(auto, unfolding(idl_tree::specs::reading::ReadExpression::chain_with))]
fn product(
    alloc: Global,
    depth: usize,
    tokens: &[Token],
) -> Result<(Product, &[Token]), ReadingFault>
    ensures reads { Reads (product_with (expression_at depth)) tokens.now result }
    ensures shorter { Advances tokens.now result }
{
    let (first, rest) = unary(alloc, depth, tokens)?;
    let first = Boxed::new(alloc, first)?;
    let (more, rest) = more_unaries(alloc, depth, rest)?;
    Ok((Product { first, rest: more }, rest))
}

/// Factors and divisors, each with its operator.
#[cycle(expression)]
fn more_unaries(
    alloc: Global,
    depth: usize,
    tokens: &[Token],
) -> Result<(Seq<(ProductOperator, Unary)>, &[Token]), ReadingFault>
    ensures reads { Reads (steps_with product_operator_of (unary_with (primary_with (expression_at
        depth)))) tokens.now result }
    ensures within { Remains tokens.now result }
{
    let mut steps = Vec::new(alloc);
    let mut rest = tokens;
    'more_unaries: while let Some(operator) = product_operator(rest) {
        let (operand, after) = unary(alloc, depth, &rest[1..])?;
        steps.push((operator, operand))?;
        rest = after;
    }
    Ok((Seq::from_vec(steps), rest))
}

/// An operand, with at most one operator before it.
#[cycle(expression)]
#[tactic(auto, unfolding(idl_tree::specs::reading::ReadExpression::unary_with))]
fn unary(alloc: Global, depth: usize, tokens: &[Token]) -> Result<(Unary, &[Token]), ReadingFault>
    ensures reads { Reads (unary_with (primary_with (expression_at depth))) tokens.now result }
    ensures shorter { Advances tokens.now result }
{
    let operator = unary_operator(tokens);
    let rest = if operator.is_some() {
        &tokens[1..]
    } else {
        tokens
    };
    let (operand, rest) = primary(alloc, depth, rest)?;
    Ok((Unary { operator, operand }, rest))
}

/// A name, a literal, or an expression in parentheses.
#[cycle(expression)]
#[tactic(auto, unfolding(idl_tree::specs::reading::ReadExpression::primary_with))]
fn primary(
    alloc: Global,
    depth: usize,
    tokens: &[Token],
) -> Result<(Primary, &[Token]), ReadingFault>
    ensures reads { Reads (primary_with (expression_at depth)) tokens.now result }
    ensures shorter { Advances tokens.now result }
{
    if is_at(tokens, Mark::OpenParenthesis) {
        parentheses(alloc, depth, tokens)
    } else if is_at_name(tokens) {
        let (name, rest) = scoped_name(alloc, tokens)?;
        Ok((Primary::Name(name), rest))
    } else {
        let (literal, rest) = literal(alloc, tokens)?;
        Ok((Primary::Literal(literal), rest))
    }
}

/// Whether a name begins here.
fn is_at_name(tokens: &[Token]) -> bool
    ensures { result ≡ begins_name (first (lexemes tokens.now)) }
{
    match name(tokens) {
        Some(_) => true,
        None => is_at(tokens, Mark::ColonColon),
    }
}

/// An expression in parentheses.
#[cycle(expression)]
#[tactic(auto, unfolding(idl_tree::specs::reading::ReadExpression::parentheses_with))]
fn parentheses(
    alloc: Global,
    depth: usize,
    tokens: &[Token],
) -> Result<(Primary, &[Token]), ReadingFault>
    ensures reads { Reads (parentheses_with (expression_at depth)) tokens.now result }
    ensures shorter { Advances tokens.now result }
{
    let rest = behind(tokens, Mark::OpenParenthesis)?;
    let (inner, rest) = expression(alloc, depth, rest)?;
    let inner = Boxed::new(alloc, inner)?;
    closed(Primary::Parentheses(inner), rest, Mark::CloseParenthesis)
}
