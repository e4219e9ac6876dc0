//! Expressions.

ghost use Rattle.std.specs.Prelude.{◌≡◌, ◌+◌, length, OnOk};
ghost use Rattle.idl_parts.specs.ExpressionParts.{and_parts, exclusive_or_parts, expression_parts, operator_parts, primary_parts, product_parts, shift_parts, sum_parts, unary_parts, value_parts};
ghost use Rattle.idl_parts.specs.Item.{Pushes};
ghost use Rattle.idl_tree.specs.Expression.{spell_literal};

use crate::part::{Purpose, UnitPart, Use};
use idl_base::Seq;
use idl_tree::expression::{And, ExclusiveOr, Primary, Product, Shift, Sum, Unary, UnaryOperator};
use idl_tree::{Expression, Literal, Several};
use std::alloc::AllocError;

/// A whole expression, and what it is for.
pub fn push_value<'a>(
    sites: &mut Vec<UnitPart<'a>>,
    target: Purpose,
    value: &'a Expression,
) -> Result<(), AllocError>
    ensures { OnOk result (Pushes sites.old.items sites.new.items (value_parts target value.now)) }
{
    sites.push(UnitPart::ValueBegins)?;
    push_expression(sites, value)?;
    sites.push(UnitPart::ValueEnds(target, value))?;
    Ok(())
}

/// Operands with `|` between them.
#[cycle(expression)]
#[tactic(auto, unfolding(crate::specs::ExpressionParts::expression_parts))]
fn push_expression<'a>(
    sites: &mut Vec<UnitPart<'a>>,
    expression: &'a Expression,
) -> Result<(), AllocError>
    ensures { OnOk result
        (Pushes sites.old.items sites.new.items (expression_parts expression.now)) }
{
    let Expression { first, rest } = expression;
    push_exclusive_or(sites, first.get())?;
    for operand in rest.as_slice() {
        sites.push(UnitPart::Tokens(1))?;
        push_exclusive_or(sites, operand)?;
    }
    Ok(())
}

/// Operands with `^` between them.
#[cycle(expression)]
#[tactic(auto, unfolding(crate::specs::ExpressionParts::exclusive_or_parts))]
fn push_exclusive_or<'a>(
    sites: &mut Vec<UnitPart<'a>>,
    exclusive_or: &'a ExclusiveOr,
) -> Result<(), AllocError>
    ensures { OnOk result
        (Pushes sites.old.items sites.new.items (exclusive_or_parts exclusive_or.now)) }
{
    let ExclusiveOr { first, rest } = exclusive_or;
    push_and(sites, first.get())?;
    for operand in rest.as_slice() {
        sites.push(UnitPart::Tokens(1))?;
        push_and(sites, operand)?;
    }
    Ok(())
}

/// Operands with `&` between them.
#[cycle(expression)]
#[tactic(auto, unfolding(crate::specs::ExpressionParts::and_parts))]
fn push_and<'a>(sites: &mut Vec<UnitPart<'a>>, and: &'a And) -> Result<(), AllocError>
    ensures { OnOk result (Pushes sites.old.items sites.new.items (and_parts and.now)) }
{
    let And { first, rest } = and;
    push_shift(sites, first.get())?;
    for operand in rest.as_slice() {
        sites.push(UnitPart::Tokens(1))?;
        push_shift(sites, operand)?;
    }
    Ok(())
}

/// An operand, and shifts of it.
#[cycle(expression)]
#[tactic(auto, unfolding(crate::specs::ExpressionParts::shift_parts))]
fn push_shift<'a>(sites: &mut Vec<UnitPart<'a>>, shift: &'a Shift) -> Result<(), AllocError>
    ensures { OnOk result (Pushes sites.old.items sites.new.items (shift_parts shift.now)) }
{
    let Shift { first, rest } = shift;
    push_sum(sites, first.get())?;
    for (_operator, operand) in rest.as_slice() {
        sites.push(UnitPart::Tokens(1))?;
        push_sum(sites, operand)?;
    }
    Ok(())
}

/// An operand, and what is added or taken away.
#[cycle(expression)]
#[tactic(auto, unfolding(crate::specs::ExpressionParts::sum_parts))]
fn push_sum<'a>(sites: &mut Vec<UnitPart<'a>>, sum: &'a Sum) -> Result<(), AllocError>
    ensures { OnOk result (Pushes sites.old.items sites.new.items (sum_parts sum.now)) }
{
    let Sum { first, rest } = sum;
    push_product(sites, first.get())?;
    for (_operator, operand) in rest.as_slice() {
        sites.push(UnitPart::Tokens(1))?;
        push_product(sites, operand)?;
    }
    Ok(())
}

/// An operand, and factors and divisors.
#[cycle(expression)]
#[tactic(auto, unfolding(crate::specs::ExpressionParts::product_parts))]
fn push_product<'a>(sites: &mut Vec<UnitPart<'a>>, product: &'a Product) -> Result<(), AllocError>
    ensures { OnOk result (Pushes sites.old.items sites.new.items (product_parts product.now)) }
{
    let Product { first, rest } = product;
    push_unary(sites, first.get())?;
    for (_operator, operand) in rest.as_slice() {
        sites.push(UnitPart::Tokens(1))?;
        push_unary(sites, operand)?;
    }
    Ok(())
}

/// An operand, with at most one operator before it.
#[cycle(expression)]
#[tactic(auto, unfolding(crate::specs::ExpressionParts::unary_parts))]
fn push_unary<'a>(sites: &mut Vec<UnitPart<'a>>, unary: &'a Unary) -> Result<(), AllocError>
    ensures { OnOk result (Pushes sites.old.items sites.new.items (unary_parts unary.now)) }
{
    push_operator(sites, unary.operator)?;
    push_primary(sites, &unary.operand)?;
    Ok(())
}

/// An operator before an operand, if there is one.
fn push_operator<'a>(
    sites: &mut Vec<UnitPart<'a>>,
    operator: Option<UnaryOperator>,
) -> Result<(), AllocError>
    ensures { OnOk result (Pushes sites.old.items sites.new.items (operator_parts operator)) }
{
    match operator {
        Some(_operator) => sites.extend_from_slice(&[UnitPart::Tokens(1)]),
        None => Ok(()),
    }
}

/// An expression that is no operation.
#[cycle(expression)]
#[tactic(auto, unfolding(crate::specs::ExpressionParts::primary_parts))]
fn push_primary<'a>(sites: &mut Vec<UnitPart<'a>>, primary: &'a Primary) -> Result<(), AllocError>
    ensures { OnOk result (Pushes sites.old.items sites.new.items (primary_parts primary.now)) }
{
    match primary {
        Primary::Name(name) => sites.push(UnitPart::Used(Use::AsOperand, name))?,
        Primary::Literal(literal) => sites.push(UnitPart::Tokens(literal_len(literal)))?,
        Primary::Parentheses(inner) => {
            sites.push(UnitPart::Tokens(1))?;
            push_expression(sites, inner.get())?;
            sites.push(UnitPart::Tokens(1))?;
        }
    }
    Ok(())
}

/// How many tokens a literal is.
fn literal_len(literal: &Literal) -> usize
    ensures { result ≡ length (spell_literal literal.now) }
{
    match literal {
        Literal::Text(pieces) | Literal::WideText(pieces) => text_len(pieces),
        _ => 1,
    }
}

/// How many tokens string literals are.
pub fn text_len(pieces: &Several<Seq<u16>>) -> usize
    ensures { result ≡ length pieces.now.rest + 1 }
{
    pieces.rest.as_slice().len() + 1
}
