//! The values of expressions.

ghost use Rattle.std.specs.Prelude.{◌≡◌, ◌∷◌, [], IfOk, length};
ghost use Rattle.idl_value.specs.Evaluation.{Faulty, ahead, bound_of, fault, first_of, joined, literal_value, value_of};
ghost use Rattle.idl_value.specs.Walk.{held_outcome, is_held_outcome, positive_outcome, seen};

use crate::constant_type::ConstantType;
use crate::integer::IntegerKind;
use crate::outcome::{Outcome, ValueCode, ValueFault};
use crate::part_value::PartValue;
use crate::value::Value;
use crate::walk::{Passed, Scene};
use idl_base::Seq;
use idl_tree::{Expression, Literal, Several};
use std::alloc::{AllocError, Global};

/// What an expression comes to for a target, where its names have these values, in the order of their tokens. A name that has
/// none is faulty, and that is told elsewhere.
pub fn evaluate(
    alloc: Global,
    target: &ConstantType,
    operands: &[Option<Value>],
    expression: &Expression,
) -> Result<Outcome, AllocError>
    ensures value { IfOk result (λ outcome.
        outcome ≡ first_of (value_of target.now operands.now expression.now)) }
{
    let scene = Scene { target, operands };
    let begin = Passed { token: 0, name: 0 };
    let part = scene.expression(begin, expression).part;
    held(alloc, target, part)
}

/// The same of the bound of a string or a sequence, or the length of an array.
pub fn evaluate_bound(
    alloc: Global,
    operands: &[Option<Value>],
    expression: &Expression,
) -> Result<Outcome, AllocError>
    ensures value { IfOk result (λ outcome.
        outcome ≡ first_of (bound_of operands.now expression.now)) }
{
    let target = ConstantType::Integer(IntegerKind::UnsignedLong);
    let outcome = evaluate(alloc, &target, operands, expression)?;
    Ok(positive(outcome))
}

// What is told of a bound with this value.
fn positive(outcome: Outcome) -> Outcome
    ensures { result ≡ positive_outcome outcome }
{
    if let Outcome::Value(Value::Integer(0)) = &outcome {
        return first_token(ValueCode::NotPositive);
    }
    outcome
}

// A fault of the whole expression.
fn first_token(code: ValueCode) -> Outcome
    ensures { result ≡ first_of (Faulty (fault 0 code ∷ [])) }
{
    Outcome::Fault(ValueFault { token: 0, code })
}

// What the expression comes to whose parts come to this.
fn held(alloc: Global, target: &ConstantType, part: PartValue<'_>) -> Result<Outcome, AllocError>
    ensures { IfOk result (λ outcome. outcome ≡ held_outcome target.now (seen part.entry)) }
{
    if is_held(target, part) {
        outcome_of(alloc, part)
    } else {
        Ok(first_token(ValueCode::OutOfRange))
    }
}

// Whether a value is in the range of its target, and a string within its bound.
fn is_held(target: &ConstantType, part: PartValue<'_>) -> bool
    ensures { result ≡ is_held_outcome target.now (seen part.entry) }
{
    match (target, part) {
        (ConstantType::Integer(kind), PartValue::Integer(number)) => kind.holds(number),
        (ConstantType::Integer(kind), PartValue::Literal(Literal::Integer(number))) => {
            kind.holds(i128::from(*number))
        }
        (ConstantType::Integer(kind), PartValue::Named(Value::Integer(number))) => kind.holds(
            *number,
        ),
        (ConstantType::Text(Some(bound)), PartValue::Literal(Literal::Text(pieces)))
        | (ConstantType::WideText(Some(bound)), PartValue::Literal(Literal::WideText(pieces))) => {
            joined_length(pieces) <= *bound as usize
        }
        (ConstantType::Text(Some(bound)), PartValue::Named(Value::Text(text)))
        | (ConstantType::WideText(Some(bound)), PartValue::Named(Value::WideText(text))) => {
            text.len() <= *bound as usize
        }
        _ => true,
    }
}

// How many characters string literals have together.
fn joined_length(pieces: &Several<Seq<u16>>) -> usize
    ensures { result ≡ ahead 0 (length (joined pieces.now)) }
{
    let mut length = with_piece(0, &pieces.first);
    for piece in pieces.rest.as_slice() {
        length = with_piece(length, piece);
    }
    length
}

// So many characters, and those of a piece.
fn with_piece(count: usize, piece: &Seq<u16>) -> usize
    ensures { result ≡ ahead count (length piece.now) }
{
    count.saturating_add(piece.len())
}

// What is told of a part.
fn outcome_of(alloc: Global, part: PartValue<'_>) -> Result<Outcome, AllocError>
    ensures { IfOk result (λ outcome. outcome ≡ seen part.entry) }
{
    Ok(match part {
        PartValue::Integer(number) => Outcome::Value(Value::Integer(number)),
        PartValue::Literal(literal) => Outcome::Value(literal_value(alloc, literal)?),
        PartValue::Named(value) => Outcome::Value(value.clone()?),
        PartValue::Fault(fault) => Outcome::Fault(fault),
        PartValue::Told => Outcome::Told,
    })
}

/// The value of a literal.
pub fn literal_value(alloc: Global, literal: &Literal) -> Result<Value, AllocError>
    ensures { IfOk result (λ value. value ≡ literal_value literal.now) }
{
    Ok(match literal {
        Literal::Integer(number) => Value::Integer(i128::from(*number)),
        Literal::Character(character) => Value::Character(*character),
        Literal::WideCharacter(character) => Value::WideCharacter(*character),
        Literal::Text(pieces) => Value::Text(joined(alloc, pieces)?),
        Literal::WideText(pieces) => Value::WideText(joined(alloc, pieces)?),
        Literal::True => Value::Boolean(true),
        Literal::False => Value::Boolean(false),
    })
}

/// String literals as one.
pub fn joined(alloc: Global, pieces: &Several<Seq<u16>>) -> Result<Seq<u16>, AllocError>
    ensures { IfOk result (λ text. text ≡ joined pieces.now) }
{
    let mut text = Vec::from_slice(alloc, pieces.first.as_slice())?;
    for piece in pieces.rest.as_slice() {
        text.extend_from_slice(piece.as_slice())?;
    }
    Ok(Seq::from_vec(text))
}
