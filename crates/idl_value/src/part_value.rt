//! What the parts of an expression come to.

ghost use Rattle.std.specs.Prelude.{◌≡◌, Err};
ghost use Rattle.std.specs.Option.{option_copied};
ghost use Rattle.idl_value.specs.Evaluation.{admitted, combined_numbers, literal_value, signed_number, whole};
ghost use Rattle.idl_value.specs.Walk.{named_outcome, operated_outcome, outcome_at, outcome_number, seen, signed_outcome};
ghost use Rattle.idl_value.specs.declared.outcome.ValueCode.TheVariants.{WrongKind};

use crate::constant_type::ConstantType;
use crate::integer::IntegerKind;
use crate::operator::{BinaryOperator, apply_sign, part};
use crate::outcome::{ValueCode, ValueFault};
use crate::value::Value;
use idl_tree::Literal;
use idl_tree::expression::UnaryOperator;

/// What a part of an expression comes to. A value is a number, or lent by what it stands in.
#[derive(Clone, Copy)]
pub enum PartValue<'a> {
    Integer(i128),
    Literal(&'a Literal),
    Named(&'a Value),
    /// It has no value, and this fault is the first.
    Fault(ValueFault),
    /// It has no value, and all its faults are those of names.
    Told,
}

/// A whole number at a token, or its fault.
fn whole_part<'a>(token: usize, number: Result<i128, ValueCode>) -> PartValue<'a>
    ensures { seen result ≡ outcome_at token (whole number) }
{
    match number {
        Ok(number) => PartValue::Integer(number),
        Err(code) => PartValue::Fault(ValueFault { token, code }),
    }
}

fn wrong_kind<'a>(token: usize) -> PartValue<'a>
    ensures { seen result ≡ outcome_at token (Err WrongKind) }
{
    PartValue::Fault(ValueFault {
        token,
        code: ValueCode::WrongKind,
    })
}

/// A literal that begins at the token.
pub fn literal_part<'a>(target: &ConstantType, token: usize, literal: &'a Literal) -> PartValue<'a>
    ensures { seen result ≡ outcome_at token (admitted target.now (literal_value literal.now)) }
{
    match (target, literal) {
        (ConstantType::Integer(kind), Literal::Integer(number)) => {
            whole_part(token, part(*kind, i128::from(*number)))
        }
        (ConstantType::Boolean, Literal::True | Literal::False)
        | (ConstantType::Character, Literal::Character(_))
        | (ConstantType::WideCharacter, Literal::WideCharacter(_))
        | (ConstantType::Text(_), Literal::Text(_))
        | (ConstantType::WideText(_), Literal::WideText(_)) => PartValue::Literal(literal),
        _ => wrong_kind(token),
    }
}

/// A name whose last part stands at the token.
pub fn named_part<'a>(
    target: &ConstantType,
    token: usize,
    value: Option<&'a Value>,
) -> PartValue<'a>
    ensures { seen result ≡ named_outcome target.now token (option_copied value.entry) }
{
    match value {
        Some(value) => value_part(target, token, value),
        None => PartValue::Told,
    }
}

fn value_part<'a>(target: &ConstantType, token: usize, value: &'a Value) -> PartValue<'a>
    ensures { seen result ≡ outcome_at token (admitted target.now value.now) }
{
    match (target, value) {
        (ConstantType::Integer(kind), Value::Integer(number)) => whole_part(
            token,
            part(*kind, *number),
        ),
        (ConstantType::Enumeration(path), Value::Enumerator(of, _)) if path != of => wrong_kind(
            token,
        ),
        (ConstantType::Boolean, Value::Boolean(_))
        | (ConstantType::Character, Value::Character(_))
        | (ConstantType::WideCharacter, Value::WideCharacter(_))
        | (ConstantType::Text(_), Value::Text(_))
        | (ConstantType::WideText(_), Value::WideText(_))
        | (ConstantType::Enumeration(_), Value::Enumerator(_, _)) => PartValue::Named(value),
        _ => wrong_kind(token),
    }
}

/// An operator, and the number of its token.
#[derive(Clone, Copy)]
pub struct OperatorToken {
    pub operator: BinaryOperator,
    pub token: usize,
}

impl<'a> PartValue<'a> {
    /// This part behind an operator, which stands at the token.
    pub fn with_sign(
        self,
        target: &ConstantType,
        token: usize,
        sign: UnaryOperator,
    ) -> PartValue<'a>
        ensures { seen result ≡ signed_outcome target.now token sign (seen self.entry) }
    {
        match self {
            PartValue::Fault(_) | PartValue::Told => self,
            _ => whole_part(token, signed_number(target.kind(), sign, self.number())),
        }
    }

    /// This part, the operator, and the part behind that.
    pub fn combined(
        self,
        target: &ConstantType,
        mark: OperatorToken,
        right: PartValue<'a>,
    ) -> PartValue<'a>
        ensures { seen result
            ≡ operated_outcome target.now mark.token mark.operator (seen self.entry) (seen right.entry) }
    {
        match (self, right) {
            (PartValue::Fault(_), _) => self,
            (_, PartValue::Fault(_)) => right,
            (PartValue::Told, _) => self,
            (_, PartValue::Told) => right,
            _ => {
                let numbers = (self.number(), right.number());
                whole_part(
                    mark.token,
                    combined_numbers(target.kind(), mark.operator, numbers),
                )
            }
        }
    }

    /// The whole number that it is.
    fn number(self) -> Option<i128>
        ensures { result ≡ outcome_number (seen self.entry) }
    {
        match self {
            PartValue::Integer(number) => Some(number),
            PartValue::Literal(Literal::Integer(number)) => Some(i128::from(*number)),
            PartValue::Named(Value::Integer(number)) => Some(*number),
            _ => None,
        }
    }
}

fn signed_number(
    kind: Option<IntegerKind>,
    sign: UnaryOperator,
    number: Option<i128>,
) -> Result<i128, ValueCode>
    ensures { result ≡ signed_number kind sign number }
{
    match (kind, number) {
        (Some(kind), Some(number)) => apply_sign(sign, kind, number),
        _ => Err(ValueCode::WrongKind),
    }
}

fn combined_numbers(
    kind: Option<IntegerKind>,
    operator: BinaryOperator,
    numbers: (Option<i128>, Option<i128>),
) -> Result<i128, ValueCode>
    ensures { result ≡ combined_numbers kind operator numbers.0 numbers.1 }
{
    match (kind, numbers) {
        (Some(kind), (Some(left), Some(right))) => operator.apply(kind, left, right),
        _ => Err(ValueCode::WrongKind),
    }
}
