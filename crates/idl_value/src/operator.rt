//! Operators at whole numbers.

ghost use Rattle.std.specs.Prelude.{◌≡◌, ◌+ℤ◌, ◌-ℤ◌, ◌*ℤ◌, neg_ℤ};
ghost use Rattle.idl_value.specs.Operate.{complement, divided, in_parts, operate, operate_sign, remaining, shifted_left, shifted_right};

use crate::integer::IntegerKind;
use crate::outcome::ValueCode;
use crate::whole;
use idl_tree::expression::UnaryOperator;

/// An operator between two operands.
#[derive(Clone, Copy)]
pub enum BinaryOperator {
    Or,
    ExclusiveOr,
    And,
    ShiftLeft,
    ShiftRight,
    Add,
    Subtract,
    Multiply,
    Divide,
    Remainder,
}

/// A part of a value of the type.
pub fn part(kind: IntegerKind, value: i128) -> Result<i128, ValueCode>
    ensures { result ≡ in_parts kind value }
{
    if kind.holds_part(value) {
        Ok(value)
    } else {
        Err(ValueCode::OutOfRange)
    }
}

fn add(kind: IntegerKind, a: i128, b: i128) -> Result<i128, ValueCode>
    ensures { result ≡ in_parts kind (a +ℤ b) }
{
    match a.checked_add(b) {
        Some(sum) => part(kind, sum),
        None => Err(ValueCode::OutOfRange),
    }
}

fn subtract(kind: IntegerKind, a: i128, b: i128) -> Result<i128, ValueCode>
    ensures { result ≡ in_parts kind (a -ℤ b) }
{
    match a.checked_sub(b) {
        Some(difference) => part(kind, difference),
        None => Err(ValueCode::OutOfRange),
    }
}

fn multiply(kind: IntegerKind, a: i128, b: i128) -> Result<i128, ValueCode>
    ensures { result ≡ in_parts kind (a *ℤ b) }
{
    match a.checked_mul(b) {
        Some(product) => part(kind, product),
        None => Err(ValueCode::OutOfRange),
    }
}

fn negate(kind: IntegerKind, a: i128) -> Result<i128, ValueCode>
    ensures { result ≡ in_parts kind (neg_ℤ a) }
{
    match a.checked_neg() {
        Some(opposite) => part(kind, opposite),
        None => Err(ValueCode::OutOfRange),
    }
}

fn divide(kind: IntegerKind, a: i128, d: i128) -> Result<i128, ValueCode>
    ensures { result ≡ divided kind a d }
{
    if d == 0 {
        return Err(ValueCode::DivisionByZero);
    }
    match a.checked_div(d) {
        Some(quotient) => part(kind, quotient),
        None => Err(ValueCode::OutOfRange),
    }
}

fn remain(kind: IntegerKind, a: i128, d: i128) -> Result<i128, ValueCode>
    ensures { result ≡ remaining kind a d }
{
    if d == 0 {
        Err(ValueCode::DivisionByZero)
    } else {
        part(kind, a.wrapping_rem(d))
    }
}

fn shift_left(kind: IntegerKind, a: i128, count: i128) -> Result<i128, ValueCode>
    ensures { result ≡ shifted_left kind a count }
{
    if count < 0 || count > 63 {
        return Err(ValueCode::BadShift);
    }
    multiply(kind, a, i128::from(1u64 << count as u32))
}

fn shift_right(kind: IntegerKind, a: i128, count: i128) -> Result<i128, ValueCode>
    ensures { result ≡ shifted_right kind a count }
{
    if a < 0 || count < 0 || count > 63 {
        return Err(ValueCode::BadShift);
    }
    part(kind, a >> count as u32)
}

fn complement_of(kind: IntegerKind, a: i128) -> Result<i128, ValueCode>
    ensures { result ≡ in_parts kind (complement kind a) }
{
    if kind.is_signed() {
        part(kind, !a)
    } else {
        subtract(kind, kind.greatest(), a)
    }
}

impl BinaryOperator {
    /// The value of `a operator b` as a part of a value of the type.
    pub fn apply(self, kind: IntegerKind, a: i128, b: i128) -> Result<i128, ValueCode>
        ensures { result ≡ operate kind self a b }
    {
        match self {
            BinaryOperator::Or => part(kind, whole::or(a, b)),
            BinaryOperator::ExclusiveOr => part(kind, whole::xor(a, b)),
            BinaryOperator::And => part(kind, whole::and(a, b)),
            BinaryOperator::ShiftLeft => shift_left(kind, a, b),
            BinaryOperator::ShiftRight => shift_right(kind, a, b),
            BinaryOperator::Add => add(kind, a, b),
            BinaryOperator::Subtract => subtract(kind, a, b),
            BinaryOperator::Multiply => multiply(kind, a, b),
            BinaryOperator::Divide => divide(kind, a, b),
            BinaryOperator::Remainder => remain(kind, a, b),
        }
    }
}

/// The value of the operator before its operand as a part of a value of the type.
pub fn apply_sign(sign: UnaryOperator, kind: IntegerKind, a: i128) -> Result<i128, ValueCode>
    ensures { result ≡ operate_sign kind sign a }
{
    match sign {
        UnaryOperator::Plus => part(kind, a),
        UnaryOperator::Minus => negate(kind, a),
        UnaryOperator::Complement => complement_of(kind, a),
    }
}
