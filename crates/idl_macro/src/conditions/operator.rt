//! The operators of a condition, with their ranks and their values.

ghost use Rattle.std.specs.Prelude.{◌≡◌, ◌≤◌};
ghost use Rattle.idl_macro.specs.conditions.Operator.{rank, highest_rank, operation, decided, application, sign_application};

use crate::conditions::arithmetic::{divide, remain, shift_left, shift_right, truth};

/// An operator between two operands.
#[derive(Clone, Copy)]
pub enum Operator {
    /// `*`
    Multiply,
    /// `/`, which cuts towards zero
    Divide,
    /// `%`, which has the sign of the left operand
    Remainder,
    /// `+`
    Add,
    /// `-`
    Subtract,
    /// `<<`
    ShiftLeft,
    /// `>>`
    ShiftRight,
    /// `<`
    Less,
    /// `<=`
    LessOrEqual,
    /// `>`
    Greater,
    /// `>=`
    GreaterOrEqual,
    /// `==`
    Equal,
    /// `!=`
    NotEqual,
    /// `&`
    BitAnd,
    /// `^`
    BitXor,
    /// `|`
    BitOr,
    /// `&&`
    And,
    /// `||`
    Or,
}

/// An operator before its operand.
#[derive(Clone, Copy)]
pub enum Sign {
    /// `!`
    Not,
    /// `~`
    Complement,
    /// `-`
    Minus,
    /// `+`
    Plus,
}

impl Operator {
    /// How strongly the operator binds its operands, from 1 on.
    pub(crate) fn rank(self) -> u8
        ensures rank { result ≡ rank self }
        ensures lowest { 1 ≤ result }
        ensures highest { result ≤ highest_rank }
    {
        match self {
            Operator::Or => 1,
            Operator::And => 2,
            Operator::BitOr => 3,
            Operator::BitXor => 4,
            Operator::BitAnd => 5,
            Operator::Equal | Operator::NotEqual => 6,
            Operator::Less | Operator::LessOrEqual | Operator::Greater | Operator::GreaterOrEqual =>
                7,
            Operator::ShiftLeft | Operator::ShiftRight => 8,
            Operator::Add | Operator::Subtract => 9,
            Operator::Multiply | Operator::Divide | Operator::Remainder => 10,
        }
    }

    /// The value at two operands of which either may be faulty: a faulty right one counts only where it is needed.
    pub(crate) fn apply(self, left: Option<i64>, right: Option<i64>) -> Option<i64>
        ensures { result ≡ application self left right }
    {
        let a = left?;
        match right {
            Some(b) => self.operate(a, b),
            None => self.decided(a),
        }
    }

    // The value at two numbers.
    fn operate(self, a: i64, b: i64) -> Option<i64>
        ensures { result ≡ operation self a b }
    {
        match self {
            Operator::Multiply => a.checked_mul(b),
            Operator::Divide => divide(a, b),
            Operator::Remainder => remain(a, b),
            Operator::Add => a.checked_add(b),
            Operator::Subtract => a.checked_sub(b),
            Operator::ShiftLeft => shift_left(a, b),
            Operator::ShiftRight => shift_right(a, b),
            Operator::Less => truth(a < b),
            Operator::LessOrEqual => truth(a <= b),
            Operator::Greater => truth(a > b),
            Operator::GreaterOrEqual => truth(a >= b),
            Operator::Equal => truth(a == b),
            Operator::NotEqual => truth(a != b),
            Operator::BitAnd => Some(a & b),
            Operator::BitXor => Some(a ^ b),
            Operator::BitOr => Some(a | b),
            Operator::And => truth(a != 0 && b != 0),
            Operator::Or => truth(a != 0 || b != 0),
        }
    }

    // The value, where the left operand alone decides it.
    fn decided(self, a: i64) -> Option<i64>
        ensures { result ≡ decided self a }
    {
        match self {
            Operator::And if a == 0 => Some(0),
            Operator::Or if a != 0 => Some(1),
            _ => None,
        }
    }
}

impl Sign {
    /// The value at an operand that may be faulty.
    pub(crate) fn apply(self, operand: Option<i64>) -> Option<i64>
        ensures { result ≡ sign_application self operand }
    {
        let a = operand?;
        match self {
            Sign::Not => truth(a == 0),
            Sign::Complement => Some(!a),
            Sign::Minus => a.checked_neg(),
            Sign::Plus => Some(a),
        }
    }
}
