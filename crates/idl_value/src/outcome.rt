//! What an expression comes to.

use crate::value::Value;

/// Why a part of an expression has no value.
#[derive(Clone, Copy)]
pub enum ValueCode {
    /// An operand or a value of another kind than the target.
    WrongKind,
    OutOfRange,
    DivisionByZero,
    BadShift,
    /// A bound that is 0.
    NotPositive,
}

/// A fault in an expression.
#[derive(Clone, Copy)]
pub struct ValueFault {
    /// The number of the token at which it is decided, among the expression's own, from 0 on.
    pub token: usize,
    pub code: ValueCode,
}

/// What an expression comes to.
pub enum Outcome {
    Value(Value),
    /// It has no value, and this fault is the first.
    Fault(ValueFault),
    /// It has no value, and all its faults are those of names.
    Told,
}

impl Drop for Outcome {
    fn drop(self) {
        match self {
            Outcome::Value(_value) => {}
            Outcome::Fault(_fault) => {}
            Outcome::Told => {}
        }
    }
}
