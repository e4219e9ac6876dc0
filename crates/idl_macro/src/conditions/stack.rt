//! What waits for an operand or a parenthesis while a condition is read from the left.

use crate::conditions::operator::{Operator, Sign};

/// What waits for the operand after it.
#[derive(Clone, Copy)]
pub enum Waiting {
    /// An operator, with the value of the operand before it.
    Infix(Option<i64>, Operator),
    /// An operator before its operand.
    Prefix(Sign),
    /// A parenthesis that was opened.
    Parenthesis,
}
