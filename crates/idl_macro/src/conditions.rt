//! The value of a preprocessor's condition: of the line behind `if` or `elif`, once `defined X` was read and macros were
//! replaced.
//!
//! A condition is a list of symbols, and a symbol follows from a token's spelling. Nothing here knows macros or lines.

mod arithmetic;
mod condition;
mod mark;
mod number;
mod operator;
mod stack;
mod symbol;

pub use condition::{evaluate, grammar};
pub use operator::Operator;
pub use symbol::ConditionSymbol;
