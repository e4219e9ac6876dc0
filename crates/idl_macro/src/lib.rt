//! Macros of a root: their definitions, the directives that define and test them, the
//! replacement of words by their bodies, under the limits of a root, and the values of conditions.
//!
//! What happens is told item by item, and what isn't known in the root itself is asked of a bank.
//! Nothing here reads lines or opens files.
#![tactic(auto)]

mod conditional;
pub mod conditions;
mod definitions;
mod directive;
mod replacement;
mod word;

pub use conditional::condition;
pub use definitions::{Definitions, Macros};
pub use directive::{PlacedDirective, define, ifdef, ifndef, undef};
pub use replacement::{nesting, replace_operand, replace_text, replace_tokens};
pub use word::is_macro_word;
