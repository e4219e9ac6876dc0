//! The parser of OMG IDL units: the tree of a unit, or its fault, with the place where the unit stops
//! being the beginning of one; and what a pragma says.
//!
//! The rules of tokens come first, so what nests more than 64 levels is refused. Of the rest the readers of `idl_syntax`
//! make trees, and are allowed 65 levels. The laws of reading speak of readers with more levels than tokens; that both
//! read alike, where no bracket is too deep, is the law `nesting`.
#![tactic(auto)]

mod fault;
mod parse;

pub use fault::SyntaxFault;
pub use parse::{parse_pragma, parse_tokens};
