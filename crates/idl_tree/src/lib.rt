//! Trees of units: what the grammar of OMG IDL makes of tokens.
//!
//! A tree has no places and no memory of its own to a contract: its value is what was written. Nothing here reads tokens.
//!
//! A lexeme is what the grammar knows of a token. A reader is a definition from tokens to a tree and the rest, or where
//! it fails; laws are proved once for each way to put readers together (`proofs/Laws.antt`, `Many.antt`).
#![tactic(auto)]

pub mod declarations;
pub mod expression;
mod law;
mod literal;
mod name;
mod name_parts;
mod pragma;
mod several;
mod unit;

pub use expression::Expression;
pub use idl_lex;
pub use law::{nesting, one_spelling, reading};
pub use literal::Literal;
pub use name::ScopedName;
pub use name_parts::{last_at, name_length, part_at};
pub use pragma::Pragma;
pub use several::Several;
pub use unit::{Constant, ConstantTypeTree, Exception, Tree, Typedef, Typeid, Typeprefix};
