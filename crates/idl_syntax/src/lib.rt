//! Readers of OMG IDL units: the tree that tokens begin with, or where they stop being the beginning of one.
//!
//! A reader takes the tokens that are left, and gives a tree with the tokens behind it. Lists are read
//! in loops. What may stand in itself (parentheses, sequences, structs and unions) is read by functions
//! that call one another, as deep as the unit nests, in so many levels at most as they are told. So a definition's
//! equations are the code's own. The rules of tokens don't count here.
//!
//! Trees are handed back by value, and each copy has a place in the frame. So first operands, structs and unions are
//! behind pointers as soon as they are read, and what holds much while nothing inside is read is never inlined. A level
//! takes a quarter to two fifths of the stack that it would.
#![tactic(auto)]

mod cursor;
mod declarations;
mod expression;
mod fault;
mod literal;
mod name;
mod operator;
pub mod pragma;
mod production;
pub mod unit;
mod version;

pub use fault::ReadingFault;
