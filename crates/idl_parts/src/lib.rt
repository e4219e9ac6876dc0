//! The sites of a unit: the names that it declares and uses, and its expressions, in the order of its tokens.
//!
//! What a unit declares, which names it may use where, and how its row in the dump reads is said by
//! going over this list. Nothing here knows what a name denotes.
#![tactic(auto)]

mod construction;
mod data_type;
mod expression;
mod interface;
mod laws;
mod listed;
mod part;
mod unit;

pub use laws::{counting, spelling};
pub use part::{Declaration, Purpose, Shape, TextPurpose, UnitPart, Use};
pub use unit::sites;
