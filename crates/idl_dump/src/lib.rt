//! The row of a unit in the dump.
//!
//! Nothing here knows how a unit was judged: what its names denote and its expressions come to is handed in.
#![tactic(auto)]

mod part;
mod row;

pub use row::{RowSource, write_row};
