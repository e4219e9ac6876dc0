//! What is asked, as a table: the keys of a name, an id, a unit and an entry, and the laws that those who ask ask these and no others.
//!
//! What is kept and what work is counted hangs on which keys are asked, never on their order. Nothing here runs.
//!
//! It stands apart since none of the code stands on it.
#![tactic(auto)]

mod block_laws;
mod laws;

pub use block_laws::{blocks, blocks_of_roots};
pub use laws::{alike, entries, ids, names, units};
