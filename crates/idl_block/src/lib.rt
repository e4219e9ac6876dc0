//! Blocks: units that are taken as one query, and the facts that they write.
//!
//! Each unit stands behind what the block wrote before it, so that the block asks outside only what it has not written
//! itself. Nothing here knows what a unit is, and nothing here runs.
//!
//! `outer_asked` are the keys that units ask and that the block hasn't written before: its log. Laws have their
//! premises as definitions over what is asked on the way (`AreKnown`, `AreOver`, `AreNested`).
//!
//! In `facts/` stands what is answered behind facts (`answered`), which comes to what they leave (`answering`),
//! wherever they stand (`lying`). Where each unit asks enough (`AskEnough`) a block asks its outer keys alone
//! (`knowing`), and two places that agree on these agree (`agreeing`).
#![tactic(auto)]

mod behind;
mod block;
pub mod facts;
mod nested;

pub use behind::layering;
pub use block::{BlockWays, blocks};
pub use nested::nesting;
