//! Verdicts as units of blocks: what they ask of what is looked at behind their facts.
//!
//! Nothing here runs.

mod standing;
mod units;

pub use standing::{Verdicts, alike, enough, nested, walked};
pub use units::{asking, telling};
