//! What is kept of the units and blocks of all roots.
#![tactic(auto)]

mod laws;
mod like;
mod parts;
mod texts;

pub use texts::{Blocks, Declarations, KeptDeclaration, KeptTexts};
