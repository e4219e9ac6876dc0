//! Where results are kept: for each root a list of them, and the drafts of those that an edit makes.
//!
//! A result is kept once, however many places have it, and is found by its text and by what it was answered.
#![tactic(auto)]

mod index;
mod laws;
mod lists;
mod look_up;
mod numbers;
mod order;
mod ranked;
mod shelf;
mod store;
mod uses;

pub use laws::storing;
pub use lists::Lists;
pub use numbers::Spot;
pub use ranked::{Held, Ranked, Test};
pub use store::{Beside, Running, Store};
