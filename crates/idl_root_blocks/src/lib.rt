//! The blocks of a root: what their texts are, where their tasks stand, what they come to, and which tasks are met at an edit; how
//! they are found among the units, and what they ask; and what the verdicts of their units ask.
//!
//! `Pieces` are a root's text cut into loose parts and blocks; `Places` says where tasks of pieces stand, `Met` which
//! are met.
//!
//! In `verdicts/`: a verdict asks what is looked at behind its facts (`asking`), so `idl_block::facts` speaks of its
//! units (`enough`), and places that agree on what a block asked give the same (`alike`). Of `proofs/VerdictLaws/` read
//! `Orders` (of questions) first, `Visits` (what a unit adds), `Stacks` (open scopes) and `Stops` (scopes that may stop
//! a use).
#![tactic(auto)]

mod block_text;
mod blocks;
mod equality;
mod finding;
mod held;
mod logs;
mod met;
mod open;
mod pieces;
mod task;
mod text;
pub mod verdicts;

pub use block_text::{BlockText, ENCLOSED, PLAIN};
pub use blocks::{resulting, standing, taking};
pub use finding::{block_at, blocks_in, texts_in};
pub use idl_check_laws;
pub use idl_check_laws::{idl_check, idl_parse};
pub use idl_unit;
pub use logs::{logging, noting_on};
pub use met::{containing, meeting, repeating};
pub use open::OpenBlocks;
pub use pieces::cutting;
pub use task::{BlockTask, KeptBlock};
pub use text::{BlockPart, text_of};
