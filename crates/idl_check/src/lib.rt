//! Declarations: the verdict of each unit of a root, which is its least fault, or what it adds to
//! the facts, and its row in the dump.
//!
//! A unit is walked over in the order of its tokens, each name is looked up by questions, and each
//! site has a table of what may be wrong there. Nothing here knows places, or how a value is
//! reckoned.
//!
//! `walk/` has the three steps (`judge.rt`) and the walk over names (`naming.rt`; of `typeid`, `typeprefix`:
//! `speaking.rt`), types, expressions and labels (`valuing.rt`); `tables/` what may be wrong with a declared name, a
//! used one, a base; `told/` what is known of the unit so far; `ids/` ids, and what pragmas, `typeid` and `typeprefix`
//! make of them. What most units have none of stands behind a pointer each, and what is written in is kept for the next
//! (`Scratch`).
#![tactic(auto)]

mod ids;
mod tables;
mod told;
mod walk;

pub use idl_parse;
pub use walk::names::{NameRole, NamedSite, names_of};
pub use walk::scratch::Scratch;
pub use walk::steps::UnitWalk;
pub use walk::task::{DeclarationTask, verdict_of};
pub use walk::verdict::Verdict;
