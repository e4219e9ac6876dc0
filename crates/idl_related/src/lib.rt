//! Second places of what is found in a root: where what a finding speaks of is declared, used or given, or what may have been meant.
//!
//! The units of the root are judged for it once more (`judged.rt`), and nothing is kept. Nothing here knows how a place is shown.
//!
//! `Known` tells which unit declares, uses or would have declared what (`known.rt`). Of a faulty unit the walk goes on
//! a site at a time up to the one with the fault (`UnitWalk`), and `about.rt` asks there what the walk asked:
//! `denoting.rt` (a used name), `repeated.rt` (what the unit has already), `given.rt` (ids), `near.rt` (names that
//! aren't declared). Of a redeclaration `first_declared.rt` tells where the name is declared first.
#![tactic(auto)]

mod about;
mod denoting;
mod first_declared;
mod given;
mod judged;
mod known;
mod names;
mod near;
mod related;
mod repeated;
mod second;
mod told;

pub use related::{related_of, unrelated};
pub use second::{Reason, Related, follows};
