//! The units of a root, and what may not stand in one: the events of a root are cut into openings, closings and
//! declarations, with pragmas, file boundaries and the end between them.
//!
//! A unit is a range of a text that is shared, apart from the places of its tokens, which it names by number. Nothing here
//! knows trees or names, or which scopes are open.
#![tactic(auto)]

mod cut;
mod ending;
mod fault;
mod laws;
mod role;
mod scoping;
mod site_run;
mod token_rules;
mod unit;

pub use cut::split;
pub use ending::first_unit;
pub use fault::Fault;
pub use idl_event::idl_text;
pub use laws::{nothing_lost, one_cut};
pub use role::{Role, Rule, role_of, rule_of};
pub use scoping::opening_brace;
pub use site_run::SiteRun;
pub use token_rules::token_fault;
pub use unit::{Unit, UnitText, Units};
