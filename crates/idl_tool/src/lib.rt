//! The work of the second program, for people, builds and programs: what is found in files, what rows mean, what files stand on, what changes
//! from one version of a file to another, and all that is told of files as JSON.
//!
//! Nothing here opens a disk or a terminal: a caller hands in the words, where files come from, and where the answers go.
#![tactic(auto)]

mod check;
mod commands;
mod deps;
mod diff;
mod explain;
mod failure;
mod faults;
mod json;
mod laws;
pub mod make_rules;
mod once;
mod program;
mod report;
mod request;
mod there;
mod versions;

pub use idl_driver;
pub use laws::{findings_are_told_once, rules_tell_what_is_asked, sound_changes_speak};
pub use program::run_tool;
