//! Banks of answers, the tasks that ask them, the logs of what was asked, and the results that are kept with them.
//!
//! A task's result follows from its text and from the answers to the keys that it asks, and its log tells which those
//! were: where they are what they were, the result is what it was. Nothing here knows what a key or an answer is about.
#![tactic(auto)]

mod asked;
mod bank;
mod dated;
mod journal;
mod keeping;
mod kept_log;
mod lent_parts;
mod log;
mod log_entries;
mod meter;
mod parted;
pub mod query;
mod run;
mod runs;
mod step;
mod steps;
mod task;
mod told;

pub use asked::Asked;
pub use bank::{Bank, LentBank, PlainBank};
pub use dated::{Dated, LogPage, Page};
pub use idl_map;
pub use journal::Journal;
pub use keeping::anew::run_anew;
pub use keeping::edited::Edited;
pub use keeping::fresh::{freshness, one_bank, sharing};
pub use keeping::kept::{Kept, keep};
pub use keeping::passes::passing;
pub use keeping::places::placement;
pub use kept_log::{KeptLog, other_at};
pub use log::Log;
pub use log_entries::LogEntries;
pub use meter::Meter;
pub use runs::Runs;
pub use step::{Digests, Step};
pub use task::{Runnable, Task, TaskKind, reliance};
