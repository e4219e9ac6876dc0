//! What the expansion of a root is told in: names of files, places, codes, events, the questions that a root asks and their
//! answers, and how far a root has come under its limits.
//!
//! Nothing here knows how a file is read, what a directive does, or what a unit is.
//!
//! `Expansion` is tokens (`Runs`, shared with chunks), where they stand (`Sites`) and the other events; each event has
//! a number. `Progress` is how far one has come: once an item is past a limit one E19 stands in its place, and nothing
//! changes any more.
#![tactic(auto)]

mod asked;
mod told;

pub use asked::key::{RootAnswer, RootKey};
pub use asked::lexed_file::LexedFile;
pub use asked::lexed_line::LexedLine;
pub use asked::root_bank::RootBank;
pub use idl_text;
pub use told::allowance::{Allowance, MAX_TOKENS, MAX_TURNS};
pub use told::builder::ExpansionBuilder;
pub use told::event::{Event, Item};
pub use told::event_view::EventView;
pub use told::expansion::{Events, Expansion};
pub use told::progress::Progress;
pub use told::runs::TokenRuns;
pub use told::site::Site;
pub use told::sites::Sites;
