//! Sources: files, macros and a search list, and what a root compiles to over them.
//!
//! Who compiles each root once needs no session: of a root nothing is kept here. Names, words and lines come from a caller, and rows are
//! given to one. Nothing here knows of devices.
#![tactic(auto)]

mod compile;
mod detailed;
mod related;
mod sources;

pub use compile::{CompiledRoot, end_of};
pub use idl_related;
pub use idl_root;
pub use idl_root::{
    Compiled, DeclaredPlace, DetailedEntry, Details, Finding, PlacedName, Row, SitedToken, UsedName,
};
pub use related::related_over;
pub use sources::Sources;
