//! Diagnostics: codes, the places that they are of, and the row that tells one.
//!
//! Nothing here decides which code is right, or where a place comes from.
//!
//! It stands apart from `idl_event`, so that who judges names needs nothing of how a root is expanded.
#![tactic(auto)]

mod code;
mod diagnostic;
mod file_name;
mod place;

pub use code::Code;
pub use diagnostic::diagnostic_row;
pub use file_name::FileName;
pub use place::Place;
