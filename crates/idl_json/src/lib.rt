//! Rows, what is found, and changes, as JSON.
//!
//! Nothing here knows where rows come from, or where JSON goes.
#![tactic(auto)]

mod change;
mod diagnostic;
mod laws;
mod listed;
mod objects;
mod root;
mod rows;
mod text;
mod type_codes;
mod types;

pub use change::{ChangeTold, change_line};
pub use diagnostic::{Diagnostic, SecondPlace};
pub use laws::nothing_is_lost;
pub use listed::{ListedRow, NamePlace};
pub use root::{RootTold, root_line};
