//! Rules of make: which names they can have in them, and how they are written, so that make reads them as they are.
//!
//! What the rules are about is a caller's.

mod laws;
mod make;

pub use laws::rules_read_back;
pub use make::{is_make_name, push_need, push_need_if_there, push_target};
