//! Names, lines and files as they are handed in, and the devices that bytes come from and go to.
//!
//! Nothing here reads a disk: a file is a list of lines that a caller handed in.
#![tactic(auto)]

pub mod devices;
mod names;
mod refusal;
mod texts;

pub use devices::device::{Sink, Source};
pub use idl_base;
pub use names::directory::Directory;
pub use names::name::Name;
pub use names::parts::first_part;
pub use names::path;
pub use names::path::join;
pub use names::span::Span;
pub use refusal::Refusal;
pub use texts::cutting::cut;
pub use texts::file::File;
pub use texts::files::Files;
pub use texts::line::{Line, NEWLINE};
pub use texts::lines::Lines;

/// Bytes that a name has at most.
pub const MAX_NAME: usize = 255;

/// Files at most.
pub const MAX_FILES: usize = 4096;

/// Lines that a file has at most.
pub const MAX_LINES: usize = 200_000;

/// Bytes that a line of a file has at most.
pub const MAX_LINE: usize = 4096;
