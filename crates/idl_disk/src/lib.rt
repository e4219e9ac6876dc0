//! Files of the disk, and standard input and output, as the loader and the devices of the programs.
//!
//! What the disk and a terminal hold no clause says. What is read of a file is what a reader of known bytes would give.
#![tactic(auto)]

mod arguments;
mod disk;
mod reading;
mod standard;

pub use arguments::{exit_code_of, texts, words};
pub use disk::Disk;
pub use reading::read_file;
pub use standard::{StandardInput, StandardOutput};
