//! The expansion of a root: the lines of its files, by their groups and directives, with the files that they include.
//!
//! A root asks a bank for files, macros and directories, and its events are the tokens of the text, files entered and left,
//! pragmas and faults. Nothing here knows IDL.
//!
//! The definition walks the tree of a file's lines (`specs/Walk.antt`). The code takes lines of text at once
//! (`pass.rt`), keeps open groups on a stack (`groups.rt`), jumps over branches (`jump.rt`), and calls itself for an
//! included file alone, at most 64 deep (`file.rt`). What carries the proof is `to_come` (`specs/Pass.antt`): where a
//! root comes to by what is still to be done, the same before and after each line. `Explorer` and `FileWalk` find files
//! before that.
#![tactic(auto)]

mod directives;
mod walk;

pub use directives::candidate::first_candidate;
pub use walk::explorer::{Explorer, FileWalk, OpenFile, Waypoint};
pub use walk::root_task::{RootTask, absent};

/// Files that may be open inside one another, the root's among them.
pub const MAX_DEPTH: usize = 64;
