//! Places in the files of a root.

use crate::file_name::FileName;

/// A line of a file, from 1 on; line 0 is that of an absent root, and of a file that is entered or left.
#[derive(Clone, Drop)]
pub struct Place {
    pub file: FileName,
    pub line: u32,
}
