//! Limits that files and options pass.

use idl_inputs::MAX_BODY;
use idl_source::{Line, MAX_LINE, MAX_LINES};

/// A limit of what is compiled, where a word or a file passes it.
#[derive(Clone, Copy, Debug)]
pub enum Limit {
    /// Bytes of a line of a file.
    LineBytes,
    /// Lines of a file.
    Lines,
    /// Files.
    Files,
    /// Bytes of a macro's body.
    BodyBytes,
    /// Macros.
    Macros,
    /// Directories in which included files are searched.
    Directories,
    /// Roots.
    Roots,
}

impl Limit {
    // The one that a file of these lines passes, where it passes one.
    pub(crate) fn of_file(lines: &[Line]) -> Limit {
        if lines.len() > MAX_LINES {
            return Limit::Lines;
        }
        'lines: for line in lines {
            if line.len() > MAX_LINE {
                return Limit::LineBytes;
            }
        }
        Limit::Files
    }

    // The one that a macro of this body passes, where it passes one.
    pub(crate) fn of_macro(body: &[u8]) -> Limit {
        if body.len() > MAX_BODY {
            Limit::BodyBytes
        } else {
            Limit::Macros
        }
    }
}
