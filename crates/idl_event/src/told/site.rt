//! Where tokens of the text stand.

ghost use Rattle.std.specs.Prelude.{◌≡◌, IfOk};
ghost use Rattle.idl_event.specs.Apart.{place_in};

use idl_fault::{FileName, Place};
use std::alloc::AllocError;

/// Where a token stands: its file, its line there, and the number of its event.
#[derive(Drop)]
pub struct Site {
    pub file: FileName,
    pub line: u32,
    pub event: usize,
}

impl Site {
    /// The place: file and line.
    pub fn place(&self) -> Result<Place, AllocError>
        ensures { IfOk result (λ place. place ≡ place_in self.now) }
    {
        Ok(Place {
            file: self.file.clone()?,
            line: self.line,
        })
    }
}
