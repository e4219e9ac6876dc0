//! Files that are to be entered.

ghost use Rattle.std.specs.Prelude.{◌≡◌};

use idl_event::LexedFile;
use idl_fault::{FileName, Place};

/// A file that is to be entered: the place of the directive, the file's name, and the file.
pub struct Inclusion<'b> {
    pub place: Place,
    pub name: FileName,
    pub file: &'b LexedFile,
}

impl<'b> Drop for Inclusion<'b> {
    fn drop(self) {
        let Inclusion {
            place: _place,
            name: _name,
            file: _file,
        } = self;
    }
}

impl<'b> Inclusion<'b> {
    /// The place of the directive.
    pub fn into_place(self) -> Place
        ensures { result ≡ self.entry.place }
    {
        let Inclusion {
            place,
            name: _name,
            file: _file,
        } = self;
        place
    }
}
