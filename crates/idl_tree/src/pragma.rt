//! Pragmas.

use crate::name::ScopedName;
use idl_base::Seq;

/// A pragma that is a unit. A text is the numbers of its characters.
pub enum Pragma {
    /// `prefix` and a text.
    Prefix(Seq<u16>),
    /// `ID`, a name and a text.
    Id(ScopedName, Seq<u16>),
    /// `version`, a name and the two numbers of the version.
    Version(ScopedName, u16, u16),
}

impl Drop for Pragma {
    fn drop(self) {
        match self {
            Pragma::Prefix(_a) => {}
            Pragma::Id(_a, _b) => {}
            Pragma::Version(_a, _b, _c) => {}
        }
    }
}
