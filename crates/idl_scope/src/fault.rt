//! Why a name denotes nothing.

ghost use Rattle.std.specs.Prelude.{◌≡◌};
ghost use Rattle.idl_scope.specs.declared.fault.NameFault.TheVariants as faults;

use std::alloc::{AllocError, AllocFailed};

/// What is wrong at a part of a name.
#[derive(Clone, Copy, PartialEq, Eq, Debug)]
pub enum NameCode {
    /// No scope has the name: E30.
    Undeclared,
    /// Several entities are reached through the bases: E31.
    Ambiguous,
    /// The name is declared with another spelling: E32.
    OtherSpelling,
    /// A part follows, and this one is no scope: E38.
    NoScope,
}

/// Why a name denotes nothing.
#[derive(Clone, Copy, PartialEq, Eq, Debug)]
pub enum NameFault {
    /// There is no more memory.
    Memory,
    /// The fault, and the number of the name's part at which it stands, from 0.
    At(NameCode, usize),
}

impl From<AllocError> for NameFault {
    ghost from_gives = { λ _ why. why ≡ faults.Memory };

    fn from(_refused: AllocError) -> NameFault {
        NameFault::Memory
    }
}

impl<T: Drop> From<AllocFailed<T>> for NameFault {
    ghost from_gives = { λ _ why. why ≡ faults.Memory };

    fn from(_refused: AllocFailed<T>) -> NameFault {
        NameFault::Memory
    }
}
