//! Why nothing was read.

ghost use Rattle.std.specs.Prelude.{◌≡◌};
ghost use Rattle.idl_syntax.specs.declared.fault.ReadingFault.TheVariants as fault;

use std::alloc::{AllocError, AllocFailed};

/// Why nothing was read.
#[derive(Clone, Copy)]
pub enum ReadingFault {
    /// There is no more memory.
    Memory,
    /// No tree begins here. So many tokens are left from the one on at which they stop being the
    /// beginning of one.
    NoTree(usize),
}

impl From<AllocError> for ReadingFault {
    ghost from_gives = { λ _ why. why ≡ fault.Memory };

    fn from(_refused: AllocError) -> ReadingFault {
        ReadingFault::Memory
    }
}

impl<T: Drop> From<AllocFailed<T>> for ReadingFault {
    ghost from_gives = { λ _ why. why ≡ fault.Memory };

    fn from(_refused: AllocFailed<T>) -> ReadingFault {
        ReadingFault::Memory
    }
}
