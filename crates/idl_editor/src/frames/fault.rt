//! Why a message could not be read.

ghost use Rattle.std.specs.Prelude.{◌≡◌};
ghost use Rattle.idl_editor.specs.declared.frames.fault.ReadFault.TheVariants as fault;

use idl_source::devices::ReadFailed;
use std::alloc::AllocError;
use thiserror::Error;

/// Why a message could not be read. No byte is lost: what was read stays, and the read may be tried again.
#[derive(Clone, Copy, Debug, Drop, Error, PartialEq, Eq)]
pub enum ReadFault {
    /// The source failed.
    #[error("read failed")]
    ReadFailed,
    /// There was no memory for the bytes.
    #[error("no memory")]
    NoMemory,
}

impl From<ReadFailed> for ReadFault {
    ghost from_gives = { λ _ why. why ≡ fault.ReadFailed };

    fn from(_failed: ReadFailed) -> ReadFault {
        ReadFault::ReadFailed
    }
}

impl From<AllocError> for ReadFault {
    ghost from_gives = { λ _ why. why ≡ fault.NoMemory };

    fn from(_refused: AllocError) -> ReadFault {
        ReadFault::NoMemory
    }
}
