//! Why a run stops before its input ends.

ghost use Rattle.std.specs.Prelude.{◌≡◌};
ghost use Rattle.idl_loader.specs.declared.stop.Stop.TheVariants as stop;

use idl_source::devices::{ReadFailed, WriteFailed};
use thiserror::Error;

/// Why a run stops before its input ends: a device failed in it.
#[derive(Clone, Copy, Debug, Error, PartialEq, Eq)]
pub enum Stop {
    /// A read failed. The commands that were wholly read have been served, and the unfinished one has had no effect.
    #[error("read failed")]
    ReadFailed,
    /// A write failed. The command whose reply it was of has been served, and none after it.
    #[error("write failed")]
    WriteFailed,
}

impl From<ReadFailed> for Stop {
    ghost from_gives = { λ _ why. why ≡ stop.ReadFailed };

    fn from(_failed: ReadFailed) -> Stop {
        Stop::ReadFailed
    }
}

impl From<WriteFailed> for Stop {
    ghost from_gives = { λ _ why. why ≡ stop.WriteFailed };

    fn from(_failed: WriteFailed) -> Stop {
        Stop::WriteFailed
    }
}
