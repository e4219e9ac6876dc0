//! What serves an editor.

ghost use Rattle.std.specs.Prelude.{◌≡◌, ◌<◌, ◌-◌, ◌^◌, OnOk};

use crate::loader::PathLoader;
use crate::status::Status;
use idl_source::devices::WriteFailed;
use idl_source::{Sink, Source};
use std::alloc::AllocError;

/// Why an editor is served no further.
#[derive(Clone, Copy, Debug, PartialEq, Eq)]
pub enum ServiceFault {
    /// There was no memory for a message.
    NoMemory,
    /// No further message can be read.
    ReadFailed,
    /// What is to be said can't be written.
    WriteFailed,
}

impl From<AllocError> for ServiceFault {
    fn from(_refused: AllocError) -> ServiceFault {
        ServiceFault::NoMemory
    }
}

impl From<WriteFailed> for ServiceFault {
    fn from(_failed: WriteFailed) -> ServiceFault {
        ServiceFault::WriteFailed
    }
}

/// What serves an editor over its streams, so that a program can offer it without standing on it.
pub trait Service {
    /// Serves an editor till it ends that, or its messages end.
    fn serve<L: PathLoader, S: Source, O: Sink>(
        &self,
        loader: &mut L,
        source: &mut S,
        output: &mut O,
    ) -> Result<Status, ServiceFault>
        requires reads { S.failures source.old < 2 ^ 64 - 1 }
        requires writes { O.failures output.old < 2 ^ 64 - 1 }
        ensures well { OnOk result (O.failures output.new ≡ O.failures output.old) };
}
