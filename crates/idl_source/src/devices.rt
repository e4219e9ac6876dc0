//! Devices that give and take bytes.

pub(crate) mod device;
pub(crate) mod memory;

pub use device::{ReadFailed, Sink, Source, WriteFailed, write_all};
pub use memory::{BufferSink, SliceSource};
