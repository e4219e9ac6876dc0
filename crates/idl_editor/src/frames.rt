//! Messages in a stream of bytes: a head of fields, an empty line, and a body of as many bytes as the head announces.
//!
//! Nothing here knows what a body says, or where its bytes come from.

mod fault;
mod head;
mod laws;
mod reader;
mod writer;

pub use fault::ReadFault;
pub use laws::{bodies_of_an_input, heads, read_back};
pub use reader::{Reader, Received};
pub use writer::message_of;

/// Bytes that a head has at most.
pub const MAX_HEAD: usize = 4096;

/// Fields that a head has at most.
pub const MAX_FIELDS: usize = 16;

/// Bytes that a body has at most: 64 MB.
pub const MAX_BODY: usize = 67_108_864;
