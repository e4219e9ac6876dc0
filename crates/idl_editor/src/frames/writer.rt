//! Messages as they are written.

ghost use Rattle.std.specs.Prelude.{◌≡◌, IfOk};
ghost use Rattle.idl_editor.specs.frames.Written.{message_of};

use itoa::Buffer;
use std::alloc::{AllocError, Global};

/// The message of this body, ready to be written in one piece.
pub fn message_of(alloc: Global, body: &[u8]) -> Result<Vec<u8>, AllocError>
    ensures { IfOk result (λ message. message.items ≡ message_of body.now) }
{
    let mut digits = Buffer::new();
    let mut message = Vec::from_slice(alloc, b"Content-Length: ")?;
    message.extend_from_slice(digits.format(body.len()).as_bytes())?;
    message.extend_from_slice(b"\r\n\r\n")?;
    message.extend_from_slice(body)?;
    Ok(message)
}
