//! Names that are shared.

ghost use Rattle.std.specs.Prelude.{◌≡◌, IfOk};

use idl_base::Bytes;
use std::alloc::{AllocError, Global};

/// A name, from now on shared.
pub fn shared_name(alloc: Global, name: &[u8]) -> Result<Bytes, AllocError>
    ensures { IfOk result (λ shared. shared ≡ name.now) }
{
    Bytes::from_slice(alloc, name)
}
