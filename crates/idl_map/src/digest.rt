//! Keys that have a digest.

ghost use Rattle.std.specs.Prelude.{◌≡◌, ℕ};

use idl_base::{Bytes, Datum, with_bytes};

/// A key that has a digest: a number that spreads keys well. Equal keys have one digest.
pub trait Digest: Datum {
    /// The digest of a key.
    ghost digest_of: { Self → ℕ };

    /// The digest. It takes no memory.
    fn digest(&self) -> u64
        ensures { result ≡ digest_of self.now };
}

impl Digest for Bytes {
    ghost use Rattle.idl_base.specs.Digest.{with_bytes};

    ghost digest_of = { λ bytes. with_bytes 0 bytes };

    fn digest(&self) -> u64 {
        with_bytes(0, self.as_bytes())
    }
}
