//! Keys that are lent.
//!
//! A question is lent, not made: a look-up copies no name, and a log alone makes the key.

ghost use Rattle.std.specs.Prelude.{◌≡◌, IfOk};

use crate::digest::Digest;
use std::alloc::AllocError;

/// What stands for a key, so that the key can be looked for and isn't made.
pub trait Lent<K: Digest> {
    /// The key for which it stands.
    ghost key: { Self → K };

    /// The digest of the key. It takes no memory.
    fn key_digest(&self) -> u64
        ensures { result ≡ K.digest_of (key self.now) };

    /// Whether it stands for this key. It takes no memory.
    fn is(&self, other: &K) -> bool
        ensures { result ≡ K.eq (key self.now) other.now };

    /// The key.
    fn owned(&self) -> Result<K, AllocError>
        ensures { IfOk result (λ owned. owned ≡ key self.now) };
}
