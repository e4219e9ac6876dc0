//! Digests of bytes: numbers by which something is found before it is compared.

ghost use Rattle.std.specs.Prelude.{◌≡◌};
ghost use Rattle.idl_base.specs.Digest.{mixed, with_bytes};

// The multiplier of Knuth's MMIX.
const MULTIPLIER: u64 = 6364136223846793005;

/// A digest with one number more.
#[tactic(auto, unfolding(crate::specs::Digest::mixed))]
pub fn mixed(digest: u64, number: u64) -> u64
    ensures { result ≡ mixed digest number }
{
    digest.wrapping_add(number).wrapping_mul(MULTIPLIER)
}

/// A digest with more bytes.
#[tactic(auto, unfolding(crate::specs::Digest::with_bytes))]
pub fn with_bytes(digest: u64, bytes: &[u8]) -> u64
    ensures { result ≡ with_bytes digest bytes.now }
{
    let mut whole = digest;
    for byte in bytes {
        whole = mixed(whole, u64::from(*byte));
    }
    whole
}
