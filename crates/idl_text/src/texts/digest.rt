//! Digests of words.

ghost use Rattle.std.specs.Prelude.{◌≡◌};
ghost use Rattle.idl_text.specs.Digest.{digest_of, of_ends};

use idl_base::{mixed, with_bytes};

/// A digest of a word, by each of its bytes; most words have no more than those at their ends.
#[inline]
pub fn digest_of(word: &[u8]) -> u64
    ensures { result ≡ digest_of word.now }
{
    if 17 <= word.len() {
        return with_bytes(0, word);
    }
    if 8 <= word.len() {
        let first = u64::from_le_bytes(*word.first_chunk::<8>().unwrap());
        let last = u64::from_le_bytes(*word.last_chunk::<8>().unwrap());
        return of_ends(first, last);
    }
    if 4 <= word.len() {
        let first = u32::from_le_bytes(*word.first_chunk::<4>().unwrap());
        let last = u32::from_le_bytes(*word.last_chunk::<4>().unwrap());
        return of_ends(u64::from(first), u64::from(last));
    }
    with_bytes(0, word)
}

// The digest of a word whose first bytes and last ones are these numbers.
fn of_ends(first: u64, last: u64) -> u64
    ensures { result ≡ of_ends first last }
{
    mixed(mixed(0, first), last)
}
