//! Marks of digests, by which most of what isn't among something is told at once.

ghost use Rattle.std.specs.Prelude.{◌≡◌, ◌<◌, ◌^◌, ℕ, false, true};
ghost use Rattle.idl_map.specs.Marks.{bit_of, is_marked, word_of};

use std::marker::Model;

/// Marks of digests: `N` words of 64 bits, among which a digest's first 10 bits choose one. More than 16 words are of no use.
///
/// Whatever was marked is found marked. Digests share bits, so that others are found marked too; that few are is promised
/// by no clause. To every contract marks are their words.
#[derive(Drop)]
pub struct Marks<const N: usize> {
    words: [u64; N],
}

impl<const N: usize> Model for Marks<N> {
    ghost use Rattle.std.specs.Prelude.{◌<◌, ℕ, List};

    ghost Value = { List ℕ };

    ghost view = { λ marks. marks.words };

    ghost invariant = { λ marks. 0 < N };
}

impl<const N: usize> Marks<N> {
    /// No digest is marked.
    #[tactic(auto, unfolding(crate::specs::Marks::is_marked))]
    pub fn new() -> Marks<N>
        requires { 0 < N }
        ensures { (digest : ℕ) → is_marked result digest ≡ false }
    {
        Marks { words: [0; N] }
    }

    /// Whether a digest is marked.
    #[inline]
    #[tactic(auto, unfolding(crate::specs::Marks::is_marked))]
    pub fn has(&self, digest: u64) -> bool
        ensures { result ≡ is_marked self.now digest }
    {
        let words = self.words.as_slice();
        words[word_of(words.len(), digest)] & mask_of(digest) != 0
    }

    /// Marks a digest.
    #[inline]
    pub fn mark(&mut self, digest: u64)
        ensures marked { is_marked self.new digest ≡ true }
        ensures kept { (other : ℕ) → is_marked self.old other ≡ true
            → is_marked self.new other ≡ true }
    {
        let words = self.words.as_mut_slice();
        let place = word_of(words.len(), digest);
        words[place] |= mask_of(digest);
    }
}

// The place of a digest's word among so many.
#[inline]
fn word_of(count: usize, digest: u64) -> usize
    requires { 0 < count }
    ensures place { result ≡ word_of count digest }
    ensures within { result < count }
{
    (digest >> 60) as usize % count
}

// The bit of a digest, alone in a word.
#[inline]
fn mask_of(digest: u64) -> u64
    ensures { result ≡ 2 ^ bit_of digest }
{
    1 << ((digest >> 54) % 64)
}
