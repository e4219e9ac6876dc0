//! Marks: the bits of a number, of which one after another is taken.

ghost use Rattle.std.specs.Prelude.{◌≡◌, ◌≢◌, ◌<◌, ℕ};
ghost use Rattle.std.specs.Int.{bit_at};

/// The lowest mark.
#[inline]
pub fn lowest(marks: u64) -> usize
    requires { marks ≢ 0 }
    ensures bound { result < 64 }
    ensures set { bit_at marks result ≡ 1 }
{
    marks.trailing_zeros() as usize
}

/// The marks without one of them.
#[inline]
pub fn without(marks: u64, mark: usize) -> u64
    requires bound { mark < 64 }
    requires set { bit_at marks mark ≡ 1 }
    ensures smaller { result < marks }
    ensures kept { (k : ℕ) → k < 64 → k ≢ mark → bit_at result k ≡ bit_at marks k }
{
    marks & !(1 << mark)
}
