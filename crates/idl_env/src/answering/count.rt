//! Counts.

ghost use Rattle.std.specs.Prelude.{◌≡◌, ◌+◌, ◌<◌, IfOk};

use std::alloc::AllocError;

/// Both counts together. A count that is larger than memory can hold things is want of it.
pub(crate) fn sum(count: usize, more: usize) -> Result<usize, AllocError>
    ensures sum { IfOk result (λ n. n ≡ count + more) }
    ensures room { IfOk result (λ n. count + more < 18446744073709551616) }
{
    match count.checked_add(more) {
        Some(sum) => Ok(sum),
        None => Err(AllocError),
    }
}

/// One more.
pub(crate) fn one_more(count: usize) -> Result<usize, AllocError>
    ensures more { IfOk result (λ n. n ≡ count + 1) }
    ensures room { IfOk result (λ n. count < 18446744073709551615) }
{
    sum(count, 1)
}
