//! Parts of lists.

ghost use Rattle.std.specs.Prelude.{◌≡◌, drop, take};

/// The first items, so many at most.
pub fn front<T>(items: &[T], count: usize) -> &[T]
    ensures { result.now ≡ take count items.now }
{
    if count < items.len() {
        &items[..count]
    } else {
        items
    }
}

/// Those behind so many.
pub fn behind<T>(items: &[T], count: usize) -> &[T]
    ensures { result.now ≡ drop count items.now }
{
    if count < items.len() {
        &items[count..]
    } else {
        &[]
    }
}
