//! What no clause says of exact data: that a copy hashes as its source does.

use idl_base::{Datum, Seq, Text};
use std::alloc::{AllocError, Global};
use std::hash::{FoldHasher, Hash, Hasher};
use std::test::Fail;

fn digest<T: Hash>(value: &T) -> u64 {
    let mut hasher = FoldHasher::default();
    value.hash(&mut hasher);
    hasher.finish()
}

// Whether a copy is equal to its source, and hashes as it does.
fn is_copied_alike<T: Datum + Hash>(value: &T) -> Result<bool, AllocError> {
    let copy = value.clone()?;
    Ok(copy == *value && digest(&copy) == digest(value))
}

#[test]
fn data_is_copied_alike(rt: HostRuntime) -> Result<(), Fail> {
    assert!(rt; is_copied_alike(&(((), true), ('ß', i64::MIN)))?);
    let mut items = Vec::new(rt.alloc());
    items.push((7u8, Some(Text::from_slice(rt.alloc(), b"Foo")?)))?;
    assert!(rt; is_copied_alike(&Seq::from_vec(items))?);
    Ok(())
}
