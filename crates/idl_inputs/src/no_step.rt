//! Logs of roots have no steps.

use idl_base::Datum;
use idl_event::{RootAnswer, RootKey};
use idl_memo::{Digests, LentBank, Step};
use std::alloc::{AllocError, Global};

/// What stands in the log of a root for several entries: nothing, since each stands by itself.
#[derive(Clone, PartialEq, Eq, Drop)]
pub struct Stepless {}

impl Datum for Stepless {
    ghost use Rattle.std.specs.Prelude.{refl};

    ghost same = { λ x y h. refl };

    ghost copy = { λ x y h. refl };
}

impl Step<RootKey, RootAnswer, ()> for Stepless {
    ghost use Rattle.std.specs.Prelude.{[]};

    ghost logged = { λ head step. [] };

    fn width(_head: &()) -> Option<usize> {
        Some(0)
    }

    fn append_to(
        &self,
        _alloc: Global,
        _head: &(),
        _entries: &mut Vec<(RootKey, Option<RootAnswer>)>,
    ) -> Result<(), AllocError> {
        Ok(())
    }

    fn head(
        _alloc: Global,
        _entries: &[(RootKey, Option<RootAnswer>)],
    ) -> Result<Option<()>, AllocError> {
        Ok(None)
    }

    fn first(
        _head: &(),
        _entries: &[(RootKey, Option<RootAnswer>)],
    ) -> Result<Option<Stepless>, AllocError> {
        Ok(None)
    }

    fn is_first(&self, _head: &(), _entries: &[(RootKey, Option<RootAnswer>)]) -> bool {
        false
    }

    fn is_told(&self) -> bool {
        false
    }

    fn mark(&self) -> u64 {
        0
    }

    fn first_mark(_head: &(), _entries: &[(RootKey, Option<RootAnswer>)]) -> Option<u64> {
        None
    }

    fn first_other<'a, B: LentBank<Key = RootKey, Answer = RootAnswer, Head = (), Step = Stepless>>(
        &'a self,
        _alloc: Global,
        _head: &(),
        _bank: &'a B,
    ) -> Option<(Option<&'a RootAnswer>, Option<&'a RootAnswer>)> {
        None
    }

    fn has(&self, _alloc: Global, _head: &(), _key: &RootKey) -> bool {
        false
    }

    fn shares<D: Digests>(&self, _alloc: Global, _head: &(), _digests: &D) -> bool {
        false
    }
}
