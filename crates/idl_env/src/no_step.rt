//! Steps of the logs of a plain environment: there are none.

use crate::answering::answer::Answer;
use crate::keys::digested::DigestedKey;
use idl_base::Datum;
use idl_memo::{Digests, LentBank, Step};
use std::alloc::{AllocError, Global};

/// No step: each key that is asked stands in a log by itself.
#[derive(Clone, PartialEq, Eq, Drop)]
pub struct NoStep {}

impl Datum for NoStep {
    ghost use Rattle.std.specs.Prelude.{refl};

    ghost same = { λ x y h. refl };

    ghost copy = { λ x y h. refl };
}

impl Step<DigestedKey, Answer, ()> for NoStep {
    ghost use Rattle.std.specs.Prelude.{[]};

    ghost logged = { λ head step. [] };

    fn width(_head: &()) -> Option<usize> {
        Some(0)
    }

    fn append_to(
        &self,
        _alloc: Global,
        _head: &(),
        _entries: &mut Vec<(DigestedKey, Option<Answer>)>,
    ) -> Result<(), AllocError> {
        Ok(())
    }

    fn head(
        _alloc: Global,
        _entries: &[(DigestedKey, Option<Answer>)],
    ) -> Result<Option<()>, AllocError> {
        Ok(None)
    }

    fn first(
        _head: &(),
        _entries: &[(DigestedKey, Option<Answer>)],
    ) -> Result<Option<NoStep>, AllocError> {
        Ok(None)
    }

    fn is_first(&self, _head: &(), _entries: &[(DigestedKey, Option<Answer>)]) -> bool {
        false
    }

    fn is_told(&self) -> bool {
        false
    }

    fn mark(&self) -> u64 {
        0
    }

    fn first_mark(_head: &(), _entries: &[(DigestedKey, Option<Answer>)]) -> Option<u64> {
        None
    }

    fn first_other<'a, B: LentBank<Key = DigestedKey, Answer = Answer, Head = (), Step = NoStep>>(
        &'a self,
        _alloc: Global,
        _head: &(),
        _bank: &'a B,
    ) -> Option<(Option<&'a Answer>, Option<&'a Answer>)> {
        None
    }

    fn has(&self, _alloc: Global, _head: &(), _key: &DigestedKey) -> bool {
        false
    }

    fn shares<D: Digests>(&self, _alloc: Global, _head: &(), _digests: &D) -> bool {
        false
    }
}
