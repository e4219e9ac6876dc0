//! Results in lists and drafts, whatever they are.
//!
//! A part of a list is taken whole or not at all: whether each use can be counted is asked of all its results before
//! one is. A spot is searched for in the drafts, the last one first, and then in the lists.

ghost use Rattle.std.specs.Prelude.{◌≡◌, ◌∷◌, [], All, Any, Contains, IfErr, IfNone, IfOk, IfSome, IsFalse, IsTrue, OnErr, OnOk, Some, length};
ghost use Rattle.std.specs.Option.{option_copied, option_to_list};
ghost use Rattle.std.specs.declared.cmp.Ordering.TheVariants.{Equal};
ghost use Rattle.idl_store.specs.Index.{IsGapAmong};
ghost use Rattle.idl_store.specs.Shelved.{IsSought};
ghost use Rattle.idl_store.specs.Spots.{result_on, results_from};
ghost use Rattle.idl_store.specs.Stored.{begun, committed, discarded, grown, last_draft, list_at, nothing_stored, removed, result_at, results_in};

use crate::index::{Gap, Index, has_passing};
use crate::numbers::{
    Draft, Spot, Used, exchange, number_at, number_on, numbers_from, shrink_lists, spot_of,
};
use crate::ranked::{Probe, Ranked, Test};
use crate::uses::{put, release, release_drafts, shrink_slab, use_again, use_all_again};
use slab::Slab;
use std::alloc::{AllocError, Global};
use std::marker::Model;

/// Where a store keeps results: lists, the drafts of those that an edit makes, and an index that finds them. It knows no bank.
///
/// To every contract it is these lists, and what finds results: who looks for one learns where it would go, and may put it there.
/// A result is kept once, under a number, as long as a list or a draft has it, and a look-up finds it as long.
pub(crate) struct Shelf<R: Ranked> {
    used: Slab<Used<R>>,
    index: Index<R>,
    lists: Vec<Vec<usize>>,
    drafts: Vec<Draft>,
}

impl<R: Ranked> Model for Shelf<R> {
    ghost use Rattle.std.specs.Prelude.{◌+◌, ◌≤◌, vec_capacity, vec_len};
    ghost use Rattle.idl_store.specs.Numbers.{IsStored, numbers_of, result_of, shown};
    ghost use Rattle.idl_store.specs.Shelved.{Shelved};

    ghost Value = { Shelved R };

    ghost view = { λ shelf. record {
      stored = shown (result_of shelf.used) (numbers_of shelf.lists.items shelf.drafts.items);
      index = shelf.index;
    } };

    ghost invariant = { λ shelf.
        IsStored R.is_sound R.bucket shelf.used shelf.index
        (numbers_of shelf.lists.items shelf.drafts.items)
        × (vec_len shelf.lists + vec_len shelf.drafts ≤ vec_capacity shelf.lists) };
}

impl<R: Ranked> Drop for Shelf<R> {
    fn drop(self) {
        let Shelf {
            used: _used,
            index: _index,
            lists: _lists,
            drafts: _drafts,
        } = self;
    }
}

impl<R: Ranked> Shelf<R> {
    // No lists. It takes no memory.
    pub(crate) fn new(alloc: Global) -> Shelf<R>
        ensures { result.stored ≡ nothing_stored }
    {
        Shelf {
            used: Slab::new(alloc),
            index: Index::new(alloc),
            lists: Vec::new(alloc),
            drafts: Vec::new(alloc),
        }
    }

    // Where memory is taken.
    pub(crate) fn alloc(&self) -> Global {
        *self.lists.allocator()
    }

    // How many results are kept.
    pub(crate) fn count(&self) -> usize {
        self.used.len()
    }

    // How many results a list has. One that isn't there has none.
    pub(crate) fn results(&self, list: usize) -> usize
        ensures { result ≡ length (list_at self.now.stored.lists list) }
    {
        match self.lists.get(list) {
            Some(numbers) => numbers.len(),
            None => 0,
        }
    }

    // The result at a spot, or nothing where there is none.
    pub(crate) fn at(&self, spot: Spot) -> Option<&R>
        ensures { option_copied result ≡ result_on self.now.stored spot }
    {
        match number_on(&self.lists, &self.drafts, spot) {
            Some(number) => Some(&self.used[number].result),
            None => None,
        }
    }

    // Whether one result stands at both spots. It is kept once, so none are compared.
    pub(crate) fn is_one(&self, spot: Spot, other: Spot) -> bool
        ensures { IsTrue result → result_on self.now.stored spot ≡ result_on self.now.stored other }
    {
        let Some(number) = number_on(&self.lists, &self.drafts, spot) else {
            return false;
        };
        let Some(other) = number_on(&self.lists, &self.drafts, other) else {
            return false;
        };
        number == other
    }

    // A spot at which a result of this bucket stands that a probe looks for, or nothing where none does. It takes no memory.
    pub(crate) fn spot<P: Probe<R>>(&self, bucket: u64, probe: &P) -> Option<Spot>
        ensures found { IfSome result (λ spot. (one : R)
            × (result_on self.now.stored spot ≡ Some one)
            × R.is_sound one
            × (P.stand probe.now one ≡ Equal)) }
        ensures none { (one : R) → IsSought R.is_sound R.rank (P.stand probe.now) one
            → IfNone result (All (λ other. R.is_sound other
            × (R.bucket other ≡ bucket → ¬ (P.stand probe.now other ≡ Equal)))
            (results_in self.now.stored)) }
    {
        match self.index.find(bucket, probe) {
            Ok(number) => spot_of(&self.lists, &self.drafts, number, self.used[number].place),
            Err(_gap) => None,
        }
    }

    // Whether a result of this bucket passes a test. It takes no memory.
    pub(crate) fn has_passing<Q: Test<R>>(&self, bucket: u64, test: &Q) -> bool
        ensures some { IsTrue result
            → Any (λ one. IsTrue (Q.passes test.now one)) (results_in self.now.stored) }
        ensures none { IsFalse result
            → All (λ one. R.bucket one ≡ bucket → IsFalse (Q.passes test.now one))
            (results_in self.now.stored) }
    {
        has_passing(self.index.bucket(bucket), test)
    }

    // Begins a draft, without results, of a list: of one that is there, or else of a new last one.
    //
    // Want of memory leaves lists and drafts as they were.
    pub(crate) fn begin(&mut self, at: usize) -> Result<(), AllocError>
        ensures ok { OnOk result (self.new.stored ≡ begun self.old.stored at) }
        ensures err { OnErr result (self.new.stored ≡ self.old.stored) }
    {
        let numbers = Vec::new(*self.lists.allocator());
        self.lists.reserve(self.drafts.len() + 1)?;
        self.drafts.push(Draft { at, numbers })?;
        Ok(())
    }

    // How many results the last draft has; none where there is no draft.
    pub(crate) fn drafted(&self) -> usize
        ensures { result ≡ length (last_draft self.now.stored) }
    {
        match self.drafts.last() {
            Some(draft) => draft.numbers.len(),
            None => 0,
        }
    }

    // The result at a place of a list, which goes into the last draft too. Nothing goes anywhere where there is no such result, or no
    // draft.
    //
    // Want of memory leaves lists and drafts as they were.
    pub(crate) fn take_again(&mut self, list: usize, place: usize) -> Result<Option<R>, AllocError>
        ensures found { IfOk result (λ found. found ≡ result_at self.old.stored list place) }
        ensures ok { OnOk result (self.new.stored
            ≡ grown self.old.stored (option_to_list (result_at self.old.stored list place))) }
        ensures err { OnErr result (self.new.stored ≡ self.old.stored) }
    {
        match number_at(&self.lists, list, place) {
            Some(number) => Ok(Some(use_again(&mut self.used, &mut self.drafts, number)?)),
            None => Ok(None),
        }
    }

    // So many results from a spot on, or as many as there are, go into the last draft too.
    //
    // Want of memory leaves lists and drafts as they were.
    pub(crate) fn take_part(&mut self, from: Spot, count: usize) -> Result<(), AllocError>
        ensures ok { OnOk result
            (self.new.stored ≡ grown self.old.stored (results_from self.old.stored from count)) }
        ensures err { OnErr result (self.new.stored ≡ self.old.stored) }
    {
        let part = numbers_from(&self.lists, &self.drafts, from, count);
        let numbers = Vec::from_slice(*self.lists.allocator(), part)?;
        use_all_again(&mut self.used, &mut self.drafts, &numbers)
    }

    // A result of this bucket that a probe looks for goes into the last draft too. Where there is none, this is the gap where it would
    // go, and nothing goes anywhere.
    //
    // Want of memory leaves lists and drafts as they were.
    pub(crate) fn take<P: Probe<R>>(
        &mut self,
        bucket: u64,
        probe: &P,
    ) -> Result<Result<R, Gap>, AllocError>
        ensures found { IfOk result (λ found. IfOk found (λ one.
            Contains (results_in self.old.stored) one
            × R.is_sound one
            × (P.stand probe.now one ≡ Equal)
            × (self.new.stored ≡ grown self.old.stored (one ∷ [])))) }
        ensures none { (one : R) → IsSought R.is_sound R.rank (P.stand probe.now) one
            → IfOk result (λ found. OnErr found (All (λ other. R.is_sound other
            × (R.bucket other ≡ bucket → ¬ (P.stand probe.now other ≡ Equal)))
            (results_in self.old.stored))) }
        ensures gap { (one : R) → IsSought R.is_sound R.rank (P.stand probe.now) one
            → IfOk result (λ found.
            IfErr found (IsGapAmong (λ other. R.rank other one) self.new.index)) }
        ensures bucket { IfOk result (λ found. IfErr found (λ gap. gap.bucket ≡ bucket)) }
        ensures same { IfOk result (λ found. OnErr found (self.new ≡ self.old)) }
        ensures err { OnErr result (self.new.stored ≡ self.old.stored) }
    {
        match self.index.find(bucket, probe) {
            Ok(number) => Ok(Ok(use_again(&mut self.used, &mut self.drafts, number)?)),
            Err(gap) => Ok(Err(gap)),
        }
    }

    // A result goes into the last draft, and into the gap that was found for it; where there is no draft, it goes nowhere. This is it.
    //
    // Want of memory leaves lists and drafts as they were.
    pub(crate) fn put(&mut self, kept: R, gap: Gap) -> Result<R, AllocError>
        requires sound { R.is_sound kept }
        requires bucket { gap.bucket ≡ R.bucket kept }
        requires gap { IsGapAmong (λ other. R.rank other kept) self.old.index gap }
        ensures result { IfOk result (λ same. same ≡ kept) }
        ensures ok { OnOk result (self.new.stored ≡ grown self.old.stored (kept ∷ [])) }
        ensures err { OnErr result (self.new.stored ≡ self.old.stored) }
    {
        if self.drafts.is_empty() {
            return Ok(kept);
        }
        let again = kept.again()?;
        put(&mut self.used, &mut self.index, &mut self.drafts, kept, gap)?;
        Ok(again)
    }

    // Each draft takes the place of its list, or is a new last one. It takes no memory.
    pub(crate) fn commit(&mut self)
        ensures { self.new.stored ≡ committed self.old.stored }
    {
        exchange(&mut self.lists, &mut self.drafts);
        release_drafts(&mut self.used, &mut self.index, &mut self.drafts);
    }

    // No draft is left. It takes no memory.
    pub(crate) fn discard(&mut self)
        ensures { self.new.stored ≡ discarded self.old.stored }
    {
        release_drafts(&mut self.used, &mut self.index, &mut self.drafts);
    }

    // Takes a list out; those behind it move up. It takes no memory.
    pub(crate) fn remove(&mut self, list: usize)
        ensures { self.new.stored ≡ removed self.old.stored list }
    {
        if list < self.lists.len() {
            let numbers = self.lists.remove(list);
            release(&mut self.used, &mut self.index, &numbers);
        }
    }

    // Gives back memory, where the results take an eighth of it or less. They stay.
    pub(crate) fn give_back(&mut self)
        ensures { self.new.stored ≡ self.old.stored }
    {
        shrink_lists(&mut self.lists, &mut self.drafts);
        shrink_slab(&mut self.used);
        self.index.shrink();
    }
}

impl<R: Ranked + Probe<R>> Shelf<R> {
    // A result of this bucket goes into the last draft. One that is there already is kept once.
    //
    // Want of memory leaves lists and drafts as they were.
    pub(crate) fn put_once(&mut self, kept: R, bucket: u64) -> Result<(), AllocError>
        requires sound { R.is_sound kept }
        requires bucket { bucket ≡ R.bucket kept }
        requires sought { IsSought R.is_sound R.rank (R.stand kept) kept }
        requires same { (other : R) → R.is_sound other → R.stand kept other ≡ Equal → other ≡ kept }
        ensures ok { OnOk result (self.new.stored ≡ grown self.old.stored (kept ∷ [])) }
        ensures err { OnErr result (self.new.stored ≡ self.old.stored) }
    {
        let found = self.take(bucket, &kept)?;
        if let Err(gap) = found {
            self.put(kept, gap)?;
        }
        Ok(())
    }
}
