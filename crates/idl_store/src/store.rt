//! The results of a kind of task, as the roots of a project have them.
//!
//! What an edit makes stands in drafts from the start, so that the next place and root find it. Accepted, each takes
//! the place of its list by moves alone; refused, all are dropped by one call. Who obtains a result keeps it.
//! `put` looks its result up by its own log.
//!
//! Which bank is asked matters to few: all else is done by a `Shelf`, of results whatever they are.

ghost use Rattle.std.specs.Prelude.{◌≡◌, ◌<◌, ◌∷◌, [], All, Any, IfNone, IfOk, IfSome, IsFalse, IsTrue, OnErr, OnOk, Option, Some, length, slice_get};
ghost use Rattle.std.specs.Option.{option_copied, option_map, option_to_list};
ghost use Rattle.idl_memo.specs.Kept.{IsSound, NoneAlikeAt, result_over};
ghost use Rattle.idl_memo.specs.Meter.{count_of, most_compared};
ghost use Rattle.idl_store.specs.Obtained.{IsObtained};
ghost use Rattle.idl_store.specs.Spots.{result_on, results_from};
ghost use Rattle.idl_store.specs.Stored.{begun, committed, discarded, grown, last_draft, list_at, nothing_stored, removed, result_at, results_in};

use crate::index::bucket_of;
use crate::look_up::take_alike;
use crate::numbers::Spot;
use crate::ranked::{Held, Place, Ranked, Test};
use crate::shelf::Shelf;
use idl_memo::{Bank, Kept, LentBank, Log, Meter, PlainBank, Runnable, Runs, Task, keep};
use std::alloc::{AllocError, Global};
use std::marker::Model;
use std::rc::Rc;

// So many steps more than there are results are known to logs.
const SPARE_STEPS: usize = 1024;

/// What stands beside the results of a store.
pub trait Beside: Drop {
    /// Gives back what is of no use beside so many results. It is refused no memory.
    fn forget(&mut self, alloc: Global, results: usize);
}

/// What tasks of one bank need while they run.
pub struct Running<B: Bank> {
    // What a task asks.
    log: Log<B>,
    // What logs share.
    runs: Runs<B>,
}

impl<B: Bank> Drop for Running<B> {
    fn drop(self) {
        let Running {
            log: _log,
            runs: _runs,
        } = self;
    }
}

impl<B: Bank> Running<B> {
    /// No task has run. It takes no memory.
    pub fn new(alloc: Global) -> Running<B> {
        Running {
            log: Log::new(alloc),
            runs: Runs::new(alloc),
        }
    }
}

impl<B: Bank> Beside for Running<B> {
    fn forget(&mut self, alloc: Global, results: usize) {
        self.runs.forget_beyond(results.saturating_mul(8));
        self.log = Log::new(alloc);
    }
}

/// Lists of kept results, one for each root, and the drafts of those that an edit makes.
///
/// To every contract it is these lists. A result is kept once, under a number, as long as a list or a draft has it, and a
/// look-up finds it as long: so nothing that was run and is held is run again, and nothing else is held.
pub struct Store<R: Ranked, W: Beside> {
    shelf: Shelf<R>,
    beside: W,
}

impl<R: Ranked, W: Beside> Model for Store<R, W> {
    ghost use Rattle.idl_store.specs.Stored.{Stored};

    ghost Value = { Stored R };

    ghost view = { λ store. store.shelf.stored };
}

impl<R: Ranked, W: Beside> Drop for Store<R, W> {
    fn drop(self) {
        let Store {
            shelf: _shelf,
            beside: _beside,
        } = self;
    }
}

impl<R: Ranked, W: Beside> Store<R, W> {
    /// The store without lists. It takes no memory.
    pub fn new(alloc: Global, beside: W) -> Store<R, W>
        ensures { result ≡ nothing_stored }
    {
        Store {
            shelf: Shelf::new(alloc),
            beside,
        }
    }

    /// How many results a list has. One that isn't there has none.
    pub fn results(&self, list: usize) -> usize
        ensures { result ≡ length (list_at self.now.lists list) }
    {
        self.shelf.results(list)
    }

    /// Whether one result stands at both spots. It is kept once, so no texts or answers are compared.
    pub fn is_one(&self, spot: Spot, other: Spot) -> bool
        ensures { IsTrue result → result_on self.now spot ≡ result_on self.now other }
    {
        self.shelf.is_one(spot, other)
    }

    /// Begins a draft, without results, of a list: of one that is there, or else of a new last one.
    ///
    /// Want of memory leaves the store as it was.
    pub fn begin(&mut self, at: usize) -> Result<(), AllocError>
        ensures ok { OnOk result (self.new ≡ begun self.old at) }
        ensures err { OnErr result (self.new ≡ self.old) }
    {
        self.shelf.begin(at)
    }

    /// How many results the last draft has; none where there is no draft.
    pub fn drafted(&self) -> usize
        ensures { result ≡ length (last_draft self.now) }
    {
        self.shelf.drafted()
    }

    /// So many results from a spot on, or as many as there are, go into the last draft too.
    ///
    /// Want of memory leaves the store as it was.
    pub fn take_part(&mut self, from: Spot, count: usize) -> Result<(), AllocError>
        ensures ok { OnOk result (self.new ≡ grown self.old (results_from self.old from count)) }
        ensures err { OnErr result (self.new ≡ self.old) }
    {
        self.shelf.take_part(from, count)
    }

    /// Each draft takes the place of its list, or is a new last one. It is refused no memory, and gives back what is no longer needed.
    pub fn commit(&mut self)
        ensures { self.new ≡ committed self.old }
    {
        self.shelf.commit();
        self.give_back();
    }

    /// No draft is left. It takes no memory.
    pub fn discard(&mut self)
        ensures { self.new ≡ discarded self.old }
    {
        self.shelf.discard();
    }

    /// Takes a list out; those behind it move up. It is refused no memory, and gives back what is no longer needed.
    pub fn remove(&mut self, list: usize)
        ensures { self.new ≡ removed self.old list }
    {
        self.shelf.remove(list);
        self.give_back();
    }

    // Gives back memory, where the results take an eighth of it or less. They stay.
    fn give_back(&mut self)
        ensures { self.new ≡ self.old }
    {
        self.shelf.give_back();
        let alloc = self.shelf.alloc();
        self.beside.forget(alloc, self.shelf.count());
    }
}

impl<B: Bank, T: Task<B>, W: Beside> Store<Held<B, T>, W>
where
    B::Answer: Ord,
    T::Text: Ord,
{
    /// The result at a place of a list, or nothing where there is none.
    pub fn get(&self, list: usize, place: usize) -> Option<&Kept<B, T::Text, T::Out>>
        ensures { option_copied result ≡ result_at self.now list place }
    {
        let spot = Spot {
            is_draft: false,
            list,
            place,
        };
        match self.shelf.at(spot) {
            Some(held) => Some(held.shared()),
            None => None,
        }
    }

    /// The result at a spot, or nothing where there is none.
    pub fn at(&self, spot: Spot) -> Option<&Rc<Kept<B, T::Text, T::Out>>>
        ensures { option_map (λ r. r.now.value) result ≡ result_on self.now spot }
    {
        match self.shelf.at(spot) {
            Some(held) => Some(held.shared()),
            None => None,
        }
    }

    /// Whether a result passes a test that is found by this hint and a text that is hashed as this one. It takes no memory.
    pub fn has_beside<Q: Test<Held<B, T>>>(&self, text: &T::Text, hint: u64, test: &Q) -> bool
        ensures some { IsTrue result
            → Any (λ kept. IsTrue (Q.passes test.now kept)) (results_in self.now) }
        ensures none { IsFalse result → All (λ kept.
            T.Text.hash_input kept.text ≡ T.Text.hash_input text.now
            → T.hint_of kept.text (slice_get kept.log 0) ≡ hint
            → IsFalse (Q.passes test.now kept)) (results_in self.now) }
    {
        self.shelf.has_passing(bucket_of(text, hint), test)
    }

    /// The result at a place of a list, which goes into the last draft too. Nothing goes anywhere where there is no such result, or no
    /// draft.
    ///
    /// Want of memory leaves the store as it was.
    pub fn take_again(
        &mut self,
        list: usize,
        place: usize,
    ) -> Result<Option<Rc<Kept<B, T::Text, T::Out>>>, AllocError>
        ensures found { IfOk result (λ found.
            option_map (λ r. r.value) found ≡ result_at self.old list place) }
        ensures ok { OnOk result
            (self.new ≡ grown self.old (option_to_list (result_at self.old list place))) }
        ensures err { OnErr result (self.new ≡ self.old) }
    {
        match self.shelf.take_again(list, place)? {
            Some(held) => Ok(Some(held.into_shared())),
            None => Ok(None),
        }
    }
}

impl<B: LentBank, T: Task<B>, W: Beside> Store<Held<B, T>, W>
where
    B::Answer: Ord,
    T::Text: Ord,
{
    /// A spot at which a result stands that is alike to the task over this bank, or nothing where none is. It takes no memory.
    pub fn alike<'a>(&'a self, task: &'a T, bank: &'a B) -> Option<Spot>
        ensures found { IfSome result (λ spot. result_on self.now spot
            ≡ Some (result_over B.Key.eq T.query (T.text_of task.now, B.at bank.now))) }
        ensures none { IfNone result
            (NoneAlikeAt (T.text_of task.now, B.at bank.now) (results_in self.now)) }
    {
        let bucket = bucket_of(task.text(), task.hint(bank));
        self.shelf.spot(bucket, &Place { task, bank })
    }
}

impl<B: LentBank, T: Runnable<B>> Store<Held<B, T>, Running<B>>
where
    B::Answer: Ord,
    T::Text: Ord,
{
    /// The result of the task over this bank: a kept one that is alike, whose keys are compared, or what a run gives. It goes into the
    /// last draft; where there is none, it is kept nowhere.
    ///
    /// Want of memory leaves the store as it was. Nothing is said of the meter then.
    pub fn obtain(
        &mut self,
        task: &T,
        bank: &B,
        scratch: &mut T::Scratch,
        meter: &mut Meter,
    ) -> Result<Rc<Kept<B, T::Text, T::Out>>, AllocError>
        requires room { count_of T.KIND meter.old < most_compared }
        ensures result { IfOk result (λ found. found.value
            ≡ result_over B.Key.eq T.query (T.text_of task.now, B.at bank.now)) }
        ensures ok { OnOk result (self.new ≡ grown self.old
            (result_over B.Key.eq T.query (T.text_of task.now, B.at bank.now) ∷ [])) }
        ensures meter { OnOk result (IsObtained (T.text_of task.now, B.at bank.now)
            (result_over B.Key.eq T.query (T.text_of task.now, B.at bank.now)) T.KIND
            (results_in self.old) meter.old meter.new) }
        ensures err { OnErr result (self.new ≡ self.old) }
    {
        let gap = match take_alike(&mut self.shelf, task, bank)? {
            Ok(found) => {
                let shared = found.into_shared();
                meter.compare(shared.log().len());
                return Ok(shared);
            }
            Err(gap) => gap,
        };
        let alloc = self.shelf.alloc();
        let steps = self.shelf.count().saturating_add(SPARE_STEPS);
        self.beside.runs.forget_beyond(steps);
        let kept = run_in(
            &mut self.beside.log,
            &mut self.beside.runs,
            task,
            bank,
            scratch,
            alloc,
        )?;
        meter.raise(T::KIND);
        let held = self.shelf.put(Held::<B, T>::of(kept), gap)?;
        Ok(held.into_shared())
    }
}

impl<B: PlainBank, T: Task<B>, W: Beside> Store<Held<B, T>, W>
where
    B::Answer: Ord,
    T::Text: Ord,
{
    /// A result that a task gives, with the task's hint where it gives it, goes into the last draft. One that is there already is kept
    /// once.
    ///
    /// Want of memory leaves the store as it was.
    pub fn put(&mut self, kept: Rc<Kept<B, T::Text, T::Out>>, hint: u64) -> Result<(), AllocError>
        requires sound { IsSound B.Key.eq T.query kept.value }
        requires hint { hint ≡ T.hint_of kept.value.text (slice_get kept.value.log 0) }
        ensures ok { OnOk result (self.new ≡ grown self.old (kept.value ∷ [])) }
        ensures err { OnErr result (self.new ≡ self.old) }
    {
        let bucket = bucket_of(kept.text(), hint);
        self.shelf.put_once(Held::<B, T>::of(kept), bucket)
    }
}

// What a run of the task gives over this bank. What it asks goes through a log in which it leaves nothing of use.
fn run_in<B: Bank, T: Runnable<B>>(
    log: &mut Log<B>,
    runs: &mut Runs<B>,
    task: &T,
    bank: &B,
    scratch: &mut T::Scratch,
    alloc: Global,
) -> Result<Rc<Kept<B, T::Text, T::Out>>, AllocError>
    ensures { IfOk result (λ kept. kept.value
        ≡ result_over B.Key.eq T.query (T.text_of task.now, B.at bank.now)) }
{
    log.clear(alloc);
    let out = task.run(alloc, bank, scratch, log)?;
    let entries = log.kept_in_parts(alloc, runs)?;
    keep(alloc, task.text(), entries, out)
}
