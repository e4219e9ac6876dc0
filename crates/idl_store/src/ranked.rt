//! Results that are kept: each once for all that have it, in a bucket, and in an order by which it is found.

ghost use Rattle.std.specs.Cmp.{IsTotalOrder};
ghost use Rattle.std.specs.Cmp.Lexicographic.{options_total};
ghost use Rattle.std.specs.Option.{option_cmp};
ghost use Rattle.std.specs.Prelude.{◌≡◌, ℕ, Bool, IfOk};
ghost use Rattle.std.specs.declared.cmp.Ordering.{Ordering as Standing};
ghost use Rattle.idl_memo.specs.Kept.{IsSound};
ghost use Rattle.idl_store.specs.Buckets.{bucket_of};
ghost use Rattle.idl_store.specs.Order.{place_cmp, results_cmp, results_total};

use crate::order::{order_at, order_of};
use idl_memo::{Bank, Kept, LentBank, PlainBank, Task};
use std::alloc::AllocError;
use std::cmp::Ordering;
use std::marker::Model;
use std::rc::Rc;

/// What a store keeps: it belongs into a bucket, as by a hash, and has an order among others of its kind, by which it is found there.
pub trait Ranked: Drop {
    /// How one stands to another.
    ghost rank: { Self → Self → Standing };

    /// Whether one came about as it should.
    ghost is_sound: { Self → Type 0 };

    /// The number of the bucket that one belongs into.
    ghost bucket: { Self → ℕ };

    /// The same once more, which shares its memory.
    fn again(&self) -> Result<Self, AllocError>
        ensures { IfOk result (λ same. same ≡ self.now) };

    /// They stand in one order.
    ghost ranked: { IsTotalOrder rank };
}

/// A search key: what is looked for among some that are ranked, by how each of them stands to it.
pub(crate) trait Probe<R> {
    /// How one of those stands to what is looked for.
    ghost stand: { Self → R → Standing };

    /// How one of those stands to what is looked for. It takes no memory.
    fn stand(&self, one: &R) -> Ordering
        ensures { result ≡ stand self.now one.now };
}

/// A test of results.
pub trait Test<R> {
    /// Whether one passes.
    ghost passes: { Self → R → Bool };

    /// Whether one passes. It takes no memory.
    fn passes(&self, one: &R) -> bool
        ensures { result ≡ passes self.now one.now };
}

/// A kept result of a kind of task, which is shared. To every contract it is the result itself.
pub struct Held<B: Bank, T: Task<B>> {
    shared: Rc<Kept<B, T::Text, T::Out>>,
}

impl<B: Bank, T: Task<B>> Model for Held<B, T> {
    ghost use Rattle.std.specs.Prelude.{Option};
    ghost use Rattle.idl_memo.specs.Kept.{Kept as Seen};

    ghost Value = { Seen B.Key (Option B.Answer) T.Text T.Out };

    ghost view = { λ held. held.shared.value };
}

impl<B: Bank, T: Task<B>> Drop for Held<B, T> {
    fn drop(self) {
        let Held { shared: _shared } = self;
    }
}

impl<B: Bank, T: Task<B>> Held<B, T> {
    // A result that is shared, and is held from now on.
    pub(crate) fn of(shared: Rc<Kept<B, T::Text, T::Out>>) -> Held<B, T>
        ensures { result ≡ shared.value }
    {
        Held { shared }
    }

    /// The result as it is shared.
    pub fn shared(&self) -> &Rc<Kept<B, T::Text, T::Out>>
        ensures { result.now.value ≡ self.now }
    {
        &self.shared
    }

    // The same, which is held no more.
    pub(crate) fn into_shared(self) -> Rc<Kept<B, T::Text, T::Out>>
        ensures { result.value ≡ self }
    {
        let Held { shared } = self;
        shared
    }
}

impl<B: Bank, T: Task<B>> Ranked for Held<B, T>
where
    B::Answer: Ord,
    T::Text: Ord,
{
    ghost rank = { results_cmp T.Text.cmp (option_cmp B.Answer.cmp) };

    ghost is_sound = { IsSound B.Key.eq T.query };

    ghost bucket = { bucket_of T.Text.hash_input T.hint_of };

    ghost ranked = { results_total T.Text.total (options_total B.Answer.total) };

    fn again(&self) -> Result<Held<B, T>, AllocError> {
        let shared = self.shared.clone()?;
        Ok(Held { shared })
    }
}

/// A place: a task, and a bank.
pub(crate) struct Place<'a, B, T> {
    pub(crate) task: &'a T,
    pub(crate) bank: &'a B,
}

impl<'a, B, T> Drop for Place<'a, B, T> {
    fn drop(self) {
        let Place {
            task: _task,
            bank: _bank,
        } = self;
    }
}

impl<'a, B: LentBank, T: Task<B>> Probe<Held<B, T>> for Place<'a, B, T>
where
    B::Answer: Ord,
    T::Text: Ord,
{
    ghost stand = { λ place one. place_cmp T.Text.cmp (option_cmp B.Answer.cmp) one
        (T.text_of place.task.now) (B.at place.bank.now) };

    fn stand(&self, one: &Held<B, T>) -> Ordering {
        order_at(one.shared(), self.task.text(), self.bank)
    }
}

impl<B: PlainBank, T: Task<B>> Probe<Held<B, T>> for Held<B, T>
where
    B::Answer: Ord,
    T::Text: Ord,
{
    ghost stand = { λ held one. results_cmp T.Text.cmp (option_cmp B.Answer.cmp) one held };

    fn stand(&self, one: &Held<B, T>) -> Ordering {
        order_of(one.shared(), self.shared())
    }
}
