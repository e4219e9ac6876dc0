//! Runs: entries of a log that many steps stand for.
//!
//! The steps are a list whose end other logs share: of a chain of n bases all logs hold n steps together, and a further
//! member's walk is another run of the same steps. Runs are made where a log is kept, of its entries as they are. Known
//! ones (`Runs`) are compared step by step and trusted in nothing, so to contracts a log is the list of its entries. A
//! log of 32 entries or fewer has no run.
//!
//! A run that is told (`Log::tell`) is made of one step by whoever asks all that it stands for, and compared with
//! nothing. What takes much to compare isn't shared: an interface n deep has n operations, so its steps stand in a block,
//! sixteen bytes each. Answers are compared by content, so an edit under a long chain reads what its logs share to the
//! end.

ghost use Rattle.std.specs.Prelude.{◌≡◌, ◌++◌, ◌∷◌, [], All, IfOk, IfSome, IsFalse, List, None, OnOk, Option, flat_map, length, take};
ghost use Rattle.std.specs.Option.{option_copied, option_map};
ghost use Rattle.idl_memo.specs.Query.{is_logged};
ghost use Rattle.idl_memo.specs.Runs.{first_other};

use crate::bank::{Bank, LentBank, PlainBank};
use crate::step::{Digests, Step};
use crate::steps::{Behind, Steps};
use idl_map::{Digest, SharedList};
use std::alloc::{AllocError, Global};
use std::marker::Model;

/// Entries of a log that stand side by side: the first of some steps, and what these have in common. To every contract it is the
/// list of the entries.
pub(crate) struct Run<B: Bank> {
    head: B::Head,
    steps: Steps<B::Step>,
    // How many of the steps, and how many entries these stand for.
    count: usize,
    len: usize,
}

impl<B: Bank> Model for Run<B> {
    ghost use Rattle.std.specs.Prelude.{◌≡◌, List, Option, flat_map, length, take};

    ghost Value = { List (B.Key × Option B.Answer) };

    ghost view = { λ run. flat_map (B.Step.logged run.head) (take run.count run.steps) };

    ghost invariant = { λ run.
        run.len ≡ length (flat_map (B.Step.logged run.head) (take run.count run.steps)) };
}

impl<B: Bank> Drop for Run<B> {
    fn drop(self) {
        let Run {
            head: _head,
            steps: _steps,
            count: _count,
            len: _len,
        } = self;
    }
}

// The first so many of some steps that are lent.
#[derive(Drop)]
struct StepsLeft<'a, S> {
    steps: Behind<'a, S>,
    count: usize,
}

impl<'a, S> Model for StepsLeft<'a, S> {
    ghost use Rattle.std.specs.Prelude.{List, take};

    ghost Value = { List S };

    ghost view = { λ left. take left.count left.steps };
}

impl<'a, S> StepsLeft<'a, S> {
    // The first, and those behind it; nothing where there is none.
    fn split_first(self) -> Option<(&'a S, StepsLeft<'a, S>)>
        ensures some { IfSome result (λ p. self.entry ≡ p.0.now ∷ p.1) }
        ensures none { result ≡ None → self.entry ≡ [] }
    {
        let StepsLeft { steps, count } = self;
        if count == 0 {
            return None;
        }
        let (first, others) = steps.split_first()?;
        let left = StepsLeft {
            steps: others,
            count: count - 1,
        };
        Some((first, left))
    }
}

/// A part of a log: an entry, or a run of them.
#[derive(Drop)]
pub(crate) enum Part<K, A, R> {
    One(K, Option<A>),
    Many(R),
}

/// A part of a log of what is asked of a bank.
pub(crate) type LogPart<B> = Part<<B as Bank>::Key, <B as Bank>::Answer, Run<B>>;

impl<B: Bank> Run<B> {
    /// The run of so many of these steps, which stand for so many entries.
    pub(crate) fn new(head: B::Head, steps: Steps<B::Step>, count: usize, len: usize) -> Run<B>
        requires { len ≡ length (flat_map (B.Step.logged head) (take count steps)) }
        ensures { result ≡ flat_map (B.Step.logged head) (take count steps) }
    {
        Run {
            head,
            steps,
            count,
            len,
        }
    }

    /// The run of this step alone, which stands for so many entries.
    pub(crate) fn alone(
        alloc: Global,
        head: B::Head,
        step: B::Step,
        len: usize,
    ) -> Result<Run<B>, AllocError>
        requires { len ≡ length (B.Step.logged head step) }
        ensures { IfOk result (λ run. run ≡ B.Step.logged head step) }
    {
        let mut steps = SharedList::new();
        steps.push(alloc, step)?;
        Ok(Run::new(head, Steps::listed(steps), 1, len))
    }

    /// How many entries it has.
    pub(crate) fn len(&self) -> usize
        ensures { result ≡ length self.now }
    {
        self.len
    }

    /// The first of its answers that isn't the bank's, with the bank's.
    pub(crate) fn first_other<'a>(
        &'a self,
        alloc: Global,
        bank: &'a B,
    ) -> Option<(Option<&'a B::Answer>, Option<&'a B::Answer>)>
    where
        B: LentBank,
        ensures { option_map (λ p. (option_copied p.0, option_copied p.1)) result
            ≡ first_other B.Answer.eq (B.at bank.now) self.now }
    {
        let (head, steps) = self.lent();
        let mut left = steps;
        'steps: while let Some((step, others)) = left.split_first() {
            let other = step.first_other(alloc, head, bank);
            if other.is_some() {
                return other;
            }
            left = others;
        }
        None
    }

    /// Puts its entries behind others.
    pub(crate) fn append_to(
        &self,
        alloc: Global,
        entries: &mut Vec<(B::Key, Option<B::Answer>)>,
    ) -> Result<(), AllocError>
        ensures { OnOk result (entries.new.items ≡ entries.old.items ++ self.now) }
    {
        let (head, steps) = self.lent();
        let mut left = steps;
        'steps: while let Some((step, others)) = left.split_first() {
            step.append_to(alloc, head, entries)?;
            left = others;
        }
        Ok(())
    }

    /// Whether a key is among those of its entries.
    pub(crate) fn has(&self, alloc: Global, key: &B::Key) -> bool
        ensures { result ≡ is_logged B.Key.eq self.now key.now }
    {
        let (head, steps) = self.lent();
        let mut left = steps;
        'steps: while let Some((step, others)) = left.split_first() {
            if step.has(alloc, head, key) {
                return true;
            }
            left = others;
        }
        false
    }

    /// Whether a digest of one of its keys may be among these.
    pub(crate) fn shares<D: Digests>(&self, alloc: Global, digests: &D) -> bool
        ensures { IsFalse result
            → All (λ e. D.has digests.now (B.Key.digest_of e.0) → ⊥) self.now }
    {
        let (head, steps) = self.lent();
        let mut left = steps;
        'steps: while let Some((step, others)) = left.split_first() {
            if step.shares(alloc, head, digests) {
                return true;
            }
            left = others;
        }
        false
    }

    // What its steps have in common, and these.
    fn lent(&self) -> (&B::Head, StepsLeft<'_, B::Step>)
        ensures { self.now ≡ flat_map (B.Step.logged result.0.now) result.1 }
    {
        let left = StepsLeft {
            steps: self.steps.lent(),
            count: self.count,
        };
        (&self.head, left)
    }
}

impl<B: PlainBank> Run<B> {
    /// The law that it has no entries, where each stands by itself. It does nothing.
    pub(crate) fn has_none(&self)
        ensures { self.now ≡ [] }
    {
        let _count = self.count;
    }
}
