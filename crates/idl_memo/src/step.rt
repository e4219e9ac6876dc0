//! Steps: what stands for a few entries of a log that stand side by side.

ghost use Rattle.std.specs.Prelude.{◌≡◌, ◌++◌, ℕ, All, IfOk, IfSome, IsFalse, IsTrue, List, OnOk, Option, length};
ghost use Rattle.std.specs.Option.{option_copied, option_map};
ghost use Rattle.idl_memo.specs.Query.{is_logged};
ghost use Rattle.idl_memo.specs.Runs.{BeginsWith, first_other};

use crate::bank::LentBank;
use idl_base::Datum;
use idl_map::Digest;
use std::alloc::{AllocError, Global};

/// Digests of keys, of which one is looked for.
pub trait Digests {
    /// Whether a digest is among them.
    ghost has: { Self → ℕ → Type 0 };

    /// Whether a digest may be among them. It takes no memory.
    fn has(&self, digest: u64) -> bool
        ensures { IsFalse result → has self.now digest → ⊥ };
}

/// What stands for a few entries of a log that stand side by side, beside what many such steps have in common.
pub trait Step<K: Datum + Ord + Digest, A: Datum, H>: Datum {
    /// The entries for which a step stands.
    ghost logged: { H → Self → List (K × Option A) };

    /// How many these are, where each such step stands for as many. It takes no memory.
    fn width(head: &H) -> Option<usize>
        ensures { IfSome result (λ n. (step : Self) → n ≡ length (logged head.now step)) };

    /// Puts these behind other entries.
    fn append_to(
        &self,
        alloc: Global,
        head: &H,
        entries: &mut Vec<(K, Option<A>)>,
    ) -> Result<(), AllocError>
        ensures { OnOk result
            (entries.new.items ≡ entries.old.items ++ logged head.now self.now) };

    /// What the steps of a run would have in common that begins with these entries.
    fn head(alloc: Global, entries: &[(K, Option<A>)]) -> Result<Option<H>, AllocError>;

    /// The step with which these entries begin, if it can be told.
    fn first(head: &H, entries: &[(K, Option<A>)]) -> Result<Option<Self>, AllocError>
        ensures { IfOk result (λ found. IfSome found (λ step.
            BeginsWith (logged head.now step) entries.now)) };

    /// Whether these entries begin with this step, where that is told at little cost.
    fn is_first(&self, head: &H, entries: &[(K, Option<A>)]) -> bool
        ensures { IsTrue result → BeginsWith (logged head.now self.now) entries.now };

    /// Whether it is told at little cost whether entries begin with it.
    fn is_told(&self) -> bool;

    /// A number by which steps are told apart.
    fn mark(&self) -> u64;

    /// That number of the step with which these entries may begin.
    fn first_mark(head: &H, entries: &[(K, Option<A>)]) -> Option<u64>;

    /// The first of its answers that isn't the bank's, with the bank's.
    fn first_other<'a, B: LentBank<Key = K, Answer = A, Head = H, Step = Self>>(
        &'a self,
        alloc: Global,
        head: &H,
        bank: &'a B,
    ) -> Option<(Option<&'a A>, Option<&'a A>)>
        ensures { option_map (λ p. (option_copied p.0, option_copied p.1)) result
            ≡ first_other A.eq (B.at bank.now) (logged head.now self.now) };

    /// Whether a key is among those of its entries.
    fn has(&self, alloc: Global, head: &H, key: &K) -> bool
        ensures { result ≡ is_logged K.eq (logged head.now self.now) key.now };

    /// Whether a digest of one of its keys may be among these.
    fn shares<D: Digests>(&self, alloc: Global, head: &H, digests: &D) -> bool
        ensures { IsFalse result
            → All (λ e. D.has digests.now (K.digest_of e.0) → ⊥) (logged head.now self.now) };
}
