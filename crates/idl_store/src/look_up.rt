//! How a kept result is taken that is alike to a task.

ghost use Rattle.std.specs.Prelude.{◌≡◌, ◌∷◌, [], IfErr, IfOk, OnErr};
ghost use Rattle.std.specs.Option.{option_cmp};
ghost use Rattle.idl_memo.specs.Kept.{NoneAlikeAt, SomeAlikeAt, result_over};
ghost use Rattle.idl_store.specs.Buckets.{bucket_of};
ghost use Rattle.idl_store.specs.Index.{IsGapAmong};
ghost use Rattle.idl_store.specs.Order.{results_cmp};
ghost use Rattle.idl_store.specs.Stored.{grown, results_in};

use crate::index::{Gap, bucket_of};
use crate::ranked::{Held, Place};
use crate::shelf::Shelf;
use idl_memo::{LentBank, Task};
use std::alloc::AllocError;

// A result that is alike to the task over this bank goes into the last draft too. Where there is none, this is the gap where it
// would go, and nothing goes anywhere.
//
// Want of memory leaves lists and drafts as they were.
pub(crate) fn take_alike<B: LentBank, T: Task<B>>(
    shelf: &mut Shelf<Held<B, T>>,
    task: &T,
    bank: &B,
) -> Result<Result<Held<B, T>, Gap>, AllocError>
where
    B::Answer: Ord,
    T::Text: Ord,
    ensures found { let here = result_over B.Key.eq T.query (T.text_of task.now, B.at bank.now) in
        IfOk result (λ found. IfOk found (λ one. (one ≡ here)
        × SomeAlikeAt (T.text_of task.now, B.at bank.now) (results_in shelf.old.stored)
        × (shelf.new.stored ≡ grown shelf.old.stored (here ∷ [])))) }
    ensures missed { let here = result_over B.Key.eq T.query (T.text_of task.now, B.at bank.now) in
        IfOk result (λ found. IfErr found (λ gap.
        NoneAlikeAt (T.text_of task.now, B.at bank.now) (results_in shelf.old.stored)
        × IsGapAmong (λ other. results_cmp T.Text.cmp (option_cmp B.Answer.cmp) other here)
        shelf.new.index gap
        × (gap.bucket ≡ bucket_of T.Text.hash_input T.hint_of here))) }
    ensures same { IfOk result (λ found. OnErr found (shelf.new ≡ shelf.old)) }
    ensures err { OnErr result (shelf.new.stored ≡ shelf.old.stored) }
{
    let bucket = bucket_of(task.text(), task.hint(bank));
    shelf.take(bucket, &Place { task, bank })
}
