//! What a run of a task leaves.

ghost use Rattle.std.specs.Prelude.{◌≡◌, ◌<◌, IfOk, OnOk};
ghost use Rattle.idl_memo.specs.Kept.{HoldsOver};
ghost use Rattle.idl_memo.specs.Meter.{count_of, most_compared, raised};

use crate::bank::Bank;
use crate::keeping::kept::{Kept, keep};
use crate::log::Log;
use crate::meter::Meter;
use crate::task::Runnable;
use std::alloc::{AllocError, Global};
use std::rc::Rc;

/// What a run of the task leaves over this bank, to be kept as a result over a bank of such keys and answers.
///
/// After want of memory nothing is said of the meter.
pub fn run_anew<B: Bank, C: Bank<Key = B::Key, Answer = B::Answer>, T: Runnable<C, Scratch = ()>>(
    alloc: Global,
    task: &T,
    bank: &C,
    meter: &mut Meter,
) -> Result<Rc<Kept<B, T::Text, T::Out>>, AllocError>
    requires { count_of T.KIND meter.old < most_compared }
    ensures text { IfOk result (λ found. found.value.text ≡ T.text_of task.now) }
    ensures over { IfOk result (λ found. HoldsOver B.Key.eq T.query (C.at bank.now) found.value) }
    ensures count { OnOk result (meter.new ≡ raised T.KIND meter.old) }
{
    let mut log = Log::new(alloc);
    let out = task.run(alloc, bank, &mut (), &mut log)?;
    meter.raise(T::KIND);
    keep(alloc, task.text(), log.kept(alloc)?, out)
}
