//! Roots that are expanded alone: nothing is kept of them.

ghost use Rattle.std.specs.Prelude.{◌≡◌, IfOk};
ghost use Rattle.idl_event.specs.Key.{key_eq};
ghost use Rattle.idl_memo.specs.Kept.{HoldsOver};
ghost use Rattle.idl_prep.specs.Root.{expansion};
ghost use Rattle.idl_inputs.specs.Asked.{asked_over};
ghost use Rattle.idl_inputs.specs.Bank.{bank_of};

use crate::bank::SessionBank;
use crate::reading::{asked, root_log};
use idl_event::Expansion;
use idl_memo::{Kept, Meter, run_anew};
use idl_prep::RootTask;
use idl_source::Name;
use std::alloc::{AllocError, Global};
use std::rc::Rc;

/// The result of a root's task, as a session keeps it.
pub type KeptExpansion = Kept<SessionBank, Name, Expansion>;

/// The files that a root asks for over a bank, there or not, in the order first asked. It is expanded for that alone.
pub fn asked_alone(alloc: Global, bank: &SessionBank, root: &Name) -> Result<Vec<Name>, AllocError>
    ensures { IfOk result (λ names. names.items ≡ asked_over (bank_of bank.now) root.now) }
{
    let kept = expanded_alone(alloc, bank, root)?;
    asked(alloc, root_log(&kept))
}

/// The result of a root's task over a bank. Nothing is kept of it.
pub fn expanded_alone(
    alloc: Global,
    bank: &SessionBank,
    root: &Name,
) -> Result<Rc<KeptExpansion>, AllocError>
    ensures text { IfOk result (λ kept. kept.value.text ≡ root.now) }
    ensures over { IfOk result (λ kept. HoldsOver key_eq expansion (bank_of bank.now) kept.value) }
{
    let task = RootTask::new(root.copied());
    run_anew(alloc, &task, bank, &mut Meter::new())
}
