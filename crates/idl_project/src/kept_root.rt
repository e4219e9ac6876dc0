//! What is kept of a root.

ghost use Rattle.std.specs.Prelude.{◌≡◌, ◌⊎◌, ◌+◌, ◌<◌, IfNone, IfOk, IfSome, IsTrue, List, OnOk, Option, length};
ghost use Rattle.std.specs.List.{list_any};
ghost use Rattle.std.specs.Option.{unwrap_or};
ghost use Rattle.idl_event.specs.declared.told.event.Event.{Event};
ghost use Rattle.idl_event.specs.Key.{key_eq};
ghost use Rattle.idl_event.specs.declared.asked.key.RootAnswer.{RootAnswer};
ghost use Rattle.idl_event.specs.declared.asked.key.RootKey.{RootKey};
ghost use Rattle.idl_memo.specs.Kept.{HoldsOver};
ghost use Rattle.idl_memo.specs.Meter.{most_compared};
ghost use Rattle.idl_memo.specs.Query.{is_logged};
ghost use Rattle.idl_prep.specs.Root.{expanded, expansion};
ghost use Rattle.idl_sources.specs.idl_root.AsBefore.{AreListsLeft, IsAsBefore, IsCompiledOf, kept_lists};
ghost use Rattle.idl_sources.specs.idl_root.Details.{details};
ghost use Rattle.idl_sources.specs.idl_root.Results.{IsKeptOf, nothing_kept};
ghost use Rattle.idl_inputs.specs.Asked.{asked_files};
ghost use Rattle.idl_inputs.specs.Bank.{bank_of};
ghost use Rattle.idl_inputs.specs.Refiled.{AreCauses};
ghost use Rattle.idl_project.specs.Renewed.{IsDrafted, IsRenewedAt};
ghost use Rattle.idl_project.specs.Tasks.{alike_root, root_lists};
ghost use Rattle.idl_project.specs.UpToDate.{IsKept};

use crate::compile::compile_kept;
use idl_event::{Expansion, RootBank, RootKey};
use idl_inputs::expanding::KeptExpansion;
use idl_inputs::reading::{asked, root_expansion, root_log, root_name};
use idl_inputs::{SessionBank, Stepless};
use idl_memo::{Meter, freshness, reliance, run_anew};
use idl_prep::RootTask;
use idl_source::Name;
use idl_sources::idl_root::{Details, Keeper, Marks, RootBefore};
use idl_sources::{CompiledRoot, idl_root};
use std::alloc::{AllocError, Global};
use std::rc::Rc;

/// What is kept of a root: the result of its task, what the root compiles to, and what its units are. The results of its
/// declarations, blocks and entries are a keeper's, at the root's place among all.
pub struct KeptRoot {
    result: Rc<KeptExpansion>,
    compiled: Rc<CompiledRoot>,
    marks: Rc<Marks>,
}

impl Drop for KeptRoot {
    fn drop(self) {
        let KeptRoot {
            result: _result,
            compiled: _compiled,
            marks: _marks,
        } = self;
    }
}

/// What roots are answered from now on, in place of what they were, and the causes of all that holds no longer: the keys that have
/// other answers than before.
#[derive(Clone, Copy)]
pub struct BankChange<'a, B> {
    pub base: &'a SessionBank,
    pub bank: &'a B,
    pub causes: &'a [RootKey],
}

impl KeptRoot {
    /// What comes of the root of this name over a bank, which will stand at this place among all: it is expanded and compiled.
    ///
    /// After want of memory nothing is said of the meter, and there may be drafts more.
    pub fn anew<B: RootBank<Head = (), Step = Stepless>>(
        keeper: &mut Keeper,
        root: (usize, Name),
        bank: &B,
        meter: &mut Meter,
    ) -> Result<KeptRoot, AllocError>
        requires room { meter.old.expanded < most_compared }
        requires none { kept_lists keeper.old root.0 ≡ nothing_kept }
        ensures kept { IfOk result (λ kept. IsKept (B.at bank.now) (root.1, kept)) }
        ensures made { OnOk result (IsDrafted (B.at bank.now) root.0 root.1 keeper.old keeper.new
            meter.old meter.new) }
        ensures lists { AreListsLeft keeper.old keeper.new }
        ensures count { OnOk result (meter.new.expanded ≡ meter.old.expanded + 1) }
    {
        let (at, name) = root;
        let alloc = keeper.alloc();
        let none = Rc::new(alloc, Marks::none(alloc))?;
        let before = RootBefore {
            at,
            marks: &none,
            compiled: None,
        };
        Ok(expanded(keeper, (name, before), bank, meter)?)
    }

    /// What is kept of the root that stands at this place, of which this is kept, after an edit of the bank: the same where its result
    /// holds still, and else what comes of the root anew.
    ///
    /// After want of memory nothing is said of the meter, and there may be drafts more.
    pub fn renewed<B: RootBank<Head = (), Step = Stepless>>(
        keeper: &mut Keeper,
        root: (usize, &KeptRoot),
        change: &BankChange<'_, B>,
        meter: &mut Meter,
    ) -> Result<KeptRoot, AllocError>
        requires kept { let before = bank_of change.now.base.now in
            IsKept before (root.1.now.result.value.text, root.1.now) }
        requires lists { let before = bank_of change.now.base.now in
            kept_lists keeper.old root.0 ≡ root_lists before root.1.now.result.value.text }
        requires causes { let before = bank_of change.now.base.now in
            AreCauses before (B.at change.now.bank.now) change.now.causes.now }
        requires room { meter.old.expanded < most_compared }
        ensures kept { let after = B.at change.now.bank.now in
            IfOk result (λ kept. IsKept after (root.entry.1.now.result.value.text, kept)) }
        ensures renewed { let before = bank_of change.now.base.now in
            let after = B.at change.now.bank.now in
            let name = root.entry.1.now.result.value.text in
            OnOk result (IsRenewedAt before after root.entry.0 name keeper.old keeper.new
            meter.old meter.new) }
        ensures lists { AreListsLeft keeper.old keeper.new }
    {
        let (at, kept) = root;
        if kept.outlasts(change.causes) {
            meter.compare(kept.key_count());
            return Ok(KeptRoot {
                result: kept.result.clone()?,
                compiled: kept.compiled.clone()?,
                marks: kept.marks.clone()?,
            });
        }
        let name = root_name(&kept.result).copied();
        let before = RootBefore {
            at,
            marks: &kept.marks,
            compiled: Some(&kept.compiled.rows),
        };
        Ok(expanded(keeper, (name, before), change.bank, meter)?)
    }

    // Whether the root's own task is alike over other answers too, with these causes: it asked for none of them.
    fn outlasts(&self, causes: &[RootKey]) -> bool
        ensures over { (before after : RootKey → Option RootAnswer)
            → AreCauses before after causes.now
            → IsKept before (self.now.result.value.text, self.now)
            → IsTrue result → HoldsOver key_eq expansion after self.now.result.value }
        ensures alike { (before after : RootKey → Option RootAnswer)
            → AreCauses before after causes.now
            → IsKept before (self.now.result.value.text, self.now)
            → alike_root (self.now.result.value.text, after) (self.now.result.value.text, before)
            ≡ result }
    {
        freshness::<SessionBank, RootTask>();
        reliance::<SessionBank, RootTask>();
        !self.asks_one_of(causes)
    }

    // Whether the root's own task asked for one of these.
    fn asks_one_of(&self, keys: &[RootKey]) -> bool
        ensures { result ≡ list_any (is_logged key_eq self.now.result.value.log) keys.now }
    {
        let log = root_log(&self.result);
        keys.iter().any(|key| log.contains(key))
    }

    /// What the root compiles to.
    pub fn compiled(&self) -> &CompiledRoot
        ensures { result.now ≡ self.now.compiled.value }
    {
        &self.compiled
    }

    /// The files that the root asked for, there or not, in the order in which they were first asked.
    pub fn asked(&self, alloc: Global) -> Result<Vec<Name>, AllocError>
        ensures { IfOk result (λ names. names.items ≡ asked_files self.now.result.value.log) }
    {
        Ok(asked(alloc, root_log(&self.result))?)
    }

    /// The details of the root, whose units are judged for that alone.
    pub fn details(&self, alloc: Global) -> Result<Details, AllocError>
        ensures { IfOk result (λ d. d ≡ details self.now.result.value.out) }
    {
        idl_root::details_of(alloc, root_expansion(&self.result))
    }

    /// What the root expands to.
    pub fn expansion(&self) -> &Expansion
        ensures { result.now ≡ self.now.result.value.out }
    {
        root_expansion(&self.result)
    }

    /// How many keys the root asked.
    pub fn key_count(&self) -> usize
        ensures { result ≡ length self.now.result.value.log }
    {
        root_log(&self.result).len()
    }
}

// What comes of a root of this name over a bank, beside what it was: it is expanded and compiled.
fn expanded<B: RootBank<Head = (), Step = Stepless>>(
    keeper: &mut Keeper,
    root: (Name, RootBefore<'_>),
    bank: &B,
    meter: &mut Meter,
) -> Result<KeptRoot, AllocError>
    requires room { meter.old.expanded < most_compared }
    requires kept { (was : List Event)
        × IsKeptOf was root.1.marks.now.value (kept_lists keeper.old root.1.at)
        × IfSome root.1.compiled (λ compiled. IsCompiledOf was compiled.now) }
    ensures kept { IfOk result (λ kept. IsKept (B.at bank.now) (root.entry.0, kept)) }
    ensures tasks { OnOk result ((was : List Event)
        → IsKeptOf was root.entry.1.marks.now.value (kept_lists keeper.old root.entry.1.at)
        → IsAsBefore was (expanded root.entry.0 (B.at bank.now)).0
        keeper.old keeper.new meter.old meter.new
        ⊎ IsDrafted (B.at bank.now) root.entry.1.at root.entry.0 keeper.old keeper.new
        meter.old meter.new) }
    ensures first { OnOk result (IfNone root.entry.1.compiled (IsDrafted (B.at bank.now)
        root.entry.1.at root.entry.0 keeper.old keeper.new meter.old meter.new)) }
    ensures lists { AreListsLeft keeper.old keeper.new }
    ensures count { OnOk result (meter.new.expanded ≡ meter.old.expanded + 1) }
{
    let alloc = keeper.alloc();
    let (name, before) = root;
    let result = run_anew(alloc, &RootTask::new(name), bank, meter)?;
    let (compiled, marks) = compile_kept(keeper, bank, (&result, before), meter)?;
    Ok(KeptRoot {
        result,
        compiled: Rc::new(alloc, compiled)?,
        marks: marks_of(alloc, marks, before.marks)?,
    })
}

// What the units of a root are: those, or else as they were.
fn marks_of(
    alloc: Global,
    marks: Option<Marks>,
    earlier: &Rc<Marks>,
) -> Result<Rc<Marks>, AllocError>
    ensures { IfOk result (λ kept. kept.value ≡ unwrap_or marks earlier.now.value) }
{
    match marks {
        Some(marks) => Ok(Rc::new(alloc, marks)?),
        None => earlier.clone(),
    }
}
