//! Roots by name, each with what is kept of it.

ghost use Rattle.std.specs.Prelude.{◌≡◌, ◌+◌, ◌<◌, ◌∷◌, ◌++◌, [], false, IfOk, OnOk, OnErr, is_some, length, nat_le, slice_get};
ghost use Rattle.idl_inputs.specs.Bank.{bank_of};
ghost use Rattle.idl_inputs.specs.Refiled.{AreCauses};
ghost use Rattle.idl_sources.specs.idl_root.AsBefore.{AreListsLeft};
ghost use Rattle.idl_project.specs.Renewed.{IsAdded, IsKeeperLeft, IsDrafted, IsRenewed};
ghost use Rattle.idl_project.specs.Tasks.{kept_entries, kept_texts};
ghost use Rattle.std.specs.Option.{option_copied, option_map};
ghost use Rattle.std.specs.List.{IsDistinct, list_any, position};
ghost use Rattle.std.specs.Map.{lookup, keys_of, remove_entry};
ghost use Rattle.std.specs.Str.{bytes_eq};
ghost use Rattle.idl_memo.specs.Meter.{compared_after, most_compared};
ghost use Rattle.idl_source.specs.Limits.{most_roots};
ghost use Rattle.idl_project.specs.UpToDate.{IsUpToDate, keys_asked, project_held};

use crate::kept_root::{BankChange, KeptRoot};
use crate::work::Work;
use idl_base::Seq;
use idl_event::RootBank;
use idl_inputs::{MAX_ROOTS, SessionBank, Stepless};
use idl_memo::{Meter, one_bank};
use idl_prep::RootTask;
use idl_source::Name;
use idl_sources::CompiledRoot;
use idl_sources::idl_root::{Keeper, comparing, fresh_tasks};
use indexmap::IndexMap;
use std::alloc::{AllocError, Global};
use std::marker::Model;

/// Roots, each once, with what is kept of it, in the order in which they were added.
///
/// A look-up takes the same time whatever their number.
pub struct RootTable {
    roots: IndexMap<Name, KeptRoot>,
}

impl Model for RootTable {
    ghost use Rattle.std.specs.Prelude.{List, ℕ};
    ghost use Rattle.idl_project.specs.declared.kept_root.KeptRoot.{KeptRoot};

    ghost Value = { List (List ℕ × KeptRoot) };

    ghost view = { λ table. table.roots.entries };
}

impl Drop for RootTable {
    fn drop(self) {
        let RootTable { roots: _roots } = self;
    }
}

impl RootTable {
    /// The table without roots. It takes no memory.
    pub fn new(alloc: Global) -> RootTable
        ensures { result ≡ [] }
    {
        RootTable {
            roots: IndexMap::new(alloc),
        }
    }

    /// Whether there are as many roots as there may be.
    pub fn is_full(&self) -> bool
        ensures { result ≡ nat_le most_roots (length self.now) }
    {
        self.roots.len() >= MAX_ROOTS
    }

    /// Whether there is a root of this name.
    pub fn contains(&self, root: &Name) -> bool
        ensures { result ≡ list_any (bytes_eq root.now) (keys_of self.now) }
    {
        self.roots.contains_key(root)
    }

    /// What the root of this name compiles to.
    pub fn get(&self, root: &Name) -> Option<&CompiledRoot>
        ensures { option_copied result
            ≡ option_map (λ kept. kept.compiled.value) (lookup (bytes_eq root.now) self.now) }
    {
        match self.roots.get(root) {
            Some(kept) => Some(kept.compiled()),
            None => None,
        }
    }

    /// What is kept of the root of this name.
    pub fn kept(&self, root: &Name) -> Option<&KeptRoot>
        ensures { option_copied result ≡ lookup (bytes_eq root.now) self.now }
    {
        self.roots.get(root)
    }

    /// Makes room for one root more. The roots stay as they are.
    pub fn reserve_one(&mut self) -> Result<(), AllocError>
        ensures { self.new ≡ self.old }
    {
        self.roots.reserve(1)
    }

    /// Adds a root that isn't there, at the end.
    pub fn add(&mut self, root: Name, kept: KeptRoot) -> Result<(), AllocError>
        // Who adds a root has asked for it.
        requires { list_any (bytes_eq root) (keys_of self.old) ≡ false }
        ensures ok { OnOk result (self.new ≡ self.old ++ (root, kept) ∷ []) }
        ensures err { OnErr result (self.new ≡ self.old) }
    {
        self.roots.insert(root, kept)?;
        Ok(())
    }

    /// Adds a root that isn't there, at the end: it is expanded and compiled over this bank.
    ///
    /// What is made of it waits in the keeper to be put in place. Want of memory leaves the roots and the keeper as they were, and
    /// nothing is said of the meter then.
    pub fn add_anew(
        &mut self,
        keeper: &mut Keeper,
        root: Name,
        bank: &SessionBank,
        meter: &mut Meter,
    ) -> Result<(), AllocError>
        requires new { list_any (bytes_eq root) (keys_of self.old) ≡ false }
        requires room { meter.old.expanded < most_compared }
        requires texts { keeper.old.texts ≡ kept_texts (bank_of bank.now) (keys_of self.old) }
        requires entries { keeper.old.entries ≡ kept_entries (bank_of bank.now) (keys_of self.old) }
        ensures added { OnOk result (IsAdded bank.now root self.old self.new) }
        ensures tasks { OnOk result (IsDrafted (bank_of bank.now) (length self.old) root keeper.old
            keeper.new meter.old meter.new) }
        ensures count { OnOk result (meter.new.expanded ≡ meter.old.expanded + 1) }
        ensures err { OnErr result ((self.new ≡ self.old) × IsKeeperLeft keeper.old keeper.new) }
    {
        let last = (self.len(), root.copied());
        let kept = match KeptRoot::anew(keeper, last, bank, meter) {
            Ok(kept) => kept,
            Err(refusal) => {
                keeper.discard();
                return Err(refusal);
            }
        };
        if let Err(refusal) = self.add(root, kept) {
            keeper.discard();
            return Err(refusal);
        }
        Ok(())
    }

    /// Drops the root of this name, if there is one, and gives back the room for it. The others stay in their order.
    pub fn remove(&mut self, root: &Name)
        ensures left { self.new ≡ remove_entry (bytes_eq root.now) self.old }
        ensures distinct { IsDistinct bytes_eq (keys_of self.new) }
    {
        self.roots.shift_remove(root);
        self.roots.shrink_to_fit();
    }

    /// The same roots after a change of what they are answered, each with what is kept of it, the work of that, and which were expanded
    /// anew: each cause is looked up in each, and those that asked for one are expanded and compiled anew, once.
    ///
    /// What is made of these waits in the keeper to be put in place. Want of memory leaves it as it was.
    pub fn renewed<B: RootBank<Head = (), Step = Stepless>>(
        &self,
        keeper: &mut Keeper,
        change: &BankChange<'_, B>,
    ) -> Result<(RootTable, Work, Seq<Name>), AllocError>
        requires held { IsUpToDate change.now.base.now self.now keeper.old }
        requires causes { let before = bank_of change.now.base.now in
            AreCauses before (B.at change.now.bank.now) change.now.causes.now }
        ensures renewed { let project = project_held change.now.base.now self.now in
            IfOk result (IsRenewed project (B.at change.now.bank.now) keeper.new) }
        ensures lists { AreListsLeft keeper.old keeper.new }
        ensures err { OnErr result (IsKeeperLeft keeper.old keeper.new) }
    {
        match self.all_renewed(keeper, change) {
            Ok(renewed) => Ok(renewed),
            Err(refusal) => {
                keeper.discard();
                Err(refusal)
            }
        }
    }

    // The same. Where memory is refused there may be drafts more.
    fn all_renewed<B: RootBank<Head = (), Step = Stepless>>(
        &self,
        keeper: &mut Keeper,
        change: &BankChange<'_, B>,
    ) -> Result<(RootTable, Work, Seq<Name>), AllocError>
        requires held { IsUpToDate change.now.base.now self.now keeper.old }
        requires causes { let before = bank_of change.now.base.now in
            AreCauses before (B.at change.now.bank.now) change.now.causes.now }
        ensures renewed { let project = project_held change.now.base.now self.now in
            IfOk result (IsRenewed project (B.at change.now.bank.now) keeper.new) }
        ensures lists { AreListsLeft keeper.old keeper.new }
    {
        one_bank::<SessionBank, RootTask>();
        fresh_tasks();
        comparing();
        let _room = self.roots.len();
        let mut meter = Meter::new();
        let mut table = RootTable::new(keeper.alloc());
        let mut touched = Seq::new(keeper.alloc());
        for (root, kept) in self.roots.iter() {
            let expanded = meter.expanded;
            let next = KeptRoot::renewed(keeper, (table.len(), kept), change, &mut meter)?;
            note_touched(&mut touched, root, expanded, meter.expanded)?;
            table.add(root.copied(), next)?;
        }
        Ok((table, Work::counted(&meter), touched))
    }

    /// How many roots there are.
    pub fn len(&self) -> usize
        ensures { result ≡ length self.now }
    {
        self.roots.len()
    }

    /// The name of the root at this place among all, if there is one.
    pub fn name_at(&self, at: usize) -> Option<&Name>
        ensures { option_copied result ≡ slice_get (keys_of self.now) at }
    {
        match self.roots.get_index(at) {
            Some((root, _kept)) => Some(root),
            None => None,
        }
    }

    /// The place of the root of this name among all, if it is there.
    pub fn place_of(&self, root: &Name) -> Option<usize>
        ensures index { result ≡ position (bytes_eq root.now) (keys_of self.now) }
        ensures found { is_some result ≡ list_any (bytes_eq root.now) (keys_of self.now) }
    {
        self.roots.get_index_of(root)
    }

    /// How many keys all roots asked, as far as a count goes.
    pub fn keys_asked(&self) -> u64
        ensures { result ≡ compared_after 0 (keys_asked self.now) }
    {
        let mut keys: u64 = 0;
        for (_root, kept) in self.roots.iter() {
            keys = keys.saturating_add(kept.key_count() as u64);
        }
        keys
    }
}

// Puts in the name of a root that was expanded anew: then more roots were behind it than before.
fn note_touched(
    names: &mut Seq<Name>,
    root: &Name,
    before: u64,
    behind: u64,
) -> Result<(), AllocError>
    ensures same { before ≡ behind → OnOk result (names.new ≡ names.old) }
    ensures more { (before ≡ behind → ⊥)
        → OnOk result (names.new ≡ names.old ++ root.now ∷ []) }
{
    if before == behind {
        return Ok(());
    }
    names.push(root.copied())
}
