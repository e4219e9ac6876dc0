//! The printing of names whose entries are kept.

ghost use Rattle.std.specs.Prelude.{◌≡◌, ◌≤◌, ◌∷◌, [], IfNone, IfOk, IfSome, List, OnErr, OnOk, flat_map, map, sum_by};
ghost use Rattle.idl_env.specs.Facts.{UnitFacts, answers};
ghost use Rattle.idl_memo.specs.Meter.{compared_after, most_compared};
ghost use Rattle.idl_store.specs.Stored.{grown, results_in};
ghost use Rattle.idl_root.specs.Compared.{entry_keys, shared_entries};
ghost use Rattle.idl_root.specs.Followed.{IsEntryLast, IsPrinting, IsTakenAgain};
ghost use Rattle.idl_root.specs.Held.{listed_at};
ghost use Rattle.idl_root.specs.Places.{EntryPlace, entries_over};
ghost use Rattle.idl_root.specs.Printed.{closing_finding, entry_row};
ghost use Rattle.idl_root.specs.Results.{EntryResult, HasDraft, IsEntryPass, PrintsOnly, entry_result};

use crate::compiling::printing::{Listed, Printed};
use crate::kept::keeper::{Entries, KeptEntry};
use crate::kept::reading::entry_keys;
use crate::kept::reprinting::Reprinting;
use idl_entity::Path;
use idl_env::Env;
use idl_memo::{Meter, passing, placement};
use idl_repo::EntryTask;
use std::alloc::{AllocError, Global};
use std::rc::Rc;

/// The printing of a root's names so far: those of before that are still to come, if they tell anything.
pub struct Printing {
    reprinting: Option<Reprinting>,
    // In which rows are written.
    buffer: Vec<u8>,
    /// What was run, this root's entries among it.
    pub meter: Meter,
    /// How many keys the entries asked.
    pub keys: usize,
}

impl Drop for Printing {
    fn drop(self) {
        let Printing {
            reprinting: _reprinting,
            buffer: _buffer,
            meter: _meter,
            keys: _keys,
        } = self;
    }
}

impl Printing {
    /// Before the first name.
    pub fn new(alloc: Global, reprinting: Option<Reprinting>, meter: Meter) -> Printing
        ensures reprinting { result.reprinting ≡ reprinting }
        ensures meter { result.meter ≡ meter }
        ensures keys { result.keys ≡ 0 }
    {
        Printing {
            reprinting,
            buffer: Vec::new(alloc),
            meter,
            keys: 0,
        }
    }

    /// What comes of each of these names over an environment. Their entries go last into what is made of the root.
    pub fn printed(
        &mut self,
        kept: &mut Entries,
        env: &Env,
        listed: &[Listed<'_>],
    ) -> Result<Printed, AllocError>
        requires { IsPrinting kept.old.lists self.old env.now }
        ensures findings { IfOk result (λ printed. printed.findings.items
            ≡ flat_map (closing_finding env.now) (map listed_at listed.now)) }
        ensures rows { IfOk result (λ printed. printed.rows.items
            ≡ flat_map (entry_row env.now) (map listed_at listed.now)) }
        ensures kept { let places = entries_over env.now (map listed_at listed.now) in
            OnOk result (kept.new ≡ grown kept.old (map entry_result places)) }
        ensures lists { kept.new.lists ≡ kept.old.lists }
        ensures counts { let places = entries_over env.now (map listed_at listed.now) in
            OnOk result (HasDraft kept.old → IsEntryPass places (results_in kept.old)
            (results_in kept.new) self.old.meter.printed self.new.meter.printed) }
        ensures compared { let places = entries_over env.now (map listed_at listed.now) in
            OnOk result (self.old.meter.compared ≤ most_compared
            → (known : List EntryPlace) → HasDraft kept.old
            → results_in kept.old ≡ map entry_result known
            → self.new.meter.compared
            ≡ compared_after self.old.meter.compared (shared_entries known places)) }
        ensures keys { let places = entries_over env.now (map listed_at listed.now) in
            OnOk result (self.new.keys
            ≡ compared_after self.old.keys (sum_by entry_keys places)) }
        ensures others { OnOk result (PrintsOnly self.old.meter self.new.meter) }
    {
        passing::<Env, EntryTask>();
        placement::<Env, EntryTask>();
        let mut printed = Printed::new(env.alloc(), listed.len())?;
        let mut keys = self.keys;
        for name in listed {
            let entry = self.entry(kept, env, &name.path)?;
            keys = keys.saturating_add(entry_keys(&entry));
            printed.add(env.alloc(), name.unit, entry.out())?;
        }
        self.keys = keys;
        Ok(printed)
    }

    // What is kept of the name at a path, which goes last into what is made of the root.
    fn entry(
        &mut self,
        kept: &mut Entries,
        env: &Env,
        path: &Path,
    ) -> Result<Rc<KeptEntry>, AllocError>
        requires { IsPrinting kept.old.lists self.old env.now }
        ensures obtained { let place : EntryPlace = (path.now, answers env.now) in
            IfOk result (λ entry. IsEntryLast place kept.old kept.new self.old.meter
            self.new.meter entry.value) }
        ensures lists { kept.new.lists ≡ kept.old.lists }
        ensures rest { OnOk result (IsPrinting kept.new.lists self.new env.now) }
        ensures keys { self.new.keys ≡ self.old.keys }
    {
        match self.taken(kept, path)? {
            Some(entry) => {
                self.meter.compare(entry_keys(&entry));
                Ok(entry)
            }
            None => self.obtained(kept, env, path),
        }
    }

    // An entry that is kept and alike, or what a run gives. Where no count can say that one more was run, memory is wanting first.
    fn obtained(
        &mut self,
        kept: &mut Entries,
        env: &Env,
        path: &Path,
    ) -> Result<Rc<KeptEntry>, AllocError>
        ensures obtained { let place : EntryPlace = (path.now, answers env.now) in
            IfOk result (λ entry. IsEntryLast place kept.old kept.new self.old.meter
            self.new.meter entry.value) }
        ensures lists { kept.new.lists ≡ kept.old.lists }
        ensures reprinting { self.new.reprinting ≡ self.old.reprinting }
        ensures keys { self.new.keys ≡ self.old.keys }
    {
        if self.meter.printed == u64::MAX {
            return Err(AllocError);
        }
        let task = EntryTask {
            path: path.clone()?,
        };
        Ok(kept.obtain(&task, env, &mut self.buffer, &mut self.meter)?)
    }

    // What was kept of it, if it may be taken over.
    fn taken(
        &mut self,
        kept: &mut Entries,
        path: &Path,
    ) -> Result<Option<Rc<KeptEntry>>, AllocError>
        ensures none { IfOk result (λ found. IfNone found (kept.new ≡ kept.old)) }
        ensures again { IfOk result (λ found. IfSome found (λ k. (facts : List UnitFacts)
            → IsPrinting kept.old.lists self.old facts
            → let here : EntryPlace = (path.now, answers facts) in
            IsTakenAgain here (entry_result here) kept.old kept.new k.value)) }
        ensures rest { (lists : List (List EntryResult)) (facts : List UnitFacts)
            → IsPrinting lists self.old facts → IsPrinting lists self.new facts }
        ensures meter { self.new.meter ≡ self.old.meter }
        ensures keys { self.new.keys ≡ self.old.keys }
        ensures err { OnErr result (kept.new ≡ kept.old) }
    {
        match &mut self.reprinting {
            Some(reprinting) => reprinting.take_again(kept, path),
            None => Ok(None),
        }
    }
}
