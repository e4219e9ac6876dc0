//! Units that are as they were: what is found in them, from what is kept of them.
//!
//! Verdicts name tokens by number, so texts and boundaries tell all places of tasks (`AreAsBefore`). Nothing is made of
//! such a root: no drafts, no `Env`. Faults of the preprocessor are the new expansion's; those of units and names are
//! read off the kept results. Whether a scope is open at the end no result has, so it is told with the rows
//! (`is_open`).

ghost use Rattle.std.specs.Prelude.{◌≡◌, ◌++◌, [], IfOk, IsTrue, List, OnOk, flat_map, map};
ghost use Rattle.idl_root.specs.AsBefore.{AreAsBefore, AreCourse, closing_beside, judged_beside};
ghost use Rattle.idl_finding.specs.Findings.{fault_finding};
ghost use Rattle.idl_root.specs.Findings.{unit_finding};
ghost use Rattle.idl_root.specs.Held.{listed_at};
ghost use Rattle.idl_root.specs.Printed.{first_paths, listed_in, listed_with};
ghost use Rattle.idl_store.specs.Stored.{list_at};
ghost use Rattle.idl_unit.specs.declared.unit.Unit.{Unit as RootUnit};

use crate::compiling::printing::{Listed, push_closing, push_listed};
use crate::kept::course::Course;
use crate::kept::keeper::Entries;
use crate::kept::reading::{entry_at, kept_verdict};
use idl_finding::{EventFinding, Spelled, push_fault};
use idl_kept::Declarations;
use idl_root_blocks::idl_check::Verdict;
use idl_unit::Unit;
use std::alloc::{AllocError, Global};

/// Whether these units are as those of before were: of the same texts, with the same file boundaries, and in the same order. Where
/// their tokens stand may differ.
pub fn are_as_before(kept: &Declarations, earlier: Course<'_>, units: &[Unit]) -> bool
    ensures { IsTrue result → (before : List RootUnit)
        → AreCourse kept.now.lists earlier.entry before → AreAsBefore before units.now }
{
    let mut course = earlier;
    for unit in units {
        match course.behind_same(kept, unit) {
            Some(next) => course = next,
            None => return false,
        }
    }
    course.is_empty()
}

/// What is found again so far in units that are as they were, and the names that they declare first, of those that have an id.
pub struct Again<'a> {
    alloc: Global,
    findings: Vec<EventFinding>,
    listed: Vec<Listed<'a>>,
}

impl<'a> Drop for Again<'a> {
    fn drop(self) {
        let Again {
            alloc: _alloc,
            findings: _findings,
            listed: _listed,
        } = self;
    }
}

impl<'a> Again<'a> {
    /// Before the first unit, where this is found in the events.
    pub fn new(alloc: Global, findings: Vec<EventFinding>) -> Again<'a>
        ensures findings { result.findings ≡ findings }
        ensures listed { result.listed.items ≡ [] }
    {
        Again {
            alloc,
            findings,
            listed: Vec::new(alloc),
        }
    }

    /// Behind these units, whose results stand in this list.
    pub fn with_all(
        self,
        kept: &Declarations,
        list: usize,
        units: &'a [Unit],
    ) -> Result<Again<'a>, AllocError>
        ensures findings { let judged = judged_beside units.now (list_at kept.now.lists list) in
            IfOk result (λ again. again.findings.items
            ≡ self.entry.findings.items ++ flat_map unit_finding judged) }
        ensures listed { let judged = judged_beside units.now (list_at kept.now.lists list) in
            IfOk result (λ again. map listed_at again.listed.items
            ≡ map listed_at self.entry.listed.items ++ flat_map listed_in judged) }
    {
        let mut again = self;
        let mut place: usize = 0;
        for unit in units {
            let Unit::Spelled(text, sites) = unit else {
                continue;
            };
            let Some(declaration) = kept.get(list, place) else {
                return Ok(again);
            };
            again.add(Spelled { text, sites }, kept_verdict(declaration))?;
            place += 1;
        }
        Ok(again)
    }

    // Puts in what is found in a unit with this verdict, and the names that it declares first.
    fn add(&mut self, unit: Spelled<'a>, verdict: &Verdict) -> Result<(), AllocError>
        ensures findings { OnOk result (self.new.findings.items
            ≡ self.old.findings.items
            ++ fault_finding unit.entry.text.now unit.entry.sites.now verdict.now.fault) }
        ensures listed { OnOk result (map listed_at self.new.listed.items
            ≡ map listed_at self.old.listed.items
            ++ listed_with unit.entry.text.now unit.entry.sites.now
            (first_paths verdict.now.writes.additions)) }
    {
        push_fault(self.alloc, &mut self.findings, unit, verdict.fault)?;
        push_listed(&mut self.listed, unit, verdict.writes.get())
    }

    /// What is wrong at the end with the names, whose entries stand in this list.
    pub fn closing(&self, kept: &Entries, list: usize) -> Result<Vec<EventFinding>, AllocError>
        ensures { IfOk result (λ closing. closing.items
            ≡ closing_beside (map listed_at self.now.listed.items)
            (list_at kept.now.lists list)) }
    {
        Ok(closing_findings(self.alloc, kept, list, self.listed.as_slice())?)
    }

    /// What is found so far.
    pub fn into_findings(self) -> Vec<EventFinding>
        ensures { result ≡ self.entry.findings }
    {
        let Again {
            alloc: _alloc,
            findings,
            listed: _listed,
        } = self;
        findings
    }
}

// What is wrong at the end with these names, whose entries stand in this list.
fn closing_findings(
    alloc: Global,
    kept: &Entries,
    list: usize,
    listed: &[Listed<'_>],
) -> Result<Vec<EventFinding>, AllocError>
    ensures { IfOk result (λ closing. closing.items
        ≡ closing_beside (map listed_at listed.now) (list_at kept.now.lists list)) }
{
    let mut closing = Vec::new(alloc);
    let mut place: usize = 0;
    for name in listed {
        let Some(entry) = entry_at(kept, list, place) else {
            return Ok(closing);
        };
        push_closing(alloc, &mut closing, name.unit, entry.out().fault)?;
        place += 1;
    }
    Ok(closing)
}
