//! The verdicts of a root's units.

ghost use Rattle.std.specs.Prelude.{◌≡◌, ◌≤◌, ◌++◌, ◌∷◌, [], IfOk, List, OnOk, flat_map, map, option_to_list};
ghost use Rattle.idl_root_blocks.specs.idl_check_laws.Closing.{AreTold};
ghost use Rattle.idl_env.specs.Facts.{UnitFacts, boundary};
ghost use Rattle.idl_kept.specs.Texts.{AreListsOf, DeclarationResult};
ghost use Rattle.idl_memo.specs.Meter.{compared_after, most_compared};
ghost use Rattle.idl_store.specs.Stored.{results_in};
ghost use Rattle.idl_root.specs.Added.{told_by};
ghost use Rattle.idl_root.specs.Compile.{is_open};
ghost use Rattle.idl_root.specs.Followed.{IsBoundary, IsKeeping, added_by};
ghost use Rattle.idl_root.specs.Held.{IsEnded, held, to_come, with_gathered, with_judged, with_units};
ghost use Rattle.idl_root.specs.Judged.{judged_at};
ghost use Rattle.idl_root_blocks.specs.idl_check.walk.Verdict.{added, verdict_over};
ghost use Rattle.idl_root.specs.Named.{named_after, named_as};
ghost use Rattle.idl_root.specs.Passed.{ArePassed, Compares, HasDrafts, WalksOnly, with_kept};
ghost use Rattle.idl_root.specs.Printed.{closing_finding, entry_row};
ghost use Rattle.idl_root.specs.Results.{ChecksOnly, IsDeclarationPass, marks_of};
ghost use Rattle.idl_root_blocks.specs.Blocks.{Nothing, cut};
ghost use Rattle.idl_root_blocks.specs.Finding.{in_front};
ghost use Rattle.idl_root_blocks.specs.Met.{outermost_keys};
ghost use Rattle.idl_root_blocks.specs.Places.{declarations_over};
ghost use Rattle.idl_root_blocks.specs.Units.{parts_of_unit, text_of};

use crate::compiling::compiled::Row;
use crate::compiling::memory::Memory;
use crate::compiling::naming::Naming;
use crate::compiling::printing::{Listed, Printed, push_listed};
use crate::kept::added::Added;
use crate::kept::keeping::Keeping;
use crate::kept::marks::Mark;
use crate::kept::noting::noting;
use crate::kept::reading::kept_verdict;
use idl_env::{DigestedKey, Env, Facts, OpenScopes, PlainEnv, Step, Writes, scopes_in};
use idl_finding::{EventFinding, Spelled, push_fault};
use idl_kept::KeptTexts;
use idl_memo::{Bank, Journal, passing, placement};
use idl_root_blocks::idl_check::{DeclarationTask, Scratch, Verdict, verdict_of};
use idl_unit::{Unit, UnitText};
use std::alloc::{AllocError, Global};

/// What has come of a root so far: what its units added, and what was gathered of them.
pub struct RootState<'a> {
    pub env: Env,
    pub gathered: Accumulator<'a>,
}

/// What was gathered of a root's units so far.
pub struct Accumulator<'a> {
    pub findings: Vec<EventFinding>,
    /// The rows of the dump.
    pub rows: Vec<Row>,
    /// The names that have an id, in the order in which they were declared first.
    pub listed: Vec<Listed<'a>>,
}

/// What came of all units and names.
#[derive(Drop)]
pub struct Ended {
    pub findings: Vec<EventFinding>,
    pub rows: Vec<Row>,
    /// Whether a scope beside the global one is open.
    pub is_open: bool,
    pub printed: Printed,
}

impl<'a> Drop for RootState<'a> {
    fn drop(self) {
        let RootState {
            env: _env,
            gathered: _gathered,
        } = self;
    }
}

impl<'a> Drop for Accumulator<'a> {
    fn drop(self) {
        let Accumulator {
            findings: _findings,
            rows: _rows,
            listed: _listed,
        } = self;
    }
}

impl<'a> RootState<'a> {
    /// Before the first of so many units, where this is found in the events.
    pub fn new(
        alloc: Global,
        findings: Vec<EventFinding>,
        count: usize,
    ) -> Result<RootState<'a>, AllocError>
        ensures { IfOk result (λ judging.
            held judging
            ≡ record { facts = []; found = findings.items; rows = []; listed = [] }) }
    {
        let rows = Vec::with_capacity(alloc, count)?;
        let listed = Vec::with_capacity(alloc, count)?;
        let env = Env::new(alloc)?;
        Ok(RootState {
            env,
            gathered: Accumulator {
                findings,
                rows,
                listed,
            },
        })
    }

    /// After these units, of which nothing is kept.
    pub fn with_all(self, alloc: Global, units: &'a [Unit]) -> Result<RootState<'a>, AllocError>
        ensures { IfOk result (λ judging. held judging ≡ to_come (held self.entry) units.now) }
    {
        let RootState {
            mut env,
            mut gathered,
        } = self;
        let mut scratch = Scratch::new(alloc);
        for unit in units {
            let added = gathered.add(alloc, &mut scratch, &env, unit)?;
            env = added.behind(env, &mut scratch.room)?;
        }
        Ok(RootState { env, gathered })
    }

    /// After these units, with their names. Nothing is kept of them.
    pub fn with_all_named(self, alloc: Global, units: &'a [Unit]) -> Result<Naming<'a>, AllocError>
        ensures judging { IfOk result (λ n.
            held n.judging ≡ to_come (held self.entry) units.now) }
        ensures units { IfOk result (λ n.
            map named_as n.units.items ≡ named_after self.entry.env units.now) }
    {
        let RootState {
            mut env,
            mut gathered,
        } = self;
        let mut named = Vec::with_capacity(alloc, units.len())?;
        let mut scratch = Scratch::new(alloc);
        for unit in units {
            let added = gathered.add_named(&mut named, &mut scratch, &env, unit)?;
            env = added.behind(env, &mut scratch.room)?;
        }
        Ok(Naming {
            judging: RootState { env, gathered },
            units: named,
        })
    }

    /// After these units, whose results are kept.
    pub fn with_all_kept(
        self,
        keeping: &mut Keeping<'_>,
        kept: &mut KeptTexts,
        units: &'a [Unit],
    ) -> Result<RootState<'a>, AllocError>
        requires keeping { IsKeeping kept.old.declarations.lists keeping.old self.env }
        requires told { AreTold self.env }
        requires drafts { HasDrafts kept.old }
        requires blocks { keeping.old.blocks.blocks ≡ [] }
        ensures held { IfOk result (λ judging. held judging ≡ to_come (held self.entry) units.now) }
        ensures kept { let pieces = cut (text_of units.now) in
            OnOk result (kept.new ≡ with_kept kept.old self.entry.env pieces) }
        ensures lists { AreListsOf kept.old kept.new }
        ensures marks { OnOk result
            (keeping.new.marks.items ≡ keeping.old.marks.items ++ marks_of units.now) }
        ensures keeping { IfOk result (λ judging.
            IsKeeping kept.new.declarations.lists keeping.new judging.env) }
        ensures earlier { keeping.new.earlier ≡ keeping.old.earlier }
        ensures counts { let places = declarations_over self.entry.env (text_of units.now) in
            OnOk result (IsDeclarationPass places (results_in kept.old.declarations)
            (results_in kept.new.declarations)
            keeping.old.meter.checked keeping.new.meter.checked) }
        ensures others { OnOk result (ChecksOnly keeping.old.meter keeping.new.meter) }
        ensures blocks { OnOk result (keeping.new.blocks.blocks ≡ []) }
        ensures keys { let pieces = cut (text_of units.now) in
            OnOk result (keeping.old.keys ≤ most_compared → keeping.new.keys
            ≡ compared_after keeping.old.keys (outermost_keys self.entry.env pieces)) }
        ensures compared { let pieces = cut (text_of units.now) in
            OnOk result (Compares self.entry.env pieces kept.old
            keeping.old.meter keeping.new.meter) }
    {
        let RootState { env, mut gathered } = self;
        let env = gathered.add_all(keeping, kept, PlainEnv::of(env), units)?;
        Ok(RootState {
            env: env.into_env(),
            gathered,
        })
    }

    /// What came of all units, and of their names. Its environment is held for now.
    pub fn ended(self, memory: &mut Memory, printed: Printed) -> Ended
        requires findings { printed.findings.items
            ≡ flat_map (closing_finding self.env) (held self).listed }
        requires rows { printed.rows.items ≡ flat_map (entry_row self.env) (held self).listed }
        ensures { IsEnded result (held self.entry) }
    {
        let RootState { env, gathered } = self;
        let is_open = is_open(&env);
        memory.hold(env);
        gathered.ended(is_open, printed)
    }
}

impl<'a> Accumulator<'a> {
    // What came of all units, with that of their names.
    fn ended(self, is_open: bool, printed: Printed) -> Ended
        ensures found { result.findings ≡ self.entry.findings }
        ensures rows { result.rows ≡ self.entry.rows }
        ensures scopes { result.is_open ≡ is_open }
        ensures printed { result.printed ≡ printed }
    {
        let Accumulator {
            findings,
            rows,
            listed: _listed,
        } = self;
        Ended {
            findings,
            rows,
            is_open,
            printed,
        }
    }

    // Puts in what comes of one unit more over these facts; what it adds to them.
    pub(crate) fn add(
        &mut self,
        alloc: Global,
        scratch: &mut Scratch,
        env: &Env,
        unit: &'a Unit,
    ) -> Result<Added, AllocError>
        ensures added { IfOk result (λ a. told_by a ≡ added env.now unit.now) }
        ensures gathered { OnOk result ((facts : List UnitFacts)
            → with_gathered facts self.new
            ≡ with_units (with_gathered facts self.old) (judged_at env.now unit.now)) }
    {
        match unit {
            Unit::Spelled(text, sites) => {
                let verdict = verdict_over(scratch, env, text)?;
                self.add_verdict(alloc, Spelled { text, sites }, &verdict)?;
                Ok(Added::Given(verdict.into_writes()))
            }
            Unit::Entered(_file, inside) => {
                Ok(Added::Given(boundary(alloc, Mark::Entered(*inside))?))
            }
            Unit::Left(_file, inside) => Ok(Added::Given(boundary(alloc, Mark::Left(*inside))?)),
            Unit::End => Ok(Added::Nothing),
        }
    }

    // The same, where its result is kept.
    pub(crate) fn add_kept(
        &mut self,
        keeping: &mut Keeping<'_>,
        kept: &mut KeptTexts,
        env: &Env,
        unit: &'a Unit,
    ) -> Result<Added, AllocError>
        requires keeping { IsKeeping kept.old.declarations.lists keeping.old env.now }
        requires drafts { HasDrafts kept.old }
        ensures added { IfOk result (λ a. told_by a ≡ added env.now unit.now) }
        ensures gathered { OnOk result ((facts : List UnitFacts)
            → with_gathered facts self.new
            ≡ with_units (with_gathered facts self.old) (judged_at env.now unit.now)) }
        ensures lists { AreListsOf kept.old kept.new }
        ensures earlier { keeping.new.earlier ≡ keeping.old.earlier }
        ensures passed { OnOk result (ArePassed env.now (in_front (parts_of_unit unit.now) Nothing)
            kept.old keeping.old kept.new keeping.new) }
        ensures compared { OnOk result (Compares env.now (in_front (parts_of_unit unit.now) Nothing)
            kept.old keeping.old.meter keeping.new.meter) }
    {
        passing::<Env, DeclarationTask>();
        placement::<Env, DeclarationTask>();
        noting();
        match unit {
            Unit::Spelled(text, sites) => {
                let declaration = keeping.judge(kept, env, text)?;
                let verdict = kept_verdict(&declaration);
                self.add_verdict(env.alloc(), Spelled { text, sites }, verdict)?;
                Ok(Added::Kept(declaration))
            }
            Unit::Entered(_file, inside) => Ok(crossed(keeping, env, Mark::Entered(*inside))?),
            Unit::Left(_file, inside) => Ok(crossed(keeping, env, Mark::Left(*inside))?),
            Unit::End => Ok(Added::Nothing),
        }
    }

    // Puts in what comes of a unit with this verdict.
    #[inline(always)]
    pub(crate) fn add_verdict(
        &mut self,
        alloc: Global,
        unit: Spelled<'a>,
        verdict: &Verdict,
    ) -> Result<(), AllocError>
        ensures { OnOk result ((facts : List UnitFacts)
            → with_gathered facts self.new
            ≡ with_judged (with_gathered facts self.old) (record {
              text = unit.entry.text.now;
              sites = unit.entry.sites.now;
              verdict = verdict.now;
            })) }
    {
        push_fault(alloc, &mut self.findings, unit, verdict.fault)?;
        push_row(&mut self.rows, &verdict.row)?;
        push_listed(&mut self.listed, unit, verdict.writes.get())
    }
}

// Whether a scope beside the global one is open.
fn is_open(env: &Env) -> bool
    ensures { result ≡ is_open env.now }
{
    let none = OpenScopes::none();
    scopes_in(env.answer(&DigestedKey::cursor()), &none).len() > 1
}

// What a file boundary adds, beside what was kept.
pub(crate) fn crossed(keeping: &mut Keeping<'_>, env: &Env, mark: Mark) -> Result<Added, AllocError>
    requires { IsBoundary mark }
    ensures added { IfOk result (λ a. told_by a ≡ added_by (mark ∷ []) []) }
    ensures keeping { IfOk result (λ a. (lists : List (List DeclarationResult))
        → IsKeeping lists keeping.old env.now
        → IsKeeping lists keeping.new (env.now ++ added_by (mark ∷ []) [])) }
    ensures marks { OnOk result
        (keeping.new.marks.items ≡ keeping.old.marks.items ++ mark ∷ []) }
    ensures rest { WalksOnly keeping.old keeping.new }
{
    let facts = boundary(env.alloc(), mark)?;
    keeping.cross(env, mark, facts.get())?;
    Ok(Added::Given(facts))
}

// What a file boundary adds.
fn boundary(alloc: Global, mark: Mark) -> Result<Writes, AllocError>
    requires { IsBoundary mark }
    ensures { IfOk result (λ writes. added_by (mark ∷ []) [] ≡ writes ∷ []) }
{
    let mut facts = Facts::new(alloc);
    facts.then(step_of(mark));
    Writes::new(alloc, facts)
}

// How a file boundary changes the files entered.
fn step_of(mark: Mark) -> Step
    requires { IsBoundary mark }
    ensures { added_by (mark ∷ []) [] ≡ boundary result ∷ [] }
{
    match mark {
        Mark::Left(_) => Step::Leaves,
        Mark::Entered(_) | Mark::Judged => Step::Enters,
    }
}

// The verdict of a text over facts. What it asks is not kept.
pub(crate) fn verdict_over(
    scratch: &mut Scratch,
    env: &Env,
    text: &UnitText,
) -> Result<Verdict, AllocError>
    ensures { IfOk result (λ verdict. verdict ≡ verdict_over env.now text.now) }
{
    verdict_of(scratch, env, &mut Journal::told(), text)
}

// Puts in the row of a unit, if it has one.
fn push_row(rows: &mut Vec<Row>, row: &Option<Row>) -> Result<(), AllocError>
    ensures { OnOk result (rows.new.items ≡ rows.old.items ++ option_to_list row.now) }
{
    if let Some(row) = row {
        rows.push(row.clone()?)?;
    }
    Ok(())
}
