//! The compilation of a root.

ghost use Rattle.std.specs.Prelude.{◌≡◌, ◌⊎◌, ◌++◌, IfNone, IfOk, IfSome, List, None, OnOk, Some};
ghost use Rattle.std.specs.Option.{unwrap_or};
ghost use Rattle.idl_event.specs.declared.told.event.Event.{Event};
ghost use Rattle.idl_root.specs.AsBefore.{AreAsBefore, AreListsLeft, IsAsBefore, IsCompiledOf, IsMade, kept_lists};
ghost use Rattle.idl_root.specs.Compile.{compile, findings_told, has_error, open_finding, rows_beside};
ghost use Rattle.idl_root.specs.Held.{told_of};
ghost use Rattle.idl_root.specs.Results.{ExpandsNone, IsKeptOf, root_marks};
ghost use Rattle.idl_root.specs.Turns.{FitsU64};
ghost use Rattle.idl_unit.specs.Units.{units_of};

use crate::compiling::judging::{Ended, RootState};
use crate::compiling::memory::Memory;
use crate::compiling::passing::bound;
use crate::compiling::printing::{Printed, print_all};
use crate::kept::again::{Again, are_as_before};
use crate::kept::course::Course;
use crate::kept::keeper::Keeper;
use crate::kept::keeping::Keeping;
use crate::kept::marks::Marks;
use crate::kept::printing::Printing;
use idl_base::{Bytes, Seq, Shared};
use idl_event::Expansion;
use idl_fault::{Code, Place};
use idl_finding::{EventFinding, Finding, event_findings, in_order, push_numbered, rows_of};
use idl_memo::Meter;
use idl_unit::{Unit, split};
use std::alloc::{AllocError, Global};
use std::rc::Rc;

/// A row of diagnostics, of a listing or of a dump, whose bytes are shared: a line of text without its newline.
pub type Row = Bytes;

/// What compiling a root gives: what is found in it, a row of its diagnostics each, and the rows of its listing and its dump, which
/// are empty where an error is among that.
pub struct Compiled {
    pub findings: Seq<Finding>,
    pub diagnostics: Seq<Row>,
    pub listing: Shared<Seq<Row>>,
    pub dump: Shared<Seq<Row>>,
    /// Whether one of the diagnostics is an error. Others are warnings.
    pub is_faulty: bool,
    /// Whether a scope is open at the end: one of the diagnostics says so.
    pub is_open: bool,
}

impl Drop for Compiled {
    fn drop(self) {
        let Compiled {
            findings: _findings,
            diagnostics: _diagnostics,
            listing: _listing,
            dump: _dump,
            is_faulty: _is_faulty,
            is_open: _is_open,
        } = self;
    }
}

/// A root whose results are kept, as it was when it was compiled last: its place among all roots, what its units were, and what it
/// compiled to, if it was.
#[derive(Clone, Copy)]
pub struct RootBefore<'a> {
    pub at: usize,
    pub marks: &'a Rc<Marks>,
    pub compiled: Option<&'a Compiled>,
}

/// What compiling it gives, and what its units are, unless they are as they were.
#[derive(Drop)]
pub struct RootAfter {
    pub compiled: Compiled,
    pub marks: Option<Marks>,
}

/// What is found in a root: in its events and its units, whether a scope is open at its end, and what is declared ahead and never
/// defined.
#[derive(Drop)]
struct RootFindings {
    findings: Vec<EventFinding>,
    is_open: bool,
    closing: Vec<EventFinding>,
}

/// Compiles what a root expands to, where its last line is this place. Nothing is kept.
///
/// The diagnostics stand in the order of the events that they name: a fault of the preprocessor has one, and so has a unit
/// with a fault, at the token where it is decided. Behind them stands E23 where a scope is open at the end, and then what is
/// declared ahead and never defined, in the order of the listing. The verdicts are taken with as many turns as the facts need.
#[tactic(auto, unfolding(crate::specs::Compile::compile))]
pub fn compile(
    memory: &mut Memory,
    end: &Place,
    expansion: &Expansion,
) -> Result<Compiled, AllocError>
    ensures compiled { IfOk result (λ compiled. compiled ≡ compile end.now expansion.now) }
    ensures within { OnOk result (FitsU64 expansion.now) }
{
    memory.clear();
    let alloc = memory.alloc();
    let units = split(alloc, expansion)?;
    let findings = event_findings(alloc, expansion)?;
    let first = RootState::new(alloc, findings, units.as_slice().len())?;
    let judging = first.with_all(alloc, units.as_slice())?;
    bound(&judging.env);
    let printed = print_all(alloc, &judging.env, judging.gathered.listed.as_slice())?;
    told(alloc, end, expansion, judging.ended(memory, printed))
}

/// The same of a last line and an expansion, where the results of the declarations and the entries are kept: those that hold are taken
/// again, and what is made of the root waits to be put in place. Where its units are as they were, all that is kept of them holds, and
/// nothing is made.
///
/// After want of memory nothing is said of the meter, and there may be drafts more.
pub fn compile_kept(
    keeper: &mut Keeper,
    before: RootBefore<'_>,
    source: (&Place, &Expansion),
    meter: &mut Meter,
) -> Result<RootAfter, AllocError>
    requires { (was : List Event) × IsKeptOf was before.marks.now.value
        (kept_lists keeper.old before.at)
        × IfSome before.compiled (λ compiled. IsCompiledOf was compiled.now) }
    ensures compiled { IfOk result (λ r.
        r.compiled ≡ compile source.entry.0.now source.entry.1.now) }
    ensures within { OnOk result (FitsU64 source.entry.1.now) }
    ensures marks { IfOk result (λ r. unwrap_or r.marks before.entry.marks.now.value
        ≡ root_marks source.entry.1.now) }
    ensures tasks { OnOk result ((was : List Event) → IsKeptOf was before.entry.marks.now.value
        (kept_lists keeper.old before.entry.at)
        → IsAsBefore was source.entry.1.now keeper.old keeper.new meter.old meter.new
        ⊎ IsMade source.entry.1.now before.entry.at keeper.old keeper.new
        meter.old meter.new) }
    ensures first { OnOk result (IfNone before.entry.compiled (IsMade source.entry.1.now
        before.entry.at keeper.old keeper.new meter.old meter.new)) }
    ensures lists { AreListsLeft keeper.old keeper.new }
    ensures others { OnOk result (ExpandsNone meter.old meter.new) }
{
    let (end, expansion) = source;
    let units = split(keeper.alloc(), expansion)?;
    let source = (end, expansion, units.as_slice());
    if let Some(compiled) = compiled_again(keeper, before, source)? {
        meter.compare(before.marks.keys());
        return Ok(RootAfter {
            compiled,
            marks: None,
        });
    }
    Ok(compile_anew(keeper, before, source, meter)?)
}

// What the root compiles to, if its units are as they were and it has an error where it had one: then the rows of its listing and
// its dump are those of before, and what is found in its units is found where they stand now. A source is a last line, an expansion, and
// the units in it.
fn compiled_again(
    keeper: &Keeper,
    before: RootBefore<'_>,
    source: (&Place, &Expansion, &[Unit]),
) -> Result<Option<Compiled>, AllocError>
    requires units { source.2.now ≡ units_of source.1.now }
    requires kept { (was : List Event) × IsKeptOf was before.marks.now.value
        (kept_lists keeper.now before.at)
        × IfSome before.compiled (λ compiled. IsCompiledOf was compiled.now) }
    ensures compiled { IfOk result (λ found. IfSome found (λ compiled.
        compiled ≡ compile source.entry.0.now source.entry.1.now)) }
    ensures same { IfOk result (λ found. IfSome found (λ compiled. (was : List Event)
        → IsKeptOf was before.entry.marks.now.value (kept_lists keeper.now before.entry.at)
        → AreAsBefore (units_of was) source.entry.2.now)) }
    ensures none { IfOk result (λ found. IfNone before.entry.compiled (found ≡ None)) }
{
    let Some(compiled) = before.compiled else {
        return Ok(None);
    };
    let earlier = Course::new(before.at, before.marks);
    if !are_as_before(keeper.texts.declarations(), earlier, source.2) {
        return Ok(None);
    }
    Ok(told_again(keeper, before, compiled, source)?)
}

// The same, where its units are as they were, and it compiled to that.
fn told_again(
    keeper: &Keeper,
    before: RootBefore<'_>,
    compiled: &Compiled,
    source: (&Place, &Expansion, &[Unit]),
) -> Result<Option<Compiled>, AllocError>
    requires units { source.2.now ≡ units_of source.1.now }
    requires kept { (was : List Event) × IsKeptOf was before.marks.now.value
        (kept_lists keeper.now before.at)
        × IsCompiledOf was compiled.now × AreAsBefore (units_of was) source.2.now }
    ensures { IfOk result (λ found. IfSome found (λ compiled.
        compiled ≡ compile source.entry.0.now source.entry.1.now)) }
{
    let alloc = keeper.alloc();
    let (end, expansion, units) = source;
    let findings = event_findings(alloc, expansion)?;
    let again = Again::new(alloc, findings).with_all(
        keeper.texts.declarations(),
        before.at,
        units,
    )?;
    let closing = again.closing(&keeper.entries, before.at)?;
    let found = RootFindings {
        findings: again.into_findings(),
        is_open: compiled.is_open,
        closing,
    };
    let findings = all_findings(alloc, end, expansion, found)?;
    let is_faulty = has_error(&findings);
    if is_faulty != compiled.is_faulty {
        return Ok(None);
    }
    let diagnostics = rows_of(alloc, &findings)?;
    Ok(Some(Compiled {
        findings: Seq::from_vec(findings),
        diagnostics: Seq::from_vec(diagnostics),
        listing: compiled.listing.clone()?,
        dump: compiled.dump.clone()?,
        is_faulty,
        is_open: compiled.is_open,
    }))
}

// What comes of the root, of which these are the units: they are judged one after another, beside what is kept.
#[tactic(auto, unfolding(crate::specs::Compile::compile))]
fn compile_anew(
    keeper: &mut Keeper,
    before: RootBefore<'_>,
    source: (&Place, &Expansion, &[Unit]),
    meter: &mut Meter,
) -> Result<RootAfter, AllocError>
    requires units { source.2.now ≡ units_of source.1.now }
    requires kept { (was : List Event) × IsKeptOf was before.marks.now.value
        (kept_lists keeper.old before.at) }
    ensures compiled { IfOk result (λ r.
        r.compiled ≡ compile source.entry.0.now source.entry.1.now) }
    ensures within { OnOk result (FitsU64 source.entry.1.now) }
    ensures marks { IfOk result (λ r. r.marks ≡ Some (root_marks source.entry.1.now)) }
    ensures made { OnOk result (IsMade source.entry.1.now before.entry.at
        keeper.old keeper.new meter.old meter.new) }
    ensures lists { AreListsLeft keeper.old keeper.new }
    ensures others { OnOk result (ExpandsNone meter.old meter.new) }
{
    keeper.memory.clear();
    let alloc = keeper.alloc();
    let (end, expansion, units) = source;
    let count = units.len().saturating_sub(1);
    let findings = event_findings(alloc, expansion)?;
    let first = RootState::new(alloc, findings, count)?;
    let earlier = Course::new(before.at, before.marks);
    let mut keeping = Keeping::new(alloc, earlier, count, *meter)?;
    keeper.begin(before.at)?;
    let judging = first.with_all_kept(&mut keeping, &mut keeper.texts, units)?;
    bound(&judging.env);
    let (counted, keys) = (keeping.meter, keeping.keys);
    let names = keeper.entries.results(before.at);
    let (marks, reprinting) = keeping.ended(names, judging.gathered.listed.len());
    let mut printing = Printing::new(alloc, reprinting, counted);
    let listed = judging.gathered.listed.as_slice();
    let printed = printing.printed(&mut keeper.entries, &judging.env, listed)?;
    *meter = printing.meter;
    let ended = judging.ended(&mut keeper.memory, printed);
    let compiled = told(alloc, end, expansion, ended)?;
    let keys = keys.saturating_add(printing.keys);
    let marks = Marks::new(marks, keys);
    Ok(RootAfter {
        compiled,
        marks: Some(marks),
    })
}

// The rows of a root whose units and names are all done.
fn told(
    alloc: Global,
    end: &Place,
    expansion: &Expansion,
    ended: Ended,
) -> Result<Compiled, AllocError>
    ensures { IfOk result (λ compiled. compiled ≡ told_of end.now expansion.now ended) }
{
    let Ended {
        findings,
        rows,
        is_open,
        printed,
    } = ended;
    let Printed {
        findings: closing,
        rows: listing,
    } = printed;
    let found = RootFindings {
        findings,
        is_open,
        closing,
    };
    let findings = all_findings(alloc, end, expansion, found)?;
    let is_faulty = has_error(&findings);
    let diagnostics = rows_of(alloc, &findings)?;
    Ok(Compiled {
        findings: Seq::from_vec(findings),
        diagnostics: Seq::from_vec(diagnostics),
        listing: Shared::new(alloc, rows_beside(alloc, is_faulty, listing))?,
        dump: Shared::new(alloc, rows_beside(alloc, is_faulty, rows))?,
        is_faulty,
        is_open,
    })
}

// All that is found in a root, in the order in which it is told.
fn all_findings(
    alloc: Global,
    end: &Place,
    expansion: &Expansion,
    found: RootFindings,
) -> Result<Vec<Finding>, AllocError>
    ensures { IfOk result (λ findings. findings.items
        ≡ findings_told end.now expansion.now found.findings.items found.is_open
        found.closing.items) }
{
    let mut findings = Vec::new(alloc);
    push_numbered(alloc, &mut findings, expansion, &in_order(found.findings)?)?;
    push_open(&mut findings, end, found.is_open)?;
    push_numbered(alloc, &mut findings, expansion, &found.closing)?;
    Ok(findings)
}

// Puts in that a scope is open at the end, if one is.
fn push_open(findings: &mut Vec<Finding>, end: &Place, is_open: bool) -> Result<(), AllocError>
    ensures { OnOk result
        (findings.new.items ≡ findings.old.items ++ open_finding end.now is_open) }
{
    if is_open {
        findings.push(Finding {
            place: end.clone()?,
            code: Code::OpenScope,
            text: None,
            number: None,
        })?;
    }
    Ok(())
}

// Rows, beside an error none.
fn rows_beside(alloc: Global, is_faulty: bool, rows: Vec<Row>) -> Seq<Row>
    ensures { result ≡ rows_beside is_faulty rows.items }
{
    if is_faulty {
        Seq::new(alloc)
    } else {
        Seq::from_vec(rows)
    }
}

// Whether one of them is an error.
fn has_error(findings: &[Finding]) -> bool
    ensures { result ≡ has_error findings.now }
{
    findings.iter().any(|finding| finding.code.is_error())
}
