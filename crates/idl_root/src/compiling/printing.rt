//! The names of a root that have an id, and what comes of them at its end.

ghost use Rattle.std.specs.Prelude.{◌≡◌, ◌∷◌, ◌++◌, [], All, IfOk, IfSome, OnOk, flat_map, map, option_to_list};
ghost use Rattle.std.specs.Option.{option_copied, option_map};
ghost use Rattle.idl_base.specs.Spans.{AreWithin, pieces};
ghost use Rattle.idl_finding.specs.Findings.{fault_finding};
ghost use Rattle.idl_root.specs.Held.{listed_at};
ghost use Rattle.idl_root.specs.Printed.{closing_finding, entry_over, entry_row, first_paths, listed_with, name_index, sought_finding, sought_row};
ghost use Rattle.idl_unit.specs.TokenRules.{fault_at};

use crate::compiling::compiled::Row;
use idl_base::{ByteRange, push_texts};
use idl_entity::Path;
use idl_env::{Addition, Env, Facts};
use idl_fault::Code;
use idl_finding::{EventFinding, Spelled, push_fault};
use idl_repo::{Answered, Entry, Pushed};
use idl_unit::{Fault, UnitText};
use std::alloc::{AllocError, Global};

/// A name that has an id: its path, and the unit that declares it first.
pub struct Listed<'a> {
    pub path: Path,
    pub unit: Spelled<'a>,
}

/// What comes of names: what is wrong with them, and the rows of a listing.
#[derive(Drop)]
pub struct Printed {
    pub findings: Vec<EventFinding>,
    pub rows: Vec<Row>,
}

impl<'a> Drop for Listed<'a> {
    fn drop(self) {
        let Listed {
            path: _path,
            unit: _unit,
        } = self;
    }
}

/// Puts in the names that a unit declares first, of those that have an id.
pub fn push_listed<'a>(
    listed: &mut Vec<Listed<'a>>,
    unit: Spelled<'a>,
    writes: &Facts,
) -> Result<(), AllocError>
    ensures { OnOk result
        (map listed_at listed.new.items
        ≡ map listed_at listed.old.items
        ++ listed_with unit.entry.text.now unit.entry.sites.now
        (first_paths writes.now.additions)) }
{
    for index in 0..writes.len() {
        let Some(addition) = writes.addition(index) else {
            continue;
        };
        push_name(listed, unit, addition)?;
    }
    Ok(())
}

// Puts in the name that an addition of a unit declares first, if it has an id.
fn push_name<'a>(
    listed: &mut Vec<Listed<'a>>,
    unit: Spelled<'a>,
    addition: &Addition,
) -> Result<(), AllocError>
    ensures { OnOk result
        (map listed_at listed.new.items
        ≡ map listed_at listed.old.items
        ++ listed_with unit.entry.text.now unit.entry.sites.now
        (first_paths (addition.now ∷ []))) }
{
    if let Some(path) = first_path(addition) {
        let path = path.clone()?;
        listed.push(Listed { path, unit })?;
    }
    Ok(())
}

// The path of a name that has an id, where it is declared first.
fn first_path(addition: &Addition) -> Option<&Path>
    ensures { option_to_list (option_copied result) ≡ first_paths (addition.now ∷ []) }
{
    match addition {
        Addition::Appears(path, _) => Some(path),
        _ => None,
    }
}

// So many names are looked up before the first of their rows is written. Their rows share one block of memory.
const AHEAD: usize = 16;

// A name that is looked up, and the unit that declares it first.
struct Sought<'e> {
    answered: Answered<'e>,
    unit: Spelled<'e>,
}

impl<'e> Drop for Sought<'e> {
    fn drop(self) {
        let Sought {
            answered: _answered,
            unit: _unit,
        } = self;
    }
}

// Rows that are written one behind another, and where each of them stands.
struct RowBuffer {
    bytes: Vec<u8>,
    spans: Vec<ByteRange>,
}

impl Drop for RowBuffer {
    fn drop(self) {
        let RowBuffer {
            bytes: _bytes,
            spans: _spans,
        } = self;
    }
}

/// What comes of each of these names over an environment. Nothing is kept of them.
pub fn print_all(alloc: Global, env: &Env, listed: &[Listed<'_>]) -> Result<Printed, AllocError>
    ensures findings { IfOk result (λ printed. printed.findings.items
        ≡ flat_map (closing_finding env.now) (map listed_at listed.now)) }
    ensures rows { IfOk result (λ printed. printed.rows.items
        ≡ flat_map (entry_row env.now) (map listed_at listed.now)) }
{
    let mut printed = Printed::new(alloc, listed.len())?;
    let mut written = RowBuffer::new(alloc)?;
    let mut sought = Vec::with_capacity(alloc, AHEAD)?;
    for name in listed {
        let answered = Answered::of(env, &name.path)?;
        let unit = name.unit;
        sought.push(Sought { answered, unit })?;
        printed.add_full(alloc, &mut written, &mut sought)?;
    }
    printed.add_all(alloc, &mut written, &sought)?;
    Ok(printed)
}

impl Printed {
    // Before the first of so many names.
    pub(crate) fn new(alloc: Global, count: usize) -> Result<Printed, AllocError>
        ensures findings { IfOk result (λ printed. printed.findings.items ≡ []) }
        ensures rows { IfOk result (λ printed. printed.rows.items ≡ []) }
    {
        Ok(Printed {
            findings: Vec::new(alloc),
            rows: Vec::with_capacity(alloc, count)?,
        })
    }

    // What comes of these names more, if they are as many as are looked up together: then none is left.
    fn add_full(
        &mut self,
        alloc: Global,
        written: &mut RowBuffer,
        sought: &mut Vec<Sought<'_>>,
    ) -> Result<(), AllocError>
        ensures findings { OnOk result
            (self.new.findings.items ++ flat_map sought_finding sought.new.items
            ≡ self.old.findings.items ++ flat_map sought_finding sought.old.items) }
        ensures rows { OnOk result
            (self.new.rows.items ++ flat_map sought_row sought.new.items
            ≡ self.old.rows.items ++ flat_map sought_row sought.old.items) }
    {
        if sought.len() >= AHEAD {
            self.add_all(alloc, written, sought)?;
            sought.clear();
        }
        Ok(())
    }

    // What comes of these names more. Their rows share one block of memory.
    fn add_all(
        &mut self,
        alloc: Global,
        written: &mut RowBuffer,
        sought: &[Sought<'_>],
    ) -> Result<(), AllocError>
        ensures findings { OnOk result
            (self.new.findings.items
            ≡ self.old.findings.items ++ flat_map sought_finding sought.now) }
        ensures rows { OnOk result
            (self.new.rows.items ≡ self.old.rows.items ++ flat_map sought_row sought.now) }
    {
        written.clear(room_of(sought))?;
        for name in sought {
            let fault = written.push(&name.answered)?;
            push_closing(alloc, &mut self.findings, name.unit, fault)?;
        }
        push_texts(&mut self.rows, &written.bytes, &written.spans)
    }

    // What comes of one name more, which that unit declares first.
    pub(crate) fn add(
        &mut self,
        alloc: Global,
        unit: Spelled<'_>,
        entry: &Entry,
    ) -> Result<(), AllocError>
        ensures findings { OnOk result
            (self.new.findings.items
            ≡ self.old.findings.items
            ++ fault_finding unit.entry.text.now unit.entry.sites.now
            (option_map (fault_at (name_index unit.entry.text.now)) entry.now.fault)) }
        ensures rows { OnOk result
            (self.new.rows.items ≡ self.old.rows.items ++ option_to_list entry.now.row) }
    {
        push_closing(alloc, &mut self.findings, unit, entry.fault)?;
        if let Some(row) = &entry.row {
            self.rows.push(row.clone()?)?;
        }
        Ok(())
    }
}

impl RowBuffer {
    // No rows.
    fn new(alloc: Global) -> Result<RowBuffer, AllocError>
        ensures { IfOk result (λ written. written.spans.items ≡ []) }
    {
        Ok(RowBuffer {
            bytes: Vec::new(alloc),
            spans: Vec::with_capacity(alloc, AHEAD)?,
        })
    }

    // No rows any more, but so much room for others.
    fn clear(&mut self, room: usize) -> Result<(), AllocError>
        ensures { OnOk result (self.new.spans.items ≡ []) }
    {
        self.bytes.clear();
        self.spans.clear();
        self.bytes.reserve(room)
    }

    // Writes the row of a name more, if it has one. It gives what is wrong with the name.
    fn push(&mut self, name: &Answered<'_>) -> Result<Option<Code>, AllocError>
        requires { AreWithin self.old.bytes.items self.old.spans.items }
        ensures within { OnOk result (AreWithin self.new.bytes.items self.new.spans.items) }
        ensures rows { OnOk result
            (pieces self.new.bytes.items self.new.spans.items
            ≡ pieces self.old.bytes.items self.old.spans.items
            ++ option_to_list (entry_over name.now.0 name.now.1).row) }
        ensures fault { IfOk result (λ fault. fault ≡ (entry_over name.now.0 name.now.1).fault) }
    {
        let from = self.bytes.len();
        let Pushed { has_row, fault } = name.push_entry(&mut self.bytes)?;
        if has_row {
            let to = self.bytes.len();
            self.spans.push(ByteRange { from, to })?;
        }
        Ok(fault)
    }
}

/// Puts in what is wrong at the end with a name that a unit declares first, if anything is.
pub fn push_closing(
    alloc: Global,
    findings: &mut Vec<EventFinding>,
    unit: Spelled<'_>,
    fault: Option<Code>,
) -> Result<(), AllocError>
    ensures { OnOk result
        (findings.new.items
        ≡ findings.old.items
        ++ fault_finding unit.entry.text.now unit.entry.sites.now
        (option_map (fault_at (name_index unit.entry.text.now)) fault)) }
{
    let Some(code) = fault else {
        return Ok(());
    };
    let index = name_index(unit.text);
    push_fault(alloc, findings, unit, Some(Fault { index, code }))
}

// How much room rows of these names take, roughly. What is known of the names is touched by it, first each by itself and then
// what stands behind it, so that all of it comes from memory together.
fn room_of(sought: &[Sought<'_>]) -> usize {
    let mut room: usize = 0;
    for name in sought {
        room = room.saturating_add(name.answered.word_room());
    }
    for name in sought {
        room = room.saturating_add(name.answered.parts_room());
    }
    room
}

// The number of the token before the last: of what is declared ahead, its name.
fn name_index(text: &UnitText) -> usize
    ensures { result ≡ name_index text.now }
{
    let count = match text {
        UnitText::Tokens(run) => run.as_slice().len(),
        UnitText::Pragma(tokens, _inside) => tokens.as_slice().len(),
    };
    count.saturating_sub(2)
}
