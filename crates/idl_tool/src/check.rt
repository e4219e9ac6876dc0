//! What is found in files, for who reads it: each finding is told once, with its line.

ghost use Rattle.std.specs.Prelude.{◌≡◌, ◌≤◌, ◌<◌, ◌+◌, ◌-◌, ◌++◌, ◌^◌, [], IfOk, List, OnErr, OnOk, filter, flat_map, if◌then◌else◌, length, map};
ghost use Rattle.std.specs.List.{zip};
ghost use Rattle.std.specs.Option.{option_copied};
ghost use Rattle.idl_explain.specs.declared.explanation.Explanation.{Explanation};
ghost use Rattle.idl_driver.specs.Rows.{are_faulty};
ghost use Rattle.idl_driver.specs.Written.{WritesSome};
ghost use Rattle.idl_loader.specs.declared.status.Status.TheVariants.{Faulty, Sound};
ghost use Rattle.idl_driver.specs.idl_sources.Compile.{compiled_root};
ghost use Rattle.idl_tool.specs.Checked.{AreReported, AreReportsWritten, AreToldOf, Explains, IsChecked, IsReportText, IsToldOf, Told, all_of, are_faults, column_of, entry_text, in_order, is_fault, is_of, line_at, numbered_line, report_in, seconds_in};
ghost use Rattle.idl_tool.specs.ToldAt.{told_at};

use crate::failure::ToolFailure;
use crate::faults::{ended_by, troubles_text};
use crate::report::{LocatedFinding, push_second};
use crate::request::Check;
use idl_base::{Bytes, Seq};
use idl_driver::idl_sources::{CompiledRoot, Finding, Sources, related_over};
use idl_driver::{Devices, SoundFiles, compile_sound_files};
use idl_explain::{Topic, explanation_of};
use idl_fault::Place;
use idl_inputs::Columns;
use idl_loader::{Loader, Status};
use idl_related::{Related, follows};
use idl_source::devices::write_all;
use idl_source::{Line, Name, Sink};
use indexmap::IndexMap;
use std::alloc::{AllocError, Global};
use std::mem::forget;

/// Writes a report of each finding of these files, and what several of them tell alike once.
pub fn check<'a, L: Loader, S, O: Sink, E: Sink>(
    alloc: Global,
    asked: &Check<'a>,
    devices: &mut Devices<L, S, O, E>,
) -> Result<Status, ToolFailure<'a>>
    requires writes { O.failures devices.old.output < 2 ^ 64 - 1 }
    requires tells { E.failures devices.old.errors < 2 ^ 64 - 2 }

    ensures checked { IfOk result (λ status. IsChecked (L.told devices.old.loader) asked.now
        (record { errors = E.written devices.old.errors; output = O.written devices.old.output })
        (record { errors = E.written devices.new.errors; output = O.written devices.new.output })
        status) }
    ensures well { OnOk result
        ((O.failures devices.new.output ≡ O.failures devices.old.output)
        × (E.failures devices.new.errors ≡ E.failures devices.old.errors)) }
    ensures most { E.failures devices.new.errors ≤ E.failures devices.old.errors + 1 }
    ensures least { E.failures devices.old.errors ≤ E.failures devices.new.errors }
    ensures until { OnErr result
        (WritesSome (E.written devices.old.errors) (E.written devices.new.errors)) }
{
    let all = compile_sound_files(alloc, &asked.options, &mut devices.loader)?;
    let status = write_reports(&all, asked.counts_warnings, devices);
    // The program ends here, and all memory goes back at once.
    forget(all);
    status
}

// Writes the reports of these files, and the trouble of others.
fn write_reports<'a, L: Loader, S, O: Sink, E: Sink>(
    all: &SoundFiles<'_>,
    counts_warnings: bool,
    devices: &mut Devices<L, S, O, E>,
) -> Result<Status, ToolFailure<'a>>
    requires compiled { all.now.sound.compiled.items
        ≡ map (compiled_root all.now.sound.sources) all.now.sound.roots.items }
    requires writes { O.failures devices.old.output < 2 ^ 64 - 1 }
    requires tells { E.failures devices.old.errors < 2 ^ 64 - 2 }

    ensures reported { IfOk result (λ status. AreReportsWritten counts_warnings all.now
        (record { errors = E.written devices.old.errors; output = O.written devices.old.output })
        (record { errors = E.written devices.new.errors; output = O.written devices.new.output })
        status) }
    ensures well { OnOk result
        ((O.failures devices.new.output ≡ O.failures devices.old.output)
        × (E.failures devices.new.errors ≡ E.failures devices.old.errors)) }
    ensures most { E.failures devices.new.errors ≤ E.failures devices.old.errors + 1 }
    ensures least { E.failures devices.old.errors ≤ E.failures devices.new.errors }
    ensures until { OnErr result
        (WritesSome (E.written devices.old.errors) (E.written devices.new.errors)) }
{
    let trouble = troubles_text(all.sound.sources.allocator(), all)?;
    let text = report_text(&all.sound.sources, &all.sound.roots, &all.sound.compiled)?;
    let status = ending_of(&all.sound.compiled, counts_warnings);
    let status = ended_by(all, status);
    write_all(&mut devices.errors, &trouble)?;
    write_all(&mut devices.output, &text)?;
    Ok(status)
}

/// The reports of what is found in these roots, each once.
pub(crate) fn report_text(
    sources: &Sources,
    roots: &[Name],
    compiled: &[CompiledRoot],
) -> Result<Vec<u8>, AllocError>
    requires { compiled.now ≡ map (compiled_root sources.now) roots.now }
    ensures { IfOk result (λ text. IsReportText sources.now roots.now text.items) }
{
    let reports = reports_of(sources, roots, compiled)?;
    joined(sources.allocator(), &reports)
}

// The reports of what is found in these roots, each once, with the lines behind it.
fn reports_of(
    sources: &Sources,
    roots: &[Name],
    compiled: &[CompiledRoot],
) -> Result<IndexMap<Bytes, Bytes>, AllocError>
    requires { compiled.now ≡ map (compiled_root sources.now) roots.now }
    ensures { IfOk result (λ reports. (told : List (List Told))
        × AreToldOf sources.now roots.now told
        × AreReported sources.now.files (all_of told) [] reports.entries) }
{
    let mut reports = IndexMap::new(sources.allocator());
    'roots: for index in 0..roots.len() {
        add_root(sources, &roots[index], &compiled[index], &mut reports)?;
    }
    Ok(reports)
}

// Puts in the reports of what is found in this root that aren't there.
fn add_root(
    sources: &Sources,
    root: &Name,
    compiled: &CompiledRoot,
    reports: &mut IndexMap<Bytes, Bytes>,
) -> Result<(), AllocError>
    requires { compiled.now ≡ compiled_root sources.now root.now }
    ensures { OnOk result ((told : List Told) × IsToldOf sources.now root.now told
        × AreReported sources.now.files told reports.old.entries reports.new.entries) }
{
    let findings = compiled.rows.findings.as_slice();
    let related = related_over(sources, root, findings)?;
    let told = told_of(sources.allocator(), findings, related.as_slice())?;
    let mut columns = sources.columns();
    add_reports(&mut columns, &told, reports)
}

// A finding with its second places.
#[derive(Clone, Copy)]
struct RelatedFinding<'a> {
    finding: &'a Finding,
    related: &'a [Related],
}

// These findings, each with its second places, those last that follow from an error elsewhere.
fn told_of<'f>(
    alloc: Global,
    findings: &'f [Finding],
    related: &'f [Seq<Related>],
) -> Result<Vec<RelatedFinding<'f>>, AllocError>
    requires { length related.now ≡ length findings.now }
    ensures { IfOk result (λ told.
        map told_at told.items ≡ in_order (zip findings.now related.now)) }
{
    let mut told = Vec::with_capacity(alloc, findings.len())?;
    push_those(findings, related, false, &mut told)?;
    push_those(findings, related, true, &mut told)?;
    Ok(told)
}

// Puts in those of them that follow from an error elsewhere, or the others.
fn push_those<'f>(
    findings: &'f [Finding],
    related: &'f [Seq<Related>],
    are_following: bool,
    told: &mut Vec<RelatedFinding<'f>>,
) -> Result<(), AllocError>
    requires { length related.now ≡ length findings.now }
    ensures { OnOk result (map told_at told.new.items ≡ map told_at told.old.items
        ++ filter (is_of are_following) (zip findings.entry.now related.entry.now)) }
{
    'findings: for index in 0..findings.len() {
        let one = RelatedFinding {
            finding: &findings[index],
            related: related[index].as_slice(),
        };
        if follows(one.related) != are_following {
            continue;
        }
        told.push(one)?;
    }
    Ok(())
}

// Puts in the reports of these findings that aren't there.
fn add_reports(
    columns: &mut Columns<'_>,
    told: &[RelatedFinding<'_>],
    reports: &mut IndexMap<Bytes, Bytes>,
) -> Result<(), AllocError>
    ensures { OnOk result (AreReported columns.old (map told_at told.entry.now)
        reports.old.entries reports.new.entries) }
{
    'findings: for one in told {
        let report = report_of(columns, *one)?;
        if reports.contains_key(&report) {
            continue;
        }
        let behind = behind_of(columns, one.related)?;
        reports.insert(report, behind)?;
    }
    Ok(())
}

// The report of a finding.
fn report_of(columns: &mut Columns<'_>, told: RelatedFinding<'_>) -> Result<Bytes, AllocError>
    ensures report { IfOk result (λ bytes. (explanation : Explanation)
        × Explains (told_at told.entry, explanation)
        × (bytes ≡ report_in columns.old (told_at told.entry, explanation))) }
    ensures same { columns.new ≡ columns.old }
{
    let finding = told.finding;
    let column = column_of(columns, finding)?;
    let found = LocatedFinding {
        finding,
        line: line_at(columns, &finding.place),
        column,
    };
    let mut text = Vec::new(columns.allocator());
    found.push(explanation_of(Topic::Code(finding.code)).words, &mut text)?;
    Bytes::from_vec(text)
}

// The lines behind it: its second places.
fn behind_of(columns: &mut Columns<'_>, related: &[Related]) -> Result<Bytes, AllocError>
    ensures seconds { IfOk result (λ bytes. bytes ≡ seconds_in columns.old related.now) }
    ensures same { columns.new ≡ columns.old }
{
    let mut text = Vec::new(columns.allocator());
    'related: for second in related {
        let column = columns.column(&second.place, second.number, second.text.as_bytes())?;
        push_second(second, column, &mut text)?;
    }
    Bytes::from_vec(text)
}

// The line of a place, if there is one.
fn line_at<'s>(columns: &Columns<'s>, place: &Place) -> Option<&'s [u8]>
    ensures { option_copied result ≡ line_at columns.now place.now }
{
    match columns.file(place.file.as_bytes()) {
        Some(lines) => numbered_line(lines, place.line),
        None => None,
    }
}

// The line with this number, from 1 on, if there is one.
fn numbered_line(lines: &[Line], number: u32) -> Option<&[u8]>
    ensures { option_copied result ≡ numbered_line lines.entry.now number }
{
    let index = number.checked_sub(1)?;
    let line = lines.get(index as usize)?;
    Some(line.as_bytes())
}

/// How many bytes of it are before the token that is found there, if there is one.
pub(crate) fn column_of(
    columns: &mut Columns<'_>,
    finding: &Finding,
) -> Result<Option<usize>, AllocError>
    ensures column { IfOk result (λ column. column ≡ column_of columns.old finding.now) }
    ensures same { columns.new ≡ columns.old }
{
    match &finding.text {
        Some(text) => columns.column(&finding.place, finding.number, text.as_bytes()),
        None => Ok(None),
    }
}

// These reports, each with what stands behind it, one after the other.
fn joined(alloc: Global, reports: &IndexMap<Bytes, Bytes>) -> Result<Vec<u8>, AllocError>
    ensures { IfOk result (λ text. text.items ≡ flat_map entry_text reports.now.entries) }
{
    let mut all = Vec::new(alloc);
    'reports: for (report, behind) in reports.iter() {
        all.extend_from_slice(report.as_bytes())?;
        all.extend_from_slice(behind.as_bytes())?;
    }
    Ok(all)
}

// How the program ends, by what is found in these roots, and whether warnings count.
fn ending_of(compiled: &[CompiledRoot], counts_warnings: bool) -> Status
    ensures { result ≡ (if are_faults counts_warnings compiled.now then Faulty else Sound) }
{
    'roots: for root in compiled {
        if is_fault(root, counts_warnings) {
            return Status::Faulty;
        }
    }
    Status::Sound
}

// Whether what is found in a root is a fault: an error, or anything where warnings count.
fn is_fault(root: &CompiledRoot, counts_warnings: bool) -> bool
    ensures { result ≡ is_fault counts_warnings root.now }
{
    root.rows.is_faulty || (counts_warnings && !root.rows.findings.as_slice().is_empty())
}

/// How the program ends, by the errors of these roots.
pub(crate) fn status_of(compiled: &[CompiledRoot]) -> Status
    ensures { result ≡ (if are_faulty compiled.now then Faulty else Sound) }
{
    'roots: for root in compiled {
        if root.rows.is_faulty {
            return Status::Faulty;
        }
    }
    Status::Sound
}
