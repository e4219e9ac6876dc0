//! What is told of files as JSON: an object a file, on a line each.

ghost use Rattle.std.specs.Prelude.{◌≡◌, ◌≤◌, ◌<◌, ◌+◌, ◌-◌, ◌^◌, ℕ, IfOk, List, OnErr, OnOk, length, map};
ghost use Rattle.std.specs.List.{AllZip, concat, zip};
ghost use Rattle.idl_json.specs.Diagnostic.{located, second_of};
ghost use Rattle.idl_json.specs.Listed.{place_of, row_of};
ghost use Rattle.idl_json.specs.Root.{IsRootLine};
ghost use Rattle.idl_driver.specs.Written.{WritesSome};
ghost use Rattle.idl_driver.specs.idl_sources.Compile.{compiled_root};
ghost use Rattle.idl_tool.specs.Json.{AreWritten, IsLineOf, IsLineWith, IsWritten, declared_in, listing_of, located_in, row_in, second_at, told_of};

use crate::check::{column_of, status_of};
use crate::failure::ToolFailure;
use crate::faults::{ended_by, troubles_text};
use idl_base::Seq;
use idl_driver::idl_sources::{
    CompiledRoot, DeclaredPlace, DetailedEntry, Details, Finding, SitedToken, Sources, related_over,
};
use idl_driver::{Devices, Options, SoundFiles, compile_sound_files};
use idl_inputs::Columns;
use idl_json::{Diagnostic, ListedRow, NamePlace, RootTold, SecondPlace, root_line};
use idl_loader::{Loader, Status};
use idl_related::Related;
use idl_source::devices::write_all;
use idl_source::{Name, Sink};
use std::alloc::{AllocError, Global};
use std::mem::forget;

/// Writes an object for each of these files, on a line.
pub fn write_json<'a, L: Loader, S, O: Sink, E: Sink>(
    alloc: Global,
    options: &Options<'a>,
    devices: &mut Devices<L, S, O, E>,
) -> Result<Status, ToolFailure<'a>>
    requires writes { O.failures devices.old.output < 2 ^ 64 - 1 }
    requires tells { E.failures devices.old.errors < 2 ^ 64 - 2 }

    ensures written { IfOk result (λ status. IsWritten (L.told devices.old.loader) options.now
        (record { errors = E.written devices.old.errors; output = O.written devices.old.output })
        (record { errors = E.written devices.new.errors; output = O.written devices.new.output })
        status) }
    ensures well { OnOk result
        ((O.failures devices.new.output ≡ O.failures devices.old.output)
        × (E.failures devices.new.errors ≡ E.failures devices.old.errors)) }
    ensures most { E.failures devices.new.errors ≤ E.failures devices.old.errors + 1 }
    ensures least { E.failures devices.old.errors ≤ E.failures devices.new.errors }
    ensures until { OnErr result
        (WritesSome (E.written devices.old.errors) (E.written devices.new.errors)) }
{
    let all = compile_sound_files(alloc, options, &mut devices.loader)?;
    let status = write_lines(&all, devices);
    // The program ends here, and all memory goes back at once.
    forget(all);
    status
}

// Writes the lines of these files, and the trouble of others.
fn write_lines<'a, L: Loader, S, O: Sink, E: Sink>(
    all: &SoundFiles<'_>,
    devices: &mut Devices<L, S, O, E>,
) -> Result<Status, ToolFailure<'a>>
    requires compiled { all.now.sound.compiled.items
        ≡ map (compiled_root all.now.sound.sources) all.now.sound.roots.items }
    requires writes { O.failures devices.old.output < 2 ^ 64 - 1 }
    requires tells { E.failures devices.old.errors < 2 ^ 64 - 2 }

    ensures written { IfOk result (λ status. AreWritten all.now
        (record { errors = E.written devices.old.errors; output = O.written devices.old.output })
        (record { errors = E.written devices.new.errors; output = O.written devices.new.output })
        status) }
    ensures well { OnOk result
        ((O.failures devices.new.output ≡ O.failures devices.old.output)
        × (E.failures devices.new.errors ≡ E.failures devices.old.errors)) }
    ensures most { E.failures devices.new.errors ≤ E.failures devices.old.errors + 1 }
    ensures least { E.failures devices.old.errors ≤ E.failures devices.new.errors }
    ensures until { OnErr result
        (WritesSome (E.written devices.old.errors) (E.written devices.new.errors)) }
{
    let trouble = troubles_text(all.sound.sources.allocator(), all)?;
    let text = lines_of(&all.sound.sources, &all.sound.roots, &all.sound.compiled)?;
    let status = status_of(&all.sound.compiled);
    let status = ended_by(all, status);
    write_all(&mut devices.errors, &trouble)?;
    write_all(&mut devices.output, &text)?;
    Ok(status)
}

// The lines of these roots, which compile to these.
fn lines_of(
    sources: &Sources,
    roots: &[Name],
    compiled: &[CompiledRoot],
) -> Result<Vec<u8>, AllocError>
    requires { compiled.now ≡ map (compiled_root sources.now) roots.now }
    ensures { IfOk result (λ text. (lines : List (List ℕ))
        × AllZip (IsLineOf sources.now) roots.now lines × (text.items ≡ concat lines)) }
{
    let mut text = Vec::new(sources.allocator());
    'roots: for index in 0..roots.len() {
        let line = line_of(sources, &roots[index], &compiled[index])?;
        text.extend_from_slice(&line)?;
    }
    Ok(text)
}

// The line of a root, which compiles to this.
fn line_of(sources: &Sources, root: &Name, compiled: &CompiledRoot) -> Result<Vec<u8>, AllocError>
    ensures { IfOk result (λ line.
        IsLineWith sources.now root.now compiled.now line.items) }
{
    let findings = compiled.rows.findings.as_slice();
    let related = related_over(sources, root, findings)?;
    line_with(sources, root, compiled, related.as_slice())
}

// The same, with these second places.
fn line_with(
    sources: &Sources,
    root: &Name,
    compiled: &CompiledRoot,
    related: &[Seq<Related>],
) -> Result<Vec<u8>, AllocError>
    requires { length related.now ≡ length compiled.now.rows.findings }
    ensures { IfOk result (λ line.
        IsRootLine (told_of sources.now root.now compiled.now related.now) line.items) }
{
    let details = details_of(sources, root, compiled.rows.is_faulty)?;
    let mut columns = sources.columns();
    let listing = rows_of(&mut columns, root, details.entries.as_slice())?;
    let found = diagnostics_of(&mut columns, compiled.rows.findings.as_slice(), related)?;
    let asked = sources.asked(root)?;
    let told = RootTold {
        name: root,
        is_faulty: compiled.rows.is_faulty,
        found: &found,
        listing: &listing,
        asked: &asked,
        absent: compiled.absent.as_slice(),
    };
    root_line(sources.allocator(), &told)
}

// What the listing of a root tells, which is nothing where it has an error.
fn details_of(sources: &Sources, root: &Name, has_error: bool) -> Result<Details, AllocError>
    ensures { IfOk result (λ details.
        map (row_in sources.now.files root.now) details.entries
        ≡ listing_of sources.now root.now has_error) }
{
    if has_error {
        return Ok(Details {
            entries: Seq::new(sources.allocator()),
            declared: Seq::new(sources.allocator()),
            uses: Seq::new(sources.allocator()),
        });
    }
    sources.details(root)
}

/// The rows of entries, each with where its name is declared first.
pub(crate) fn rows_of<'d>(
    columns: &mut Columns<'_>,
    root: &Name,
    entries: &'d [DetailedEntry],
) -> Result<Vec<ListedRow<'d>>, AllocError>
    ensures rows { IfOk result (λ rows.
        map row_of rows.items ≡ map (row_in columns.old root.now) entries.entry.now) }
    ensures same { columns.new ≡ columns.old }
{
    let mut rows = Vec::with_capacity(columns.allocator(), entries.len())?;
    'entries: for entry in entries {
        rows.push(row_in(columns, root, entry)?)?;
    }
    Ok(rows)
}

// The row of an entry.
fn row_in<'d>(
    columns: &mut Columns<'_>,
    root: &Name,
    entry: &'d DetailedEntry,
) -> Result<ListedRow<'d>, AllocError>
    ensures row { IfOk result (λ row. row_of row ≡ row_in columns.old root.now entry.entry.now) }
    ensures same { columns.new ≡ columns.old }
{
    let declared = match entry.places.as_slice().first() {
        Some(declared) => Some(declared_in(columns, root, declared)?),
        None => None,
    };
    Ok(ListedRow {
        tree: &entry.tree,
        declared,
    })
}

// Where a name of a root is declared.
fn declared_in<'d>(
    columns: &mut Columns<'_>,
    root: &Name,
    declared: &'d DeclaredPlace,
) -> Result<NamePlace<'d>, AllocError>
    ensures place { IfOk result (λ place.
        place_of place ≡ declared_in columns.old root.now declared.entry.now) }
    ensures same { columns.new ≡ columns.old }
{
    let SitedToken {
        place,
        number,
        text,
    } = &declared.name;
    Ok(NamePlace {
        place,
        column: columns.column(place, *number, text.as_bytes())?,
        is_main: place.file.as_bytes() == root.as_bytes(),
    })
}

// What is found, each with its column and its second places.
fn diagnostics_of<'s>(
    columns: &mut Columns<'_>,
    findings: &'s [Finding],
    related: &'s [Seq<Related>],
) -> Result<Vec<Diagnostic<'s>>, AllocError>
    requires { length related.now ≡ length findings.now }
    ensures found { IfOk result (λ found. map located found.items
        ≡ map (located_in columns.old) (zip findings.entry.now related.entry.now)) }
    ensures same { columns.new ≡ columns.old }
{
    let mut found = Vec::with_capacity(columns.allocator(), findings.len())?;
    'findings: for index in 0..findings.len() {
        let seconds = related[index].as_slice();
        found.push(diagnostic_of(columns, &findings[index], seconds)?)?;
    }
    Ok(found)
}

// What is found, with its column and its second places.
fn diagnostic_of<'s>(
    columns: &mut Columns<'_>,
    finding: &'s Finding,
    related: &'s [Related],
) -> Result<Diagnostic<'s>, AllocError>
    ensures told { IfOk result (λ told.
        located told ≡ located_in columns.old (finding.entry.now, related.entry.now)) }
    ensures same { columns.new ≡ columns.old }
{
    let column = column_of(columns, finding)?;
    let related = seconds_of(columns, related)?;
    Ok(Diagnostic {
        place: &finding.place,
        code: finding.code,
        token: &finding.text,
        column,
        related,
    })
}

// Second places, each with its column.
fn seconds_of<'s>(
    columns: &mut Columns<'_>,
    related: &'s [Related],
) -> Result<Seq<SecondPlace<'s>>, AllocError>
    ensures seconds { IfOk result (λ seconds.
        map second_of seconds ≡ map (second_at columns.old) related.entry.now) }
    ensures same { columns.new ≡ columns.old }
{
    let mut seconds = Vec::with_capacity(columns.allocator(), related.len())?;
    'related: for second in related {
        seconds.push(second_of(columns, second)?)?;
    }
    Ok(Seq::from_vec(seconds))
}

// A second place, with its column.
fn second_of<'s>(
    columns: &mut Columns<'_>,
    second: &'s Related,
) -> Result<SecondPlace<'s>, AllocError>
    ensures place { IfOk result (λ place.
        second_of place ≡ second_at columns.old second.entry.now) }
    ensures same { columns.new ≡ columns.old }
{
    Ok(SecondPlace {
        reason: second.reason.words(),
        place: &second.place,
        token: &second.text,
        column: columns.column(&second.place, second.number, second.text.as_bytes())?,
        more: second.more,
    })
}
