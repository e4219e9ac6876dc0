//! What changes from one version of a file to another.

ghost use Rattle.std.specs.Prelude.{◌≡◌, ◌≤◌, ◌<◌, ◌+◌, ◌++◌, ◌-◌, ◌^◌, IfOk, OnErr, OnOk, flat_map, if◌then◌else◌, map, option_copied};
ghost use Rattle.std.specs.Option.{option_map};
ghost use Rattle.idl_source.specs.devices.Device.{append};
ghost use Rattle.idl_inputs.specs.Bank.{bank_of};
ghost use Rattle.idl_driver.specs.idl_sources.Details.{details_over};
ghost use Rattle.idl_loader.specs.declared.status.Status.TheVariants.{Faulty, Sound};
ghost use Rattle.idl_driver.specs.Compilations.{HasCompiled};
ghost use Rattle.idl_driver.specs.Rows.{are_faulty};
ghost use Rattle.idl_driver.specs.Written.{WritesSome};
ghost use Rattle.idl_json.specs.Listed.{place_of, row_of};
ghost use Rattle.idl_tool.specs.Json.{row_in, rows_of};
ghost use Rattle.idl_tool.specs.Sides.{AreSides};
ghost use Rattle.idl_tool.specs.Compared.{AreCompared, IsCompared, IsVersion, all_rows, are_failing, change_lines, changes_of, ending_by, ending_of, grade, has_error, lines_between, place_at, object_line, place_before, seen, shown_between, shown_place, told_line, trees_of};

use crate::check::{report_text, status_of};
use crate::failure::ToolFailure;
use crate::json::rows_of;
use crate::once::each_once;
use crate::report::push_place;
use crate::request::Diff;
use crate::there::files_there;
use idl_changes::{Change, Weights, changes, entry_of, push_change};
use idl_driver::idl_sources::{CompiledRoot, DetailedEntry, Details, Sources};
use idl_driver::{Compilation, Devices, Options, compile_files};
use idl_inputs::Columns;
use idl_json::{ChangeTold, ListedRow, NamePlace, change_line};
use idl_loader::{Loader, Status};
use idl_repo::details::RowTree;
use idl_source::devices::write_all;
use idl_source::{Name, Sink};
use std::alloc::{AllocError, Global};
use std::mem::forget;

/// Writes what changes from one version of a file to another, and what is told of the two.
pub fn write_diff<'a, L: Loader, S, O: Sink, E: Sink>(
    alloc: Global,
    diff: &Diff<'a>,
    devices: &mut Devices<L, S, O, E>,
) -> Result<Status, ToolFailure<'a>>
    requires writes { O.failures devices.old.output < 2 ^ 64 - 1 }
    requires tells { E.failures devices.old.errors < 2 ^ 64 - 2 }

    ensures compared { IfOk result (λ status. IsCompared (L.told devices.old.loader) diff.now
        (record { errors = E.written devices.old.errors; output = O.written devices.old.output })
        (record { errors = E.written devices.new.errors; output = O.written devices.new.output })
        status) }
    ensures well { OnOk result
        ((O.failures devices.new.output ≡ O.failures devices.old.output)
        × (E.failures devices.new.errors ≡ E.failures devices.old.errors)) }
    ensures most { E.failures devices.new.errors ≤ E.failures devices.old.errors + 1 }
    ensures least { E.failures devices.old.errors ≤ E.failures devices.new.errors }
    ensures until { OnErr result
        (WritesSome (E.written devices.old.errors) (E.written devices.new.errors)) }
{
    let (old_files, new_files) = files_there(alloc, diff, &mut devices.loader)?;
    let old = compile_version(alloc, &diff.old, &old_files, &mut devices.loader)?;
    let new = compile_version(alloc, &diff.new, &new_files, &mut devices.loader)?;
    let status = write_compared(diff, &old, &new, devices);
    // The program ends here, and all memory goes back at once.
    forget((old, new));
    status
}

// Compiles a version as it is asked for, of these FILEs.
fn compile_version<'a, L: Loader>(
    alloc: Global,
    options: &Options<'a>,
    files: &[&'a str],
    loader: &mut L,
) -> Result<Compilation, ToolFailure<'a>>
    ensures version { IfOk result (λ all. IsVersion (L.told loader.old) options.now
        (map (λ w. w.now) files.now) (seen all)) }
    ensures compiled { IfOk result HasCompiled }
    ensures still { OnOk result (L.told loader.new ≡ L.told loader.old) }
{
    let asked = Options {
        defines: Vec::from_slice(alloc, &options.defines)?,
        undefines: Vec::from_slice(alloc, &options.undefines)?,
        directories: Vec::from_slice(alloc, &options.directories)?,
        files: Vec::from_slice(alloc, files)?,
        shows_dump: false,
        shows_listing: false,
    };
    let all = compile_files(alloc, &asked, loader)?;
    Ok(all)
}

// Writes what changes from one version to another, and what is told of the two.
fn write_compared<'a, L: Loader, S, O: Sink, E: Sink>(
    diff: &Diff<'_>,
    old: &Compilation,
    new: &Compilation,
    devices: &mut Devices<L, S, O, E>,
) -> Result<Status, ToolFailure<'a>>
    requires first { HasCompiled old.now }
    requires second { HasCompiled new.now }
    requires writes { O.failures devices.old.output < 2 ^ 64 - 1 }
    requires tells { E.failures devices.old.errors < 2 ^ 64 - 2 }

    ensures compared { IfOk result (λ status.
        AreCompared diff.now.is_json diff.now.fails (seen old.now) (seen new.now)
        (record { errors = E.written devices.old.errors; output = O.written devices.old.output })
        (record { errors = E.written devices.new.errors; output = O.written devices.new.output })
        status) }
    ensures well { OnOk result
        ((O.failures devices.new.output ≡ O.failures devices.old.output)
        × (E.failures devices.new.errors ≡ E.failures devices.old.errors)) }
    ensures most { E.failures devices.new.errors ≤ E.failures devices.old.errors + 1 }
    ensures least { E.failures devices.old.errors ≤ E.failures devices.new.errors }
    ensures until { OnErr result
        (WritesSome (E.written devices.old.errors) (E.written devices.new.errors)) }
{
    let first = report_text(&old.sources, old.roots.as_slice(), &old.compiled)?;
    let second = report_text(&new.sources, new.roots.as_slice(), &new.compiled)?;
    write_all(&mut devices.errors, &first)?;
    write_all(&mut devices.errors, &second)?;
    write_between(diff, old, new, &mut devices.output)
}

// Writes the changes from one version to another, unless one of them has an error.
fn write_between<'a, K: Sink>(
    diff: &Diff<'_>,
    old: &Compilation,
    new: &Compilation,
    output: &mut K,
) -> Result<Status, ToolFailure<'a>>
    requires first { HasCompiled old.now }
    requires second { HasCompiled new.now }
    requires counts { K.failures output.old < 2 ^ 64 - 1 }

    ensures written { OnOk result (K.written output.new
        ≡ append (K.written output.old)
        (shown_between diff.now.fails (seen old.now) (seen new.now) diff.now.is_json)) }
    ensures status { IfOk result (λ status.
        status ≡ ending_of diff.now.fails (seen old.now) (seen new.now)) }
    ensures well { OnOk result (K.failures output.new ≡ K.failures output.old) }
{
    if has_error(old, new) {
        return Ok(Status::Failed);
    }
    write_changes(diff, old, new, output)
}

// Whether one of two versions has an error.
fn has_error(old: &Compilation, new: &Compilation) -> bool
    requires first { HasCompiled old.now }
    requires second { HasCompiled new.now }
    ensures { result ≡ has_error (seen old.now) (seen new.now) }
{
    let is_old_faulty = are_faulty(&old.compiled);
    let is_new_faulty = are_faulty(&new.compiled);
    is_old_faulty || is_new_faulty
}

// Whether one of these roots has an error.
fn are_faulty(compiled: &[CompiledRoot]) -> bool
    ensures { result ≡ are_faulty compiled.now }
{
    match status_of(compiled) {
        Status::Sound => false,
        Status::Faulty | Status::Failed => true,
    }
}

// Writes the changes from one version to another.
fn write_changes<'a, K: Sink>(
    diff: &Diff<'_>,
    old: &Compilation,
    new: &Compilation,
    output: &mut K,
) -> Result<Status, ToolFailure<'a>>
    requires counts { K.failures output.old < 2 ^ 64 - 1 }

    ensures written { OnOk result (K.written output.new
        ≡ append (K.written output.old)
        (lines_between diff.now.fails (seen old.now) (seen new.now) diff.now.is_json)) }
    ensures status { IfOk result (λ status.
        status ≡ ending_by diff.now.fails (seen old.now) (seen new.now)) }
    ensures well { OnOk result (K.failures output.new ≡ K.failures output.old) }
{
    let (text, status) = changes_text(diff, old, new)?;
    write_all(output, &text)?;
    Ok(status)
}

// The lines of the changes from one version to another, and how the program ends by them.
fn changes_text(
    diff: &Diff<'_>,
    old: &Compilation,
    new: &Compilation,
) -> Result<(Vec<u8>, Status), AllocError>
    ensures lines { IfOk result (λ told. told.0.items
        ≡ lines_between diff.now.fails (seen old.now) (seen new.now) diff.now.is_json) }
    ensures status { IfOk result (λ told.
        told.1 ≡ ending_by diff.now.fails (seen old.now) (seen new.now)) }
{
    let before = details_of(&old.sources, old.roots.as_slice())?;
    let after = details_of(&new.sources, new.roots.as_slice())?;
    let was = all_rows(&old.sources, old.roots.as_slice(), &before)?;
    let is = all_rows(&new.sources, new.roots.as_slice(), &after)?;
    told_between(old.sources.allocator(), diff, &was, &is)
}

// The lines of the changes from one listing to another, and how the program ends by them.
fn told_between<'d>(
    alloc: Global,
    diff: &Diff<'_>,
    old: &[ListedRow<'d>],
    new: &[ListedRow<'d>],
) -> Result<(Vec<u8>, Status), AllocError>
    ensures lines { IfOk result (λ told. told.0.items
        ≡ change_lines diff.now.is_json diff.now.fails (map row_of old.now) (map row_of new.now)
        (changes_of (map row_of old.now) (map row_of new.now))) }
    ensures status { IfOk result (λ told. told.1
        ≡ (if are_failing diff.now.fails (changes_of (map row_of old.now) (map row_of new.now))
        then Faulty else Sound)) }
{
    let was = trees_of(alloc, old)?;
    let is = trees_of(alloc, new)?;
    let told = changes(alloc, was.as_slice(), is.as_slice())?;
    let sides = Sides {
        old,
        new,
        was: was.as_slice(),
        is: is.as_slice(),
    };
    let text = lines_of(alloc, diff, sides, &told)?;
    let status = ending_by(diff.fails, &told);
    Ok((text, status))
}

// Two listings, and their trees.
#[derive(Clone, Copy)]
struct Sides<'s, 'd> {
    old: &'s [ListedRow<'d>],
    new: &'s [ListedRow<'d>],
    was: &'s [&'d RowTree],
    is: &'s [&'d RowTree],
}

// The lines of these changes.
fn lines_of(
    alloc: Global,
    diff: &Diff<'_>,
    sides: Sides<'_, '_>,
    told: &[Change],
) -> Result<Vec<u8>, AllocError>
    requires { AreSides sides }
    ensures { IfOk result (λ text. text.items ≡ change_lines diff.now.is_json diff.now.fails
        (map row_of sides.entry.old.now) (map row_of sides.entry.new.now) told.now) }
{
    let mut text = Vec::new(alloc);
    'lines: for change in told {
        push_line(&mut text, diff, sides, change)?;
    }
    Ok(text)
}

// Writes a change, on a line of its own.
fn push_line(
    text: &mut Vec<u8>,
    diff: &Diff<'_>,
    sides: Sides<'_, '_>,
    change: &Change,
) -> Result<(), AllocError>
    requires { AreSides sides }
    ensures { OnOk result (text.new.items ≡ text.old.items
        ++ told_line diff.now.is_json diff.now.fails (map row_of sides.entry.old.now)
        (map row_of sides.entry.new.now) change.now) }
{
    let Sides { old, new, was, is } = sides;
    if diff.is_json {
        let entry = entry_of(was, is, change);
        return push_object(text, entry, shown_place(old, new, change), change);
    }
    push_head(text, diff.fails, (old, new), change)?;
    push_change(text, was, is, change)?;
    text.extend_from_slice(b"\n")
}

// How the program ends by changes.
fn ending_by(fails: Weights, told: &[Change]) -> Status
    ensures { result ≡ (if are_failing fails told.now then Faulty else Sound) }
{
    if are_failing(fails, told) {
        Status::Faulty
    } else {
        Status::Sound
    }
}

// What the listings of these roots tell.
fn details_of(sources: &Sources, roots: &[Name]) -> Result<Vec<Details>, AllocError>
    ensures { IfOk result (λ all.
        all.items ≡ map (details_over (bank_of sources.now)) roots.now) }
{
    let mut all = Vec::new(sources.allocator());
    'roots: for root in roots {
        all.push(sources.details(root)?)?;
    }
    Ok(all)
}

// What the listings of these roots tell, one after the other, what is declared at one place once.
fn all_rows<'d>(
    sources: &Sources,
    roots: &[Name],
    all: &'d [Details],
) -> Result<Vec<ListedRow<'d>>, AllocError>
    requires { all.now ≡ map (details_over (bank_of sources.now)) roots.now }
    ensures { IfOk result (λ rows. map row_of rows.items ≡ all_rows sources.now roots.now) }
{
    let rows = rows_of_all(sources, roots, all)?;
    each_once(sources.allocator(), &rows)
}

// The rows of these roots' listings, one after the other, each with where it is declared.
fn rows_of_all<'d>(
    sources: &Sources,
    roots: &[Name],
    all: &'d [Details],
) -> Result<Vec<ListedRow<'d>>, AllocError>
    requires { all.now ≡ map (details_over (bank_of sources.now)) roots.now }
    ensures { IfOk result (λ rows.
        map row_of rows.items ≡ flat_map (rows_of sources.now) roots.now) }
{
    let mut columns = sources.columns();
    let mut rows = Vec::new(sources.allocator());
    'roots: for index in 0..roots.len() {
        let entries = all[index].entries.as_slice();
        push_rows(&mut columns, &roots[index], entries, &mut rows)?;
    }
    Ok(rows)
}

// Puts in the rows of a root's entries.
fn push_rows<'d>(
    columns: &mut Columns<'_>,
    root: &Name,
    entries: &'d [DetailedEntry],
    rows: &mut Vec<ListedRow<'d>>,
) -> Result<(), AllocError>
    ensures rows { OnOk result (map row_of rows.new.items
        ≡ map row_of rows.old.items ++ map (row_in columns.old root.now) entries.entry.now) }
    ensures same { columns.new ≡ columns.old }
{
    let listed = rows_of(columns, root, entries)?;
    rows.extend_from_slice(&listed)
}

// The trees of rows.
fn trees_of<'d>(alloc: Global, rows: &[ListedRow<'d>]) -> Result<Vec<&'d RowTree>, AllocError>
    ensures { IfOk result (λ trees.
        map (λ tree. tree.now) trees.items ≡ trees_of (map row_of rows.now)) }
{
    let mut trees = Vec::with_capacity(alloc, rows.len())?;
    'rows: for row in rows {
        trees.push(row.tree)?;
    }
    Ok(trees)
}

// Writes a change of an entry as an object of JSON, with where that is declared, if that is known.
fn push_object(
    text: &mut Vec<u8>,
    entry: Option<&RowTree>,
    declared: Option<NamePlace<'_>>,
    change: &Change,
) -> Result<(), AllocError>
    ensures { OnOk result (text.new.items ≡ text.old.items
        ++ object_line (option_copied entry.entry) (option_map place_of declared.entry)
        change.now) }
{
    let Some(tree) = entry else {
        return Ok(());
    };
    let told = ChangeTold {
        tree,
        difference: &change.difference,
        declared,
    };
    let line = change_line(*text.allocator(), told)?;
    text.extend_from_slice(&line)
}

// Writes what stands before the row of a change: where its entry is declared, and how it is graded.
fn push_head(
    text: &mut Vec<u8>,
    fails: Weights,
    rows: (&[ListedRow<'_>], &[ListedRow<'_>]),
    change: &Change,
) -> Result<(), AllocError>
    ensures { OnOk result (text.new.items ≡ text.old.items
        ++ (place_before
        (shown_place (map row_of rows.entry.0.now) (map row_of rows.entry.1.now) change.now)
        ++ grade fails change.now.difference.weights)) }
{
    push_shown(text, shown_place(rows.0, rows.1, change))?;
    text.extend_from_slice(grade(fails, change.difference.weights))
}

// Where the entry of a change is declared: that of the new listing, or of the old one where it is gone.
fn shown_place<'d>(
    old: &[ListedRow<'d>],
    new: &[ListedRow<'d>],
    change: &Change,
) -> Option<NamePlace<'d>>
    ensures { option_map place_of result
        ≡ shown_place (map row_of old.entry.now) (map row_of new.entry.now) change.now }
{
    match (change.after, change.before) {
        (Some(place), _) => place_at(new, place),
        (None, Some(place)) => place_at(old, place),
        (None, None) => None,
    }
}

// Where the row at a place is declared, if there is one and that is known.
fn place_at<'d>(rows: &[ListedRow<'d>], place: usize) -> Option<NamePlace<'d>>
    ensures { option_map place_of result ≡ place_at (map row_of rows.entry.now) place }
{
    match rows.get(place) {
        Some(row) => row.declared,
        None => None,
    }
}

// Writes where something is declared, if that is known.
pub(crate) fn push_shown(
    text: &mut Vec<u8>,
    declared: Option<NamePlace<'_>>,
) -> Result<(), AllocError>
    ensures { OnOk result (text.new.items
        ≡ text.old.items ++ place_before (option_map place_of declared.entry)) }
{
    let Some(name) = declared else {
        return Ok(());
    };
    push_place(name.place, name.column, text)?;
    text.extend_from_slice(b": ")
}

// How a change is graded that counts for these.
fn grade(fails: Weights, weights: Weights) -> &'static [u8]
    ensures { result.now ≡ grade fails weights }
{
    if weights.meets(fails) {
        b"error: "
    } else {
        b"note: "
    }
}

// Whether one of these changes is an error.
fn are_failing(fails: Weights, told: &[Change]) -> bool
    ensures { result ≡ are_failing fails told.now }
{
    'told: for change in told {
        if change.difference.weights.meets(fails) {
            return true;
        }
    }
    false
}
