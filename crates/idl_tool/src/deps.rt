//! Rules of make from the files that roots ask for.

ghost use Rattle.std.specs.Prelude.{◌≡◌, ◌++◌, ◌∷◌, ◌≤◌, ◌<◌, ◌+◌, ◌-◌, ◌^◌, [], All, IfOk, IsTrue, OnErr, OnOk, codes, filter, flat_map, map};
ghost use Rattle.idl_driver.specs.Written.{WritesSome};
ghost use Rattle.idl_driver.specs.idl_sources.Compile.{compiled_root};
ghost use Rattle.idl_tool.specs.Deps.{AreRuled, IsServed, empty_rule, is_other, is_there, need_of, rules_in, stem, target_of, wanted_in};
ghost use Rattle.idl_tool.specs.make_rules.Make.{IsMakeRule, is_make_name, need_text, rules_text, target_text};

use crate::check::{report_text, status_of};
use crate::failure::ToolFailure;
use crate::faults::{ended_by, troubles_text};
use crate::make_rules::{is_make_name, push_need, push_need_if_there, push_target};
use crate::request::Deps;
use idl_driver::idl_sources::Sources;
use idl_driver::{Devices, FailureSubject, SoundFiles, compile_sound_files};
use idl_loader::{Loader, Status};
use idl_source::devices::write_all;
use idl_source::{Name, Sink};
use std::alloc::{AllocError, Global};
use std::mem::forget;

/// Writes a rule of make for each file, and what is told of the files.
pub fn write_deps<'a, L: Loader, S, O: Sink, E: Sink>(
    alloc: Global,
    deps: &Deps<'a>,
    devices: &mut Devices<L, S, O, E>,
) -> Result<Status, ToolFailure<'a>>
    requires writes { O.failures devices.old.output < 2 ^ 64 - 1 }
    requires tells { E.failures devices.old.errors < 2 ^ 64 - 2 }

    ensures served { IfOk result (λ status. IsServed (L.told devices.old.loader) deps.now
        (record { errors = E.written devices.old.errors; output = O.written devices.old.output })
        (record { errors = E.written devices.new.errors; output = O.written devices.new.output })
        status) }
    ensures well { OnOk result
        ((O.failures devices.new.output ≡ O.failures devices.old.output)
        × (E.failures devices.new.errors ≡ E.failures devices.old.errors)) }
    ensures most { E.failures devices.new.errors ≤ E.failures devices.old.errors + 1 }
    ensures least { E.failures devices.old.errors ≤ E.failures devices.new.errors }
    ensures until { OnErr result
        (WritesSome (E.written devices.old.errors) (E.written devices.new.errors)) }
{
    let all = compile_sound_files(alloc, &deps.options, &mut devices.loader)?;
    let status = write_rules(&all, deps, devices);
    // The program ends here, and all memory goes back at once.
    forget(all);
    status
}

// Writes the rules of these files, what is told of them, and the trouble of others.
fn write_rules<'a, L: Loader, S, O: Sink, E: Sink>(
    all: &SoundFiles<'_>,
    deps: &Deps<'a>,
    devices: &mut Devices<L, S, O, E>,
) -> Result<Status, ToolFailure<'a>>
    requires compiled { all.now.sound.compiled.items
        ≡ map (compiled_root all.now.sound.sources) all.now.sound.roots.items }
    requires writes { O.failures devices.old.output < 2 ^ 64 - 1 }
    requires tells { E.failures devices.old.errors < 2 ^ 64 - 2 }

    ensures ruled { IfOk result (λ status. AreRuled deps.now all.now
        (record { errors = E.written devices.old.errors; output = O.written devices.old.output })
        (record { errors = E.written devices.new.errors; output = O.written devices.new.output })
        status) }
    ensures well { OnOk result
        ((O.failures devices.new.output ≡ O.failures devices.old.output)
        × (E.failures devices.new.errors ≡ E.failures devices.old.errors)) }
    ensures most { E.failures devices.new.errors ≤ E.failures devices.old.errors + 1 }
    ensures least { E.failures devices.old.errors ≤ E.failures devices.new.errors }
    ensures until { OnErr result
        (WritesSome (E.written devices.old.errors) (E.written devices.new.errors)) }
{
    let trouble = troubles_text(all.sound.sources.allocator(), all)?;
    let rules = rules_of(&all.sound.sources, &all.sound.roots, deps)?;
    let reports = report_text(&all.sound.sources, &all.sound.roots, &all.sound.compiled)?;
    let status = status_of(&all.sound.compiled);
    let status = ended_by(all, status);
    write_all(&mut devices.errors, &trouble)?;
    write_all(&mut devices.errors, &reports)?;
    write_all(&mut devices.output, &rules)?;
    Ok(status)
}

// The rules of these roots.
fn rules_of<'a>(
    sources: &Sources,
    roots: &[Name],
    deps: &Deps<'a>,
) -> Result<Vec<u8>, ToolFailure<'a>>
    ensures rules { IfOk result (λ text.
        text.items ≡ rules_text (flat_map (rules_in deps.now sources.now) roots.now)) }
    ensures readable { OnOk result
        (All IsMakeRule (flat_map (rules_in deps.now sources.now) roots.now)) }
{
    let mut out = Vec::new(sources.allocator());
    'roots: for root in roots {
        push_rules(sources, root, deps, &mut out)?;
    }
    Ok(out)
}

// Writes the rule of a root, and an empty one for each other file that this stands on and that is there.
fn push_rules<'a>(
    sources: &Sources,
    root: &Name,
    deps: &Deps<'a>,
    out: &mut Vec<u8>,
) -> Result<(), ToolFailure<'a>>
    ensures more { OnOk result (out.new.items
        ≡ out.old.items ++ rules_text (rules_in deps.now sources.now root.now)) }
    ensures readable { OnOk result (All IsMakeRule (rules_in deps.now sources.now root.now)) }
{
    let asked = wanted_of(sources, root, deps)?;
    refuse_names(&asked)?;
    push_target_of(root, deps, out)?;
    push_needs(sources, &asked, deps, out)?;
    push_empty_rules(sources, root, &asked, out)?;
    Ok(())
}

// The files that a root's rule stands on: those that it asks for, or those of them that are there.
fn wanted_of(sources: &Sources, root: &Name, deps: &Deps<'_>) -> Result<Vec<Name>, AllocError>
    ensures { IfOk result (λ names. names.items ≡ wanted_in deps.now sources.now root.now) }
{
    let asked = sources.asked(root)?;
    if deps.leaves_absent {
        return present_of(sources, &asked);
    }
    Ok(asked)
}

// Those of these files that are there.
fn present_of(sources: &Sources, asked: &[Name]) -> Result<Vec<Name>, AllocError>
    ensures { IfOk result (λ names.
        names.items ≡ filter (is_there sources.now.files) asked.now) }
{
    let mut present = Vec::new(sources.allocator());
    'names: for name in asked {
        if sources.has_file(name) {
            present.push(name.copied())?;
        }
    }
    Ok(present)
}

// Refuses names that no rule can have in it.
fn refuse_names<'a>(names: &[Name]) -> Result<(), ToolFailure<'a>>
    ensures { OnOk result (All (λ name. IsTrue (is_make_name name)) names.now) }
{
    'names: for name in names {
        if !is_make_name(name.as_bytes()) {
            return Err(ToolFailure::NoMakeName(FailureSubject::File(name.copied())));
        }
    }
    Ok(())
}

// Writes the target of a root's rule: the one that is given, or the root's listing.
fn push_target_of<'a>(
    root: &Name,
    deps: &Deps<'a>,
    out: &mut Vec<u8>,
) -> Result<(), ToolFailure<'a>>
    ensures more { OnOk result
        (out.new.items ≡ out.old.items ++ target_text (target_of deps.now root.now)) }
    ensures readable { OnOk result (IsTrue (is_make_name (target_of deps.now root.now))) }
{
    match deps.target {
        Some(target) => {
            if !is_make_name(target.as_bytes()) {
                return Err(ToolFailure::NoMakeName(FailureSubject::Word(target)));
            }
            push_target(target.as_bytes(), out)?;
            Ok(())
        }
        None => push_listing(root, out),
    }
}

// Writes the listing of a root as a target.
fn push_listing<'a>(root: &Name, out: &mut Vec<u8>) -> Result<(), ToolFailure<'a>>
    ensures more { OnOk result (out.new.items
        ≡ out.old.items ++ target_text (stem root.now ++ codes ".listing")) }
    ensures readable { OnOk result (IsTrue (is_make_name (stem root.now ++ codes ".listing"))) }
{
    let listing = listing_of(*out.allocator(), root.as_bytes())?;
    if !is_make_name(&listing) {
        return Err(ToolFailure::NoMakeName(FailureSubject::File(root.copied())));
    }
    push_target(&listing, out)?;
    Ok(())
}

// The name of a root's listing: `.listing` in the place of `.idl`.
fn listing_of(alloc: Global, root: &[u8]) -> Result<Vec<u8>, AllocError>
    ensures { IfOk result (λ name. name.items ≡ stem root.now ++ codes ".listing") }
{
    let stem = root.strip_suffix(b".idl".as_slice()).unwrap_or(root);
    let mut name = Vec::from_slice(alloc, stem)?;
    name.extend_from_slice(b".listing")?;
    Ok(name)
}

// Writes what a target stands on, and the line's end.
fn push_needs(
    sources: &Sources,
    asked: &[Name],
    deps: &Deps<'_>,
    out: &mut Vec<u8>,
) -> Result<(), AllocError>
    ensures { let needs = map (need_of deps.now.has_generated sources.now.files) asked.now in
        OnOk result (out.new.items ≡ out.old.items ++ flat_map need_text needs ++ 10 ∷ []) }
{
    'names: for name in asked {
        push_need_of(sources, name, deps, out)?;
    }
    out.extend_from_slice(b"\n")
}

// Writes that a target stands on a file, or that it does if that is there.
fn push_need_of(
    sources: &Sources,
    name: &Name,
    deps: &Deps<'_>,
    out: &mut Vec<u8>,
) -> Result<(), AllocError>
    ensures { let need = need_of deps.now.has_generated sources.now.files name.now in
        OnOk result (out.new.items ≡ out.old.items ++ need_text need) }
{
    if deps.has_generated || sources.has_file(name) {
        push_need(name.as_bytes(), out)
    } else {
        push_need_if_there(name.as_bytes(), out)
    }
}

// Writes a rule without needs for each of these files that is there and isn't the root.
fn push_empty_rules(
    sources: &Sources,
    root: &Name,
    asked: &[Name],
    out: &mut Vec<u8>,
) -> Result<(), AllocError>
    ensures { let others = filter (is_other sources.now.files root.now) asked.now in
        OnOk result (out.new.items ≡ out.old.items ++ rules_text (map empty_rule others)) }
{
    'names: for name in asked {
        if name != root && sources.has_file(name) {
            push_target(name.as_bytes(), out)?;
            out.extend_from_slice(b"\n")?;
        }
    }
    Ok(())
}
