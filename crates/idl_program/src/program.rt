//! The program over its words and devices.

ghost use Rattle.std.specs.Prelude.{◌≡◌, ◌≢◌, ◌⊎◌, ◌≤◌, ◌<◌, ◌+◌, ◌-◌, ◌^◌, IfErr, IfOk, OnErr, OnOk, codes, map};
ghost use Rattle.std.specs.List.{flat_map};
ghost use Rattle.idl_loader.specs.Lines.{whole_line};
ghost use Rattle.idl_source.specs.devices.Device.{append};
ghost use Rattle.idl_driver.specs.Messages.{IsFailureTold, IsShownUntil};
ghost use Rattle.idl_driver.specs.Written.{WritesSome};
ghost use Rattle.idl_program.specs.Compiled.{IsCompiled};
ghost use Rattle.idl_program.specs.Rows.{AreShown, output_of};
ghost use Rattle.idl_program.specs.Served.{IsDone};
ghost use Rattle.idl_program.specs.Words.{IsRequestOf};

use crate::request::{CompilerRequest, request_of};
use idl_driver::{Devices, Options, ProgramFailure, compile_files};
use idl_loader::{Loader, Status, write_lines};
use idl_session::idl_project::CompiledRoot;
use idl_session::{Session, run};
use idl_source::devices::{WriteFailed, write_all};
use idl_source::{Sink, Source};
use std::alloc::Global;
use std::mem::forget;

/// Does what the words behind the program's name ask for, and answers how the program ends.
pub fn run_program<L: Loader, S: Source, O: Sink, E: Sink>(
    alloc: Global,
    words: &[&str],
    devices: &mut Devices<L, S, O, E>,
) -> Status
    // A device that counts its failures from 0 can't come near.
    requires reads { S.failures devices.old.source < 2 ^ 64 - 1 }
    requires writes { O.failures devices.old.output < 2 ^ 64 - 1 }
    requires tells { E.failures devices.old.errors < 2 ^ 64 - 2 }

    ensures done { result ≢ Status.Failed → (request : CompilerRequest)
        × IsRequestOf (map (λ w. w.now) words.now) request
        × IsDone (L.told devices.old.loader) (S.remaining devices.old.source)
        (record { errors = E.written devices.old.errors; output = O.written devices.old.output })
        (record { errors = E.written devices.new.errors; output = O.written devices.new.output })
        result request }
    // Where the program doesn't fail, no device has failed.
    ensures well { result ≢ Status.Failed →
        ((S.failures devices.new.source ≡ S.failures devices.old.source)
        × (O.failures devices.new.output ≡ O.failures devices.old.output)
        × (E.failures devices.new.errors ≡ E.failures devices.old.errors)) }
    // Where it fails its last line tells that, if errors can be written.
    ensures failed { result ≡ Status.Failed →
        IsFailureTold (codes "idlc") (E.written devices.old.errors) (E.written devices.new.errors)
        ⊎ (E.failures devices.old.errors < E.failures devices.new.errors) }
{
    match perform(alloc, words, devices) {
        Ok(status) => status,
        Err(failure) => {
            // Where this can't be written either, the status tells.
            let _ = failure.tell(b"idlc", &mut devices.errors);
            Status::Failed
        }
    }
}

fn perform<'a, L: Loader, S: Source, O: Sink, E: Sink>(
    alloc: Global,
    words: &'a [&'a str],
    devices: &mut Devices<L, S, O, E>,
) -> Result<Status, ProgramFailure<'a>>
    requires reads { S.failures devices.old.source < 2 ^ 64 - 1 }
    requires writes { O.failures devices.old.output < 2 ^ 64 - 1 }
    requires tells { E.failures devices.old.errors < 2 ^ 64 - 2 }

    ensures done { IfOk result (λ status. (request : CompilerRequest)
        × IsRequestOf (map (λ w. w.now) words.entry.now) request
        × IsDone (L.told devices.old.loader) (S.remaining devices.old.source)
        (record { errors = E.written devices.old.errors; output = O.written devices.old.output })
        (record { errors = E.written devices.new.errors; output = O.written devices.new.output })
        status request) }
    ensures well { OnOk result
        ((S.failures devices.new.source ≡ S.failures devices.old.source)
        × (O.failures devices.new.output ≡ O.failures devices.old.output)
        × (E.failures devices.new.errors ≡ E.failures devices.old.errors)) }
    ensures most { E.failures devices.new.errors ≤ E.failures devices.old.errors + 1 }
    ensures least { E.failures devices.old.errors ≤ E.failures devices.new.errors }
    ensures until { IfErr result (λ failure. IsShownUntil failure
        (E.written devices.old.errors) (E.written devices.new.errors)) }
{
    let request = request_of(alloc, words)?;
    fulfil(alloc, &request, devices)
}

// Does what is asked for.
fn fulfil<'a, L: Loader, S: Source, O: Sink, E: Sink>(
    alloc: Global,
    request: &CompilerRequest<'a>,
    devices: &mut Devices<L, S, O, E>,
) -> Result<Status, ProgramFailure<'a>>
    requires reads { S.failures devices.old.source < 2 ^ 64 - 1 }
    requires writes { O.failures devices.old.output < 2 ^ 64 - 1 }
    requires tells { E.failures devices.old.errors < 2 ^ 64 - 2 }

    ensures done { IfOk result (λ status.
        IsDone (L.told devices.old.loader) (S.remaining devices.old.source)
        (record { errors = E.written devices.old.errors; output = O.written devices.old.output })
        (record { errors = E.written devices.new.errors; output = O.written devices.new.output })
        status request.now) }
    ensures well { OnOk result
        ((S.failures devices.new.source ≡ S.failures devices.old.source)
        × (O.failures devices.new.output ≡ O.failures devices.old.output)
        × (E.failures devices.new.errors ≡ E.failures devices.old.errors)) }
    ensures most { E.failures devices.new.errors ≤ E.failures devices.old.errors + 1 }
    ensures least { E.failures devices.old.errors ≤ E.failures devices.new.errors }
    ensures until { IfErr result (λ failure. IsShownUntil failure
        (E.written devices.old.errors) (E.written devices.new.errors)) }
{
    match request {
        CompilerRequest::Show(text) => {
            write_all(&mut devices.output, text.as_bytes())?;
            Ok(Status::Sound)
        }
        CompilerRequest::Serve => {
            let mut session = Session::new(alloc);
            run(&mut session, &mut devices.source, &mut devices.output)?;
            // The program ends here, and all memory goes back at once.
            forget(session);
            Ok(Status::Sound)
        }
        CompilerRequest::Compile(options) => compile(alloc, options, devices),
    }
}

#[inline(never)]
fn compile<'a, L: Loader, S: Source, O: Sink, E: Sink>(
    alloc: Global,
    options: &Options<'a>,
    devices: &mut Devices<L, S, O, E>,
) -> Result<Status, ProgramFailure<'a>>
    requires writes { O.failures devices.old.output < 2 ^ 64 - 1 }
    requires tells { E.failures devices.old.errors < 2 ^ 64 - 2 }

    ensures compiled { IfOk result (λ status. IsCompiled (L.told devices.old.loader) options.now
        (record { errors = E.written devices.old.errors; output = O.written devices.old.output })
        (record { errors = E.written devices.new.errors; output = O.written devices.new.output })
        status) }
    ensures well { OnOk result
        ((S.failures devices.new.source ≡ S.failures devices.old.source)
        × (O.failures devices.new.output ≡ O.failures devices.old.output)
        × (E.failures devices.new.errors ≡ E.failures devices.old.errors)) }
    ensures most { E.failures devices.new.errors ≤ E.failures devices.old.errors + 1 }
    ensures least { E.failures devices.old.errors ≤ E.failures devices.new.errors }
    ensures until { IfErr result (λ failure. IsShownUntil failure
        (E.written devices.old.errors) (E.written devices.new.errors)) }
{
    let compilation = compile_files(alloc, options, &mut devices.loader)?;
    let status = show_all(&compilation.compiled, options, devices)?;
    // The program ends here, and all memory goes back at once.
    forget(compilation);
    Ok(status)
}

// Writes what goes out of these roots, each in turn.
#[inline(never)]
fn show_all<L: Loader, S: Source, O: Sink, E: Sink>(
    compiled: &[CompiledRoot],
    options: &Options<'_>,
    devices: &mut Devices<L, S, O, E>,
) -> Result<Status, WriteFailed>
    requires writes { O.failures devices.old.output < 2 ^ 64 - 1 }
    requires tells { E.failures devices.old.errors < 2 ^ 64 - 2 }

    ensures shown { IfOk result (λ status. AreShown options.now compiled.now
        (record { errors = E.written devices.old.errors; output = O.written devices.old.output })
        (record { errors = E.written devices.new.errors; output = O.written devices.new.output })
        status) }
    ensures well { OnOk result
        ((S.failures devices.new.source ≡ S.failures devices.old.source)
        × (O.failures devices.new.output ≡ O.failures devices.old.output)
        × (E.failures devices.new.errors ≡ E.failures devices.old.errors)) }
    ensures most { E.failures devices.new.errors ≤ E.failures devices.old.errors + 1 }
    ensures least { E.failures devices.old.errors ≤ E.failures devices.new.errors }
    ensures until { OnErr result
        (WritesSome (E.written devices.old.errors) (E.written devices.new.errors)) }
{
    let mut is_faulty = false;
    'roots: for root in compiled {
        write_lines(&mut devices.errors, root.rows.diagnostics.as_slice())?;
        show_output(root, options, &mut devices.output)?;
        is_faulty = is_faulty || root.rows.is_faulty;
    }
    if is_faulty {
        Ok(Status::Faulty)
    } else {
        Ok(Status::Sound)
    }
}

// Writes the dump and the listing of a root, as far as they are asked for.
fn show_output<K: Sink>(
    root: &CompiledRoot,
    options: &Options<'_>,
    output: &mut K,
) -> Result<(), WriteFailed>
    requires counts { K.failures output.old < 2 ^ 64 - 1 }

    ensures written { OnOk result (K.written output.new
        ≡ append (K.written output.old) (flat_map whole_line (output_of options.now root.now))) }
    ensures ok { OnOk result (K.failures output.new ≡ K.failures output.old) }
{
    if options.shows_dump {
        write_lines(output, root.rows.dump.get().as_slice())?;
    }
    if options.shows_listing {
        write_lines(output, root.rows.listing.get().as_slice())?;
    }
    Ok(())
}
