//! The program over its words and devices.

ghost use Rattle.std.specs.Prelude.{◌≡◌, ◌≢◌, ◌⊎◌, ◌≤◌, ◌<◌, ◌+◌, ◌-◌, ◌^◌, IfOk, OnErr, OnOk, map};
ghost use Rattle.idl_loader.specs.declared.status.Status.TheVariants as status;
ghost use Rattle.idl_driver.specs.Written.{WritesSome};
ghost use Rattle.idl_tool.specs.Messages.{IsFailureTold};
ghost use Rattle.idl_tool.specs.Served.{IsDone};
ghost use Rattle.idl_tool.specs.Words.{IsRequestOf};
ghost use Rattle.idl_tool.specs.declared.request.ToolRequest.{ToolRequest};

use crate::check::check;
use crate::deps::write_deps;
use crate::diff::write_diff;
use crate::explain::explain;
use crate::failure::ToolFailure;
use crate::json::write_json;
use crate::request::{ToolRequest, request_of};
use idl_driver::Devices;
use idl_loader::{Loader, PathLoader, Service, Status};
use idl_source::devices::write_all;
use idl_source::{Sink, Source};
use std::alloc::Global;

/// Does what the words behind the program's name ask for, and answers how the program ends. An editor is served by the service: the program
/// stands on none.
pub fn run_tool<L: Loader + PathLoader, S: Source, O: Sink, E: Sink, V: Service>(
    alloc: Global,
    words: &[&str],
    service: &V,
    devices: &mut Devices<L, S, O, E>,
) -> Status
    requires reads { S.failures devices.old.source < 2 ^ 64 - 1 }
    // A device that counts its failures from 0 can't come near.
    requires writes { O.failures devices.old.output < 2 ^ 64 - 1 }
    requires tells { E.failures devices.old.errors < 2 ^ 64 - 2 }

    ensures done { result ≢ status.Failed → (request : ToolRequest)
        × IsRequestOf (map (λ w. w.now) words.now) request
        × IsDone (L.told devices.old.loader)
        (record { errors = E.written devices.old.errors; output = O.written devices.old.output })
        (record { errors = E.written devices.new.errors; output = O.written devices.new.output })
        result request }
    // Where the program doesn't fail, no device has failed.
    ensures well { result ≢ status.Failed →
        ((O.failures devices.new.output ≡ O.failures devices.old.output)
        × (E.failures devices.new.errors ≡ E.failures devices.old.errors)) }
    // Where it fails its last line tells that, if errors can be written, or what was asked for ends so.
    ensures failed { result ≡ status.Failed →
        ((request : ToolRequest) × IsRequestOf (map (λ w. w.now) words.now) request
        × IsDone (L.told devices.old.loader)
        (record { errors = E.written devices.old.errors; output = O.written devices.old.output })
        (record { errors = E.written devices.new.errors; output = O.written devices.new.output })
        result request)
        ⊎ (IsFailureTold (E.written devices.old.errors) (E.written devices.new.errors)
        ⊎ (E.failures devices.old.errors < E.failures devices.new.errors)) }
{
    match perform(alloc, words, service, devices) {
        Ok(status) => status,
        Err(failure) => {
            // Where this can't be written either, the status tells.
            let _ = failure.tell(&mut devices.errors);
            Status::Failed
        }
    }
}

fn perform<'a, L: Loader + PathLoader, S: Source, O: Sink, E: Sink, V: Service>(
    alloc: Global,
    words: &'a [&'a str],
    service: &V,
    devices: &mut Devices<L, S, O, E>,
) -> Result<Status, ToolFailure<'a>>
    requires reads { S.failures devices.old.source < 2 ^ 64 - 1 }
    requires writes { O.failures devices.old.output < 2 ^ 64 - 1 }
    requires tells { E.failures devices.old.errors < 2 ^ 64 - 2 }

    ensures done { IfOk result (λ status. (request : ToolRequest)
        × IsRequestOf (map (λ w. w.now) words.entry.now) request
        × IsDone (L.told devices.old.loader)
        (record { errors = E.written devices.old.errors; output = O.written devices.old.output })
        (record { errors = E.written devices.new.errors; output = O.written devices.new.output })
        status request) }
    ensures well { OnOk result
        ((O.failures devices.new.output ≡ O.failures devices.old.output)
        × (E.failures devices.new.errors ≡ E.failures devices.old.errors)) }
    ensures most { E.failures devices.new.errors ≤ E.failures devices.old.errors + 1 }
    ensures least { E.failures devices.old.errors ≤ E.failures devices.new.errors }
    ensures until { OnErr result
        (WritesSome (E.written devices.old.errors) (E.written devices.new.errors)) }
{
    let request = request_of(alloc, words)?;
    fulfil(alloc, &request, service, devices)
}

// Does what is asked for.
fn fulfil<'a, L: Loader + PathLoader, S: Source, O: Sink, E: Sink, V: Service>(
    alloc: Global,
    request: &ToolRequest<'a>,
    service: &V,
    devices: &mut Devices<L, S, O, E>,
) -> Result<Status, ToolFailure<'a>>
    requires reads { S.failures devices.old.source < 2 ^ 64 - 1 }
    requires writes { O.failures devices.old.output < 2 ^ 64 - 1 }
    requires tells { E.failures devices.old.errors < 2 ^ 64 - 2 }

    ensures done { IfOk result (λ status. IsDone (L.told devices.old.loader)
        (record { errors = E.written devices.old.errors; output = O.written devices.old.output })
        (record { errors = E.written devices.new.errors; output = O.written devices.new.output })
        status request.now) }
    ensures well { OnOk result
        ((O.failures devices.new.output ≡ O.failures devices.old.output)
        × (E.failures devices.new.errors ≡ E.failures devices.old.errors)) }
    ensures most { E.failures devices.new.errors ≤ E.failures devices.old.errors + 1 }
    ensures least { E.failures devices.old.errors ≤ E.failures devices.new.errors }
    ensures until { OnErr result
        (WritesSome (E.written devices.old.errors) (E.written devices.new.errors)) }
{
    match request {
        ToolRequest::Show(text) => {
            write_all(&mut devices.output, text.as_bytes())?;
            Ok(Status::Sound)
        }
        ToolRequest::Explain(words) => {
            explain(alloc, words, &mut devices.output)?;
            Ok(Status::Sound)
        }
        ToolRequest::Deps(deps) => write_deps(alloc, deps, devices),
        ToolRequest::Check(asked) => check(alloc, asked, devices),
        ToolRequest::Json(options) => write_json(alloc, options, devices),
        ToolRequest::Diff(diff) => write_diff(alloc, diff, devices),
        ToolRequest::Serve => {
            let status = service.serve(
                &mut devices.loader,
                &mut devices.source,
                &mut devices.output,
            )?;
            Ok(status)
        }
    }
}
