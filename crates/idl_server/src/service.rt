//! The language server over its streams: messages of an editor are read, and what is to be said is written.

ghost use Rattle.std.specs.Prelude.{◌≡◌, ◌<◌, ◌≤◌, ◌-◌, ◌^◌, ℕ, List, [], map, Option, IfOk, OnOk, false};
ghost use Rattle.serde_json.specs.Data.{Data};
ghost use Rattle.serde_json.specs.View.{view};
ghost use Rattle.idl_source.specs.devices.Device.{append, prepend};
ghost use Rattle.idl_editor.specs.frames.Reading.{IsNearer, Receives, fuel};
ghost use Rattle.idl_editor.specs.messages.Said.{said_by};
ghost use Rattle.idl_editor.specs.declared.messages.message.Message.{Message};
ghost use Rattle.idl_server.specs.Late.{TakesIn};
ghost use Rattle.idl_server.specs.Messages.{IsAnswered, IsMessageOf};
ghost use Rattle.idl_server.specs.Server.{IsNew, IsSettled};
ghost use Rattle.idl_server.specs.Serving.{AreWritten, HasStepped, IsServed};
ghost use Rattle.idl_server.specs.declared.server.Server.{Server};

use crate::server::{Server, StepOutcome};
use idl_editor::frames::{ReadFault, Reader, Received, message_of};
use idl_editor::messages::Outbox;
use idl_loader::{PathLoader, Service, ServiceFault, Status};
use idl_source::devices::write_all;
use idl_source::{Sink, Source};
use serde_json::Value;
use std::alloc::{AllocError, Global};

/// Serves each editor by a [`Server`] of its own.
#[derive(Drop)]
pub struct LanguageServer {
    alloc: Global,
}

impl LanguageServer {
    /// Servers whose memory comes from here.
    pub fn new(alloc: Global) -> LanguageServer {
        LanguageServer { alloc }
    }
}

impl Service for LanguageServer {
    /// Serves an editor till it ends the server, or its messages end.
    fn serve<L: PathLoader, S: Source, O: Sink>(
        &self,
        loader: &mut L,
        source: &mut S,
        output: &mut O,
    ) -> Result<Status, ServiceFault>
        requires reads { S.failures source.old < 2 ^ 64 - 1 }
        requires writes { O.failures output.old < 2 ^ 64 - 1 }
        ensures well { OnOk result (O.failures output.new ≡ O.failures output.old) }
        ensures served { IfOk result (λ status. (first : Server) × IsNew first
            × IsServed (L.told_of loader.old) first (S.remaining source.old)
            (O.written output.old) (O.written output.new) status) }
    {
        let mut server = Server::new(self.alloc);
        answer_messages(&mut server, loader, source, output)
    }
}

// Answers each message that comes.
fn answer_messages<L: PathLoader, S: Source, O: Sink>(
    server: &mut Server,
    loader: &mut L,
    source: &mut S,
    output: &mut O,
) -> Result<Status, ServiceFault>
    requires reads { S.failures source.old < 2 ^ 64 - 1 }
    requires writes { O.failures output.old < 2 ^ 64 - 1 }
    requires settled { IsSettled (L.told_of loader.old) server.old }
    requires on_time { server.old.late.keys ≡ [] }
    ensures well { OnOk result (O.failures output.new ≡ O.failures output.old) }
    ensures served { IfOk result (λ status. IsServed (L.told_of loader.old) server.old
        (S.remaining source.old) (O.written output.old) (O.written output.new) status) }
{
    let mut reader = Reader::new(server.workspace.session.allocator());
    'messages: loop {
        let Received::Body(body) = received(&mut reader, source)? else {
            return Ok(Status::Faulty);
        };
        let message = (body.as_slice(), !reader.is_empty());
        match answer_message(server, loader, message, output)? {
            StepOutcome::Goes => {}
            StepOutcome::Ends => return Ok(Status::Sound),
            StepOutcome::BreaksOff => return Ok(Status::Faulty),
        }
    }
}

// The next message, or that there is none.
fn received<S: Source>(reader: &mut Reader, source: &mut S) -> Result<Received, ServiceFault>
    requires reads { S.failures source.old < 2 ^ 64 - 1 }
    ensures received { IfOk result (λ received. Receives received
        (prepend reader.old (S.remaining source.old))
        (prepend reader.new (S.remaining source.new))) }
    ensures nearer { IfOk result (λ received. IsNearer received
        (fuel (S.reads_left source.old) reader.old)
        (fuel (S.reads_left source.new) reader.new)) }
    ensures ok { OnOk result (S.failures source.new ≡ S.failures source.old) }
{
    match reader.receive(source) {
        Ok(received) => Ok(received),
        // A stream that can't be read has ended.
        Err(ReadFault::ReadFailed) => Err(ServiceFault::ReadFailed),
        Err(ReadFault::NoMemory) => Err(ServiceFault::NoMemory),
    }
}

// A step by a message, and whether more has come behind it.
fn step_by<L: PathLoader>(
    server: &mut Server,
    loader: &mut L,
    message: (&[u8], bool),
    out: &mut Outbox,
) -> Result<StepOutcome, AllocError>
    ensures settled { IsSettled (L.told_of loader.old) server.old
        → OnOk result (IsSettled (L.told_of loader.old) server.new) }
    ensures taken { OnOk result (TakesIn message.entry.0.now server.old server.new
        (said_by out.old) (said_by out.new)) }
    ensures on_time { message.entry.1 ≡ false → OnOk result (server.new.late.keys ≡ []) }
    ensures answered { IfOk result (λ outcome. (asked : Message)
        × IsMessageOf message.entry.0.now asked
        × IsAnswered asked server.old.phase server.new.phase
        (said_by out.old) (said_by out.new) outcome) }
    ensures stays { L.told_of loader.new ≡ L.told_of loader.old }
{
    let (body, is_followed) = message;
    if is_followed {
        return server.step_early(loader, body, out);
    }
    server.step(loader, body, out)
}

// Does what a message asks for, by whether more has come behind it, and writes what is to be said.
fn answer_message<L: PathLoader, O: Sink>(
    server: &mut Server,
    loader: &mut L,
    message: (&[u8], bool),
    output: &mut O,
) -> Result<StepOutcome, ServiceFault>
    requires writes { O.failures output.old < 2 ^ 64 - 1 }
    requires settled { IsSettled (L.told_of loader.old) server.old }
    ensures ok { OnOk result (O.failures output.new ≡ O.failures output.old) }
    ensures stepped { IfOk result (λ outcome. (said : List Data) × (text : List ℕ)
        × HasStepped (L.told_of loader.old) message.entry.0.now server.old said server.new outcome
        × AreWritten said text × (O.written output.new ≡ append (O.written output.old) text)) }
    ensures on_time { message.entry.1 ≡ false → OnOk result (server.new.late.keys ≡ []) }
    ensures stays { L.told_of loader.new ≡ L.told_of loader.old }
{
    let mut out = Outbox::new(server.workspace.session.allocator());
    let next = step_by(server, loader, message, &mut out)?;
    write_messages(server.workspace.session.allocator(), out.messages(), output)?;
    Ok(next)
}

// Writes messages, each with its head.
fn write_messages<O: Sink>(
    alloc: Global,
    messages: &[Value],
    output: &mut O,
) -> Result<(), ServiceFault>
    requires writes { O.failures output.old < 2 ^ 64 - 1 }
    ensures ok { OnOk result (O.failures output.new ≡ O.failures output.old) }
    ensures written { OnOk result ((text : List ℕ) × AreWritten (map view messages.now) text
        × (O.written output.new ≡ append (O.written output.old) text)) }
{
    'messages: for value in messages {
        let body = value.to_vec(alloc)?;
        let message = message_of(alloc, &body)?;
        write_all(output, &message)?;
    }
    Ok(())
}
