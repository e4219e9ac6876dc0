//! One command: what its heading asks for is done, and the reply goes out.

ghost use Rattle.std.specs.Prelude.{◌≡◌, ◌≤◌, ◌<◌, ◌+◌, ◌-◌, ◌^◌, [], false, IfErr, OnOk, OnErr};
ghost use Rattle.std.specs.Option.{option_map};
ghost use Rattle.idl_source.specs.devices.Device.{append, WritesPart};
ghost use Rattle.idl_session.specs.Headings.{request_by, HasLines};
ghost use Rattle.idl_session.specs.replies.Replies.{edit_reply, query_reply};
ghost use Rattle.idl_session.specs.Requests.{request_kept};
ghost use Rattle.idl_session.specs.replies.Rows.{rows_of};
ghost use Rattle.idl_session.specs.Serving.{SendsReply, IsCut};
ghost use Rattle.idl_session.specs.Stopping.{IsCounted};
ghost use Rattle.idl_session.specs.Streams.{fuel};

use crate::MAX_COMMAND;
use crate::announced::read_announced;
use crate::edit::{make, place};
use crate::feed::Feed;
use crate::heading::{Heading, parse};
use crate::line_buffer::LineBuffer;
use crate::reply::{write_ok, write_refused, write_rows, write_work};
use crate::rows::{Rows, ask};
use idl_loader::Stop;
use idl_project::{Session, Work};
use idl_source::devices::WriteFailed;
use idl_source::{Name, Refusal, Sink, Source};

/// What was read of a source: a command line, and the bytes after it.
#[derive(Drop)]
pub struct Input {
    pub line: LineBuffer<MAX_COMMAND>,
    pub feed: Feed,
}

impl Input {
    /// Nothing was read.
    pub fn new() -> Input
        ensures { result.feed ≡ record { bytes = []; ended = false } }
    {
        Input {
            line: LineBuffer::new(),
            feed: Feed::new(),
        }
    }
}

/// Serves the command of the line, with the further lines that it takes.
///
/// Where a read failed nothing was done. Where a write failed the command was served, and of its reply a beginning went
/// out.
pub fn serve<S: Source, K: Sink>(
    session: &mut Session,
    source: &mut S,
    input: &mut Input,
    sink: &mut K,
) -> Result<(), Stop>
    requires reads { S.failures source.old < 2 ^ 64 - 1 }
    requires writes { K.failures sink.old < 2 ^ 64 - 1 }

    ensures served { OnOk result (SendsReply (request_kept input.old.line)
        (record {
          left = S.remaining source.old;
          fed = input.old.feed;
          written = K.written sink.old;
          state = session.old;
        })
        (record {
          left = S.remaining source.new;
          fed = input.new.feed;
          written = K.written sink.new;
          state = session.new;
        })) }
    ensures nearer { OnOk result (fuel (S.reads_left source.new) input.new.feed
        ≤ fuel (S.reads_left source.old) input.old.feed) }
    ensures reads { OnOk result (S.failures source.new ≡ S.failures source.old) }
    ensures writes { OnOk result (K.failures sink.new ≡ K.failures sink.old) }

    ensures cut { IfErr result (λ stop. IsCut stop (request_kept input.old.line)
        (record {
          left = S.remaining source.old;
          fed = input.old.feed;
          written = K.written sink.old;
          state = session.old;
        })
        (record {
          left = S.remaining source.new;
          fed = input.new.feed;
          written = K.written sink.new;
          state = session.new;
        })) }
    ensures stops { IfErr result (λ stop. IsCounted stop
        (record { reads = S.failures source.old; writes = K.failures sink.old })
        (record { reads = S.failures source.new; writes = K.failures sink.new })) }
{
    match heading_of(&input.line) {
        Heading::Malformed => {
            write_refused(sink, Refusal::Malformed)?;
            Ok(())
        }
        Heading::Place(placement, count) => {
            let announced = read_announced(session.allocator(), source, &mut input.feed, count)?;
            let outcome = place(session, placement, announced);
            write_edit(sink, outcome)?;
            Ok(())
        }
        Heading::Make(change) => {
            let outcome = make(session, change);
            write_edit(sink, outcome)?;
            Ok(())
        }
        Heading::Ask(question, name) => {
            let rows = ask(session, question, name);
            write_query(sink, name, rows)?;
            Ok(())
        }
        Heading::Work => {
            write_work(sink, session.work())?;
            Ok(())
        }
    }
}

// A line that is too long is no command.
fn heading_of(line: &LineBuffer<MAX_COMMAND>) -> Heading<'_>
    ensures request { request_by result ≡ request_kept line.entry.now }
    ensures one_line { HasLines result }
{
    match line.get() {
        Some(line) => parse(line),
        None => Heading::Malformed,
    }
}

#[inline(never)]
fn write_edit<K: Sink>(sink: &mut K, outcome: Result<Work, Refusal>) -> Result<(), WriteFailed>
    requires counts { K.failures sink.old < 2 ^ 64 - 1 }

    ensures written { OnOk result
        (K.written sink.new ≡ append (K.written sink.old) (edit_reply outcome)) }
    ensures ok { OnOk result (K.failures sink.new ≡ K.failures sink.old) }

    ensures part { OnErr result
        (WritesPart (K.written sink.old) (edit_reply outcome) (K.written sink.new)) }
    ensures err { OnErr result (K.failures sink.new ≡ K.failures sink.old + 1) }
{
    match outcome {
        Ok(_work) => write_ok(sink),
        Err(refusal) => write_refused(sink, refusal),
    }
}

// The rows that a query of this name found, or why there are none.
#[inline(never)]
fn write_query<K: Sink>(
    sink: &mut K,
    name: &[u8],
    rows: Option<Rows<'_>>,
) -> Result<(), WriteFailed>
    requires counts { K.failures sink.old < 2 ^ 64 - 1 }

    ensures written { let reply = query_reply name.now (option_map rows_of rows.entry) in
        OnOk result (K.written sink.new ≡ append (K.written sink.old) reply) }
    ensures ok { OnOk result (K.failures sink.new ≡ K.failures sink.old) }

    ensures part { let reply = query_reply name.now (option_map rows_of rows.entry) in
        OnErr result (WritesPart (K.written sink.old) reply (K.written sink.new)) }
    ensures err { OnErr result (K.failures sink.new ≡ K.failures sink.old + 1) }
{
    if Name::new(name).is_none() {
        return write_refused(sink, Refusal::BadName);
    }
    match rows {
        Some(rows) => write_rows(sink, rows),
        None => write_refused(sink, Refusal::NoSuchRoot),
    }
}
