//! What is seen from outside of runs over devices that move one byte a call, and that fail at a call.

ghost use Rattle.std.specs.Prelude.{◌≡◌, None};

use idl_program::idl_session::{
    BufferSink, ReadFailed, Session, Sink, SliceSource, Source, Stop, WriteFailed, run,
};
use std::alloc::{AllocError, Global};
use std::test::Fail;

// Bytes that a sink takes.
const ROOM: usize = 65_536;

// Moves so many bytes, a few at each call; that the end is told counts as one. Further calls fail, and a write of other
// bytes.
#[derive(Drop)]
struct Device<'a> {
    bytes: &'a [u8],
    left: usize,
    most: usize,
    failures: u64,
}

impl<'a> Source for Device<'a> {
    ghost remaining = { λ _. None };

    ghost reads_left = { λ device. device.left };

    ghost failures = { λ device. device.failures };

    fn failures(&self) -> u64 {
        self.failures
    }

    fn read(&mut self, buffer: &mut [u8]) -> Result<usize, ReadFailed> {
        if self.left == 0 {
            self.failures += 1;
            return Err(ReadFailed);
        }
        let room = buffer.len().min(self.most).min(self.left);
        let (front, rest) = self.bytes.split_at(room.min(self.bytes.len()));
        buffer[..front.len()].copy_from_slice(front);
        self.bytes = rest;
        self.left -= front.len().max(1);
        Ok(front.len())
    }
}

impl<'a> Sink for Device<'a> {
    ghost written = { λ _. None };

    ghost failures = { λ device. device.failures };

    fn failures(&self) -> u64 {
        self.failures
    }

    fn write(&mut self, bytes: &[u8]) -> Result<usize, WriteFailed> {
        let n = bytes.len().min(self.most).min(self.left);
        match self.bytes.strip_prefix(&bytes[..n]) {
            Some(rest) if n > 0 => {
                self.bytes = rest;
                self.left -= n;
                Ok(n)
            }
            _ => {
                self.failures += 1;
                Err(WriteFailed)
            }
        }
    }
}

// The commands of a script, the replies to them, how many bytes of both are moved before a call fails, and how many at a
// call.
#[derive(Clone, Copy)]
struct Script<'a> {
    given: &'a str,
    wanted: &'a str,
    reads: usize,
    writes: usize,
    most: usize,
}

const ASKED: &str =
    "dump a.idl\nroot a.idl\ndiagnostics a.idl\ndump a.idl\nabsent a.idl\nroot d/b.idl\ndump d/b.idl\n\
     put c.idl 3\n#ifdef R\ntypedef long Y;\n#endif\nroot c.idl\ndump c.idl\n";

// A device that moves bytes of this text.
fn device_of(text: &str, left: usize, most: usize) -> Device<'_>
    ensures { result.failures ≡ 0 }
{
    let bytes = text.as_bytes();
    Device {
        bytes,
        left,
        most,
        failures: 0,
    }
}

// A run over such devices stops so. Nothing was called after a call that failed.
fn stops_so(session: &mut Session, script: Script<'_>, stop: Option<Stop>) -> bool {
    let mut source = device_of(script.given, script.reads, script.most);
    let mut sink = device_of(script.wanted, script.writes, script.most);
    run(session, &mut source, &mut sink).err() == stop
        && (source.left, sink.left) == (0, 0)
        && source.failures == u64::from(stop == Some(Stop::ReadFailed))
        && sink.failures == u64::from(stop == Some(Stop::WriteFailed))
}

// A run over such devices stops so, and leaves a session that answers so.
fn leaves(alloc: Global, script: Script<'_>, stop: Option<Stop>, want: &[u8]) -> Result<(), Fail> {
    let mut session = Session::new(alloc);
    let is_so = stops_so(&mut session, script, stop);
    let answer = served(alloc, &mut session, ASKED)?;
    if is_so && answer.as_bytes() == want {
        return Ok(());
    }
    let Script { reads, writes, .. } = script;
    Err(Fail::new(format_args!("{stop:?}: {reads} read, {writes} written")))
}

// What a session answers after the first bytes of these commands.
fn after(alloc: Global, given: &str, len: usize) -> Result<BufferSink, Fail> {
    let mut session = Session::new(alloc);
    let _replies = served(alloc, &mut session, given.get(..len).unwrap_or(given))?;
    served(alloc, &mut session, ASKED)
}

// Whichever read of a command fails, those before it have been served, and it has had no effect. To read the end is to read
// an empty command.
fn has_reads(alloc: Global, script: &mut Script<'_>, times: usize) -> Result<(), Fail> {
    let before = after(alloc, script.given, script.reads)?;
    for _ in 0..times {
        leaves(alloc, *script, Some(Stop::ReadFailed), before.as_bytes())?;
        script.reads = script.reads.saturating_add(1);
    }
    Ok(())
}

// Whichever write of a command's reply fails, it has been served, and none after it, also where all have been read at once.
fn has_writes(alloc: Global, script: &mut Script<'_>, times: usize) -> Result<(), Fail> {
    let done = after(alloc, script.given, script.reads)?;
    let mut ahead = *script;
    if script.most > 1 {
        ahead.reads = script.reads.max(script.given.len());
    }
    for _ in 0..times {
        leaves(alloc, ahead, Some(Stop::WriteFailed), done.as_bytes())?;
        ahead.writes = ahead.writes.saturating_add(1);
    }
    script.writes = ahead.writes;
    Ok(())
}

// The lines of all commands of a script, and their replies.
fn parted(alloc: Global, text: &str) -> Result<(String, String), AllocError> {
    let (mut given, mut wanted) = (String::new(alloc), String::new(alloc));
    for command in text.split('|') {
        let (lines, reply) = command.split_once("=>").unwrap_or((command, ""));
        given.push_str(lines)?;
        wanted.push_str(reply)?;
    }
    Ok((given, wanted))
}

fn have_stops(alloc: Global, text: &str, most: usize) -> Result<(), Fail> {
    let (given, wanted) = parted(alloc, text)?;
    let mut script = Script {
        given: given.as_str(),
        wanted: wanted.as_str(),
        reads: 0,
        writes: 0,
        most,
    };
    each_has_stops(alloc, text, &mut script)
}

// In the end nothing fails, and all has been served.
fn each_has_stops(alloc: Global, text: &str, script: &mut Script<'_>) -> Result<(), Fail> {
    for command in text.split('|') {
        let (lines, reply) = command.split_once("=>").unwrap_or((command, ""));
        has_reads(alloc, script, lines.len().max(1))?;
        has_writes(alloc, script, reply.len())?;
    }
    let all = after(alloc, script.given, script.reads)?;
    leaves(alloc, *script, None, all.as_bytes())
}

// Commands, each with its reply behind `=>`, and `|` between them; behind the last one what the end has.
static SCRIPTS: [&str; 3] = [
    "put a.idl 2\ntypedef long X;\ntypedef short X;\n=>ok\n|root a.idl\n=>ok\n|diagnostics a.idl\n=>rows 1\na.idl:2: \
     E33 X\n|dump a.idl\n=>rows 0\n|splice a.idl 2 1 0\n=>ok\n|dump a.idl\n=>rows 1\ntypedef long X;\n|=>",
    "root a.idl\n=>ok\n|put a.idl 3\ntypedef long X;\ntypedef long Y;\n|=>refused 10\n",
    "put a.idl 4\n#include \"b.idl\"\n#ifdef Q\ntypedef long X;\n#endif\n=>ok\n|root a.idl\n=>ok\n|search d\n=>ok\n\
     |absent a.idl\n=>rows 2\nb.idl\nd/b.idl\n|put d/b.idl 1\ntypedef long X;\n=>ok\n|dump a.idl\n=>rows 1\ntypedef \
     long X;\n|define Q 1\n=>ok\n|diagnostics a.idl\n=>rows 1\na.idl:3: E33 X\n|splice a.idl 1 1 1\n\n=>ok\n|undef Q\n\
     =>ok\n|dump a.idl\n=>rows 0\n|remove d/b.idl\n=>ok\n|root a.idl\n=>refused 8\n|unroot a.idl\n=>ok\n|dump a.idl\n\
     =>refused 7\n|\n=>refused 1\n|put a//b 1\nroot c.idl\n=>refused 2\n|define R\n=>ok\n|=>",
];

// Over one byte a call, and over all bytes at once.
#[test]
fn runs_stop_where_a_call_fails(rt: HostRuntime) -> Result<(), Fail> {
    for most in [1, 4096] {
        for text in &SCRIPTS {
            have_stops(rt.alloc(), text, most)?;
        }
    }
    Ok(())
}

// What a session replies to a script.
fn served(alloc: Global, session: &mut Session, script: &str) -> Result<BufferSink, Fail> {
    let mut source = SliceSource::new(script.as_bytes());
    let mut sink = BufferSink::new(alloc, ROOM)?;
    run(session, &mut source, &mut sink)?;
    Ok(sink)
}
