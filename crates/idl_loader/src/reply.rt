//! Lines and replies. Each is gathered, goes out in large pieces, and has gone out whole by its end.

ghost use Rattle.std.specs.Prelude.{◌≡◌, ◌<◌, ◌+◌, ◌-◌, ◌^◌, [], ◌++◌, OnOk, OnErr, decimal};
ghost use Rattle.std.specs.List.{flat_map};
ghost use Rattle.idl_source.specs.devices.Device.{append, WritesPart};
ghost use Rattle.idl_loader.specs.Gathering.{Sends};
ghost use Rattle.idl_loader.specs.Lines.{number_line, whole_line};

use arrayvec::ArrayVec;
use idl_base::Bytes;
use idl_source::Sink;
use idl_source::devices::{WriteFailed, write_all};
use itoa::Buffer;
use std::marker::Model;

/// Each row on a line of its own, and nothing else.
pub fn write_lines<K: Sink>(sink: &mut K, rows: &[Bytes]) -> Result<(), WriteFailed>
    requires counts { K.failures sink.old < 2 ^ 64 - 1 }

    ensures written { OnOk result
        (K.written sink.new ≡ append (K.written sink.old) (flat_map whole_line rows.now)) }
    ensures ok { OnOk result (K.failures sink.new ≡ K.failures sink.old) }

    ensures part { OnErr result
        (WritesPart (K.written sink.old) (flat_map whole_line rows.now) (K.written sink.new)) }
    ensures err { OnErr result (K.failures sink.new ≡ K.failures sink.old + 1) }
{
    let mut reply = Reply::new();
    'rows: for row in rows {
        reply.push_line(sink, row.as_bytes())?;
    }
    reply.finish(sink)
}

/// What was gathered of a reply and hasn't gone out.
#[derive(Drop)]
pub struct Reply {
    bytes: ArrayVec<u8, 4096>,
}

impl Model for Reply {
    ghost use Rattle.std.specs.Prelude.{List, ℕ};

    ghost Value = { List ℕ };

    ghost view = { λ reply. reply.bytes.items };
}

impl Reply {
    /// Nothing was gathered.
    pub fn new() -> Reply
        ensures { result ≡ [] }
    {
        Reply {
            bytes: ArrayVec::new(),
        }
    }

    /// A word and a number, and the end of the line.
    pub fn push_counted<K: Sink>(
        &mut self,
        sink: &mut K,
        word: &[u8],
        n: usize,
    ) -> Result<(), WriteFailed>
        requires counts { K.failures sink.old < 2 ^ 64 - 1 }

        ensures sent { let bytes = self.old ++ number_line word.now n in OnOk result
            (Sends (K.written sink.old) bytes (K.written sink.new) self.new) }
        ensures ok { OnOk result (K.failures sink.new ≡ K.failures sink.old) }

        ensures part { let bytes = self.old ++ number_line word.now n in OnErr result
            (WritesPart (K.written sink.old) bytes (K.written sink.new)) }
        ensures err { OnErr result (K.failures sink.new ≡ K.failures sink.old + 1) }
    {
        let mut buffer = Buffer::new();
        self.push(sink, word)?;
        self.push_line(sink, buffer.format(n).as_bytes())
    }

    /// A word and a number.
    pub fn push_number<K: Sink>(
        &mut self,
        sink: &mut K,
        word: &[u8],
        n: u64,
    ) -> Result<(), WriteFailed>
        requires counts { K.failures sink.old < 2 ^ 64 - 1 }

        ensures sent { let bytes = self.old ++ (word.now ++ decimal n) in OnOk result
            (Sends (K.written sink.old) bytes (K.written sink.new) self.new) }
        ensures ok { OnOk result (K.failures sink.new ≡ K.failures sink.old) }

        ensures part { let bytes = self.old ++ (word.now ++ decimal n) in OnErr result
            (WritesPart (K.written sink.old) bytes (K.written sink.new)) }
        ensures err { OnErr result (K.failures sink.new ≡ K.failures sink.old + 1) }
    {
        let mut buffer = Buffer::new();
        self.push(sink, word)?;
        self.push(sink, buffer.format(n).as_bytes())
    }

    /// Bytes, and the end of the line.
    pub fn push_line<K: Sink>(&mut self, sink: &mut K, line: &[u8]) -> Result<(), WriteFailed>
        requires counts { K.failures sink.old < 2 ^ 64 - 1 }

        ensures sent { let bytes = self.old ++ whole_line line.now in OnOk result
            (Sends (K.written sink.old) bytes (K.written sink.new) self.new) }
        ensures ok { OnOk result (K.failures sink.new ≡ K.failures sink.old) }

        ensures part { let bytes = self.old ++ whole_line line.now in OnErr result
            (WritesPart (K.written sink.old) bytes (K.written sink.new)) }
        ensures err { OnErr result (K.failures sink.new ≡ K.failures sink.old + 1) }
    {
        self.push(sink, line)?;
        self.push(sink, b"\n")
    }

    /// Bytes of the reply: they and those before them go out now only where they don't fit.
    pub fn push<K: Sink>(&mut self, sink: &mut K, bytes: &[u8]) -> Result<(), WriteFailed>
        requires counts { K.failures sink.old < 2 ^ 64 - 1 }

        ensures sent { OnOk result
            (Sends (K.written sink.old) (self.old ++ bytes.now) (K.written sink.new) self.new) }
        ensures ok { OnOk result (K.failures sink.new ≡ K.failures sink.old) }

        ensures part { OnErr result
            (WritesPart (K.written sink.old) (self.old ++ bytes.now) (K.written sink.new)) }
        ensures err { OnErr result (K.failures sink.new ≡ K.failures sink.old + 1) }
    {
        if self.bytes.try_extend_from_slice(bytes).is_ok() {
            return Ok(());
        }
        write_all(sink, &self.bytes)?;
        self.bytes.clear();
        if self.bytes.try_extend_from_slice(bytes).is_ok() {
            return Ok(());
        }
        write_all(sink, bytes)
    }

    /// The end of the reply: what was gathered goes out.
    pub fn finish<K: Sink>(self, sink: &mut K) -> Result<(), WriteFailed>
        requires counts { K.failures sink.old < 2 ^ 64 - 1 }

        ensures written { OnOk result (K.written sink.new ≡ append (K.written sink.old) self) }
        ensures ok { OnOk result (K.failures sink.new ≡ K.failures sink.old) }

        ensures part { OnErr result (WritesPart (K.written sink.old) self (K.written sink.new)) }
        ensures err { OnErr result (K.failures sink.new ≡ K.failures sink.old + 1) }
    {
        write_all(sink, self.bytes.as_slice())
    }
}
