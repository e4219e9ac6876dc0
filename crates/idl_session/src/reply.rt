//! Replies. Each is gathered, goes out in large pieces, and has gone out whole by its end.

ghost use Rattle.std.specs.Prelude.{◌≡◌, ◌<◌, ◌+◌, ◌-◌, ◌^◌, OnOk, OnErr};
ghost use Rattle.idl_source.specs.devices.Device.{append, WritesPart};
ghost use Rattle.idl_session.specs.replies.Replies.{ok_reply, refused_reply, rows_reply, work_reply};
ghost use Rattle.idl_session.specs.replies.Rows.{rows_of};

use crate::rows::Rows;
use idl_loader::Reply;
use idl_project::Work;
use idl_source::devices::{WriteFailed, write_all};
use idl_source::{Refusal, Sink};

/// `ok`
pub fn write_ok<K: Sink>(sink: &mut K) -> Result<(), WriteFailed>
    requires counts { K.failures sink.old < 2 ^ 64 - 1 }

    ensures written { OnOk result (K.written sink.new ≡ append (K.written sink.old) ok_reply) }
    ensures ok { OnOk result (K.failures sink.new ≡ K.failures sink.old) }

    ensures part { OnErr result (WritesPart (K.written sink.old) ok_reply (K.written sink.new)) }
    ensures err { OnErr result (K.failures sink.new ≡ K.failures sink.old + 1) }
{
    write_all(sink, b"ok\n")
}

/// `refused` and the number of the refusal
#[inline(never)]
pub fn write_refused<K: Sink>(sink: &mut K, refusal: Refusal) -> Result<(), WriteFailed>
    requires counts { K.failures sink.old < 2 ^ 64 - 1 }

    ensures written { OnOk result
        (K.written sink.new ≡ append (K.written sink.old) (refused_reply refusal)) }
    ensures ok { OnOk result (K.failures sink.new ≡ K.failures sink.old) }

    ensures part { OnErr result
        (WritesPart (K.written sink.old) (refused_reply refusal) (K.written sink.new)) }
    ensures err { OnErr result (K.failures sink.new ≡ K.failures sink.old + 1) }
{
    let mut reply = Reply::new();
    reply.push_counted(sink, b"refused ", usize::from(refusal.number()))?;
    reply.finish(sink)
}

/// `rows`, how many there are, and each on a line of its own
pub fn write_rows<K: Sink>(sink: &mut K, rows: Rows<'_>) -> Result<(), WriteFailed>
    requires counts { K.failures sink.old < 2 ^ 64 - 1 }

    ensures written { OnOk result
        (K.written sink.new ≡ append (K.written sink.old) (rows_reply (rows_of rows.entry))) }
    ensures ok { OnOk result (K.failures sink.new ≡ K.failures sink.old) }

    ensures part { OnErr result
        (WritesPart (K.written sink.old) (rows_reply (rows_of rows.entry)) (K.written sink.new)) }
    ensures err { OnErr result (K.failures sink.new ≡ K.failures sink.old + 1) }
{
    let mut reply = Reply::new();
    reply.push_counted(sink, b"rows ", rows.len())?;
    'rows: for i in 0..rows.len() {
        reply.push_line(sink, rows.get(i))?;
    }
    reply.finish(sink)
}

/// `work`, and how many roots were expanded, declarations checked and entries printed
#[inline(never)]
pub fn write_work<K: Sink>(sink: &mut K, work: Work) -> Result<(), WriteFailed>
    requires counts { K.failures sink.old < 2 ^ 64 - 1 }

    ensures written { OnOk result
        (K.written sink.new ≡ append (K.written sink.old) (work_reply work)) }
    ensures ok { OnOk result (K.failures sink.new ≡ K.failures sink.old) }

    ensures part { OnErr result
        (WritesPart (K.written sink.old) (work_reply work) (K.written sink.new)) }
    ensures err { OnErr result (K.failures sink.new ≡ K.failures sink.old + 1) }
{
    let mut reply = Reply::new();
    reply.push_number(sink, b"work ", work.expanded)?;
    reply.push_number(sink, b" ", work.checked)?;
    reply.push_number(sink, b" ", work.printed)?;
    reply.push(sink, b"\n")?;
    reply.finish(sink)
}
