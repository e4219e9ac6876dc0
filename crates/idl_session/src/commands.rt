//! All commands of a source.

ghost use Rattle.std.specs.Prelude.{◌≡◌, ◌<◌, ◌-◌, ◌^◌, ℕ, List, IfErr, IfSome, OnOk};
ghost use Rattle.idl_source.specs.devices.Device.{append};
ghost use Rattle.idl_session.specs.Answers.{IsReply};
ghost use Rattle.idl_session.specs.Stopping.{IsCounted, IsLeft};

use crate::line_buffer::read_line;
use crate::serve::{Input, serve};
use idl_loader::Stop;
use idl_project::Session;
use idl_source::{Sink, Source};

/// Serves the commands that a source gives, one after the other until it ends, and writes the replies to a sink.
///
/// A command is a line of words, parted by one blank each; a word is of bytes 33 to 126. Only a body has other bytes. A number is `0`, or one to nine
/// digits without leading zero. A last line without newline counts if it has a byte.
///
/// | Command | Reply |
/// |---|---|
/// | `put NAME N` and N lines: puts a file | `ok` |
/// | `splice NAME FROM DEL N` and N lines: puts them in the place of DEL lines from line FROM on, where 1 is the first | `ok` |
/// | `remove NAME`: removes a file | `ok` |
/// | `define WORD`, `define WORD BODY`: defines a macro before the first line of each root; the body is all bytes after the second blank | `ok` |
/// | `undef WORD`: takes a macro out, if there is one | `ok` |
/// | `search`, `search DIRECTORY ..`: where included files are searched | `ok` |
/// | `root NAME`, `unroot NAME`: makes a file a root, or none any more | `ok` |
/// | `diagnostics NAME`, `listing NAME`, `dump NAME`: asks for the rows of a root | `rows N` and N lines |
/// | `absent NAME`: asks for the files that a root asked for and that aren't there | `rows N` and N lines |
/// | `work`: asks what the last accepted edit came to | `work E C P`: roots expanded, declarations checked, entries printed |
///
/// What is refused has the reply `refused N`, N being the number of the [`Refusal`](crate::Refusal), and changes nothing.
/// All else is a malformed command, and so is a line of more than [`MAX_COMMAND`](crate::MAX_COMMAND) bytes. The lines that a `put` or a `splice`
/// announces are taken where it is refused, too.
///
/// Each reply has gone out whole before the next command is served, and before anything more is read. The first failure of
/// a device ends the run, and neither device is called after that: see [`Stop`]. Nothing is read once the source has told
/// its end. Memory is taken by edits alone, and not by `unroot`.
#[inline(never)]
pub fn run<S: Source, K: Sink>(
    session: &mut Session,
    source: &mut S,
    sink: &mut K,
) -> Result<(), Stop>
    // A device that counts its failures from 0 can't come near.
    requires reads { S.failures source.old < 2 ^ 64 - 1 }
    requires writes { K.failures sink.old < 2 ^ 64 - 1 }

    // What went out is a reply to all that came in, and the session is in the state that it tells of.
    ensures replied { OnOk result (IfSome (S.remaining source.old) (λ input.
        (output : List ℕ) × (K.written sink.new ≡ append (K.written sink.old) output)
        × IsReply session.old input output session.new)) }

    ensures ok { OnOk result
        ((S.failures source.new ≡ S.failures source.old)
        × (K.failures sink.new ≡ K.failures sink.old)) }

    // One device failed once, and neither was called after that.
    ensures stops { IfErr result (λ stop. IsCounted stop
        (record { reads = S.failures source.old; writes = K.failures sink.old })
        (record { reads = S.failures source.new; writes = K.failures sink.new })) }
    // After a failed read, what was read whole is done and answered. After a failed write, what was done is answered
    // but for a part of the last reply.
    ensures left { IfErr result (λ stop. IfSome (S.remaining source.old) (λ input.
        IsLeft stop input
        (record {
          left = S.remaining source.old;
          written = K.written sink.old;
          state = session.old;
        })
        (record {
          left = S.remaining source.new;
          written = K.written sink.new;
          state = session.new;
        }))) }
{
    let mut input = Input::new();
    'commands: loop {
        if !read_line(source, &mut input.feed, &mut input.line)? {
            return Ok(());
        }
        serve(session, source, &mut input, sink)?;
    }
}
