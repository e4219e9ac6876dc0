//! What the tests share: scripts with their replies.

ghost use Rattle.std.specs.Prelude.{◌≡◌, IfOk};

use idl_session::{Session, run};
use idl_source::devices::{BufferSink, SliceSource};
use std::alloc::{AllocError, Global};
use std::test::Fail;

// The text, in which `` `3×a@;` `` stands for `a1;a2;a3;`.
fn in_full(alloc: Global, text: &str) -> Result<String, AllocError> {
    let mut full = String::new(alloc);
    for part in text.split('`') {
        match part.split_once('×') {
            Some((count, piece)) => push_times(&mut full, count.parse().unwrap_or(0), piece)?,
            None => full.push_str(part)?,
        }
    }
    Ok(full)
}

fn push_times(text: &mut String, count: usize, piece: &str) -> Result<(), AllocError> {
    for n in 0..count {
        for c in piece.chars() {
            match c {
                '@' => write!(text, "{}", n + 1)?,
                c => text.push(c)?,
            }
        }
    }
    Ok(())
}

// The commands of a script, and the replies, which have `=` before them. Each line ends with a newline.
fn parted(alloc: Global, text: &str) -> Result<(String, String), AllocError> {
    let mut given = String::new(alloc);
    let mut wanted = String::new(alloc);
    for line in text.split('\n') {
        match line.strip_prefix('=') {
            Some(line) => write!(wanted, "{line}\n")?,
            None => write!(given, "{line}\n")?,
        }
    }
    Ok((given, wanted))
}

/// The replies of a session to a script.
pub fn replies(alloc: Global, session: &mut Session, script: &str) -> Result<BufferSink, Fail> {
    let mut source = SliceSource::new(script.as_bytes());
    let mut sink = empty_sink(alloc)?;
    run(session, &mut source, &mut sink)?;
    Ok(sink)
}

fn empty_sink(alloc: Global) -> Result<BufferSink, AllocError>
    ensures { IfOk result (λ sink. sink.failures ≡ 0) }
{
    BufferSink::new(alloc, 65_536)
}

/// The session has these replies to a script.
pub fn answers(alloc: Global, session: &mut Session, given: &str, want: &str) -> Result<(), Fail> {
    let found = replies(alloc, session, given)?;
    if found.as_bytes() == want.as_bytes() {
        return Ok(());
    }
    let found = str::from_utf8(found.as_bytes()).unwrap_or("");
    Err(Fail::new(format_args!("{given}: {found}, not {want}")))
}

/// A new session has the replies that stand in a script behind `=`, for each of these. There `` `3×a@;` `` stands for `a1;a2;a3;`.
pub fn have_replies(alloc: Global, scripts: &[&str]) -> Result<(), Fail> {
    for script in scripts {
        has_replies(alloc, script)?;
    }
    Ok(())
}

fn has_replies(alloc: Global, script: &str) -> Result<(), Fail> {
    let text = in_full(alloc, script)?;
    let (given, wanted) = parted(alloc, text.as_str())?;
    let mut session = Session::new(alloc);
    answers(alloc, &mut session, given.as_str(), wanted.as_str())
}
