//! The words that a program is started with, and how it ends.

ghost use Rattle.std.specs.Prelude.{◌≡◌, IfErr, IfOk};
ghost use Rattle.std.specs.Process.{exit_status};
ghost use Rattle.idl_loader.specs.Exit.{exit_code};

use idl_loader::Status;
use std::alloc::{AllocError, Global};
use std::env::args;
use std::io;
use std::process::ExitCode;

/// The words behind the program's name.
pub fn words(rt: &HostRuntime) -> io::Result<Vec<String>> {
    let mut words = Vec::new(rt.alloc());
    for word in args(rt)?.skip(1) {
        words.push(word)?;
    }
    Ok(words)
}

/// The same, lent.
pub fn texts<'w>(alloc: Global, words: &'w [String]) -> Result<Vec<&'w str>, AllocError> {
    let mut texts = Vec::new(alloc);
    for word in words {
        texts.push(word.as_str())?;
    }
    Ok(texts)
}

/// The exit code of a program of this name, which ended so; or with a line where it had no words, as they aren't UTF-8, or memory was
/// refused for them.
pub fn exit_code_of(rt: &HostRuntime, program: &str, ended: io::Result<Status>) -> ExitCode
    ensures ok { IfOk ended (λ status. exit_status result ≡ exit_code status) }
    ensures err { IfErr ended (λ _. exit_status result ≡ 2) }
{
    match ended {
        Ok(status) => ExitCode::from(status.code()),
        Err(_) => {
            // Where standard error can't be written either, the status tells.
            let _ = eprintln!(rt; "{program}: bad arguments");
            ExitCode::from(Status::Failed.code())
        }
    }
}
