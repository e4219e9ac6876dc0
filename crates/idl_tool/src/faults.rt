//! Trouble with files, which leaves what is told of others as it is.

ghost use Rattle.std.specs.Prelude.{◌≡◌, ◌++◌, IfOk, OnOk, codes};
ghost use Rattle.idl_tool.specs.Messages.{AreLines, AreTroubleMessages, IsBehind, IsFaultMessage, IsNamelessMessage, IsRefusedMessage, ended_by, limit_message, line_about};

use crate::failure::limit_words;
use idl_driver::{CompileFault, Limit, SoundFiles};
use idl_explain::{Topic, explanation_of};
use idl_loader::Status;
use idl_source::Refusal;
use std::alloc::{AllocError, Global};

/// A line of each trouble with these files.
pub fn troubles_text(alloc: Global, files: &SoundFiles<'_>) -> Result<Vec<u8>, AllocError>
    ensures { IfOk result (λ text. AreTroubleMessages files.now text.items) }
{
    let mut text = Vec::new(alloc);
    push_nameless(&files.nameless, &mut text)?;
    push_faults(&files.sound.faults, &mut text)?;
    Ok(text)
}

/// How the program ends after these troubles, where it would else end so.
pub fn ended_by(files: &SoundFiles<'_>, status: Status) -> Status
    ensures { result ≡ ended_by files.now status }
{
    if files.nameless.is_empty() && files.sound.faults.is_empty() {
        status
    } else {
        Status::Failed
    }
}

// Writes a line about each of these FILEs, which lead to no names.
fn push_nameless(words: &[&str], out: &mut Vec<u8>) -> Result<(), AllocError>
    ensures { OnOk result
        (IsBehind (AreLines IsNamelessMessage words.now) out.old.items out.new.items) }
{
    'words: for word in words {
        push_refused(word.as_bytes(), Refusal::BadName, out)?;
    }
    Ok(())
}

// Writes a line about each of these troubles.
fn push_faults(faults: &[CompileFault], out: &mut Vec<u8>) -> Result<(), AllocError>
    ensures { OnOk result
        (IsBehind (AreLines IsFaultMessage faults.now) out.old.items out.new.items) }
{
    'faults: for fault in faults {
        push_fault(fault, out)?;
    }
    Ok(())
}

// Writes the line about trouble with a file.
fn push_fault(fault: &CompileFault, out: &mut Vec<u8>) -> Result<(), AllocError>
    ensures { OnOk result (IsBehind (IsFaultMessage fault.now) out.old.items out.new.items) }
{
    match fault {
        CompileFault::Refused(name, refusal) => push_refused(name.as_bytes(), *refusal, out),
        CompileFault::OverLimit(name, limit) => push_limit(name.as_bytes(), *limit, out),
        CompileFault::CannotRead(name) => push_unreadable(name.as_bytes(), out),
    }
}

// Writes that about a file that is refused.
fn push_refused(name: &[u8], refusal: Refusal, out: &mut Vec<u8>) -> Result<(), AllocError>
    ensures { OnOk result
        (IsBehind (IsRefusedMessage name.now refusal) out.old.items out.new.items) }
{
    push_about(name, out)?;
    explanation_of(Topic::Refusal(refusal)).push_headline(b"", out)
}

// Writes who tells, and of what.
fn push_about(name: &[u8], out: &mut Vec<u8>) -> Result<(), AllocError>
    ensures { OnOk result
        (out.new.items ≡ out.old.items ++ (codes "idltool: " ++ name.now ++ codes ": ")) }
{
    out.extend_from_slice(b"idltool: ")?;
    out.extend_from_slice(name)?;
    out.extend_from_slice(b": ")
}

// Writes that about a file that passes a limit.
fn push_limit(name: &[u8], limit: Limit, out: &mut Vec<u8>) -> Result<(), AllocError>
    ensures { OnOk result (out.new.items ≡ out.old.items ++ limit_message name.now limit) }
{
    push_about(name, out)?;
    out.extend_from_slice(b"refused 5: ")?;
    out.extend_from_slice(limit_words(limit))?;
    out.extend_from_slice(b"\n")
}

// Writes that about a file that can't be read.
fn push_unreadable(name: &[u8], out: &mut Vec<u8>) -> Result<(), AllocError>
    ensures { OnOk result
        (out.new.items ≡ out.old.items ++ line_about name.now (codes "cannot read")) }
{
    push_about(name, out)?;
    out.extend_from_slice(b"cannot read\n")
}
