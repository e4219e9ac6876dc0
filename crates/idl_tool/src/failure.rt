//! How the program fails, and what it tells of that.

ghost use Rattle.std.specs.Prelude.{◌≡◌, ◌<◌, ◌+◌, ◌-◌, ◌^◌, [], OnErr, OnOk};
ghost use Rattle.idl_source.specs.devices.Device.{append};
ghost use Rattle.idl_explain.specs.Explained.{said};
ghost use Rattle.idl_tool.specs.Messages.{IsProgramTold, IsRefusalTold, IsTold, limit_message, limit_words};

use idl_driver::{FailureSubject, Limit, ProgramFailure, WordsFault, tell_of};
use idl_explain::{Topic, Words, explanation_of};
use idl_loader::ServiceFault;
use idl_source::devices::{WriteFailed, write_all};
use idl_source::{Refusal, Sink};
use itoa::Buffer;
use std::alloc::AllocError;

/// Why the program ends with status 2.
#[derive(Drop)]
pub enum ToolFailure<'a> {
    /// The words are none that the program takes: what is told of them.
    Words(String),
    /// A word names no code and no refusal.
    NoTopic(&'a str),
    /// No rule of make can have this name in it.
    NoMakeName(FailureSubject<'a>),
    /// As each of the programs may.
    Program(ProgramFailure<'a>),
}

impl<'a> ToolFailure<'a> {
    /// Writes what standard error is told of it. It takes no memory.
    #[inline(never)]
    pub fn tell<K: Sink>(&self, errors: &mut K) -> Result<(), WriteFailed>
        requires counts { K.failures errors.old < 2 ^ 64 - 1 }
        ensures told { OnOk result (IsTold self.now (K.written errors.old) (K.written errors.new)) }
        ensures err { OnErr result (K.failures errors.new ≡ K.failures errors.old + 1) }
    {
        match self {
            ToolFailure::Words(text) => write_all(errors, text.as_bytes()),
            ToolFailure::NoTopic(word) => {
                tell_of(
                    b"idltool",
                    word.as_bytes(),
                    b"no code and no refusal",
                    errors,
                )
            }
            ToolFailure::NoMakeName(subject) => {
                tell_of(b"idltool", subject.as_bytes(), b"no name for make", errors)
            }
            ToolFailure::Program(failure) => tell_program(failure, errors),
        }
    }
}

// Writes what either program may tell: of a refusal with what it says.
fn tell_program<K: Sink>(failure: &ProgramFailure<'_>, errors: &mut K) -> Result<(), WriteFailed>
    requires counts { K.failures errors.old < 2 ^ 64 - 1 }
    ensures told { OnOk result
        (IsProgramTold failure.now (K.written errors.old) (K.written errors.new)) }
    ensures err { OnErr result (K.failures errors.new ≡ K.failures errors.old + 1) }
{
    match failure {
        ProgramFailure::Refused(subject, refusal) => {
            tell_refusal(subject.as_bytes(), *refusal, errors)
        }
        ProgramFailure::OverLimit(subject, limit) => {
            tell_limit(subject.as_bytes(), *limit, errors)
        }
        _ => failure.tell(b"idltool", errors),
    }
}

// Writes the line about a word or a file that passes a limit.
fn tell_limit<K: Sink>(name: &[u8], limit: Limit, errors: &mut K) -> Result<(), WriteFailed>
    requires counts { K.failures errors.old < 2 ^ 64 - 1 }
    ensures told { OnOk result (K.written errors.new
        ≡ append (K.written errors.old) (limit_message name.now limit)) }
    ensures err { OnErr result (K.failures errors.new ≡ K.failures errors.old + 1) }
{
    write_all(errors, b"idltool: ")?;
    write_all(errors, name)?;
    write_all(errors, b": refused 5: ")?;
    write_all(errors, limit_words(limit))?;
    write_all(errors, b"\n")
}

/// What a limit says that is passed.
pub(crate) fn limit_words(limit: Limit) -> &'static [u8]
    ensures { result.now ≡ limit_words limit }
{
    match limit {
        Limit::LineBytes => b"a line of more than 4,096 bytes",
        Limit::Lines => b"more than 200,000 lines",
        Limit::Files => b"more than 4,096 files",
        Limit::BodyBytes => b"a body of more than 4,096 bytes",
        Limit::Macros => b"more than 4,096 macros",
        Limit::Directories => b"more than 256 directories",
        Limit::Roots => b"more than 256 files",
    }
}

// Writes the line about a word or a file that is refused, with what the refusal says.
fn tell_refusal<K: Sink>(name: &[u8], refusal: Refusal, errors: &mut K) -> Result<(), WriteFailed>
    requires counts { K.failures errors.old < 2 ^ 64 - 1 }
    ensures told { OnOk result
        (IsRefusalTold name.now refusal (K.written errors.old) (K.written errors.new)) }
    ensures err { OnErr result (K.failures errors.new ≡ K.failures errors.old + 1) }
{
    let mut number = Buffer::new();
    write_all(errors, b"idltool: ")?;
    write_all(errors, name)?;
    write_all(errors, b": refused ")?;
    write_all(errors, number.format(refusal.number()).as_bytes())?;
    write_all(errors, b": ")?;
    tell_words(explanation_of(Topic::Refusal(refusal)).words, errors)?;
    write_all(errors, b"\n")
}

// Writes words that stand around no token.
fn tell_words<K: Sink>(words: Words, errors: &mut K) -> Result<(), WriteFailed>
    requires counts { K.failures errors.old < 2 ^ 64 - 1 }
    ensures told { OnOk result
        (K.written errors.new ≡ append (K.written errors.old) (said words [])) }
    ensures ok { OnOk result (K.failures errors.new ≡ K.failures errors.old) }
    ensures err { OnErr result (K.failures errors.new ≡ K.failures errors.old + 1) }
{
    match words {
        Words::Whole(words) => write_all(errors, words.as_bytes()),
        Words::Around(before, behind) => {
            write_all(errors, before.as_bytes())?;
            write_all(errors, behind.as_bytes())
        }
    }
}

impl<'a> From<WordsFault> for ToolFailure<'a> {
    fn from(fault: WordsFault) -> ToolFailure<'a> {
        match fault {
            WordsFault::Wrong(text) => ToolFailure::Words(text),
            WordsFault::NoMemory => ToolFailure::Program(ProgramFailure::NoMemory),
        }
    }
}

impl<'a> From<ProgramFailure<'a>> for ToolFailure<'a> {
    fn from(failure: ProgramFailure<'a>) -> ToolFailure<'a> {
        ToolFailure::Program(failure)
    }
}

impl<'a> From<ServiceFault> for ToolFailure<'a> {
    fn from(fault: ServiceFault) -> ToolFailure<'a> {
        ToolFailure::Program(ProgramFailure::from(fault))
    }
}

impl<'a> From<AllocError> for ToolFailure<'a> {
    fn from(_refused: AllocError) -> ToolFailure<'a> {
        ToolFailure::Program(ProgramFailure::NoMemory)
    }
}

impl<'a> From<WriteFailed> for ToolFailure<'a> {
    fn from(_failed: WriteFailed) -> ToolFailure<'a> {
        ToolFailure::Program(ProgramFailure::WriteFailed)
    }
}
