//! What a program tells where it fails.

ghost use Rattle.std.specs.Prelude.{◌≡◌, ◌<◌, ◌+◌, ◌-◌, ◌^◌, OnErr, OnOk};
ghost use Rattle.idl_source.specs.devices.Device.{append};
ghost use Rattle.idl_driver.specs.Messages.{line_of, message_of, name_of, named_line, refused_message};

use crate::limit::Limit;
use crate::words::WordsFault;
use idl_loader::{ServiceFault, Stop};
use idl_source::devices::{WriteFailed, write_all};
use idl_source::{Name, Refusal, Sink};
use itoa::Buffer;
use std::alloc::AllocError;

/// Why options can't be taken.
#[derive(Drop)]
pub enum OptionsFault<'a> {
    /// The body of the macro that this word defines is no line: there is a newline in it.
    NoLine(&'a str),
    /// What this word asks for is refused.
    Refused(&'a str, Refusal),
    /// It is refused, as it passes a limit.
    OverLimit(&'a str, Limit),
}

impl<'a> OptionsFault<'a> {
    // What this word asks for is refused so, and passes this limit if it passes one.
    pub(crate) fn refused(word: &'a str, refusal: Refusal, limit: Limit) -> OptionsFault<'a> {
        match refusal {
            Refusal::OverLimit => OptionsFault::OverLimit(word, limit),
            _ => OptionsFault::Refused(word, refusal),
        }
    }
}

/// Why roots can't be compiled.
#[derive(Drop)]
pub enum CompileFault {
    /// A file is refused.
    Refused(Name, Refusal),
    /// It is refused, as it passes a limit.
    OverLimit(Name, Limit),
    /// A file is there and can't be read.
    CannotRead(Name),
}

/// What a failure is about.
#[derive(Drop)]
pub enum FailureSubject<'a> {
    /// A word as it was given.
    Word(&'a str),
    /// A file that was to be loaded, or its name to be written.
    File(Name),
}

impl<'a> FailureSubject<'a> {
    /// The word, or the file's name.
    pub fn as_bytes(&self) -> &[u8]
        ensures { result.now ≡ name_of self.entry.now }
    {
        match self {
            FailureSubject::Word(word) => word.as_bytes(),
            FailureSubject::File(name) => name.as_bytes(),
        }
    }
}

/// Why a program ends with [`Status::Failed`], as each of the programs may.
#[derive(Drop)]
pub enum ProgramFailure<'a> {
    BadArguments,
    Refused(FailureSubject<'a>, Refusal),
    /// It is refused, as it passes a limit.
    OverLimit(FailureSubject<'a>, Limit),
    CannotRead(Name),
    NoMemory,
    ReadFailed,
    WriteFailed,
}

impl<'a> ProgramFailure<'a> {
    /// Writes the one line that a program of this name tells of it. It takes no memory.
    #[inline(never)]
    pub fn tell<K: Sink>(&self, program: &[u8], errors: &mut K) -> Result<(), WriteFailed>
        requires counts { K.failures errors.old < 2 ^ 64 - 1 }
        ensures told { OnOk result (K.written errors.new
            ≡ append (K.written errors.old) (message_of program.now self.now)) }
        ensures err { OnErr result (K.failures errors.new ≡ K.failures errors.old + 1) }
    {
        match self {
            ProgramFailure::BadArguments => tell_line(program, b"bad arguments", errors),
            ProgramFailure::Refused(subject, refusal) => {
                tell_refusal(program, subject.as_bytes(), *refusal, errors)
            }
            ProgramFailure::OverLimit(subject, _limit) => {
                tell_refusal(program, subject.as_bytes(), Refusal::OverLimit, errors)
            }
            ProgramFailure::CannotRead(name) => {
                tell_of(program, name.as_bytes(), b"cannot read", errors)
            }
            ProgramFailure::NoMemory => tell_line(program, b"no memory", errors),
            ProgramFailure::ReadFailed => tell_line(program, b"read failed", errors),
            ProgramFailure::WriteFailed => tell_line(program, b"write failed", errors),
        }
    }
}

/// Writes a line of a program about a name.
pub fn tell_of<K: Sink>(
    program: &[u8],
    name: &[u8],
    told: &[u8],
    errors: &mut K,
) -> Result<(), WriteFailed>
    requires counts { K.failures errors.old < 2 ^ 64 - 1 }
    ensures told { OnOk result (K.written errors.new
        ≡ append (K.written errors.old) (named_line program.now name.now told.now)) }
    ensures err { OnErr result (K.failures errors.new ≡ K.failures errors.old + 1) }
{
    write_all(errors, program)?;
    write_all(errors, b": ")?;
    tell_line(name, told, errors)
}

// Writes a line of who tells, and what is told.
fn tell_line<K: Sink>(who: &[u8], told: &[u8], errors: &mut K) -> Result<(), WriteFailed>
    requires counts { K.failures errors.old < 2 ^ 64 - 1 }
    ensures told { OnOk result
        (K.written errors.new ≡ append (K.written errors.old) (line_of who.now told.now)) }
    ensures err { OnErr result (K.failures errors.new ≡ K.failures errors.old + 1) }
{
    write_all(errors, who)?;
    write_all(errors, b": ")?;
    write_all(errors, told)?;
    write_all(errors, b"\n")
}

fn tell_refusal<K: Sink>(
    program: &[u8],
    word: &[u8],
    refusal: Refusal,
    errors: &mut K,
) -> Result<(), WriteFailed>
    requires counts { K.failures errors.old < 2 ^ 64 - 1 }
    ensures told { OnOk result (K.written errors.new
        ≡ append (K.written errors.old) (refused_message program.now word.now refusal)) }
    ensures err { OnErr result (K.failures errors.new ≡ K.failures errors.old + 1) }
{
    let mut number = Buffer::new();
    write_all(errors, program)?;
    write_all(errors, b": ")?;
    write_all(errors, word)?;
    write_all(errors, b": refused ")?;
    write_all(errors, number.format(refusal.number()).as_bytes())?;
    write_all(errors, b"\n")
}

impl<'a> From<WordsFault> for ProgramFailure<'a> {
    // Words that memory is wanted for are told as wrong ones: the first program's lines are a closed list.
    fn from(_fault: WordsFault) -> ProgramFailure<'a> {
        ProgramFailure::BadArguments
    }
}

impl<'a> From<OptionsFault<'a>> for ProgramFailure<'a> {
    fn from(fault: OptionsFault<'a>) -> ProgramFailure<'a> {
        match fault {
            OptionsFault::NoLine(_word) => ProgramFailure::BadArguments,
            OptionsFault::Refused(word, refusal) => {
                ProgramFailure::Refused(FailureSubject::Word(word), refusal)
            }
            OptionsFault::OverLimit(word, limit) => {
                ProgramFailure::OverLimit(FailureSubject::Word(word), limit)
            }
        }
    }
}

impl<'a> From<CompileFault> for ProgramFailure<'a> {
    fn from(fault: CompileFault) -> ProgramFailure<'a> {
        match fault {
            CompileFault::Refused(name, refusal) => {
                ProgramFailure::Refused(FailureSubject::File(name), refusal)
            }
            CompileFault::OverLimit(name, limit) => {
                ProgramFailure::OverLimit(FailureSubject::File(name), limit)
            }
            CompileFault::CannotRead(name) => ProgramFailure::CannotRead(name),
        }
    }
}

impl<'a> From<ServiceFault> for ProgramFailure<'a> {
    fn from(fault: ServiceFault) -> ProgramFailure<'a> {
        match fault {
            ServiceFault::NoMemory => ProgramFailure::NoMemory,
            ServiceFault::ReadFailed => ProgramFailure::ReadFailed,
            ServiceFault::WriteFailed => ProgramFailure::WriteFailed,
        }
    }
}

impl<'a> From<AllocError> for ProgramFailure<'a> {
    fn from(_refused: AllocError) -> ProgramFailure<'a> {
        ProgramFailure::NoMemory
    }
}

impl<'a> From<WriteFailed> for ProgramFailure<'a> {
    ghost use Rattle.idl_driver.specs.declared.failure.ProgramFailure.TheVariants as failure;

    ghost from_gives = { λ _ failed. failed ≡ failure.WriteFailed };

    fn from(_failed: WriteFailed) -> ProgramFailure<'a> {
        ProgramFailure::WriteFailed
    }
}

impl<'a> From<Stop> for ProgramFailure<'a> {
    fn from(stop: Stop) -> ProgramFailure<'a> {
        match stop {
            Stop::ReadFailed => ProgramFailure::ReadFailed,
            Stop::WriteFailed => ProgramFailure::WriteFailed,
        }
    }
}
