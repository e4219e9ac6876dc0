//! Why an edit or a command is turned away. What is refused leaves everything as it was.

ghost use Rattle.std.specs.Prelude.{◌≡◌};

use std::alloc::{AllocError, AllocFailed};
use thiserror::Error;

/// Why an edit or a command is turned away. Each has the number that a reply shows.
///
/// Of several that apply the answer is the malformed command, else the unfinished one, else the one with the least number.
/// Want of memory may stand in place of an acceptance or of any but those two.
#[derive(Clone, Copy, Debug, Error)]
pub enum Refusal {
    /// The line is no command.
    #[error("malformed command")]
    Malformed,
    /// The name, or the directory, breaks the rule for names.
    #[error("name not allowed")]
    BadName,
    /// There is no file of that name.
    #[error("no such file")]
    NoSuchFile,
    /// The lines lie outside the file.
    #[error("lines outside the file")]
    OutsideFile,
    /// More than a limit allows.
    #[error("over a limit")]
    OverLimit,
    /// The name is no word, or is `defined`, which can't be a macro.
    #[error("macro not allowed")]
    BadMacro,
    /// There is no root of that name.
    #[error("no such root")]
    NoSuchRoot,
    /// There is a root of that name already.
    #[error("root already there")]
    RootThere,
    /// Memory was refused where something had to grow. Few calls answer so where they can't go on otherwise.
    #[error("no memory")]
    NoMemory,
    /// The input ended inside a command.
    #[error("input ended inside a command")]
    Unfinished,
}

impl Refusal {
    ghost use Rattle.idl_source.specs.Refusal.{number_of};

    /// The number that a reply shows, 1 to 10.
    pub fn number(self) -> u8
        ensures { result ≡ number_of self }
    {
        match self {
            Refusal::Malformed => 1,
            Refusal::BadName => 2,
            Refusal::NoSuchFile => 3,
            Refusal::OutsideFile => 4,
            Refusal::OverLimit => 5,
            Refusal::BadMacro => 6,
            Refusal::NoSuchRoot => 7,
            Refusal::RootThere => 8,
            Refusal::NoMemory => 9,
            Refusal::Unfinished => 10,
        }
    }
}

impl From<AllocError> for Refusal {
    ghost use Rattle.std.specs.Prelude.{◌≡◌};
    ghost use Rattle.idl_source.specs.declared.refusal.Refusal.TheVariants.{NoMemory};

    ghost from_gives = { λ _ refusal. refusal ≡ NoMemory };

    fn from(_refused: AllocError) -> Refusal {
        Refusal::NoMemory
    }
}

impl<T: Drop> From<AllocFailed<T>> for Refusal {
    ghost use Rattle.std.specs.Prelude.{◌≡◌};
    ghost use Rattle.idl_source.specs.declared.refusal.Refusal.TheVariants.{NoMemory};

    ghost from_gives = { λ _ refusal. refusal ≡ NoMemory };

    fn from(_refused: AllocFailed<T>) -> Refusal {
        Refusal::NoMemory
    }
}
