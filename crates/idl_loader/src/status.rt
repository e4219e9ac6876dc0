//! How a program ends.

ghost use Rattle.std.specs.Prelude.{◌≡◌};
ghost use Rattle.idl_loader.specs.Exit.{exit_code};

/// How a program ends, as its exit status tells.
#[derive(Clone, Copy, Debug, PartialEq, Eq)]
pub enum Status {
    /// No source has an error.
    Sound,
    /// A source has errors.
    Faulty,
    /// The words, a file, memory or a device failed, of which standard error has one line.
    Failed,
}

impl Status {
    /// The exit status: 0, 1 or 2.
    pub fn code(self) -> u8
        ensures { result ≡ exit_code self }
    {
        match self {
            Status::Sound => 0,
            Status::Faulty => 1,
            Status::Failed => 2,
        }
    }
}
