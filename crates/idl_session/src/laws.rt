//! The law of complete commands: that they are what a text has, whatever comes after it.
//!
//! The function does nothing: it carries its law as clauses.

ghost use Rattle.std.specs.Prelude.{◌≡◌, ◌≤◌, ◌++◌, ℕ, List, length};
ghost use Rattle.idl_session.specs.Commands.{Command, commands_of, complete_commands};

/// The complete commands of bytes are the first commands of all bytes that begin so; and of the commands that these bytes
/// are by themselves they are all but the last one at most.
pub fn complete_commands()
    ensures first { (bytes rest : List ℕ) → (more : List Command)
        × (commands_of (bytes ++ rest) ≡ complete_commands bytes ++ more) }
    ensures all { (bytes : List ℕ) → (more : List Command)
        × (commands_of bytes ≡ complete_commands bytes ++ more) × (length more ≤ 1) }
{}
