//! Edits of files, to be done with others.

ghost use Rattle.std.specs.Prelude.{◌≡◌, ◌≢◌, Err, IfErr, IfOk, Ok};
ghost use Rattle.idl_inputs.specs.Refiled.{files_by, name_of};

use idl_source::{Files, Line, Refusal, Span};

/// An edit of a file, by its name.
#[derive(Drop)]
pub enum FileEdit<'a> {
    /// These lines, in place of all of the file, or of a new one.
    Put(&'a [u8], Vec<Line>),
    /// These lines, in the place of a span of the file.
    Splice(&'a [u8], Span, Vec<Line>),
    /// No file of that name.
    Remove(&'a [u8]),
}

impl<'a> FileEdit<'a> {
    /// The name of the file.
    pub fn name(&self) -> &'a [u8]
        ensures { result.now ≡ name_of self.now }
    {
        match self {
            FileEdit::Put(name, _lines) => name,
            FileEdit::Splice(name, _span, _lines) => name,
            FileEdit::Remove(name) => name,
        }
    }

    // The files after the edit of these ones, which stay as they are.
    pub(crate) fn after(self, files: &Files) -> Result<Files, Refusal>
        ensures ok { IfOk result (λ done. files_by files.now self.entry ≡ Ok done) }
        ensures err { IfErr result
            (λ refusal. refusal ≢ Refusal.NoMemory → files_by files.now self.entry ≡ Err refusal) }
    {
        match self {
            FileEdit::Put(name, lines) => files.put(name, lines),
            FileEdit::Splice(name, span, lines) => files.splice(name, span, lines),
            FileEdit::Remove(name) => files.remove(name),
        }
    }
}
