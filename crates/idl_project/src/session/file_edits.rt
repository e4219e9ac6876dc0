//! The edits of files: one, or many as one.

ghost use Rattle.std.specs.Prelude.{◌≡◌, IfOk, OnErr, map};
ghost use Rattle.idl_inputs.specs.Batch.{edit_of};
ghost use Rattle.idl_project.specs.Batch.{IsBatch};
ghost use Rattle.idl_project.specs.Edited.{IsEdited, IsSettled};
ghost use Rattle.idl_inputs.specs.Edits.{Put, Remove, Splice};
ghost use Rattle.idl_inputs.specs.Project.{with_files};
ghost use Rattle.idl_inputs.specs.Refiled.{AreRefiled, files_after};
ghost use Rattle.idl_inputs.specs.WellFormed.{IsWellFormed};

use crate::kept_root::BankChange;
use crate::session::Session;
use crate::work::Work;
use idl_inputs::{EditedFiles, FileEdit, Refiled};
use idl_source::{Line, Refusal, Span};
use std::alloc::AllocError;

impl Session {
    /// Puts a file of these lines, in place of the one of that name if there is one. The name is a root or not as before.
    ///
    /// It is refused where the name isn't one, and then where a limit of files or lines is passed. Memory may be refused
    /// too. A refusal gives up the lines.
    pub fn put(&mut self, name: &[u8], lines: Vec<Line>) -> Result<Work, Refusal>
        ensures { IsEdited (Put name.now lines.items) self.old self.new result }
    {
        self.edit(FileEdit::Put(name, lines))
    }

    /// Puts these lines in the place of a span of a file.
    ///
    /// It is refused where the name isn't one, then where there is no such file, then where the span isn't all in it, and
    /// then where a limit of lines is passed. Memory may be refused too. A refusal gives up the lines.
    pub fn splice(&mut self, name: &[u8], span: Span, lines: Vec<Line>) -> Result<Work, Refusal>
        ensures { let edit = Splice name.now span.from span.del lines.items in
            IsEdited edit self.old self.new result }
    {
        self.edit(FileEdit::Splice(name, span, lines))
    }

    /// Removes the file of this name. The name is a root or not as before.
    ///
    /// It is refused where the name isn't one, and then where there is no such file. Memory may be refused too.
    pub fn remove(&mut self, name: &[u8]) -> Result<Work, Refusal>
        ensures { IsEdited (Remove name.now) self.old self.new result }
    {
        self.edit(FileEdit::Remove(name))
    }

    /// Does these edits of files as one, which is as doing one after another: but only what differs between the project before the first
    /// and the one after the last is work, and is worked on once.
    ///
    /// It is refused where one of them is refused when those before it are done: with the number of the first such one, of which 0 is
    /// the first of all. Memory may be refused too, with the number of those that were done. A refusal gives up the edits.
    pub fn batch(&mut self, edits: Vec<FileEdit<'_>>) -> Result<Work, (usize, Refusal)>
        ensures { IsBatch (map edit_of edits.entry.items) self.old self.new result }
    {
        let count = edits.len();
        match EditedFiles::after_all(self.keeper.alloc(), &self.bank, edits) {
            Ok(edited) => match self.settle(edited) {
                Ok(work) => Ok(work),
                Err(_) => Err((count, Refusal::NoMemory)),
            },
            Err(refused) => Err(refused),
        }
    }

    // Does one edit of a file.
    fn edit(&mut self, edit: FileEdit<'_>) -> Result<Work, Refusal>
        ensures { IsEdited (edit_of edit.entry) self.old self.new result }
    {
        let mut edited = EditedFiles::new(self.keeper.alloc());
        match edited.edit(&self.bank, edit) {
            Ok(()) => Ok(self.settle(edited)?),
            Err(refusal) => Err(refusal),
        }
    }

    // Puts edited files in place, and compiles what asked for one that has become another.
    fn settle(&mut self, edited: EditedFiles) -> Result<Work, AllocError>
        requires refiled { AreRefiled self.old.project.inputs edited }
        requires formed { let files = files_after self.old.project.inputs.files edited in
            IsWellFormed (with_files self.old.project files) }
        ensures ok { let files = files_after self.old.project.inputs.files edited in
            IfOk result (λ work. IsSettled files self.old self.new work) }
        ensures err { OnErr result (self.new ≡ self.old) }
    {
        let bank = Refiled {
            base: &self.bank,
            edited: &edited,
        };
        let causes = bank.causes(self.keeper.alloc())?;
        let change = BankChange {
            base: &self.bank,
            bank: &bank,
            causes: &causes,
        };
        let renewed = self.roots.renewed(&mut self.keeper, &change)?;
        if let Err(refusal) = self.bank.refile(edited) {
            self.keeper.discard();
            return Err(refusal);
        }
        self.roots = renewed.0;
        self.keeper.commit();
        self.work = renewed.1;
        self.touched = renewed.2;
        Ok(self.work)
    }
}
