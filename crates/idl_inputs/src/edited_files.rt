//! Files after edits that were done one after another, before they are put in place.
//!
//! Edits are done on the side, over a table of the edited names alone, and put in place by one step, for which room is
//! made first. One edit is a batch of one.

ghost use Rattle.std.specs.Prelude.{◌≡◌, ◌≢◌, [], Err, IfErr, IfOk, IsTrue, None, Ok, OnOk, map};
ghost use Rattle.std.specs.Map.{lookup};
ghost use Rattle.std.specs.Option.{option_copied, option_map};
ghost use Rattle.std.specs.Str.{bytes_eq};
ghost use Rattle.idl_source.specs.names.Name.{is_name};
ghost use Rattle.idl_inputs.specs.Bank.{IsSameBeside};
ghost use Rattle.idl_inputs.specs.Batch.{IsStopped, edit_of};
ghost use Rattle.idl_inputs.specs.Refiled.{AreDone, AreRefiled, files_after, files_by};
ghost use Rattle.idl_inputs.specs.Project.{Project};

use crate::bank::SessionBank;
use crate::file_edit::FileEdit;
use idl_event::RootAnswer;
use idl_fault::FileName;
use idl_source::{Files, Name, Refusal};
use indexmap::IndexMap;
use std::alloc::{AllocError, Global};

/// The files of a bank after edits, and what is answered of those that were edited. Where there was no edit, there are no files yet.
pub struct EditedFiles {
    pub files: Option<Files>,
    pub answers: IndexMap<FileName, Option<RootAnswer>>,
}

impl Drop for EditedFiles {
    fn drop(self) {
        let EditedFiles {
            files: _files,
            answers: _answers,
        } = self;
    }
}

impl EditedFiles {
    /// No edit yet. It takes no memory.
    pub fn new(alloc: Global) -> EditedFiles
        ensures files { result.files ≡ None }
        ensures answers { result.answers.entries ≡ [] }
    {
        EditedFiles {
            files: None,
            answers: IndexMap::new(alloc),
        }
    }

    /// Those of a bank after these edits, one after another. The first that is refused ends it, and is told by how many are before it;
    /// so is want of memory.
    pub fn after_all(
        alloc: Global,
        base: &SessionBank,
        edits: Vec<FileEdit<'_>>,
    ) -> Result<EditedFiles, (usize, Refusal)>
        ensures refiled { IfOk result (λ edited. AreRefiled base.now edited) }
        ensures done { (project : Project) → project.inputs ≡ base.now
            → IfOk result (λ edited. AreDone project (map edit_of edits.entry.items)
            (files_after base.now.files edited)) }
        ensures stopped { (project : Project) → project.inputs ≡ base.now
            → IfErr result (λ refused. IsStopped project (map edit_of edits.entry.items) refused) }
    {
        let mut edited = EditedFiles::new(alloc);
        let mut done = 0;
        for edit in edits {
            if let Err(refusal) = edited.edit(base, edit) {
                return Err((done, refusal));
            }
            done += 1;
        }
        Ok(edited)
    }

    /// Does one edit more. A refusal leaves nothing that is of use.
    pub fn edit(&mut self, base: &SessionBank, edit: FileEdit<'_>) -> Result<(), Refusal>
        requires { AreRefiled base.now self.old }
        ensures refiled { OnOk result (AreRefiled base.now self.new) }
        ensures ok { OnOk result (files_by (files_after base.now.files self.old) edit.entry
            ≡ Ok (files_after base.now.files self.new)) }
        ensures err { IfErr result (λ refusal. refusal ≢ Refusal.NoMemory
            → files_by (files_after base.now.files self.old) edit.entry ≡ Err refusal) }
    {
        let name = edit.name();
        match edit.after(self.files_over(base)) {
            Ok(files) => Ok(self.note(base, name, files)?),
            Err(refusal) => Err(refusal),
        }
    }

    /// The files, if there was an edit, and what is answered of those that were edited.
    pub fn into_parts(self) -> (Option<Files>, IndexMap<FileName, Option<RootAnswer>>)
        ensures files { result.0 ≡ self.files }
        ensures answers { result.1 ≡ self.answers }
    {
        let EditedFiles { files, answers } = self;
        (files, answers)
    }

    // All files, after the edits of those of a bank.
    fn files_over<'a>(&'a self, base: &'a SessionBank) -> &'a Files
        ensures { result.now ≡ files_after base.now.files self.now }
    {
        match &self.files {
            Some(files) => files,
            None => base.files(),
        }
    }

    // These are the files now, of which that of this name alone may be another than before.
    fn note(&mut self, base: &SessionBank, name: &[u8], files: Files) -> Result<(), AllocError>
        requires allowed { IsTrue (is_name name.now) }
        requires beside { IsSameBeside name.now (files_after base.now.files self.old) files }
        requires refiled { AreRefiled base.now self.old }
        ensures refiled { OnOk result (AreRefiled base.now self.new) }
        ensures files { OnOk result (files_after base.now.files self.new ≡ files) }
    {
        let alloc = *self.answers.allocator();
        let name = FileName::new(alloc, &Name::new(name).unwrap())?;
        let answer = base.file_answer(alloc, &files, &name)?;
        self.answers.insert(name, answer)?;
        self.files = Some(files);
        Ok(())
    }

    /// What is answered of the file of this name, if it was edited.
    pub fn answer(&self, name: &FileName) -> Option<Option<&RootAnswer>>
        ensures { option_map option_copied result
            ≡ lookup (bytes_eq name.now) self.now.answers.entries }
    {
        match self.answers.get(name) {
            Some(answer) => Some(answer.as_ref()),
            None => None,
        }
    }
}
