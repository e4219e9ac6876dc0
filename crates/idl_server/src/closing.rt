//! Documents that are closed, and files that become others on the disk: they are the loader's.

ghost use Rattle.std.specs.Prelude.{◌≡◌, ℕ, All, List, IfOk, IfSome, None, OnOk, false};
ghost use Rattle.std.specs.List.{list_any};
ghost use Rattle.std.specs.Map.{lookup};
ghost use Rattle.std.specs.Str.{bytes_eq};
ghost use Rattle.idl_inputs.specs.Batch.{edit_of};
ghost use Rattle.idl_inputs.specs.Project.{is_root};
ghost use Rattle.idl_loader.specs.Holding.{Allows, Holding, NoFile};
ghost use Rattle.idl_loader.specs.Holding.{IsFileOf};
ghost use Rattle.idl_editor.specs.documents.Documents.{texts_of};
ghost use Rattle.idl_server.specs.Files.{AreFiled, IsClosed, IsFiled, IsWith, StaysBeside, StaysCompiled, StaysFiled, told_by};
ghost use Rattle.idl_server.specs.Loading.{IsLoadedEdit, StaysOpen};
ghost use Rattle.idl_server.specs.OnDisk.{IsOnDisk};
ghost use Rattle.idl_server.specs.Roots.{AddsNoRoot, IsRooted};
ghost use Rattle.idl_editor.specs.declared.documents.document.Document.{Document};

use crate::workspace::{Workspace, keep_all};
use idl_editor::documents::{push_refused, set_behind};
use idl_editor::uris::Folders;
use idl_loader::{Loaded, PathLoader};
use idl_project::FileEdit;
use idl_source::{Line, Name, cut};
use indexmap::IndexSet;
use std::alloc::{AllocError, Global};

/// What there is of a file on the disk.
#[derive(Drop)]
pub(crate) enum OnDisk {
    /// Its lines.
    Lines(Vec<Line>),
    Missing,
    /// It can't be read.
    Unread,
}

impl Workspace {
    /// A document is closed: the file is the one of the disk again, and no root for itself.
    pub fn close_document<L: PathLoader>(
        &mut self,
        loader: &mut L,
        name: &Name,
    ) -> Result<(), AllocError>
        ensures beside { OnOk result (StaysBeside name.now self.old self.new) }
        ensures filed { let told = told_by self.old.folders (L.told_of loader.old) in
            IsFiled told self.old name.now → OnOk result (IsFiled told self.new name.now) }
        ensures text { OnOk result (texts_of self.new.documents.entries name.now ≡ None) }
        ensures rooted { IsRooted self.old name.now → OnOk result (IsRooted self.new name.now) }
        ensures stays { L.told_of loader.new ≡ L.told_of loader.old }
    {
        if !self.documents.contains_key(name) {
            return Ok(());
        }
        set_behind(&mut self.documents, name, true);
        self.uproot(name)?;
        self.reload(loader, name)?;
        self.documents.shift_remove(name);
        Ok(())
    }

    // The file of a name is no root for itself.
    fn uproot(&mut self, name: &Name) -> Result<(), AllocError>
        ensures filed { StaysFiled self.old self.new }
        ensures roots { OnOk result
            (AddsNoRoot self.old.session.project self.new.session.project) }
        ensures gone { OnOk result (is_root self.new.session.project name.now ≡ false) }
    {
        self.session.keeps_form();
        match self.session.drop_root(name.as_bytes()) {
            Ok(_) => {
                self.dropped.insert(name.copied())?;
                Ok(())
            }
            // It is none.
            Err(_) => Ok(()),
        }
    }

    // The file of a name is the one of the disk again.
    fn reload<L: PathLoader>(&mut self, loader: &mut L, name: &Name) -> Result<(), AllocError>
        ensures beside { OnOk result (StaysBeside name.now self.old self.new) }
        ensures documents { OnOk result (self.new.documents ≡ self.old.documents) }
        ensures closed { OnOk result
            (IsClosed (told_by self.old.folders (L.told_of loader.old)) self.new name.now) }
        ensures stays { L.told_of loader.new ≡ L.told_of loader.old }
    {
        forget(&mut self.tried, &mut self.unread, name);
        match loaded(self.session.allocator(), &self.folders, loader, name)? {
            OnDisk::Lines(lines) => self.put(name, lines),
            OnDisk::Missing => self.take_out(name),
            OnDisk::Unread => {
                self.unread.insert(name.copied())?;
                self.take_out(name)
            }
        }
    }

    /// The files of these names, which aren't open, are those of the disk again: as one edit, and where one is refused, one after another.
    pub fn reload_all<L: PathLoader>(
        &mut self,
        loader: &mut L,
        names: &[Name],
    ) -> Result<(), AllocError>
        requires closed { All (λ name. lookup (bytes_eq name) self.old.documents.entries ≡ None)
            names.now }
        ensures stays_open { OnOk result (StaysOpen self.old self.new) }
        ensures filed { let told = told_by self.old.folders (L.told_of loader.old) in
            AreFiled told self.old → OnOk result (AreFiled told self.new) }
        ensures stays { L.told_of loader.new ≡ L.told_of loader.old }
    {
        let mut edits = Vec::with_capacity(self.session.allocator(), names.len())?;
        'names: for name in names {
            let Some(edit) = self.disk_edit(loader, name)? else {
                continue;
            };
            edits.push(edit)?;
        }
        match self.session.batch(edits) {
            Ok(_) => keep_all(&mut self.touched, self.session.touched()),
            Err(_) => self.reload_each(loader, names),
        }
    }

    // The same, one after another.
    fn reload_each<L: PathLoader>(
        &mut self,
        loader: &mut L,
        names: &[Name],
    ) -> Result<(), AllocError>
        requires { All (λ name. lookup (bytes_eq name) self.old.documents.entries ≡ None)
            names.now }
        ensures stays_open { OnOk result (StaysOpen self.old self.new) }
        ensures filed { let told = told_by self.old.folders (L.told_of loader.old) in
            AreFiled told self.old → OnOk result (AreFiled told self.new) }
        ensures stays { L.told_of loader.new ≡ L.told_of loader.old }
    {
        'names: for name in names {
            self.reload(loader, name)?;
        }
        Ok(())
    }

    // The edit that has the file of a name be the one of the disk, which is none where there is no file.
    fn disk_edit<'n, L: PathLoader>(
        &mut self,
        loader: &mut L,
        name: &'n Name,
    ) -> Result<Option<FileEdit<'n>>, AllocError>
        requires { lookup (bytes_eq name.now) self.old.documents.entries ≡ None }
        ensures same { StaysCompiled self.old self.new }
        ensures filed { let told = told_by self.old.folders (L.told_of loader.old) in
            AreFiled told self.old → OnOk result (AreFiled told self.new) }
        ensures edit { let told = told_by self.old.folders (L.told_of loader.old) in
            IfOk result (λ edit. IfSome edit (λ e.
            IsLoadedEdit told self.old.documents.entries (edit_of e))) }
        ensures stays { L.told_of loader.new ≡ L.told_of loader.old }
    {
        let bytes = name.as_bytes();
        forget(&mut self.tried, &mut self.unread, name);
        match self.lines_of(loader, name)? {
            Some(lines) => Ok(Some(FileEdit::Put(bytes, lines))),
            None => Ok(removal(self.session.file(bytes), name)),
        }
    }

    // Puts a file of the disk into the session; where it is refused, there is none.
    fn put(&mut self, name: &Name, lines: Vec<Line>) -> Result<(), AllocError>
        requires untried { list_any (bytes_eq name.now) self.old.tried.keys ≡ false }
        ensures beside { OnOk result (StaysBeside name.now self.old self.new) }
        ensures documents { OnOk result (self.new.documents ≡ self.old.documents) }
        ensures closed { (told : List ℕ → Holding) → IsFileOf told name.now lines.items
            → OnOk result (IsClosed told self.new name.now) }
    {
        match self.session.put(name.as_bytes(), lines) {
            Ok(_) => keep_all(&mut self.touched, self.session.touched()),
            Err(refusal) => {
                push_refused(&mut self.refused, name.as_bytes(), refusal)?;
                self.unread.insert(name.copied())?;
                self.take_out(name)
            }
        }
    }

    // Takes a file out of the session, if it is there: it was tried.
    fn take_out(&mut self, name: &Name) -> Result<(), AllocError>
        ensures beside { OnOk result (StaysBeside name.now self.old self.new) }
        ensures documents { OnOk result (self.new.documents ≡ self.old.documents) }
        ensures closed { (told : List ℕ → Holding)
            → (list_any (bytes_eq name.now) self.old.unread.keys ≡ false
            → Allows (told name.now) NoFile)
            → OnOk result (IsClosed told self.new name.now) }
    {
        self.tried.insert(name.copied())?;
        if self.session.file(name.as_bytes()).is_none() {
            return Ok(());
        }
        match self.session.remove(name.as_bytes()) {
            Ok(_) => keep_all(&mut self.touched, self.session.touched()),
            // Of a file that is there, for want of memory alone.
            Err(_) => Err(AllocError),
        }
    }
}

// It isn't known any more whether there is a file of this name.
fn forget(tried: &mut IndexSet<Name>, unread: &mut IndexSet<Name>, name: &Name)
    ensures tried { IsWith name.now false tried.old.keys tried.new.keys }
    ensures unread { IsWith name.now false unread.old.keys unread.new.keys }
    ensures gone { list_any (bytes_eq name.now) tried.new.keys ≡ false }
{
    tried.shift_remove(name);
    unread.shift_remove(name);
}

// The edit that takes a file out of the session, if it is there.
fn removal<'n>(file: Option<&[Line]>, name: &'n Name) -> Option<FileEdit<'n>>
    ensures { (told : List ℕ → Holding) → (documents : List (List ℕ × Document))
        → lookup (bytes_eq name.now) documents ≡ None
        → IfSome result (λ edit. IsLoadedEdit told documents (edit_of edit)) }
{
    match file {
        Some(_) => Some(FileEdit::Remove(name.as_bytes())),
        None => None,
    }
}

/// What there is of the file of a name on the disk.
pub(crate) fn loaded<L: PathLoader>(
    alloc: Global,
    folders: &Folders,
    loader: &mut L,
    name: &Name,
) -> Result<OnDisk, AllocError>
    ensures gives { IfOk result
        (IsOnDisk (told_by folders.now (L.told_of loader.old)) name.now) }
    ensures stays { L.told_of loader.new ≡ L.told_of loader.old }
{
    let Some(path) = folders.path_for(name.as_bytes())? else {
        return Ok(OnDisk::Missing);
    };
    match loader.load_path(&path) {
        Loaded::Bytes(bytes) => Ok(OnDisk::Lines(cut(alloc, &bytes)?)),
        Loaded::Missing => Ok(OnDisk::Missing),
        Loaded::Failed => Ok(OnDisk::Unread),
        Loaded::NoMemory => Err(AllocError),
    }
}
