//! What an editor tells: documents that are opened, changed, saved and closed, and files that became others.

ghost use Rattle.std.specs.Prelude.{◌≡◌, ℕ, All, List, IfOk, IfSome, IsSome, None, OnOk};
ghost use Rattle.std.specs.Map.{lookup};
ghost use Rattle.std.specs.Str.{bytes_eq};
ghost use Rattle.serde_json.specs.View.{view};
ghost use Rattle.idl_editor.specs.declared.messages.method.Method.TheVariants.{DidChange, DidClose, DidOpen};
ghost use Rattle.idl_loader.specs.Holding.{Holding};
ghost use Rattle.idl_editor.specs.documents.Documents.{HaveTexts, open_after_told, texts_of};
ghost use Rattle.idl_server.specs.Documents.{OnlyRefusedAreBehind};
ghost use Rattle.idl_server.specs.Files.{AreFiled, IsKept, StaysSet, told_by};
ghost use Rattle.idl_editor.specs.declared.documents.refused.RefusedReason.TheVariants.{BadChange};
ghost use Rattle.idl_editor.specs.documents.Notices.{told_by_notice};
ghost use Rattle.idl_editor.specs.documents.Refused.{IsAdded};
ghost use Rattle.idl_server.specs.Roots.{AreRooted};
ghost use Rattle.idl_server.specs.Late.{IsChangeOf};

use crate::workspace::Workspace;
use idl_editor::documents::{RefusedReason, changes_told, name_for, name_in, push_reason};
use idl_editor::messages::{Method, items_at, opened_text, text_at, uri_of, version_of};
use idl_loader::PathLoader;
use idl_source::{Line, Name};
use indexmap::IndexSet;
use serde_json::Value;
use std::alloc::AllocError;

impl Workspace {
    /// Takes in what a notice tells of documents and files. One that makes no sense is passed over, and of a change it is kept to be shown.
    pub fn take_told<L: PathLoader>(
        &mut self,
        loader: &mut L,
        method: Method,
        params: &Value,
    ) -> Result<(), AllocError>
        ensures set { OnOk result (StaysSet self.old self.new) }
        ensures filed { let told = told_by self.old.folders (L.told_of loader.old) in
            AreFiled told self.old → OnOk result (AreFiled told self.new) }
        ensures rooted { AreRooted self.old → OnOk result (AreRooted self.new) }
        ensures texts { OnOk result (HaveTexts self.new.documents.entries
            (open_after_told self.old.encoding (texts_of self.old.documents.entries)
            (told_by_notice self.old.folders method (view params.now)))) }
        ensures held { OnOk result (OnlyRefusedAreBehind self.old.session.project
            self.old.documents.entries self.new.documents.entries) }
        ensures stays { L.told_of loader.new ≡ L.told_of loader.old }
    {
        match method {
            Method::DidOpen => self.take_opened(params),
            Method::DidChange => self.take_changed(params),
            Method::DidClose => self.take_closed(loader, params),
            Method::DidSave => self.take_saved(loader, params),
            Method::DidChangeWatchedFiles => self.take_watched(loader, params),
            _ => Ok(()),
        }
    }

    // A document is opened.
    fn take_opened(&mut self, params: &Value) -> Result<(), AllocError>
        ensures set { OnOk result (StaysSet self.old self.new) }
        ensures filed { (told : List ℕ → Holding)
            → AreFiled told self.old → OnOk result (AreFiled told self.new) }
        ensures rooted { AreRooted self.old → OnOk result (AreRooted self.new) }
        ensures texts { OnOk result (HaveTexts self.new.documents.entries
            (open_after_told self.old.encoding (texts_of self.old.documents.entries)
            (told_by_notice self.old.folders DidOpen (view params.now)))) }
        ensures held { OnOk result (OnlyRefusedAreBehind self.old.session.project
            self.old.documents.entries self.new.documents.entries) }
    {
        let (Some(uri), Some(text)) = (uri_of(params), opened_text(params)) else {
            return Ok(());
        };
        match name_for(self.session.allocator(), &self.folders, uri)? {
            Some(name) => self.open_document(&name, uri, version_of(params), text),
            None => Ok(()),
        }
    }

    // A document changes.
    fn take_changed(&mut self, params: &Value) -> Result<(), AllocError>
        ensures set { OnOk result (StaysSet self.old self.new) }
        ensures filed { (told : List ℕ → Holding)
            → AreFiled told self.old → OnOk result (AreFiled told self.new) }
        ensures rooted { AreRooted self.old → OnOk result (AreRooted self.new) }
        ensures texts { OnOk result (HaveTexts self.new.documents.entries
            (open_after_told self.old.encoding (texts_of self.old.documents.entries)
            (told_by_notice self.old.folders DidChange (view params.now)))) }
        ensures held { OnOk result (OnlyRefusedAreBehind self.old.session.project
            self.old.documents.entries self.new.documents.entries) }
    {
        let Some(name) = name_in(self.session.allocator(), &self.folders, params)? else {
            return Ok(());
        };
        match changes_told(self.session.allocator(), params)? {
            Some(changes) => self.change_document(&name, version_of(params), &changes),
            None => self.keep_bad_change(&name),
        }
    }

    /// The open document that parameters are about.
    pub fn open_in(&self, params: &Value) -> Result<Option<Name>, AllocError>
        ensures { IfOk result (λ found.
            IfSome found (λ name. IsChangeOf self.now name (view params.now))) }
    {
        let Some(name) = name_in(self.session.allocator(), &self.folders, params)? else {
            return Ok(None);
        };
        if self.documents.contains_key(&name) {
            return Ok(Some(name));
        }
        Ok(None)
    }

    /// Keeps, to show it, that a change of an open document makes no sense.
    pub fn keep_bad_change(&mut self, name: &Name) -> Result<(), AllocError>
        ensures kept { IsKept self.old self.new }
        ensures told { IsSome (lookup (bytes_eq name.now) self.old.documents.entries)
            → OnOk result (IsAdded name.now BadChange
            self.old.refused.items self.new.refused.items) }
    {
        if !self.documents.contains_key(name) {
            return Ok(());
        }
        push_reason(&mut self.refused, name.as_bytes(), RefusedReason::BadChange)
    }

    // A document is closed.
    fn take_closed<L: PathLoader>(
        &mut self,
        loader: &mut L,
        params: &Value,
    ) -> Result<(), AllocError>
        ensures set { OnOk result (StaysSet self.old self.new) }
        ensures filed { let told = told_by self.old.folders (L.told_of loader.old) in
            AreFiled told self.old → OnOk result (AreFiled told self.new) }
        ensures rooted { AreRooted self.old → OnOk result (AreRooted self.new) }
        ensures texts { OnOk result (HaveTexts self.new.documents.entries
            (open_after_told self.old.encoding (texts_of self.old.documents.entries)
            (told_by_notice self.old.folders DidClose (view params.now)))) }
        ensures held { OnOk result (OnlyRefusedAreBehind self.old.session.project
            self.old.documents.entries self.new.documents.entries) }
        ensures stays { L.told_of loader.new ≡ L.told_of loader.old }
    {
        match name_in(self.session.allocator(), &self.folders, params)? {
            Some(name) => self.close_document(loader, &name),
            None => Ok(()),
        }
    }

    // A document is saved: files that aren't open may have become others before.
    fn take_saved<L: PathLoader>(
        &mut self,
        loader: &mut L,
        params: &Value,
    ) -> Result<(), AllocError>
        ensures set { OnOk result (StaysSet self.old self.new) }
        ensures filed { let told = told_by self.old.folders (L.told_of loader.old) in
            AreFiled told self.old → OnOk result (AreFiled told self.new) }
        ensures rooted { AreRooted self.old → OnOk result (AreRooted self.new) }
        ensures documents { OnOk result (self.new.documents ≡ self.old.documents) }
        ensures stays { L.told_of loader.new ≡ L.told_of loader.old }
    {
        if uri_of(params).is_none() {
            return Ok(());
        }
        let names = self.asked_closed()?;
        self.reload_all(loader, names.as_slice())
    }

    // Files have become others on the disk.
    fn take_watched<L: PathLoader>(
        &mut self,
        loader: &mut L,
        params: &Value,
    ) -> Result<(), AllocError>
        ensures set { OnOk result (StaysSet self.old self.new) }
        ensures filed { let told = told_by self.old.folders (L.told_of loader.old) in
            AreFiled told self.old → OnOk result (AreFiled told self.new) }
        ensures rooted { AreRooted self.old → OnOk result (AreRooted self.new) }
        ensures documents { OnOk result (self.new.documents ≡ self.old.documents) }
        ensures stays { L.told_of loader.new ≡ L.told_of loader.old }
    {
        let names = self.written_in(items_at(params, "changes"))?;
        self.reload_all(loader, names.as_slice())
    }

    // The names of the files at URIs, of those that aren't open and that something asked for.
    fn written_in(&self, files: &[Value]) -> Result<IndexSet<Name>, AllocError>
        ensures { IfOk result (λ names.
            All (λ name. lookup (bytes_eq name) self.now.documents.entries ≡ None) names.keys) }
    {
        let mut names = IndexSet::new(self.session.allocator());
        'files: for file in files {
            let Some(uri) = text_at(file, "uri") else {
                continue;
            };
            let Some(name) = name_for(self.session.allocator(), &self.folders, uri)? else {
                continue;
            };
            // What is on the disk is nothing to the session where the file is open, or nothing asked for it.
            if self.documents.contains_key(&name) {
                continue;
            }
            if !is_known(&self.tried, self.session.file(name.as_bytes()), &name) {
                continue;
            }
            names.insert(name)?;
        }
        Ok(names)
    }
}

// Whether there is a file of a name, or it was tried.
fn is_known(tried: &IndexSet<Name>, file: Option<&[Line]>, name: &Name) -> bool {
    tried.contains(name) || file.is_some()
}
