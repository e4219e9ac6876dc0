//! Documents that are opened, changed and closed.

ghost use Rattle.std.specs.Prelude.{◌≡◌, ℕ, List, IsSome, None, OnOk, Some, map};
ghost use Rattle.std.specs.Map.{lookup};
ghost use Rattle.std.specs.Option.{option_map};
ghost use Rattle.std.specs.Str.{bytes_eq};
ghost use Rattle.idl_loader.specs.Holding.{Holding};
ghost use Rattle.idl_editor.specs.documents.Documents.{change_told, text_after_all, texts_of};
ghost use Rattle.idl_server.specs.Documents.{OnlyRefusedIsBehind};
ghost use Rattle.idl_server.specs.Files.{AreFiled, IsFiled, SplicesText, StaysBeside, StaysButText};
ghost use Rattle.idl_server.specs.Late.{ArePut};
ghost use Rattle.idl_server.specs.Roots.{AreRooted};

use crate::workspace::{Workspace, keep_all};
use idl_editor::documents::{Document, push_refused, set_behind, set_text, text_after_all};
use idl_editor::{ContentChange, LineSplice, after_change};
use idl_source::{Name, Refusal, cut};
use std::alloc::AllocError;

impl Workspace {
    /// A document is opened.
    pub fn open_document(
        &mut self,
        name: &Name,
        uri: &str,
        version: Option<u64>,
        text: &str,
    ) -> Result<(), AllocError>
        ensures beside { OnOk result (StaysBeside name.now self.old self.new) }
        ensures filed { OnOk result ((told : List ℕ → Holding) → IsFiled told self.new name.now) }
        ensures text { OnOk result (texts_of self.new.documents.entries name.now ≡ Some text.now) }
        ensures held { OnOk result (OnlyRefusedIsBehind self.old.session.project name.now
            self.new.documents.entries) }
    {
        let alloc = self.session.allocator();
        let uri = String::from_str(alloc, uri)?;
        let text = Vec::from_slice(alloc, text.as_bytes())?;
        self.documents
            .insert(name.copied(), Document::new(uri, version, text))?;
        self.tried.shift_remove(name);
        self.unread.shift_remove(name);
        self.turned_away.shift_remove(name);
        self.put_whole(name)
    }

    /// A document changes, by one change after another. One alone is a splice of its file; the text after several is put as a whole.
    pub fn change_document(
        &mut self,
        name: &Name,
        version: Option<u64>,
        changes: &[ContentChange<'_>],
    ) -> Result<(), AllocError>
        ensures beside { OnOk result (StaysBeside name.now self.old self.new) }
        ensures filed { (told : List ℕ → Holding) → IsFiled told self.old name.now
            → OnOk result (IsFiled told self.new name.now) }
        ensures text { OnOk result (texts_of self.new.documents.entries name.now
            ≡ option_map
            (λ text. text_after_all self.old.encoding text (map change_told changes.now))
            (texts_of self.old.documents.entries name.now)) }
        ensures held { OnOk result (OnlyRefusedIsBehind self.old.session.project name.now
            self.new.documents.entries) }
    {
        let Some(document) = self.documents.get(name) else {
            return Ok(());
        };
        if let [change] = changes
            && !document.is_behind
        {
            let after = after_change(
                self.session.allocator(),
                self.encoding,
                &document.text,
                *change,
            )?;
            set_text(&mut self.documents, name, version, after.text);
            return self.splice(name, after.splice);
        }
        let text = text_after_all(
            self.session.allocator(),
            self.encoding,
            &document.text,
            changes,
        )?;
        set_text(&mut self.documents, name, version, text);
        self.put_whole(name)
    }

    /// The same, but the session gets the text later.
    pub fn put_off(
        &mut self,
        name: &Name,
        version: Option<u64>,
        changes: &[ContentChange<'_>],
    ) -> Result<(), AllocError>
        ensures stays { StaysButText name.now self.old self.new }
        ensures filed { (told : List ℕ → Holding) → IsFiled told self.old name.now
            → OnOk result (IsFiled told self.new name.now) }
        ensures text { OnOk result (texts_of self.new.documents.entries name.now
            ≡ option_map
            (λ text. text_after_all self.old.encoding text (map change_told changes.now))
            (texts_of self.old.documents.entries name.now)) }
    {
        let Some(document) = self.documents.get(name) else {
            return Ok(());
        };
        let text = text_after_all(
            self.session.allocator(),
            self.encoding,
            &document.text,
            changes,
        )?;
        set_text(&mut self.documents, name, version, text);
        Ok(())
    }

    // Splices the lines of a document's file. Where that is refused, puts its whole text. So where the splice makes its text the file, it is filed.
    fn splice(&mut self, name: &Name, splice: LineSplice) -> Result<(), AllocError>
        requires { IsSome (lookup (bytes_eq name.now) self.old.documents.entries) }
        ensures beside { OnOk result (StaysBeside name.now self.old self.new) }
        ensures text { OnOk result (texts_of self.new.documents.entries name.now
            ≡ texts_of self.old.documents.entries name.now) }
        ensures filed { SplicesText splice name.now self.old
            → OnOk result ((told : List ℕ → Holding) → IsFiled told self.new name.now) }
        ensures held { OnOk result (OnlyRefusedIsBehind self.old.session.project name.now
            self.new.documents.entries) }
    {
        match self
            .session
            .splice(name.as_bytes(), splice.span, splice.lines)
        {
            Ok(_) => {
                set_behind(&mut self.documents, name, false);
                keep_all(&mut self.touched, self.session.touched())
            }
            Err(_) => self.put_whole(name),
        }
    }

    /// Puts the whole texts of documents into the session, one after another.
    pub fn put_each(&mut self, names: &[Name]) -> Result<(), AllocError>
        ensures put { OnOk result (ArePut names.now self.old self.new) }
        ensures filed { (told : List ℕ → Holding)
            → AreFiled told self.old → OnOk result (AreFiled told self.new) }
        ensures rooted { AreRooted self.old → OnOk result (AreRooted self.new) }
    {
        'names: for name in names {
            self.put_whole(name)?;
        }
        Ok(())
    }

    /// Puts the whole text of a document into the session. Where that is refused, the document is behind.
    pub fn put_whole(&mut self, name: &Name) -> Result<(), AllocError>
        ensures beside { OnOk result (StaysBeside name.now self.old self.new) }
        ensures text { OnOk result (texts_of self.new.documents.entries name.now
            ≡ texts_of self.old.documents.entries name.now) }
        ensures filed { IsSome (lookup (bytes_eq name.now) self.old.documents.entries)
            → OnOk result ((told : List ℕ → Holding) → IsFiled told self.new name.now) }
        ensures absent { lookup (bytes_eq name.now) self.old.documents.entries ≡ None
            → self.new ≡ self.old }
        ensures held { OnOk result (OnlyRefusedIsBehind self.old.session.project name.now
            self.new.documents.entries) }
    {
        let Some(document) = self.documents.get(name) else {
            return Ok(());
        };
        let lines = cut(self.session.allocator(), &document.text)?;
        match self.session.put(name.as_bytes(), lines) {
            Ok(_) => {
                set_behind(&mut self.documents, name, false);
                keep_all(&mut self.touched, self.session.touched())
            }
            Err(Refusal::NoMemory) => Err(AllocError),
            Err(refusal) => {
                set_behind(&mut self.documents, name, true);
                push_refused(&mut self.refused, name.as_bytes(), refusal)
            }
        }
    }
}
