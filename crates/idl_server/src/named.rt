//! Names at a position: where what they denote is declared, and what it is.

ghost use Rattle.std.specs.Prelude.{◌≡◌, IfOk, option_and_then};
ghost use Rattle.std.specs.Option.{option_copied, option_map};
ghost use Rattle.serde_json.specs.View.{view};
ghost use Rattle.idl_server.specs.Places.{lines_of};
ghost use Rattle.idl_editor.specs.told.Json.{location_json};
ghost use Rattle.idl_server.specs.Includes.{included_at};
ghost use Rattle.idl_server.specs.Named.{declared_at, declared_place, definition_at, definition_json, details_with, entry_of, entry_text, file_json, has_path, last_declared, path_at, stands_at, token_range, used_at};
ghost use Rattle.idl_server.specs.Uris.{uri_for};

use crate::declarations::push_declaration;
use crate::includes::included_at;
use crate::places::{CountedFile, DocumentPosition, LocatedToken, is_at, range_near, range_of};
use crate::workspace::Workspace;
use idl_editor::documents::uri_for;
use idl_editor::told::{hover_value, location_value};
use idl_editor::{Encoding, Position, Range};
use idl_entity::Path;
use idl_project::{
    DeclaredPlace, DetailedEntry, Details, PlacedName, Session, SitedToken, UsedName,
};
use idl_repo::details::kind_word;
use idl_repo::push_path;
use idl_source::Name;
use serde_json::Value;
use std::alloc::{AllocError, Global};

/// What is told of a root.
pub(crate) struct RootDetails {
    pub root: Name,
    pub details: Details,
}

// One call wherever one is dropped, in place of all its parts.
impl Drop for RootDetails {
    fn drop(self) {
        let RootDetails {
            root: _root,
            details: _details,
        } = self;
    }
}

impl Workspace {
    /// Where what the name at a position of a file denotes is declared, the file that an include there finds, and else nothing.
    pub fn definition_at(&self, name: &Name, position: Position) -> Result<Value, AllocError>
        ensures { IfOk result (λ value. view value ≡ definition_json self.now
            (definition_at self.now.encoding self.now.session.project name.now position)
            (included_at self.now.encoding self.now.session.project name.now position)) }
    {
        let file = CountedFile::new(&self.session, name)?;
        let spot = DocumentPosition {
            file: &file,
            position,
        };
        let told = self.details_with(name)?;
        if let Some(declared) = defined_at(&self.session, self.encoding, &told, spot) {
            return self.place_value(&declared.name);
        }
        match included_at(&self.session, self.encoding, spot) {
            Some(name) => self.file_value(&name),
            None => Ok(Value::Null),
        }
    }

    // What is told of a token.
    fn place_value(&self, token: &SitedToken) -> Result<Value, AllocError>
        ensures { IfOk result (λ value. view value
            ≡ location_json (uri_for self.now token.now.place.file)
            (token_range self.now.encoding self.now.session.project token.now)) }
    {
        let uri = uri_for(&self.documents, &self.folders, &token.place.file.name())?;
        let range = range_of(&self.session, self.encoding, LocatedToken::of(token));
        location_value(self.session.allocator(), &uri, range)
    }

    // What is told of a file: where it begins.
    fn file_value(&self, name: &Name) -> Result<Value, AllocError>
        ensures { IfOk result (λ value. view value ≡ file_json self.now name.now) }
    {
        let uri = uri_for(&self.documents, &self.folders, name)?;
        let start = Position { line: 0, column: 0 };
        location_value(self.session.allocator(), &uri, Range { start, end: start })
    }

    /// What the name at a position of a file denotes, and how that is declared; and else nothing.
    pub fn hover_at(&self, name: &Name, position: Position) -> Result<Value, AllocError> {
        let Some(told) = self.details_with(name)? else {
            return Ok(Value::Null);
        };
        let file = CountedFile::new(&self.session, name)?;
        let spot = DocumentPosition {
            file: &file,
            position,
        };
        let Some(path) = path_at(&self.session, self.encoding, &told.details, spot) else {
            return Ok(Value::Null);
        };
        hover_value(self.session.allocator(), &self.shown_of(&told, path)?)
    }

    // What is shown of the name at a path: its entry and the lines of its declaration. One that has no entry is a member, an enumerator
    // or a parameter, of which the line of its name is shown.
    fn shown_of(&self, told: &RootDetails, path: &Path) -> Result<Vec<u8>, AllocError> {
        let alloc = self.session.allocator();
        let mut spelled = Vec::new(alloc);
        push_path(&mut spelled, path.lent())?;
        let entry = entry_of(&told.details, &spelled);
        let mut text = match entry {
            Some(entry) => hover_text(alloc, entry, self.row_of(told, entry))?,
            None => spelled,
        };
        if let Some(declared) = last_declared(&told.details, path) {
            let (first, last) = match entry {
                Some(_) => (&declared.first, &declared.last),
                None => (&declared.name, &declared.name),
            };
            push_declaration(&mut text, &self.session, first, last)?;
        }
        Ok(text)
    }

    // The row of an entry in the listing of its root, which has one for each entry, and none where the root has an error.
    fn row_of(&self, told: &RootDetails, entry: &DetailedEntry) -> Option<&[u8]> {
        let rows = self.session.listing(told.root.as_bytes())?;
        for (index, other) in told.details.entries.as_slice().iter().enumerate() {
            if other.tree.path == entry.tree.path {
                return Some(rows.get(index)?.as_bytes());
            }
        }
        None
    }

    /// What is told of the first root that asks for a file.
    pub fn details_with(&self, name: &Name) -> Result<Option<RootDetails>, AllocError>
        ensures { IfOk result (λ told. option_map (λ told. told.details) told
            ≡ details_with self.now.session.project name.now) }
    {
        let Some(root) = self.root_with(name)? else {
            return Ok(None);
        };
        match self.session.details(root.as_bytes())? {
            Some(details) => Ok(Some(RootDetails { root, details })),
            None => Ok(None),
        }
    }
}

// The text that is shown of an entry, with its row in the listing behind it.
fn hover_text(
    alloc: Global,
    entry: &DetailedEntry,
    row: Option<&[u8]>,
) -> Result<Vec<u8>, AllocError> {
    let mut text = entry_text(alloc, entry)?;
    if let Some(row) = row {
        text.extend_from_slice(b"\n")?;
        text.extend_from_slice(row)?;
    }
    Ok(text)
}

// Where what the name at a position denotes is declared, by what is told of a root, if there is one.
fn defined_at<'d>(
    session: &Session,
    encoding: Encoding,
    told: &'d Option<RootDetails>,
    spot: DocumentPosition<'_>,
) -> Option<&'d DeclaredPlace>
    requires { spot.file.now.lines ≡ lines_of session.now.project
        spot.file.now.name.now }
    ensures { option_copied result ≡ option_and_then (λ told. declared_place encoding
        session.now.project told.details spot.entry.file.now.name.now spot.entry.position) told.now }
{
    match told {
        Some(told) => declared_place(session, encoding, &told.details, spot),
        None => None,
    }
}

// The last place where what the name at a position denotes is declared.
fn declared_place<'d>(
    session: &Session,
    encoding: Encoding,
    details: &'d Details,
    spot: DocumentPosition<'_>,
) -> Option<&'d DeclaredPlace>
    requires { spot.file.now.lines ≡ lines_of session.now.project
        spot.file.now.name.now }
    ensures { option_copied result ≡ declared_place encoding session.now.project details.now
        spot.entry.file.now.name.now spot.entry.position }
{
    last_declared(details, path_at(session, encoding, details, spot)?)
}

/// The last place where the name at a path is declared.
pub(crate) fn last_declared<'d>(details: &'d Details, path: &Path) -> Option<&'d DeclaredPlace>
    ensures { option_copied result ≡ last_declared details.now path.now }
{
    let declared = details.declared.as_slice();
    let mut last = None;
    'each: for index in 0..declared.len() {
        let one = &declared[index];
        if *path == one.path {
            last = Some(&one.place);
        }
    }
    last
}

/// The path of what the name at a position denotes: of what is declared there, and else of what the first name denotes that is used there.
pub(crate) fn path_at<'d>(
    session: &Session,
    encoding: Encoding,
    details: &'d Details,
    spot: DocumentPosition<'_>,
) -> Option<&'d Path>
    requires { spot.file.now.lines ≡ lines_of session.now.project
        spot.file.now.name.now }
    ensures { option_copied result ≡ path_at encoding session.now.project details.now
        spot.entry.file.now.name.now spot.entry.position }
{
    if let Some(declared) = declared_at(session, encoding, details, spot) {
        return Some(&declared.path);
    }
    match used_at(session, encoding, details, spot) {
        Some(used) => Some(&used.path),
        None => None,
    }
}

// The first name that is declared at a position.
fn declared_at<'d>(
    session: &Session,
    encoding: Encoding,
    details: &'d Details,
    spot: DocumentPosition<'_>,
) -> Option<&'d PlacedName>
    requires { spot.file.now.lines ≡ lines_of session.now.project
        spot.file.now.name.now }
    ensures { option_copied result ≡ declared_at encoding session.now.project
        spot.entry.file.now.name.now spot.entry.position details.now }
{
    let names = details.declared.as_slice();
    'each: for index in 0..names.len() {
        let declared = &names[index];
        if stands_at(session, encoding, &declared.place.name, spot) {
            return Some(declared);
        }
    }
    None
}

// The first name that is used at a position.
fn used_at<'d>(
    session: &Session,
    encoding: Encoding,
    details: &'d Details,
    spot: DocumentPosition<'_>,
) -> Option<&'d UsedName>
    requires { spot.file.now.lines ≡ lines_of session.now.project
        spot.file.now.name.now }
    ensures { option_copied result ≡ used_at encoding session.now.project
        spot.entry.file.now.name.now spot.entry.position details.now }
{
    let uses = details.uses.as_slice();
    'each: for index in 0..uses.len() {
        let used = &uses[index];
        if stands_at(session, encoding, &used.name, spot) {
            return Some(used);
        }
    }
    None
}

// The entry of this path.
fn entry_of<'d>(details: &'d Details, path: &[u8]) -> Option<&'d DetailedEntry>
    ensures { option_copied result ≡ entry_of details.now path.now }
{
    let entries = details.entries.as_slice();
    'each: for index in 0..entries.len() {
        let entry = &entries[index];
        if has_path(entry, path) {
            return Some(entry);
        }
    }
    None
}

// Whether an entry is of this path.
fn has_path(entry: &DetailedEntry, path: &[u8]) -> bool
    ensures { result ≡ has_path path.now entry.now }
{
    entry.tree.path.as_bytes() == path
}

// Whether a token stands at a position.
fn stands_at(
    session: &Session,
    encoding: Encoding,
    token: &SitedToken,
    spot: DocumentPosition<'_>,
) -> bool
    requires { spot.file.now.lines ≡ lines_of session.now.project
        spot.file.now.name.now }
    ensures { result ≡ stands_at encoding session.now.project
        spot.entry.file.now.name.now spot.entry.position token.now }
{
    if token.place.file.as_bytes() != spot.file.name().as_bytes() {
        return false;
    }
    let column = session.column(&token.place, token.number, token.text.as_bytes());
    if column.is_none() {
        return false;
    }
    let range = range_near(session, encoding, LocatedToken::of(token), spot.file);
    is_at(spot.position, range)
}

// What is shown of an entry.
fn entry_text(alloc: Global, entry: &DetailedEntry) -> Result<Vec<u8>, AllocError>
    ensures { IfOk result (λ text. text.items ≡ entry_text entry.now) }
{
    let tree = &entry.tree;
    let mut text = Vec::from_slice(alloc, kind_word(tree.kind))?;
    text.extend_from_slice(b" ")?;
    text.extend_from_slice(tree.path.as_bytes())?;
    text.extend_from_slice(b"\n")?;
    text.extend_from_slice(tree.id.as_bytes())?;
    Ok(text)
}
