//! Where what the name at a position denotes is named.

ghost use Rattle.std.specs.Prelude.{◌≡◌, ◌∷◌, [], IfOk, OnOk, flat_map, map};
ghost use Rattle.serde_json.specs.Data.{array};
ghost use Rattle.serde_json.specs.View.{items_of, view};
ghost use Rattle.idl_server.specs.References.{AreAdded, declared_as, highlight_of, highlights_at, named_as, named_at, named_by, references_at, told_of, used_as};

use crate::named::{last_declared, path_at};
use crate::places::{CountedFile, CountedFiles, DocumentPosition, LocatedToken};
use crate::workspace::Workspace;
use idl_editor::documents::uri_for;
use idl_editor::told::{highlight_value, location_value};
use idl_editor::{Encoding, Position, Range};
use idl_entity::Path;
use idl_fault::FileName;
use idl_project::{Details, SitedToken};
use idl_source::Name;
use indexmap::IndexSet;
use serde_json::Value;
use std::alloc::AllocError;

/// A range of a file.
#[derive(PartialEq, Eq, Hash, Drop)]
pub(crate) struct FileRange {
    pub file: FileName,
    pub range: Range,
}

// Where names stand, each place once, in the order in which they were added.
struct NamedPlaces<'a> {
    encoding: Encoding,
    files: CountedFiles<'a>,
    places: IndexSet<FileRange>,
}

// One call wherever one is dropped, in place of all its parts.
impl<'a> Drop for NamedPlaces<'a> {
    fn drop(self) {
        let NamedPlaces {
            encoding: _encoding,
            files: _files,
            places: _places,
        } = self;
    }
}

// What is looked for: a path, and whether where it is declared too, by the roots that ask for a file.
#[derive(Clone, Copy)]
struct SoughtName<'d> {
    path: &'d Path,
    declared: bool,
    file: &'d Name,
}

impl<'a> NamedPlaces<'a> {
    // None yet.
    fn new(workspace: &'a Workspace) -> NamedPlaces<'a>
        ensures files { result.files ≡ workspace.now.session }
        ensures encoding { result.encoding ≡ workspace.now.encoding }
        ensures places { result.places.keys ≡ [] }
    {
        NamedPlaces {
            encoding: workspace.encoding,
            files: CountedFiles::new(&workspace.session),
            places: IndexSet::new(workspace.session.allocator()),
        }
    }

    // The places alone.
    fn into_places(self) -> IndexSet<FileRange>
        ensures { result ≡ self.entry.places }
    {
        let NamedPlaces {
            encoding: _encoding,
            files: _files,
            places,
        } = self;
        places
    }

    // Adds where a path is named, by what is told of a root.
    fn add_named(
        &mut self,
        declared: bool,
        path: &Path,
        details: &Details,
    ) -> Result<(), AllocError>
        ensures { OnOk result
            (AreAdded (named_as declared path.now details.now) self.old self.new) }
    {
        if !declared {
            return self.add_used(path, details);
        }
        self.add_declared(path, details)?;
        self.add_used(path, details)
    }

    // Adds where a path is declared.
    fn add_declared(&mut self, path: &Path, details: &Details) -> Result<(), AllocError>
        ensures { OnOk result (AreAdded (declared_as path.now details.now) self.old self.new) }
    {
        let names = details.declared.as_slice();
        'each: for declared in names {
            if *path != declared.path {
                continue;
            }
            self.add(&declared.place.name)?;
        }
        Ok(())
    }

    // Adds where a path is used.
    fn add_used(&mut self, path: &Path, details: &Details) -> Result<(), AllocError>
        ensures { OnOk result (AreAdded (used_as path.now details.now) self.old self.new) }
    {
        let names = details.uses.as_slice();
        'each: for used in names {
            if *path != used.path {
                continue;
            }
            self.add(&used.name)?;
        }
        Ok(())
    }

    // Adds where a token stands.
    fn add(&mut self, token: &SitedToken) -> Result<(), AllocError>
        ensures { OnOk result (AreAdded (token.now ∷ []) self.old self.new) }
    {
        let range = self.files.range_of(self.encoding, LocatedToken::of(token))?;
        let file = token.place.file.clone()?;
        self.places.insert(FileRange { file, range })?;
        Ok(())
    }
}

impl Workspace {
    /// Where what the name at a position of a file denotes is used, and if that is asked for, declared, by all roots that ask for the file
    /// which declares it last.
    pub fn references_at(
        &self,
        name: &Name,
        position: Position,
        declared: bool,
    ) -> Result<Value, AllocError>
        ensures { IfOk result (λ value. view value ≡ array (items_of (map (told_of self.now)
            (references_at self.now.encoding self.now.session.project
            declared name.now position)))) }
    {
        let places = self.references_of(name, position, declared)?;
        let held = places.as_slice();
        let mut list = Vec::with_capacity(self.session.allocator(), held.len())?;
        'each: for place in held {
            list.push(self.told_of(place)?)?;
        }
        Ok(Value::Array(list))
    }

    /// Where that is declared and used in the file itself, by the first root that asks for it.
    pub fn highlights_at(&self, name: &Name, position: Position) -> Result<Value, AllocError>
        ensures { IfOk result (λ value. view value ≡ array (items_of (map highlight_of
            (highlights_at self.now.encoding self.now.session.project name.now position)))) }
    {
        let alloc = self.session.allocator();
        let places = self.named_at(name, position)?;
        let mut list = Vec::new(alloc);
        let held = places.as_slice();
        'each: for place in held {
            if place.file.as_bytes() != name.as_bytes() {
                continue;
            }
            list.push(highlight_value(alloc, place.range)?)?;
        }
        Ok(Value::Array(list))
    }

    // Where it is named by those roots.
    fn references_of(
        &self,
        name: &Name,
        position: Position,
        declared: bool,
    ) -> Result<IndexSet<FileRange>, AllocError>
        ensures { IfOk result (λ places. places.keys
            ≡ references_at self.now.encoding self.now.session.project declared name.now position) }
    {
        let mut named = NamedPlaces::new(self);
        let Some(told) = self.details_with(name)? else {
            return Ok(named.into_places());
        };
        let counted = CountedFile::new(&self.session, name)?;
        let spot = DocumentPosition {
            file: &counted,
            position,
        };
        let Some(path) = path_at(&self.session, self.encoding, &told.details, spot) else {
            return Ok(named.into_places());
        };
        let Some(place) = last_declared(&told.details, path) else {
            return Ok(named.into_places());
        };
        let file = &place.name.place.file.name();
        let sought = SoughtName {
            path,
            declared,
            file,
        };
        self.add_by_roots(&mut named, sought)?;
        Ok(named.into_places())
    }

    // Where it is named by the first root that asks for the file.
    fn named_at(&self, name: &Name, position: Position) -> Result<IndexSet<FileRange>, AllocError>
        ensures { IfOk result (λ places. places.keys
            ≡ named_at self.now.encoding self.now.session.project name.now position) }
    {
        let mut named = NamedPlaces::new(self);
        let Some(told) = self.details_with(name)? else {
            return Ok(named.into_places());
        };
        let counted = CountedFile::new(&self.session, name)?;
        let spot = DocumentPosition {
            file: &counted,
            position,
        };
        let Some(path) = path_at(&self.session, self.encoding, &told.details, spot) else {
            return Ok(named.into_places());
        };
        named.add_named(true, path, &told.details)?;
        Ok(named.into_places())
    }

    // Adds where a path is named by the roots that ask for a file.
    fn add_by_roots(
        &self,
        named: &mut NamedPlaces<'_>,
        sought: SoughtName<'_>,
    ) -> Result<(), AllocError>
        ensures { OnOk result (AreAdded (flat_map (named_by self.now.session.project
            sought.entry.declared sought.entry.path.now sought.entry.file.now)
            self.now.session.project.roots) named.old named.new) }
    {
        let roots = self.roots()?;
        let held = roots.as_slice();
        'roots: for root in held {
            self.add_by_root(named, sought, root)?;
        }
        Ok(())
    }

    // Adds where a path is named by a root, if that asks for the file.
    fn add_by_root(
        &self,
        named: &mut NamedPlaces<'_>,
        sought: SoughtName<'_>,
        root: &Name,
    ) -> Result<(), AllocError>
        ensures { OnOk result (AreAdded (named_by self.now.session.project
            sought.entry.declared sought.entry.path.now sought.entry.file.now root.now)
            named.old named.new) }
    {
        let asked = self.session.asked(root.as_bytes())?;
        if !asked.contains(sought.file) {
            return Ok(());
        }
        match self.session.details(root.as_bytes())? {
            Some(details) => named.add_named(sought.declared, sought.path, &details),
            None => Ok(()),
        }
    }

    // What is told of a place.
    fn told_of(&self, place: &FileRange) -> Result<Value, AllocError>
        ensures { IfOk result (λ value. view value ≡ told_of self.now place.now) }
    {
        let uri = uri_for(&self.documents, &self.folders, &place.file.name())?;
        location_value(self.session.allocator(), &uri, place.range)
    }
}
