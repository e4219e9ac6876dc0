//! Files that roots ask for, and that aren't open: they come from the disk.

ghost use Rattle.std.specs.Prelude.{◌≡◌, ℕ, All, List, [], IfOk, IfSome, None, OnOk, false, map, true};
ghost use Rattle.std.specs.Map.{lookup};
ghost use Rattle.std.specs.Str.{bytes_eq};
ghost use Rattle.idl_inputs.specs.Asked.{asked_of};
ghost use Rattle.idl_inputs.specs.Batch.{edit_of};
ghost use Rattle.idl_inputs.specs.Project.{is_root};
ghost use Rattle.idl_loader.specs.Holding.{Holding};
ghost use Rattle.idl_loader.specs.Holding.{IsFileOf};
ghost use Rattle.idl_server.specs.Files.{AreFiled, AreTried, AreTriedBy, IsAmong, IsNamed, IsWith, StaysCompiled, StaysSet, told_by};
ghost use Rattle.idl_server.specs.Loading.{IsLoadedEdit, StaysOpen};
ghost use Rattle.idl_server.specs.Roots.{AreCovered, AreRooted};

use crate::closing::{OnDisk, loaded};
use crate::workspace::{Workspace, keep_all};
use idl_editor::documents::{Document, push_refused};
use idl_loader::PathLoader;
use idl_project::FileEdit;
use idl_source::{Line, Name};
use indexmap::{IndexMap, IndexSet};
use std::alloc::AllocError;

impl Workspace {
    /// Loads what roots ask for, and makes roots of the open documents that no root asks for, till nothing is left.
    pub fn settle<L: PathLoader>(&mut self, loader: &mut L) -> Result<(), AllocError>
        ensures set { OnOk result (StaysSet self.old self.new) }
        ensures documents { OnOk result (self.new.documents ≡ self.old.documents) }
        ensures filed { let told = told_by self.old.folders (L.told_of loader.old) in
            AreFiled told self.old → OnOk result (AreFiled told self.new) }
        ensures tried { OnOk result (AreTried self.new) }
        ensures rooted { AreRooted self.old → OnOk result (AreRooted self.new) }
        ensures covered { OnOk result (AreCovered self.new) }
        ensures stays { L.told_of loader.new ≡ L.told_of loader.old }
    {
        'rounds: for _ in 0..u64::MAX {
            if self.load_absent(loader)? {
                continue;
            }
            if !self.adopt_one()? {
                return Ok(());
            }
        }
        // So many rounds never go by.
        Err(AllocError)
    }

    // Loads, as one edit, the files that roots ask for and that weren't tried. Tells whether there were any such names.
    fn load_absent<L: PathLoader>(&mut self, loader: &mut L) -> Result<bool, AllocError>
        ensures stays_open { OnOk result (StaysOpen self.old self.new) }
        ensures filed { let told = told_by self.old.folders (L.told_of loader.old) in
            AreFiled told self.old → OnOk result (AreFiled told self.new) }
        ensures tried { IfOk result (λ any. any ≡ false → AreTried self.new) }
        ensures stays { L.told_of loader.new ≡ L.told_of loader.old }
    {
        let untried = self.untried()?;
        if untried.is_empty() {
            return Ok(false);
        }
        let alloc = self.session.allocator();
        let mut loaded = Vec::new(alloc);
        let mut edits = Vec::new(alloc);
        let names = untried.as_slice();
        'names: for name in names {
            let Some(lines) = self.lines_of(loader, name)? else {
                continue;
            };
            loaded.push(name.copied())?;
            edits.push(FileEdit::Put(name.as_bytes(), lines))?;
        }
        self.put_all(&loaded, edits)?;
        Ok(true)
    }

    // The names that roots ask for, that aren't there or open, and that weren't tried.
    fn untried(&self) -> Result<IndexSet<Name>, AllocError>
        ensures closed { IfOk result (λ names.
            All (λ name. lookup (bytes_eq name) self.now.documents.entries ≡ None) names.keys) }
        ensures tried { IfOk result (λ names. names.keys ≡ [] → AreTried self.now) }
    {
        let roots = self.roots()?;
        let mut names = IndexSet::new(self.session.allocator());
        self.add_untried(&roots, &mut names)?;
        Ok(names)
    }

    // Adds those that these roots ask for.
    fn add_untried(&self, roots: &[Name], names: &mut IndexSet<Name>) -> Result<(), AllocError>
        requires { All (λ root. is_root self.now.session.project root ≡ true) roots.now }
        ensures closed { All (λ name. lookup (bytes_eq name) self.now.documents.entries ≡ None)
            names.old.keys
            → OnOk result (All (λ name. lookup (bytes_eq name) self.now.documents.entries ≡ None)
            names.new.keys) }
        ensures tried { OnOk result (names.new.keys ≡ []
            → (names.old.keys ≡ []) × AreTriedBy self.now roots.now) }
    {
        'roots: for root in roots {
            let Some(absent) = self.session.absent(root.as_bytes()) else {
                continue;
            };
            add_absent(&self.documents, &self.tried, absent, names)?;
        }
        Ok(())
    }

    /// The names that roots ask for, there or not, and that aren't open.
    pub fn asked_closed(&self) -> Result<IndexSet<Name>, AllocError>
        ensures closed { IfOk result (λ names.
            All (λ name. lookup (bytes_eq name) self.now.documents.entries ≡ None) names.keys) }
        ensures all { let project = self.now.session.project in
            IfOk result (λ names. All (λ root.
            All (IsAmong names.keys self.now) (asked_of project root)) project.roots) }
    {
        let roots = self.roots()?;
        let mut names = IndexSet::new(self.session.allocator());
        'roots: for root in &roots {
            let asked = self.session.asked(root.as_bytes())?;
            add_closed(&self.documents, &asked, &mut names)?;
        }
        Ok(names)
    }

    /// The lines of a file on the disk, or it is kept that there are none.
    pub fn lines_of<L: PathLoader>(
        &mut self,
        loader: &mut L,
        name: &Name,
    ) -> Result<Option<Vec<Line>>, AllocError>
        ensures same { StaysCompiled self.old self.new }
        ensures filed { let told = told_by self.old.folders (L.told_of loader.old) in
            AreFiled told self.old → OnOk result (AreFiled told self.new) }
        ensures lines { let told = told_by self.old.folders (L.told_of loader.old) in
            IfOk result (λ lines. IfSome lines (λ l. IsFileOf told name.now l.items)) }
        ensures stays { L.told_of loader.new ≡ L.told_of loader.old }
    {
        match loaded(self.session.allocator(), &self.folders, loader, name)? {
            OnDisk::Lines(lines) => Ok(Some(lines)),
            OnDisk::Missing => {
                self.tried.insert(name.copied())?;
                Ok(None)
            }
            OnDisk::Unread => {
                pass_over(&mut self.tried, &mut self.unread, name)?;
                Ok(None)
            }
        }
    }

    // Puts files of these names, as one edit. The first one that is refused isn't tried again.
    fn put_all(&mut self, names: &[Name], edits: Vec<FileEdit<'_>>) -> Result<(), AllocError>
        ensures { (told : List ℕ → Holding)
            → All (IsLoadedEdit told self.old.documents.entries) (map edit_of edits.entry.items)
            → OnOk result (StaysOpen self.old self.new
            × (AreFiled told self.old → AreFiled told self.new)) }
    {
        match self.session.batch(edits) {
            Ok(_) => keep_all(&mut self.touched, self.session.touched()),
            Err((number, refusal)) => match names.get(number) {
                Some(name) => {
                    pass_over(&mut self.tried, &mut self.unread, name)?;
                    push_refused(&mut self.refused, name.as_bytes(), refusal)
                }
                None => Err(AllocError),
            },
        }
    }
}

// Adds those of these names that aren't open and weren't tried.
fn add_absent(
    documents: &IndexMap<Name, Document>,
    tried: &IndexSet<Name>,
    absent: &[Name],
    names: &mut IndexSet<Name>,
) -> Result<(), AllocError>
    ensures closed { All (λ name. lookup (bytes_eq name) documents.now.entries ≡ None)
        names.old.keys
        → OnOk result (All (λ name. lookup (bytes_eq name) documents.now.entries ≡ None)
        names.new.keys) }
    ensures tried { OnOk result (names.new.keys ≡ [] → (names.old.keys ≡ [])
        × All (IsNamed tried.now.keys documents.now.entries) absent.now) }
{
    'absent: for name in absent {
        if is_tried(documents, tried, name) {
            continue;
        }
        names.insert(name.copied())?;
    }
    Ok(())
}

// Whether a name was tried, or is open.
fn is_tried(documents: &IndexMap<Name, Document>, tried: &IndexSet<Name>, name: &Name) -> bool
    ensures tried { result ≡ true → IsNamed tried.now.keys documents.now.entries name.now }
    ensures closed { result ≡ false
        → lookup (bytes_eq name.now) documents.now.entries ≡ None }
{
    tried.contains(name) || documents.contains_key(name)
}

// Adds those of these names that aren't open.
fn add_closed(
    documents: &IndexMap<Name, Document>,
    asked: &[Name],
    names: &mut IndexSet<Name>,
) -> Result<(), AllocError>
    ensures closed { All (λ name. lookup (bytes_eq name) documents.now.entries ≡ None)
        names.old.keys
        → OnOk result (All (λ name. lookup (bytes_eq name) documents.now.entries ≡ None)
        names.new.keys) }
    ensures all { OnOk result
        (All (IsNamed names.new.keys documents.now.entries) asked.now) }
    ensures kept { OnOk result ((name : List ℕ)
        → IsNamed names.old.keys documents.now.entries name
        → IsNamed names.new.keys documents.now.entries name) }
{
    'asked: for name in asked {
        if documents.contains_key(name) {
            continue;
        }
        names.insert(name.copied())?;
    }
    Ok(())
}

// Keeps that a file can't be read, or that it is refused.
fn pass_over(
    tried: &mut IndexSet<Name>,
    unread: &mut IndexSet<Name>,
    name: &Name,
) -> Result<(), AllocError>
    ensures unread { OnOk result (IsWith name.now true unread.old.keys unread.new.keys) }
    ensures tried { OnOk result (IsWith name.now true tried.old.keys tried.new.keys) }
{
    unread.insert(name.copied())?;
    tried.insert(name.copied())?;
    Ok(())
}
