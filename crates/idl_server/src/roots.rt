//! Which of the open documents are roots: those that no root asks for.

ghost use Rattle.std.specs.Prelude.{◌≡◌, ◌⊎◌, ℕ, List, [], IfOk, IfSome, IsSome, None, OnOk, false, true};
ghost use Rattle.std.specs.List.{list_any};
ghost use Rattle.std.specs.Option.{option_copied};
ghost use Rattle.std.specs.Str.{bytes_eq};
ghost use Rattle.idl_server.specs.Files.{IsKept, StaysFiled};
ghost use Rattle.idl_server.specs.Named.{root_with};
ghost use Rattle.idl_server.specs.Roots.{AreCovered, AreRooted, IsOpen, IsWaiting};

use crate::workspace::{Workspace, keep_all};
use idl_editor::documents::push_refused;
use idl_project::{Finding, MAX_ROOTS};
use idl_source::{Line, Name, Refusal};
use indexmap::IndexSet;
use std::alloc::AllocError;

impl Workspace {
    /// Makes a root of the first open document that no root asks for, and tells whether there was one.
    pub fn adopt_one(&mut self) -> Result<bool, AllocError>
        ensures filed { StaysFiled self.old self.new }
        ensures kept { IfOk result (λ any. any ≡ false → IsKept self.old self.new) }
        ensures covered { IfOk result (λ any. any ≡ false → AreCovered self.new) }
        ensures rooted { AreRooted self.old → OnOk result (AreRooted self.new) }
    {
        call_back(self.session.root(MAX_ROOTS - 1), &mut self.turned_away);
        let Some(name) = self.first_unasked()? else {
            return Ok(false);
        };
        self.adopt(&name)?;
        Ok(true)
    }

    // Makes a root of an open document; where there are as many as there may be, it is turned away.
    fn adopt(&mut self, name: &Name) -> Result<(), AllocError>
        ensures filed { StaysFiled self.old self.new }
        ensures rooted { IsOpen self.old name.now → AreRooted self.old
            → OnOk result (AreRooted self.new) }
    {
        match self.session.add_root(name.as_bytes()) {
            Ok(_) => keep_all(&mut self.touched, self.session.touched()),
            Err(Refusal::NoMemory) => Err(AllocError),
            Err(refusal) => {
                self.turned_away.insert(name.copied())?;
                push_refused(&mut self.refused, name.as_bytes(), refusal)
            }
        }
    }

    /// The roots, in order.
    pub fn roots(&self) -> Result<Vec<Name>, AllocError>
        ensures { IfOk result (λ names. names.items ≡ self.now.session.project.roots) }
    {
        let mut names = Vec::new(self.session.allocator());
        'roots: for at in 0..usize::MAX {
            match self.session.root(at) {
                Some(root) => names.push(root.copied())?,
                None => return Ok(names),
            }
        }
        // There are never so many.
        Err(AllocError)
    }

    /// The first root that asks for a file.
    pub fn root_with(&self, name: &Name) -> Result<Option<Name>, AllocError>
        ensures { IfOk result (λ root. root ≡ root_with self.now.session.project name.now) }
    {
        let roots = self.roots()?;
        let held = roots.as_slice();
        'each: for index in 0..held.len() {
            let root = &held[index];
            let asked = self.session.asked(root.as_bytes())?;
            if asked.contains(name) {
                return Ok(Some(root.copied()));
            }
        }
        Ok(None)
    }

    // The first open document that waits, and that no root asks for.
    fn first_unasked(&self) -> Result<Option<Name>, AllocError>
        ensures none { IfOk result (λ name. name ≡ None → (other : List ℕ)
            → IsWaiting self.now other → IsSome (root_with self.now.session.project other)) }
        ensures opened { IfOk result (λ name. IfSome name (IsOpen self.now)) }
    {
        let roots = self.roots()?;
        let mut left = self.waiting()?;
        'roots: for root in &roots {
            if left.is_empty() {
                return Ok(None);
            }
            let asked = self.session.asked(root.as_bytes())?;
            take_all(&asked, &mut left);
        }
        match left.first() {
            Some(name) => Ok(Some(name.copied())),
            None => Ok(None),
        }
    }

    // The open documents that wait.
    fn waiting(&self) -> Result<IndexSet<Name>, AllocError>
        ensures all { IfOk result (λ names. (name : List ℕ)
            → IsWaiting self.now name → list_any (bytes_eq name) names.keys ≡ true) }
        ensures opened { IfOk result (λ names. (name : List ℕ)
            → list_any (bytes_eq name) names.keys ≡ true → IsOpen self.now name) }
    {
        let mut names = IndexSet::new(self.session.allocator());
        'documents: for (name, _document) in self.documents.iter() {
            let bytes = name.as_bytes();
            let file = self.session.file(bytes);
            let findings = self.session.findings(bytes);
            if !is_waiting(&self.turned_away, file, findings, name) {
                continue;
            }
            names.insert(name.copied())?;
        }
        Ok(names)
    }
}

// Whether an open document waits to become a root: there is its file, it has no findings as a root, and it wasn't turned away.
fn is_waiting(
    turned_away: &IndexSet<Name>,
    file: Option<&[Line]>,
    findings: Option<&[Finding]>,
    name: &Name,
) -> bool
    ensures { list_any (bytes_eq name.now) turned_away.now.keys ≡ false
        → IsSome (option_copied file.entry) → option_copied findings.entry ≡ None
        → result ≡ true }
{
    !turned_away.contains(name) && file.is_some() && findings.is_none()
}

// No document stays turned away where there isn't the last root that there may be.
fn call_back(last: Option<&Name>, turned_away: &mut IndexSet<Name>)
    ensures { (turned_away.new.keys ≡ []) ⊎ IsSome (option_copied last.entry) }
{
    if last.is_some() {
        return;
    }
    turned_away.clear();
}

// Takes names out of others.
fn take_all(asked: &[Name], names: &mut IndexSet<Name>)
    ensures left { (name : List ℕ) → list_any (bytes_eq name) names.old.keys ≡ true
        → (list_any (bytes_eq name) names.new.keys ≡ true)
        ⊎ (list_any (λ one. bytes_eq one name) asked.now ≡ true) }
    ensures few { (name : List ℕ) → list_any (bytes_eq name) names.new.keys ≡ true
        → list_any (bytes_eq name) names.old.keys ≡ true }
{
    'names: for name in asked {
        names.shift_remove(name);
    }
}
