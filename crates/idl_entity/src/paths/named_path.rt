//! Paths that have a name.

ghost use Rattle.std.specs.Prelude.{◌≡◌, ◌&&◌, ◌∷◌, IfOk};
ghost use Rattle.std.specs.Str.{bytes_eq};
ghost use Rattle.idl_value.specs.idl_lex.kinds.Keywords.{folded};
ghost use Rattle.idl_entity.specs.Path.{name_of, path_eq, scope_of};

use crate::paths::names::Names;
use crate::paths::path::{Path, PathPart};
use idl_base::Bytes;
use std::alloc::{AllocError, Global};
use std::marker::Model;
use std::rc::Rc;

/// The path of what has a name: any but that of the global scope. It takes the memory of a pointer, and a path takes twice that.
#[derive(Drop)]
pub struct NamedPath {
    part: Rc<PathPart>,
}

impl Model for NamedPath {
    ghost use Rattle.std.specs.Prelude.{List, ℕ, ◌∷◌};

    ghost Value = { List (List ℕ) };

    ghost view = { λ path. path.part.value.0 ∷ path.part.value.1 };
}

impl NamedPath {
    /// The path that ends in this part.
    pub(crate) fn of(part: Rc<PathPart>) -> NamedPath
        ensures { result ≡ part.value.0 ∷ part.value.1 }
    {
        NamedPath { part }
    }

    /// The path of a name in the scope with this path.
    pub(crate) fn child(alloc: Global, scope: &Path, name: &Bytes) -> Result<NamedPath, AllocError>
        ensures { IfOk result (λ path. path ≡ name.now ∷ scope.now) }
    {
        let part = Rc::new(alloc, scope.part_for(alloc, name)?)?;
        Ok(NamedPath { part })
    }

    /// The names.
    pub fn lent(&self) -> Names<'_>
        ensures { result ≡ self.now }
    {
        Names::from(&self.part)
    }

    /// Its own name, folded.
    pub fn folded_name(&self) -> &Bytes
        ensures { result.now ≡ folded (name_of self.now) }
    {
        self.part.folded_name()
    }

    /// The names of the scope around.
    pub fn around(&self) -> Names<'_>
        ensures { result ≡ scope_of self.now }
    {
        self.part.around()
    }

    /// Whether another is the same.
    pub fn is(&self, other: &NamedPath) -> bool
        ensures { result ≡ path_eq self.now other.now }
    {
        self.lent().are_those(&other.lent())
    }

    /// Whether it is that path.
    pub fn is_of(&self, path: &Path) -> bool
        ensures { result ≡ path_eq path.now self.now }
    {
        path.lent().are_those(&self.lent())
    }

    /// Whether what stands there is found under this folded name in the scope with that path.
    pub fn is_found_at(&self, name: &Bytes, scope: &Path) -> bool
        ensures { result
            ≡ bytes_eq name.now (folded (name_of self.now))
            && path_eq scope.now (scope_of self.now) }
    {
        *name == *self.part.folded_name() && scope.is_around(&self.part)
    }

    /// Whether what stands at a path is found under the same folded name in the same scope.
    pub fn is_found_as(&self, path: &Path) -> bool
        ensures { result
            ≡ bytes_eq (folded (name_of path.now)) (folded (name_of self.now))
            && path_eq (scope_of path.now) (scope_of self.now) }
    {
        path.is_found_as(&self.part)
    }

    /// Whether what stands at another path is found under the same folded name in the same scope.
    pub fn is_found_with(&self, other: &NamedPath) -> bool
        ensures { result
            ≡ bytes_eq (folded (name_of self.now)) (folded (name_of other.now))
            && path_eq (scope_of self.now) (scope_of other.now) }
    {
        *self.part.folded_name() == *other.part.folded_name()
            && self.part.around().are_those(&other.part.around())
    }
}

impl Clone for NamedPath {
    ghost is_clone = { λ path copy. copy ≡ path };

    fn clone(&self) -> Result<NamedPath, AllocError> {
        let part = self.part.clone()?;
        Ok(NamedPath { part })
    }
}
