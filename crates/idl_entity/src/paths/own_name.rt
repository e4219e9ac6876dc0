//! Folded names that are shared with paths.

ghost use Rattle.std.specs.Prelude.{◌≡◌, ◌↔◌, IfOk, IsTrue};
ghost use Rattle.std.specs.Str.{bytes_eq};
ghost use Rattle.idl_value.specs.idl_lex.kinds.Keywords.{folded};
ghost use Rattle.idl_entity.specs.Path.{name_of};

use crate::paths::named_path::NamedPath;
use crate::paths::path::Path;
use idl_base::Bytes;
use std::alloc::{AllocError, Global};
use std::marker::Model;

/// A folded name: that of what stands at some path, with which it is shared. To every contract it is the folded name alone.
#[derive(Drop)]
pub struct OwnName {
    path: NamedPath,
}

impl Model for OwnName {
    ghost use Rattle.std.specs.Prelude.{List, ℕ};
    ghost use Rattle.idl_value.specs.idl_lex.kinds.Keywords.{folded};
    ghost use Rattle.idl_entity.specs.Path.{name_of};

    ghost Value = { List ℕ };

    ghost view = { λ name. folded (name_of name.path) };
}

impl OwnName {
    /// This name, folded. It is shared with a path, if one of the names of the path is spelled so.
    pub fn within(alloc: Global, path: &Path, name: &Bytes) -> Result<OwnName, AllocError>
        ensures { IfOk result (λ own. own ≡ folded name.now) }
    {
        match path.ending_in(name)? {
            Some(path) => Ok(OwnName { path }),
            None => OwnName::new(alloc, name),
        }
    }

    // This name, folded.
    fn new(alloc: Global, name: &Bytes) -> Result<OwnName, AllocError>
        ensures { IfOk result (λ own. own ≡ folded name.now) }
    {
        let path = NamedPath::child(alloc, &Path::global(), name)?;
        Ok(OwnName { path })
    }

    /// The name of what stands at a path, folded.
    pub fn of(alloc: Global, path: &Path) -> Result<OwnName, AllocError>
        ensures { IfOk result (λ own. own ≡ folded (name_of path.now)) }
    {
        match path.clone()?.into_named() {
            Some(path) => Ok(OwnName { path }),
            None => OwnName::new(alloc, &path.spelling(alloc)?),
        }
    }

    /// The name.
    pub fn spelling(&self) -> &Bytes
        ensures { result.now ≡ self.now }
    {
        self.path.folded_name()
    }

    /// Whether another is the same.
    pub fn is(&self, other: &OwnName) -> bool
        ensures { result ≡ bytes_eq self.now other.now }
    {
        *self.spelling() == *other.spelling()
    }
}

impl Clone for OwnName {
    ghost is_clone = { λ name copy. copy ≡ name };

    fn clone(&self) -> Result<OwnName, AllocError> {
        let path = self.path.clone()?;
        Ok(OwnName { path })
    }
}
