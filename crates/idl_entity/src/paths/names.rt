//! Names of paths, lent.

ghost use Rattle.std.specs.Prelude.{◌≡◌, ◌&&◌, ◌↔◌, ◌∷◌, [], IfOk, IfSome, IsTrue, None};
ghost use Rattle.std.specs.Option.{option_copied};
ghost use Rattle.std.specs.Str.{bytes_eq};
ghost use Rattle.idl_entity.specs.Digest.{path_digest};
ghost use Rattle.idl_entity.specs.Identity.{is_within};
ghost use Rattle.idl_entity.specs.Path.{name_of, path_eq, path_of, scope_of};
ghost use Rattle.idl_value.specs.idl_lex.kinds.Keywords.{folded};

use crate::paths::path::{Path, PathPart, are_alike};
use idl_base::Bytes;
use std::alloc::AllocError;
use std::marker::Model;
use std::rc::Rc;

/// Names of a path that are lent: to every contract the list of them, from one of them on, the innermost first.
#[derive(Drop)]
pub struct Names<'a> {
    innermost: Option<&'a Rc<PathPart>>,
}

impl<'a> Model for Names<'a> {
    ghost use Rattle.std.specs.Prelude.{List, ℕ};
    ghost use Rattle.std.specs.Option.{option_copied};
    ghost use Rattle.idl_entity.specs.Path.{path_of};

    ghost Value = { List (List ℕ) };

    ghost view = { λ names. path_of (option_copied names.innermost) };
}

impl<'a> Names<'a> {
    /// No names.
    pub fn none() -> Names<'a>
        ensures { result ≡ [] }
    {
        Names { innermost: None }
    }

    /// Those of the path that ends in this part.
    pub(crate) fn from(part: &'a Rc<PathPart>) -> Names<'a>
        ensures { result ≡ part.now.value.0 ∷ part.now.value.1 }
    {
        Names {
            innermost: Some(part),
        }
    }

    /// Those of the path to which this link leads.
    pub(crate) fn of(link: &'a Option<Rc<PathPart>>) -> Names<'a>
        ensures { result ≡ path_of link.now }
    {
        match link {
            Some(shared) => Names::from(shared),
            None => Names::none(),
        }
    }

    /// The same names, lent once more.
    pub fn again(&self) -> Names<'a>
        ensures { result ≡ self.now }
    {
        Names {
            innermost: self.innermost,
        }
    }

    /// The path of these names.
    pub fn to_path(&self) -> Result<Path, AllocError>
        ensures { IfOk result (λ path. path ≡ self.now) }
    {
        match self.innermost {
            Some(part) => Ok(Path::ending(part.clone()?)),
            None => Ok(Path::global()),
        }
    }

    /// The digest of that path.
    #[tactic(auto, unfolding(crate::specs::Digest::path_digest))]
    pub fn digest(&self) -> u64
        ensures { result ≡ path_digest self.now }
    {
        match self.innermost {
            Some(part) => part.digest(),
            None => 0,
        }
    }

    /// The first name, and those behind it; nothing where there is none.
    pub fn split_first(self) -> Option<(&'a [u8], Names<'a>)>
        ensures some { IfSome result (λ p. self.entry ≡ p.0.now ∷ p.1) }
        ensures none { result ≡ None → self.entry ≡ [] }
    {
        let part = self.innermost?;
        Some((part.name().as_bytes(), part.around()))
    }

    /// Whether there is no name.
    pub fn is_empty(&self) -> bool
        ensures { IsTrue result ↔ (self.now ≡ []) }
    {
        self.innermost.is_none()
    }

    /// Whether they are those.
    #[inline(always)]
    pub fn are_those(&self, others: &Names<'_>) -> bool
        ensures { result ≡ path_eq self.now others.now }
    {
        match (self.innermost, others.innermost) {
            (Some(mine), Some(theirs)) => are_alike(mine, theirs),
            (None, None) => true,
            _ => false,
        }
    }

    /// Whether the first is of this folded form, and those behind it are those of a scope.
    #[inline(always)]
    #[tactic(auto, using(crate::proofs::PathLemmas::turned))]
    pub fn begin_with(&self, name: &Bytes, scope: &Names<'_>) -> bool
        ensures they { result
            ≡ bytes_eq (folded (name_of self.now)) name.now
            && path_eq (scope_of self.now) scope.now }
        ensures turned { result
            ≡ bytes_eq name.now (folded (name_of self.now))
            && path_eq scope.now (scope_of self.now) }
    {
        let Some(part) = self.innermost else {
            let none: &[u8] = &[];
            return none == name.as_bytes() && self.are_those(scope);
        };
        *part.folded_name() == *name && part.around().are_those(scope)
    }

    /// Whether they are those of a scope's path or of one in it.
    #[tactic(auto, using(crate::proofs::IdLemmas::within_here, crate::proofs::IdLemmas::within_none, crate::proofs::IdLemmas::within_further))]
    pub(crate) fn are_within(self, scope: &Path) -> bool
        ensures { result ≡ is_within self.entry scope.now }
    {
        let mut names = self;
        while !names.are_those(&scope.lent()) {
            let Some((_name, around)) = names.split_first() else {
                return false;
            };
            names = around;
        }
        true
    }
}
