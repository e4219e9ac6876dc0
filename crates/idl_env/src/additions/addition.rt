//! What a declared name or a use adds, and how the open scopes change.

ghost use Rattle.std.specs.Prelude.{◌≡◌, ◌∷◌, [], IfOk, IfSome, IsTrue, None};
ghost use Rattle.idl_env.specs.Differing.{is_alike};
ghost use Rattle.idl_env.specs.Facts.{answer_of, key_of, operations_among};
ghost use Rattle.idl_env.specs.Turns.{bases_in};
ghost use Rattle.idl_env.specs.keys.HeldKey.{key_in};
ghost use Rattle.idl_env.specs.keys.Key.{key_digest, key_eq};

use crate::additions::further::Further;
use crate::answering::answer::Answer;
use crate::keys::digested::DigestedKey;
use crate::keys::held_key::HeldKey;
use idl_base::{Bytes, Shared};
use idl_entity::paths::{OwnName, identified, introduced, typeprefixed};
use idl_entity::{Entity, FixedIdentity, Kind, Path, Prefix, prefix_for};
use idl_map::Digest;
use std::alloc::{AllocError, Global};

/// What a declared name adds, the use of one, or what is said of the id of one.
#[derive(Clone)]
pub enum Addition {
    /// A name is declared as this entity, or is this from now on.
    Declares(Shared<Entity>),
    /// A folded name is introduced into the body with this number of the scope at a path.
    Uses(OwnName, Path, usize),
    /// The same, unless a scope on the way outward that wasn't asked itself declares the name.
    UsesFurther(OwnName, Path, Shared<Further>),
    /// What has an id is declared first, at a path and under this prefix: the two tell its id.
    Appears(Path, Shared<Prefix>),
    /// What is declared at a path is identified so from now on.
    Identifies(Path, Shared<FixedIdentity>),
    /// The scope at a path has this typeprefix from now on.
    TypePrefixes(Path, Shared<Bytes>),
}

impl Drop for Addition {
    fn drop(self) {
        match self {
            Addition::Declares(_entity) => {}
            Addition::Uses(_name, _path, _body) => {}
            Addition::UsesFurther(_name, _path, _further) => {}
            Addition::Appears(_path, _prefix) => {}
            Addition::Identifies(_path, _identity) => {}
            Addition::TypePrefixes(_path, _text) => {}
        }
    }
}

/// How the open scopes, the files entered and the prefix of ids change.
#[derive(Clone, Drop)]
pub enum Step {
    /// They are as before.
    Stays,
    /// The scope at a path, of this kind, is opened.
    Opens(Path, Kind),
    /// A nameless scope of this kind is opened, where an opening is faulty.
    OpensNameless(Kind),
    /// The innermost scope is closed.
    Closes,
    /// This prefix is in force from now on, met in the innermost open scope.
    Prefixes(Bytes),
    /// A file is entered.
    Enters,
    /// The file that was entered last is left.
    Leaves,
}

impl Addition {
    /// The key whose answer it changes.
    pub fn key(&self, alloc: Global) -> Result<DigestedKey, AllocError>
        ensures { IfOk result (λ key. key ≡ key_of self.now) }
    {
        self.key_with(alloc, self.digest())
    }

    /// The digest of that key.
    #[tactic(auto, unfolding(crate::specs::keys::Key::key_digest))]
    pub fn digest(&self) -> u64
        ensures { result ≡ key_digest (key_of self.now) }
    {
        match self {
            Addition::Declares(entity) => entity.get().path().entity_digest(),
            Addition::Uses(name, path, body) => introduced(
                path.digest(),
                name.spelling().as_bytes(),
                *body,
            ),
            Addition::UsesFurther(name, path, further) => introduced(
                path.digest(),
                name.spelling().as_bytes(),
                further.get().body,
            ),
            Addition::Appears(path, _) | Addition::Identifies(path, _) => {
                identified(path.digest())
            }
            Addition::TypePrefixes(path, _) => typeprefixed(path.digest()),
        }
    }

    /// That key, where its digest is known.
    pub(crate) fn key_with(&self, alloc: Global, digest: u64) -> Result<DigestedKey, AllocError>
        requires { digest ≡ key_digest (key_of self.now) }
        ensures { IfOk result (λ key. key ≡ key_of self.now) }
    {
        let key = match self {
            Addition::Declares(entity) => HeldKey::of_entity(alloc, entity.get().path())?,
            Addition::Uses(name, path, body) => {
                HeldKey::introduced(alloc, name.clone()?, path.clone()?, *body)?
            }
            Addition::UsesFurther(name, path, further) => {
                HeldKey::introduced(alloc, name.clone()?, path.clone()?, further.get().body)?
            }
            Addition::Appears(path, _) | Addition::Identifies(path, _) => {
                HeldKey::id_of(alloc, path.clone()?)?
            }
            Addition::TypePrefixes(path, _) => HeldKey::typeprefix(alloc, path.clone()?)?,
        };
        Ok(DigestedKey::known(digest, key))
    }

    /// The key whose answer it changes, and the answer that it leaves there.
    pub(crate) fn into_entry(self, alloc: Global) -> Result<(HeldKey, Answer), AllocError>
        ensures key { IfOk result (λ entry. key_in entry.0 ≡ key_of self) }
        ensures answer { IfOk result (λ entry. entry.1 ≡ answer_of self) }
    {
        Ok(match self {
            Addition::Declares(entity) => {
                let key = HeldKey::of_entity(alloc, entity.get().path())?;
                (key, Answer::Known(entity))
            }
            Addition::Uses(name, path, body) => {
                (HeldKey::introduced(alloc, name, path, body)?, Answer::Used)
            }
            Addition::UsesFurther(name, path, further) => {
                let body = further.get().body;
                (HeldKey::introduced(alloc, name, path, body)?, Answer::Used)
            }
            Addition::Appears(path, prefix) => {
                let prefix = prefix_for(alloc, &path, prefix)?;
                (HeldKey::id_of(alloc, path)?, Answer::Appeared(prefix))
            }
            Addition::Identifies(path, identity) => {
                let identity = identity.get().told_at(alloc, &path)?;
                (HeldKey::id_of(alloc, path)?, Answer::Identified(identity))
            }
            Addition::TypePrefixes(path, text) => {
                (HeldKey::typeprefix(alloc, path)?, Answer::Prefixed(text))
            }
        })
    }

    /// Whether another changes the answer at that key too.
    pub(crate) fn has_key_of(&self, other: &Addition) -> bool
        ensures { result ≡ key_eq (key_of self.now) (key_of other.now) }
    {
        match (self, other) {
            (Addition::Declares(entity), Addition::Declares(same)) => {
                entity.get().path().is_found_with(same.get().path())
            }
            (Addition::Uses(name, path, body), Addition::Uses(word, scope, number)) => {
                name.is(word) && *path == *scope && *body == *number
            }
            (Addition::Uses(name, path, body), Addition::UsesFurther(word, scope, further)) => {
                name.is(word) && *path == *scope && *body == further.get().body
            }
            (Addition::UsesFurther(name, path, further), Addition::Uses(word, scope, number)) => {
                name.is(word) && *path == *scope && further.get().body == *number
            }
            (
                Addition::UsesFurther(name, path, further),
                Addition::UsesFurther(word, scope, other),
            ) => name.is(word) && *path == *scope && further.get().body == other.get().body,
            (
                Addition::Appears(path, _) | Addition::Identifies(path, _),
                Addition::Appears(same, _) | Addition::Identifies(same, _),
            ) => *path == *same,
            (Addition::TypePrefixes(path, _), Addition::TypePrefixes(same, _)) => *path == *same,
            _ => false,
        }
    }

    /// The paths of the bases that it names.
    pub(crate) fn bases(&self) -> &[Path]
        ensures { result.now ≡ bases_in self.now }
    {
        match self {
            Addition::Declares(entity) => entity.get().bases(),
            _ => &[],
        }
    }

    /// Whether another is at that key too, leaves the same answer there, and may be stopped by the same scopes.
    pub(crate) fn is_alike(&self, alloc: Global, other: &Addition) -> Result<bool, AllocError>
        ensures { IfOk result (λ alike. alike ≡ is_alike self.now other.now) }
    {
        if !self.has_key_of(other) || !self.is_stopped_as(other) {
            return Ok(false);
        }
        Ok(self.answer(alloc)? == other.answer(alloc)?)
    }

    /// The path of the operation or attribute that it declares, if it does.
    pub(crate) fn operation(&self) -> Option<&Path>
        ensures some { IfSome result (λ path. operations_among (self.now ∷ []) ≡ path.now ∷ []) }
        ensures none { result ≡ None → operations_among (self.now ∷ []) ≡ [] }
    {
        let Addition::Declares(entity) = self else {
            return None;
        };
        if !entity.get().is_operation() {
            return None;
        }
        Some(entity.get().path())
    }

    /// The answer that it leaves there.
    pub fn answer(&self, alloc: Global) -> Result<Answer, AllocError>
        ensures { IfOk result (λ answer. answer ≡ answer_of self.now) }
    {
        match self {
            Addition::Declares(entity) => Ok(Answer::Known(entity.clone()?)),
            Addition::Uses(_, _, _) | Addition::UsesFurther(_, _, _) => Ok(Answer::Used),
            Addition::Appears(path, prefix) => {
                Ok(Answer::Appeared(prefix_for(alloc, path, prefix.clone()?)?))
            }
            Addition::Identifies(path, identity) => {
                Ok(Answer::Identified(identity.get().told_at(alloc, path)?))
            }
            Addition::TypePrefixes(_, text) => Ok(Answer::Prefixed(text.clone()?)),
        }
    }
}

impl Step {
    /// Whether it is the same change.
    pub(crate) fn is(&self, other: &Step) -> bool
        ensures { IsTrue result → self.now ≡ other.now }
    {
        match (self, other) {
            (Step::Stays, Step::Stays)
            | (Step::Closes, Step::Closes)
            | (Step::Enters, Step::Enters)
            | (Step::Leaves, Step::Leaves) => true,
            (Step::Opens(path, kind), Step::Opens(opened, other)) => {
                *path == *opened && *kind == *other
            }
            (Step::OpensNameless(kind), Step::OpensNameless(other)) => *kind == *other,
            (Step::Prefixes(text), Step::Prefixes(other)) => *text == *other,
            _ => false,
        }
    }
}
