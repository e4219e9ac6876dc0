//! Keys that are lent: what is asked about names and paths, with none of them copied.

ghost use Rattle.std.specs.Prelude.{◌≡◌, IfOk};
ghost use Rattle.idl_entity.specs.idl_lex.kinds.Keywords.{folded};
ghost use Rattle.idl_env.specs.Facts.{entity_key, key_of};
ghost use Rattle.idl_env.specs.keys.HeldKey.{key_in};
ghost use Rattle.idl_env.specs.keys.Key.{key_digest, key_eq};
ghost use Rattle.idl_entity.specs.Path.{name_of};
ghost use Rattle.idl_env.specs.declared.keys.key.Key.TheVariants as keys;

use crate::additions::addition::Addition;
use crate::keys::digested::DigestedKey;
use crate::keys::held_key::HeldKey;
use crate::keys::key::Key;
use idl_base::{Bytes, Shared};
use idl_entity::Path;
use idl_entity::paths::{Names, OwnName, identified, introduced, typeprefixed, under};
use idl_map::{Digest, Lent};
use std::alloc::{AllocError, Global};
use std::marker::Model;

/// A key whose name and path are lent, with its digest. To every contract it is the key.
pub struct LentKey<'a> {
    alloc: Global,
    digest: u64,
    parts: Parts<'a>,
}

// What is asked, by names and paths that are lent.
enum Parts<'a> {
    // What a folded name is declared as in the scope at a path.
    Declared(&'a Bytes, &'a Path),
    // The same of a name that is shared by the keys of more scopes.
    Under(&'a Shared<Bytes>, &'a Path),
    // The same of the own name of what stands at a path, in the scope around.
    Entity(&'a Path),
    // Whether the own name of what stands at a path was introduced into the body with this number of the scope at another.
    Introduced(&'a Path, &'a Path, usize),
    // The id of what is declared at a path.
    IdOf(&'a Path),
    // The typeprefix of the scope with a path of these names.
    Typeprefix(Names<'a>),
}

impl<'a> Drop for Parts<'a> {
    fn drop(self) {
        match self {
            Parts::Declared(_name, _scope) => {}
            Parts::Under(_name, _scope) => {}
            Parts::Entity(_path) => {}
            Parts::Introduced(_path, _scope, _body) => {}
            Parts::IdOf(_path) => {}
            Parts::Typeprefix(_names) => {}
        }
    }
}

impl<'a> Drop for LentKey<'a> {
    fn drop(self) {
        let LentKey {
            alloc: _alloc,
            digest: _digest,
            parts: _parts,
        } = self;
    }
}

impl<'a> Model for LentKey<'a> {
    ghost use Rattle.std.specs.Prelude.{◌≡◌};
    ghost use Rattle.idl_env.specs.keys.Key.{key_digest};
    ghost use Rattle.idl_env.specs.keys.LentKey.{key_with};
    ghost use Rattle.idl_env.specs.declared.keys.key.Key.{Key};

    ghost Value = { Key };

    ghost view = { λ lent. key_with lent.parts };

    ghost invariant = { λ lent. lent.digest ≡ key_digest (key_with lent.parts) };
}

impl<'a> LentKey<'a> {
    /// What a folded name is declared as in the scope at a path.
    #[tactic(auto, unfolding(crate::specs::keys::Key::key_digest))]
    pub fn declared(alloc: Global, name: &'a Bytes, scope: &'a Path) -> LentKey<'a>
        ensures { result ≡ keys.Declared name.now scope.now }
    {
        let digest = under(scope.digest(), name.as_bytes());
        let parts = Parts::Declared(name, scope);
        LentKey {
            alloc,
            digest,
            parts,
        }
    }

    /// What a name that is shared by the keys of more scopes is declared as in the scope at a path.
    #[tactic(auto, unfolding(crate::specs::keys::Key::key_digest))]
    pub fn under(alloc: Global, name: &'a Shared<Bytes>, scope: &'a Path) -> LentKey<'a>
        ensures { result ≡ keys.Declared name.now scope.now }
    {
        let digest = under(scope.digest(), name.get().as_bytes());
        let parts = Parts::Under(name, scope);
        LentKey {
            alloc,
            digest,
            parts,
        }
    }

    /// What is asked of the entity at a path: its own name, folded, in the scope around.
    #[tactic(auto, unfolding(crate::specs::keys::Key::key_digest))]
    pub fn of_entity(alloc: Global, path: &'a Path) -> LentKey<'a>
        ensures { result ≡ entity_key path.now }
    {
        let digest = path.entity_digest();
        let parts = Parts::Entity(path);
        LentKey {
            alloc,
            digest,
            parts,
        }
    }

    /// Whether the own name of what stands at a path, folded, was introduced into the body with this number of a scope.
    #[tactic(auto, unfolding(crate::specs::keys::Key::key_digest))]
    pub fn introduced(alloc: Global, path: &'a Path, scope: &'a Path, body: usize) -> LentKey<'a>
        ensures { result ≡ keys.Introduced (folded (name_of path.now)) scope.now body }
    {
        let digest = introduced(scope.digest(), path.folded_bytes(), body);
        let parts = Parts::Introduced(path, scope, body);
        LentKey {
            alloc,
            digest,
            parts,
        }
    }

    /// The id of what is declared at a path.
    #[tactic(auto, unfolding(crate::specs::keys::Key::key_digest))]
    pub fn id_of(alloc: Global, path: &'a Path) -> LentKey<'a>
        ensures { result ≡ keys.IdOf path.now }
    {
        let digest = identified(path.digest());
        let parts = Parts::IdOf(path);
        LentKey {
            alloc,
            digest,
            parts,
        }
    }

    /// The typeprefix of the scope with a path of these names.
    #[inline(always)]
    #[tactic(auto, unfolding(crate::specs::keys::Key::key_digest))]
    pub fn typeprefix(alloc: Global, names: Names<'a>) -> LentKey<'a>
        ensures { result ≡ keys.Typeprefix names.entry }
    {
        let digest = typeprefixed(names.digest());
        let parts = Parts::Typeprefix(names);
        LentKey {
            alloc,
            digest,
            parts,
        }
    }

    /// Its digest.
    #[inline]
    pub fn digest(&self) -> u64
        ensures { result ≡ key_digest self.now }
    {
        self.digest
    }

    /// Whether it is the key whose answer an addition changes. It stands apart, since most additions differ in their digests.
    #[inline(never)]
    pub(crate) fn is_of(&self, addition: &Addition) -> bool
        ensures { result ≡ key_eq self.now (key_of addition.now) }
    {
        match (&self.parts, addition) {
            (Parts::Declared(name, scope), Addition::Declares(entity)) => {
                entity.get().path().is_found_at(name, scope)
            }
            (Parts::Under(name, scope), Addition::Declares(entity)) => {
                entity.get().path().is_found_at(name.get(), scope)
            }
            (Parts::Entity(path), Addition::Declares(entity)) => {
                path.is_found_with(entity.get().path())
            }
            (Parts::Introduced(path, scope, body), Addition::Uses(name, other, number)) => {
                path.has_folded(name.spelling()) && **scope == *other && *body == *number
            }
            (Parts::Introduced(path, scope, body), Addition::UsesFurther(name, other, further)) => {
                path.has_folded(name.spelling()) && **scope == *other && *body == further.get().body
            }
            (Parts::IdOf(path), Addition::Appears(other, _) | Addition::Identifies(other, _)) => {
                **path == *other
            }
            (Parts::Typeprefix(names), Addition::TypePrefixes(path, _)) => {
                names.are_those(&path.lent())
            }
            _ => false,
        }
    }

    // Whether it is this key.
    fn is_key(&self, key: &Key) -> bool
        ensures { result ≡ key_eq self.now key.now }
    {
        match (&self.parts, key) {
            (Parts::Declared(name, scope), Key::Declared(other, path)) => {
                **name == *other && **scope == *path
            }
            (Parts::Under(name, scope), Key::Declared(other, path)) => {
                *name.get() == *other && **scope == *path
            }
            (Parts::Entity(path), Key::Declared(name, scope)) => {
                path.lent().begin_with(name, &scope.lent())
            }
            (Parts::Introduced(path, scope, body), Key::Introduced(name, other, number)) => {
                path.has_folded(name) && **scope == *other && *body == *number
            }
            (Parts::IdOf(path), Key::IdOf(other)) => **path == *other,
            (Parts::Typeprefix(names), Key::Typeprefix(path)) => names.are_those(&path.lent()),
            _ => false,
        }
    }

    // Whether it is this key, as it is held. It stands apart, since few keys have its digest.
    #[inline(never)]
    fn is_held(&self, key: &HeldKey) -> bool
        ensures { result ≡ key_eq self.now (key_in key.now) }
    {
        match (&self.parts, key) {
            (Parts::Declared(name, scope), HeldKey::Entity(named)) => {
                named.is_found_at(name, scope)
            }
            (Parts::Declared(name, scope), HeldKey::Declared(other, named)) => {
                **name == *other.get() && named.is_of(scope)
            }
            (Parts::Under(name, scope), HeldKey::Declared(other, named)) => {
                **name == *other && named.is_of(scope)
            }
            (Parts::Under(name, scope), HeldKey::Entity(named)) => {
                named.is_found_at(name.get(), scope)
            }
            (Parts::Entity(path), HeldKey::Declared(name, named)) => {
                path.lent().begin_with(name.get(), &named.lent())
            }
            (Parts::Entity(path), HeldKey::Entity(named)) => named.is_found_as(path),
            (Parts::IdOf(path), HeldKey::IdOf(named)) => named.is_of(path),
            (Parts::Typeprefix(names), HeldKey::Typeprefix(path)) => {
                names.are_those(&path.lent())
            }
            (Parts::Introduced(path, scope, body), HeldKey::Introduced(name, named)) => {
                path.has_folded(name.spelling()) && named.is_of(scope) && *body == 1
            }
            (_, HeldKey::Whole(key)) => self.is_key(key),
            _ => false,
        }
    }

    // The key, made.
    fn key(&self) -> Result<HeldKey, AllocError>
        ensures { IfOk result (λ key. key_in key ≡ self.now) }
    {
        let alloc = self.alloc;
        match &self.parts {
            Parts::Declared(name, scope) => {
                let key = Key::Declared((**name).clone()?, (**scope).clone()?);
                HeldKey::whole(alloc, key)
            }
            Parts::Under(name, scope) => HeldKey::declared(alloc, name, (**scope).clone()?),
            Parts::Entity(path) => HeldKey::of_entity(alloc, path),
            Parts::Introduced(path, scope, body) => {
                HeldKey::introduced(alloc, OwnName::of(alloc, path)?, (**scope).clone()?, *body)
            }
            Parts::IdOf(path) => HeldKey::id_of(alloc, (**path).clone()?),
            Parts::Typeprefix(names) => HeldKey::typeprefix(alloc, names.to_path()?),
        }
    }
}

impl<'a> Lent<DigestedKey> for LentKey<'a> {
    ghost key = { λ key. key };

    fn key_digest(&self) -> u64 {
        self.digest
    }

    #[inline(always)]
    fn is(&self, other: &DigestedKey) -> bool {
        self.digest == other.digest() && self.is_held(other.held())
    }

    fn owned(&self) -> Result<DigestedKey, AllocError> {
        Ok(DigestedKey::known(self.digest, self.key()?))
    }
}
