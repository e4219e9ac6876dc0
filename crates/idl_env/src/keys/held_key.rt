//! Keys as they are held: small, since an environment holds many.

ghost use Rattle.std.specs.Prelude.{◌≡◌, ℕ, IfOk, IsFalse, List, false};
ghost use Rattle.idl_env.specs.Facts.{entity_key};
ghost use Rattle.idl_env.specs.keys.HeldKey.{key_in};
ghost use Rattle.idl_env.specs.keys.Key.{key_eq};
ghost use Rattle.idl_env.specs.keys.Outline.{outline};
ghost use Rattle.idl_env.specs.contracts.keys.key.KeyOrd.TheImpl.{ghosts as own_order};
ghost use Rattle.idl_env.specs.declared.keys.key.Key.TheVariants as keys;

use crate::keys::key::Key;
use crate::keys::outline::Outline;
use idl_base::{Bytes, Shared};
use idl_entity::Path;
use idl_entity::paths::{NamedPath, OwnName};
use std::alloc::{AllocError, Global};
use std::cmp::Ordering;

/// A key as it is held. That of an entity, as most are, has the path of the entity in it, which it shares, and no name.
pub(crate) enum HeldKey {
    /// The open scopes.
    Cursor,
    /// What the own name of what stands at a path, folded, is declared as in the scope around.
    Entity(NamedPath),
    /// What a name is declared as in the scope at a path, where the name is shared by the keys of more scopes.
    Declared(Shared<Bytes>, NamedPath),
    /// Whether a folded name was introduced into the first body of the scope at a path: most scopes have no other.
    Introduced(OwnName, NamedPath),
    /// How many bodies of the scope at a path were opened.
    Opened(NamedPath),
    /// How many nameless scopes were opened.
    Nameless,
    /// The prefix in force.
    Prefix,
    /// The id of what is declared at a path.
    IdOf(NamedPath),
    /// The typeprefix of the scope at a path.
    Typeprefix(NamedPath),
    /// Any other key.
    Whole(Box<Key>),
}

impl Drop for HeldKey {
    fn drop(self) {
        match self {
            HeldKey::Cursor | HeldKey::Nameless | HeldKey::Prefix => {}
            HeldKey::Entity(_path) | HeldKey::Opened(_path) => {}
            HeldKey::IdOf(_path) | HeldKey::Typeprefix(_path) => {}
            HeldKey::Declared(_name, _path) => {}
            HeldKey::Introduced(_name, _path) => {}
            HeldKey::Whole(_key) => {}
        }
    }
}

impl HeldKey {
    /// What is asked of the entity at a path: its own name, folded, in the scope around.
    pub(crate) fn of_entity(alloc: Global, path: &Path) -> Result<HeldKey, AllocError>
        ensures { IfOk result (λ held. key_in held ≡ entity_key path.now) }
    {
        match path.clone()?.into_named() {
            Some(named) => Ok(HeldKey::Entity(named)),
            None => HeldKey::whole(alloc, Key::Declared(path.folded(alloc)?, Path::global())),
        }
    }

    /// What a name is declared as in the scope at a path.
    pub(crate) fn declared(
        alloc: Global,
        name: &Shared<Bytes>,
        scope: Path,
    ) -> Result<HeldKey, AllocError>
        ensures { IfOk result (λ held. key_in held ≡ keys.Declared name.now scope) }
    {
        match scope.into_named() {
            Some(named) => Ok(HeldKey::Declared(name.clone()?, named)),
            None => HeldKey::whole(alloc, Key::Declared(name.get().clone()?, Path::global())),
        }
    }

    /// How many bodies of the scope at a path were opened.
    pub(crate) fn opened(alloc: Global, path: Path) -> Result<HeldKey, AllocError>
        ensures { IfOk result (λ held. key_in held ≡ keys.Opened path) }
    {
        match path.into_named() {
            Some(named) => Ok(HeldKey::Opened(named)),
            None => HeldKey::whole(alloc, Key::Opened(Path::global())),
        }
    }

    /// The id of what is declared at a path.
    pub(crate) fn id_of(alloc: Global, path: Path) -> Result<HeldKey, AllocError>
        ensures { IfOk result (λ held. key_in held ≡ keys.IdOf path) }
    {
        match path.into_named() {
            Some(named) => Ok(HeldKey::IdOf(named)),
            None => HeldKey::whole(alloc, Key::IdOf(Path::global())),
        }
    }

    /// The typeprefix of the scope at a path.
    pub(crate) fn typeprefix(alloc: Global, path: Path) -> Result<HeldKey, AllocError>
        ensures { IfOk result (λ held. key_in held ≡ keys.Typeprefix path) }
    {
        match path.into_named() {
            Some(named) => Ok(HeldKey::Typeprefix(named)),
            None => HeldKey::whole(alloc, Key::Typeprefix(Path::global())),
        }
    }

    /// Whether a folded name was introduced into the body with this number of the scope at a path.
    pub(crate) fn introduced(
        alloc: Global,
        name: OwnName,
        scope: Path,
        body: usize,
    ) -> Result<HeldKey, AllocError>
        ensures { IfOk result (λ held. key_in held ≡ keys.Introduced name scope body) }
    {
        if body != 1 {
            let key = Key::Introduced(name.spelling().clone()?, scope, body);
            return HeldKey::whole(alloc, key);
        }
        match scope.into_named() {
            Some(named) => Ok(HeldKey::Introduced(name, named)),
            None => {
                let key = Key::Introduced(name.spelling().clone()?, Path::global(), body);
                HeldKey::whole(alloc, key)
            }
        }
    }

    /// Any key.
    pub(crate) fn whole(alloc: Global, key: Key) -> Result<HeldKey, AllocError>
        ensures { IfOk result (λ held. key_in held ≡ key) }
    {
        Ok(HeldKey::Whole(Box::new(alloc, key)?))
    }

    /// Whether it is the key of the open scopes.
    #[inline]
    pub(crate) fn is_cursor(&self) -> bool
        ensures { result ≡ key_eq (key_in self.now) keys.Cursor }
    {
        match self {
            HeldKey::Cursor => true,
            HeldKey::Whole(key) => matches!(**key, Key::Cursor),
            _ => false,
        }
    }

    /// Whether it is the key of the prefix in force.
    #[inline]
    pub(crate) fn is_prefix(&self) -> bool
        ensures { result ≡ key_eq (key_in self.now) keys.Prefix }
    {
        match self {
            HeldKey::Prefix => true,
            HeldKey::Whole(key) => matches!(**key, Key::Prefix),
            _ => false,
        }
    }

    /// Whether it is the key of a typeprefix.
    #[inline]
    pub(crate) fn is_typeprefix(&self) -> bool
        ensures { IsFalse result
            → (path : List (List ℕ)) → key_eq (keys.Typeprefix path) (key_in self.now) ≡ false }
    {
        match self {
            HeldKey::Typeprefix(_) => true,
            HeldKey::Whole(key) => matches!(**key, Key::Typeprefix(_)),
            _ => false,
        }
    }

    /// Whether a key is this one.
    pub(crate) fn is(&self, key: &Key) -> bool
        ensures { result ≡ key_eq key.now (key_in self.now) }
    {
        match (key, self) {
            (Key::Cursor, HeldKey::Cursor)
            | (Key::Nameless, HeldKey::Nameless)
            | (Key::Prefix, HeldKey::Prefix) => true,
            (Key::Declared(name, scope), HeldKey::Entity(path)) => path.is_found_at(name, scope),
            (Key::Declared(name, scope), HeldKey::Declared(own, named)) => {
                *name == *own.get() && named.is_of(scope)
            }
            (Key::Introduced(word, path, body), HeldKey::Introduced(name, named)) => {
                *word == *name.spelling() && named.is_of(path) && *body == 1
            }
            (Key::Opened(path), HeldKey::Opened(named)) => named.is_of(path),
            (Key::IdOf(path), HeldKey::IdOf(named)) => named.is_of(path),
            (Key::Typeprefix(path), HeldKey::Typeprefix(named)) => named.is_of(path),
            (key, HeldKey::Whole(own)) => *key == **own,
            _ => false,
        }
    }

    // The same, the other way round.
    fn is_that(&self, key: &Key) -> bool
        ensures { result ≡ key_eq (key_in self.now) key.now }
    {
        self.is(key)
    }

    /// Whether another is the same key.
    pub(crate) fn is_one_with(&self, other: &HeldKey) -> bool
        ensures { result ≡ key_eq (key_in self.now) (key_in other.now) }
    {
        match (self, other) {
            (HeldKey::Cursor, HeldKey::Cursor)
            | (HeldKey::Nameless, HeldKey::Nameless)
            | (HeldKey::Prefix, HeldKey::Prefix) => true,
            (HeldKey::Entity(path), HeldKey::Entity(same)) => path.is_found_with(same),
            (HeldKey::Declared(name, path), HeldKey::Declared(other, same)) => {
                *name == *other && path.is(same)
            }
            (HeldKey::Declared(name, scope), HeldKey::Entity(path)) => {
                path.lent().begin_with(name.get(), &scope.lent())
            }
            (HeldKey::Entity(path), HeldKey::Declared(name, scope)) => {
                path.lent().begin_with(name.get(), &scope.lent())
            }
            (HeldKey::Introduced(name, path), HeldKey::Introduced(word, same)) => {
                name.is(word) && path.is(same)
            }
            (HeldKey::Opened(path), HeldKey::Opened(same)) => path.is(same),
            (HeldKey::IdOf(path), HeldKey::IdOf(same)) => path.is(same),
            (HeldKey::Typeprefix(path), HeldKey::Typeprefix(same)) => path.is(same),
            (HeldKey::Whole(key), held) => held.is(key),
            (held, HeldKey::Whole(key)) => held.is_that(key),
            _ => false,
        }
    }

    /// Which of two comes first.
    pub(crate) fn order(&self, other: &HeldKey) -> Ordering
        ensures { result ≡ own_order.cmp (key_in self.now) (key_in other.now) }
    {
        self.outline().order(other.outline())
    }

    // What it is made of.
    fn outline(&self) -> Outline<'_>
        ensures { result ≡ outline (key_in self.now) }
    {
        match self {
            HeldKey::Cursor => Outline::bare(0),
            HeldKey::Entity(path) => Outline::named(
                1,
                path.folded_name().as_bytes(),
                path.around(),
            ),
            HeldKey::Declared(name, path) => {
                Outline::named(1, name.get().as_bytes(), path.lent())
            }
            HeldKey::Introduced(name, path) => {
                Outline::numbered(2, name.spelling().as_bytes(), path.lent(), 1)
            }
            HeldKey::Opened(path) => Outline::at(3, path.lent()),
            HeldKey::Nameless => Outline::bare(4),
            HeldKey::Prefix => Outline::bare(5),
            HeldKey::IdOf(path) => Outline::at(6, path.lent()),
            HeldKey::Typeprefix(path) => Outline::at(7, path.lent()),
            HeldKey::Whole(key) => Outline::of(key),
        }
    }
}

impl Clone for HeldKey {
    ghost use Rattle.idl_env.specs.keys.HeldKey.{key_in};
    ghost use Rattle.std.specs.Prelude.{◌≡◌};

    ghost is_clone = { λ held copy. key_in copy ≡ key_in held };

    fn clone(&self) -> Result<HeldKey, AllocError> {
        Ok(match self {
            HeldKey::Cursor => HeldKey::Cursor,
            HeldKey::Entity(path) => HeldKey::Entity(path.clone()?),
            HeldKey::Declared(name, path) => { HeldKey::Declared(name.clone()?, path.clone()?) }
            HeldKey::Introduced(name, path) => { HeldKey::Introduced(name.clone()?, path.clone()?) }
            HeldKey::Opened(path) => HeldKey::Opened(path.clone()?),
            HeldKey::Nameless => HeldKey::Nameless,
            HeldKey::Prefix => HeldKey::Prefix,
            HeldKey::IdOf(path) => HeldKey::IdOf(path.clone()?),
            HeldKey::Typeprefix(path) => HeldKey::Typeprefix(path.clone()?),
            HeldKey::Whole(key) => HeldKey::Whole(key.clone()?),
        })
    }
}
