//! What is asked about names.

ghost use Rattle.std.specs.Prelude.{◌≡◌, IfOk};
ghost use Rattle.idl_env.specs.Facts.{entity_key};

use crate::keys::digested::DigestedKey;
use crate::keys::held_key::HeldKey;
use idl_base::{Bytes, Datum};
use idl_entity::Path;
use idl_entity::paths::{identified, introduced, opened, typeprefixed, under};
use idl_map::Digest;
use std::alloc::{AllocError, Global};

/// What is asked of an environment.
#[derive(Clone, PartialEq, Eq, PartialOrd, Ord)]
pub enum Key {
    /// The open scopes.
    Cursor,
    /// What a folded name is declared as in the scope at a path.
    Declared(Bytes, Path),
    /// Whether a folded name was introduced into the body with this number of the scope at a path.
    Introduced(Bytes, Path, usize),
    /// How many bodies of the scope at a path were opened.
    Opened(Path),
    /// How many nameless scopes were opened.
    Nameless,
    /// The prefix in force.
    Prefix,
    /// The id of what is declared at a path.
    IdOf(Path),
    /// The typeprefix of the scope at a path.
    Typeprefix(Path),
}

impl Drop for Key {
    fn drop(self) {
        match self {
            Key::Cursor | Key::Nameless | Key::Prefix => {}
            Key::Declared(_name, _path) => {}
            Key::Introduced(_name, _path, _body) => {}
            Key::Opened(_path) => {}
            Key::IdOf(_path) | Key::Typeprefix(_path) => {}
        }
    }
}

impl Datum for Key {
    ghost use Rattle.idl_env.specs.SameKey.{same_key, copied_key};

    ghost same = { same_key };

    ghost copy = { copied_key };
}

impl Key {
    /// What is asked of the entity at a path: its own name, folded, in the scope around.
    #[tactic(auto, unfolding(crate::specs::keys::Key::key_digest))]
    pub fn of_entity(alloc: Global, path: &Path) -> Result<DigestedKey, AllocError>
        ensures { IfOk result (λ key. key ≡ entity_key path.now) }
    {
        let key = HeldKey::of_entity(alloc, path)?;
        Ok(DigestedKey::known(path.entity_digest(), key))
    }
}

impl Digest for Key {
    ghost use Rattle.idl_env.specs.keys.Key.{key_digest};

    ghost digest_of = { key_digest };

    #[tactic(auto, unfolding(crate::specs::keys::Key::key_digest))]
    fn digest(&self) -> u64 {
        match self {
            Key::Cursor => 257,
            Key::Declared(name, path) => under(path.digest(), name.as_bytes()),
            Key::Introduced(name, path, body) => introduced(path.digest(), name.as_bytes(), *body),
            Key::Opened(path) => opened(path.digest()),
            Key::Nameless => 261,
            Key::Prefix => 262,
            Key::IdOf(path) => identified(path.digest()),
            Key::Typeprefix(path) => typeprefixed(path.digest()),
        }
    }
}
