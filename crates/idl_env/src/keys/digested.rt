//! Keys with their digests beside them.

ghost use Rattle.std.specs.Prelude.{◌≡◌, IfOk, Some, refl};
ghost use Rattle.idl_env.specs.keys.Digested.{key_cmp, key_cmp_po, key_cmp_ties, key_cmp_total, key_equiv, key_per};
ghost use Rattle.idl_env.specs.keys.HeldKey.{key_in};
ghost use Rattle.idl_env.specs.keys.Key.{key_digest, key_eq};
ghost use Rattle.idl_env.specs.SameKey.{same_key};
ghost use Rattle.idl_env.specs.contracts.keys.key.KeyOrd.TheImpl.{ghosts as own_order};
ghost use Rattle.idl_env.specs.declared.keys.key.Key.TheVariants as keys;

use crate::keys::held_key::HeldKey;
use crate::keys::key::Key;
use idl_base::Datum;
use idl_entity::Path;
use idl_entity::paths::opened;
use idl_map::Digest;
use std::alloc::{AllocError, Global};
use std::cmp::Ordering;
use std::marker::Model;

/// A key, and beside it its digest, which is worked out once. To every contract it is the key itself.
///
/// Two of them are told apart by their digests, before their keys are looked at.
#[derive(Drop)]
pub struct DigestedKey {
    digest: u64,
    key: HeldKey,
}

// An environment has tens of thousands of them.
const _: () = prove!(size_of::<DigestedKey>() <= 32);

impl Model for DigestedKey {
    ghost use Rattle.std.specs.Prelude.{◌≡◌};
    ghost use Rattle.idl_env.specs.keys.HeldKey.{key_in};
    ghost use Rattle.idl_env.specs.keys.Key.{key_digest};
    ghost use Rattle.idl_env.specs.declared.keys.key.Key.{Key};

    ghost Value = { Key };

    ghost view = { λ digested. key_in digested.key };

    ghost invariant = { λ digested. digested.digest ≡ key_digest (key_in digested.key) };
}

impl DigestedKey {
    /// The open scopes.
    #[tactic(auto, unfolding(crate::specs::keys::Key::key_digest))]
    pub fn cursor() -> DigestedKey
        ensures { result ≡ keys.Cursor }
    {
        DigestedKey {
            digest: Key::Cursor.digest(),
            key: HeldKey::Cursor,
        }
    }

    /// How many nameless scopes were opened.
    #[tactic(auto, unfolding(crate::specs::keys::Key::key_digest))]
    pub fn nameless() -> DigestedKey
        ensures { result ≡ keys.Nameless }
    {
        DigestedKey {
            digest: Key::Nameless.digest(),
            key: HeldKey::Nameless,
        }
    }

    /// The prefix in force.
    #[tactic(auto, unfolding(crate::specs::keys::Key::key_digest))]
    pub fn prefix() -> DigestedKey
        ensures { result ≡ keys.Prefix }
    {
        DigestedKey {
            digest: Key::Prefix.digest(),
            key: HeldKey::Prefix,
        }
    }

    /// How many bodies of the scope at a path were opened.
    #[tactic(auto, unfolding(crate::specs::keys::Key::key_digest))]
    pub fn opened(alloc: Global, path: &Path) -> Result<DigestedKey, AllocError>
        ensures { IfOk result (λ key. key ≡ keys.Opened path.now) }
    {
        let digest = opened(path.digest());
        let key = HeldKey::opened(alloc, path.clone()?)?;
        Ok(DigestedKey { digest, key })
    }

    /// The key, where its digest is known.
    pub(crate) fn known(digest: u64, key: HeldKey) -> DigestedKey
        requires { digest ≡ key_digest (key_in key) }
        ensures { result ≡ key_in key }
    {
        DigestedKey { digest, key }
    }

    /// The key alone.
    pub(crate) fn held(&self) -> &HeldKey
        ensures { key_in result.now ≡ self.now }
    {
        &self.key
    }
}

impl Clone for DigestedKey {
    ghost is_clone = { λ digested copy. copy ≡ digested };

    fn clone(&self) -> Result<DigestedKey, AllocError> {
        let key = self.key.clone()?;
        Ok(DigestedKey {
            digest: self.digest,
            key,
        })
    }
}

impl PartialEq for DigestedKey {
    ghost eq = { key_eq };

    ghost laws = { key_per };

    #[inline]
    fn eq(&self, other: &DigestedKey) -> bool
        ensures { result ≡ key_eq self.now other.now }
    {
        self.digest == other.digest && are_one(&self.key, &other.key)
    }
}

impl Eq for DigestedKey {
    ghost laws = { key_equiv };
}

impl PartialOrd for DigestedKey {
    ghost partial_cmp = { λ x y. Some (key_cmp x y) };

    ghost laws = { key_cmp_po };

    fn partial_cmp(&self, other: &DigestedKey) -> Option<Ordering> {
        Some(self.cmp(other))
    }
}

impl Ord for DigestedKey {
    ghost cmp = { key_cmp };

    ghost total = { key_cmp_total };

    ghost matches_partial_cmp = { λ x y. refl };

    ghost matches_eq = { key_cmp_ties };

    fn cmp(&self, other: &DigestedKey) -> Ordering
        ensures { result ≡ key_cmp self.now other.now }
    {
        match self.digest.cmp(&other.digest) {
            Ordering::Equal => order_of(&self.key, &other.key),
            order => order,
        }
    }
}

impl Datum for DigestedKey {
    ghost same = { same_key };

    ghost copy = { λ x y h. h };
}

impl Digest for DigestedKey {
    ghost digest_of = { key_digest };

    fn digest(&self) -> u64 {
        self.digest
    }
}

// Whether keys of one digest are one. It stands apart, since most keys that are compared differ in their digests.
#[inline(never)]
fn are_one(key: &HeldKey, other: &HeldKey) -> bool
    ensures { result ≡ key_eq (key_in key.now) (key_in other.now) }
{
    key.is_one_with(other)
}

// Which of two keys of one digest comes first. Most of them are one, which is told sooner than an order.
#[inline(never)]
fn order_of(key: &HeldKey, other: &HeldKey) -> Ordering
    ensures { result ≡ own_order.cmp (key_in key.now) (key_in other.now) }
{
    if key.is_one_with(other) {
        return Ordering::Equal;
    }
    key.order(other)
}
