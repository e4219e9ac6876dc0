//! Additions with the digests of their keys.

ghost use Rattle.std.specs.Prelude.{◌≡◌, [], IfOk, IsFalse, nat_eq};
ghost use Rattle.std.specs.List.{list_any, position};
ghost use Rattle.idl_env.specs.Facts.{answer_of, key_of, operations_among};
ghost use Rattle.idl_env.specs.keys.Key.{key_digest, key_eq};

use crate::additions::addition::Addition;
use crate::answering::answer::Answer;
use crate::keys::digested::DigestedKey;
use crate::keys::lent_key::LentKey;
use idl_map::Digest;
use std::alloc::{AllocError, Global};
use std::marker::Model;

/// An addition, and beside it the digest of the key whose answer it changes, by which it is found. To every contract it is the
/// addition itself.
pub struct DigestedAddition {
    digest: u64,
    addition: Addition,
}

impl Model for DigestedAddition {
    ghost use Rattle.std.specs.Prelude.{◌≡◌};
    ghost use Rattle.idl_env.specs.Facts.{key_of};
    ghost use Rattle.idl_env.specs.keys.Key.{key_digest};
    ghost use Rattle.idl_env.specs.declared.additions.addition.Addition.{Addition};

    ghost Value = { Addition };

    ghost view = { λ digested. digested.addition };

    ghost invariant = { λ digested. digested.digest ≡ key_digest (key_of digested.addition) };
}

impl Drop for DigestedAddition {
    fn drop(self) {
        let DigestedAddition {
            digest: _digest,
            addition: _addition,
        } = self;
    }
}

impl DigestedAddition {
    /// The addition, with the digest of its key.
    #[inline(always)]
    pub fn of(addition: Addition) -> DigestedAddition
        ensures { result ≡ addition }
    {
        let digest = addition.digest();
        DigestedAddition { digest, addition }
    }

    /// The addition alone.
    pub fn addition(&self) -> &Addition
        ensures { result.now ≡ self.now }
    {
        &self.addition
    }

    /// The key whose answer it changes.
    pub fn key(&self, alloc: Global) -> Result<DigestedKey, AllocError>
        ensures { IfOk result (λ key. key ≡ key_of self.now) }
    {
        self.addition.key_with(alloc, self.digest)
    }

    /// That key, and the answer that it leaves there.
    pub fn into_entry(self, alloc: Global) -> Result<(DigestedKey, Answer), AllocError>
        ensures key { IfOk result (λ entry. entry.0 ≡ key_of self) }
        ensures answer { IfOk result (λ entry. entry.1 ≡ answer_of self) }
    {
        let DigestedAddition { digest, addition } = self;
        let (key, answer) = addition.into_entry(alloc)?;
        Ok((DigestedKey::known(digest, key), answer))
    }

    /// The digest of that key.
    #[inline]
    pub fn digest(&self) -> u64
        ensures { result ≡ key_digest (key_of self.now) }
    {
        self.digest
    }

    // Whether that key is lent here.
    #[inline]
    fn is_asked(&self, key: &LentKey<'_>) -> bool
        ensures { result ≡ key_eq key.now (key_of self.now) }
    {
        self.digest == key.digest() && key.is_of(&self.addition)
    }

    // Whether another changes the answer at that key too.
    #[inline]
    fn is_at_one_with(&self, other: &DigestedAddition) -> bool
        ensures { result ≡ key_eq (key_of self.now) (key_of other.now) }
    {
        self.digest == other.digest() && self.addition.has_key_of(&other.addition)
    }
}

/// Whether one of the additions has the digest of another's key.
pub fn is_digest_among(additions: &[DigestedAddition], other: &DigestedAddition) -> bool
    ensures { result
        ≡ list_any (λ a. nat_eq (key_digest (key_of a)) (key_digest (key_of other.now))) additions.now }
{
    let digest = other.digest();
    additions.iter().any(|addition| addition.digest() == digest)
}

/// Whether one of the additions declares an operation or attribute.
#[inline]
pub fn is_operation_among(additions: &[DigestedAddition]) -> bool
    ensures { IsFalse result → operations_among additions.now ≡ [] }
{
    for addition in additions {
        if let Some(_path) = addition.addition().operation() {
            return true;
        }
    }
    false
}

/// The place among additions of the first that is at the key of another.
pub fn place_among(additions: &[DigestedAddition], other: &DigestedAddition) -> Option<usize>
    ensures { result ≡ position (λ a. key_eq (key_of other.now) (key_of a)) additions.now }
{
    additions
        .iter()
        .position(|addition| other.is_at_one_with(addition))
}

/// The place among additions of the first at whose key a question is.
pub fn asked_among(additions: &[DigestedAddition], key: &LentKey<'_>) -> Option<usize>
    ensures { result ≡ position (λ a. key_eq key.now (key_of a)) additions.now }
{
    additions.iter().position(|addition| addition.is_asked(key))
}
