//! What is asked of facts that take the place of others: at which keys they add, and add otherwise, and whether they declare the
//! same operations and change the open scopes in the same way.

ghost use Rattle.std.specs.Prelude.{◌≡◌, ◌++◌, ◌∷◌, [], IfSome, IsTrue, None, OnOk, drop, map};
ghost use Rattle.idl_env.specs.Differing.{differing, unlike};
ghost use Rattle.idl_env.specs.Facts.{key_of, operations_among};
ghost use Rattle.idl_env.specs.keys.Key.{key_digest};

use crate::additions::digested_addition::DigestedAddition;
use crate::additions::facts::Facts;
use idl_entity::Path;
use idl_map::Digest;
use std::alloc::AllocError;

impl Facts {
    /// Puts the digests of the keys at which there are additions behind those that are there.
    pub fn digests_into(&self, digests: &mut Vec<u64>) -> Result<(), AllocError>
        ensures { OnOk result
            (digests.new.items
            ≡ digests.old.items ++ map (λ a. key_digest (key_of a)) self.now.additions) }
    {
        for index in 0..self.len() {
            let Some(addition) = self.digested(index) else {
                continue;
            };
            digests.push(addition.digest())?;
        }
        Ok(())
    }

    /// Puts the digests of the keys at which they add otherwise than others, or these than they, behind those that are there.
    pub fn differing_into(&self, others: &Facts, digests: &mut Vec<u64>) -> Result<(), AllocError>
        ensures { OnOk result
            (digests.new.items
            ≡ digests.old.items
            ++ map key_digest (differing self.now.additions others.now.additions)) }
    {
        self.unlike_into(others, digests)?;
        others.unlike_into(self, digests)
    }

    // Puts the digests of the keys of those additions last to which none of the others is alike.
    fn unlike_into(&self, others: &Facts, digests: &mut Vec<u64>) -> Result<(), AllocError>
        ensures { OnOk result
            (digests.new.items
            ≡ digests.old.items
            ++ map key_digest (unlike self.now.additions others.now.additions)) }
    {
        for index in 0..self.len() {
            let Some(addition) = self.digested(index) else {
                continue;
            };
            others.put_unless_alike(digests, addition)?;
        }
        Ok(())
    }

    // Puts the digest of the key of an addition last, unless one of them is alike to it.
    fn put_unless_alike(
        &self,
        digests: &mut Vec<u64>,
        addition: &DigestedAddition,
    ) -> Result<(), AllocError>
        ensures { OnOk result
            (digests.new.items
            ≡ digests.old.items ++ map key_digest (unlike (addition.now ∷ []) self.now.additions)) }
    {
        if self.has_alike(addition)? {
            return Ok(());
        }
        digests.push(addition.digest())?;
        Ok(())
    }

    /// Whether both declare the same operations and attributes, in the same order.
    pub fn has_same_operations(&self, other: &Facts) -> bool
        ensures { IsTrue result
            → operations_among self.now.additions ≡ operations_among other.now.additions }
    {
        let mut behind = 0;
        for index in 0..self.len() {
            let Some(addition) = self.addition(index) else {
                continue;
            };
            let Some(mine) = addition.operation() else {
                continue;
            };
            let Some((theirs, next)) = other.operation_from(behind) else {
                return false;
            };
            if *mine != *theirs {
                return false;
            }
            behind = next;
        }
        other.operation_from(behind).is_none()
    }

    // The path of the first operation or attribute from a place on, and the place behind it.
    fn operation_from(&self, place: usize) -> Option<(&Path, usize)>
        ensures some { IfSome result (λ found.
            operations_among (drop place self.now.additions)
            ≡ found.0.now ∷ operations_among (drop found.1 self.now.additions)) }
        ensures none { result ≡ None → operations_among (drop place self.now.additions) ≡ [] }
    {
        for index in place..self.len() {
            let Some(addition) = self.addition(index) else {
                continue;
            };
            if let Some(path) = addition.operation() {
                return Some((path, index + 1));
            }
        }
        None
    }

    /// Whether the open scopes, the files entered and the prefix change in the same way.
    pub fn is_same_step(&self, other: &Facts) -> bool
        ensures { IsTrue result → self.now.step ≡ other.now.step }
    {
        self.step().is(other.step())
    }
}
