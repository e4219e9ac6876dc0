//! A map by the digests of its keys.
//!
//! The digest of a program is known, and in a minute thousands of names are found that choose one bucket. What the
//! buckets have no room for is found by order, so no input makes a look-up slow. A secret seed would do too, but then
//! not what was handed in alone decides how long an edit takes. Files, a session's macros, roots and files that are
//! entered once stay in the library's hash tables: there are 4,096 at most.
//!
//! A map is made with its index, since who holds one puts to it at once; made at the first put, a call would want
//! memory that nothing refused.

ghost use Rattle.std.specs.Prelude.{◌≡◌, [], Some, IfOk, OnOk, OnErr, if◌then◌else◌};
ghost use Rattle.std.specs.Map.{lookup};
ghost use Rattle.std.specs.Option.{option_copied};

use crate::arena::Arena;
use crate::digest::Digest;
use crate::lent::Lent;
use idl_base::Datum;
use std::alloc::{AllocError, Global};
use std::marker::Model;

/// Values by their keys. To every contract it is a list of entries, the first of which counts at a key.
///
/// A look-up compares the key with those entries alone whose digests choose the same bucket and have the same tag: with none
/// mostly where the key has no value, and else with one. Where many keys choose one bucket, it compares the key with
/// logarithmically many besides, whatever they are.
pub struct Map<K: Digest + Ord, V: Datum> {
    arena: Arena<K, V>,
}

impl<K: Digest + Ord, V: Datum> Model for Map<K, V> {
    ghost use Rattle.std.specs.Prelude.{List};

    ghost Value = { List (K × V) };

    ghost use Rattle.idl_map.specs.Entries.{IsSound, entries_of};

    ghost view = { λ map. entries_of map.arena };

    ghost invariant = { λ map. IsSound K.digest_of map.arena };
}

impl<K: Digest + Ord, V: Datum> Drop for Map<K, V> {
    fn drop(self) {
        let Map { arena: _arena } = self;
    }
}

impl<K: Digest + Ord, V: Datum> Map<K, V> {
    /// The map without entries.
    pub fn new(alloc: Global) -> Result<Map<K, V>, AllocError>
        ensures { IfOk result (λ map. map ≡ []) }
    {
        let arena = Arena::new(alloc)?;
        Ok(Map { arena })
    }

    /// The value at a key, or nothing.
    pub fn get(&self, key: &K) -> Option<&V>
        ensures { option_copied result ≡ lookup (K.eq key.now) self.now }
    {
        self.arena.get(key)
    }

    /// The value at a key that is lent, or nothing. It takes memory only where many keys choose one bucket, to make the key.
    pub fn get_lent<L: Lent<K>>(&self, key: &L) -> Result<Option<&V>, AllocError>
        ensures { IfOk result (λ value. option_copied value ≡ lookup (K.eq (L.key key.now)) self.now) }
    {
        self.arena.get_lent(key)
    }

    /// The same, whatever memory there is: where there is none to make the key, all of those many keys are gone through.
    pub fn get_at<L: Lent<K>>(&self, key: &L) -> Option<&V>
        ensures { option_copied result ≡ lookup (K.eq (L.key key.now)) self.now }
    {
        self.arena.get_at(key)
    }

    /// Puts a value in at a key. Want of memory leaves what each key has.
    pub fn insert(&mut self, key: K, value: V) -> Result<(), AllocError>
        ensures each_key { OnOk result
            ((k : K)
            → lookup (K.eq k) self.new ≡ (if K.eq k key then Some value else lookup (K.eq k) self.old)) }
        ensures err { OnErr result
            ((k : K) → lookup (K.eq k) self.new ≡ lookup (K.eq k) self.old) }
    {
        self.arena.insert(key, value)
    }
}
