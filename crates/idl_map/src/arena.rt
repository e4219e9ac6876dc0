//! The parts of a map: entries, and the index in which digests find their places.

ghost use Rattle.std.specs.Prelude.{◌≡◌, ◌↔◌, [], ℕ, None, Some, IfOk, IsTrue, OnOk, OnErr, slice_get, if◌then◌else◌};
ghost use Rattle.std.specs.Map.{keys_of, lookup};
ghost use Rattle.std.specs.Option.{option_copied};
ghost use Rattle.idl_map.specs.Buckets.{IsSpot};
ghost use Rattle.idl_map.specs.Entries.{IsSound, entries_of};

use crate::bits::{lowest, without};
use crate::digest::Digest;
use crate::index::{Index, Slot};
use crate::lent::Lent;
use idl_base::Datum;
use std::alloc::{AllocError, Global};
use std::collections::BTreeMap;

/// Entries, the index of the digests of their keys, and the rest, which has the entries for which the index had no room.
///
/// No entry is ever taken out.
pub struct Arena<K: Digest + Ord, V: Datum> {
    index: Index,
    entries: Vec<(K, V)>,
    rest: BTreeMap<K, V>,
}

impl<K: Digest + Ord, V: Datum> Drop for Arena<K, V> {
    fn drop(self) {
        let Arena {
            index: _index,
            entries: _entries,
            rest: _rest,
        } = self;
    }
}

// A key that stands for itself.
#[derive(Drop)]
struct Own<'a, K> {
    key: &'a K,
}

impl<'a, K: Digest> Lent<K> for Own<'a, K> {
    ghost key = { λ own. own.key.now };

    #[inline]
    fn key_digest(&self) -> u64 {
        self.key.digest()
    }

    #[inline]
    fn is(&self, other: &K) -> bool {
        *self.key == *other
    }

    fn owned(&self) -> Result<K, AllocError> {
        self.key.clone()
    }
}

impl<K: Digest + Ord, V: Datum> Arena<K, V> {
    /// The arena without entries.
    pub fn new(alloc: Global) -> Result<Arena<K, V>, AllocError>
        ensures sound { IfOk result (λ arena. IsSound K.digest_of arena) }
        ensures entries { IfOk result (λ arena. entries_of arena ≡ []) }
    {
        Ok(Arena {
            index: Index::new(alloc)?,
            entries: Vec::new(alloc),
            rest: BTreeMap::new(alloc),
        })
    }

    /// The value at a key, or nothing.
    pub fn get(&self, key: &K) -> Option<&V>
        requires { IsSound K.digest_of self.now }
        ensures { option_copied result ≡ lookup (K.eq key.now) (entries_of self.now) }
    {
        match self.place_of(&Own { key }) {
            Some(place) => Some(&self.entries[place].1),
            None => self.among_rest(key),
        }
    }

    /// The value at a key that is lent, or nothing. The key is made where the rest has entries.
    pub fn get_lent<L: Lent<K>>(&self, key: &L) -> Result<Option<&V>, AllocError>
        requires { IsSound K.digest_of self.now }
        ensures { IfOk result (λ value.
            option_copied value ≡ lookup (K.eq (L.key key.now)) (entries_of self.now)) }
    {
        match self.place_of(key) {
            Some(place) => Ok(Some(&self.entries[place].1)),
            None => self.lent_among_rest(key),
        }
    }

    /// The same, whatever memory there is: where there is none to make the key, the rest is gone through.
    pub fn get_at<L: Lent<K>>(&self, key: &L) -> Option<&V>
        requires { IsSound K.digest_of self.now }
        ensures { option_copied result ≡ lookup (K.eq (L.key key.now)) (entries_of self.now) }
    {
        match self.place_of(key) {
            Some(place) => Some(&self.entries[place].1),
            None => self.at_among_rest(key),
        }
    }

    // The value that the rest has at a key that is lent.
    #[inline]
    fn at_among_rest<L: Lent<K>>(&self, key: &L) -> Option<&V>
        ensures { option_copied result ≡ lookup (K.eq (L.key key.now)) self.now.rest.entries }
    {
        if self.rest.is_empty() {
            return None;
        }
        match self.made_among_rest(key) {
            Ok(value) => value,
            Err(AllocError) => self.found_in_rest(key),
        }
    }

    // The same, one entry after another.
    fn found_in_rest<L: Lent<K>>(&self, key: &L) -> Option<&V>
        ensures { option_copied result ≡ lookup (K.eq (L.key key.now)) self.now.rest.entries }
    {
        for (other, value) in self.rest.iter() {
            if key.is(other) {
                return Some(value);
            }
        }
        None
    }

    // The value that the rest has at a key that is lent.
    #[inline]
    fn lent_among_rest<L: Lent<K>>(&self, key: &L) -> Result<Option<&V>, AllocError>
        ensures { IfOk result (λ value.
            option_copied value ≡ lookup (K.eq (L.key key.now)) self.now.rest.entries) }
    {
        if self.rest.is_empty() {
            return Ok(None);
        }
        self.made_among_rest(key)
    }

    // The same, where the rest has entries. It stands apart, since it is empty but where many digests choose one bucket.
    #[inline(never)]
    fn made_among_rest<L: Lent<K>>(&self, key: &L) -> Result<Option<&V>, AllocError>
        ensures { IfOk result (λ value.
            option_copied value ≡ lookup (K.eq (L.key key.now)) self.now.rest.entries) }
    {
        let key = key.owned()?;
        Ok(self.among_rest(&key))
    }

    // The value that the rest has at a key. It is empty but where many digests choose one bucket.
    fn among_rest(&self, key: &K) -> Option<&V>
        ensures { option_copied result ≡ lookup (K.eq key.now) self.now.rest.entries }
    {
        if self.rest.is_empty() {
            return None;
        }
        self.rest.get(key)
    }

    // The place of the entry at a key, or nothing.
    #[inline]
    fn place_of<L: Lent<K>>(&self, key: &L) -> Option<usize>
        requires { IsSound K.digest_of self.now }
        ensures { (i : ℕ)
            → (result ≡ Some i) ↔ (slice_get (keys_of self.now.entries.items) i ≡ Some (L.key key.now)) }
    {
        let spot = self.index.spot_of(key.key_digest());
        self.place_at(spot, key)
    }

    // The same, where the spot of the key's digest is known.
    #[inline(always)]
    fn place_at<L: Lent<K>>(&self, spot: Slot, key: &L) -> Option<usize>
        requires sound { IsSound K.digest_of self.now }
        requires spot { IsSpot self.now.index.parts.items spot }
        requires digest { spot.digest ≡ K.digest_of (L.key key.now) }
        ensures { (i : ℕ)
            → (result ≡ Some i) ↔ (slice_get (keys_of self.now.entries.items) i ≡ Some (L.key key.now)) }
    {
        let mut marks = self.index.marked(spot);
        while marks != 0 {
            let slot = lowest(marks);
            let place = self.index.place(spot, slot);
            if self.is_at(place, key) {
                return Some(place);
            }
            marks = without(marks, slot);
        }
        None
    }

    // Whether there is an entry at a place, and at a key.
    #[inline]
    fn is_at<L: Lent<K>>(&self, place: usize, key: &L) -> bool
        ensures { IsTrue result
            ↔ (slice_get (keys_of self.now.entries.items) place ≡ Some (L.key key.now)) }
    {
        match self.entries.get(place) {
            Some(entry) => key.is(&entry.0),
            None => false,
        }
    }

    /// Puts a value in at a key. Want of memory leaves what each key has.
    pub fn insert(&mut self, key: K, value: V) -> Result<(), AllocError>
        requires { IsSound K.digest_of self.old }
        ensures sound { IsSound K.digest_of self.new }
        ensures each_key { OnOk result
            ((k : K)
            → lookup (K.eq k) (entries_of self.new)
            ≡ (if K.eq k key then Some value else lookup (K.eq k) (entries_of self.old))) }
        ensures err { OnErr result
            ((k : K) → lookup (K.eq k) (entries_of self.new) ≡ lookup (K.eq k) (entries_of self.old)) }
    {
        let spot = self.index.spot_of(key.digest());
        if self.index.marked(spot) == 0 {
            return self.push(spot, key, value);
        }
        self.put(key, value)
    }

    // The same for any key. It stands apart, since most keys are new and have a tag that their bucket hasn't.
    #[inline(never)]
    fn put(&mut self, key: K, value: V) -> Result<(), AllocError>
        requires { IsSound K.digest_of self.old }
        ensures sound { IsSound K.digest_of self.new }
        ensures each_key { OnOk result
            ((k : K)
            → lookup (K.eq k) (entries_of self.new)
            ≡ (if K.eq k key then Some value else lookup (K.eq k) (entries_of self.old))) }
        ensures err { OnErr result
            ((k : K) → lookup (K.eq k) (entries_of self.new) ≡ lookup (K.eq k) (entries_of self.old)) }
    {
        let spot = self.index.spot_of(key.digest());
        if let Some(place) = self.place_at(spot, &Own { key: &key }) {
            let entry = &mut self.entries[place];
            entry.1 = value;
            return Ok(());
        }
        self.push(spot, key, value)
    }

    // Puts an entry in at a new key, where the spot of its digest is known.
    #[inline(always)]
    fn push(&mut self, spot: Slot, key: K, value: V) -> Result<(), AllocError>
        requires sound { IsSound K.digest_of self.old }
        requires spot { IsSpot self.old.index.parts.items spot }
        requires digest { spot.digest ≡ K.digest_of key }
        requires absent { lookup (K.eq key) self.old.entries.items ≡ None }
        ensures sound { IsSound K.digest_of self.new }
        ensures each_key { OnOk result
            ((k : K)
            → lookup (K.eq k) (entries_of self.new)
            ≡ (if K.eq k key then Some value else lookup (K.eq k) (entries_of self.old))) }
        ensures err { OnErr result
            ((k : K) → lookup (K.eq k) (entries_of self.new) ≡ lookup (K.eq k) (entries_of self.old)) }
    {
        self.entries.reserve(1)?;
        if self.index.push(spot)? {
            self.entries.push((key, value))?;
            return Ok(());
        }
        self.rest.insert(key, value)?;
        Ok(())
    }
}
