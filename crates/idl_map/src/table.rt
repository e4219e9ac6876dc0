//! A table of entries by their keys, in the order in which the keys were first put in.
//!
//! The index may tell of keys that were taken off: a look-up compares the key that stands there. So nothing is taken
//! out of it, and want of memory can't leave it wrong.

ghost use Rattle.std.specs.Prelude.{◌≡◌, ◌↔◌, ◌++◌, ◌∷◌, [], ℕ, Some, false, IfOk, IsTrue, IsNone, OnOk, OnErr, is_some, length, slice_get};
ghost use Rattle.std.specs.List.{list_any, position};
ghost use Rattle.std.specs.Map.{keys_of, lookup};
ghost use Rattle.std.specs.Option.{option_copied, option_map, option_to_list};
ghost use Rattle.idl_map.specs.Table.{AreDistinct, IsIndexOf, insert_entry, places_in};

use crate::digest::Digest;
use crate::lent::Lent;
use crate::map::Map;
use std::alloc::{AllocError, Global};
use std::marker::Model;

// Up to so many entries have no index: it costs less to compare a key with each of them than to keep copies.
const FEW: usize = 32;

/// Entries by their keys, in the order in which the keys were first put in. To every contract it is the list of them.
///
/// A look-up goes through few entries, and where there have been more than 32 at once, it finds the place of the key by its
/// digest, in a map of copies of the keys. Only `insert` and `push` take memory.
pub struct Table<K: Digest + Ord, V> {
    entries: Vec<(K, V)>,
    // Where keys stand, or stood until they were taken off.
    index: Option<Box<Map<K, usize>>>,
}

impl<K: Digest + Ord, V> Model for Table<K, V> {
    ghost use Rattle.std.specs.Prelude.{List};
    ghost use Rattle.std.specs.Map.{keys_of};
    ghost use Rattle.idl_map.specs.Table.{IsIndexed, places_behind};

    ghost Value = { List (K × V) };

    ghost view = { λ table. table.entries.items };

    ghost invariant = { λ table.
        IsIndexed (places_behind K.eq table.index) (keys_of table.entries.items) };
}

impl<K: Digest + Ord, V: Drop> Drop for Table<K, V> {
    fn drop(self) {
        let Table {
            entries: _entries,
            index: _index,
        } = self;
    }
}

impl<K: Digest + Ord, V: Drop> Table<K, V> {
    /// The table without entries. It takes no memory.
    pub fn new(alloc: Global) -> Table<K, V>
        ensures { result ≡ [] }
    {
        Table {
            entries: Vec::new(alloc),
            index: None,
        }
    }

    /// How many entries there are.
    pub fn len(&self) -> usize
        ensures { result ≡ length self.now }
    {
        self.entries.len()
    }

    /// Whether there is no entry.
    pub fn is_empty(&self) -> bool
        ensures { IsTrue result ↔ (self.now ≡ []) }
    {
        self.entries.is_empty()
    }

    /// The value at a key, or nothing.
    pub fn get(&self, key: &K) -> Option<&V>
        ensures { option_copied result ≡ lookup (K.eq key.now) self.now }
    {
        let place = self.place_of(key)?;
        Some(&self.entries[place].1)
    }

    /// Whether a key has an entry.
    pub fn contains(&self, key: &K) -> bool
        ensures { result ≡ is_some (lookup (K.eq key.now) self.now) }
    {
        self.get(key).is_some()
    }

    /// Whether a key that is lent has an entry. It takes memory only where there are many entries and many keys choose one bucket.
    pub fn contains_lent<L: Lent<K>>(&self, key: &L) -> Result<bool, AllocError>
        ensures { IfOk result (λ there. there ≡ is_some (lookup (K.eq (L.key key.now)) self.now)) }
    {
        match &self.index {
            Some(places) => is_lent_in(places, &self.entries, key),
            None => Ok(is_lent_among(&self.entries, key)),
        }
    }

    /// The entry at a place in the order, or nothing past the last.
    pub fn get_index(&self, index: usize) -> Option<(&K, &V)>
        ensures { option_map (λ e. (e.0.now, e.1.now)) result ≡ slice_get self.now index }
    {
        let (key, value) = self.entries.get(index)?;
        Some((key, value))
    }

    /// The entries in their order.
    pub fn entries(&self) -> &[(K, V)]
        ensures { result.now ≡ self.now }
    {
        &self.entries
    }

    /// Puts a value in at a key: one that is there keeps its place and takes the value, and a new one goes last.
    ///
    /// Want of memory leaves the table as it was.
    pub fn insert(&mut self, key: K, value: V) -> Result<(), AllocError>
        ensures entries { OnOk result (self.new ≡ insert_entry K.eq self.old key value) }
        ensures new_key { OnOk result
            (is_some (lookup (K.eq key) self.old) ≡ false
            → self.new ≡ self.old ++ (key, value) ∷ []) }
        ensures err { OnErr result (self.new ≡ self.old) }
    {
        if let Some(place) = self.place_of(&key) {
            let entry = &mut self.entries[place];
            entry.1 = value;
            return Ok(());
        }
        self.push(key, value)
    }

    /// Puts an entry in at a new key, as the last. Unlike `insert` it doesn't search for the key first.
    ///
    /// Want of memory leaves the table as it was.
    pub fn push(&mut self, key: K, value: V) -> Result<(), AllocError>
        requires { is_some (lookup (K.eq key) self.old) ≡ false }
        ensures entries { OnOk result (self.new ≡ self.old ++ (key, value) ∷ []) }
        ensures err { OnErr result (self.new ≡ self.old) }
    {
        self.index_many()?;
        let place = self.entries.len();
        if let Some(places) = &mut self.index {
            places.insert(key.clone()?, place)?;
        }
        self.entries.push((key, value))?;
        Ok(())
    }

    /// Takes the last entry off.
    pub fn pop(&mut self) -> Option<(K, V)>
        ensures entries { self.old ≡ self.new ++ option_to_list result }
        ensures none { IsNone result ↔ (self.old ≡ []) }
    {
        self.entries.pop()
    }

    /// Moves all entries behind those of a list, in their order. The table keeps its room for others.
    ///
    /// Want of memory leaves both as they were.
    pub fn move_into(&mut self, list: &mut Vec<(K, V)>) -> Result<(), AllocError>
        ensures moved { OnOk result (list.new.items ≡ list.old.items ++ self.old) }
        ensures none { OnOk result (self.new ≡ []) }
        ensures err { OnErr result (self.new ≡ self.old) }
    {
        list.append(&mut self.entries)?;
        self.index = None;
        Ok(())
    }

    // The place of a key among the entries, or nothing.
    fn place_of(&self, key: &K) -> Option<usize>
        ensures { (i : ℕ) → (result ≡ Some i) ↔ (slice_get (keys_of self.now) i ≡ Some key.now) }
    {
        match &self.index {
            Some(places) => place_in(places, &self.entries, key),
            None => place_among(&self.entries, key),
        }
    }

    // Makes the index where there is none and an entry more is too many for that.
    fn index_many(&mut self) -> Result<(), AllocError>
        ensures { self.new ≡ self.old }
    {
        if self.index.is_some() || self.entries.len() < FEW {
            return Ok(());
        }
        let alloc = *self.entries.allocator();
        let places = index_of(alloc, &self.entries)?;
        self.index = Some(Box::new(alloc, places)?);
        Ok(())
    }
}

// The place that an index has for a key, if the key stands there.
fn place_in<K: Digest + Ord, V>(
    places: &Map<K, usize>,
    entries: &[(K, V)],
    key: &K,
) -> Option<usize>
    requires { IsIndexOf (places_in K.eq places.now) (keys_of entries.now) }
    ensures { (i : ℕ) → (result ≡ Some i) ↔ (slice_get (keys_of entries.now) i ≡ Some key.now) }
{
    let place = places.get(key).copied()?;
    if is_at(entries, place, key) {
        Some(place)
    } else {
        None
    }
}

// Whether a key that is lent is among the keys of entries.
fn is_lent_among<K: Digest + Ord, V, L: Lent<K>>(entries: &[(K, V)], key: &L) -> bool
    ensures { result ≡ list_any (λ e. K.eq (L.key key.now) e.0) entries.now }
{
    entries.iter().any(|entry| key.is(&entry.0))
}

// Whether a key that is lent stands at the place that an index has for it.
fn is_lent_in<K: Digest + Ord, V, L: Lent<K>>(
    places: &Map<K, usize>,
    entries: &[(K, V)],
    key: &L,
) -> Result<bool, AllocError>
    requires { IsIndexOf (places_in K.eq places.now) (keys_of entries.now) }
    ensures { IfOk result (λ there.
        there ≡ is_some (lookup (K.eq (L.key key.now)) entries.now)) }
{
    match places.get_lent(key)? {
        Some(place) => Ok(is_lent_at(entries, *place, key)),
        None => Ok(false),
    }
}

// Whether a key that is lent stands at a place.
fn is_lent_at<K: Digest + Ord, V, L: Lent<K>>(entries: &[(K, V)], place: usize, key: &L) -> bool
    ensures { IsTrue result ↔ (slice_get (keys_of entries.now) place ≡ Some (L.key key.now)) }
{
    match entries.get(place) {
        Some(entry) => key.is(&entry.0),
        None => false,
    }
}

// Whether a key stands at a place.
fn is_at<K: Digest + Ord, V>(entries: &[(K, V)], place: usize, key: &K) -> bool
    ensures { IsTrue result ↔ (slice_get (keys_of entries.now) place ≡ Some key.now) }
{
    match entries.get(place) {
        Some(entry) => entry.0 == *key,
        None => false,
    }
}

// The first place of a key among entries, or nothing.
fn place_among<K: Digest + Ord, V>(entries: &[(K, V)], key: &K) -> Option<usize>
    ensures { result ≡ position (λ e. K.eq e.0 key.now) entries.now }
{
    entries.iter().position(|entry| entry.0 == *key)
}

// The index of entries whose keys differ.
fn index_of<K: Digest + Ord, V>(
    alloc: Global,
    entries: &[(K, V)],
) -> Result<Map<K, usize>, AllocError>
    requires { AreDistinct (keys_of entries.now) }
    ensures { IfOk result (λ places. IsIndexOf (places_in K.eq places) (keys_of entries.now)) }
{
    let mut places = Map::new(alloc)?;
    for (place, entry) in entries.iter().enumerate() {
        places.insert(entry.0.clone()?, place)?;
    }
    Ok(places)
}
