//! A table that seldom has entries.

ghost use Rattle.std.specs.Prelude.{◌≡◌, ◌++◌, ◌∷◌, [], Some, false, IfOk, IsTrue, OnErr, OnOk, ◌↔◌, is_some, length, slice_get};
ghost use Rattle.std.specs.Map.{lookup};
ghost use Rattle.std.specs.Option.{option_copied, option_map};
ghost use Rattle.idl_map.specs.Table.{insert_entry};

use crate::digest::Digest;
use crate::table::Table;
use std::alloc::{AllocError, Global};
use std::marker::Model;

/// A table that takes the room of a pointer until there is an entry in it. To every contract it is the list of the entries.
pub struct RareTable<K: Digest + Ord, V> {
    table: Option<Box<Table<K, V>>>,
}

impl<K: Digest + Ord, V> Model for RareTable<K, V> {
    ghost use Rattle.std.specs.Prelude.{List};
    ghost use Rattle.idl_map.specs.Table.{entries_in};

    ghost Value = { List (K × V) };

    ghost view = { λ rare. entries_in rare.table };
}

impl<K: Digest + Ord, V: Drop> Drop for RareTable<K, V> {
    fn drop(self) {
        let RareTable { table: _table } = self;
    }
}

impl<K: Digest + Ord, V: Drop> RareTable<K, V> {
    /// The table without entries. It takes no memory.
    pub fn new() -> RareTable<K, V>
        ensures { result ≡ [] }
    {
        RareTable { table: None }
    }

    /// Whether there is no entry.
    #[inline(always)]
    pub fn is_empty(&self) -> bool
        ensures { IsTrue result ↔ (self.now ≡ []) }
    {
        match &self.table {
            Some(table) => table.is_empty(),
            None => true,
        }
    }

    /// The value at a key, or nothing.
    pub fn get(&self, key: &K) -> Option<&V>
        ensures { option_copied result ≡ lookup (K.eq key.now) self.now }
    {
        match &self.table {
            Some(table) => table.get(key),
            None => None,
        }
    }

    /// Whether a key has an entry.
    pub fn contains(&self, key: &K) -> bool
        ensures { result ≡ is_some (lookup (K.eq key.now) self.now) }
    {
        self.get(key).is_some()
    }

    /// The entry at a place in the order, or nothing past the last.
    pub fn get_index(&self, index: usize) -> Option<(&K, &V)>
        ensures { option_map (λ e. (e.0.now, e.1.now)) result ≡ slice_get self.now index }
    {
        match &self.table {
            Some(table) => table.get_index(index),
            None => None,
        }
    }

    /// Puts a value in at a key: one that is there keeps its place and takes the value, and a new one goes last.
    ///
    /// Want of memory leaves the table as it was.
    pub fn insert(&mut self, alloc: Global, key: K, value: V) -> Result<(), AllocError>
        ensures entries { OnOk result (self.new ≡ insert_entry K.eq self.old key value) }
        ensures new_key { OnOk result
            (is_some (lookup (K.eq key) self.old) ≡ false
            → self.new ≡ self.old ++ (key, value) ∷ []) }
        ensures err { OnErr result (self.new ≡ self.old) }
    {
        if let Some(table) = &mut self.table {
            return table.insert(key, value);
        }
        let mut table = Table::new(alloc);
        table.insert(key, value)?;
        self.table = Some(Box::new(alloc, table)?);
        Ok(())
    }
}
