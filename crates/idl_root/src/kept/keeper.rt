//! What is kept of the declarations and the entries of all roots.

ghost use Rattle.std.specs.Prelude.{◌≡◌, OnOk};
ghost use Rattle.idl_kept.specs.Drafts.{begun_texts, committed_texts, no_texts, removed_texts};
ghost use Rattle.idl_kept.specs.Texts.{without_drafts};
ghost use Rattle.idl_root.specs.AsBefore.{AreListsLeft};
ghost use Rattle.idl_store.specs.Stored.{begun, committed, discarded, nothing_stored, removed};

use crate::compiling::memory::Memory;
use idl_entity::Path;
use idl_env::Env;
use idl_kept::KeptTexts;
use idl_memo::Kept;
use idl_repo::{Entry, EntryTask};
use idl_store::{Held, Running, Store};
use std::alloc::{AllocError, Global};

/// What is kept of a name that has an id: its path, what its row asked with the answers, and its entry.
pub type KeptEntry = Kept<Env, Path, Entry>;

/// What is kept of the names of all roots that have an id: a list for each root, and those that an edit is making.
pub type Entries = Store<Held<Env, EntryTask>, Running<Env>>;

/// Where compilations take memory, and what they keep: of each root the results of its declarations and of its entries, a list
/// each. What two roots have in common is kept once.
///
/// Roots that are compiled anew make new lists, beside those that are there. An edit that is accepted puts them in place, and
/// one that is refused drops them: neither takes memory.
pub struct Keeper {
    pub(crate) memory: Memory,
    /// Of units and blocks.
    pub texts: KeptTexts,
    /// Of names.
    pub entries: Entries,
}

impl Drop for Keeper {
    fn drop(self) {
        let Keeper {
            memory: _memory,
            texts: _texts,
            entries: _entries,
        } = self;
    }
}

impl Keeper {
    /// Nothing is kept. It takes no memory.
    pub fn new(alloc: Global) -> Keeper
        ensures texts { result.texts ≡ no_texts }
        ensures entries { result.entries ≡ nothing_stored }
    {
        Keeper {
            memory: Memory::new(alloc),
            texts: KeptTexts::new(alloc),
            entries: Store::new(alloc, Running::new(alloc)),
        }
    }

    /// Where memory is taken.
    pub fn alloc(&self) -> Global {
        self.memory.alloc()
    }

    /// Begins what is made of the root at this place among all.
    pub(crate) fn begin(&mut self, root: usize) -> Result<(), AllocError>
        ensures texts { OnOk result (self.new.texts ≡ begun_texts self.old.texts root) }
        ensures entries { OnOk result (self.new.entries ≡ begun self.old.entries root) }
        ensures lists { AreListsLeft self.old self.new }
    {
        self.texts.begin(root)?;
        self.entries.begin(root)
    }

    /// Puts what was made of roots in the place of what was kept of them. It takes no memory.
    pub fn commit(&mut self)
        ensures texts { self.new.texts ≡ committed_texts self.old.texts }
        ensures entries { self.new.entries ≡ committed self.old.entries }
    {
        self.texts.commit();
        self.entries.commit();
    }

    /// Drops what was made of roots. It takes no memory.
    pub fn discard(&mut self)
        ensures texts { self.new.texts ≡ without_drafts self.old.texts }
        ensures entries { self.new.entries ≡ discarded self.old.entries }
    {
        self.texts.discard();
        self.entries.discard();
    }

    /// Drops what is kept of the root at this place among all, and gives back what the last compilation took. It is refused no memory.
    pub fn remove(&mut self, root: usize)
        ensures texts { self.new.texts ≡ removed_texts self.old.texts root }
        ensures entries { self.new.entries ≡ removed self.old.entries root }
    {
        self.memory.clear();
        self.texts.remove(root);
        self.entries.remove(root);
    }
}
