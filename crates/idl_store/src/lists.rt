//! Numbers, as the roots of a project have them.

ghost use Rattle.std.specs.Prelude.{◌≡◌, ◌∷◌, [], OnErr, OnOk};
ghost use Rattle.idl_store.specs.Spots.{result_on};
ghost use Rattle.idl_store.specs.Stored.{committed, discarded, grown, nothing_stored, removed, with_draft};

use crate::numbers::{Draft, Spot, exchange, number_on, push_numbers, shrink_lists};
use std::alloc::{AllocError, Global};
use std::marker::Model;

/// Lists of numbers, one for each root, and the drafts of those that an edit makes. To every contract it is these lists.
#[derive(Drop)]
pub struct Lists {
    lists: Vec<Vec<usize>>,
    drafts: Vec<Draft>,
}

impl Model for Lists {
    ghost use Rattle.std.specs.Prelude.{◌+◌, ◌≤◌, ℕ, vec_capacity, vec_len};
    ghost use Rattle.idl_store.specs.Numbers.{numbers_of};
    ghost use Rattle.idl_store.specs.Stored.{Stored};

    ghost Value = { Stored ℕ };

    ghost view = { λ all. numbers_of all.lists.items all.drafts.items };

    ghost invariant = { λ all.
        vec_len all.lists + vec_len all.drafts ≤ vec_capacity all.lists };
}

impl Lists {
    /// No lists. It takes no memory.
    pub fn new(alloc: Global) -> Lists
        ensures { result ≡ nothing_stored }
    {
        Lists {
            lists: Vec::new(alloc),
            drafts: Vec::new(alloc),
        }
    }

    /// The number at a spot, or nothing where there is none.
    pub fn at(&self, spot: Spot) -> Option<usize>
        ensures { result ≡ result_on self.now spot }
    {
        number_on(&self.lists, &self.drafts, spot)
    }

    /// Begins a draft of these numbers, of a list: of one that is there, or else of a new last one.
    ///
    /// Want of memory leaves the lists as they were.
    pub fn begin(&mut self, at: usize, numbers: Vec<usize>) -> Result<(), AllocError>
        ensures ok { OnOk result (self.new ≡ with_draft self.old at numbers.items) }
        ensures err { OnErr result (self.new ≡ self.old) }
    {
        self.lists.reserve(self.drafts.len() + 1)?;
        self.drafts.push(Draft { at, numbers })?;
        Ok(())
    }

    /// One number more goes into the last draft, if there is one.
    ///
    /// Want of memory leaves the lists as they were.
    pub fn push(&mut self, number: usize) -> Result<(), AllocError>
        ensures ok { OnOk result (self.new ≡ grown self.old (number ∷ [])) }
        ensures err { OnErr result (self.new ≡ self.old) }
    {
        push_numbers(&mut self.drafts, &[number])
    }

    /// Where memory is taken.
    pub fn alloc(&self) -> Global {
        *self.lists.allocator()
    }

    /// Each draft takes the place of its list, or is a new last one. It takes no memory.
    pub fn commit(&mut self)
        ensures { self.new ≡ committed self.old }
    {
        exchange(&mut self.lists, &mut self.drafts);
        self.drafts.clear();
    }

    /// No draft is left. It takes no memory.
    pub fn discard(&mut self)
        ensures { self.new ≡ discarded self.old }
    {
        self.drafts.clear();
    }

    /// Takes a list out; those behind it move up, and room that isn't needed any more is given back. It is refused no memory.
    pub fn remove(&mut self, list: usize)
        ensures { self.new ≡ removed self.old list }
    {
        self.take_out(list);
        shrink_lists(&mut self.lists, &mut self.drafts);
    }

    // Takes a list out.
    fn take_out(&mut self, list: usize)
        ensures { self.new ≡ removed self.old list }
    {
        if list < self.lists.len() {
            self.lists.remove(list);
        }
    }
}
