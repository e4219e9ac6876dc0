//! Facts that are handed on, and the room in which units gather theirs.

ghost use Rattle.std.specs.Prelude.{◌≡◌, [], IfOk};

use crate::additions::digested_addition::DigestedAddition;
use crate::additions::facts::Facts;
use std::alloc::{AllocError, Global};
use std::marker::Model;
use std::mem::{replace, swap};

/// Facts behind a pointer, which are handed on as such. To every contract they are the facts themselves.
#[derive(Drop)]
pub struct Writes {
    pub(crate) inner: Box<Facts>,
}

impl Model for Writes {
    ghost use Rattle.idl_env.specs.Facts.{UnitFacts};

    ghost Value = { UnitFacts };

    ghost view = { λ writes. writes.inner.value };
}

/// Room for what a unit adds, which is used again for the next one. No contract knows of it.
#[derive(Drop)]
pub struct Room {
    alloc: Global,
    spare: Option<Writes>,
}

impl Writes {
    /// These facts, moved to memory of their own.
    pub fn new(alloc: Global, facts: Facts) -> Result<Writes, AllocError>
        ensures { IfOk result (λ writes. writes ≡ facts) }
    {
        let inner = Box::new(alloc, facts)?;
        Ok(Writes { inner })
    }

    /// The facts.
    pub fn get(&self) -> &Facts
        ensures { result.now ≡ self.now }
    {
        &self.inner
    }
}

impl Writes {
    /// The same in no more memory than they need. What they had is room for others.
    pub fn fitted(self, room: &mut Room) -> Result<Writes, AllocError>
        ensures { IfOk result (λ writes. writes ≡ self) }
    {
        let mut wide = self;
        let facts = wide.inner.taken()?;
        let fitted = Writes::new(room.alloc, facts)?;
        room.give(wide);
        Ok(fitted)
    }
}

impl Room {
    /// No room so far. It takes no memory.
    pub fn new(alloc: Global) -> Room {
        Room { alloc, spare: None }
    }

    /// A list for additions.
    pub(crate) fn list(&mut self) -> Vec<DigestedAddition>
        ensures { result.items ≡ [] }
    {
        match &mut self.spare {
            Some(spare) => spare.inner.take_list(),
            None => Vec::new(self.alloc),
        }
    }

    /// Facts that are taken out of where they stand, behind a pointer.
    pub fn hold(&mut self, facts: &mut Facts) -> Result<Writes, AllocError>
        ensures { IfOk result (λ writes. writes ≡ facts.old) }
    {
        match replace(&mut self.spare, None) {
            Some(spare) => {
                let mut writes = spare;
                swap(&mut *writes.inner, facts);
                Ok(writes)
            }
            None => Writes::new(self.alloc, replace(facts, Facts::new(self.alloc))),
        }
    }

    /// The memory of facts, which are given up.
    pub(crate) fn give(&mut self, writes: Writes) {
        self.spare = Some(writes);
    }
}
