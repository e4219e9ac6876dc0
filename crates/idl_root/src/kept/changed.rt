//! Digests of keys that may be answered otherwise than before.

ghost use Rattle.std.specs.Prelude.{◌≡◌, ◌++◌, ◌∷◌, [], ℕ, IfOk, IsFalse, IsTrue, OnOk, Contains, map};
ghost use Rattle.idl_root.specs.Changed.{ShareNone, mark_of};
ghost use Rattle.idl_env.specs.Differing.{differing};
ghost use Rattle.idl_env.specs.Facts.{key_of};
ghost use Rattle.idl_env.specs.keys.Key.{key_digest};

use idl_env::{Env, Facts};
use idl_memo::{Digests, KeptLog};
use std::alloc::{AllocError, Global};
use std::marker::Model;

// So many marks there are.
const MARKS: usize = 1024;

/// Digests of keys that may be answered otherwise than before, with marks by which most others are told at once.
///
/// To every contract they are the list of the digests.
pub struct Changed {
    digests: Vec<u64>,
    marks: Vec<bool>,
}

impl Model for Changed {
    ghost use Rattle.std.specs.Prelude.{List, ℕ};
    ghost use Rattle.idl_root.specs.Changed.{AreMarked};

    ghost Value = { List ℕ };

    ghost view = { λ changed. changed.digests.items };

    ghost invariant = { λ changed. AreMarked changed.marks.items changed.digests.items };
}

impl Drop for Changed {
    fn drop(self) {
        let Changed {
            digests: _digests,
            marks: _marks,
        } = self;
    }
}

impl Changed {
    /// No key is.
    pub fn new(alloc: Global) -> Result<Changed, AllocError>
        ensures { IfOk result (λ changed. changed ≡ []) }
    {
        Ok(Changed {
            digests: Vec::new(alloc),
            marks: vec![in alloc; false; MARKS]?,
        })
    }

    /// How many there are.
    pub fn len(&self) -> usize {
        self.digests.len()
    }

    /// Whether no number is among both.
    pub fn shares_none(&self, numbers: &[u64]) -> bool
        ensures { IsTrue result → ShareNone numbers.now self.now }
    {
        self.digests.is_empty() || !numbers.iter().any(|number| self.has(*number))
    }

    /// Whether none of the keys that were asked has one of these digests.
    #[inline(always)]
    pub fn shares_none_of(&self, log: &KeptLog<Env>) -> bool
        ensures { IsTrue result → ShareNone (map (λ e. key_digest e.0) log.now) self.now }
    {
        self.digests.is_empty() || !log.shares(self)
    }

    // Whether a digest is among them.
    fn has(&self, digest: u64) -> bool
        ensures { IsFalse result → Contains self.now digest → ⊥ }
    {
        match self.marks.get(mark_of(digest)) {
            Some(false) => false,
            _ => self.digests.contains(&digest),
        }
    }

    /// With those of the keys at which facts add.
    pub fn with(self, alloc: Global, facts: &Facts) -> Result<Changed, AllocError>
        ensures { IfOk result (λ changed. changed
            ≡ self ++ map (λ a. key_digest (key_of a)) facts.now.additions) }
    {
        let mut more = Vec::new(alloc);
        facts.digests_into(&mut more)?;
        self.with_all(more.as_slice())
    }

    /// With those of the keys at which facts add otherwise than others.
    pub fn with_differing(
        self,
        alloc: Global,
        facts: &Facts,
        others: &Facts,
    ) -> Result<Changed, AllocError>
        ensures { IfOk result (λ changed. changed
            ≡ self ++ map key_digest (differing facts.now.additions others.now.additions)) }
    {
        let mut more = Vec::new(alloc);
        facts.differing_into(others, &mut more)?;
        self.with_all(more.as_slice())
    }

    // With these.
    fn with_all(self, digests: &[u64]) -> Result<Changed, AllocError>
        ensures { IfOk result (λ changed. changed ≡ self ++ digests.now) }
    {
        let mut changed = self;
        for digest in digests {
            changed.push(*digest)?;
        }
        Ok(changed)
    }

    /// With one more.
    pub fn push(&mut self, digest: u64) -> Result<(), AllocError>
        ensures { OnOk result (self.new ≡ self.old ++ digest ∷ []) }
    {
        let place = mark_of(digest);
        if place < self.marks.len() {
            self.marks[place] = true;
        }
        self.digests.push(digest)?;
        Ok(())
    }
}

impl Digests for Changed {
    ghost use Rattle.std.specs.Prelude.{Contains};

    ghost has = { λ changed digest. Contains changed digest };

    fn has(&self, digest: u64) -> bool {
        Changed::has(self, digest)
    }
}

// The place of the mark of a digest.
fn mark_of(digest: u64) -> usize
    ensures { result ≡ mark_of digest }
{
    (digest >> 54) as usize
}
