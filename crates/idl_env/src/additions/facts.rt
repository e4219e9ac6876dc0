//! What a unit adds.

ghost use Rattle.std.specs.Prelude.{◌≡◌, ◌<◌, ◌++◌, ◌∷◌, [], IfOk, IfSome, IsFalse, IsNone, IsTrue, None, OnErr, OnOk, length, slice_get};
ghost use Rattle.std.specs.Map.{lookup};
ghost use Rattle.std.specs.Option.{option_copied};
ghost use Rattle.idl_map.specs.Marks.{AreMarked};
ghost use Rattle.idl_env.specs.Differing.{has_alike};
ghost use Rattle.idl_env.specs.Facts.{addition_at, key_of, operations_among, with_addition};
ghost use Rattle.idl_env.specs.Turns.{bases_among};
ghost use Rattle.idl_env.specs.keys.Key.{key_digest, key_eq};
ghost use Rattle.idl_env.specs.declared.additions.addition.Step.TheVariants.{Stays};
ghost use Rattle.idl_env.specs.declared.additions.facts.TheConstants.{FEW};

use crate::additions::addition::{Addition, Step};
use crate::additions::digested_addition::{
    DigestedAddition, asked_among, is_digest_among, is_operation_among, place_among,
};
use crate::additions::room::Room;
use crate::answering::count::sum;
use crate::keys::digested::DigestedKey;
use crate::keys::lent_key::LentKey;
use idl_map::{Lent, Marks, RareTable};
use std::alloc::{AllocError, Global};
use std::marker::Model;
use std::mem::replace;

// So many additions are gone through, where more are found in a table.
const FEW: usize = 32;

// Most units add no more than these.
const USUAL: usize = 8;

/// What a unit adds, or its earlier tokens: names that are declared and introduced, and then how the open scopes change.
///
/// Most units add little: so the first additions stand in a list that is gone through by the digests of their keys, and makes
/// none of these keys. Whether it is worth while is told by marks of these digests. Those behind them are found in a table.
pub struct Facts {
    alloc: Global,
    first: Vec<DigestedAddition>,
    // The marks of the digests of all keys: where a digest's is not among them, no addition is at such a key.
    marks: Marks<1>,
    others: RareTable<DigestedKey, DigestedAddition>,
    // How many there are of both.
    count: usize,
    step: Step,
}

impl Model for Facts {
    ghost use Rattle.std.specs.Prelude.{◌≡◌, ◌+◌, ◌++◌, length, map};
    ghost use Rattle.idl_map.specs.Marks.{AreMarked};
    ghost use Rattle.idl_env.specs.Facts.{UnitFacts, addition_at};
    ghost use Rattle.idl_env.specs.Held.{HaveOwnKeys};
    ghost use Rattle.idl_env.specs.keys.Key.{key_digest};

    ghost Value = { UnitFacts };

    ghost view = { λ facts. record {
      additions = facts.first.items ++ map (λ e. e.1) facts.others;
      step = facts.step;
    } };

    ghost invariant = { λ facts.
        HaveOwnKeys facts.others
        × ((facts.count ≡ length facts.first.items + length facts.others)
        × AreMarked facts.marks key_digest
        (addition_at (facts.first.items ++ map (λ e. e.1) facts.others))) };
}

impl Drop for Facts {
    fn drop(self) {
        let Facts {
            alloc: _alloc,
            first: _first,
            marks: _marks,
            others: _others,
            count: _count,
            step: _step,
        } = self;
    }
}

impl Facts {
    /// Nothing is added, and the open scopes are as before. It takes no memory.
    pub fn new(alloc: Global) -> Facts
        ensures { result ≡ record { additions = []; step = Stays } }
    {
        Facts::of(alloc, Vec::new(alloc))
    }

    /// The same, where the first additions take the room that there is.
    pub fn within(alloc: Global, room: &mut Room) -> Facts
        ensures { result ≡ record { additions = []; step = Stays } }
    {
        Facts::of(alloc, room.list())
    }

    // The same, where the first additions go to this list.
    fn of(alloc: Global, first: Vec<DigestedAddition>) -> Facts
        requires { first.items ≡ [] }
        ensures { result ≡ record { additions = []; step = Stays } }
    {
        Facts {
            alloc,
            first,
            marks: Marks::new(),
            others: RareTable::new(),
            count: 0,
            step: Step::Stays,
        }
    }

    /// One addition more, which takes the place of one at its key.
    #[inline(always)]
    pub fn add(&mut self, addition: Addition) -> Result<(), AllocError>
        ensures { OnOk result
            (self.new
            ≡ record self.old { additions = with_addition self.old.additions addition }) }
    {
        let addition = DigestedAddition::of(addition);
        if !has_room(&self.first, &self.others) {
            return self.put(addition);
        }
        if may_be_among(&self.marks, self.first.as_slice(), &addition) {
            return self.put(addition);
        }
        let digest = addition.digest();
        push(&mut self.first, addition)?;
        self.marks.mark(digest);
        self.count += 1;
        Ok(())
    }

    // The same, where there may be one at its key, or there are many. It stands apart, since most additions are few and new.
    #[inline(never)]
    fn put(&mut self, addition: DigestedAddition) -> Result<(), AllocError>
        ensures { OnOk result
            (self.new
            ≡ record self.old { additions = with_addition self.old.additions addition }) }
    {
        let Some(count) = self.count.checked_add(1) else {
            return Err(AllocError);
        };
        self.marks.mark(addition.digest());
        if let Some(place) = place_among(self.first.as_slice(), &addition) {
            self.first[place] = addition;
            return Ok(());
        }
        if has_room(&self.first, &self.others) {
            self.first.push(addition)?;
            self.count = count;
            return Ok(());
        }
        let key = addition.key(self.alloc)?;
        let is_new = !self.others.contains(&key);
        self.others.insert(self.alloc, key, addition)?;
        if is_new {
            self.count = count;
        }
        Ok(())
    }

    /// These additions, and this change of the open scopes.
    pub fn then(&mut self, step: Step)
        ensures { self.new ≡ record self.old { step = step } }
    {
        self.step = step;
    }

    /// The addition at a key, or nothing. It takes memory only where there are many additions.
    pub fn get(&self, key: &LentKey<'_>) -> Result<Option<&Addition>, AllocError>
        ensures { IfOk result (λ a. option_copied a ≡ addition_at self.now.additions key.now) }
    {
        if !self.marks.has(key.digest()) {
            return Ok(None);
        }
        self.find(key)
    }

    // The same, where an addition may be at the key. It stands apart, since none is at most keys.
    #[inline(never)]
    fn find(&self, key: &LentKey<'_>) -> Result<Option<&Addition>, AllocError>
        ensures { IfOk result (λ a. option_copied a ≡ addition_at self.now.additions key.now) }
    {
        match asked_among(self.first.as_slice(), key) {
            Some(place) => Ok(Some(self.first[place].addition())),
            None => behind(&self.others, key),
        }
    }

    /// Whether the addition at the key of another is alike to it.
    pub(crate) fn has_alike(&self, other: &DigestedAddition) -> Result<bool, AllocError>
        ensures { IfOk result (λ alike. alike ≡ has_alike self.now.additions other.now) }
    {
        match self.at_key_of(other)? {
            Some(addition) => other.addition().is_alike(self.alloc, addition),
            None => Ok(false),
        }
    }

    // The addition at the key of another, or nothing. It takes memory only where there are many additions.
    fn at_key_of(&self, other: &DigestedAddition) -> Result<Option<&Addition>, AllocError>
        ensures { IfOk result (λ a.
            option_copied a ≡ addition_at self.now.additions (key_of other.now)) }
    {
        if !self.marks.has(other.digest()) {
            return Ok(None);
        }
        match place_among(self.first.as_slice(), other) {
            Some(place) => Ok(Some(self.first[place].addition())),
            None => behind_at(self.alloc, &self.others, other),
        }
    }

    /// How many additions there are.
    pub fn len(&self) -> usize
        ensures { result ≡ length self.now.additions }
    {
        self.count
    }

    /// How many bases the additions name. More than memory can hold are want of it.
    pub(crate) fn bases(&self) -> Result<usize, AllocError>
        ensures { IfOk result (λ n. n ≡ length (bases_among self.now.additions)) }
    {
        let mut bases = 0usize;
        for index in 0..self.len() {
            let Some(addition) = self.addition(index) else {
                continue;
            };
            bases = sum(bases, addition.bases().len())?;
        }
        Ok(bases)
    }

    /// The addition at a place in their order, or nothing past the last.
    pub fn addition(&self, index: usize) -> Option<&Addition>
        ensures { option_copied result ≡ slice_get self.now.additions index }
    {
        Some(self.digested(index)?.addition())
    }

    /// The addition at a place in their order with the digest of its key, or nothing past the last.
    pub(crate) fn digested(&self, index: usize) -> Option<&DigestedAddition>
        ensures { option_copied result ≡ slice_get self.now.additions index }
    {
        if index < self.first.len() {
            return Some(&self.first[index]);
        }
        let (_key, addition) = self.others.get_index(index - self.first.len())?;
        Some(addition)
    }

    /// Whether an operation or attribute may be declared among them.
    pub(crate) fn has_operations(&self) -> bool
        ensures { IsFalse result → operations_among self.now.additions ≡ [] }
    {
        !self.others.is_empty() || is_operation_among(self.first.as_slice())
    }

    /// The additions in order, taken out, unless they are many.
    pub(crate) fn take_few(&mut self) -> Option<Vec<DigestedAddition>>
        ensures few { IfSome result (λ few. few.items ≡ self.old.additions) }
        ensures many { IsNone result → self.new ≡ self.old }
        ensures step { self.new.step ≡ self.old.step }
    {
        if !self.others.is_empty() {
            return None;
        }
        self.count = 0;
        Some(replace(&mut self.first, Vec::new(self.alloc)))
    }

    /// These facts, in no more memory than they need; none are left here.
    pub(crate) fn taken(&mut self) -> Result<Facts, AllocError>
        ensures { IfOk result (λ facts. facts ≡ self.old) }
    {
        let mut first = Vec::with_capacity(self.alloc, self.first.len())?;
        first.append(&mut self.first)?;
        let all = self.count;
        self.count = 0;
        Ok(Facts {
            alloc: self.alloc,
            first,
            marks: replace(&mut self.marks, Marks::new()),
            others: replace(&mut self.others, RareTable::new()),
            count: all,
            step: replace(&mut self.step, Step::Stays),
        })
    }

    /// A list without additions, taken out if there is none in it.
    pub(crate) fn take_list(&mut self) -> Vec<DigestedAddition>
        ensures list { result.items ≡ [] }
        ensures kept { self.new ≡ self.old }
    {
        let none = Vec::new(self.alloc);
        if self.first.is_empty() {
            return replace(&mut self.first, none);
        }
        none
    }

    /// A list without additions, given back where there is none.
    pub(crate) fn give_list(&mut self, list: Vec<DigestedAddition>)
        requires { list.items ≡ [] }
        ensures { self.new ≡ self.old }
    {
        if self.first.is_empty() {
            self.first = list;
        }
    }

    /// How the open scopes change.
    pub fn step(&self) -> &Step
        ensures { result.now ≡ self.now.step }
    {
        &self.step
    }
}

// Puts an addition last. There is room for the usual number of them from the first one on.
#[inline(always)]
fn push(first: &mut Vec<DigestedAddition>, addition: DigestedAddition) -> Result<(), AllocError>
    ensures items { OnOk result (first.new.items ≡ first.old.items ++ addition ∷ []) }
    ensures err { OnErr result (first.new.items ≡ first.old.items) }
{
    if first.is_empty() {
        first.reserve(USUAL)?;
    }
    first.push(addition)?;
    Ok(())
}

// Whether one more goes to the first additions.
fn has_room(
    first: &Vec<DigestedAddition>,
    others: &RareTable<DigestedKey, DigestedAddition>,
) -> bool
    ensures few { IsTrue result → length first.now.items < FEW }
    ensures none { IsTrue result → others.now ≡ [] }
{
    first.len() < FEW && others.is_empty()
}

// The addition at a key among those behind the first ones.
fn behind<'a>(
    others: &'a RareTable<DigestedKey, DigestedAddition>,
    key: &LentKey<'_>,
) -> Result<Option<&'a Addition>, AllocError>
    ensures { IfOk result (λ a. option_copied a ≡ lookup (key_eq key.now) others.now) }
{
    if others.is_empty() {
        return Ok(None);
    }
    let key = key.owned()?;
    match others.get(&key) {
        Some(addition) => Ok(Some(addition.addition())),
        None => Ok(None),
    }
}

// The one at the key of another among those behind the first ones.
fn behind_at<'a>(
    alloc: Global,
    others: &'a RareTable<DigestedKey, DigestedAddition>,
    other: &DigestedAddition,
) -> Result<Option<&'a Addition>, AllocError>
    ensures { IfOk result (λ a.
        option_copied a ≡ lookup (key_eq (key_of other.now)) others.now) }
{
    if others.is_empty() {
        return Ok(None);
    }
    let key = other.key(alloc)?;
    match others.get(&key) {
        Some(addition) => Ok(Some(addition.addition())),
        None => Ok(None),
    }
}

// Whether one of the additions, of which these are the marks, may be at the key of another.
#[inline]
fn may_be_among(marks: &Marks<1>, additions: &[DigestedAddition], other: &DigestedAddition) -> bool
    requires { AreMarked marks.now key_digest (addition_at additions.now) }
    ensures { IsFalse result → addition_at additions.now (key_of other.now) ≡ None }
{
    marks.has(other.digest()) && is_digest_among(additions, other)
}
