//! Buckets of places, each of which has a tag.
//!
//! Most look-ups find nothing: then 16 bytes are read, and an entry is touched in one of fifty.

ghost use Rattle.std.specs.Prelude.{◌≡◌, ◌↔◌, ◌<◌, ◌+◌, ◌^◌, ℕ, IfNone, IfSome, IsFalse, IsTrue, OnOk, Some, length, slice_index};
ghost use Rattle.std.specs.Int.{bit_at};
ghost use Rattle.idl_map.specs.Buckets.{AreKept, HasAt, IsFull, IsThere, StandsAt, tag_of};

use crate::bits::lowest;
use std::alloc::{AllocError, Global};
use std::simd::prelude::*;

/// Buckets of sixteen slots. A slot has the place of an entry, and its tag, eight bits of the digest of the entry's key; an empty
/// one has the tag 0.
///
/// The tags of all buckets stand apart from the places, so that to see that a tag isn't in a bucket reads its 16 bytes alone.
#[derive(Drop)]
pub struct Buckets {
    tags: Vec<[u8; 16]>,
    places: Vec<[u32; 16]>,
}

impl Buckets {
    /// No bucket. It takes no memory.
    pub fn new(alloc: Global) -> Buckets
        ensures { length result.tags.items ≡ 0 }
    {
        Buckets {
            tags: Vec::new(alloc),
            places: Vec::new(alloc),
        }
    }

    /// How many there are.
    pub fn len(&self) -> usize
        ensures { result ≡ length self.now.tags.items }
    {
        self.tags.len()
    }

    /// Puts so many empty ones behind them.
    pub fn extend(&mut self, count: usize) -> Result<(), AllocError>
        requires { length self.old.tags.items + count < 2 ^ 32 }
        ensures kept { AreKept self.old self.new }
        ensures there { OnOk result
            ((number : ℕ) → number < length self.old.tags.items + count → IsThere self.new number) }
    {
        let all = self.tags.len() + count;
        self.tags.resize(all, [0; 16])?;
        self.places.resize(all, [0; 16])
    }

    /// The slots of a bucket that have a tag.
    #[inline]
    pub fn marked(&self, number: usize, tag: u8) -> u64
        requires there { IsThere self.now number }
        requires tag { 0 < tag }
        ensures small { result < 2 ^ 16 }
        ensures marked { (slot i : ℕ) → StandsAt self.now number slot tag i → bit_at result slot ≡ 1 }
    {
        lanes_with(u8x16::from_array(self.tags[number]), tag)
    }

    /// The slots of a bucket that aren't empty.
    #[inline]
    pub fn taken(&self, number: usize) -> u64
        requires { IsThere self.now number }
        ensures { (slot tag i : ℕ) → 0 < tag
            → StandsAt self.now number slot tag i → bit_at result slot ≡ 1 }
    {
        lanes_above(u8x16::from_array(self.tags[number]))
    }

    /// The place in a slot of a bucket.
    #[inline]
    pub fn place(&self, number: usize, slot: usize) -> u32
        requires { IsThere self.now number }
        ensures { (t i : ℕ) → StandsAt self.now number slot t i → result ≡ i }
    {
        if slot < 16 {
            self.places[number][slot]
        } else {
            0
        }
    }

    /// Whether a bucket is full: its last slot is the last to be taken.
    #[inline]
    pub fn is_full(&self, number: usize) -> bool
        requires { IsThere self.now number }
        ensures { IsTrue result ↔ IsFull self.now number }
    {
        self.tags[number][15] != 0
    }

    /// Puts a place in a bucket with its tag, unless the bucket is full.
    #[inline]
    pub fn put(&mut self, number: usize, tag: u8, place: u32) -> bool
        requires { IsThere self.old number }
        ensures kept { AreKept self.old self.new }
        ensures put { IsTrue result → HasAt self.new number tag place }
        ensures full { IsFalse result → IsFull self.new number }
    {
        let Some(slot) = empty_slot(&self.tags[number]) else {
            return false;
        };
        let tags = &mut self.tags[number];
        tags[slot] = tag;
        let places = &mut self.places[number];
        places[slot] = place;
        true
    }
}

// A slot that is empty by its tag, or nothing.
#[inline(always)]
fn empty_slot(tags: &[u8; 16]) -> Option<usize>
    ensures below { IfSome result (λ slot. slot < 16) }
    ensures empty { IfSome result (λ slot. slice_index tags.now slot ≡ 0) }
    ensures full { IfNone result (0 < slice_index tags.now 15) }
{
    let empty = lanes_with(u8x16::from_array(*tags), 0);
    if empty == 0 {
        return None;
    }
    Some(lowest(empty))
}

/// The tag of a digest: its first eight bits, but 1 where these are 0.
#[inline]
#[tactic(auto, unfolding(crate::specs::Buckets::tag_of))]
pub fn tag_of(digest: u64) -> u8
    ensures value { result ≡ tag_of digest }
    ensures there { 0 < result }
{
    let first = (digest >> 56) as u8;
    if first == 0 { 1 } else { first }
}

// The lanes that have a tag.
#[inline]
fn lanes_with(tags: u8x16, tag: u8) -> u64
    ensures small { result < 2 ^ 16 }
    ensures set { (slot : ℕ) → slot < 16 → slice_index tags slot ≡ tag → bit_at result slot ≡ 1 }
    ensures below { (slot : ℕ) → bit_at result slot ≡ 1 → slot < 16 }
    ensures tagged { (slot : ℕ) → bit_at result slot ≡ 1 → slice_index tags slot ≡ tag }
{
    tags.simd_eq(u8x16::splat(tag)).to_bitmask()
}

// The lanes that have a tag which isn't 0.
#[inline]
fn lanes_above(tags: u8x16) -> u64
    ensures { (slot : ℕ) → slot < 16 → 0 < slice_index tags slot → bit_at result slot ≡ 1 }
{
    tags.simd_ne(u8x16::splat(0)).to_bitmask()
}
