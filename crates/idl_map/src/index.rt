//! Digests, and the buckets in which they find their places.

ghost use Rattle.std.specs.Prelude.{◌≡◌, ◌++◌, ◌∷◌, [], ℕ, ◌%◌, ◌<◌, ◌^◌, Some, IfOk, IsTrue, IsFalse, OnErr, length, slice_get, vec_len};
ghost use Rattle.std.specs.Int.{bit_at};
ghost use Rattle.idl_map.specs.Buckets.{AreKept, AreThere, Finds, FindsIn, HasAt, IsIndexed, IsOf, IsSpot, IsThere, Stands, StandsAt, number_beside, number_in, tag_of};

use crate::bits::{lowest, without};
use crate::buckets::{Buckets, tag_of};
use std::alloc::{AllocError, Global};

/// The buckets among which digests with one last six bits choose: the first of them, and how many there are, less one.
#[derive(Clone, Copy)]
pub struct Stripe {
    pub first: u32,
    pub mask: u32,
}

/// Where the places of a digest are: the number of its bucket, and its tag there.
#[derive(Clone, Copy)]
pub struct Slot {
    pub digest: u64,
    pub number: usize,
    pub tag: u8,
}

// How many parts there are.
const PARTS: usize = 64;

// A part doesn't grow where there are more buckets than so many.
const MANY: usize = 1 << 30;

/// Digests in order, and the places of each in the buckets of 64 parts. The last six bits of a digest choose the part, others the
/// bucket in it, and its first eight are its tag there.
///
/// At first all parts have one bucket. Where the bucket of a digest is full, its place goes into the one beside it. Where that is
/// full too, the part has others made behind all that there are, four times as many as before; those that it had stay unused.
#[derive(Drop)]
pub struct Index {
    digests: Vec<u64>,
    parts: Vec<Stripe>,
    buckets: Buckets,
}

impl Index {
    /// The index without digests.
    pub fn new(alloc: Global) -> Result<Index, AllocError>
        ensures sound { IfOk result (λ index. IsIndexed index) }
        ensures digests { IfOk result (λ index. index.digests.items ≡ []) }
    {
        let mut parts = Vec::new(alloc);
        parts.resize(PARTS, Stripe { first: 0, mask: 0 })?;
        let mut buckets = Buckets::new(alloc);
        buckets.extend(1)?;
        Ok(Index {
            digests: Vec::new(alloc),
            parts,
            buckets,
        })
    }

    /// The spot of a digest.
    #[inline]
    pub fn spot_of(&self, digest: u64) -> Slot
        requires { IsIndexed self.now }
        ensures digest { result.digest ≡ digest }
        ensures spot { IsSpot self.now.parts.items result }
    {
        let part = self.parts[(digest % 64) as usize];
        Slot {
            digest,
            number: number_in(part, digest),
            tag: tag_of(digest),
        }
    }

    /// The slots of a spot that have its tag: sixteen of its bucket, and where that is full, those of the one beside it.
    #[inline]
    pub fn marked(&self, spot: Slot) -> u64
        requires sound { IsIndexed self.now }
        requires spot { IsSpot self.now.parts.items spot }
        ensures { (slot i : ℕ) → Stands self.now spot.digest slot i → bit_at result slot ≡ 1 }
    {
        let marks = self.buckets.marked(spot.number, spot.tag);
        if self.buckets.is_full(spot.number) {
            return marks | self.marked_beside(spot.digest) << 16;
        }
        marks
    }

    // The slots that have the tag of a digest in the bucket beside its own. It stands apart, since few buckets are full.
    #[inline(never)]
    fn marked_beside(&self, digest: u64) -> u64
        requires { IsIndexed self.now }
        ensures small { result < 2 ^ 16 }
        ensures marked { (part : Stripe) → slice_get self.now.parts.items (digest % 64) ≡ Some part
            → (slot i : ℕ)
            → StandsAt self.now.buckets (number_beside part digest) slot (tag_of digest) i
            → bit_at result slot ≡ 1 }
    {
        let part = self.parts[(digest % 64) as usize];
        let number = number_beside(part, digest);
        self.buckets.marked(number, tag_of(digest))
    }

    /// The place in a slot of a spot.
    #[inline]
    pub fn place(&self, spot: Slot, slot: usize) -> usize
        requires sound { IsIndexed self.now }
        requires spot { IsSpot self.now.parts.items spot }
        ensures { (i : ℕ) → Stands self.now spot.digest slot i → result ≡ i }
    {
        if slot < 16 {
            return self.buckets.place(spot.number, slot) as usize;
        }
        self.place_beside(spot.digest, slot - 16)
    }

    // The place in a slot of the bucket beside the one of a digest.
    #[inline(never)]
    fn place_beside(&self, digest: u64, slot: usize) -> usize
        requires { IsIndexed self.now }
        ensures { (part : Stripe) → slice_get self.now.parts.items (digest % 64) ≡ Some part
            → (t i : ℕ) → StandsAt self.now.buckets (number_beside part digest) slot t i
            → result ≡ i }
    {
        let part = self.parts[(digest % 64) as usize];
        self.buckets.place(number_beside(part, digest), slot) as usize
    }

    /// Puts the digest of a spot last, unless there is no room for its place.
    #[inline(always)]
    pub fn push(&mut self, spot: Slot) -> Result<bool, AllocError>
        requires sound { IsIndexed self.old }
        requires spot { IsSpot self.old.parts.items spot }
        ensures sound { IsIndexed self.new }
        ensures pushed { IfOk result (λ there. IsTrue there
            → self.new.digests.items ≡ self.old.digests.items ++ spot.digest ∷ []) }
        ensures full { IfOk result (λ there. IsFalse there
            → self.new.digests.items ≡ self.old.digests.items) }
        ensures err { OnErr result (self.new.digests.items ≡ self.old.digests.items) }
    {
        let place = self.digests.len();
        if place > u32::MAX as usize || !self.find_room(spot, place as u32)? {
            return Ok(false);
        }
        self.digests.push(spot.digest)?;
        Ok(true)
    }

    // Puts a place in at a spot, or where its bucket is full, at its digest.
    #[inline]
    fn find_room(&mut self, spot: Slot, place: u32) -> Result<bool, AllocError>
        requires sound { IsIndexed self.old }
        requires spot { IsSpot self.old.parts.items spot }
        ensures sound { IsIndexed self.new }
        ensures digests { self.new.digests.items ≡ self.old.digests.items }
        ensures found { IfOk result (λ there. IsTrue there
            → Finds self.new spot.digest place) }
    {
        if self.put(spot, place) {
            return Ok(true);
        }
        self.make_room(spot.digest, place)
    }

    // Puts a place in at a digest, at once or when its part has more buckets. It may get more of them twice.
    #[inline(never)]
    fn make_room(&mut self, digest: u64, place: u32) -> Result<bool, AllocError>
        requires { IsIndexed self.old }
        ensures sound { IsIndexed self.new }
        ensures digests { self.new.digests.items ≡ self.old.digests.items }
        ensures found { IfOk result (λ there. IsTrue there → Finds self.new digest place) }
    {
        if self.put_beside(digest, place) {
            return Ok(true);
        }
        self.grow(digest)?;
        if self.put_beside(digest, place) {
            return Ok(true);
        }
        // Where the first bucket of all parts has one part's alone, the one that the part gets is full at once.
        self.grow(digest)?;
        Ok(self.put_beside(digest, place))
    }

    // Puts a place in at a spot, unless its bucket is full.
    #[inline]
    fn put(&mut self, spot: Slot, place: u32) -> bool
        requires sound { IsIndexed self.old }
        requires spot { IsSpot self.old.parts.items spot }
        ensures sound { IsIndexed self.new }
        ensures digests { self.new.digests.items ≡ self.old.digests.items }
        ensures found { IsTrue result → Finds self.new spot.digest place }
    {
        self.buckets.put(spot.number, spot.tag, place)
    }

    // Puts a place in at a digest, unless its bucket is full and the one beside it too.
    fn put_beside(&mut self, digest: u64, place: u32) -> bool
        requires { IsIndexed self.old }
        ensures sound { IsIndexed self.new }
        ensures digests { self.new.digests.items ≡ self.old.digests.items }
        ensures found { IsTrue result → Finds self.new digest place }
    {
        let part = self.parts[(digest % 64) as usize];
        put_in(&mut self.buckets, part, digest, place)
    }

    // Gives the part of a digest four times as many buckets, unless there are many for so few digests.
    fn grow(&mut self, digest: u64) -> Result<(), AllocError>
        requires { IsIndexed self.old }
        ensures sound { IsIndexed self.new }
        ensures digests { self.new.digests.items ≡ self.old.digests.items }
    {
        let first = self.buckets.len();
        if first > self.digests.len().saturating_add(64) || first > MANY {
            return Ok(());
        }
        let number = (digest % 64) as usize;
        let old = self.parts[number];
        let part = wider(old, first as u32);
        self.buckets.extend(part.mask as usize + 1)?;
        let target = Target {
            part,
            number: digest % 64,
            digests: &self.digests,
        };
        if target.take_all(&mut self.buckets, old) {
            self.parts[number] = part;
        }
        Ok(())
    }
}

// A part of four times as many buckets as another has, the first of which has this number.
fn wider(part: Stripe, first: u32) -> Stripe
    ensures first { result.first ≡ first }
    ensures mask { result.mask < 2 ^ 31 }
{
    let mask = if part.first == 0 {
        0
    } else {
        part.mask % (1 << 29) * 4 + 3
    };
    Stripe { first, mask }
}

// The number of the bucket of a digest in its part.
#[inline]
#[tactic(auto, unfolding(crate::specs::Buckets::number_in))]
fn number_in(part: Stripe, digest: u64) -> usize
    ensures { result ≡ number_in part digest }
{
    part.first as usize + ((digest >> 32) as u32 & part.mask) as usize
}

// The number of the bucket beside it.
#[inline]
#[tactic(auto, unfolding(crate::specs::Buckets::number_beside))]
fn number_beside(part: Stripe, digest: u64) -> usize
    ensures { result ≡ number_beside part digest }
{
    part.first as usize + (((digest >> 32) as u32 ^ 1) & part.mask) as usize
}

// Puts a place in at a digest, unless its bucket is full, and the one beside it.
#[inline(always)]
fn put_in(buckets: &mut Buckets, part: Stripe, digest: u64, place: u32) -> bool
    requires { AreThere buckets.old part }
    ensures kept { AreKept buckets.old buckets.new }
    ensures put { IsTrue result → FindsIn part buckets.new digest place }
{
    let tag = tag_of(digest);
    buckets.put(number_in(part, digest), tag, place)
        || buckets.put(number_beside(part, digest), tag, place)
}

// A part that is to have the places of those digests that its number chooses.
#[derive(Clone, Copy)]
struct Target<'a> {
    part: Stripe,
    number: u64,
    digests: &'a [u64],
}

impl<'a> Target<'a> {
    // Puts the places of its digests in that another part has.
    fn take_all(&self, buckets: &mut Buckets, old: Stripe) -> bool
        requires own { AreThere buckets.old self.now.part }
        requires old { AreThere buckets.old old }
        ensures kept { AreKept buckets.old buckets.new }
        ensures taken { IsTrue result
            → (d i : ℕ) → IsOf self.now.digests.now self.now.number d i
            → FindsIn old buckets.old d i → FindsIn self.now.part buckets.new d i }
    {
        for ahead in 0..old.mask as usize + 1 {
            if !self.take(buckets, old.first as usize + ahead) {
                return false;
            }
        }
        true
    }

    // The same of those that a bucket has.
    #[inline]
    fn take(&self, buckets: &mut Buckets, number: usize) -> bool
        requires own { AreThere buckets.old self.now.part }
        requires there { IsThere buckets.old number }
        ensures kept { AreKept buckets.old buckets.new }
        ensures taken { IsTrue result
            → (d i : ℕ) → IsOf self.now.digests.now self.now.number d i
            → HasAt buckets.old number (tag_of d) i → FindsIn self.now.part buckets.new d i }
    {
        let mut marks = buckets.taken(number);
        while marks != 0 {
            let slot = lowest(marks);
            let place = buckets.place(number, slot);
            if !self.put(buckets, place) {
                return false;
            }
            marks = without(marks, slot);
        }
        true
    }

    // Puts a place in at its digest, if that is one of those.
    #[inline(always)]
    fn put(&self, buckets: &mut Buckets, place: u32) -> bool
        requires { AreThere buckets.old self.now.part }
        ensures kept { AreKept buckets.old buckets.new }
        ensures put { IsTrue result
            → (d : ℕ) → IsOf self.now.digests.now self.now.number d place
            → FindsIn self.now.part buckets.new d place }
    {
        match self.digests.get(place as usize) {
            Some(digest) => {
                *digest % 64 != self.number || put_in(buckets, self.part, *digest, place)
            }
            None => true,
        }
    }
}
