//! Where results are found, by their ranks.
//!
//! What is run goes into the gap that its look-up met, and the index says by contract what a gap is. What goes is found
//! by its number. Buckets stand in the library's hash map, of which a look-up waits once. Its hash is fixed, so buckets
//! can be made that share a place in it: none of their results is compared, but a look-up passes them.

ghost use Rattle.std.specs.Prelude.{◌≡◌, ◌≢◌, [], ℕ, All, Any, Contains, IfErr, IfOk, OnErr, OnOk, length, nat_eq, position};
ghost use Rattle.std.specs.List.{HoldsAt, list_any};
ghost use Rattle.std.specs.HashMap.{get};
ghost use Rattle.std.specs.List.Sorted.{IsSearchInRange};
ghost use Rattle.std.specs.declared.cmp.Ordering.TheVariants.{Equal};
ghost use Rattle.idl_store.specs.Buckets.{AddsOne, bucket_at};
ghost use Rattle.idl_store.specs.declared.index.Numbered.{Numbered};
ghost use Rattle.idl_store.specs.Index.{AddsTo, AreInOrder, IsAlone, IsGap, IsGapAmong, IsInOrder, bucket_in, buckets_of, numbered, numbered_cmp};

use crate::ranked::{Probe, Ranked, Test};
use std::alloc::{AllocError, Global};
use std::collections::HashMap;
use std::hash::{FoldHasher, Hash, Hasher};
use std::marker::Model;

// Of a bucket's number one half tells the hint, and the other the text.
const HALF: u64 = 1 << 32;

/// A result, and its number.
#[derive(Drop)]
pub(crate) struct Numbered<R> {
    pub result: R,
    pub number: usize,
}

/// Where a result would go: before the one at a place of a bucket, or behind its last one. A bucket that isn't there has none.
#[derive(Clone, Copy)]
pub(crate) struct Gap {
    pub(crate) bucket: u64,
    pub(crate) place: usize,
}

/// Results with their numbers, in buckets, and those of one bucket in their order. To every contract it is the buckets, each with
/// its number; which results one of a number has is all that a contract tells.
///
/// However many results a bucket has, a look-up compares few of them.
pub(crate) struct Index<R: Ranked> {
    buckets: HashMap<u64, Vec<Numbered<R>>>,
}

impl<R: Ranked> Model for Index<R> {
    ghost use Rattle.std.specs.Prelude.{ℕ, List};
    ghost use Rattle.idl_store.specs.Index.{IsInOrder, buckets_of};
    ghost use Rattle.idl_store.specs.declared.index.Numbered.{Numbered};

    ghost Value = { List (ℕ × List (Numbered R)) };

    ghost view = { λ index. buckets_of index.buckets };

    ghost invariant = { λ index. IsInOrder R.rank (buckets_of index.buckets) };
}

impl<R: Ranked> Drop for Index<R> {
    fn drop(self) {
        let Index { buckets: _buckets } = self;
    }
}

impl<R: Ranked> Index<R> {
    // No results. It takes no memory.
    pub(crate) fn new(alloc: Global) -> Index<R>
        ensures { result ≡ [] }
    {
        Index {
            buckets: HashMap::new(alloc),
        }
    }

    // Puts a result into the gap where one of its order would go.
    //
    // Want of memory leaves the index as it was.
    pub(crate) fn insert(
        &mut self,
        gap: Gap,
        kept: R,
        number: usize,
        alloc: Global,
    ) -> Result<(), AllocError>
        requires { IsGapAmong (λ other. R.rank other kept) self.old gap }
        ensures ok { OnOk result (AddsTo self.old self.new gap.bucket (numbered kept number)) }
        ensures err { OnErr result (self.new ≡ self.old) }
    {
        let item = Numbered {
            result: kept,
            number,
        };
        insert_at(&mut self.buckets, gap, item, alloc)
    }

    // Takes the result of a number out of its bucket. It takes no memory.
    pub(crate) fn remove(&mut self, bucket: u64, number: usize)
        requires { IsAlone number (bucket_in self.old bucket) }
        ensures one { (item : Numbered R) → item.number ≡ number
            → Contains (bucket_in self.old bucket) item → AddsTo self.new self.old bucket item }
        ensures gone { All (λ one. one.number ≢ number) (bucket_in self.new bucket) }
    {
        remove_at(&mut self.buckets, bucket, number);
    }

    // Gives back memory, where the results take an eighth of it or less. They stay, in whatever order.
    pub(crate) fn shrink(&mut self)
        ensures { (bucket : ℕ) → bucket_in self.new bucket ≡ bucket_in self.old bucket }
    {
        shrink_map(&mut self.buckets);
    }

    // The results of a bucket. It takes no memory.
    pub(crate) fn bucket(&self, bucket: u64) -> &[Numbered<R>]
        ensures value { result.now ≡ bucket_in self.now bucket }
        ensures order { AreInOrder (numbered_cmp R.rank) result.now }
    {
        match self.buckets.get(&bucket) {
            Some(results) => results.as_slice(),
            None => &[],
        }
    }

    // The number of a result of this bucket that a probe looks for, or the gap where one would go. It takes no memory.
    pub(crate) fn find<P: Probe<R>>(&self, bucket: u64, probe: &P) -> Result<usize, Gap>
        ensures found { IfOk result (λ number.
            Any (λ one. (P.stand probe.now one.result ≡ Equal) × (one.number ≡ number))
            (bucket_in self.now bucket)) }
        ensures gap { (kept : R)
            → All (λ one. P.stand probe.now one.result ≡ R.rank one.result kept)
            (bucket_in self.now bucket)
            → IfErr result (IsGapAmong (P.stand probe.now) self.now) }
        ensures bucket { IfErr result (λ gap. gap.bucket ≡ bucket) }
    {
        let results = self.bucket(bucket);
        match place_by(results, probe) {
            Ok(place) => Ok(results[place].number),
            Err(place) => Err(Gap { bucket, place }),
        }
    }
}

// Gives back memory, where the entries take an eighth of it or less. They stay, in whatever order.
fn shrink_map<V: Drop>(map: &mut HashMap<u64, V>)
    ensures { (key : ℕ) → get nat_eq map.new key ≡ get nat_eq map.old key }
{
    if map.capacity() / 8 >= map.len() {
        map.shrink_to_fit();
    }
}

// Puts an item into a gap.
//
// Want of memory leaves each bucket with the items that it had.
fn insert_at<R: Ranked>(
    buckets: &mut HashMap<u64, Vec<Numbered<R>>>,
    gap: Gap,
    item: Numbered<R>,
    alloc: Global,
) -> Result<(), AllocError>
    requires order { IsInOrder R.rank (buckets_of buckets.old) }
    requires gap { IsGapAmong (λ other. R.rank other item.result) (buckets_of buckets.old) gap }
    ensures ok { OnOk result
        (AddsTo (buckets_of buckets.old) (buckets_of buckets.new) gap.bucket item) }
    ensures err { OnErr result (buckets_of buckets.new ≡ buckets_of buckets.old) }
    ensures order { IsInOrder R.rank (buckets_of buckets.new) }
{
    if let Some(results) = buckets.get_mut(&gap.bucket) {
        return insert_in(results, gap.place, item);
    }
    insert_alone(buckets, gap.bucket, item, alloc)
}

// Puts an item into a bucket of its own.
fn insert_alone<R: Ranked>(
    buckets: &mut HashMap<u64, Vec<Numbered<R>>>,
    bucket: u64,
    item: Numbered<R>,
    alloc: Global,
) -> Result<(), AllocError>
    requires order { IsInOrder R.rank (buckets_of buckets.old) }
    requires apart { bucket_in (buckets_of buckets.old) bucket ≡ [] }
    ensures ok { OnOk result
        (AddsTo (buckets_of buckets.old) (buckets_of buckets.new) bucket item) }
    ensures err { OnErr result (buckets_of buckets.new ≡ buckets_of buckets.old) }
    ensures order { IsInOrder R.rank (buckets_of buckets.new) }
{
    let mut results = Vec::with_capacity(alloc, 1)?;
    results.push(item)?;
    buckets.insert(bucket, results)?;
    Ok(())
}

// Puts an item into a gap of its bucket.
fn insert_in<R: Ranked>(
    bucket: &mut Vec<Numbered<R>>,
    place: usize,
    item: Numbered<R>,
) -> Result<(), AllocError>
    requires order { AreInOrder (numbered_cmp R.rank) bucket.old.items }
    requires gap { IsGap (λ one. numbered_cmp R.rank one item)
        bucket.old.items place }
    ensures ok { OnOk result (AddsOne bucket.old.items bucket.new.items item) }
    ensures err { OnErr result (bucket.new.items ≡ bucket.old.items) }
    ensures order { AreInOrder (numbered_cmp R.rank) bucket.new.items }
{
    bucket.insert(place, item)?;
    Ok(())
}

// Takes the item of a number out of a bucket, and a bucket that is left empty too.
fn remove_at<R: Ranked>(buckets: &mut HashMap<u64, Vec<Numbered<R>>>, bucket: u64, number: usize)
    requires order { IsInOrder R.rank (buckets_of buckets.old) }
    requires alone { IsAlone number (bucket_in (buckets_of buckets.old) bucket) }
    ensures one { (item : Numbered R) → item.number ≡ number
        → Contains (bucket_in (buckets_of buckets.old) bucket) item
        → AddsTo (buckets_of buckets.new) (buckets_of buckets.old) bucket item }
    ensures gone { All (λ one. one.number ≢ number) (bucket_in (buckets_of buckets.new) bucket) }
    ensures order { IsInOrder R.rank (buckets_of buckets.new) }
{
    let Some(results) = buckets.get_mut(&bucket) else {
        return;
    };
    remove_in(results, number);
    if results.is_empty() {
        buckets.remove(&bucket);
    }
}

// Takes out the item of a number, where there is one.
fn remove_in<R: Ranked>(bucket: &mut Vec<Numbered<R>>, number: usize)
    requires order { AreInOrder (numbered_cmp R.rank) bucket.old.items }
    requires alone { IsAlone number bucket.old.items }
    ensures one { (item : Numbered R) → item.number ≡ number → Contains bucket.old.items item
        → AddsOne bucket.new.items bucket.old.items item }
    ensures gone { All (λ one. one.number ≢ number) bucket.new.items }
    ensures order { AreInOrder (numbered_cmp R.rank) bucket.new.items }
{
    if let Some(place) = place_of(bucket, number) {
        bucket.remove(place);
    }
}

// The place of the first item of a number, or nothing.
fn place_of<R>(bucket: &[Numbered<R>], number: usize) -> Option<usize>
    ensures { result ≡ position (λ one. nat_eq one.number number) bucket.now }
{
    bucket.iter().position(|one| one.number == number)
}

// Whether one of these passes a test.
pub(crate) fn has_passing<R, Q: Test<R>>(results: &[Numbered<R>], test: &Q) -> bool
    ensures { result ≡ list_any (λ one. Q.passes test.now one.result) results.now }
{
    results.iter().any(|one| test.passes(&one.result))
}

// Where the result stands that a probe looks for, or the gap where one would go.
fn place_by<R: Ranked, P: Probe<R>>(bucket: &[Numbered<R>], probe: &P) -> Result<usize, usize>
    requires { AreInOrder (numbered_cmp R.rank) bucket.now }
    ensures within { IsSearchInRange result (length bucket.now) }
    ensures found { IfOk result
        (HoldsAt (λ one. P.stand probe.now one.result ≡ Equal) bucket.now) }
    ensures absent { (other : R)
        → All (λ one. P.stand probe.now one.result ≡ R.rank one.result other) bucket.now
        → IfErr result (IsGap (λ one. P.stand probe.now one.result) bucket.now) }
{
    bucket.binary_search_by(
        |one|
            ensures { result ≡ P.stand probe.entry.now one.now.result }
        { probe.stand(&one.result) },
    )
}

// The number of the bucket of a text under a hint.
#[tactic(auto, unfolding(crate::specs::Buckets::digest))]
pub(crate) fn bucket_of<T: Hash>(text: &T, hint: u64) -> u64
    ensures { result ≡ bucket_at T.hash_input text.now hint }
{
    let mut state = FoldHasher::default();
    text.hash(&mut state);
    hint / HALF * HALF + state.finish() / HALF
}
