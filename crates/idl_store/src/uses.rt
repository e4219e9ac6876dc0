//! What a look-up finds and a run leaves goes into drafts, and what is used no more goes.

ghost use Rattle.std.specs.Prelude.{◌≡◌, ◌<◌, ◌≤◌, ◌+◌, ◌^◌, ◌∷◌, [], ℕ, All, IfOk, IsSome, IsTrue, OnErr, OnOk, Some, length, vec_len};
ghost use Rattle.slab.specs.Slab.{get, SameValues};
ghost use Rattle.idl_store.specs.Index.{AddsTo, IsGapAmong, numbered};
ghost use Rattle.idl_store.specs.Numbers.{AreFewer, AreMore, AreUsed, IsIndexOf, IsPut, drafts_of, result_of, times, uses_of};
ghost use Rattle.idl_store.specs.Stored.{results_of_drafts, with_results};

use crate::index::{Gap, Index};
use crate::numbers::{Draft, Used, last_len, push_numbers};
use crate::ranked::Ranked;
use slab::Slab;
use std::alloc::AllocError;

// The result of this number goes into the last draft too; where there is none, it goes nowhere.
//
// Want of memory leaves all as it was.
pub(crate) fn use_again<R: Ranked>(
    used: &mut Slab<Used<R>>,
    drafts: &mut Vec<Draft>,
    number: usize,
) -> Result<R, AllocError>
    requires { IsSome (get used.old number) }
    ensures kept { IfOk result (λ kept. result_of used.old number ≡ Some kept) }
    ensures drafts { OnOk result (drafts_of drafts.new.items
        ≡ with_results (drafts_of drafts.old.items) (number ∷ [])) }
    ensures uses { OnOk result (AreMore used.old used.new
        (results_of_drafts (drafts_of drafts.old.items))
        (results_of_drafts (drafts_of drafts.new.items))) }
    ensures err { OnErr result ((used.new ≡ used.old)
        × (drafts_of drafts.new.items ≡ drafts_of drafts.old.items)) }
    ensures count { vec_len drafts.new ≡ vec_len drafts.old }
{
    let kept = used[number].result.again()?;
    use_all_again(used, drafts, &[number])?;
    Ok(kept)
}

// The results of these numbers go into the last draft too; where there is none, they go nowhere.
//
// Want of memory leaves all as it was.
pub(crate) fn use_all_again<R>(
    used: &mut Slab<Used<R>>,
    drafts: &mut Vec<Draft>,
    numbers: &[usize],
) -> Result<(), AllocError>
    requires { All (λ n. IsSome (get used.old n)) numbers.now }
    ensures drafts { OnOk result (drafts_of drafts.new.items
        ≡ with_results (drafts_of drafts.old.items) numbers.now) }
    ensures uses { OnOk result (AreMore used.old used.new
        (results_of_drafts (drafts_of drafts.old.items))
        (results_of_drafts (drafts_of drafts.new.items))) }
    ensures err { OnErr result ((used.new ≡ used.old)
        × (drafts_of drafts.new.items ≡ drafts_of drafts.old.items)) }
    ensures count { vec_len drafts.new ≡ vec_len drafts.old }
{
    if drafts.is_empty() {
        return Ok(());
    }
    if !have_room(used, numbers) {
        return Err(AllocError);
    }
    let place = last_len(drafts);
    push_numbers(drafts, numbers)?;
    count_uses(used, numbers, place);
    Ok(())
}

// Whether each of these numbers can be used so many times more.
fn have_room<R>(used: &Slab<Used<R>>, numbers: &[usize]) -> bool
    requires { All (λ n. IsSome (get used.now n)) numbers.now }
    ensures { IsTrue result
        → All (λ n. uses_of used.now n + length numbers.now < 2 ^ 64) numbers.now }
{
    for number in numbers {
        let Some(_uses) = used[*number].uses.checked_add(numbers.len()) else {
            return false;
        };
    }
    true
}

// Each of these numbers is used once more for each place at which it is among them: they stand from a place on now.
fn count_uses<R>(used: &mut Slab<Used<R>>, numbers: &[usize], place: usize)
    requires some { All (λ n. IsSome (get used.old n)) numbers.now }
    requires room { All (λ n. uses_of used.old n + length numbers.now < 2 ^ 64) numbers.now }
    ensures { AreMore used.old used.new [] numbers.now }
{
    let mut place = place;
    for number in numbers {
        let one = &mut used[*number];
        one.uses += 1;
        one.place = place;
        place = place.saturating_add(1);
    }
}

// A new result goes into the last draft, and into the gap that was found for it.
//
// Want of memory leaves all as it was.
pub(crate) fn put<R: Ranked>(
    used: &mut Slab<Used<R>>,
    index: &mut Index<R>,
    drafts: &mut Vec<Draft>,
    kept: R,
    gap: Gap,
) -> Result<(), AllocError>
    requires some { 0 < vec_len drafts.old }
    requires gap { IsGapAmong (λ other. R.rank other kept) index.old gap }
    ensures ok { OnOk result ((number : ℕ) × IsPut used.old used.new kept gap.bucket number
        × (drafts_of drafts.new.items ≡ with_results (drafts_of drafts.old.items) (number ∷ []))
        × AddsTo index.old index.new gap.bucket (numbered kept number)) }
    ensures err { OnErr result (((n : ℕ) → get used.new n ≡ get used.old n)
        × (drafts_of drafts.new.items ≡ drafts_of drafts.old.items)
        × (index.new ≡ index.old)) }
    ensures count { vec_len drafts.new ≡ vec_len drafts.old }
{
    let Some(draft) = drafts.last_mut() else {
        return Ok(());
    };
    draft.numbers.reserve(1)?;
    used.reserve(1)?;
    let number = used.vacant_key();
    let place = draft.numbers.len();
    index.insert(gap, kept.again()?, number, *draft.numbers.allocator())?;
    used.insert_reserved(Used {
        result: kept,
        uses: 1,
        bucket: gap.bucket,
        place,
    });
    draft.numbers.push_reserved(number);
    Ok(())
}

// Gives back memory, where the values take an eighth of it or less. They stay under their numbers.
pub(crate) fn shrink_slab<R: Drop>(used: &mut Slab<R>)
    ensures { SameValues used.old used.new }
{
    if used.capacity() / 8 >= used.len() {
        used.shrink_to_fit();
    }
}

// The uses of these drafts are given up, and they are left out. It takes no memory.
pub(crate) fn release_drafts<R: Ranked>(
    used: &mut Slab<Used<R>>,
    index: &mut Index<R>,
    drafts: &mut Vec<Draft>,
)
    requires uses { (n : ℕ)
        → times n (results_of_drafts (drafts_of drafts.old.items)) ≤ uses_of used.old n }
    requires used { AreUsed used.old }
    requires indexed { IsIndexOf used.old index.old }
    ensures drafts { drafts.new.items ≡ [] }
    ensures fewer { AreFewer used.old used.new (results_of_drafts (drafts_of drafts.old.items)) }
    ensures used { AreUsed used.new }
    ensures indexed { IsIndexOf used.new index.new }
{
    for draft in drafts.as_slice() {
        release(used, index, &draft.numbers);
    }
    drafts.clear();
}

// These uses are given up, and each result that has no other goes. It takes no memory.
pub(crate) fn release<R: Ranked>(used: &mut Slab<Used<R>>, index: &mut Index<R>, numbers: &[usize])
    requires uses { (n : ℕ) → times n numbers.now ≤ uses_of used.old n }
    requires used { AreUsed used.old }
    requires indexed { IsIndexOf used.old index.old }
    ensures fewer { AreFewer used.old used.new numbers.now }
    ensures used { AreUsed used.new }
    ensures indexed { IsIndexOf used.new index.new }
{
    for number in numbers {
        release_one(used, index, *number);
    }
}

// A use of the result of this number is given up. If it has no other, the result goes.
fn release_one<R: Ranked>(used: &mut Slab<Used<R>>, index: &mut Index<R>, number: usize)
    requires one { 0 < uses_of used.old number }
    requires used { AreUsed used.old }
    requires indexed { IsIndexOf used.old index.old }
    ensures fewer { AreFewer used.old used.new (number ∷ []) }
    ensures used { AreUsed used.new }
    ensures indexed { IsIndexOf used.new index.new }
{
    let uses = used[number].uses;
    if uses > 1 {
        used[number].uses = uses - 1;
        return;
    }
    let last = used.remove(number);
    index.remove(last.bucket, number);
}
