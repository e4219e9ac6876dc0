//! Results under numbers, and how often each is used.

ghost use Rattle.std.specs.Prelude.{◌≡◌, ◌<◌, ◌≤◌, ◌+◌, ℕ, IfSome, None, OnErr, OnOk, Some, drop, fold, length, position, nat_eq, take, vec_capacity, vec_len};
ghost use Rattle.idl_store.specs.Numbers.{drafts_of, joined, lists_of, numbers_of, times};
ghost use Rattle.idl_store.specs.Spots.{lists_among, result_on, results_from};
ghost use Rattle.idl_store.specs.Stored.{item_at, list_at, placed, results_in, results_of_drafts, with_results};

use std::alloc::AllocError;
use std::mem::{replace, swap};

/// A result, at how many places of lists and drafts it is used, and the number of its bucket in the index.
#[derive(Drop)]
pub(crate) struct Used<R> {
    pub(crate) result: R,
    pub(crate) uses: usize,
    pub(crate) bucket: u64,
    /// The place of a draft at which it was put last: it is looked for there first.
    pub(crate) place: usize,
}

/// A list that is being made, by the numbers of its results, and which list it is to be.
#[derive(Drop)]
pub(crate) struct Draft {
    pub(crate) at: usize,
    pub(crate) numbers: Vec<usize>,
}

/// A place of a list, or of a draft. Drafts are numbered as they were begun.
#[derive(Clone, Copy)]
pub struct Spot {
    pub is_draft: bool,
    pub list: usize,
    pub place: usize,
}

// The number at a place of a list, or nothing where there is none.
pub(crate) fn number_at(lists: &[Vec<usize>], list: usize, place: usize) -> Option<usize>
    ensures { result ≡ item_at (lists_of lists.now) list place }
{
    lists.get(list)?.get(place).copied()
}

// The numbers of a draft, or of a list; none where there is no such one.
pub(crate) fn numbers_among<'a>(
    lists: &'a [Vec<usize>],
    drafts: &'a [Draft],
    is_draft: bool,
    list: usize,
) -> &'a [usize]
    ensures { result.now
        ≡ list_at (lists_among (numbers_of lists.now drafts.now) is_draft) list }
{
    if is_draft {
        match drafts.get(list) {
            Some(draft) => &draft.numbers,
            None => &[],
        }
    } else {
        match lists.get(list) {
            Some(numbers) => numbers,
            None => &[],
        }
    }
}

// The number at a spot, or nothing where there is none.
pub(crate) fn number_on(lists: &[Vec<usize>], drafts: &[Draft], spot: Spot) -> Option<usize>
    ensures { result ≡ result_on (numbers_of lists.now drafts.now) spot }
{
    numbers_among(lists, drafts, spot.is_draft, spot.list)
        .get(spot.place)
        .copied()
}

// So many numbers from a spot on, or as many as there are.
pub(crate) fn numbers_from<'a>(
    lists: &'a [Vec<usize>],
    drafts: &'a [Draft],
    spot: Spot,
    count: usize,
) -> &'a [usize]
    ensures { result.now ≡ results_from (numbers_of lists.now drafts.now) spot count }
{
    part(
        numbers_among(lists, drafts, spot.is_draft, spot.list),
        spot.place,
        count,
    )
}

// So many items from a place on, or as many as there are.
fn part<X>(items: &[X], place: usize, count: usize) -> &[X]
    ensures { result.now ≡ take count (drop place items.now) }
{
    let rest = &items[place.min(items.len())..];
    &rest[..count.min(rest.len())]
}

// A spot at which a number stands: at this place, or near where the list that the last draft is to be goes on, or else in the last
// draft that has it, or in the last list. Most of what an edit finds stands where it was put last, so no list is gone through for it.
pub(crate) fn spot_of(
    lists: &[Vec<usize>],
    drafts: &[Draft],
    number: usize,
    place: usize,
) -> Option<Spot>
    ensures found { IfSome result (λ spot.
        result_on (numbers_of lists.now drafts.now) spot ≡ Some number) }
    ensures none { result ≡ None
        → times number (results_in (numbers_of lists.now drafts.now)) ≡ 0 }
{
    if let Some(spot) = spot_beside(lists, drafts, number, place) {
        return Some(spot);
    }
    if let Some(spot) = spot_among(lists, drafts, true, number) {
        return Some(spot);
    }
    spot_among(lists, drafts, false, number)
}

// A spot at which a number stands, which `spot_at` or `spot_near` finds.
fn spot_beside(lists: &[Vec<usize>], drafts: &[Draft], number: usize, place: usize) -> Option<Spot>
    ensures { IfSome result (λ spot.
        result_on (numbers_of lists.now drafts.now) spot ≡ Some number) }
{
    let spot = match spot_at(lists, drafts, number, place) {
        Some(spot) => spot,
        None => spot_near(lists, drafts, number)?,
    };
    let found = number_on(lists, drafts, spot)?;
    if found == number { Some(spot) } else { None }
}

// A spot at this place at which a number stands: in the list that the last draft is to be, or in the last draft or list that has it
// there.
fn spot_at(lists: &[Vec<usize>], drafts: &[Draft], number: usize, place: usize) -> Option<Spot> {
    let own = drafts.last()?.at;
    if number_at(lists, own, place) == Some(number) {
        return Some(Spot {
            is_draft: false,
            list: own,
            place,
        });
    }
    for is_draft in [true, false] {
        let count = count_among(lists, drafts, is_draft);
        for behind in 0..count {
            let list = count - 1 - behind;
            let spot = Spot {
                is_draft,
                list,
                place,
            };
            if number_on(lists, drafts, spot) == Some(number) {
                return Some(spot);
            }
        }
    }
    None
}

// A spot at which a number stands in the list that the last draft is to be, near where that goes on.
fn spot_near(lists: &[Vec<usize>], drafts: &[Draft], number: usize) -> Option<Spot> {
    let draft = drafts.last()?;
    let place = place_near(lists.get(draft.at)?, draft.numbers.len(), number)?;
    Some(Spot {
        is_draft: false,
        list: draft.at,
        place,
    })
}

// The place of a number, at this place or not far from it, or nothing.
fn place_near(numbers: &[usize], near: usize, number: usize) -> Option<usize> {
    for far in 0..numbers.len() {
        let behind = near.saturating_add(far);
        if numbers.get(behind).copied() == Some(number) {
            return Some(behind);
        }
        let before = near.saturating_sub(far);
        if numbers.get(before).copied() == Some(number) {
            return Some(before);
        }
    }
    None
}

// A spot at which a number stands in the last draft that has it, or in the last list.
fn spot_among(lists: &[Vec<usize>], drafts: &[Draft], is_draft: bool, number: usize) -> Option<Spot>
    ensures found { IfSome result (λ spot.
        result_on (numbers_of lists.now drafts.now) spot ≡ Some number) }
    ensures none { result ≡ None
        → times number (joined (lists_among (numbers_of lists.now drafts.now) is_draft)) ≡ 0 }
{
    let count = count_among(lists, drafts, is_draft);
    for behind in 0..count {
        let list = count - 1 - behind;
        let numbers = numbers_among(lists, drafts, is_draft, list);
        if let Some(place) = place_in(numbers, number) {
            return Some(Spot {
                is_draft,
                list,
                place,
            });
        }
    }
    None
}

// How many drafts there are, or how many lists.
fn count_among(lists: &[Vec<usize>], drafts: &[Draft], is_draft: bool) -> usize
    ensures { result ≡ length (lists_among (numbers_of lists.now drafts.now) is_draft) }
{
    if is_draft { drafts.len() } else { lists.len() }
}

// The first place at which a number stands, or nothing.
fn place_in(numbers: &[usize], number: usize) -> Option<usize>
    ensures { result ≡ position (λ other. nat_eq other number) numbers.now }
{
    numbers.iter().position(|other| *other == number)
}

// How many numbers the last draft has; none where there is no draft.
pub(crate) fn last_len(drafts: &[Draft]) -> usize {
    match drafts.last() {
        Some(draft) => draft.numbers.len(),
        None => 0,
    }
}

// The numbers go into the last draft, behind those that are there.
pub(crate) fn push_numbers(drafts: &mut Vec<Draft>, numbers: &[usize]) -> Result<(), AllocError>
    ensures ok { OnOk result (drafts_of drafts.new.items
        ≡ with_results (drafts_of drafts.old.items) numbers.now) }
    ensures err { OnErr result (drafts_of drafts.new.items ≡ drafts_of drafts.old.items) }
    ensures count { vec_len drafts.new ≡ vec_len drafts.old }
{
    if let Some(draft) = drafts.last_mut() {
        draft.numbers.extend_from_slice(numbers)?;
    }
    Ok(())
}

// Each draft takes the place of its list, or is a new last one; what stood there before is in the draft then.
pub(crate) fn exchange(lists: &mut Vec<Vec<usize>>, drafts: &mut Vec<Draft>)
    requires { vec_len lists.old + vec_len drafts.old ≤ vec_capacity lists.old }
    ensures lists { lists_of lists.new.items
        ≡ fold placed (lists_of lists.old.items) (drafts_of drafts.old.items) }
    ensures times { (n : ℕ)
        → times n (joined (lists_of lists.new.items))
        + times n (results_of_drafts (drafts_of drafts.new.items))
        ≡ times n (joined (lists_of lists.old.items))
        + times n (results_of_drafts (drafts_of drafts.old.items)) }
{
    for place in 0..drafts.len() {
        exchange_one(lists, &mut drafts[place]);
    }
}

// A draft takes the place of its list, or is a new last one; what stood there before is in the draft then.
fn exchange_one(lists: &mut Vec<Vec<usize>>, draft: &mut Draft)
    requires { vec_len lists.old < vec_capacity lists.old }
    ensures lists { lists_of lists.new.items
        ≡ placed (lists_of lists.old.items) (draft.old.at, draft.old.numbers.items) }
    ensures times { (n : ℕ)
        → times n (joined (lists_of lists.new.items)) + times n draft.new.numbers.items
        ≡ times n (joined (lists_of lists.old.items)) + times n draft.old.numbers.items }
    ensures len { vec_len lists.new ≤ vec_len lists.old + 1 }
    ensures capacity { vec_capacity lists.new ≡ vec_capacity lists.old }
{
    if draft.at < lists.len() {
        swap(&mut lists[draft.at], &mut draft.numbers);
    } else {
        let nothing = Vec::new(*draft.numbers.allocator());
        lists.push_reserved(replace(&mut draft.numbers, nothing));
    }
}

// Gives back the room of lists and drafts that went, where no draft is left.
pub(crate) fn shrink_lists(lists: &mut Vec<Vec<usize>>, drafts: &mut Vec<Draft>)
    requires { vec_len lists.old + vec_len drafts.old ≤ vec_capacity lists.old }
    ensures lists { lists.new.items ≡ lists.old.items }
    ensures drafts { drafts.new.items ≡ drafts.old.items }
    ensures room { vec_len lists.new + vec_len drafts.new ≤ vec_capacity lists.new }
{
    if drafts.is_empty() {
        lists.shrink_to_fit();
        drafts.shrink_to_fit();
    }
}
