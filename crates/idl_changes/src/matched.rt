//! Which items of two lists with names belong together.

ghost use Rattle.std.specs.Prelude.{◌≡◌, ◌++◌, ◌∷◌, ◌<◌, [], ℕ, IfOk, List, OnOk, Some, length, map, nat_lt, option_copied, slice_get, true};
ghost use Rattle.std.specs.Cmp.Lexicographic.{pointwise};
ghost use Rattle.std.specs.List.{range_with_len, slice_set};
ghost use Rattle.std.specs.Option.{option_and_then, option_eq, option_map, option_map_or};
ghost use Rattle.std.specs.Str.{bytes_eq};
ghost use Rattle.idl_changes.specs.Matched.{in_order, is_matched, matched, matches, renamed};
ghost use Rattle.idl_changes.specs.Tables.{AreFirst};

use idl_base::Bytes;
use idl_map::Map;
use std::alloc::{AllocError, Global};

/// What has a name.
pub trait Named {
    ghost use Rattle.std.specs.Prelude.{List, ℕ};

    /// The name of an item.
    ghost name_of: { Self → List ℕ };

    /// Its name.
    fn name(&self) -> &Bytes
        ensures { result.now ≡ name_of self.now };
}

/// To which of the new items each of the old ones belongs.
#[tactic(auto, unfolding(crate::specs::Matched::matches))]
pub fn matches<T: Named>(
    alloc: Global,
    old: &[T],
    new: &[T],
) -> Result<Vec<Option<usize>>, AllocError>
    ensures { IfOk result (λ found.
        found.items ≡ matches (map T.name_of old.now) (map T.name_of new.now)) }
{
    if have_same_names(old, new) {
        return all_in_place(alloc, old.len());
    }
    let old_places = first_places(alloc, old)?;
    let new_places = first_places(alloc, new)?;
    let mut found = Vec::with_capacity(alloc, old.len())?;
    for place in 0..old.len() {
        found.push(matched((old, new), (&old_places, &new_places), place))?;
    }
    Ok(found)
}

// Whether two lists have the same names at the same places.
fn have_same_names<T: Named>(old: &[T], new: &[T]) -> bool
    ensures { result ≡ pointwise bytes_eq (map T.name_of old.now) (map T.name_of new.now) }
{
    if old.len() != new.len() {
        return false;
    }
    for (place, item) in old.iter().enumerate() {
        if *item.name() != *new[place].name() {
            return false;
        }
    }
    true
}

// So many places, each of which belongs to itself.
fn all_in_place(alloc: Global, count: usize) -> Result<Vec<Option<usize>>, AllocError>
    ensures { IfOk result (λ found. found.items ≡ map Some (range_with_len 0 count)) }
{
    let mut found = Vec::with_capacity(alloc, count)?;
    for place in 0..count {
        found.push(Some(place))?;
    }
    Ok(found)
}

// The first place of each name.
fn first_places<T: Named>(alloc: Global, items: &[T]) -> Result<Map<Bytes, usize>, AllocError>
    ensures { IfOk result (AreFirst (map T.name_of items.now)) }
{
    let mut places = Map::new(alloc)?;
    for (place, item) in items.iter().enumerate() {
        add_name(&mut places, place, item.name())?;
    }
    Ok(places)
}

// Puts in the place of one more name, if it is the first of it.
fn add_name(places: &mut Map<Bytes, usize>, place: usize, name: &Bytes) -> Result<(), AllocError>
    ensures { OnOk result ((names : List (List ℕ)) → place ≡ length names
        → AreFirst names places.old → AreFirst (names ++ name.now ∷ []) places.new) }
{
    if places.get(name).is_some() {
        return Ok(());
    }
    places.insert(name.clone()?, place)?;
    Ok(())
}

// To which of the new items the one at a place belongs, where these are the first places of all names.
#[tactic(auto, unfolding(crate::specs::Matched::matched))]
fn matched<T: Named>(
    lists: (&[T], &[T]),
    places: (&Map<Bytes, usize>, &Map<Bytes, usize>),
    place: usize,
) -> Option<usize>
    requires before { AreFirst (map T.name_of lists.0.now) places.0.now }
    requires after { AreFirst (map T.name_of lists.1.now) places.1.now }
    ensures { result ≡ option_and_then
        (λ name. matched (map T.name_of lists.entry.0.now) (map T.name_of lists.entry.1.now) place
        name) (slice_get (map T.name_of lists.entry.0.now) place) }
{
    let (old, new) = lists;
    let item = old.get(place)?;
    if has_name(new.get(place), item.name()) {
        return Some(place);
    }
    if let Some(found) = places.1.get(item.name()) {
        return Some(*found);
    }
    renamed(lists, places.0, place)
}

// Whether there is an item and it has a name.
fn has_name<T: Named>(item: Option<&T>, name: &Bytes) -> bool
    ensures { result
        ≡ option_eq bytes_eq (option_map T.name_of (option_copied item.entry)) (Some name.now) }
{
    match item {
        Some(item) => *item.name() == *name,
        None => false,
    }
}

// The item at a place, if the one there is renamed, where these are the first places of the old names.
fn renamed<T: Named>(lists: (&[T], &[T]), places: &Map<Bytes, usize>, place: usize) -> Option<usize>
    requires before { AreFirst (map T.name_of lists.0.now) places.now }
    requires within { place < length lists.0.now }
    ensures { result
        ≡ renamed (map T.name_of lists.entry.0.now) (map T.name_of lists.entry.1.now) place }
{
    let (old, new) = lists;
    if old.len() != new.len() {
        return None;
    }
    let other = new.get(place)?;
    if places.get(other.name()).is_some() {
        return None;
    }
    Some(place)
}

/// Which of so many new items belong to an old one.
pub fn marked(alloc: Global, found: &[Option<usize>], count: usize) -> Result<Vec<bool>, AllocError>
    ensures { IfOk result (λ marks.
        marks.items ≡ map (is_matched found.now) (range_with_len 0 count)) }
{
    let mut marks = Vec::with_capacity(alloc, count)?;
    for _item in 0..count {
        marks.push(false)?;
    }
    for place in found {
        mark(&mut marks, *place);
    }
    Ok(marks)
}

// Marks a place, if there is one.
fn mark(marks: &mut Vec<bool>, place: Option<usize>)
    ensures { marks.new.items
        ≡ option_map_or (λ k. slice_set marks.old.items k true) place marks.old.items }
{
    let Some(place) = place else {
        return;
    };
    if let Some(mark) = marks.get_mut(place) {
        *mark = true;
    }
}

/// Whether those that belong to one stand in the same order.
#[tactic(auto, unfolding(crate::specs::Matched::in_order))]
pub fn in_order(found: &[Option<usize>]) -> bool
    ensures { result ≡ in_order found.now }
{
    let mut last = None;
    for place in found {
        if !is_behind(*place, last) {
            return false;
        }
        last = place.or(last);
    }
    true
}

// Whether a place stands behind another one, if there are both.
fn is_behind(place: Option<usize>, last: Option<usize>) -> bool
    ensures { result
        ≡ option_map_or (λ k. option_map_or (λ n. nat_lt n k) last true) place true }
{
    match (place, last) {
        (Some(place), Some(last)) => last < place,
        _ => true,
    }
}
