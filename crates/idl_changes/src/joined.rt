//! Which entries of two listings belong together that aren't called: by their ids, and then by their paths.

ghost use Rattle.std.specs.Prelude.{◌≡◌, ◌+◌, ◌++◌, ◌∷◌, ◌-◌, ◌<◌, ◌^◌, ◌&&◌, [], ℕ, List, IfOk, IsFalse, IsTrue, None, OnOk, Some, false, if◌then◌else◌, is_none, length, nat_eq, slice_get, unwrap_or};
ghost use Rattle.std.specs.Map.{lookup};
ghost use Rattle.std.specs.Option.{option_and_then, option_eq, option_map_or, option_or};
ghost use Rattle.std.specs.Str.{bytes_eq};
ghost use Rattle.idl_changes.specs.Listing.{by_id, is_called, next_by_id, place_of};
ghost use Rattle.idl_changes.specs.Partners.{by_path, is_of_kind, joined};
ghost use Rattle.idl_changes.specs.Tables.{AreCounts, AreIds, each};
ghost use Rattle.idl_entity.specs.Kind.{kind_eq};
ghost use Rattle.idl_repo.specs.declared.details.row_tree.RowTree.{RowTree};

use crate::keys::NumberedText;
use crate::listing::{Listing, is_called};
use idl_base::Bytes;
use idl_entity::Kind;
use idl_map::Map;
use idl_repo::details::RowTree;
use std::alloc::{AllocError, Global};

/// To which entry of the new listing each of the old one belongs that isn't called, and the other way round.
pub fn joined_both(
    alloc: Global,
    old: &Listing<'_>,
    new: &Listing<'_>,
) -> Result<(Vec<Option<usize>>, Vec<Option<usize>>), AllocError>
    ensures forth { IfOk result (λ both.
        both.0.items ≡ each (λ i e. joined old.now new.now i) old.now) }
    ensures back { IfOk result (λ both.
        both.1.items ≡ each (λ i e. joined new.now old.now i) new.now) }
{
    let forth = all_by_id(alloc, old, new)?;
    let back = all_by_id(alloc, new, old)?;
    let joined = all_joined(old, new, &forth, &back)?;
    let joined_back = all_joined(new, old, &back, &forth)?;
    Ok((joined, joined_back))
}

// To which one each belongs, where this is known by ids.
fn all_joined(
    old: &Listing<'_>,
    new: &Listing<'_>,
    forth: &Vec<Option<usize>>,
    back: &[Option<usize>],
) -> Result<Vec<Option<usize>>, AllocError>
    requires forth { forth.now.items ≡ each (by_id old.now new.now) old.now }
    requires back { back.now ≡ each (by_id new.now old.now) new.now }
    ensures { IfOk result (λ all. all.items ≡ each (λ i e. joined old.now new.now i) old.now) }
{
    let mut all = Vec::with_capacity(*forth.allocator(), forth.len())?;
    for (place, found) in forth.iter().enumerate() {
        all.push(joined_at((old, new), place, *found, back))?;
    }
    Ok(all)
}

// To which one the one at a place belongs, where this one has its id.
fn joined_at(
    listings: (&Listing<'_>, &Listing<'_>),
    place: usize,
    found: Option<usize>,
    back: &[Option<usize>],
) -> Option<usize>
    requires { back.now ≡ each (by_id listings.1.now listings.0.now) listings.1.now }
    ensures { result ≡ option_or found (option_and_then
        (λ e. if is_called e then None
        else by_path listings.entry.0.now listings.entry.1.now place e)
        (slice_get listings.entry.0.now place)) }
{
    match found {
        Some(partner) => Some(partner),
        None => by_path(listings, place, back),
    }
}

// The one of the same path and kind, if that is left.
fn by_path(
    listings: (&Listing<'_>, &Listing<'_>),
    place: usize,
    back: &[Option<usize>],
) -> Option<usize>
    requires { back.now ≡ each (by_id listings.1.now listings.0.now) listings.1.now }
    ensures { result ≡ option_and_then
        (λ e. if is_called e then None
        else by_path listings.entry.0.now listings.entry.1.now place e)
        (slice_get listings.entry.0.now place) }
{
    let (old, new) = listings;
    let entry = old.entry(place)?;
    if is_called(entry) {
        return None;
    }
    let other = new.place_of(&entry.path)?;
    if fits(listings, (place, other), entry, back) {
        Some(other)
    } else {
        None
    }
}

// Whether the entry to which the path leads at the first of these places is of the kind of that at the second, and this is left.
fn fits(
    listings: (&Listing<'_>, &Listing<'_>),
    places: (usize, usize),
    entry: &RowTree,
    back: &[Option<usize>],
) -> bool
    ensures { result
        ≡ ((option_eq nat_eq (place_of listings.entry.0.now entry.now.path) (Some places.0)
        && is_of_kind listings.entry.1.now places.1 entry.now)
        && option_map_or (λ found. is_none found) (slice_get back.now places.1) false) }
{
    let (old, new) = listings;
    old.place_of(&entry.path) == Some(places.0)
        && is_of_kind(new, places.1, entry.kind)
        && is_free(back, places.1)
}

// Whether the entry at a place is of a kind.
fn is_of_kind(listing: &Listing<'_>, place: usize, kind: Kind) -> bool
    ensures { result
        ≡ option_map_or (λ f. kind_eq kind f.kind) (slice_get listing.now place) false }
{
    match listing.entry(place) {
        Some(entry) => kind == entry.kind,
        None => false,
    }
}

// Whether nothing stands at a place of these.
fn is_free(places: &[Option<usize>], place: usize) -> bool
    ensures { result ≡ option_map_or (λ found. is_none found) (slice_get places.now place) false }
{
    match places.get(place) {
        Some(found) => found.is_none(),
        None => false,
    }
}

// Which entry of the new listing has the id of each of the old one, the first as the first, the second as the second.
fn all_by_id(
    alloc: Global,
    old: &Listing<'_>,
    new: &Listing<'_>,
) -> Result<Vec<Option<usize>>, AllocError>
    ensures { IfOk result (λ all. all.items ≡ each (by_id old.now new.now) old.now) }
{
    let ids = ids_of(alloc, new)?;
    let mut counts = Map::new(alloc)?;
    let mut all = Vec::with_capacity(alloc, old.len())?;
    for tree in old.trees() {
        let found = found_by_id(&ids, &mut counts, tree)?;
        all.push(found)?;
    }
    Ok(all)
}

// Where the entry of these stands that has the id of the next one, and as many of it before. That counts from now on.
fn found_by_id(
    ids: &Map<NumberedText, usize>,
    counts: &mut Map<Bytes, usize>,
    entry: &RowTree,
) -> Result<Option<usize>, AllocError>
    requires { unwrap_or (lookup (bytes_eq entry.now.id) counts.old) 0 < 2 ^ 64 - 1 }
    ensures { IfOk result (λ found. (L before : List RowTree)
        → AreIds L ids.now → AreCounts before counts.old
        → (found ≡ next_by_id L before entry.now)
        × AreCounts (before ++ entry.now ∷ []) counts.new) }
{
    let Some(key) = key_of(counts, entry)? else {
        return Ok(None);
    };
    Ok(ids.get(&key).copied())
}

// Where the entries of each id stand that aren't called.
fn ids_of(alloc: Global, listing: &Listing<'_>) -> Result<Map<NumberedText, usize>, AllocError>
    ensures { IfOk result (AreIds listing.now) }
{
    let mut ids = Map::new(alloc)?;
    let mut counts = Map::new(alloc)?;
    let trees = listing.trees();
    for (place, tree) in trees.iter().enumerate() {
        add_id(&mut ids, &mut counts, place, tree)?;
    }
    Ok(ids)
}

// Puts in the place of one more entry, which counts from now on.
fn add_id(
    ids: &mut Map<NumberedText, usize>,
    counts: &mut Map<Bytes, usize>,
    place: usize,
    entry: &RowTree,
) -> Result<(), AllocError>
    requires { unwrap_or (lookup (bytes_eq entry.now.id) counts.old) 0 < 2 ^ 64 - 1 }
    ensures { OnOk result ((L : List RowTree) → place ≡ length L
        → AreIds L ids.old → AreCounts L counts.old
        → AreIds (L ++ entry.now ∷ []) ids.new × AreCounts (L ++ entry.now ∷ []) counts.new) }
{
    let Some(key) = key_of(counts, entry)? else {
        return Ok(());
    };
    ids.insert(key, place)?;
    Ok(())
}

// The id of the next entry and how many of it come before, if it isn't called. It counts from now on.
fn key_of(
    counts: &mut Map<Bytes, usize>,
    entry: &RowTree,
) -> Result<Option<NumberedText>, AllocError>
    // There are no more of an id than entries.
    requires { unwrap_or (lookup (bytes_eq entry.now.id) counts.old) 0 < 2 ^ 64 - 1 }

    ensures called { IfOk result (λ key. IsTrue (is_called entry.now)
        → (key ≡ None) × (counts.new ≡ counts.old)) }
    ensures key { IfOk result (λ key. IsFalse (is_called entry.now) → key ≡ Some (record {
      text = entry.now.id;
      number = unwrap_or (lookup (bytes_eq entry.now.id) counts.old) 0;
    })) }
    ensures counted { IfOk result (λ key. IsFalse (is_called entry.now) → (id : List ℕ)
        → lookup (bytes_eq id) counts.new
        ≡ (if bytes_eq id entry.now.id
        then Some (unwrap_or (lookup (bytes_eq entry.now.id) counts.old) 0 + 1)
        else lookup (bytes_eq id) counts.old)) }
{
    if is_called(entry) {
        return Ok(None);
    }
    let number = match counts.get(&entry.id) {
        Some(number) => *number,
        None => 0,
    };
    counts.insert(entry.id.clone()?, number + 1)?;
    let text = entry.id.clone()?;
    Ok(Some(NumberedText { text, number }))
}
