//! What interfaces inherit, and what can be called on them.

ghost use Rattle.std.specs.Prelude.{◌≡◌, ◌+◌, ◌++◌, ◌∷◌, ◌&&◌, ◌||◌, ◌<◌, [], ℕ, All, List, IfOk, None, OnOk, Some, false, filter, find, if◌then◌else◌, length, nat_eq, not, slice_get, unwrap_or};
ghost use Rattle.std.specs.List.{list_any, slice_set};
ghost use Rattle.std.specs.Map.{lookup};
ghost use Rattle.std.specs.Option.{option_map_or, option_or, option_to_list};
ghost use Rattle.std.specs.Str.{bytes_eq};
ghost use Rattle.idl_changes.specs.Keys.{numbered_eq};
ghost use Rattle.idl_changes.specs.Listing.{interface_of, is_called, name_at};
ghost use Rattle.idl_changes.specs.Offered.{ancestors, base_places, called_in, last_first};
ghost use Rattle.idl_changes.specs.Tables.{AreOffers, count_besides, each, found_at};
ghost use Rattle.idl_changes.specs.declared.keys.NumberedText.{NumberedText};

use crate::keys::NumberedText;
use crate::listing::{Listing, bases_of, is_called, name_of};
use idl_base::Seq;
use idl_map::Map;
use idl_repo::details::RowTree;
use std::alloc::{AllocError, Global};
use std::collections::BTreeSet;

/// What each entry inherits: an interface its bases, and what they do.
pub fn all_ancestors(alloc: Global, listing: &Listing<'_>) -> Result<Vec<Seq<usize>>, AllocError>
    ensures { IfOk result (λ all.
        all.items ≡ each (λ i e. ancestors listing.now i) listing.now) }
{
    let mut all = Vec::with_capacity(alloc, listing.len())?;
    for place in 0..listing.len() {
        all.push(ancestors(alloc, listing, place)?)?;
    }
    Ok(all)
}

// What the entry at a place inherits, the last in the listing first.
#[tactic(auto, unfolding(crate::specs::Offered::ancestors))]
fn ancestors(alloc: Global, listing: &Listing<'_>, place: usize) -> Result<Seq<usize>, AllocError>
    ensures { IfOk result (λ found. found ≡ ancestors listing.now place) }
{
    let mut found = BTreeSet::new(alloc);
    let mut ahead = Vec::new(alloc);
    add_bases(listing, place, &mut found, &mut ahead)?;
    while let Some(next) = ahead.pop() {
        add_bases(listing, next, &mut found, &mut ahead)?;
    }
    last_first(alloc, &mut found)
}

// Puts the bases of the entry at a place among those found. Those that weren't found yet are ahead.
fn add_bases(
    listing: &Listing<'_>,
    place: usize,
    found: &mut BTreeSet<usize>,
    ahead: &mut Vec<usize>,
) -> Result<(), AllocError>
    ensures found { OnOk result ((n : ℕ) → list_any (nat_eq n) found.new.keys
        ≡ (list_any (nat_eq n) found.old.keys
        || list_any (nat_eq n) (base_places listing.now place))) }
    ensures ahead { OnOk result ((n : ℕ) → list_any (nat_eq n) ahead.new.items
        ≡ (list_any (nat_eq n) ahead.old.items
        || (list_any (nat_eq n) found.new.keys && not (list_any (nat_eq n) found.old.keys)))) }
    ensures count { OnOk result
        (length ahead.new.items + count_besides listing.now found.new.keys
        ≡ length ahead.old.items + count_besides listing.now found.old.keys) }
{
    let Some(entry) = listing.entry(place) else {
        return Ok(());
    };
    for base in bases_of(entry) {
        add_new(listing.interface_at(&base.path), found, ahead)?;
    }
    Ok(())
}

// Puts a place among those found, if there is one. It is ahead, unless it was found already.
fn add_new(
    place: Option<usize>,
    found: &mut BTreeSet<usize>,
    ahead: &mut Vec<usize>,
) -> Result<(), AllocError>
    ensures found { OnOk result ((n : ℕ) → list_any (nat_eq n) found.new.keys
        ≡ (list_any (nat_eq n) found.old.keys || option_map_or (nat_eq n) place false)) }
    ensures ahead { OnOk result (ahead.new.items ≡ ahead.old.items
        ++ filter (λ n. not (list_any (nat_eq n) found.old.keys)) (option_to_list place)) }
{
    let Some(place) = place else {
        return Ok(());
    };
    let is_new = found.insert(place)?;
    if !is_new {
        return Ok(());
    }
    ahead.push(place)?;
    Ok(())
}

// These places in a list, the last first. None of them is left.
fn last_first(alloc: Global, places: &mut BTreeSet<usize>) -> Result<Seq<usize>, AllocError>
    ensures { IfOk result (λ list. (bound : ℕ) → All (λ n. n < bound) places.old.keys
        → list ≡ last_first (λ n. list_any (nat_eq n) places.old.keys) bound) }
{
    let mut list = Vec::new(alloc);
    while let Some(last) = places.pop_last() {
        list.push(last)?;
    }
    Ok(Seq::from_vec(list))
}

/// The operations and attributes in the scope of each entry, which has some where it is an interface.
pub fn all_called(alloc: Global, listing: &Listing<'_>) -> Result<Vec<Seq<usize>>, AllocError>
    ensures { IfOk result (λ all.
        all.items ≡ each (λ i e. called_in listing.now i) listing.now) }
{
    let mut all = Vec::with_capacity(alloc, listing.len())?;
    for _entry in 0..listing.len() {
        all.push(Seq::new(alloc))?;
    }
    let trees = listing.trees();
    for (place, tree) in trees.iter().enumerate() {
        let interface = own_scope(listing, tree)?;
        put_called(&mut all, interface, place)?;
    }
    Ok(all)
}

// Puts a place behind those at an interface, if there is one.
fn put_called(
    all: &mut Vec<Seq<usize>>,
    interface: Option<usize>,
    place: usize,
) -> Result<(), AllocError>
    ensures { OnOk result (all.new.items ≡ option_map_or
        (λ i. slice_set all.old.items i (unwrap_or (slice_get all.old.items i) [] ++ place ∷ []))
        interface all.old.items) }
{
    let Some(interface) = interface else {
        return Ok(());
    };
    match all.get_mut(interface) {
        Some(called) => called.push(place),
        None => Ok(()),
    }
}

// The interface in whose scope a called entry is.
fn own_scope(listing: &Listing<'_>, entry: &RowTree) -> Result<Option<usize>, AllocError>
    ensures { IfOk result (λ place.
        place ≡ (if is_called entry.now then interface_of listing.now entry.now else None)) }
{
    if is_called(entry) {
        listing.interface_of(entry)
    } else {
        Ok(None)
    }
}

/// The list at a place, which is empty where there is none.
pub fn list_at(lists: &[Seq<usize>], place: usize) -> &[usize]
    ensures { result.now ≡ unwrap_or (slice_get lists.now place) [] }
{
    match lists.get(place) {
        Some(list) => list.as_slice(),
        None => &[],
    }
}

/// What can be called on interfaces, by their places and by name: of two of a name the first.
pub fn all_offers(
    alloc: Global,
    listing: &Listing<'_>,
    called: &[Seq<usize>],
    inherited: &[Seq<usize>],
) -> Result<Map<NumberedText, usize>, AllocError>
    requires called { called.now ≡ each (λ i e. called_in listing.now i) listing.now }
    requires inherited { inherited.now ≡ each (λ i e. ancestors listing.now i) listing.now }
    ensures { IfOk result (AreOffers listing.now) }
{
    let mut offers = Map::new(alloc)?;
    for interface in 0..listing.len() {
        offer_all(listing, list_at(called, interface), interface, &mut offers)?;
        for base in list_at(inherited, interface) {
            offer_all(listing, list_at(called, *base), interface, &mut offers)?;
        }
    }
    Ok(offers)
}

// Has the interface at a place offer these, but those of a name that it offers already.
fn offer_all(
    listing: &Listing<'_>,
    called: &[usize],
    interface: usize,
    offers: &mut Map<NumberedText, usize>,
) -> Result<(), AllocError>
    requires { All (λ n. n < length listing.now) called.now }
    ensures { OnOk result ((i : ℕ) (name : List ℕ) → found_at offers.new name i
        ≡ option_or (found_at offers.old name i)
        (if nat_eq i interface
        then find (λ n. bytes_eq name (name_at listing.now n)) called.now
        else None)) }
{
    for place in called {
        offer_at(listing, *place, interface, offers)?;
    }
    Ok(())
}

// Has the interface at a place offer the entry at another, unless it offers one of the name already.
fn offer_at(
    listing: &Listing<'_>,
    place: usize,
    interface: usize,
    offers: &mut Map<NumberedText, usize>,
) -> Result<(), AllocError>
    requires { place < length listing.now }
    ensures { OnOk result ((i : ℕ) (name : List ℕ) → found_at offers.new name i
        ≡ option_or (found_at offers.old name i)
        (if bytes_eq name (name_at listing.now place) && nat_eq i interface
        then Some place
        else None)) }
{
    let Some(entry) = listing.entry(place) else {
        return Ok(());
    };
    let text = name_of(&entry.path)?;
    let key = NumberedText {
        text,
        number: interface,
    };
    offer(key, place, offers)
}

// Puts a place in at a key that has none.
fn offer(
    key: NumberedText,
    place: usize,
    offers: &mut Map<NumberedText, usize>,
) -> Result<(), AllocError>
    ensures { OnOk result ((k : NumberedText) → lookup (numbered_eq k) offers.new
        ≡ option_or (lookup (numbered_eq k) offers.old)
        (if numbered_eq k key then Some place else None)) }
{
    if offers.get(&key).is_some() {
        return Ok(());
    }
    offers.insert(key, place)
}
