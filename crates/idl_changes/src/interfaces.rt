//! Interfaces, which are compared by what they inherit. What is called on them are entries of their own.

ghost use Rattle.std.specs.Prelude.{◌≡◌, ◌++◌, ◌<◌, ◌||◌, [], ℕ, IfOk, OnOk, Some, codes, false, if◌then◌else◌, length, nat_eq};
ghost use Rattle.std.specs.List.{list_all, list_any};
ghost use Rattle.std.specs.Option.{option_map_or};
ghost use Rattle.idl_changes.specs.Differences.{base_line, gone_bases, interface_differences, new_bases, told};
ghost use Rattle.idl_changes.specs.Listing.{name_at, path_at};
ghost use Rattle.idl_changes.specs.Offered.{called_in, is_offered, offers};
ghost use Rattle.idl_changes.specs.Partners.{is_partner, joined};

use crate::change::{Difference, Turn};
use crate::listing::{is_local, name_of};
use crate::parts::{part_of, push_changed, push_told, yes_or_no};
use crate::rows::Line;
use crate::side::Side;
use crate::sides::Sides;
use idl_repo::details::RowTree;
use std::alloc::{AllocError, Global};
use std::collections::BTreeSet;

/// Compares interfaces at these places of the old listing and of the new one.
#[tactic(auto, unfolding(crate::specs::Differences::interface_differences))]
pub fn compare_interfaces(
    sides: &Sides<'_>,
    places: (usize, usize),
    entries: (&RowTree, &RowTree),
    out: &mut Vec<Difference>,
) -> Result<(), AllocError>
    ensures { OnOk result (out.new.items ≡ out.old.items ++ interface_differences sides.now.0
        sides.now.1 places.0 places.1 entries.entry.0.now entries.entry.1.now) }
{
    let was = is_local(entries.0);
    let is = is_local(entries.1);
    if was != is {
        let words = (yes_or_no(was), yes_or_no(is));
        return push_changed(Line::Local, b"local", words, out);
    }
    push_gone_bases(sides, places, out)?;
    push_new_bases(sides, places, out)
}

// Tells of what the old interface inherits and the new one doesn't.
fn push_gone_bases(
    sides: &Sides<'_>,
    places: (usize, usize),
    out: &mut Vec<Difference>,
) -> Result<(), AllocError>
    ensures { OnOk result (out.new.items ≡ out.old.items
        ++ gone_bases sides.now.0 sides.now.1 places.0 places.1) }
{
    let inherited = set_of(*out.allocator(), sides.after().ancestors(places.1))?;
    let bases = sides.before().ancestors(places.0);
    for base in bases {
        push_gone_base(sides, *base, &inherited, out)?;
    }
    Ok(())
}

// Tells that a base is gone, unless the one to which it belongs is among these.
fn push_gone_base(
    sides: &Sides<'_>,
    base: usize,
    inherited: &BTreeSet<usize>,
    out: &mut Vec<Difference>,
) -> Result<(), AllocError>
    ensures { OnOk result (out.new.items ≡ out.old.items
        ++ (if option_map_or (λ n. list_any (nat_eq n) inherited.now.keys)
        (joined sides.now.0 sides.now.1 base) false
        then []
        else told Line.BaseGone (codes "base " ++ path_at sides.now.0 base) Turn.Gone)) }
{
    if is_among(sides.joined(base), inherited) {
        return Ok(());
    }
    push_base(Line::BaseGone, (sides.before(), base), Turn::Gone, out)
}

// Tells of what the new interface inherits and the old one doesn't.
fn push_new_bases(
    sides: &Sides<'_>,
    places: (usize, usize),
    out: &mut Vec<Difference>,
) -> Result<(), AllocError>
    ensures { OnOk result (out.new.items ≡ out.old.items
        ++ new_bases sides.now.0 sides.now.1 places.0 places.1) }
{
    let goes_on = partners_of(*out.allocator(), sides, sides.before().ancestors(places.0))?;
    let bases = sides.after().ancestors(places.1);
    for base in bases {
        push_new_base(sides, (places.0, *base), &goes_on, out)?;
    }
    Ok(())
}

// Tells that an interface has a new base, unless that is among these.
fn push_new_base(
    sides: &Sides<'_>,
    places: (usize, usize),
    goes_on: &BTreeSet<usize>,
    out: &mut Vec<Difference>,
) -> Result<(), AllocError>
    ensures { OnOk result (out.new.items ≡ out.old.items
        ++ (if list_any (nat_eq places.1) goes_on.now.keys
        then []
        else told (base_line sides.now.0 sides.now.1 places.0 places.1)
        (codes "base " ++ path_at sides.now.1 places.1) Turn.New)) }
{
    let (interface, base) = places;
    if is_among(Some(base), goes_on) {
        return Ok(());
    }
    let line = if offers_all_of(sides, interface, base)? {
        Line::BareBase
    } else {
        Line::BringingBase
    };
    push_base(line, (sides.after(), base), Turn::New, out)
}

// The places of the entries of the new listing to which those at these places belong.
fn partners_of(
    alloc: Global,
    sides: &Sides<'_>,
    places: &[usize],
) -> Result<BTreeSet<usize>, AllocError>
    ensures { IfOk result (λ set. (n : ℕ) → list_any (nat_eq n) set.keys
        ≡ list_any (λ m. is_partner sides.now.0 sides.now.1 m (Some n)) places.now) }
{
    let mut set = BTreeSet::new(alloc);
    for place in places {
        put_in(sides.joined(*place), &mut set)?;
    }
    Ok(set)
}

// Puts a place into a set, if there is one.
fn put_in(place: Option<usize>, set: &mut BTreeSet<usize>) -> Result<(), AllocError>
    ensures { OnOk result ((n : ℕ) → list_any (nat_eq n) set.new.keys
        ≡ (list_any (nat_eq n) set.old.keys || option_map_or (nat_eq n) place false)) }
{
    let Some(place) = place else {
        return Ok(());
    };
    set.insert(place)?;
    Ok(())
}

// These places as a set.
fn set_of(alloc: Global, places: &[usize]) -> Result<BTreeSet<usize>, AllocError>
    ensures { IfOk result (λ set. (n : ℕ)
        → list_any (nat_eq n) set.keys ≡ list_any (nat_eq n) places.now) }
{
    let mut set = BTreeSet::new(alloc);
    for place in places {
        put_in(Some(*place), &mut set)?;
    }
    Ok(set)
}

// Whether a place is among these, where there is one.
fn is_among(place: Option<usize>, places: &BTreeSet<usize>) -> bool
    ensures { result ≡ option_map_or (λ n. list_any (nat_eq n) places.now.keys) place false }
{
    match place {
        Some(place) => places.contains(&place),
        None => false,
    }
}

// Tells what became of the base at a place.
fn push_base(
    line: Line,
    base: (&Side<'_>, usize),
    turn: Turn,
    out: &mut Vec<Difference>,
) -> Result<(), AllocError>
    ensures { OnOk result (out.new.items ≡ out.old.items
        ++ told line (codes "base " ++ path_at base.entry.0.now base.entry.1) turn) }
{
    let part = part_of(*out.allocator(), b"base ", path_at(base.0, base.1))?;
    push_told(line, &part, turn, out)
}

// The path of the entry at a place.
fn path_at<'p>(side: &'p Side<'_>, place: usize) -> &'p [u8]
    ensures { result.now ≡ path_at side.entry.now place }
{
    match side.listing().entry(place) {
        Some(entry) => entry.path.as_bytes(),
        None => &[],
    }
}

// Whether an old interface offers all that a new one does.
#[tactic(auto, unfolding(crate::specs::Offered::offers))]
fn offers_all_of(sides: &Sides<'_>, interface: usize, base: usize) -> Result<bool, AllocError>
    ensures { IfOk result (λ all. all
        ≡ list_all (λ h. is_offered sides.now.0 interface (name_at sides.now.1 h))
        (offers sides.now.1 base)) }
{
    let own_all = offers_all(sides, interface, base)?;
    if !own_all {
        return Ok(false);
    }
    let inherited = sides.after().ancestors(base);
    for above in inherited {
        let above_all = offers_all(sides, interface, *above)?;
        if !above_all {
            return Ok(false);
        }
    }
    Ok(true)
}

// Whether an old interface offers all that is in the scope of a new one.
fn offers_all(sides: &Sides<'_>, interface: usize, scope: usize) -> Result<bool, AllocError>
    ensures { IfOk result (λ all. all
        ≡ list_all (λ h. is_offered sides.now.0 interface (name_at sides.now.1 h))
        (called_in sides.now.1 scope)) }
{
    let called = sides.after().called_in(scope);
    for place in called {
        let is_offered = offers_one(sides, interface, *place)?;
        if !is_offered {
            return Ok(false);
        }
    }
    Ok(true)
}

// Whether an old interface offers something of the name that the new entry at a place has.
fn offers_one(sides: &Sides<'_>, interface: usize, place: usize) -> Result<bool, AllocError>
    requires { place < length sides.now.1 }
    ensures { IfOk result (λ offered.
        offered ≡ is_offered sides.now.0 interface (name_at sides.now.1 place)) }
{
    let Some(entry) = sides.after().listing().entry(place) else {
        return Ok(true);
    };
    let name = name_of(&entry.path)?;
    let found = sides.before().offered(interface, &name)?;
    Ok(found.is_some())
}
