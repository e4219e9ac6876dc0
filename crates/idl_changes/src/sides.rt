//! Two listings, and which of their entries belong together.

ghost use Rattle.std.specs.Prelude.{◌≡◌, IfOk, None, Some, if◌then◌else◌, map, option_copied, slice_get};
ghost use Rattle.std.specs.Option.{option_and_then};
ghost use Rattle.idl_changes.specs.Listing.{interface_of, is_called};
ghost use Rattle.idl_changes.specs.Offered.{offered};
ghost use Rattle.idl_changes.specs.Partners.{called_partner, is_own_offer, is_partner, is_same_reference, joined, partner};
ghost use Rattle.idl_changes.specs.Tables.{each};

use crate::joined::joined_both;
use crate::listing::{is_called, name_of};
use crate::side::Side;
use idl_base::Bytes;
use idl_repo::details::{Reference, RowTree};
use std::alloc::{AllocError, Global};
use std::marker::Model;

/// Two listings. To every contract they are the lists of their entries, that of the old one first.
pub struct Sides<'a> {
    before: Side<'a>,
    after: Side<'a>,
    // To which entry of the new listing each of the old one belongs that isn't called, and the other way round.
    forth: Vec<Option<usize>>,
    back: Vec<Option<usize>>,
    // To which each of the old one belongs.
    partners: Vec<Option<usize>>,
}

impl<'a> Model for Sides<'a> {
    ghost use Rattle.std.specs.Prelude.{List};
    ghost use Rattle.idl_changes.specs.Tables.{AreSides};
    ghost use Rattle.idl_repo.specs.declared.details.row_tree.RowTree.{RowTree};

    ghost Value = { List RowTree × List RowTree };

    ghost view = { λ sides. (sides.before, sides.after) };

    ghost invariant = { λ sides.
        AreSides sides.before sides.after sides.forth.items sides.back.items sides.partners.items };
}

impl<'a> Drop for Sides<'a> {
    fn drop(self) {
        let Sides {
            before: _before,
            after: _after,
            forth: _forth,
            back: _back,
            partners: _partners,
        } = self;
    }
}

impl<'a> Sides<'a> {
    /// Two listings, the old one first.
    pub fn new(
        alloc: Global,
        old: &'a [&'a RowTree],
        new: &'a [&'a RowTree],
    ) -> Result<Sides<'a>, AllocError>
        ensures { IfOk result (λ sides. sides
            ≡ (map (λ tree. tree.now) old.entry.now, map (λ tree. tree.now) new.entry.now)) }
    {
        let before = Side::new(alloc, old)?;
        let after = Side::new(alloc, new)?;
        let (forth, back) = joined_both(alloc, before.listing(), after.listing())?;
        let partners = all_partners(alloc, &before, &after, &forth)?;
        Ok(Sides {
            before,
            after,
            forth,
            back,
            partners,
        })
    }

    /// The old listing.
    pub fn before(&self) -> &Side<'a>
        ensures { result.now ≡ self.now.0 }
    {
        &self.before
    }

    /// The new listing.
    pub fn after(&self) -> &Side<'a>
        ensures { result.now ≡ self.now.1 }
    {
        &self.after
    }

    /// The place of the entry to which the one at a place of the old listing belongs.
    pub fn partner(&self, place: usize) -> Option<usize>
        ensures { result ≡ partner self.now.0 self.now.1 place }
    {
        place_in(&self.partners, place)
    }

    /// The same, of what isn't called.
    pub fn joined(&self, place: usize) -> Option<usize>
        ensures { result ≡ joined self.now.0 self.now.1 place }
    {
        place_in(&self.forth, place)
    }

    /// To which one of the old listing the one at a place of the new one belongs, of what isn't called.
    pub fn joined_back(&self, place: usize) -> Option<usize>
        ensures { result ≡ joined self.now.1 self.now.0 place }
    {
        place_in(&self.back, place)
    }

    /// Whether an entry of the old listing that isn't called belongs to the one at this place, where there is one.
    pub fn is_partner(&self, place: usize, other: Option<usize>) -> bool
        ensures { result ≡ is_partner self.now.0 self.now.1 place other }
    {
        other.is_some() && self.joined(place) == other
    }

    /// Whether references are the same.
    #[tactic(auto, unfolding(crate::specs::Partners::is_same_reference))]
    pub fn is_same_reference(&self, old: &Reference, new: &Reference) -> bool
        ensures { result ≡ is_same_reference self.now.0 self.now.1 old.now new.now }
    {
        let other = self.after.listing().place_of(&new.path);
        match self.before.listing().place_of(&old.path) {
            Some(place) => self.is_partner(place, other),
            None => other.is_none() && *old == *new,
        }
    }
}

// What stands at a place of these, where there is one.
fn place_in(places: &[Option<usize>], place: usize) -> Option<usize>
    ensures { result ≡ option_and_then (λ found. found) (slice_get places.now place) }
{
    *places.get(place)?
}

// To which entry of the new listing each of the old one belongs, where this is known of what isn't called.
fn all_partners(
    alloc: Global,
    old: &Side<'_>,
    new: &Side<'_>,
    known: &[Option<usize>],
) -> Result<Vec<Option<usize>>, AllocError>
    requires { known.now ≡ each (λ i e. joined old.now new.now i) old.now }
    ensures { IfOk result (λ all. all.items ≡ each (λ i e. partner old.now new.now i) old.now) }
{
    let mut all = Vec::with_capacity(alloc, known.len())?;
    for place in 0..known.len() {
        all.push(partner_at((old, new), known, place)?)?;
    }
    Ok(all)
}

// To which one the entry at a place belongs, where this is known of what isn't called.
fn partner_at(
    sides: (&Side<'_>, &Side<'_>),
    known: &[Option<usize>],
    place: usize,
) -> Result<Option<usize>, AllocError>
    requires { known.now ≡ each (λ i e. joined sides.0.now sides.1.now i) sides.0.now }
    ensures { IfOk result (λ found. found ≡ partner sides.entry.0.now sides.entry.1.now place) }
{
    match called_at(sides.0, place) {
        Some(entry) => called_partner(sides, known, place, entry),
        None => Ok(place_in(known, place)),
    }
}

// The entry at a place, if it is called.
fn called_at<'a>(side: &Side<'a>, place: usize) -> Option<&'a RowTree>
    ensures { option_copied result
        ≡ option_and_then (λ e. if is_called e then Some e else None) (slice_get side.now place) }
{
    let entry = side.listing().entry(place)?;
    if is_called(entry) { Some(entry) } else { None }
}

// To which one a called entry belongs.
fn called_partner(
    sides: (&Side<'_>, &Side<'_>),
    known: &[Option<usize>],
    place: usize,
    entry: &RowTree,
) -> Result<Option<usize>, AllocError>
    requires { known.now ≡ each (λ i e. joined sides.0.now sides.1.now i) sides.0.now }
    ensures { IfOk result (λ found.
        found ≡ called_partner sides.entry.0.now sides.entry.1.now place entry.now) }
{
    let (old, new) = sides;
    let Some(interface) = own_interface(old, place, entry)? else {
        return Ok(None);
    };
    let name = name_of(&entry.path)?;
    offered_at(new, place_in(known, interface), &name)
}

// What the interface at a place offers under a name, if there is one.
fn offered_at(
    side: &Side<'_>,
    place: Option<usize>,
    name: &Bytes,
) -> Result<Option<usize>, AllocError>
    ensures { IfOk result (λ found.
        found ≡ option_and_then (λ p. offered side.now p name.now) place) }
{
    match place {
        Some(place) => side.offered(place, name),
        None => Ok(None),
    }
}

/// The interface in whose scope a called entry is, if it offers that under its name.
pub fn own_interface(
    side: &Side<'_>,
    place: usize,
    entry: &RowTree,
) -> Result<Option<usize>, AllocError>
    ensures { IfOk result (λ found. found ≡ option_and_then
        (λ o. if is_own_offer side.now o place entry.now then Some o else None)
        (interface_of side.now entry.now)) }
{
    let Some(interface) = side.listing().interface_of(entry)? else {
        return Ok(None);
    };
    let name = name_of(&entry.path)?;
    if side.offered(interface, &name)? == Some(place) {
        Ok(Some(interface))
    } else {
        Ok(None)
    }
}
