//! The changes from one listing to another.

ghost use Rattle.std.specs.Prelude.{◌≡◌, ◌++◌, IfOk, OnOk, flat_map, map};
ghost use Rattle.std.specs.List.{enumerate_from};
ghost use Rattle.idl_changes.specs.Changes.{change_at, changes, told_new, told_old, told_with};

use crate::change::{Change, Difference};
use crate::entries::{added_differences, differences, gone_differences};
use crate::sides::Sides;
use idl_repo::details::RowTree;
use std::alloc::{AllocError, Global};

/// The changes from one listing to another: of each old entry in order, and then of each that is new.
pub fn changes(alloc: Global, old: &[&RowTree], new: &[&RowTree]) -> Result<Vec<Change>, AllocError>
    ensures { IfOk result (λ told.
        told.items ≡ changes (map (λ tree. tree.now) old.now) (map (λ tree. tree.now) new.now)) }
{
    let sides = Sides::new(alloc, old, new)?;
    let mut out = Vec::new(alloc);
    tell_old(&sides, &mut out)?;
    tell_new(&sides, &mut out)?;
    Ok(out)
}

// Tells of each old entry.
fn tell_old(sides: &Sides<'_>, out: &mut Vec<Change>) -> Result<(), AllocError>
    ensures { OnOk result (out.new.items ≡ out.old.items
        ++ flat_map (λ p. told_old sides.now.0 sides.now.1 p.0 p.1)
        (enumerate_from 0 sides.now.0)) }
{
    let trees = sides.before().listing().trees();
    for (place, entry) in trees.iter().enumerate() {
        tell_entry(sides, place, entry, out)?;
    }
    Ok(())
}

// Tells how an entry differs from the one to which it belongs, or that it is gone.
fn tell_entry(
    sides: &Sides<'_>,
    place: usize,
    entry: &RowTree,
    out: &mut Vec<Change>,
) -> Result<(), AllocError>
    ensures { OnOk result (out.new.items
        ≡ out.old.items ++ told_old sides.now.0 sides.now.1 place entry.now) }
{
    match sides.partner(place) {
        Some(partner) => tell_differences(sides, (place, partner), entry, out),
        None => {
            let told = gone_differences(*out.allocator(), sides, place, entry)?;
            push_all((Some(place), None), told, out)
        }
    }
}

// Tells how an entry differs from the one to which it belongs.
fn tell_differences(
    sides: &Sides<'_>,
    places: (usize, usize),
    entry: &RowTree,
    out: &mut Vec<Change>,
) -> Result<(), AllocError>
    ensures { OnOk result (out.new.items ≡ out.old.items
        ++ told_with sides.now.0 sides.now.1 places.0 entry.now places.1) }
{
    let Some(partner) = sides.after().listing().entry(places.1) else {
        return Ok(());
    };
    let told = differences(*out.allocator(), sides, places, (entry, partner))?;
    push_all((Some(places.0), Some(places.1)), told, out)
}

// Tells of each entry that is new.
fn tell_new(sides: &Sides<'_>, out: &mut Vec<Change>) -> Result<(), AllocError>
    ensures { OnOk result (out.new.items ≡ out.old.items
        ++ flat_map (λ p. told_new sides.now.0 sides.now.1 p.0 p.1)
        (enumerate_from 0 sides.now.1)) }
{
    let trees = sides.after().listing().trees();
    for (place, entry) in trees.iter().enumerate() {
        let told = added_differences(*out.allocator(), sides, place, entry)?;
        push_all((None, Some(place)), told, out)?;
    }
    Ok(())
}

// Tells these differences of entries at these places.
fn push_all(
    places: (Option<usize>, Option<usize>),
    told: Vec<Difference>,
    out: &mut Vec<Change>,
) -> Result<(), AllocError>
    ensures { OnOk result (out.new.items
        ≡ out.old.items ++ map (change_at places.0 places.1) told.items) }
{
    for difference in told {
        out.push(Change {
            before: places.0,
            after: places.1,
            difference,
        })?;
    }
    Ok(())
}
