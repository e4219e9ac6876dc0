//! What is told of an entry: how it differs from the one to which it belongs, or that it is gone or new.

ghost use Rattle.std.specs.Prelude.{◌≡◌, ◌++◌, [], IfOk, OnOk, codes, false, if◌then◌else◌, map};
ghost use Rattle.std.specs.Option.{option_and_then, option_map_or};
ghost use Rattle.idl_changes.specs.Differences.{added_differences, as_called, called_gone, called_new, differences, entry_differences, gone_differences, id_line, is_called_locally, kind_differences, text_differences};
ghost use Rattle.idl_changes.specs.Listing.{interface_of, is_called, is_local_at};
ghost use Rattle.idl_changes.specs.Partners.{joined};
ghost use Rattle.idl_changes.specs.Rows.{eased};
ghost use Rattle.idl_changes.specs.declared.change.Difference.{Difference};

use crate::change::{Difference, Turn};
use crate::details::compare_details;
use crate::interfaces::compare_interfaces;
use crate::listing::{Listing, is_called, is_interface, is_local, is_sent_kind, name_of};
use crate::parts::{compare_texts, push_changed, push_told};
use crate::rows::{Line, eased};
use crate::sides::{Sides, own_interface};
use idl_entity::Kind;
use idl_repo::details::{RowTree, kind_word};
use std::alloc::{AllocError, Global};

/// How an entry of the old listing differs from the one of the new listing to which it belongs, at these places.
#[tactic(auto, unfolding(crate::specs::Differences::differences))]
pub fn differences(
    alloc: Global,
    sides: &Sides<'_>,
    places: (usize, usize),
    entries: (&RowTree, &RowTree),
) -> Result<Vec<Difference>, AllocError>
    ensures { IfOk result (λ told. told.items ≡ differences sides.now.0 sides.now.1 places.0
        places.1 entries.entry.0.now entries.entry.1.now) }
{
    let mut told = Vec::new(alloc);
    compare_entries(sides, places, entries, &mut told)?;
    as_called(sides, entries.0, told)
}

// What is told of an entry, for whom it counts where that is called on a local interface.
fn as_called(
    sides: &Sides<'_>,
    entry: &RowTree,
    told: Vec<Difference>,
) -> Result<Vec<Difference>, AllocError>
    ensures { IfOk result (λ counted. counted.items
        ≡ as_called sides.now.0 sides.now.1 entry.now told.items) }
{
    let is_local = is_called_locally(sides, entry)?;
    if is_local { all_eased(told) } else { Ok(told) }
}

// Compares entries: their ids, their paths, and what they are.
fn compare_entries(
    sides: &Sides<'_>,
    places: (usize, usize),
    entries: (&RowTree, &RowTree),
    out: &mut Vec<Difference>,
) -> Result<(), AllocError>
    ensures { OnOk result (out.new.items ≡ out.old.items ++ entry_differences sides.now.0
        sides.now.1 places.0 places.1 entries.entry.0.now entries.entry.1.now) }
{
    let (old, new) = entries;
    let ids = (old.id.as_bytes(), new.id.as_bytes());
    compare_texts(id_line(old.kind), b"id", ids, out)?;
    compare_paths(old, new, out)?;
    compare_kinds(sides, places, entries, out)
}

// Compares the paths of what isn't called.
fn compare_paths(old: &RowTree, new: &RowTree, out: &mut Vec<Difference>) -> Result<(), AllocError>
    ensures { OnOk result (out.new.items ≡ out.old.items ++ (if is_called old.now
        then []
        else text_differences Line.Path (codes "path") old.now.path new.now.path)) }
{
    if is_called(old) {
        return Ok(());
    }
    let paths = (old.path.as_bytes(), new.path.as_bytes());
    compare_texts(Line::Path, b"path", paths, out)
}

// The line of another id.
fn id_line(kind: Kind) -> Line
    ensures { result ≡ id_line kind }
{
    if is_sent_kind(kind) {
        Line::SentId
    } else {
        Line::OtherId
    }
}

// Compares kinds, and where they are one what is told of them.
fn compare_kinds(
    sides: &Sides<'_>,
    places: (usize, usize),
    entries: (&RowTree, &RowTree),
    out: &mut Vec<Difference>,
) -> Result<(), AllocError>
    ensures { OnOk result (out.new.items ≡ out.old.items ++ kind_differences sides.now.0
        sides.now.1 places.0 places.1 entries.entry.0.now entries.entry.1.now) }
{
    let (old, new) = entries;
    if old.kind == new.kind {
        if is_interface(old) {
            return compare_interfaces(sides, places, entries, out);
        }
        return compare_details(sides, &old.details, &new.details, out);
    }
    let kinds = (kind_word(old.kind), kind_word(new.kind));
    push_changed(Line::Kind, b"kind", kinds, out)
}

// Whether an entry of the old listing is called on a local interface.
fn is_called_locally(sides: &Sides<'_>, entry: &RowTree) -> Result<bool, AllocError>
    ensures { IfOk result (λ local.
        local ≡ is_called_locally sides.now.0 sides.now.1 entry.now) }
{
    if !is_called(entry) {
        return Ok(false);
    }
    let listing = sides.before().listing();
    let place = listing.interface_of(entry)?;
    Ok(is_local_at(listing, place))
}

// Whether a local interface stands at a place, if there is one.
fn is_local_at(listing: &Listing<'_>, place: Option<usize>) -> bool
    ensures { result ≡ option_map_or (is_local_at listing.now) place false }
{
    let Some(place) = place else {
        return false;
    };
    match listing.entry(place) {
        Some(interface) => is_local(interface),
        None => false,
    }
}

// Differences as they count where something is called on a local interface.
fn all_eased(told: Vec<Difference>) -> Result<Vec<Difference>, AllocError>
    ensures { IfOk result (λ all. all.items
        ≡ map (λ (d : Difference). record d { weights = eased d.weights }) told.items) }
{
    let mut all = Vec::new(*told.allocator());
    for difference in told {
        let mut counted = difference;
        counted.weights = eased(counted.weights);
        all.push(counted)?;
    }
    Ok(all)
}

/// What is told of an entry of the old listing that belongs to none.
#[tactic(auto, unfolding(crate::specs::Differences::gone_differences))]
pub fn gone_differences(
    alloc: Global,
    sides: &Sides<'_>,
    place: usize,
    entry: &RowTree,
) -> Result<Vec<Difference>, AllocError>
    ensures { IfOk result (λ told. told.items
        ≡ gone_differences sides.now.0 sides.now.1 place entry.now) }
{
    if is_called(entry) {
        return called_gone(alloc, sides, place, entry);
    }
    let mut told = Vec::new(alloc);
    let line = if is_sent_kind(entry.kind) {
        Line::SentGone
    } else {
        Line::UnsentGone
    };
    push_told(line, b"", Turn::Gone, &mut told)?;
    Ok(told)
}

// The same of a called one: it is told where its interface belongs to one.
fn called_gone(
    alloc: Global,
    sides: &Sides<'_>,
    place: usize,
    entry: &RowTree,
) -> Result<Vec<Difference>, AllocError>
    ensures { IfOk result (λ told. told.items
        ≡ option_map_or (called_gone sides.now.0 sides.now.1 place entry.now)
        (interface_of sides.now.0 entry.now) []) }
{
    let mut told = Vec::new(alloc);
    let Some(interface) = own_interface(sides.before(), place, entry)? else {
        return Ok(told);
    };
    if sides.joined(interface).is_none() {
        return Ok(told);
    }
    push_told(Line::CalledGone, b"", Turn::Gone, &mut told)?;
    as_called(sides, entry, told)
}

/// What is told of an entry of the new listing: that it is new, if it is.
#[tactic(auto, unfolding(crate::specs::Differences::added_differences))]
pub fn added_differences(
    alloc: Global,
    sides: &Sides<'_>,
    place: usize,
    entry: &RowTree,
) -> Result<Vec<Difference>, AllocError>
    ensures { IfOk result (λ told. told.items
        ≡ added_differences sides.now.0 sides.now.1 place entry.now) }
{
    let mut told = Vec::new(alloc);
    if is_called(entry) {
        push_called_new(sides, entry, &mut told)?;
        return Ok(told);
    }
    if sides.joined_back(place).is_some() {
        return Ok(told);
    }
    push_told(Line::EntryNew, b"", Turn::New, &mut told)?;
    Ok(told)
}

// Tells that a called entry is new, where the old interface offers none of its name.
fn push_called_new(
    sides: &Sides<'_>,
    entry: &RowTree,
    out: &mut Vec<Difference>,
) -> Result<(), AllocError>
    ensures { OnOk result (out.new.items ≡ out.old.items
        ++ option_map_or (called_new sides.now.0 sides.now.1 entry.now)
        (option_and_then (joined sides.now.1 sides.now.0) (interface_of sides.now.1 entry.now))
        []) }
{
    let Some(interface) = sides.after().listing().interface_of(entry)? else {
        return Ok(());
    };
    push_new_on(sides, sides.joined_back(interface), entry, out)
}

// Tells that a called entry is new, where the old interface at a place, if there is one, offers none of its name.
fn push_new_on(
    sides: &Sides<'_>,
    place: Option<usize>,
    entry: &RowTree,
    out: &mut Vec<Difference>,
) -> Result<(), AllocError>
    ensures { OnOk result (out.new.items ≡ out.old.items
        ++ option_map_or (called_new sides.now.0 sides.now.1 entry.now) place []) }
{
    let Some(place) = place else {
        return Ok(());
    };
    let name = name_of(&entry.path)?;
    let found = sides.before().offered(place, &name)?;
    if found.is_some() {
        return Ok(());
    }
    push_told(Line::CalledNew, b"", Turn::New, out)
}
