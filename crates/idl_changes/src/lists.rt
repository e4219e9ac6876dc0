//! Parts of entries that are lists with names.

ghost use Rattle.std.specs.Prelude.{◌≡◌, ◌+◌, ◌-◌, ◌^◌, ◌<◌, ◌++◌, ◌&&◌, [], IfOk, OnOk, codes, decimal, false, flat_map, if◌then◌else◌, option_and_then, option_copied, slice_get, unwrap_or};
ghost use Rattle.std.specs.Bool.{beq};
ghost use Rattle.std.specs.List.{enumerate_from, zip};
ghost use Rattle.std.specs.Option.{option_map_or};
ghost use Rattle.idl_changes.specs.Differences.{direction_differences, item_differences, item_part, list_differences, matched_differences, name_differences, new_differences, order_differences, told};
ghost use Rattle.idl_changes.specs.Rows.{item_word};

use crate::change::{Difference, Turn};
use crate::matched::{Named, in_order, marked, matches};
use crate::parts::{in_a_row, part_of, push_changed, push_named, push_told};
use crate::rows::{Item, Line, item_word};
use crate::sides::Sides;
use crate::types::compare_types;
use idl_base::Bytes;
use idl_repo::details::{MemberTree, ParameterTree, direction_word};
use idl_repo::push_number;
use std::alloc::{AllocError, Global};

/// What lists are made of that are compared.
pub trait ListItem: Named {
    ghost use Rattle.std.specs.Prelude.{List};
    ghost use Rattle.idl_changes.specs.declared.change.Difference.{Difference};
    ghost use Rattle.idl_repo.specs.declared.details.row_tree.RowTree.{RowTree};

    /// What differs between two that belong together, but their names, in an old listing and a new one.
    ghost both: { (old new : List RowTree) → Self → Self → List Difference };

    /// Compares it with the one that belongs to it.
    fn compare(
        &self,
        new: &Self,
        sides: &Sides<'_>,
        out: &mut Vec<Difference>,
    ) -> Result<(), AllocError>
        ensures { OnOk result (out.new.items
            ≡ out.old.items ++ both sides.now.0 sides.now.1 self.now new.now) };
}

/// Two lists of items, the old one first.
pub struct Lists<'a, T> {
    pub item: Item,
    pub before: &'a [T],
    pub after: &'a [T],
}

impl<'a, T> Drop for Lists<'a, T> {
    fn drop(self) {
        let Lists {
            item: _item,
            before: _before,
            after: _after,
        } = self;
    }
}

/// Compares lists.
#[tactic(auto, unfolding(crate::specs::Differences::list_differences))]
pub fn compare_lists<T: ListItem>(
    sides: &Sides<'_>,
    lists: &Lists<'_, T>,
    out: &mut Vec<Difference>,
) -> Result<(), AllocError>
    ensures { OnOk result (out.new.items ≡ out.old.items
        ++ list_differences lists.now.item T.name_of (T.both sides.now.0 sides.now.1)
        lists.now.before.now lists.now.after.now) }
{
    let found = matches(*out.allocator(), lists.before, lists.after)?;
    compare_matched(sides, lists, &found, out)
}

// Compares lists, where these are the places of the new items to which the old ones belong.
fn compare_matched<T: ListItem>(
    sides: &Sides<'_>,
    lists: &Lists<'_, T>,
    found: &[Option<usize>],
    out: &mut Vec<Difference>,
) -> Result<(), AllocError>
    ensures { OnOk result (out.new.items ≡ out.old.items
        ++ matched_differences lists.now.item T.name_of (T.both sides.now.0 sides.now.1)
        found.now lists.now.before.now lists.now.after.now) }
{
    compare_items(sides, lists, found, out)?;
    push_new_items(lists, found, out)?;
    compare_orders(lists, found, out)
}

// Compares each old item with the one to which it belongs.
fn compare_items<T: ListItem>(
    sides: &Sides<'_>,
    lists: &Lists<'_, T>,
    found: &[Option<usize>],
    out: &mut Vec<Difference>,
) -> Result<(), AllocError>
    ensures { OnOk result (out.new.items ≡ out.old.items
        ++ flat_map (λ p. item_differences lists.now.item T.name_of
        (T.both sides.now.0 sides.now.1) p.0 p.1.0
        (option_and_then (slice_get lists.now.after.now) p.1.1))
        (enumerate_from 0 (zip lists.now.before.now found.now))) }
{
    for (place, partner) in found.iter().enumerate() {
        compare_item_at(sides, lists, (place, *partner), out)?;
    }
    Ok(())
}

// Compares the item at a place, if there is one, with the one at another, if there is one.
fn compare_item_at<T: ListItem>(
    sides: &Sides<'_>,
    lists: &Lists<'_, T>,
    places: (usize, Option<usize>),
    out: &mut Vec<Difference>,
) -> Result<(), AllocError>
    requires { places.0 < 2 ^ 64 - 1 }
    ensures { OnOk result (out.new.items ≡ out.old.items
        ++ option_map_or (λ x. item_differences lists.now.item T.name_of
        (T.both sides.now.0 sides.now.1) places.0 x
        (option_and_then (slice_get lists.now.after.now) places.1))
        (slice_get lists.now.before.now places.0) []) }
{
    let Some(item) = lists.before.get(places.0) else {
        return Ok(());
    };
    let other = at_place(lists.after, places.1);
    compare_item(sides, (lists.item, places.0), (item, other), out)
}

// The item at a place, if there is one.
fn at_place<T>(items: &[T], place: Option<usize>) -> Option<&T>
    ensures { option_copied result ≡ option_and_then (slice_get items.now) place }
{
    match place {
        Some(place) => items.get(place),
        None => None,
    }
}

// Compares an item at a place with the one to which it belongs, if there is one.
fn compare_item<T: ListItem>(
    sides: &Sides<'_>,
    at: (Item, usize),
    pair: (&T, Option<&T>),
    out: &mut Vec<Difference>,
) -> Result<(), AllocError>
    requires { at.1 < 2 ^ 64 - 1 }
    ensures { OnOk result (out.new.items ≡ out.old.items
        ++ item_differences at.0 T.name_of (T.both sides.now.0 sides.now.1) at.1
        pair.entry.0.now (option_copied pair.entry.1)) }
{
    let (item, other) = pair;
    match other {
        Some(other) => {
            compare_names(at, (item.name(), other.name()), out)?;
            item.compare(other, sides, out)
        }
        None => push_item(Line::ItemGone(at.0), (at.0, item), Turn::Gone, out),
    }
}

// Compares the names of items at a place.
fn compare_names(
    at: (Item, usize),
    names: (&Bytes, &Bytes),
    out: &mut Vec<Difference>,
) -> Result<(), AllocError>
    requires { at.1 < 2 ^ 64 - 1 }
    ensures { OnOk result (out.new.items ≡ out.old.items
        ++ name_differences at.0 at.1 names.entry.0.now names.entry.1.now) }
{
    let (item, place) = at;
    let texts = (names.0.as_bytes(), names.1.as_bytes());
    if texts.0 == texts.1 {
        return Ok(());
    }
    let part = name_part(*out.allocator(), item, place + 1)?;
    push_changed(Line::ItemName(item), &part, texts, out)
}

// The name of an item, by its number.
fn name_part(alloc: Global, item: Item, number: usize) -> Result<Vec<u8>, AllocError>
    ensures { IfOk result (λ part.
        part.items ≡ codes "name of " ++ item_part item (decimal number)) }
{
    let mut part = part_of(alloc, b"name of ", item_word(item))?;
    part.extend_from_slice(b" ")?;
    push_number(&mut part, number)?;
    Ok(part)
}

// Tells what became of an item.
fn push_item<T: Named>(
    line: Line,
    item: (Item, &T),
    turn: Turn,
    out: &mut Vec<Difference>,
) -> Result<(), AllocError>
    ensures { OnOk result (out.new.items ≡ out.old.items
        ++ told line (item_part item.entry.0 (T.name_of item.entry.1.now)) turn) }
{
    let part = item_part(*out.allocator(), item.0, item.1.name())?;
    push_told(line, &part, turn, out)
}

// An item by its word and its name.
fn item_part(alloc: Global, item: Item, name: &Bytes) -> Result<Vec<u8>, AllocError>
    ensures { IfOk result (λ part. part.items ≡ item_part item name.now) }
{
    let mut part = Vec::from_slice(alloc, item_word(item))?;
    push_named(&mut part, name.as_bytes())?;
    Ok(part)
}

// Tells of each new item to which no old one belongs.
fn push_new_items<T: Named>(
    lists: &Lists<'_, T>,
    found: &[Option<usize>],
    out: &mut Vec<Difference>,
) -> Result<(), AllocError>
    ensures { OnOk result (out.new.items ≡ out.old.items
        ++ flat_map (λ p. new_differences lists.now.item T.name_of found.now p.0 p.1)
        (enumerate_from 0 lists.now.after.now)) }
{
    let after = lists.after;
    let marks = marked(*out.allocator(), found, after.len())?;
    for (place, item) in after.iter().enumerate() {
        push_new_item((lists.item, item), place, is_marked(&marks, place), out)?;
    }
    Ok(())
}

// Whether a place is marked.
fn is_marked(marks: &[bool], place: usize) -> bool
    ensures { result ≡ unwrap_or (slice_get marks.now place) false }
{
    match marks.get(place) {
        Some(mark) => *mark,
        None => false,
    }
}

// Tells of a new item at a place, unless an old one belongs to it.
fn push_new_item<T: Named>(
    item: (Item, &T),
    place: usize,
    is_known: bool,
    out: &mut Vec<Difference>,
) -> Result<(), AllocError>
    requires { place < 2 ^ 64 - 1 }
    ensures { OnOk result (out.new.items ≡ out.old.items ++ (if is_known
        then []
        else told (Line.ItemNew item.entry.0)
        (item_part item.entry.0 (T.name_of item.entry.1.now)) (Turn.NewAt (place + 1)))) }
{
    if is_known {
        return Ok(());
    }
    push_item(Line::ItemNew(item.0), item, Turn::NewAt(place + 1), out)
}

// Tells where those that belong to one stand in another order.
fn compare_orders<T: Named>(
    lists: &Lists<'_, T>,
    found: &[Option<usize>],
    out: &mut Vec<Difference>,
) -> Result<(), AllocError>
    ensures { OnOk result (out.new.items ≡ out.old.items
        ++ order_differences lists.now.item T.name_of found.now lists.now.before.now
        lists.now.after.now) }
{
    if in_order(found) {
        return Ok(());
    }
    let part = order_part(*out.allocator(), lists.item)?;
    let was = in_a_row(*out.allocator(), lists.before)?;
    let is = in_a_row(*out.allocator(), lists.after)?;
    let texts = (was.as_slice(), is.as_slice());
    push_changed(Line::ItemOrder(lists.item), &part, texts, out)
}

// The order of items.
fn order_part(alloc: Global, item: Item) -> Result<Vec<u8>, AllocError>
    ensures { IfOk result (λ part.
        part.items ≡ codes "order of " ++ (item_word item ++ codes "s")) }
{
    let mut part = part_of(alloc, b"order of ", item_word(item))?;
    part.extend_from_slice(b"s")?;
    Ok(part)
}

impl Named for Bytes {
    ghost use Rattle.idl_changes.specs.Differences.{own_name};

    ghost name_of = { own_name };

    fn name(&self) -> &Bytes {
        self
    }
}

impl ListItem for Bytes {
    ghost use Rattle.idl_changes.specs.Differences.{no_differences};

    ghost both = { λ old new. no_differences };

    fn compare(
        &self,
        _new: &Bytes,
        _sides: &Sides<'_>,
        _out: &mut Vec<Difference>,
    ) -> Result<(), AllocError> {
        Ok(())
    }
}

impl Named for MemberTree {
    ghost use Rattle.idl_changes.specs.Differences.{name_of_member};

    ghost name_of = { name_of_member };

    fn name(&self) -> &Bytes {
        &self.name
    }
}

impl ListItem for MemberTree {
    ghost use Rattle.idl_changes.specs.Differences.{member_differences};

    ghost both = { member_differences };

    #[tactic(auto, unfolding(crate::specs::Differences::member_differences))]
    fn compare(
        &self,
        new: &MemberTree,
        sides: &Sides<'_>,
        out: &mut Vec<Difference>,
    ) -> Result<(), AllocError> {
        let name = self.name.as_bytes();
        let part = part_of(*out.allocator(), b"type of member ", name)?;
        compare_types(sides, &part, (&self.data_type, &new.data_type), out)
    }
}

impl Named for ParameterTree {
    ghost use Rattle.idl_changes.specs.Differences.{name_of_parameter};

    ghost name_of = { name_of_parameter };

    fn name(&self) -> &Bytes {
        &self.member.name
    }
}

impl ListItem for ParameterTree {
    ghost use Rattle.idl_changes.specs.Differences.{parameter_differences};

    ghost both = { parameter_differences };

    #[tactic(auto, unfolding(crate::specs::Differences::parameter_differences))]
    fn compare(
        &self,
        new: &ParameterTree,
        sides: &Sides<'_>,
        out: &mut Vec<Difference>,
    ) -> Result<(), AllocError> {
        compare_directions(self, new, out)?;
        let name = self.member.name.as_bytes();
        let part = part_of(*out.allocator(), b"type of parameter ", name)?;
        let types = (&self.member.data_type, &new.member.data_type);
        compare_types(sides, &part, types, out)
    }
}

// Compares whether parameters go in and come out.
fn compare_directions(
    old: &ParameterTree,
    new: &ParameterTree,
    out: &mut Vec<Difference>,
) -> Result<(), AllocError>
    ensures { OnOk result (out.new.items
        ≡ out.old.items ++ direction_differences old.now new.now) }
{
    if is_same_direction(old, new) {
        return Ok(());
    }
    let name = old.member.name.as_bytes();
    let part = part_of(*out.allocator(), b"direction of parameter ", name)?;
    let was = direction_word(old.goes_in, old.comes_out);
    let is = direction_word(new.goes_in, new.comes_out);
    push_changed(Line::Direction, &part, (was, is), out)
}

// Whether both go in or neither does, and whether both come out or neither does.
fn is_same_direction(old: &ParameterTree, new: &ParameterTree) -> bool
    ensures { result ≡ (beq old.now.goes_in new.now.goes_in
        && beq old.now.comes_out new.now.comes_out) }
{
    old.goes_in == new.goes_in && old.comes_out == new.comes_out
}
