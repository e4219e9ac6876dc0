//! A change in JSON: for whom it counts, what it is of, what that was and is, and where that is declared.

ghost use Rattle.std.specs.Prelude.{◌≡◌, IfOk, OnOk};
ghost use Rattle.std.specs.Option.{option_map};
ghost use Rattle.serde_json.specs.Data.{no_members};
ghost use Rattle.serde_json.specs.View.{members_view, view};
ghost use Rattle.idl_changes.specs.Changes.{weight_names};
ghost use Rattle.idl_json.specs.Change.{change_json, change_line, change_of, entry_fields, part_fields, shown_fields, told_of, turn_fields};
ghost use Rattle.idl_json.specs.Listed.{place_of};
ghost use Rattle.idl_json.specs.Objects.{with_fields};

use crate::listed::{NamePlace, kept_column, put_column};
use crate::objects::Object;
use crate::root::push_value;
use idl_changes::{Difference, Turn, Weights, weight_names};
use idl_repo::details::{RowTree, kind_word};
use serde_json::Value;
use std::alloc::{AllocError, Global};

/// What differs of an entry, and where that is declared, if that is known.
#[derive(Clone, Copy)]
pub struct ChangeTold<'a> {
    pub tree: &'a RowTree,
    pub difference: &'a Difference,
    pub declared: Option<NamePlace<'a>>,
}

/// The line of a change: one object.
#[tactic(auto, unfolding(crate::specs::Change::change_line))]
pub fn change_line(alloc: Global, change: ChangeTold<'_>) -> Result<Vec<u8>, AllocError>
    ensures { IfOk result (λ line. line.items ≡ change_line (change_of change.entry)) }
{
    let value = change_value(alloc, change)?;
    let mut line = Vec::new(alloc);
    push_value(&mut line, &value)?;
    line.push(b'\n')?;
    Ok(line)
}

// A change.
fn change_value(alloc: Global, change: ChangeTold<'_>) -> Result<Value, AllocError>
    ensures { IfOk result (λ value. view value ≡ change_json (change_of change.entry)) }
{
    let mut object = Object::new(alloc);
    put_told(alloc, &mut object, change.tree, change.difference.weights)?;
    put_part(&mut object, change.difference.part.as_bytes())?;
    put_turn(&mut object, &change.difference.turn)?;
    put_shown(&mut object, change.declared)?;
    Ok(object.into_value())
}

// Puts in of which entry a change is, and for whom it counts.
fn put_told(
    alloc: Global,
    object: &mut Object,
    entry: &RowTree,
    weights: Weights,
) -> Result<(), AllocError>
    requires { members_view object.old.members.entries ≡ no_members }
    ensures { OnOk result (members_view object.new.members.entries
        ≡ told_of entry.now (weight_names weights)) }
{
    let names = weight_names(alloc, weights)?;
    object.put_texts("weights", &names)?;
    put_entry(object, entry)
}

// Puts in what an entry is.
fn put_entry(object: &mut Object, entry: &RowTree) -> Result<(), AllocError>
    ensures { OnOk result (members_view object.new.members.entries
        ≡ with_fields (members_view object.old.members.entries) (entry_fields entry.now)) }
{
    object.put_text("kind", kind_word(entry.kind))?;
    object.put_text("path", entry.path.as_bytes())?;
    object.put_text("id", entry.id.as_bytes())
}

// Puts in a part, which a whole entry hasn't.
fn put_part(object: &mut Object, part: &[u8]) -> Result<(), AllocError>
    ensures { OnOk result (members_view object.new.members.entries
        ≡ with_fields (members_view object.old.members.entries) (part_fields part.now)) }
{
    if part.is_empty() {
        return Ok(());
    }
    object.put_text("part", part)
}

// Puts in what became of a part.
fn put_turn(object: &mut Object, turn: &Turn) -> Result<(), AllocError>
    ensures { OnOk result (members_view object.new.members.entries
        ≡ with_fields (members_view object.old.members.entries) (turn_fields turn.now)) }
{
    match turn {
        Turn::Gone => object.put_text("word", b"is gone"),
        Turn::New => object.put_text("word", b"is new"),
        Turn::NewAt(number) => {
            object.put_text("word", b"is new")?;
            object.put("number", Value::from(*number))
        }
        Turn::Changed(was, is) => {
            object.put_text("old", was.as_bytes())?;
            object.put_text("new", is.as_bytes())
        }
    }
}

// Puts in where an entry is declared, if that is known.
fn put_shown(object: &mut Object, declared: Option<NamePlace<'_>>) -> Result<(), AllocError>
    ensures { OnOk result (members_view object.new.members.entries
        ≡ with_fields (members_view object.old.members.entries)
        (shown_fields (option_map place_of declared.entry))) }
{
    let Some(name) = declared else {
        return Ok(());
    };
    object.put_text("file", name.place.file.as_bytes())?;
    object.put("line", Value::from(name.place.line))?;
    put_column(object, kept_column(name.column))
}
