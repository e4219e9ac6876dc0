//! The rows of a listing in JSON: the tree of each, and where its name is declared.

ghost use Rattle.std.specs.Prelude.{◌≡◌, IfOk, OnOk};
ghost use Rattle.std.specs.Option.{option_map};
ghost use Rattle.serde_json.specs.View.{members_view, view};
ghost use Rattle.idl_json.specs.Listed.{column_field, kept_column, name_fields, place_fields, place_of, row_json, row_of};
ghost use Rattle.idl_json.specs.Objects.{with_fields};

use crate::objects::Object;
use crate::rows::put_row;
use idl_fault::Place;
use idl_repo::details::RowTree;
use serde_json::Value;
use std::alloc::{AllocError, Global};

// Many readers of JSON keep no number from here on.
const TOO_FAR: usize = 9_007_199_254_740_992;

/// Where a name is declared, how many bytes of its line are before it, if that is known, and whether its file is that of the root.
#[derive(Clone, Copy)]
pub struct NamePlace<'a> {
    pub place: &'a Place,
    pub column: Option<usize>,
    pub is_main: bool,
}

/// A row of a listing: its tree, and where its name is declared, if that is known.
#[derive(Clone, Copy)]
pub struct ListedRow<'a> {
    pub tree: &'a RowTree,
    pub declared: Option<NamePlace<'a>>,
}

/// A row of a listing.
pub(crate) fn row_value(alloc: Global, row: ListedRow<'_>) -> Result<Value, AllocError>
    ensures { IfOk result (λ value. view value ≡ row_json (row_of row.entry)) }
{
    let mut object = Object::new(alloc);
    put_row(alloc, &mut object, row.tree)?;
    put_place(&mut object, row.declared)?;
    Ok(object.into_value())
}

// Puts in where a name is declared, if that is known.
fn put_place(object: &mut Object, declared: Option<NamePlace<'_>>) -> Result<(), AllocError>
    ensures { OnOk result (members_view object.new.members.entries
        ≡ with_fields (members_view object.old.members.entries)
        (place_fields (option_map place_of declared.entry))) }
{
    match declared {
        Some(name) => put_name(object, name),
        None => Ok(()),
    }
}

// Puts in where a name is declared.
fn put_name(object: &mut Object, name: NamePlace<'_>) -> Result<(), AllocError>
    ensures { OnOk result (members_view object.new.members.entries
        ≡ with_fields (members_view object.old.members.entries)
        (name_fields (place_of name.entry))) }
{
    object.put_text("file", name.place.file.as_bytes())?;
    object.put("line", Value::from(name.place.line))?;
    object.put("main", Value::Bool(name.is_main))?;
    put_column(object, kept_column(name.column))
}

/// The column, where readers keep that number.
pub(crate) fn kept_column(column: Option<usize>) -> Option<usize>
    ensures { result ≡ kept_column column }
{
    match column {
        Some(before) if before < TOO_FAR => Some(before),
        _ => None,
    }
}

/// Puts in the column, if it is known: so many bytes of its line are before a name.
pub(crate) fn put_column(object: &mut Object, column: Option<usize>) -> Result<(), AllocError>
    requires { kept_column column ≡ column }
    ensures { OnOk result (members_view object.new.members.entries
        ≡ with_fields (members_view object.old.members.entries) (column_field column)) }
{
    match column {
        Some(before) => object.put("column", Value::from(before + 1)),
        None => Ok(()),
    }
}
