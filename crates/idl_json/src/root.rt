//! What is told of a root, in JSON.

ghost use Rattle.std.specs.Prelude.{◌≡◌, ◌++◌, IfOk, List, OnOk, false, map, nat_lt};
ghost use Rattle.std.specs.List.{AllZip};
ghost use Rattle.serde_json.specs.Data.{Data, boolean};
ghost use Rattle.serde_json.specs.View.{items_of, view};
ghost use Rattle.serde_json.specs.Written.{comma_if, compact_text, has_float, items_text};
ghost use Rattle.idl_json.specs.Diagnostic.{IsDiagnosticJson, located};
ghost use Rattle.idl_json.specs.Listed.{row_json, row_of};
ghost use Rattle.idl_json.specs.Root.{IsRootLine, root_of};
ghost use Rattle.idl_json.specs.Text.{text_json, texts_json};

use crate::diagnostic::{Diagnostic, diagnostic_value};
use crate::listed::{ListedRow, row_value};
use crate::text::text_value;
use idl_source::Name;
use serde_json::Value;
use std::alloc::{AllocError, Global};

/// What is told of a root.
#[derive(Clone, Copy)]
pub struct RootTold<'a> {
    pub name: &'a Name,
    pub is_faulty: bool,
    pub found: &'a [Diagnostic<'a>],
    /// Its rows.
    pub listing: &'a [ListedRow<'a>],
    /// The files that it asks for, and those that aren't there.
    pub asked: &'a [Name],
    pub absent: &'a [Name],
}

/// The line of a root: one object that tells all of it.
///
/// Of findings and rows each becomes text before the next one is looked at: as values all of them would take thirty times the room
/// of the text.
pub fn root_line(alloc: Global, root: &RootTold<'_>) -> Result<Vec<u8>, AllocError>
    ensures { IfOk result (λ line. IsRootLine (root_of root.now) line.items) }
{
    let mut line = Vec::new(alloc);
    line.extend_from_slice(b"{\"absent\":")?;
    push_names(&mut line, root.absent)?;
    line.extend_from_slice(b",\"asked\":")?;
    push_names(&mut line, root.asked)?;
    line.extend_from_slice(b",\"diagnostics\":[")?;
    push_diagnostics(&mut line, root.found)?;
    line.extend_from_slice(b",\"faulty\":")?;
    line.extend_from_slice(truth(root.is_faulty))?;
    line.extend_from_slice(b",\"listing\":[")?;
    push_rows(&mut line, root.listing)?;
    line.extend_from_slice(b",\"root\":")?;
    push_text(&mut line, root.name.as_bytes())?;
    line.extend_from_slice(b"}\n")?;
    Ok(line)
}

// How a truth value is written.
fn truth(value: bool) -> &'static [u8]
    ensures { result.now ≡ compact_text (boolean value) }
{
    if value { b"true" } else { b"false" }
}

// Writes what is found, one after another, and the bracket behind it.
fn push_diagnostics(out: &mut Vec<u8>, found: &[Diagnostic<'_>]) -> Result<(), AllocError>
    ensures { OnOk result ((jsons : List Data)
        × AllZip IsDiagnosticJson (map located found.entry.now) jsons
        × (out.new.items ≡ out.old.items ++ items_text false (items_of jsons))) }
{
    let alloc = *out.allocator();
    'found: for index in 0..found.len() {
        push_comma(out, index)?;
        push_value(out, &diagnostic_value(alloc, &found[index])?)?;
    }
    out.push(b']')?;
    Ok(())
}

// Writes rows, in order, and the bracket behind them.
fn push_rows(out: &mut Vec<u8>, listing: &[ListedRow<'_>]) -> Result<(), AllocError>
    ensures { OnOk result (out.new.items ≡ out.old.items
        ++ items_text false (items_of (map row_json (map row_of listing.entry.now)))) }
{
    let alloc = *out.allocator();
    'rows: for index in 0..listing.len() {
        push_comma(out, index)?;
        push_value(out, &row_value(alloc, listing[index])?)?;
    }
    out.push(b']')?;
    Ok(())
}

// Writes a comma before what has a number over 0.
fn push_comma(out: &mut Vec<u8>, index: usize) -> Result<(), AllocError>
    ensures { OnOk result (out.new.items ≡ out.old.items ++ comma_if (nat_lt 0 index)) }
{
    if index > 0 {
        out.push(b',')?;
    }
    Ok(())
}

// Writes names, in order.
fn push_names(out: &mut Vec<u8>, names: &[Name]) -> Result<(), AllocError>
    ensures { OnOk result
        (out.new.items ≡ out.old.items ++ compact_text (texts_json names.now)) }
{
    let value = names_value(*out.allocator(), names)?;
    push_value(out, &value)
}

// Writes a text.
fn push_text(out: &mut Vec<u8>, text: &[u8]) -> Result<(), AllocError>
    ensures { OnOk result (out.new.items ≡ out.old.items ++ compact_text (text_json text.now)) }
{
    let value = text_value(*out.allocator(), text)?;
    push_value(out, &value)
}

/// Writes a value that has no float.
pub(crate) fn push_value(out: &mut Vec<u8>, value: &Value) -> Result<(), AllocError>
    requires { has_float (view value.now) ≡ false }
    ensures { OnOk result (out.new.items ≡ out.old.items ++ compact_text (view value.now)) }
{
    let text = value.to_vec(*out.allocator())?;
    out.extend_from_slice(&text)
}

// Names, in order.
fn names_value(alloc: Global, names: &[Name]) -> Result<Value, AllocError>
    ensures { IfOk result (λ value. view value ≡ texts_json names.now) }
{
    let mut values = Vec::with_capacity(alloc, names.len())?;
    'names: for name in names {
        values.push(text_value(alloc, name.as_bytes())?)?;
    }
    Ok(Value::Array(values))
}
