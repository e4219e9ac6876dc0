//! The parameters of messages.

ghost use Rattle.std.specs.Prelude.{◌≡◌};
ghost use Rattle.std.specs.Option.{option_copied, option_map};
ghost use Rattle.serde_json.specs.View.{items_view, view};
ghost use Rattle.idl_editor.specs.messages.Params.{changes_in, position_at, position_of, range_of, told_in, uri_in, version_in};

use crate::messages::fields::{number_at, text_at};
use crate::{ContentChange, Position, Range};
use serde_json::Value;

/// The URI of the document that parameters are about.
pub fn uri_of(params: &Value) -> Option<&str>
    ensures { option_copied result ≡ uri_in (view params.now) }
{
    match params.get("textDocument") {
        Some(document) => text_at(document, "uri"),
        None => None,
    }
}

/// The version of the document that parameters are about.
pub fn version_of(params: &Value) -> Option<u64>
    ensures { result ≡ version_in (view params.now) }
{
    match params.get("textDocument") {
        Some(document) => number_at(document, "version"),
        None => None,
    }
}

/// The position under a key.
pub fn position_at(value: &Value, key: &str) -> Option<Position>
    ensures { result ≡ position_at key.now (view value.now) }
{
    match value.get(key) {
        Some(value) => position_of(value),
        None => None,
    }
}

// The position that a value tells.
fn position_of(value: &Value) -> Option<Position>
    ensures { result ≡ position_of (view value.now) }
{
    let line = number_at(value, "line")?;
    let column = number_at(value, "character")?;
    Some(Position {
        line: line as usize,
        column: column as usize,
    })
}

/// The changes that parameters tell of, one after another.
pub fn changes_of(params: &Value) -> Option<&[Value]>
    ensures { option_map (λ changes. items_view changes.now) result ≡ changes_in (view params.now) }
{
    let changes = params.get("contentChanges")?;
    let changes = changes.as_array()?;
    Some(changes.as_slice())
}

/// The change that a value tells.
pub fn change_of(value: &Value) -> Option<ContentChange<'_>>
    ensures { option_map (λ change. (change.range, change.text.now)) result
        ≡ told_in (view value.now) }
{
    let text = text_at(value, "text")?;
    let range = match value.get("range") {
        None => None,
        Some(range) if range.is_null() => None,
        Some(range) => Some(range_of(range)?),
    };
    Some(ContentChange {
        range,
        text: text.as_bytes(),
    })
}

// The range that a value tells.
fn range_of(value: &Value) -> Option<Range>
    ensures { result ≡ range_of (view value.now) }
{
    let start = position_at(value, "start")?;
    let end = position_at(value, "end")?;
    Some(Range { start, end })
}
