//! Positions and ranges, as they are told.

ghost use Rattle.std.specs.Prelude.{◌≡◌, IfOk, string_bytes};
ghost use Rattle.serde_json.specs.View.{view};
ghost use Rattle.idl_editor.specs.told.Json.{highlight_json, location_json, position_json, range_json};

use crate::change::Range;
use crate::position::Position;
use serde_json::{Value, json};
use std::alloc::{AllocError, Global};

/// A range, as it is told.
pub fn range_value(alloc: Global, range: Range) -> Result<Value, AllocError>
    ensures { IfOk result (λ value. view value ≡ range_json range) }
{
    json!(in alloc; {
        "end": position_value(alloc, range.end)?,
        "start": position_value(alloc, range.start)?,
    })
}

/// A range of a document, as it is told.
pub fn location_value(alloc: Global, uri: &String, range: Range) -> Result<Value, AllocError>
    ensures { IfOk result (λ value. view value ≡ location_json (string_bytes uri.now) range) }
{
    json!(in alloc; {"range": range_value(alloc, range)?, "uri": uri})
}

/// A range of the document that is asked of, as it is told.
pub fn highlight_value(alloc: Global, range: Range) -> Result<Value, AllocError>
    ensures { IfOk result (λ value. view value ≡ highlight_json range) }
{
    json!(in alloc; {"range": range_value(alloc, range)?})
}

// A position, as it is told.
fn position_value(alloc: Global, position: Position) -> Result<Value, AllocError>
    ensures { IfOk result (λ value. view value ≡ position_json position) }
{
    json!(in alloc; {"character": position.column, "line": position.line})
}
