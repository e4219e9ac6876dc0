//! Texts that an editor shows.

ghost use Rattle.std.specs.Prelude.{◌≡◌, IfOk};
ghost use Rattle.serde_json.specs.View.{view};
ghost use Rattle.idl_editor.specs.told.Json.{shown_json};

use serde_json::Value;
use std::alloc::{AllocError, Global};

/// The text of these bytes, in which U+FFFD stands for what isn't UTF-8.
pub fn shown_value(alloc: Global, bytes: &[u8]) -> Result<Value, AllocError>
    ensures { IfOk result (λ value. view value ≡ shown_json bytes.now) }
{
    Ok(Value::String(String::from_utf8_lossy(alloc, bytes)?))
}
