//! Notices of what is found.

ghost use Rattle.std.specs.Prelude.{◌≡◌, IfOk, string_bytes};
ghost use Rattle.serde_json.specs.View.{view};
ghost use Rattle.idl_editor.specs.told.Published.{found_json};

use serde_json::{Value, json};
use std::alloc::{AllocError, Global};

/// What a notice of findings has: those of a file, and of an open document which version they are of.
pub fn found_params(
    alloc: Global,
    uri: String,
    version: Option<u64>,
    list: Value,
) -> Result<Value, AllocError>
    ensures { IfOk result (λ value.
        view value ≡ found_json (string_bytes uri) version (view list)) }
{
    match version {
        Some(version) => { json!(in alloc; {"diagnostics": list, "uri": uri, "version": version}) }
        None => json!(in alloc; {"diagnostics": list, "uri": uri}),
    }
}
