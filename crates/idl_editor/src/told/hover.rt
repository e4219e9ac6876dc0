//! What is shown of a name.

use crate::told::shown::shown_value;
use serde_json::{Value, json};
use std::alloc::{AllocError, Global};

/// A text that is shown of a name.
pub fn hover_value(alloc: Global, text: &[u8]) -> Result<Value, AllocError> {
    let contents = json!(in alloc; {
        "kind": "plaintext",
        "value": shown_value(alloc, text)?,
    })?;
    json!(in alloc; {"contents": contents})
}
