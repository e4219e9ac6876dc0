//! Changes of a document, one after another.

ghost use Rattle.std.specs.Prelude.{◌≡◌, IfOk, map};
ghost use Rattle.std.specs.Option.{option_map};
ghost use Rattle.serde_json.specs.View.{view};
ghost use Rattle.idl_editor.specs.documents.Documents.{change_told, text_after_all};
ghost use Rattle.idl_editor.specs.documents.Notices.{changes_told};

use crate::change::{ContentChange, after_change};
use crate::column::Encoding;
use crate::messages::{change_of, changes_of};
use serde_json::Value;
use std::alloc::{AllocError, Global};

/// The changes that parameters tell, if each of them makes sense.
pub fn changes_told(
    alloc: Global,
    params: &Value,
) -> Result<Option<Vec<ContentChange<'_>>>, AllocError>
    ensures { IfOk result (λ changes. option_map (λ c. map change_told c.items) changes
        ≡ changes_told (view params.now)) }
{
    let Some(values) = changes_of(params) else {
        return Ok(None);
    };
    let mut changes = Vec::with_capacity(alloc, values.len())?;
    'values: for value in values {
        match change_of(value) {
            Some(change) => changes.push(change)?,
            None => return Ok(None),
        }
    }
    Ok(Some(changes))
}

/// A text after changes.
pub fn text_after_all(
    alloc: Global,
    encoding: Encoding,
    old: &[u8],
    changes: &[ContentChange<'_>],
) -> Result<Vec<u8>, AllocError>
    ensures { IfOk result (λ text. text.items
        ≡ text_after_all encoding old.now (map change_told changes.now)) }
{
    let mut text = Vec::from_slice(alloc, old)?;
    'changes: for change in changes {
        let after = after_change(alloc, encoding, &text, *change)?;
        text = after.text;
    }
    Ok(text)
}
