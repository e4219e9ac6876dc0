//! Texts and lists among the parameters of messages.

ghost use Rattle.std.specs.Prelude.{◌≡◌};
ghost use Rattle.std.specs.Option.{option_copied};
ghost use Rattle.serde_json.specs.View.{items_view, view};
ghost use Rattle.idl_editor.specs.messages.Items.{items_at, items_of, opened_text};

use crate::messages::fields::text_at;
use serde_json::Value;

/// The text of a document that is opened.
pub fn opened_text(params: &Value) -> Option<&str>
    ensures { option_copied result ≡ opened_text (view params.now) }
{
    match params.get("textDocument") {
        Some(document) => text_at(document, "text"),
        None => None,
    }
}

/// The items of the list under a key, and of all else none.
pub fn items_at<'a>(value: &'a Value, key: &str) -> &'a [Value]
    ensures { items_view result.now ≡ items_at key.now (view value.now) }
{
    match value.get(key) {
        Some(list) => items_of(list),
        None => &[],
    }
}

// The items of a list, and of all else none.
fn items_of(value: &Value) -> &[Value]
    ensures { items_view result.now ≡ items_of (view value.now) }
{
    match value.as_array() {
        Some(items) => items.as_slice(),
        None => &[],
    }
}
