//! Members of an object.

ghost use Rattle.std.specs.Prelude.{◌≡◌};
ghost use Rattle.std.specs.Option.{option_copied};
ghost use Rattle.serde_json.specs.View.{view};
ghost use Rattle.idl_editor.specs.messages.Fields.{number_at, text_at};

use serde_json::Value;

/// The text under a key.
pub fn text_at<'a>(value: &'a Value, key: &str) -> Option<&'a str>
    ensures { option_copied result ≡ text_at key.now (view value.now) }
{
    match value.get(key) {
        Some(value) => value.as_str(),
        None => None,
    }
}

/// The number under a key.
pub fn number_at(value: &Value, key: &str) -> Option<u64>
    ensures { result ≡ number_at key.now (view value.now) }
{
    match value.get(key) {
        Some(value) => value.as_u64(),
        None => None,
    }
}
