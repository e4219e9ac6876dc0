//! Bytes in JSON: each is the character of that number.

ghost use Rattle.std.specs.Prelude.{◌≡◌, IfOk, string_bytes};
ghost use Rattle.std.specs.Str.{encode_utf8_all};
ghost use Rattle.serde_json.specs.View.{view};
ghost use Rattle.idl_json.specs.Text.{text_json, texts_json};

use idl_base::Bytes;
use serde_json::Value;
use std::alloc::{AllocError, Global};

/// The text of these bytes.
pub(crate) fn text_value(alloc: Global, bytes: &[u8]) -> Result<Value, AllocError>
    ensures { IfOk result (λ value. view value ≡ text_json bytes.now) }
{
    Ok(Value::String(characters(alloc, bytes)?))
}

/// The texts of a list.
pub(crate) fn texts_value(alloc: Global, texts: &[Bytes]) -> Result<Value, AllocError>
    ensures { IfOk result (λ value. view value ≡ texts_json texts.now) }
{
    let mut values = Vec::with_capacity(alloc, texts.len())?;
    'texts: for text in texts {
        values.push(text_value(alloc, text.as_bytes())?)?;
    }
    Ok(Value::Array(values))
}

// The characters that have these numbers.
fn characters(alloc: Global, bytes: &[u8]) -> Result<String, AllocError>
    ensures { IfOk result (λ text. string_bytes text ≡ encode_utf8_all bytes.now) }
{
    let mut text = String::with_capacity(alloc, bytes.len())?;
    'bytes: for byte in bytes {
        text.push(char::from(*byte))?;
    }
    Ok(text)
}
