//! Which message a value is.

ghost use Rattle.serde_json.specs.View.{view};
ghost use Rattle.idl_editor.specs.messages.Message.{IsMessage, is_id, method_in};
ghost use Rattle.std.specs.Prelude.{◌≡◌, None};

use crate::messages::fields::text_at;
use crate::messages::method::{Method, method_of};
use serde_json::Value;

/// A message of an editor.
#[derive(Clone, Copy)]
pub enum Message<'a> {
    /// It wants an answer, under this id.
    Request(&'a Value, Method, Option<&'a Value>),
    /// It wants none.
    Notice(Method, Option<&'a Value>),
    /// It answers a request of the server.
    Answer,
    /// It is none of these.
    Invalid,
}

/// The message that a value is.
pub fn message_of(value: &Value) -> Message<'_>
    ensures { IsMessage (view value.now) result }
{
    let Some(name) = text_at(value, "method") else {
        return unnamed(value);
    };
    let method = method_of(name);
    let params = value.get("params");
    match value.get("id") {
        None => Message::Notice(method, params),
        Some(id) if is_id(id) => Message::Request(id, method, params),
        Some(_) => Message::Invalid,
    }
}

// A message without a method.
fn unnamed(value: &Value) -> Message<'_>
    requires { method_in (view value.now) ≡ None }
    ensures { IsMessage (view value.now) result }
{
    if value.get("result").is_some() || value.get("error").is_some() {
        return Message::Answer;
    }
    Message::Invalid
}

// Whether this may be an id: a number or a text.
fn is_id(value: &Value) -> bool
    ensures { result ≡ is_id (view value.now) }
{
    value.is_number() || value.is_string()
}
