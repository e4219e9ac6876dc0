//! What a server says: answers, errors and notices.

ghost use Rattle.std.specs.Prelude.{◌≡◌, IfOk};
ghost use Rattle.serde_json.specs.View.{view};
ghost use Rattle.idl_editor.specs.messages.Answers.{answer_json, error_json, notice_json, number_of, text_of};

use serde_json::{Value, json};
use std::alloc::{AllocError, Global};

/// Why a request isn't done.
#[derive(Clone, Copy, Debug, PartialEq, Eq)]
pub enum ErrorCode {
    /// The body is no JSON.
    NoJson,
    /// It is no message.
    NoMessage,
    /// No request has this method.
    UnknownMethod,
    /// The parameters aren't those of the method.
    BadParams,
    /// There was no memory.
    Internal,
    /// `initialize` comes first.
    NotInitialized,
}

impl ErrorCode {
    /// The number that is told.
    pub fn number(self) -> i64
        ensures { result ≡ number_of self }
    {
        match self {
            ErrorCode::NoJson => -32700,
            ErrorCode::NoMessage => -32600,
            ErrorCode::UnknownMethod => -32601,
            ErrorCode::BadParams => -32602,
            ErrorCode::Internal => -32603,
            ErrorCode::NotInitialized => -32002,
        }
    }

    /// The text that is told.
    pub fn text(self) -> &'static str
        ensures { result.now ≡ text_of self }
    {
        match self {
            ErrorCode::NoJson => "no JSON",
            ErrorCode::NoMessage => "no message",
            ErrorCode::UnknownMethod => "unknown method",
            ErrorCode::BadParams => "bad parameters",
            ErrorCode::Internal => "no memory",
            ErrorCode::NotInitialized => "not initialized",
        }
    }
}

/// The answer to the request of this id.
pub fn answer_value(alloc: Global, id: &Value, outcome: &Value) -> Result<Value, AllocError>
    ensures { IfOk result (λ value. view value ≡ answer_json (view id.now) (view outcome.now)) }
{
    json!(in alloc; {"id": id, "jsonrpc": "2.0", "result": outcome})
}

/// The answer to the request of this id that tells an error.
pub fn error_value(alloc: Global, id: &Value, code: ErrorCode) -> Result<Value, AllocError>
    ensures { IfOk result (λ value. view value ≡ error_json (view id.now) code) }
{
    let error = json!(in alloc; {"code": code.number(), "message": code.text()})?;
    json!(in alloc; {"error": error, "id": id, "jsonrpc": "2.0"})
}

/// A notice to the editor.
pub fn notice_value(alloc: Global, method: &str, params: &Value) -> Result<Value, AllocError>
    ensures { IfOk result (λ value. view value ≡ notice_json method.now (view params.now)) }
{
    json!(in alloc; {"jsonrpc": "2.0", "method": method, "params": params})
}
