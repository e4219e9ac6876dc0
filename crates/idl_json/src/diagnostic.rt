//! What is found in a root, in JSON.

ghost use Rattle.std.specs.Prelude.{◌≡◌, IfOk, OnOk, [], map};
ghost use Rattle.std.specs.Option.{unwrap_or};
ghost use Rattle.serde_json.specs.View.{members_view, view};
ghost use Rattle.idl_explain.specs.Explained.{said};
ghost use Rattle.idl_json.specs.Diagnostic.{IsDiagnosticJson, column_fields, located, more_fields, placed_fields, second_json, second_of, severity, token_fields};
ghost use Rattle.idl_json.specs.Objects.{list_json, with_fields};

use crate::objects::Object;
use idl_base::{Bytes, Seq};
use idl_explain::{Topic, Words, explanation_of};
use idl_fault::{Code, Place};
use serde_json::Value;
use std::alloc::{AllocError, Global};

// Many readers of JSON keep no number from here on.
const TOO_FAR: usize = 9_007_199_254_740_992;

/// What is found, and how many bytes of its line are before its token, if that is known.
pub struct Diagnostic<'a> {
    pub place: &'a Place,
    pub code: Code,
    pub token: &'a Option<Bytes>,
    pub column: Option<usize>,
    pub related: Seq<SecondPlace<'a>>,
}

impl<'a> Drop for Diagnostic<'a> {
    fn drop(self) {
        let Diagnostic {
            place: _place,
            code: _code,
            token: _token,
            column: _column,
            related: _related,
        } = self;
    }
}

/// A second place of what is found: why it is told, in words, how many bytes of its line are before its token, if that is known, and how
/// many more were found than are told.
#[derive(Clone, Copy)]
pub struct SecondPlace<'a> {
    pub reason: &'a [u8],
    pub place: &'a Place,
    pub token: &'a Bytes,
    pub column: Option<usize>,
    pub more: usize,
}

/// What is found, with what its code says.
pub(crate) fn diagnostic_value(alloc: Global, told: &Diagnostic<'_>) -> Result<Value, AllocError>
    ensures { IfOk result (λ value. IsDiagnosticJson (located told.now) (view value)) }
{
    let explanation = explanation_of(Topic::Code(told.code));
    let text = words_about(alloc, explanation.words, told.token)?;
    let mut object = Object::new(alloc);
    object.put_text("file", told.place.file.as_bytes())?;
    object.put("line", Value::from(told.place.line))?;
    object.put_text("code", &told.code.text())?;
    object.put_text("severity", severity(told.code))?;
    object.put_text("text", &text)?;
    object.put("related", second_values(alloc, told.related.as_slice())?)?;
    put_token(&mut object, told.token, told.column)?;
    Ok(object.into_value())
}

// Second places, in order.
fn second_values(alloc: Global, seconds: &[SecondPlace<'_>]) -> Result<Value, AllocError>
    ensures { IfOk result (λ value.
        view value ≡ list_json second_json (map second_of seconds.entry.now)) }
{
    let mut values = Vec::with_capacity(alloc, seconds.len())?;
    'seconds: for second in seconds {
        values.push(second_value(alloc, *second)?)?;
    }
    Ok(Value::Array(values))
}

// A second place.
fn second_value(alloc: Global, second: SecondPlace<'_>) -> Result<Value, AllocError>
    ensures { IfOk result (λ value. view value ≡ second_json (second_of second.entry)) }
{
    let mut object = Object::new(alloc);
    object.put_text("reason", second.reason)?;
    object.put_text("file", second.place.file.as_bytes())?;
    object.put("line", Value::from(second.place.line))?;
    object.put_text("token", second.token.as_bytes())?;
    put_column(&mut object, second.token.as_bytes(), second.column)?;
    put_more(&mut object, second.more)?;
    Ok(object.into_value())
}

// Puts in how many more were found than are told, if any were.
fn put_more(object: &mut Object, more: usize) -> Result<(), AllocError>
    ensures { OnOk result (members_view object.new.members.entries
        ≡ with_fields (members_view object.old.members.entries) (more_fields more)) }
{
    if more == 0 {
        return Ok(());
    }
    object.put("more", Value::from(more))
}

// What is said of a token, or of none.
fn words_about(alloc: Global, words: Words, token: &Option<Bytes>) -> Result<Vec<u8>, AllocError>
    ensures { IfOk result (λ text. text.items ≡ said words (unwrap_or token.now [])) }
{
    let mut text = Vec::new(alloc);
    match token {
        Some(token) => words.push(token.as_bytes(), &mut text)?,
        None => words.push(b"", &mut text)?,
    }
    Ok(text)
}

// Whether it is an error or a warning.
fn severity(code: Code) -> &'static [u8]
    ensures { result.now ≡ severity code }
{
    if code.is_error() {
        b"error"
    } else {
        b"warning"
    }
}

// Puts in the token, if there is one, and where it stands, if that is known.
fn put_token(
    object: &mut Object,
    token: &Option<Bytes>,
    column: Option<usize>,
) -> Result<(), AllocError>
    ensures { OnOk result (members_view object.new.members.entries
        ≡ with_fields (members_view object.old.members.entries) (token_fields column token.now)) }
{
    match token {
        Some(token) => {
            object.put_text("token", token.as_bytes())?;
            put_column(object, token.as_bytes(), column)
        }
        None => Ok(()),
    }
}

// Puts in where a token begins and ends, if that is known.
fn put_column(object: &mut Object, token: &[u8], column: Option<usize>) -> Result<(), AllocError>
    ensures { OnOk result (members_view object.new.members.entries
        ≡ with_fields (members_view object.old.members.entries) (column_fields column token.now)) }
{
    match column {
        Some(before) => put_place(object, token, before),
        None => Ok(()),
    }
}

// Puts in where a token begins and ends that has so many bytes of its line before it.
fn put_place(object: &mut Object, token: &[u8], before: usize) -> Result<(), AllocError>
    ensures { OnOk result (members_view object.new.members.entries
        ≡ with_fields (members_view object.old.members.entries) (placed_fields before token.now)) }
{
    if before >= TOO_FAR || token.len() >= TOO_FAR - before {
        return Ok(());
    }
    object.put("column", Value::from(before + 1))?;
    object.put("end", Value::from(before + token.len() + 1))
}
