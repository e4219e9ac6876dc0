//! What is found, as an editor is told.

ghost use Rattle.std.specs.Prelude.{◌≡◌, ◌++◌, [], IfOk, OnOk, unwrap_or};
ghost use Rattle.serde_json.specs.View.{view};
ghost use Rattle.idl_editor.specs.told.Diagnostics.{IsSaid, diagnostic_json, more_json, more_text, said_with_hint, severity};

use crate::change::Range;
use crate::told::ranges::{location_value, range_value};
use crate::told::shown::shown_value;
use idl_explain::{Explanation, Topic, explanation_of};
use idl_fault::Code;
use idl_finding::Finding;
use itoa::Buffer;
use serde_json::{Value, json};
use std::alloc::{AllocError, Global};

// The number of what is no error and no warning.
const INFORMATION: u8 = 3;

/// A second place, as it is told: why it is, its token, and how many more were found than are told.
#[derive(Clone, Copy)]
pub struct SecondWords<'a> {
    pub reason: &'a [u8],
    pub token: &'a [u8],
    pub more: usize,
}

/// A second place, as it is told.
pub fn second_value(
    alloc: Global,
    uri: &String,
    range: Range,
    words: SecondWords<'_>,
) -> Result<Value, AllocError> {
    json!(in alloc; {
        "location": location_value(alloc, uri, range)?,
        "message": second_message(alloc, words)?,
    })
}

/// A finding that says this, with what is told of its second places.
pub fn diagnostic_value(
    alloc: Global,
    range: Range,
    finding: &Finding,
    message: &[u8],
    related: Value,
) -> Result<Value, AllocError>
    ensures { IfOk result (λ value. view value
        ≡ diagnostic_json finding.now range message.now (view related)) }
{
    // What is owned goes in first, and what is made when it goes in.
    json!(in alloc; {
        "relatedInformation": related,
        "code": shown_value(alloc, &finding.code.text())?,
        "message": shown_value(alloc, message)?,
        "range": range_value(alloc, range)?,
        "severity": severity(finding.code),
        "source": "idltool",
    })
}

/// How many findings of a file aren't told, at a range.
pub fn more_value(alloc: Global, range: Range, count: usize) -> Result<Value, AllocError>
    ensures { IfOk result (λ value. view value ≡ more_json range count) }
{
    let text = more_text(alloc, count)?;
    json!(in alloc; {
        "message": shown_value(alloc, &text)?,
        "range": range_value(alloc, range)?,
        "severity": INFORMATION,
        "source": "idltool",
    })
}

// What is told of so many findings.
fn more_text(alloc: Global, count: usize) -> Result<Vec<u8>, AllocError>
    ensures { IfOk result (λ text. text.items ≡ more_text count) }
{
    let mut number = Buffer::new();
    let mut text = Vec::from_slice(alloc, b".. and ")?;
    text.extend_from_slice(number.format(count).as_bytes())?;
    text.extend_from_slice(b" more in this file")?;
    Ok(text)
}

/// What a finding says, and on a line behind it what helps.
pub fn message_of(alloc: Global, finding: &Finding) -> Result<Vec<u8>, AllocError>
    ensures { IfOk result (λ message. IsSaid finding.now message.items) }
{
    let explanation = explanation_of(Topic::Code(finding.code));
    let token = token_of(finding);
    let mut message = Vec::new(alloc);
    push_said(explanation, token, &mut message)?;
    Ok(message)
}

// Puts in what is said of a token, and what helps.
fn push_said(
    explanation: &Explanation,
    token: &[u8],
    message: &mut Vec<u8>,
) -> Result<(), AllocError>
    ensures { OnOk result (message.new.items
        ≡ message.old.items ++ said_with_hint explanation.now token.now) }
{
    explanation.words.push(token, message)?;
    message.extend_from_slice(b"\n")?;
    message.extend_from_slice(explanation.hint.as_bytes())
}

// The token of a finding, if it tells one.
fn token_of(finding: &Finding) -> &[u8]
    ensures { result.now ≡ unwrap_or finding.now.text [] }
{
    match &finding.text {
        Some(text) => text.as_bytes(),
        None => b"",
    }
}

// Why a second place is told, its token, and how many more there are.
fn second_message(alloc: Global, words: SecondWords<'_>) -> Result<Value, AllocError> {
    let mut text = Vec::from_slice(alloc, words.reason)?;
    text.extend_from_slice(b": ")?;
    text.extend_from_slice(words.token)?;
    push_more(words.more, &mut text)?;
    shown_value(alloc, &text)
}

// Puts in how many more were found than are told, if any were.
fn push_more(more: usize, text: &mut Vec<u8>) -> Result<(), AllocError> {
    if more == 0 {
        return Ok(());
    }
    let mut number = Buffer::new();
    text.extend_from_slice(b", and ")?;
    text.extend_from_slice(number.format(more).as_bytes())?;
    text.extend_from_slice(b" more")
}

// The number of an error, or of a warning.
fn severity(code: Code) -> u8
    ensures { result ≡ severity code }
{
    if code.is_error() { 1 } else { 2 }
}
