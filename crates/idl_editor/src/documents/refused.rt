//! What an editor wants and isn't done, and what is shown of it.

ghost use Rattle.std.specs.Prelude.{OnOk};
ghost use Rattle.idl_editor.specs.documents.Refused.{IsAdded};
ghost use Rattle.idl_editor.specs.declared.documents.refused.RefusedReason.TheVariants as reasons;

use crate::told::shown_value;
use idl_explain::{Topic, explanation_of};
use idl_source::Refusal;
use serde_json::{Value, json};
use std::alloc::{AllocError, Global};

/// Why it isn't done.
#[derive(Clone, Copy)]
pub enum RefusedReason {
    /// The session refuses the edit.
    Refusal(Refusal),
    /// A change of a document makes no sense: its text stays as it was.
    BadChange,
    /// An option is no list of texts, or has something else in it.
    NoTexts,
    /// The options are no object.
    NoObject,
}

impl RefusedReason {
    // What is said of it. Of a refusal that is the line about it, without its end.
    fn push(self, text: &mut Vec<u8>) -> Result<(), AllocError> {
        match self {
            RefusedReason::Refusal(refusal) => push_refusal(refusal, text),
            RefusedReason::BadChange => {
                text.extend_from_slice(b"a change makes no sense, so the text stays as it was")
            }
            RefusedReason::NoTexts => {
                text.extend_from_slice(b"a list of texts is wanted, and what is none is left out")
            }
            RefusedReason::NoObject => {
                text.extend_from_slice(b"an object is wanted, and what is none is left out")
            }
        }
    }
}

/// An edit of the session, a change of a document, or an option of an editor, that wasn't done.
#[derive(Drop)]
pub struct RefusedEdit {
    pub subject: Vec<u8>,
    pub reason: RefusedReason,
}

/// Adds an edit that the session refused.
pub fn push_refused(
    refused: &mut Vec<RefusedEdit>,
    subject: &[u8],
    refusal: Refusal,
) -> Result<(), AllocError>
    ensures { OnOk result (IsAdded subject.now (reasons.Refusal refusal)
        refused.old.items refused.new.items) }
{
    push_reason(refused, subject, RefusedReason::Refusal(refusal))
}

/// Adds what wasn't done for this reason.
pub fn push_reason(
    refused: &mut Vec<RefusedEdit>,
    subject: &[u8],
    reason: RefusedReason,
) -> Result<(), AllocError>
    ensures { OnOk result (IsAdded subject.now reason refused.old.items refused.new.items) }
{
    let subject = Vec::from_slice(*refused.allocator(), subject)?;
    Ok(refused.push(RefusedEdit { subject, reason })?)
}

/// What is shown of what wasn't done.
pub fn shown_params(alloc: Global, refused: &RefusedEdit) -> Result<Value, AllocError> {
    json!(in alloc; {"message": shown_message(alloc, refused)?, "type": 1})
}

// What its message says: what was to be done, and why it wasn't.
fn shown_message(alloc: Global, refused: &RefusedEdit) -> Result<Value, AllocError> {
    let mut text = Vec::from_slice(alloc, &refused.subject)?;
    text.extend_from_slice(b": ")?;
    refused.reason.push(&mut text)?;
    shown_value(alloc, &text)
}

// Puts in the line about a refusal without its end.
fn push_refusal(refusal: Refusal, text: &mut Vec<u8>) -> Result<(), AllocError> {
    explanation_of(Topic::Refusal(refusal)).push_headline(b"", text)?;
    if text.last() == Some(&b'\n') {
        text.pop();
    }
    Ok(())
}
