//! What is to be said to an editor.

ghost use Rattle.std.specs.Prelude.{◌≡◌, ◌++◌, ◌∷◌, [], OnOk};
ghost use Rattle.serde_json.specs.View.{view};
ghost use Rattle.idl_editor.specs.messages.Answers.{answer_json, error_json, notice_json};
ghost use Rattle.idl_editor.specs.messages.Said.{said_by};

use crate::messages::answer::{ErrorCode, answer_value, error_value, notice_value};
use serde_json::Value;
use std::alloc::{AllocError, Global};

/// Messages that are to be written, in order.
#[derive(Drop)]
pub struct Outbox {
    alloc: Global,
    pub messages: Vec<Value>,
}

impl Outbox {
    /// No messages.
    pub fn new(alloc: Global) -> Outbox
        ensures { result.messages.items ≡ [] }
    {
        Outbox {
            alloc,
            messages: Vec::new(alloc),
        }
    }

    /// The messages.
    pub fn messages(&self) -> &[Value]
        ensures { result.now ≡ self.now.messages.items }
    {
        self.messages.as_slice()
    }

    /// Where their memory comes from.
    pub fn alloc(&self) -> Global {
        self.alloc
    }

    /// Answers the request of this id.
    pub fn answer(&mut self, id: &Value, outcome: &Value) -> Result<(), AllocError>
        ensures { OnOk result (said_by self.new
            ≡ said_by self.old ++ answer_json (view id.now) (view outcome.now) ∷ []) }
    {
        let message = answer_value(self.alloc, id, outcome)?;
        Ok(self.messages.push(message)?)
    }

    /// Answers the request of this id with an error.
    pub fn refuse(&mut self, id: &Value, code: ErrorCode) -> Result<(), AllocError>
        ensures { OnOk result (said_by self.new
            ≡ said_by self.old ++ error_json (view id.now) code ∷ []) }
    {
        let message = error_value(self.alloc, id, code)?;
        Ok(self.messages.push(message)?)
    }

    /// Tells of something.
    pub fn tell(&mut self, method: &str, params: &Value) -> Result<(), AllocError>
        ensures { OnOk result (said_by self.new
            ≡ said_by self.old ++ notice_json method.now (view params.now) ∷ []) }
    {
        let message = notice_value(self.alloc, method, params)?;
        Ok(self.messages.push(message)?)
    }
}
