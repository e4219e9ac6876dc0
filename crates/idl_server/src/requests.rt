//! What an editor asks for.

use crate::workspace::Workspace;
use idl_editor::documents::name_in;
use idl_editor::messages::{ErrorCode, Method, position_at};
use serde_json::Value;
use std::alloc::AllocError;

/// What comes of a request.
#[derive(Drop)]
pub(crate) enum RequestOutcome {
    Done(Value),
    Refused(ErrorCode),
}

impl Workspace {
    /// What comes of a request about a document. Of a document that has no name nothing is told.
    pub fn answer(&self, method: Method, params: &Value) -> Result<RequestOutcome, AllocError> {
        match method {
            Method::DocumentSymbol
            | Method::Definition
            | Method::Hover
            | Method::References
            | Method::DocumentHighlight => {}
            _ => return Ok(RequestOutcome::Refused(ErrorCode::UnknownMethod)),
        }
        let Some(name) = name_in(self.session.allocator(), &self.folders, params)? else {
            return Ok(RequestOutcome::Done(Value::Null));
        };
        if method == Method::DocumentSymbol {
            return Ok(RequestOutcome::Done(self.symbols_in(&name)?));
        }
        let Some(position) = position_at(params, "position") else {
            return Ok(RequestOutcome::Refused(ErrorCode::BadParams));
        };
        let value = match method {
            Method::Hover => self.hover_at(&name, position)?,
            Method::References => self.references_at(&name, position, wants_declared(params))?,
            Method::DocumentHighlight => self.highlights_at(&name, position)?,
            _ => self.definition_at(&name, position)?,
        };
        Ok(RequestOutcome::Done(value))
    }
}

// Whether references are to have where the name is declared.
fn wants_declared(params: &Value) -> bool {
    let Some(context) = params.get("context") else {
        return false;
    };
    match context.get("includeDeclaration") {
        Some(Value::Bool(declared)) => *declared,
        _ => false,
    }
}
