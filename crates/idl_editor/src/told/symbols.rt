//! The names that are declared in a document, each in the one around it.

use crate::change::Range;
use crate::places::is_around;
use crate::told::ranges::range_value;
use crate::told::shown::shown_value;
use serde_json::{Value, json};
use std::alloc::{AllocError, Global};

/// A name where it is declared in a document.
#[derive(Clone, Copy)]
pub struct DocumentSymbol<'d> {
    /// What it is called in the whole root.
    pub path: &'d [u8],
    /// The number of its kind.
    pub kind: u8,
    pub text: &'d [u8],
    pub name: Range,
    pub whole: Range,
}

/// These symbols in the order of the text, each in the one around it: of a symbol that is in another one, that comes before.
pub fn nested(alloc: Global, mut symbols: Vec<DocumentSymbol<'_>>) -> Result<Value, AllocError> {
    symbols.sort_by_key(|symbol| (symbol.name.start.line, symbol.name.start.column))?;
    let mut outermost: Vec<(DocumentSymbol<'_>, Value)> = Vec::new(alloc);
    'backwards: while let Some(symbol) = symbols.pop() {
        let mut children = Vec::new(alloc);
        'inside: while let Some((_inner, value)) = outermost.pop_if(|one| is_in(one.0, symbol)) {
            children.push(value)?;
        }
        outermost.push((symbol, symbol_value(alloc, symbol, children)?))?;
    }
    let mut list = Vec::with_capacity(alloc, outermost.len())?;
    'outermost: while let Some((_symbol, value)) = outermost.pop() {
        list.push(value)?;
    }
    Ok(Value::Array(list))
}

// Whether a symbol stands in another one: it does in the text, and its path is that one's and a name.
fn is_in(symbol: DocumentSymbol<'_>, outer: DocumentSymbol<'_>) -> bool {
    match symbol.path.strip_prefix(outer.path) {
        Some(rest) => rest.starts_with(b"::") && is_around(outer.whole, symbol.name),
        None => false,
    }
}

// A symbol, as it is told.
fn symbol_value(
    alloc: Global,
    symbol: DocumentSymbol<'_>,
    children: Vec<Value>,
) -> Result<Value, AllocError> {
    // What is owned goes in first, and what is made when it goes in.
    json!(in alloc; {
        "children": Value::Array(children),
        "kind": symbol.kind,
        "name": shown_value(alloc, symbol.text)?,
        "range": range_value(alloc, symbol.whole)?,
        "selectionRange": range_value(alloc, symbol.name)?,
    })
}
