//! Types as trees.

use crate::details::reference::Reference;
use idl_base::Seq;
use idl_entity::{Layer, Unvalued};
use idl_value::ConstantType;

/// What a type is of, without the sequences and arrays around it.
#[derive(PartialEq, Eq)]
pub enum ElementTree {
    /// No type: an operation that gives nothing back has it.
    Void,
    /// A type of keywords of which there are constants. It is never an enum, which has an id.
    Constants(ConstantType),
    /// Another type of keywords.
    Unvalued(Unvalued),
    /// The type that this refers to.
    Named(Reference),
}

/// A type: what it is of, and what is around that, the innermost first.
#[derive(PartialEq, Eq)]
pub struct LayeredType {
    pub element: ElementTree,
    pub layers: Seq<Layer>,
}

impl Drop for ElementTree {
    fn drop(self) {
        match self {
            ElementTree::Void => {}
            ElementTree::Constants(_target) => {}
            ElementTree::Unvalued(_kind) => {}
            ElementTree::Named(_reference) => {}
        }
    }
}

impl Drop for LayeredType {
    fn drop(self) {
        let LayeredType {
            element: _element,
            layers: _layers,
        } = self;
    }
}
