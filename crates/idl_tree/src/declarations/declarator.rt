//! Declared names.

use crate::expression::Expression;
use idl_base::{Bytes, Seq};

/// A declared name, and the lengths of its array if it is one.
pub struct Declarator {
    pub name: Bytes,
    pub lengths: Seq<Expression>,
}

impl Drop for Declarator {
    fn drop(self) {
        let Declarator {
            name: _name,
            lengths: _lengths,
        } = self;
    }
}
