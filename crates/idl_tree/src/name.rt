//! Scoped names.

use idl_base::{Bytes, Seq};

/// A scoped name: `["::"] ID ( "::" ID )*`, each part without an escape.
pub struct ScopedName {
    pub is_global: bool,
    pub first: Bytes,
    pub rest: Seq<Bytes>,
}

impl Drop for ScopedName {
    fn drop(self) {
        let ScopedName {
            is_global: _is_global,
            first: _first,
            rest: _rest,
        } = self;
    }
}
