//! Interfaces, and declarations ahead.

use crate::name::ScopedName;
use crate::several::Several;
use idl_base::Bytes;

/// The opening of an interface.
pub struct Interface {
    pub is_local: bool,
    pub name: Bytes,
    pub bases: Option<Several<ScopedName>>,
}

impl Drop for Interface {
    fn drop(self) {
        let Interface {
            is_local: _is_local,
            name: _name,
            bases: _bases,
        } = self;
    }
}

/// A forward declaration.
pub enum Forward {
    Interface(bool, Bytes),
    Structure(Bytes),
    Union(Bytes),
}

impl Drop for Forward {
    fn drop(self) {
        match self {
            Forward::Interface(_a, _b) => {}
            Forward::Structure(_a) => {}
            Forward::Union(_a) => {}
        }
    }
}
