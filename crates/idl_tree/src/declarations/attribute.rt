//! Attributes.

use crate::declarations::data_type::TypeTree;
use crate::name::ScopedName;
use crate::several::Several;
use idl_base::Bytes;

/// An attribute that is read alone.
pub struct ReadonlyAttribute {
    pub kind: TypeTree,
    pub names: ReadonlyNames,
}

impl Drop for ReadonlyAttribute {
    fn drop(self) {
        let ReadonlyAttribute {
            kind: _kind,
            names: _names,
        } = self;
    }
}

/// One name with what reading it raises, or one name or more.
pub enum ReadonlyNames {
    Raising(Bytes, Several<ScopedName>),
    Plain(Several<Bytes>),
}

impl Drop for ReadonlyNames {
    fn drop(self) {
        match self {
            ReadonlyNames::Raising(_a, _b) => {}
            ReadonlyNames::Plain(_a) => {}
        }
    }
}

/// An attribute that is read and written.
pub struct Attribute {
    pub kind: TypeTree,
    pub names: AttributeNames,
}

impl Drop for Attribute {
    fn drop(self) {
        let Attribute {
            kind: _kind,
            names: _names,
        } = self;
    }
}

/// One name with what reading and writing it raise, or one name or more.
pub enum AttributeNames {
    Raising(Bytes, AttributeRaises),
    Plain(Several<Bytes>),
}

impl Drop for AttributeNames {
    fn drop(self) {
        match self {
            AttributeNames::Raising(_a, _b) => {}
            AttributeNames::Plain(_a) => {}
        }
    }
}

/// What reading raises, with what writing does if that is said; or the latter alone.
pub enum AttributeRaises {
    Get(Several<ScopedName>, Option<Several<ScopedName>>),
    Set(Several<ScopedName>),
}

impl Drop for AttributeRaises {
    fn drop(self) {
        match self {
            AttributeRaises::Get(_a, _b) => {}
            AttributeRaises::Set(_a) => {}
        }
    }
}
