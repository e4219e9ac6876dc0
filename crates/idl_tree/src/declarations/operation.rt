//! Operations.

use crate::declarations::data_type::TypeTree;
use crate::name::ScopedName;
use crate::several::Several;
use idl_base::{Boxed, Bytes, Seq};

/// `in`, `out` or `inout`.
#[derive(Clone, Copy)]
pub enum Direction {
    In,
    Out,
    InOut,
}

/// A parameter.
pub struct Parameter {
    pub direction: Direction,
    pub kind: TypeTree,
    pub name: Bytes,
}

impl Drop for Parameter {
    fn drop(self) {
        let Parameter {
            direction: _direction,
            kind: _kind,
            name: _name,
        } = self;
    }
}

/// An operation. Without a result it is `void`.
pub struct Operation {
    pub is_oneway: bool,
    pub result: Option<TypeTree>,
    pub name: Bytes,
    pub parameters: Option<Several<Parameter>>,
    pub raises: Option<Several<ScopedName>>,
    pub context: Option<Boxed<Several<Several<Seq<u16>>>>>,
}

impl Drop for Operation {
    fn drop(self) {
        let Operation {
            is_oneway: _is_oneway,
            result: _result,
            name: _name,
            parameters: _parameters,
            raises: _raises,
            context: _context,
        } = self;
    }
}
