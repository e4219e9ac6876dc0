//! Rows as trees.
//!
//! A listing can't be read back, so what a row tells is data too: that a row is what its tree is printed as is a law
//! over any answers. What is around a type is a list of layers, so no tree holds itself. Trees are made when asked for.

use crate::details::reference::Reference;
use crate::details::type_code_tree::{MemberTree, TypeCodeTree};
use crate::details::type_tree::LayeredType;
use idl_base::{Bytes, Seq};
use idl_entity::Kind;

/// A name that has a TypeCode: with the bases of an interface in order, or that of a struct.
pub struct DeclaredType {
    pub code: TypeCodeTree,
    pub bases: Seq<Reference>,
}

/// A constant: its type, and its value as it is listed.
pub struct ConstantTree {
    pub data_type: LayeredType,
    pub value: Option<Bytes>,
}

/// An attribute: its type, and the exceptions that reading and writing it raise.
pub struct AttributeTree {
    pub is_readonly: bool,
    pub data_type: LayeredType,
    pub raised: Seq<Reference>,
    pub raised_by_set: Seq<Reference>,
}

/// A parameter: whether it goes in, whether it comes out, and its name and type.
pub struct ParameterTree {
    pub goes_in: bool,
    pub comes_out: bool,
    pub member: MemberTree,
}

/// An operation: what it gives back, its parameters, the exceptions that it raises, and the texts of its context as they are listed.
pub struct OperationTree {
    pub is_oneway: bool,
    pub data_type: LayeredType,
    pub parameters: Seq<ParameterTree>,
    pub raised: Seq<Reference>,
    pub contexts: Seq<Bytes>,
}

/// What a row tells behind the id.
pub enum RowDetails {
    /// Nothing, as of a module.
    Nothing,
    Type(DeclaredType),
    Constant(ConstantTree),
    Attribute(AttributeTree),
    Operation(OperationTree),
}

/// The row of a declared name that has an id: its path, and each id, are the texts that are listed.
pub struct RowTree {
    pub kind: Kind,
    pub path: Bytes,
    pub id: Bytes,
    pub details: RowDetails,
}

impl Drop for DeclaredType {
    fn drop(self) {
        let DeclaredType {
            code: _code,
            bases: _bases,
        } = self;
    }
}

impl Drop for ConstantTree {
    fn drop(self) {
        let ConstantTree {
            data_type: _data_type,
            value: _value,
        } = self;
    }
}

impl Drop for AttributeTree {
    fn drop(self) {
        let AttributeTree {
            is_readonly: _is_readonly,
            data_type: _data_type,
            raised: _raised,
            raised_by_set: _raised_by_set,
        } = self;
    }
}

impl Drop for ParameterTree {
    fn drop(self) {
        let ParameterTree {
            goes_in: _goes_in,
            comes_out: _comes_out,
            member: _member,
        } = self;
    }
}

impl Drop for OperationTree {
    fn drop(self) {
        let OperationTree {
            is_oneway: _is_oneway,
            data_type: _data_type,
            parameters: _parameters,
            raised: _raised,
            contexts: _contexts,
        } = self;
    }
}

impl Drop for RowDetails {
    fn drop(self) {
        match self {
            RowDetails::Nothing => {}
            RowDetails::Type(_parts) => {}
            RowDetails::Constant(_parts) => {}
            RowDetails::Attribute(_parts) => {}
            RowDetails::Operation(_parts) => {}
        }
    }
}

impl Drop for RowTree {
    fn drop(self) {
        let RowTree {
            kind: _kind,
            path: _path,
            id: _id,
            details: _details,
        } = self;
    }
}
