//! TypeCodes as trees.

ghost use Rattle.std.specs.Prelude.{◌≡◌};
ghost use Rattle.idl_repo.specs.details.Print.{code_word};

use crate::details::type_tree::LayeredType;
use idl_base::{Bytes, Seq};

/// A member, or a parameter: its name, and its type.
pub struct MemberTree {
    pub name: Bytes,
    pub data_type: LayeredType,
}

/// The entry of a union's label: the value as it is listed, or nothing for `default`; and the member that it stands at.
pub struct CaseTree {
    pub label: Option<Bytes>,
    pub member: MemberTree,
}

/// What a union's TypeCode has behind its name.
pub struct UnionTree {
    /// The type of its labels.
    pub discriminator: LayeredType,
    /// The number of the case of `default`, if there is one.
    pub default: Option<usize>,
    /// One for each label, in order.
    pub cases: Seq<CaseTree>,
}

/// What a TypeCode is of, and what it has behind its name.
pub enum TypeCodeParts {
    ObjectReference,
    LocalInterface,
    Native,
    Structure(Seq<MemberTree>),
    Exception(Seq<MemberTree>),
    Union(UnionTree),
    /// The names of the enumerators.
    Enumeration(Seq<Bytes>),
    /// What it is another name for.
    Alias(LayeredType),
}

/// The TypeCode of a declared name: a type that is named in it is referred to.
pub struct TypeCodeTree {
    pub id: Bytes,
    pub name: Bytes,
    pub parts: TypeCodeParts,
}

impl Drop for MemberTree {
    fn drop(self) {
        let MemberTree {
            name: _name,
            data_type: _data_type,
        } = self;
    }
}

impl Drop for CaseTree {
    fn drop(self) {
        let CaseTree {
            label: _label,
            member: _member,
        } = self;
    }
}

impl Drop for UnionTree {
    fn drop(self) {
        let UnionTree {
            discriminator: _discriminator,
            default: _default,
            cases: _cases,
        } = self;
    }
}

impl Drop for TypeCodeParts {
    fn drop(self) {
        match self {
            TypeCodeParts::ObjectReference => {}
            TypeCodeParts::LocalInterface => {}
            TypeCodeParts::Native => {}
            TypeCodeParts::Structure(_members) => {}
            TypeCodeParts::Exception(_members) => {}
            TypeCodeParts::Union(_parts) => {}
            TypeCodeParts::Enumeration(_names) => {}
            TypeCodeParts::Alias(_data_type) => {}
        }
    }
}

impl Drop for TypeCodeTree {
    fn drop(self) {
        let TypeCodeTree {
            id: _id,
            name: _name,
            parts: _parts,
        } = self;
    }
}

/// The word of a TypeCode that has these parts.
pub fn code_word(parts: &TypeCodeParts) -> &'static [u8]
    ensures { result.now ≡ code_word parts.now }
{
    match parts {
        TypeCodeParts::ObjectReference => b"tk_objref",
        TypeCodeParts::LocalInterface => b"tk_local_interface",
        TypeCodeParts::Native => b"tk_native",
        TypeCodeParts::Structure(_members) => b"tk_struct",
        TypeCodeParts::Exception(_members) => b"tk_except",
        TypeCodeParts::Union(_parts) => b"tk_union",
        TypeCodeParts::Enumeration(_names) => b"tk_enum",
        TypeCodeParts::Alias(_data_type) => b"tk_alias",
    }
}
