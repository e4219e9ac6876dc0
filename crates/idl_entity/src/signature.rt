//! Signatures: the members of a struct, a union or an exception, and what an operation takes and an attribute raises.

ghost use Rattle.std.specs.Prelude.{◌≡◌};

use crate::data_type::DataType;
use crate::paths::path::Path;
use idl_base::{Bytes, Datum, Seq, Shared, copied};
use idl_value::Value;
use std::alloc::AllocError;

/// A member, or a parameter of an operation.
#[derive(PartialEq, Eq, PartialOrd, Ord)]
pub struct Member {
    pub name: Bytes,
    pub data_type: Option<Shared<DataType>>,
    /// The labels of a union's member in order: their values, and nothing for `default`.
    pub labels: Seq<Option<Value>>,
    /// Whether a parameter goes in.
    pub goes_in: bool,
    /// Whether a parameter comes out.
    pub comes_out: bool,
}

/// What a declared name shows behind itself.
#[derive(PartialEq, Eq, PartialOrd, Ord)]
pub struct Signature {
    /// The members, or the parameters of an operation, in order.
    pub members: Seq<Member>,
    /// The paths of the exceptions that an operation, or the reading of an attribute, raises.
    pub raised: Seq<Path>,
    /// The paths of those that the writing of an attribute raises.
    pub raised_by_set: Seq<Path>,
    /// The characters of the texts of an operation's context.
    pub contexts: Seq<Seq<u16>>,
}

impl Drop for Member {
    fn drop(self) {
        let Member {
            name: _name,
            data_type: _data_type,
            labels: _labels,
            goes_in: _goes_in,
            comes_out: _comes_out,
        } = self;
    }
}

impl Drop for Signature {
    fn drop(self) {
        let Signature {
            members: _members,
            raised: _raised,
            raised_by_set: _raised_by_set,
            contexts: _contexts,
        } = self;
    }
}

impl Clone for Member {
    ghost is_clone = { λ member copy. copy ≡ member };

    fn clone(&self) -> Result<Member, AllocError> {
        let name = self.name.clone()?;
        let data_type = copied(&self.data_type)?;
        let labels = self.labels.clone()?;
        Ok(Member {
            name,
            data_type,
            labels,
            goes_in: self.goes_in,
            comes_out: self.comes_out,
        })
    }
}

impl Clone for Signature {
    ghost is_clone = { λ signature copy. copy ≡ signature };

    fn clone(&self) -> Result<Signature, AllocError> {
        let members = self.members.clone()?;
        let raised = self.raised.clone()?;
        let raised_by_set = self.raised_by_set.clone()?;
        let contexts = self.contexts.clone()?;
        Ok(Signature {
            members,
            raised,
            raised_by_set,
            contexts,
        })
    }
}

impl Datum for Member {
    ghost use Rattle.idl_entity.specs.Signature.{same_member};

    ghost same = { same_member };

    ghost copy = { λ x y h. h };
}

impl Datum for Signature {
    ghost use Rattle.idl_entity.specs.Signature.{same_signature};

    ghost same = { same_signature };

    ghost copy = { λ x y h. h };
}
