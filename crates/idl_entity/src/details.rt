//! What few entities have.

ghost use Rattle.std.specs.Prelude.{◌≡◌, None};
ghost use Rattle.idl_entity.specs.Details.{listless, rare_in};

use crate::paths::path::Path;
use crate::signature::Signature;
use idl_base::{Bytes, Seq, Shared};
use idl_value::Value;
use idl_value::idl_map::SharedList;
use std::alloc::AllocError;

/// What few entities have. Most have none of it, and others a value or a signature alone: then it stands in place.
pub enum Details {
    Nothing,
    Valued(Shared<Value>),
    Signed(Shared<Signature>),
    Several(Shared<Rare>),
}

/// The parts of an entity that few have, each by itself.
pub struct Rare {
    /// The paths of the direct bases, in order.
    pub bases: Seq<Path>,
    /// The paths of the operations and attributes of a closed interface: the inherited ones first, by its bases in order and
    /// none twice, and then its own in order. What it inherits by its first base is shared with that.
    pub operations: SharedList<Path>,
    /// The value of a constant, once it is told, and of an enumerator.
    pub value: Option<Shared<Value>>,
    /// The names of the enumerators of an enum, in order.
    pub enumerators: Seq<Bytes>,
    /// What it shows behind its name, once that is told.
    pub signature: Option<Shared<Signature>>,
}

impl Drop for Details {
    fn drop(self) {
        match self {
            Details::Nothing => {}
            Details::Valued(_value) => {}
            Details::Signed(_signature) => {}
            Details::Several(_rare) => {}
        }
    }
}

impl Drop for Rare {
    fn drop(self) {
        let Rare {
            bases: _bases,
            operations: _operations,
            value: _value,
            enumerators: _enumerators,
            signature: _signature,
        } = self;
    }
}

impl Clone for Details {
    ghost is_clone = { λ details copy. copy ≡ details };

    fn clone(&self) -> Result<Details, AllocError> {
        Ok(match self {
            Details::Nothing => Details::Nothing,
            Details::Valued(value) => Details::Valued(value.clone()?),
            Details::Signed(signature) => Details::Signed(signature.clone()?),
            Details::Several(rare) => Details::Several(rare.clone()?),
        })
    }
}

impl Details {
    /// A value alone, if there is one.
    pub fn valued(value: Option<Shared<Value>>) -> Details
        ensures { rare_in result ≡ listless value None }
    {
        match value {
            Some(value) => Details::Valued(value),
            None => Details::Nothing,
        }
    }
}
