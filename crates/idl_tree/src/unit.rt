//! Units.

use crate::declarations::attribute::{Attribute, ReadonlyAttribute};
use crate::declarations::construction::{Construction, Member, MemberType};
use crate::declarations::data_type::{DiscreteType, StringType};
use crate::declarations::declarator::Declarator;
use crate::declarations::interface::{Forward, Interface};
use crate::declarations::operation::Operation;
use crate::expression::Expression;
use crate::name::ScopedName;
use crate::several::Several;
use idl_base::{Bytes, Seq};

/// A typedef.
pub struct Typedef {
    pub kind: MemberType,
    pub declarators: Several<Declarator>,
}

impl Drop for Typedef {
    fn drop(self) {
        let Typedef {
            kind: _kind,
            declarators: _declarators,
        } = self;
    }
}

/// The type of a constant.
pub enum ConstantTypeTree {
    Discrete(DiscreteType),
    String(StringType),
    Name(ScopedName),
}

impl Drop for ConstantTypeTree {
    fn drop(self) {
        match self {
            ConstantTypeTree::Discrete(_a) => {}
            ConstantTypeTree::String(_a) => {}
            ConstantTypeTree::Name(_a) => {}
        }
    }
}

/// A constant.
pub struct Constant {
    pub kind: ConstantTypeTree,
    pub name: Bytes,
    pub value: Expression,
}

impl Drop for Constant {
    fn drop(self) {
        let Constant {
            kind: _kind,
            name: _name,
            value: _value,
        } = self;
    }
}

/// An exception, with its members.
pub struct Exception {
    pub name: Bytes,
    pub members: Seq<Member>,
}

impl Drop for Exception {
    fn drop(self) {
        let Exception {
            name: _name,
            members: _members,
        } = self;
    }
}

/// The id of what a name denotes.
pub struct Typeid {
    pub name: ScopedName,
    pub text: Several<Seq<u16>>,
}

impl Drop for Typeid {
    fn drop(self) {
        let Typeid {
            name: _name,
            text: _text,
        } = self;
    }
}

/// What the ids begin with of what a name denotes, and of what is in it.
pub struct Typeprefix {
    pub name: ScopedName,
    pub has_equals: bool,
    pub text: Several<Seq<u16>>,
}

impl Drop for Typeprefix {
    fn drop(self) {
        let Typeprefix {
            name: _name,
            has_equals: _has_equals,
            text: _text,
        } = self;
    }
}

/// What a unit is.
pub enum Tree {
    Closing,
    Module(Bytes),
    Interface(Interface),
    Forward(Forward),
    Typedef(Typedef),
    Construction(Construction),
    Native(Bytes),
    Constant(Constant),
    Exception(Exception),
    ReadonlyAttribute(ReadonlyAttribute),
    Attribute(Attribute),
    Operation(Operation),
    Typeid(Typeid),
    Typeprefix(Typeprefix),
}

impl Drop for Tree {
    fn drop(self) {
        match self {
            Tree::Closing => {}
            Tree::Module(_a) => {}
            Tree::Interface(_a) => {}
            Tree::Forward(_a) => {}
            Tree::Typedef(_a) => {}
            Tree::Construction(_a) => {}
            Tree::Native(_a) => {}
            Tree::Constant(_a) => {}
            Tree::Exception(_a) => {}
            Tree::ReadonlyAttribute(_a) => {}
            Tree::Attribute(_a) => {}
            Tree::Operation(_a) => {}
            Tree::Typeid(_a) => {}
            Tree::Typeprefix(_a) => {}
        }
    }
}
