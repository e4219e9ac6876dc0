//! Structs, unions and enums.

use crate::declarations::data_type::{DiscreteType, TypeTree};
use crate::declarations::declarator::Declarator;
use crate::expression::Expression;
use crate::name::ScopedName;
use crate::several::Several;
use idl_base::{Boxed, Bytes, Seq};

/// An enum, with its enumerators.
pub struct Enumeration {
    pub name: Bytes,
    pub enumerators: Several<Bytes>,
}

impl Drop for Enumeration {
    fn drop(self) {
        let Enumeration {
            name: _name,
            enumerators: _enumerators,
        } = self;
    }
}

/// The type of a union's discriminator.
pub enum Discriminator {
    Discrete(DiscreteType),
    Name(ScopedName),
}

impl Drop for Discriminator {
    fn drop(self) {
        match self {
            Discriminator::Discrete(_a) => {}
            Discriminator::Name(_a) => {}
        }
    }
}

/// A label of a case.
pub enum Label {
    Case(Expression),
    Default,
}

impl Drop for Label {
    fn drop(self) {
        match self {
            Label::Case(_a) => {}
            Label::Default => {}
        }
    }
}

/// A type, or one that is declared in place.
#[cycle(construction)]
#[derive(Drop)]
pub enum MemberType {
    Type(TypeTree),
    Construction(Boxed<Construction>),
}

/// A struct, a union or an enum.
#[cycle(construction)]
#[derive(Drop)]
pub enum Construction {
    Structure(Boxed<Structure>),
    Union(Boxed<Union>),
    Enumeration(Enumeration),
}

/// A struct, with its members, and with what it inherits from.
#[cycle(construction)]
#[derive(Drop)]
pub struct Structure {
    pub name: Bytes,
    pub base: Option<ScopedName>,
    pub members: Seq<Member>,
}

/// Members of one type.
#[cycle(construction)]
#[derive(Drop)]
pub struct Member {
    pub kind: MemberType,
    pub declarators: Several<Declarator>,
}

/// A union, with one case or more.
#[cycle(construction)]
#[derive(Drop)]
pub struct Union {
    pub name: Bytes,
    pub discriminator: Discriminator,
    pub first: Case,
    pub rest: Seq<Case>,
}

/// A member of a union, with its labels.
#[cycle(construction)]
#[derive(Drop)]
pub struct Case {
    pub labels: Several<Label>,
    pub kind: MemberType,
    pub declarator: Declarator,
}
