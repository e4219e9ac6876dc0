//! Trees of declarations and of what stands in them.

pub(crate) mod attribute;
pub(crate) mod construction;
pub(crate) mod data_type;
pub(crate) mod declarator;
pub(crate) mod interface;
pub(crate) mod operation;

pub use attribute::{Attribute, AttributeNames, AttributeRaises, ReadonlyAttribute, ReadonlyNames};
pub use construction::{
    Case, Construction, Discriminator, Enumeration, Label, Member, MemberType, Structure, Union,
};
pub use data_type::{
    BasicType, DiscreteType, IntegerSize, IntegerType, PlainType, Sequence, SizedInteger,
    StringType, TypeTree,
};
pub use declarator::Declarator;
pub use interface::{Forward, Interface};
pub use operation::{Direction, Operation, Parameter};
