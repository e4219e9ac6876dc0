//! Types.

use crate::expression::Expression;
use crate::name::ScopedName;
use idl_base::Boxed;

/// How wide an integer type is.
#[derive(Clone, Copy)]
pub enum IntegerSize {
    Short,
    Long,
    LongLong,
}

/// An integer type.
#[derive(Clone, Copy)]
pub struct IntegerType {
    pub is_unsigned: bool,
    pub size: IntegerSize,
}

/// An integer type of one word, which says how wide it is.
#[derive(Clone, Copy)]
pub enum SizedInteger {
    Int8,
    Int16,
    Int32,
    Int64,
    Uint8,
    Uint16,
    Uint32,
    Uint64,
}

/// A type of keywords alone whose values can be told one from another by labels, and be constants.
#[derive(Clone, Copy)]
pub enum DiscreteType {
    Integer(IntegerType),
    Sized(SizedInteger),
    Char,
    WideChar,
    Boolean,
    Octet,
}

/// A type of keywords alone.
#[derive(Clone, Copy)]
pub enum BasicType {
    Discrete(DiscreteType),
    Float,
    Double,
    LongDouble,
    Any,
    Object,
}

/// `string` or `wstring`, with or without a bound.
pub struct StringType {
    pub is_wide: bool,
    pub bound: Option<Boxed<Expression>>,
}

impl Drop for StringType {
    fn drop(self) {
        let StringType {
            is_wide: _is_wide,
            bound: _bound,
        } = self;
    }
}

/// A type that holds no other one.
pub enum PlainType {
    Basic(BasicType),
    String(StringType),
    Name(ScopedName),
}

impl Drop for PlainType {
    fn drop(self) {
        match self {
            PlainType::Basic(_a) => {}
            PlainType::String(_a) => {}
            PlainType::Name(_a) => {}
        }
    }
}

/// A type.
#[cycle(data_type)]
#[derive(Drop)]
pub enum TypeTree {
    Plain(PlainType),
    Sequence(Boxed<Sequence>),
}

/// `sequence`, with or without a bound.
#[cycle(data_type)]
#[derive(Drop)]
pub struct Sequence {
    pub element: TypeTree,
    pub bound: Option<Expression>,
}
