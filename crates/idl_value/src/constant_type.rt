//! What an expression is to have a value of.

ghost use Rattle.std.specs.Prelude.{◌≡◌};
ghost use Rattle.idl_value.specs.Evaluation.{kind_in};
ghost use Rattle.idl_value.specs.ConstantType.{discriminates, integer_of, sized_kind, target_of, value_count};

use crate::integer::IntegerKind;
use idl_base::{Bytes, Datum, Seq};
use idl_tree::declarations::{DiscreteType, IntegerSize, SizedInteger};
use std::alloc::AllocError;

/// A type of which there are constants.
#[derive(PartialEq, Eq, PartialOrd, Ord)]
pub enum ConstantType {
    Integer(IntegerKind),
    Boolean,
    Character,
    WideCharacter,
    /// `string`, with its bound if it has one.
    Text(Option<u32>),
    /// `wstring`, with its bound if it has one.
    WideText(Option<u32>),
    /// The enum at this path, the innermost name first.
    Enumeration(Seq<Bytes>),
}

impl Drop for ConstantType {
    fn drop(self) {
        match self {
            ConstantType::Integer(_kind) => {}
            ConstantType::Boolean | ConstantType::Character | ConstantType::WideCharacter => {}
            ConstantType::Text(_bound) | ConstantType::WideText(_bound) => {}
            ConstantType::Enumeration(_path) => {}
        }
    }
}

impl Clone for ConstantType {
    ghost is_clone = { λ target copy. copy ≡ target };

    fn clone(&self) -> Result<ConstantType, AllocError> {
        Ok(match self {
            ConstantType::Integer(kind) => ConstantType::Integer(*kind),
            ConstantType::Boolean => ConstantType::Boolean,
            ConstantType::Character => ConstantType::Character,
            ConstantType::WideCharacter => ConstantType::WideCharacter,
            ConstantType::Text(bound) => ConstantType::Text(*bound),
            ConstantType::WideText(bound) => ConstantType::WideText(*bound),
            ConstantType::Enumeration(path) => ConstantType::Enumeration(path.clone()?),
        })
    }
}

impl Datum for ConstantType {
    ghost use Rattle.idl_value.specs.Exact.{same_target};

    ghost same = { same_target };

    ghost copy = { λ x y h. h };
}

impl ConstantType {
    /// The type that keywords name.
    pub fn of_keywords(discrete: DiscreteType) -> ConstantType
        ensures { result ≡ target_of discrete }
    {
        match discrete {
            DiscreteType::Integer(integer) => {
                ConstantType::Integer(integer_of(integer.is_unsigned, integer.size))
            }
            DiscreteType::Sized(sized) => ConstantType::Integer(sized_kind(sized)),
            DiscreteType::Char => ConstantType::Character,
            DiscreteType::WideChar => ConstantType::WideCharacter,
            DiscreteType::Boolean => ConstantType::Boolean,
            DiscreteType::Octet => ConstantType::Integer(IntegerKind::Octet),
        }
    }

    /// The integer type that it is.
    pub fn kind(&self) -> Option<IntegerKind>
        ensures { result ≡ kind_in self.now }
    {
        match self {
            ConstantType::Integer(kind) => Some(*kind),
            _ => None,
        }
    }

    /// How many values it has, where its enum has so many enumerators; `None` of strings, which have no end.
    pub fn value_count(&self, enumerators: u64) -> Option<i128>
        ensures { result ≡ value_count self.now enumerators }
    {
        match self {
            ConstantType::Integer(kind) => Some(kind.value_count()),
            ConstantType::Boolean => Some(2),
            ConstantType::Character => Some(256),
            ConstantType::WideCharacter => Some(65536),
            ConstantType::Text(_) | ConstantType::WideText(_) => None,
            ConstantType::Enumeration(_) => Some(i128::from(enumerators)),
        }
    }

    /// Whether a union may have a discriminator of this type.
    pub fn discriminates(&self) -> bool
        ensures { result ≡ discriminates self.now }
    {
        match self {
            ConstantType::Integer(_)
            | ConstantType::Boolean
            | ConstantType::Character
            | ConstantType::WideCharacter
            | ConstantType::Enumeration(_) => true,
            ConstantType::Text(_) | ConstantType::WideText(_) => false,
        }
    }
}

// The integer type of this size.
fn integer_of(is_unsigned: bool, size: IntegerSize) -> IntegerKind
    ensures { result ≡ integer_of is_unsigned size }
{
    match size {
        IntegerSize::Short if is_unsigned => IntegerKind::UnsignedShort,
        IntegerSize::Short => IntegerKind::Short,
        IntegerSize::Long if is_unsigned => IntegerKind::UnsignedLong,
        IntegerSize::Long => IntegerKind::Long,
        IntegerSize::LongLong if is_unsigned => IntegerKind::UnsignedLongLong,
        IntegerSize::LongLong => IntegerKind::LongLong,
    }
}

// The integer type whose width the word tells.
fn sized_kind(sized: SizedInteger) -> IntegerKind
    ensures { result ≡ sized_kind sized }
{
    match sized {
        SizedInteger::Int8 => IntegerKind::Int8,
        SizedInteger::Int16 => IntegerKind::Short,
        SizedInteger::Int32 => IntegerKind::Long,
        SizedInteger::Int64 => IntegerKind::LongLong,
        SizedInteger::Uint8 => IntegerKind::Uint8,
        SizedInteger::Uint16 => IntegerKind::UnsignedShort,
        SizedInteger::Uint32 => IntegerKind::UnsignedLong,
        SizedInteger::Uint64 => IntegerKind::UnsignedLongLong,
    }
}
