//! Types of keywords that are written often.

ghost use Rattle.std.specs.Prelude.{◌≡◌, IfSome, IsTrue};
ghost use Rattle.idl_entity.specs.DataType.{plain_type};

use idl_base::Shared;
use idl_entity::idl_value::{ConstantType, IntegerKind};
use idl_entity::{DataType, Element, Unvalued};
use std::alloc::{AllocError, Global};

/// Types of keywords, without sequences and arrays, each of which is made once and shared by all that is declared with it.
#[derive(Drop)]
pub struct PlainTypes {
    // Those that are written most often come first.
    types: Vec<Shared<DataType>>,
}

impl PlainTypes {
    /// All of them but strings with bounds.
    pub fn new(alloc: Global) -> Result<PlainTypes, AllocError> {
        let mut types = Vec::new(alloc);
        push(&mut types, alloc, integer(IntegerKind::Long))?;
        push(
            &mut types,
            alloc,
            Element::Constants(ConstantType::Text(None)),
        )?;
        push(&mut types, alloc, Element::Constants(ConstantType::Boolean))?;
        push(&mut types, alloc, integer(IntegerKind::UnsignedLong))?;
        push(&mut types, alloc, integer(IntegerKind::Octet))?;
        push(&mut types, alloc, integer(IntegerKind::Short))?;
        push(&mut types, alloc, Element::Unvalued(Unvalued::Double))?;
        push(&mut types, alloc, Element::Unvalued(Unvalued::Any))?;
        push(&mut types, alloc, integer(IntegerKind::UnsignedShort))?;
        push(&mut types, alloc, integer(IntegerKind::LongLong))?;
        push(&mut types, alloc, integer(IntegerKind::UnsignedLongLong))?;
        push(&mut types, alloc, Element::Unvalued(Unvalued::Object))?;
        push(&mut types, alloc, Element::Unvalued(Unvalued::Float))?;
        push(
            &mut types,
            alloc,
            Element::Constants(ConstantType::Character),
        )?;
        push(
            &mut types,
            alloc,
            Element::Constants(ConstantType::WideText(None)),
        )?;
        push(
            &mut types,
            alloc,
            Element::Constants(ConstantType::WideCharacter),
        )?;
        push(&mut types, alloc, Element::Unvalued(Unvalued::LongDouble))?;
        push(&mut types, alloc, integer(IntegerKind::Int8))?;
        push(&mut types, alloc, integer(IntegerKind::Uint8))?;
        Ok(PlainTypes { types })
    }

    /// The type of this, if it is one of them.
    pub fn find(&self, element: &Element) -> Option<&Shared<DataType>>
        ensures { IfSome result (λ t. t.now ≡ plain_type element.now) }
    {
        for t in &self.types {
            if is_plain(t.get(), element) {
                return Some(t);
            }
        }
        None
    }
}

// An integer type.
fn integer(kind: IntegerKind) -> Element {
    Element::Constants(ConstantType::Integer(kind))
}

// Makes one more.
fn push(
    types: &mut Vec<Shared<DataType>>,
    alloc: Global,
    element: Element,
) -> Result<(), AllocError> {
    types.push(DataType::plain(alloc, element)?)?;
    Ok(())
}

// Whether a type is this, with nothing around it.
fn is_plain(t: &DataType, element: &Element) -> bool
    ensures { IsTrue result → t.now ≡ plain_type element.now }
{
    t.element == *element && t.layers.is_empty()
}
