//! Types in JSON, and references.

ghost use Rattle.std.specs.Prelude.{◌≡◌, [], IfOk, reverse};
ghost use Rattle.serde_json.specs.View.{view};
ghost use Rattle.idl_json.specs.Objects.{list_json, number_json};
ghost use Rattle.idl_json.specs.Types.{arrays_json, bound_json, constants_json, element_json, layered, object_json, reference_json, references_json, sequence_json, string_json, type_json, unvalued_json, word_json};

use crate::objects::Object;
use crate::text::texts_value;
use idl_base::Bytes;
use idl_entity::{Layer, Unvalued};
use idl_repo::details::{ElementTree, LayeredType, Reference};
use idl_repo::{integer_word, unvalued_word};
use idl_value::ConstantType;
use serde_json::Value;
use std::alloc::{AllocError, Global};

/// A type.
pub(crate) fn type_value(alloc: Global, data_type: &LayeredType) -> Result<Value, AllocError>
    ensures { IfOk result (λ value. view value ≡ type_json data_type.now) }
{
    let element = element_value(alloc, &data_type.element)?;
    layered(alloc, element, data_type.layers.as_slice())
}

// A type within these layers, the innermost first.
fn layered(alloc: Global, element: Value, layers: &[Layer]) -> Result<Value, AllocError>
    ensures { IfOk result (λ value. view value ≡ layered (view element) [] layers.now) }
{
    let mut inner = element;
    let mut lengths = Vec::new(alloc);
    'layers: for layer in layers {
        match layer {
            Layer::Array(length) => lengths.push(*length)?,
            Layer::Sequence(bound) => {
                let held = arrays_value(alloc, inner, &lengths)?;
                lengths.clear();
                inner = sequence_value(alloc, held, *bound)?;
            }
        }
    }
    arrays_value(alloc, inner, &lengths)
}

// A type within arrays of these lengths, the innermost first.
fn arrays_value(alloc: Global, element: Value, lengths: &[u32]) -> Result<Value, AllocError>
    ensures { IfOk result (λ value.
        view value ≡ arrays_json (reverse lengths.now) (view element)) }
{
    if lengths.is_empty() {
        return Ok(element);
    }
    let mut object = Object::new(alloc);
    object.put_text("kind", b"tk_array")?;
    object.put("lengths", lengths_value(alloc, lengths)?)?;
    object.put("element", element)?;
    Ok(object.into_value())
}

// Lengths, the last first.
fn lengths_value(alloc: Global, lengths: &[u32]) -> Result<Value, AllocError>
    ensures { IfOk result (λ value. view value ≡ list_json number_json (reverse lengths.now)) }
{
    let mut values = Vec::with_capacity(alloc, lengths.len())?;
    'lengths: for length in lengths {
        values.push(Value::from(*length))?;
    }
    values.reverse();
    Ok(Value::Array(values))
}

// A sequence of a type.
fn sequence_value(alloc: Global, element: Value, bound: u32) -> Result<Value, AllocError>
    ensures { IfOk result (λ value. view value ≡ sequence_json bound (view element)) }
{
    let mut object = Object::new(alloc);
    object.put_text("kind", b"tk_sequence")?;
    object.put("bound", Value::from(bound))?;
    object.put("element", element)?;
    Ok(object.into_value())
}

// What a type is of.
fn element_value(alloc: Global, element: &ElementTree) -> Result<Value, AllocError>
    ensures { IfOk result (λ value. view value ≡ element_json element.now) }
{
    match element {
        ElementTree::Void => word_value(alloc, b"tk_void"),
        ElementTree::Constants(target) => constants_value(alloc, target),
        ElementTree::Unvalued(kind) => unvalued_value(alloc, *kind),
        ElementTree::Named(reference) => reference_value(alloc, reference),
    }
}

// A reference.
fn reference_value(alloc: Global, reference: &Reference) -> Result<Value, AllocError>
    ensures { IfOk result (λ value. view value ≡ reference_json reference.now) }
{
    let mut object = Object::new(alloc);
    object.put_text("ref", reference.id.as_bytes())?;
    object.put_text("path", reference.path.as_bytes())?;
    Ok(object.into_value())
}

/// References, in order.
pub(crate) fn references_value(alloc: Global, references: &[Reference]) -> Result<Value, AllocError>
    ensures { IfOk result (λ value. view value ≡ references_json references.now) }
{
    let mut values = Vec::with_capacity(alloc, references.len())?;
    'references: for reference in references {
        values.push(reference_value(alloc, reference)?)?;
    }
    Ok(Value::Array(values))
}

// A type of keywords of which there are constants.
fn constants_value(alloc: Global, target: &ConstantType) -> Result<Value, AllocError>
    ensures { IfOk result (λ value. view value ≡ constants_json target.now) }
{
    match target {
        ConstantType::Integer(kind) => word_value(alloc, integer_word(*kind)),
        ConstantType::Boolean => word_value(alloc, b"tk_boolean"),
        ConstantType::Character => word_value(alloc, b"tk_char"),
        ConstantType::WideCharacter => word_value(alloc, b"tk_wchar"),
        ConstantType::Text(bound) => string_value(alloc, b"tk_string", *bound),
        ConstantType::WideText(bound) => string_value(alloc, b"tk_wstring", *bound),
        ConstantType::Enumeration(path) => enumeration_value(alloc, path.as_slice()),
    }
}

// An enum by its path.
fn enumeration_value(alloc: Global, path: &[Bytes]) -> Result<Value, AllocError>
    ensures { IfOk result (λ value.
        view value ≡ constants_json (ConstantType.Enumeration path.now)) }
{
    let mut object = Object::new(alloc);
    object.put_text("kind", b"tk_enum")?;
    object.put_texts("names", path)?;
    Ok(object.into_value())
}

// One of which there are none.
fn unvalued_value(alloc: Global, kind: Unvalued) -> Result<Value, AllocError>
    ensures { IfOk result (λ value. view value ≡ unvalued_json kind) }
{
    match kind {
        Unvalued::Object => object_value(alloc),
        _ => word_value(alloc, unvalued_word(kind)),
    }
}

// `Object`.
fn object_value(alloc: Global) -> Result<Value, AllocError>
    ensures { IfOk result (λ value. view value ≡ object_json) }
{
    let mut object = Object::new(alloc);
    object.put_text("kind", b"tk_objref")?;
    object.put_text("id", b"IDL:omg.org/CORBA/Object:1.0")?;
    object.put_text("name", b"Object")?;
    Ok(object.into_value())
}

// A type of which its word tells all.
fn word_value(alloc: Global, word: &[u8]) -> Result<Value, AllocError>
    ensures { IfOk result (λ value. view value ≡ word_json word.now) }
{
    let mut object = Object::new(alloc);
    object.put_text("kind", word)?;
    Ok(object.into_value())
}

// A string type.
fn string_value(alloc: Global, word: &[u8], bound: Option<u32>) -> Result<Value, AllocError>
    ensures { IfOk result (λ value. view value ≡ string_json word.now bound) }
{
    let mut object = Object::new(alloc);
    object.put_text("kind", word)?;
    object.put("bound", bound_value(bound))?;
    Ok(object.into_value())
}

// A bound, or 0 for none.
fn bound_value(bound: Option<u32>) -> Value
    ensures { view result ≡ bound_json bound }
{
    match bound {
        None => Value::from(0u32),
        Some(0) => Value::Null,
        Some(bound) => Value::from(bound),
    }
}
