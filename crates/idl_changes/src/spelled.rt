//! Types as IDL writes them.

ghost use Rattle.std.specs.Prelude.{◌≡◌, ◌++◌, [], IfOk, OnOk};
ghost use Rattle.idl_changes.specs.Spelled.{bound_spelled, element_spelled, integer_spelled, layers_spelled, length_spelled, sequence_spelled, spelled, string_spelled, target_spelled, unvalued_spelled};

use idl_entity::{Layer, Unvalued};
use idl_repo::details::{ElementTree, LayeredType};
use idl_repo::push_number;
use idl_value::{ConstantType, IntegerKind};
use std::alloc::{AllocError, Global};

/// A type: what is around it stands around its text, and the lengths of arrays behind it.
#[tactic(auto, unfolding(crate::specs::Spelled::spelled))]
pub fn spelled(alloc: Global, data_type: &LayeredType) -> Result<Vec<u8>, AllocError>
    ensures { IfOk result (λ text. text.items ≡ spelled data_type.now) }
{
    let element = element_spelled(alloc, &data_type.element)?;
    layers_spelled(element, data_type.layers.as_slice())
}

// The layers around a text, the innermost first.
fn layers_spelled(element: Vec<u8>, layers: &[Layer]) -> Result<Vec<u8>, AllocError>
    ensures { IfOk result (λ text. text.items ≡ layers_spelled element.items [] layers.now) }
{
    let mut text = element;
    let mut lengths = Vec::new(*text.allocator());
    for layer in layers {
        match layer {
            Layer::Array(length) => lengths = length_before(*length, &lengths)?,
            Layer::Sequence(bound) => {
                text = sequence_spelled(*bound, &text, &lengths)?;
                lengths.clear();
            }
        }
    }
    text.extend_from_slice(&lengths)?;
    Ok(text)
}

// The length of an array before others.
fn length_before(length: u32, lengths: &Vec<u8>) -> Result<Vec<u8>, AllocError>
    ensures { IfOk result (λ text. text.items ≡ length_spelled length ++ lengths.now.items) }
{
    let mut text = Vec::from_slice(*lengths.allocator(), b"[")?;
    push_number(&mut text, length as usize)?;
    text.extend_from_slice(b"]")?;
    text.extend_from_slice(lengths)?;
    Ok(text)
}

// A sequence of what has this text, with lengths of arrays behind it.
fn sequence_spelled(bound: u32, element: &Vec<u8>, lengths: &Vec<u8>) -> Result<Vec<u8>, AllocError>
    ensures { IfOk result (λ text.
        text.items ≡ sequence_spelled bound (element.now.items ++ lengths.now.items)) }
{
    let mut text = Vec::from_slice(*element.allocator(), b"sequence<")?;
    text.extend_from_slice(element)?;
    text.extend_from_slice(lengths)?;
    push_bound(&mut text, bound)?;
    text.extend_from_slice(b">")?;
    Ok(text)
}

// The bound of a sequence, if it has one.
fn push_bound(text: &mut Vec<u8>, bound: u32) -> Result<(), AllocError>
    ensures { OnOk result (text.new.items ≡ text.old.items ++ bound_spelled bound) }
{
    if bound == 0 {
        return Ok(());
    }
    text.extend_from_slice(b", ")?;
    push_number(text, bound as usize)
}

// What a type is of: a named one by its path.
fn element_spelled(alloc: Global, element: &ElementTree) -> Result<Vec<u8>, AllocError>
    ensures { IfOk result (λ text. text.items ≡ element_spelled element.now) }
{
    match element {
        ElementTree::Void => Vec::from_slice(alloc, b"void"),
        ElementTree::Constants(target) => target_spelled(alloc, target),
        ElementTree::Unvalued(kind) => Vec::from_slice(alloc, unvalued_spelled(*kind)),
        ElementTree::Named(reference) => Vec::from_slice(alloc, reference.path.as_bytes()),
    }
}

// A type of keywords of which there are constants. An enum has a name.
fn target_spelled(alloc: Global, target: &ConstantType) -> Result<Vec<u8>, AllocError>
    ensures { IfOk result (λ text. text.items ≡ target_spelled target.now) }
{
    match target {
        ConstantType::Integer(kind) => Vec::from_slice(alloc, integer_spelled(*kind)),
        ConstantType::Boolean => Vec::from_slice(alloc, b"boolean"),
        ConstantType::Character => Vec::from_slice(alloc, b"char"),
        ConstantType::WideCharacter => Vec::from_slice(alloc, b"wchar"),
        ConstantType::Text(bound) => string_spelled(alloc, b"string", *bound),
        ConstantType::WideText(bound) => string_spelled(alloc, b"wstring", *bound),
        ConstantType::Enumeration(_path) => Ok(Vec::new(alloc)),
    }
}

// A string type, with its bound, if it has one.
fn string_spelled(alloc: Global, word: &[u8], bound: Option<u32>) -> Result<Vec<u8>, AllocError>
    ensures { IfOk result (λ text. text.items ≡ string_spelled word.now bound) }
{
    let mut text = Vec::from_slice(alloc, word)?;
    if let Some(bound) = bound {
        text.extend_from_slice(b"<")?;
        push_number(&mut text, bound as usize)?;
        text.extend_from_slice(b">")?;
    }
    Ok(text)
}

// The keywords of an integer type.
fn integer_spelled(kind: IntegerKind) -> &'static [u8]
    ensures { result.now ≡ integer_spelled kind }
{
    match kind {
        IntegerKind::Octet => b"octet",
        IntegerKind::Int8 => b"int8",
        IntegerKind::Uint8 => b"uint8",
        IntegerKind::Short => b"short",
        IntegerKind::UnsignedShort => b"unsigned short",
        IntegerKind::Long => b"long",
        IntegerKind::UnsignedLong => b"unsigned long",
        IntegerKind::LongLong => b"long long",
        IntegerKind::UnsignedLongLong => b"unsigned long long",
    }
}

// Those of a type of which there are no constants.
fn unvalued_spelled(kind: Unvalued) -> &'static [u8]
    ensures { result.now ≡ unvalued_spelled kind }
{
    match kind {
        Unvalued::Float => b"float",
        Unvalued::Double => b"double",
        Unvalued::LongDouble => b"long double",
        Unvalued::Any => b"any",
        Unvalued::Object => b"Object",
    }
}
