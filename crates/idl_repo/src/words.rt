//! How the parts of a row are written, by themselves: what asks for no id.

ghost use Rattle.std.specs.Prelude.{◌≡◌, ◌++◌, OnOk, decimal, flat_map};
ghost use Rattle.idl_repo.specs.Row.{context_word, direction_word, kind_word, path_text};
ghost use Rattle.idl_repo.specs.TypeCode.{default_word, integer_word, layer_end, layer_word, layers_begin, listed_value, size_of, string_word, target_word, unvalued_word};

use idl_base::Seq;
use idl_entity::paths::Names;
use idl_entity::{Kind, Layer, Unvalued};
use idl_value::{ConstantType, IntegerKind, Value, push_value};
use itoa::Buffer;
use std::alloc::AllocError;

/// The names of a path, the outermost first, with `::` between them.
pub fn push_path(text: &mut Vec<u8>, names: Names<'_>) -> Result<(), AllocError>
    ensures { OnOk result (text.new.items ≡ text.old.items ++ path_text names.entry) }
{
    let Some((name, outer)) = names.split_first() else {
        return Ok(());
    };
    if !outer.is_empty() {
        push_path(text, outer)?;
        text.extend_from_slice(b"::")?;
    }
    text.extend_from_slice(name)?;
    Ok(())
}

/// The word of a row.
pub fn kind_word(kind: Kind) -> &'static [u8]
    ensures { result.now ≡ kind_word kind }
{
    match kind {
        Kind::Module => b"module",
        Kind::Interface => b"interface",
        Kind::Structure => b"struct",
        Kind::Union => b"union",
        Kind::Exception => b"exception",
        Kind::Enumeration => b"enum",
        Kind::Alias => b"alias",
        Kind::Native => b"native",
        Kind::Constant => b"const",
        Kind::Attribute => b"attribute",
        Kind::Operation => b"operation",
        Kind::Enumerator | Kind::Parameter | Kind::Member => b"",
    }
}

/// The word of a parameter that goes in or not, and comes out or not.
pub fn direction_word(goes_in: bool, comes_out: bool) -> &'static [u8]
    ensures { result.now ≡ direction_word goes_in comes_out }
{
    match (goes_in, comes_out) {
        (true, true) => b"inout",
        (false, true) => b"out",
        _ => b"in",
    }
}

/// A number in decimal.
pub fn push_number(text: &mut Vec<u8>, number: usize) -> Result<(), AllocError>
    ensures { OnOk result (text.new.items ≡ text.old.items ++ decimal number) }
{
    let mut buffer = Buffer::new();
    text.extend_from_slice(buffer.format(number).as_bytes())
}

/// A value, and of an enumerator its name alone.
pub fn push_listed(text: &mut Vec<u8>, value: &Value) -> Result<(), AllocError>
    ensures { OnOk result (text.new.items ≡ text.old.items ++ listed_value value.now) }
{
    match value {
        Value::Enumerator(_enumeration, name) => text.extend_from_slice(name.as_bytes()),
        _ => push_value(text, value),
    }
}

/// A text.
pub fn push_context(text: &mut Vec<u8>, context: &Seq<u16>) -> Result<(), AllocError>
    ensures { OnOk result
        (text.new.items ≡ text.old.items ++ context_word context.now) }
{
    push_listed(text, &Value::Text(context.clone()?))
}

/// The number of the entry of `default`, or -1.
pub fn push_default(text: &mut Vec<u8>, number: Option<usize>) -> Result<(), AllocError>
    ensures { OnOk result (text.new.items ≡ text.old.items ++ default_word number) }
{
    match number {
        Some(number) => push_number(text, number),
        None => text.extend_from_slice(b"-1"),
    }
}

/// Where the layers around a type begin, from the outermost on.
pub fn begin_layers(text: &mut Vec<u8>, layers: &[Layer]) -> Result<(), AllocError>
    ensures { OnOk result
        (text.new.items ≡ text.old.items ++ layers_begin layers.now) }
{
    let count = layers.len();
    for back in 0..count {
        text.extend_from_slice(layer_word(layers[count - 1 - back]))?;
    }
    Ok(())
}

// How a sequence or an array begins.
fn layer_word(layer: Layer) -> &'static [u8]
    ensures { result.now ≡ layer_word layer }
{
    match layer {
        Layer::Sequence(_bound) => b"tk_sequence(",
        Layer::Array(_length) => b"tk_array(",
    }
}

/// Where they end, from the innermost on: with the bound of each, or its length.
pub fn end_layers(text: &mut Vec<u8>, layers: &[Layer]) -> Result<(), AllocError>
    ensures { OnOk result
        (text.new.items ≡ text.old.items ++ flat_map layer_end layers.now) }
{
    for layer in layers {
        text.extend_from_slice(b",")?;
        push_number(text, size_of(*layer) as usize)?;
        text.extend_from_slice(b")")?;
    }
    Ok(())
}

// The bound of a sequence, or the length of an array.
fn size_of(layer: Layer) -> u32
    ensures { result ≡ size_of layer }
{
    match layer {
        Layer::Sequence(bound) => bound,
        Layer::Array(length) => length,
    }
}

/// A type of keywords of which there are constants. An enum has a name.
pub fn push_target(text: &mut Vec<u8>, target: &ConstantType) -> Result<(), AllocError>
    ensures { OnOk result
        (text.new.items ≡ text.old.items ++ target_word target.now) }
{
    match target {
        ConstantType::Integer(kind) => text.extend_from_slice(integer_word(*kind)),
        ConstantType::Boolean => text.extend_from_slice(b"tk_boolean"),
        ConstantType::Character => text.extend_from_slice(b"tk_char"),
        ConstantType::WideCharacter => text.extend_from_slice(b"tk_wchar"),
        ConstantType::Text(bound) => push_string(text, b"tk_string(", *bound),
        ConstantType::WideText(bound) => push_string(text, b"tk_wstring(", *bound),
        ConstantType::Enumeration(_path) => Ok(()),
    }
}

// A string type, with its bound, or 0 if it has none.
fn push_string(text: &mut Vec<u8>, word: &[u8], bound: Option<u32>) -> Result<(), AllocError>
    ensures { OnOk result
        (text.new.items ≡ text.old.items ++ string_word word.now bound) }
{
    text.extend_from_slice(word)?;
    match bound {
        Some(bound) => push_number(text, bound as usize)?,
        None => text.extend_from_slice(b"0")?,
    }
    text.extend_from_slice(b")")?;
    Ok(())
}

/// The word of an integer type.
pub fn integer_word(kind: IntegerKind) -> &'static [u8]
    ensures { result.now ≡ integer_word kind }
{
    match kind {
        IntegerKind::Octet => b"tk_octet",
        IntegerKind::Int8 => b"tk_int8",
        IntegerKind::Uint8 => b"tk_uint8",
        IntegerKind::Short => b"tk_short",
        IntegerKind::UnsignedShort => b"tk_ushort",
        IntegerKind::Long => b"tk_long",
        IntegerKind::UnsignedLong => b"tk_ulong",
        IntegerKind::LongLong => b"tk_longlong",
        IntegerKind::UnsignedLongLong => b"tk_ulonglong",
    }
}

/// The text of a type of which there are no constants.
pub fn unvalued_word(kind: Unvalued) -> &'static [u8]
    ensures { result.now ≡ unvalued_word kind }
{
    match kind {
        Unvalued::Float => b"tk_float",
        Unvalued::Double => b"tk_double",
        Unvalued::LongDouble => b"tk_longdouble",
        Unvalued::Any => b"tk_any",
        Unvalued::Object => b"tk_objref(IDL:omg.org/CORBA/Object:1.0,Object)",
    }
}
