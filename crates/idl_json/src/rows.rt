//! The trees of rows in JSON.
//!
//! An object is built member by member and printed whole: a clause says its text, a law that the tree is read back of
//! it. That holds of every tree of the type, so what never shows has a form too: a bound of 0 that is given is `null`,
//! and an enum by its path has `names`.

ghost use Rattle.std.specs.Prelude.{◌≡◌, IfOk, OnOk};
ghost use Rattle.serde_json.specs.View.{members_view, view};
ghost use Rattle.idl_json.specs.Objects.{list_json, with_fields};
ghost use Rattle.idl_json.specs.Rows.{attribute_fields, bases_fields, constant_fields, declared_fields, details_fields, direction_name, kind_name, operation_fields, parameter_json, row_fields, value_json};

use crate::objects::Object;
use crate::text::text_value;
use crate::type_codes::{put_member, type_code_value};
use crate::types::{references_value, type_value};
use idl_base::Bytes;
use idl_entity::Kind;
use idl_repo::details::{
    AttributeTree, ConstantTree, DeclaredType, OperationTree, ParameterTree, Reference, RowDetails,
    RowTree, direction_word, kind_word,
};
use serde_json::Value;
use std::alloc::{AllocError, Global};

/// Puts in the tree of a row.
pub(crate) fn put_row(alloc: Global, object: &mut Object, row: &RowTree) -> Result<(), AllocError>
    ensures { OnOk result (members_view object.new.members.entries
        ≡ with_fields (members_view object.old.members.entries) (row_fields row.now)) }
{
    object.put_text("kind", kind_name(row.kind))?;
    object.put_text("path", row.path.as_bytes())?;
    object.put_text("id", row.id.as_bytes())?;
    put_details(alloc, object, &row.details)
}

// The word of a row; what has no row has a word as well.
fn kind_name(kind: Kind) -> &'static [u8]
    ensures { result.now ≡ kind_name kind }
{
    match kind {
        Kind::Enumerator => b"enumerator",
        Kind::Parameter => b"parameter",
        Kind::Member => b"member",
        _ => kind_word(kind),
    }
}

// Puts in what a row tells behind its id.
fn put_details(alloc: Global, object: &mut Object, details: &RowDetails) -> Result<(), AllocError>
    ensures { OnOk result (members_view object.new.members.entries
        ≡ with_fields (members_view object.old.members.entries) (details_fields details.now)) }
{
    match details {
        RowDetails::Nothing => Ok(()),
        RowDetails::Type(declared) => put_declared(alloc, object, declared),
        RowDetails::Constant(constant) => put_constant(alloc, object, constant),
        RowDetails::Attribute(attribute) => put_attribute(alloc, object, attribute),
        RowDetails::Operation(operation) => put_operation(alloc, object, operation),
    }
}

// Puts in a TypeCode, and the bases.
fn put_declared(
    alloc: Global,
    object: &mut Object,
    declared: &DeclaredType,
) -> Result<(), AllocError>
    ensures { OnOk result (members_view object.new.members.entries
        ≡ with_fields (members_view object.old.members.entries) (declared_fields declared.now)) }
{
    object.put("type", type_code_value(alloc, &declared.code)?)?;
    put_bases(alloc, object, declared.bases.as_slice())
}

// Puts in the bases, if there are any.
fn put_bases(alloc: Global, object: &mut Object, bases: &[Reference]) -> Result<(), AllocError>
    ensures { OnOk result (members_view object.new.members.entries
        ≡ with_fields (members_view object.old.members.entries) (bases_fields bases.now)) }
{
    if bases.is_empty() {
        return Ok(());
    }
    object.put("bases", references_value(alloc, bases)?)
}

// Puts in what a constant tells.
fn put_constant(
    alloc: Global,
    object: &mut Object,
    constant: &ConstantTree,
) -> Result<(), AllocError>
    ensures { OnOk result (members_view object.new.members.entries
        ≡ with_fields (members_view object.old.members.entries) (constant_fields constant.now)) }
{
    object.put("type", type_value(alloc, &constant.data_type)?)?;
    object.put("value", value_of(alloc, &constant.value)?)
}

// A value as it is listed.
fn value_of(alloc: Global, value: &Option<Bytes>) -> Result<Value, AllocError>
    ensures { IfOk result (λ json. view json ≡ value_json value.now) }
{
    match value {
        Some(value) => text_value(alloc, value.as_bytes()),
        None => Ok(Value::Null),
    }
}

// Puts in what an attribute tells.
fn put_attribute(
    alloc: Global,
    object: &mut Object,
    attribute: &AttributeTree,
) -> Result<(), AllocError>
    ensures { OnOk result (members_view object.new.members.entries
        ≡ with_fields (members_view object.old.members.entries) (attribute_fields attribute.now)) }
{
    object.put("type", type_value(alloc, &attribute.data_type)?)?;
    object.put("readonly", Value::Bool(attribute.is_readonly))?;
    object.put("get", references_value(alloc, attribute.raised.as_slice())?)?;
    object.put(
        "set",
        references_value(alloc, attribute.raised_by_set.as_slice())?,
    )
}

// Puts in what an operation tells.
fn put_operation(
    alloc: Global,
    object: &mut Object,
    operation: &OperationTree,
) -> Result<(), AllocError>
    ensures { OnOk result (members_view object.new.members.entries
        ≡ with_fields (members_view object.old.members.entries) (operation_fields operation.now)) }
{
    object.put("type", type_value(alloc, &operation.data_type)?)?;
    object.put("oneway", Value::Bool(operation.is_oneway))?;
    object.put(
        "parameters",
        parameters_value(alloc, operation.parameters.as_slice())?,
    )?;
    object.put(
        "raises",
        references_value(alloc, operation.raised.as_slice())?,
    )?;
    object.put_texts("context", operation.contexts.as_slice())
}

// Parameters, in order.
fn parameters_value(alloc: Global, parameters: &[ParameterTree]) -> Result<Value, AllocError>
    ensures { IfOk result (λ value. view value ≡ list_json parameter_json parameters.now) }
{
    let mut values = Vec::with_capacity(alloc, parameters.len())?;
    'parameters: for parameter in parameters {
        values.push(parameter_value(alloc, parameter)?)?;
    }
    Ok(Value::Array(values))
}

// A parameter.
fn parameter_value(alloc: Global, parameter: &ParameterTree) -> Result<Value, AllocError>
    ensures { IfOk result (λ value. view value ≡ parameter_json parameter.now) }
{
    let direction = direction_name(parameter.goes_in, parameter.comes_out);
    let mut object = Object::new(alloc);
    object.put_text("direction", direction)?;
    put_member(alloc, &mut object, &parameter.member)?;
    Ok(object.into_value())
}

// A parameter goes in or comes out, or both.
fn direction_name(goes_in: bool, comes_out: bool) -> &'static [u8]
    ensures { result.now ≡ direction_name goes_in comes_out }
{
    match (goes_in, comes_out) {
        (false, false) => b"none",
        _ => direction_word(goes_in, comes_out),
    }
}
