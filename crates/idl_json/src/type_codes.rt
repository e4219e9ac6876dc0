//! TypeCodes in JSON.

ghost use Rattle.std.specs.Prelude.{◌≡◌, IfOk, OnOk};
ghost use Rattle.serde_json.specs.View.{members_view, view};
ghost use Rattle.idl_json.specs.Objects.{list_json, with_fields};
ghost use Rattle.idl_json.specs.TypeCodes.{case_json, default_fields, label_fields, member_fields, member_json, parts_fields, type_code_json, union_fields};

use crate::objects::Object;
use crate::types::type_value;
use idl_base::Bytes;
use idl_repo::details::{CaseTree, MemberTree, TypeCodeParts, TypeCodeTree, UnionTree, code_word};
use serde_json::Value;
use std::alloc::{AllocError, Global};

/// The TypeCode of a declared name.
pub(crate) fn type_code_value(alloc: Global, code: &TypeCodeTree) -> Result<Value, AllocError>
    ensures { IfOk result (λ value. view value ≡ type_code_json code.now) }
{
    let mut object = Object::new(alloc);
    object.put_text("kind", code_word(&code.parts))?;
    object.put_text("id", code.id.as_bytes())?;
    object.put_text("name", code.name.as_bytes())?;
    put_parts(alloc, &mut object, &code.parts)?;
    Ok(object.into_value())
}

// Puts in what a TypeCode has behind its name.
fn put_parts(alloc: Global, object: &mut Object, parts: &TypeCodeParts) -> Result<(), AllocError>
    ensures { OnOk result (members_view object.new.members.entries
        ≡ with_fields (members_view object.old.members.entries) (parts_fields parts.now)) }
{
    match parts {
        TypeCodeParts::ObjectReference | TypeCodeParts::LocalInterface | TypeCodeParts::Native => {
            Ok(())
        }
        TypeCodeParts::Structure(members) | TypeCodeParts::Exception(members) => {
            object.put("members", members_value(alloc, members.as_slice())?)
        }
        TypeCodeParts::Union(union) => put_union(alloc, object, union),
        TypeCodeParts::Enumeration(names) => object.put_texts("members", names.as_slice()),
        TypeCodeParts::Alias(data_type) => object.put("type", type_value(alloc, data_type)?),
    }
}

// Puts in what a union's TypeCode has behind its name.
fn put_union(alloc: Global, object: &mut Object, union: &UnionTree) -> Result<(), AllocError>
    ensures { OnOk result (members_view object.new.members.entries
        ≡ with_fields (members_view object.old.members.entries) (union_fields union.now)) }
{
    object.put("discriminator", type_value(alloc, &union.discriminator)?)?;
    object.put("cases", cases_value(alloc, union.cases.as_slice())?)?;
    put_default(object, union.default)
}

// Puts in the number of the case of `default`, if there is one.
fn put_default(object: &mut Object, number: Option<usize>) -> Result<(), AllocError>
    ensures { OnOk result (members_view object.new.members.entries
        ≡ with_fields (members_view object.old.members.entries) (default_fields number)) }
{
    match number {
        Some(number) => object.put("default", Value::from(number)),
        None => Ok(()),
    }
}

// Members, in order.
fn members_value(alloc: Global, members: &[MemberTree]) -> Result<Value, AllocError>
    ensures { IfOk result (λ value. view value ≡ list_json member_json members.now) }
{
    let mut values = Vec::with_capacity(alloc, members.len())?;
    'members: for member in members {
        values.push(member_value(alloc, member)?)?;
    }
    Ok(Value::Array(values))
}

// A member.
fn member_value(alloc: Global, member: &MemberTree) -> Result<Value, AllocError>
    ensures { IfOk result (λ value. view value ≡ member_json member.now) }
{
    let mut object = Object::new(alloc);
    put_member(alloc, &mut object, member)?;
    Ok(object.into_value())
}

/// Puts in the name of a member, or of a parameter, and its type.
pub(crate) fn put_member(
    alloc: Global,
    object: &mut Object,
    member: &MemberTree,
) -> Result<(), AllocError>
    ensures { OnOk result (members_view object.new.members.entries
        ≡ with_fields (members_view object.old.members.entries) (member_fields member.now)) }
{
    object.put_text("name", member.name.as_bytes())?;
    object.put("type", type_value(alloc, &member.data_type)?)
}

// The cases of a union, in order.
fn cases_value(alloc: Global, cases: &[CaseTree]) -> Result<Value, AllocError>
    ensures { IfOk result (λ value. view value ≡ list_json case_json cases.now) }
{
    let mut values = Vec::with_capacity(alloc, cases.len())?;
    'cases: for case in cases {
        values.push(case_value(alloc, case)?)?;
    }
    Ok(Value::Array(values))
}

// A case of a union.
fn case_value(alloc: Global, case: &CaseTree) -> Result<Value, AllocError>
    ensures { IfOk result (λ value. view value ≡ case_json case.now) }
{
    let mut object = Object::new(alloc);
    put_member(alloc, &mut object, &case.member)?;
    put_label(&mut object, &case.label)?;
    Ok(object.into_value())
}

// Puts in a union's label, and nothing of `default`.
fn put_label(object: &mut Object, label: &Option<Bytes>) -> Result<(), AllocError>
    ensures { OnOk result (members_view object.new.members.entries
        ≡ with_fields (members_view object.old.members.entries) (label_fields label.now)) }
{
    match label {
        Some(label) => object.put_text("label", label.as_bytes()),
        None => Ok(()),
    }
}
