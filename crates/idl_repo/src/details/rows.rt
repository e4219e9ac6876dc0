//! The trees of rows.

ghost use Rattle.std.specs.Prelude.{◌≡◌, IfOk, map};
ghost use Rattle.idl_repo.specs.details.Tree.{attribute_over, constant_over, declared_over, details_over, operation_over, parameter_over, tree_over};
ghost use Rattle.idl_env.specs.Facts.{answers};
ghost use Rattle.std.specs.Option.{option_copied};
ghost use Rattle.idl_repo.specs.Row.{context_word};

use crate::details::row_tree::{
    AttributeTree, ConstantTree, DeclaredType, OperationTree, ParameterTree, RowDetails, RowTree,
};
use crate::details::type_code_tree::{TypeCodeParts, TypeCodeTree};
use crate::details::type_codes::union_of;
use crate::details::types::{
    id_at, listed, member_of, member_trees, path_text, references_at, type_of,
};
use crate::shown::{contexts_of, members_of, raised_by_set_of, raised_of};
use crate::words::push_context;
use idl_base::{Bytes, Seq};
use idl_entity::{Entity, Kind, Member, Path};
use idl_env::Env;
use idl_value::Value;
use std::alloc::{AllocError, Global};

/// The tree of what is declared so, over an environment: each id in it is what a row tells there.
pub fn tree_of(env: &Env, entity: &Entity) -> Result<RowTree, AllocError>
    ensures { IfOk result (λ tree. tree ≡ tree_over (answers env.now) entity.now) }
{
    let path = path_text(env.alloc(), entity.path())?;
    let id = id_at(env, entity.path())?;
    let details = details_of(env, entity)?;
    Ok(RowTree {
        kind: entity.kind(),
        path,
        id,
        details,
    })
}

// What its row tells behind the id.
fn details_of(env: &Env, entity: &Entity) -> Result<RowDetails, AllocError>
    ensures { IfOk result (λ details.
        details ≡ details_over (answers env.now) entity.now.kind entity.now) }
{
    match entity.kind() {
        Kind::Interface if entity.is_local() => {
            declared_of(env, entity, entity.bases(), TypeCodeParts::LocalInterface)
        }
        Kind::Interface => {
            declared_of(env, entity, entity.bases(), TypeCodeParts::ObjectReference)
        }
        Kind::Structure => {
            let parts = TypeCodeParts::Structure(member_trees(env, members_of(entity))?);
            declared_of(env, entity, entity.bases(), parts)
        }
        Kind::Union => {
            let parts = TypeCodeParts::Union(union_of(env, entity)?);
            declared_of(env, entity, &[], parts)
        }
        Kind::Exception => {
            let parts = TypeCodeParts::Exception(member_trees(env, members_of(entity))?);
            declared_of(env, entity, &[], parts)
        }
        Kind::Enumeration => {
            let names = Seq::from_vec(Vec::from_clones(env.alloc(), entity.enumerators())?);
            declared_of(env, entity, &[], TypeCodeParts::Enumeration(names))
        }
        Kind::Alias => {
            let parts = TypeCodeParts::Alias(type_of(env, entity.data_type())?);
            declared_of(env, entity, &[], parts)
        }
        Kind::Native => declared_of(env, entity, &[], TypeCodeParts::Native),
        Kind::Constant => Ok(RowDetails::Constant(constant_of(env, entity)?)),
        Kind::Attribute => Ok(RowDetails::Attribute(attribute_of(env, entity)?)),
        Kind::Operation => Ok(RowDetails::Operation(operation_of(env, entity)?)),
        Kind::Module | Kind::Enumerator | Kind::Parameter | Kind::Member => Ok(RowDetails::Nothing),
    }
}

// The same of a name that has a TypeCode, with these parts, and of these bases.
fn declared_of(
    env: &Env,
    entity: &Entity,
    bases: &[Path],
    parts: TypeCodeParts,
) -> Result<RowDetails, AllocError>
    ensures { IfOk result (λ details.
        details ≡ declared_over (answers env.now) entity.now bases.now parts) }
{
    let id = id_at(env, entity.path())?;
    let name = Bytes::from_slice(env.alloc(), entity.path().name())?;
    let bases = references_at(env, bases)?;
    let code = TypeCodeTree { id, name, parts };
    Ok(RowDetails::Type(DeclaredType { code, bases }))
}

// A constant.
fn constant_of(env: &Env, entity: &Entity) -> Result<ConstantTree, AllocError>
    ensures { IfOk result (λ tree. tree ≡ constant_over (answers env.now) entity.now) }
{
    let data_type = type_of(env, entity.data_type())?;
    let value = listed(env.alloc(), value_of(entity))?;
    Ok(ConstantTree { data_type, value })
}

// Its value, if it has one.
fn value_of(entity: &Entity) -> Option<&Value>
    ensures { option_copied result ≡ entity.now.value }
{
    match entity.value() {
        Some(value) => Some(value.get()),
        None => None,
    }
}

// An attribute.
fn attribute_of(env: &Env, entity: &Entity) -> Result<AttributeTree, AllocError>
    ensures { IfOk result (λ tree. tree ≡ attribute_over (answers env.now) entity.now) }
{
    let data_type = type_of(env, entity.data_type())?;
    let raised = references_at(env, raised_of(entity))?;
    let raised_by_set = references_at(env, raised_by_set_of(entity))?;
    Ok(AttributeTree {
        is_readonly: entity.is_readonly(),
        data_type,
        raised,
        raised_by_set,
    })
}

// An operation.
fn operation_of(env: &Env, entity: &Entity) -> Result<OperationTree, AllocError>
    ensures { IfOk result (λ tree. tree ≡ operation_over (answers env.now) entity.now) }
{
    let data_type = type_of(env, entity.data_type())?;
    let parameters = parameters_of(env, members_of(entity))?;
    let raised = references_at(env, raised_of(entity))?;
    let contexts = context_texts(env.alloc(), contexts_of(entity))?;
    Ok(OperationTree {
        is_oneway: entity.is_oneway(),
        data_type,
        parameters,
        raised,
        contexts,
    })
}

// The parameters of an operation.
fn parameters_of(env: &Env, members: &[Member]) -> Result<Seq<ParameterTree>, AllocError>
    ensures { IfOk result (λ trees. trees ≡ map (parameter_over (answers env.now)) members.now) }
{
    let mut trees = Vec::with_capacity(env.alloc(), members.len())?;
    for member in members {
        trees.push(ParameterTree {
            goes_in: member.goes_in,
            comes_out: member.comes_out,
            member: member_of(env, member)?,
        })?;
    }
    Ok(Seq::from_vec(trees))
}

// The texts of a context, as they are listed.
fn context_texts(alloc: Global, contexts: &[Seq<u16>]) -> Result<Seq<Bytes>, AllocError>
    ensures { IfOk result (λ texts. texts ≡ map context_word contexts.now) }
{
    let mut texts = Vec::with_capacity(alloc, contexts.len())?;
    for context in contexts {
        texts.push(context_of(alloc, context)?)?;
    }
    Ok(Seq::from_vec(texts))
}

// One of them.
fn context_of(alloc: Global, context: &Seq<u16>) -> Result<Bytes, AllocError>
    ensures { IfOk result (λ text. text ≡ context_word context.now) }
{
    let mut text = Vec::new(alloc);
    push_context(&mut text, context)?;
    Bytes::from_slice(alloc, text.as_slice())
}
