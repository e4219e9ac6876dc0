//! The trees of types, and what they refer to: each id is told as an environment answers.

ghost use Rattle.std.specs.Prelude.{◌≡◌, IfOk, map};
ghost use Rattle.std.specs.Option.{option_copied, option_map};
ghost use Rattle.idl_repo.specs.details.Tree.{element_over, id_over, member_over, reference_over, references_over, type_over};
ghost use Rattle.idl_env.specs.Facts.{answers};
ghost use Rattle.idl_repo.specs.Row.{path_text};
ghost use Rattle.idl_repo.specs.TypeCode.{listed_value};

use crate::details::reference::Reference;
use crate::details::type_code_tree::MemberTree;
use crate::details::type_tree::{ElementTree, LayeredType};
use crate::piece::id_of;
use crate::words::{push_listed, push_path};
use idl_base::{Bytes, Seq, Shared};
use idl_entity::{DataType, Element, Member, Path};
use idl_env::Env;
use idl_memo::Journal;
use idl_value::Value;
use std::alloc::{AllocError, Global};

/// The id of what is declared at a path.
pub fn id_at(env: &Env, path: &Path) -> Result<Bytes, AllocError>
    ensures { IfOk result (λ id. id ≡ id_over (answers env.now) path.now) }
{
    let mut text = Vec::new(env.alloc());
    let id = id_of(env, &mut Journal::told(), path)?;
    id.write(&mut text)?;
    Bytes::from_slice(env.alloc(), text.as_slice())
}

/// The names of a path, with `::` between them.
pub fn path_text(alloc: Global, path: &Path) -> Result<Bytes, AllocError>
    ensures { IfOk result (λ text. text ≡ path_text path.now) }
{
    let mut text = Vec::new(alloc);
    push_path(&mut text, path.lent())?;
    Bytes::from_slice(alloc, text.as_slice())
}

// A reference to what is declared at a path.
fn reference_at(env: &Env, path: &Path) -> Result<Reference, AllocError>
    ensures { IfOk result (λ reference. reference ≡ reference_over (answers env.now) path.now) }
{
    let id = id_at(env, path)?;
    let path = path_text(env.alloc(), path)?;
    Ok(Reference { id, path })
}

/// References to what is declared at these paths.
pub fn references_at(env: &Env, paths: &[Path]) -> Result<Seq<Reference>, AllocError>
    ensures { IfOk result (λ references.
        references ≡ references_over (answers env.now) paths.now) }
{
    let mut references = Vec::with_capacity(env.alloc(), paths.len())?;
    for path in paths {
        references.push(reference_at(env, path)?)?;
    }
    Ok(Seq::from_vec(references))
}

/// A type.
pub fn type_of(env: &Env, data_type: &Option<Shared<DataType>>) -> Result<LayeredType, AllocError>
    ensures { IfOk result (λ tree. tree ≡ type_over (answers env.now) data_type.now) }
{
    let Some(data_type) = data_type else {
        return Ok(LayeredType {
            element: ElementTree::Void,
            layers: Seq::new(env.alloc()),
        });
    };
    let DataType { element, layers } = data_type.get();
    let element = element_of(env, element)?;
    let layers = layers.clone()?;
    Ok(LayeredType { element, layers })
}

// What a type is of.
fn element_of(env: &Env, element: &Element) -> Result<ElementTree, AllocError>
    ensures { IfOk result (λ tree. tree ≡ element_over (answers env.now) element.now) }
{
    Ok(match element {
        Element::Constants(target) => ElementTree::Constants(target.clone()?),
        Element::Named(path) => ElementTree::Named(reference_at(env, path)?),
        Element::Unvalued(kind) => ElementTree::Unvalued(*kind),
    })
}

/// A member, or a parameter.
pub fn member_of(env: &Env, member: &Member) -> Result<MemberTree, AllocError>
    ensures { IfOk result (λ tree. tree ≡ member_over (answers env.now) member.now) }
{
    let name = member.name.clone()?;
    let data_type = type_of(env, &member.data_type)?;
    Ok(MemberTree { name, data_type })
}

/// Each of these.
pub fn member_trees(env: &Env, members: &[Member]) -> Result<Seq<MemberTree>, AllocError>
    ensures { IfOk result (λ trees. trees ≡ map (member_over (answers env.now)) members.now) }
{
    let mut trees = Vec::with_capacity(env.alloc(), members.len())?;
    for member in members {
        trees.push(member_of(env, member)?)?;
    }
    Ok(Seq::from_vec(trees))
}

/// A value as it is listed, if there is one: of an enumerator its name alone.
pub fn listed(alloc: Global, value: Option<&Value>) -> Result<Option<Bytes>, AllocError>
    ensures { IfOk result (λ text. text ≡ option_map listed_value (option_copied value.entry)) }
{
    let Some(value) = value else {
        return Ok(None);
    };
    let mut text = Vec::new(alloc);
    push_listed(&mut text, value)?;
    Ok(Some(Bytes::from_slice(alloc, text.as_slice())?))
}
