//! The sites of a unit.

ghost use Rattle.std.specs.Prelude.{◌≡◌, map, IfOk, OnOk};
ghost use Rattle.idl_parts.specs.Item.{Pushes, item_at, items};
ghost use Rattle.idl_parts.specs.UnitParts.{constant_parts, exception_parts, module_parts, native_parts, typedef_parts, typeid_parts, typeprefix_parts, unit_parts};

use crate::construction::{push_construction, push_declarators, push_member, push_member_type};
use crate::data_type::push_constant_type;
use crate::expression::push_value;
use crate::interface::{
    push_attribute, push_forward, push_interface, push_operation, push_readonly_attribute,
};
use crate::part::{Declaration, Purpose, TextPurpose, UnitPart, Use};
use idl_base::Bytes;
use idl_tree::{Constant, Exception, Tree, Typedef, Typeid, Typeprefix};
use std::alloc::{AllocError, Global};

// For so many sites there is room from the start. Few units have more.
const ROOM: usize = 32;

/// The sites of a unit, in the order of its tokens: its parts, as `specs/UnitParts.antt` gives them
/// for each production.
pub fn sites(alloc: Global, tree: &Tree) -> Result<Vec<UnitPart<'_>>, AllocError>
    ensures { IfOk result (λ sites. map item_at sites.items ≡ items (unit_parts tree.now)) }
{
    let mut sites = Vec::with_capacity(alloc, ROOM)?;
    push_unit(&mut sites, tree)?;
    Ok(sites)
}

/// A unit.
#[tactic(auto, unfolding(crate::specs::UnitParts::unit_parts))]
fn push_unit<'a>(sites: &mut Vec<UnitPart<'a>>, tree: &'a Tree) -> Result<(), AllocError>
    ensures { OnOk result (Pushes sites.old.items sites.new.items (unit_parts tree.now)) }
{
    match tree {
        Tree::Closing => {
            sites.push(UnitPart::Tokens(2))?;
            return Ok(());
        }
        Tree::Module(name) => return push_module(sites, name),
        Tree::Interface(interface) => return push_interface(sites, interface),
        Tree::Forward(forward) => push_forward(sites, forward)?,
        Tree::Typedef(typedef) => push_typedef(sites, typedef)?,
        Tree::Construction(construction) => push_construction(sites, construction)?,
        Tree::Native(name) => push_native(sites, name)?,
        Tree::Constant(constant) => push_constant(sites, constant)?,
        Tree::Exception(exception) => push_exception(sites, exception)?,
        Tree::ReadonlyAttribute(attribute) => push_readonly_attribute(sites, attribute)?,
        Tree::Attribute(attribute) => push_attribute(sites, attribute)?,
        Tree::Operation(operation) => push_operation(sites, operation)?,
        Tree::Typeid(typeid) => push_typeid(sites, typeid)?,
        Tree::Typeprefix(typeprefix) => push_typeprefix(sites, typeprefix)?,
    }
    sites.push(UnitPart::Tokens(1))?;
    Ok(())
}

/// The opening of a module.
fn push_module<'a>(sites: &mut Vec<UnitPart<'a>>, name: &'a Bytes) -> Result<(), AllocError>
    ensures { OnOk result (Pushes sites.old.items sites.new.items (module_parts name.now)) }
{
    sites.extend_from_slice(&[
        UnitPart::Tokens(1),
        UnitPart::Declared(Declaration::Module, name),
        UnitPart::Tokens(1),
    ])
}

/// A native type.
fn push_native<'a>(sites: &mut Vec<UnitPart<'a>>, name: &'a Bytes) -> Result<(), AllocError>
    ensures { OnOk result (Pushes sites.old.items sites.new.items (native_parts name.now)) }
{
    sites.extend_from_slice(&[
        UnitPart::Tokens(1),
        UnitPart::Declared(Declaration::Native, name),
    ])
}

/// A typedef.
fn push_typedef<'a>(sites: &mut Vec<UnitPart<'a>>, typedef: &'a Typedef) -> Result<(), AllocError>
    ensures { OnOk result (Pushes sites.old.items sites.new.items (typedef_parts typedef.now)) }
{
    sites.push(UnitPart::Tokens(1))?;
    push_member_type(sites, &typedef.kind)?;
    push_declarators(sites, Declaration::Alias, &typedef.declarators)
}

/// A constant.
fn push_constant<'a>(
    sites: &mut Vec<UnitPart<'a>>,
    constant: &'a Constant,
) -> Result<(), AllocError>
    ensures { OnOk result (Pushes sites.old.items sites.new.items (constant_parts constant.now)) }
{
    sites.push(UnitPart::Tokens(1))?;
    push_constant_type(sites, &constant.kind)?;
    sites.extend_from_slice(&[
        UnitPart::Declared(Declaration::Constant, &constant.name),
        UnitPart::Tokens(1),
    ])?;
    push_value(sites, Purpose::Constant, &constant.value)
}

/// An exception.
fn push_exception<'a>(
    sites: &mut Vec<UnitPart<'a>>,
    exception: &'a Exception,
) -> Result<(), AllocError>
    ensures { OnOk result
        (Pushes sites.old.items sites.new.items (exception_parts exception.now)) }
{
    sites.extend_from_slice(&[
        UnitPart::Tokens(1),
        UnitPart::Declared(Declaration::Exception, &exception.name),
        UnitPart::Tokens(1),
        UnitPart::ScopeBegins(Declaration::Exception, &exception.name),
    ])?;
    for member in exception.members.as_slice() {
        push_member(sites, member)?;
    }
    sites.extend_from_slice(&[UnitPart::ScopeEnds, UnitPart::Tokens(1)])
}

/// The id of a name.
fn push_typeid<'a>(sites: &mut Vec<UnitPart<'a>>, typeid: &'a Typeid) -> Result<(), AllocError>
    ensures { OnOk result (Pushes sites.old.items sites.new.items (typeid_parts typeid.now)) }
{
    sites.extend_from_slice(&[
        UnitPart::Tokens(1),
        UnitPart::Identifies(&typeid.text),
        UnitPart::Used(Use::AsIdentified, &typeid.name),
        UnitPart::Joined(TextPurpose::Id, &typeid.text),
    ])
}

/// The prefix of the ids in a scope.
fn push_typeprefix<'a>(
    sites: &mut Vec<UnitPart<'a>>,
    typeprefix: &'a Typeprefix,
) -> Result<(), AllocError>
    ensures { OnOk result
        (Pushes sites.old.items sites.new.items (typeprefix_parts typeprefix.now)) }
{
    sites.extend_from_slice(&[
        UnitPart::Tokens(1),
        UnitPart::Identifies(&typeprefix.text),
        UnitPart::Used(Use::AsPrefixed, &typeprefix.name),
    ])?;
    let text = UnitPart::Joined(TextPurpose::Prefix, &typeprefix.text);
    if typeprefix.has_equals {
        sites.extend_from_slice(&[UnitPart::Tokens(1), text])
    } else {
        sites.extend_from_slice(&[text])
    }
}
