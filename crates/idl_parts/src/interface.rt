//! Interfaces, attributes, operations and declarations ahead.

ghost use Rattle.std.specs.Prelude.{OnOk};
ghost use Rattle.idl_lex.specs.declared.kinds.keyword.Keyword.TheVariants as word;
ghost use Rattle.idl_parts.specs.Item.{Pushes};
ghost use Rattle.idl_parts.specs.Part.{if_some, listed, raised};
ghost use Rattle.idl_parts.specs.declared.part.Use.TheVariants.{RaisedBySet};
ghost use Rattle.idl_parts.specs.UnitParts.{attribute_parts, context_parts, direction_parts, exceptions_parts, forward_parts, given_back, interface_parts, oneway_parts, operation_parts, parameter_parts, raises_parts, readonly_attribute_parts, result_parts};

use crate::data_type::push_type;
use crate::listed::{push_declared, push_raised, push_used};
use crate::part::{Declaration, TextPurpose, UnitPart, Use};
use idl_base::{Boxed, Seq};
use idl_tree::declarations::{
    Attribute, AttributeNames, AttributeRaises, Direction, Forward, Interface, Operation,
    Parameter, ReadonlyAttribute, ReadonlyNames, TypeTree,
};
use idl_tree::{ScopedName, Several};
use std::alloc::AllocError;

/// The opening of an interface.
pub fn push_interface<'a>(
    sites: &mut Vec<UnitPart<'a>>,
    interface: &'a Interface,
) -> Result<(), AllocError>
    ensures { OnOk result
        (Pushes sites.old.items sites.new.items (interface_parts interface.now)) }
{
    let is_local = interface.is_local;
    sites.extend_from_slice(&[
        UnitPart::Tokens(usize::from(is_local) + 1),
        UnitPart::Declared(Declaration::Interface(is_local), &interface.name),
        UnitPart::Tokens(1),
    ])?;
    let Some(bases) = &interface.bases else {
        return Ok(());
    };
    push_used(sites, Use::AsBase(is_local), bases)?;
    sites.extend_from_slice(&[UnitPart::Tokens(1)])
}

/// A declaration ahead.
pub fn push_forward<'a>(
    sites: &mut Vec<UnitPart<'a>>,
    forward: &'a Forward,
) -> Result<(), AllocError>
    ensures { OnOk result (Pushes sites.old.items sites.new.items (forward_parts forward.now)) }
{
    let (tokens, declaration, name) = match forward {
        Forward::Interface(is_local, name) => {
            (
                usize::from(*is_local) + 1,
                Declaration::InterfaceAhead(*is_local),
                name,
            )
        }
        Forward::Structure(name) => (1, Declaration::StructureAhead, name),
        Forward::Union(name) => (1, Declaration::UnionAhead, name),
    };
    sites.extend_from_slice(&[
        UnitPart::Tokens(tokens),
        UnitPart::Declared(declaration, name),
    ])
}

/// An attribute that is read alone.
pub fn push_readonly_attribute<'a>(
    sites: &mut Vec<UnitPart<'a>>,
    attribute: &'a ReadonlyAttribute,
) -> Result<(), AllocError>
    ensures { OnOk result
        (Pushes sites.old.items sites.new.items (readonly_attribute_parts attribute.now)) }
{
    sites.push(UnitPart::Tokens(2))?;
    push_type(sites, &attribute.kind, Use::AsType)?;
    match &attribute.names {
        ReadonlyNames::Raising(name, raised) => {
            sites.push(UnitPart::Declared(Declaration::Attribute(true), name))?;
            push_raised(sites, Use::Raised, raised)
        }
        ReadonlyNames::Plain(names) => push_declared(sites, Declaration::Attribute(true), names),
    }
}

/// An attribute that is read and written.
pub fn push_attribute<'a>(
    sites: &mut Vec<UnitPart<'a>>,
    attribute: &'a Attribute,
) -> Result<(), AllocError>
    ensures { OnOk result
        (Pushes sites.old.items sites.new.items (attribute_parts attribute.now)) }
{
    sites.push(UnitPart::Tokens(1))?;
    push_type(sites, &attribute.kind, Use::AsType)?;
    match &attribute.names {
        AttributeNames::Raising(name, raises) => {
            sites.push(UnitPart::Declared(Declaration::Attribute(false), name))?;
            push_exceptions(sites, raises)
        }
        AttributeNames::Plain(names) => push_declared(sites, Declaration::Attribute(false), names),
    }
}

/// What reading and writing an attribute raise.
fn push_exceptions<'a>(
    sites: &mut Vec<UnitPart<'a>>,
    raises: &'a AttributeRaises,
) -> Result<(), AllocError>
    ensures { OnOk result (Pushes sites.old.items sites.new.items (exceptions_parts raises.now)) }
{
    match raises {
        AttributeRaises::Get(get, set) => {
            push_raised(sites, Use::Raised, get)?;
            push_raised_by_set(sites, set)
        }
        AttributeRaises::Set(set) => push_raised(sites, Use::RaisedBySet, set),
    }
}

/// What writing an attribute raises, if that is said.
fn push_raised_by_set<'a>(
    sites: &mut Vec<UnitPart<'a>>,
    names: &'a Option<Several<ScopedName>>,
) -> Result<(), AllocError>
    ensures { OnOk result
        (Pushes sites.old.items sites.new.items (if_some (raised RaisedBySet word.Setraises) names.now)) }
{
    match names {
        Some(names) => push_raised(sites, Use::RaisedBySet, names),
        None => Ok(()),
    }
}

/// An operation.
pub fn push_operation<'a>(
    sites: &mut Vec<UnitPart<'a>>,
    operation: &'a Operation,
) -> Result<(), AllocError>
    ensures { OnOk result
        (Pushes sites.old.items sites.new.items (operation_parts operation.now)) }
{
    let is_oneway = operation.is_oneway;
    push_oneway(sites, is_oneway)?;
    push_result(sites, is_oneway, &operation.result)?;
    let way = Declaration::Operation(is_oneway);
    sites.push(UnitPart::Declared(way, &operation.name))?;
    sites.push(UnitPart::ScopeBegins(way, &operation.name))?;
    sites.push(UnitPart::Tokens(1))?;
    push_parameters(sites, is_oneway, &operation.parameters)?;
    sites.push(UnitPart::Tokens(1))?;
    push_raises(sites, is_oneway, &operation.raises)?;
    push_context(sites, &operation.context)?;
    sites.push(UnitPart::ScopeEnds)?;
    Ok(())
}

/// The keyword of a `oneway` operation.
fn push_oneway<'a>(sites: &mut Vec<UnitPart<'a>>, is_oneway: bool) -> Result<(), AllocError>
    ensures { OnOk result (Pushes sites.old.items sites.new.items (oneway_parts is_oneway)) }
{
    if is_oneway {
        sites.push(UnitPart::Tokens(1))?;
    }
    Ok(())
}

/// Before what a `oneway` operation gives back.
fn push_given_back<'a>(sites: &mut Vec<UnitPart<'a>>, is_oneway: bool) -> Result<(), AllocError>
    ensures { OnOk result (Pushes sites.old.items sites.new.items (given_back is_oneway)) }
{
    if is_oneway {
        sites.push(UnitPart::GivesBack)?;
    }
    Ok(())
}

/// The type of a result, or `void`.
fn push_result<'a>(
    sites: &mut Vec<UnitPart<'a>>,
    is_oneway: bool,
    kind: &'a Option<TypeTree>,
) -> Result<(), AllocError>
    ensures { OnOk result
        (Pushes sites.old.items sites.new.items (result_parts is_oneway kind.now)) }
{
    match kind {
        Some(kind) => {
            push_given_back(sites, is_oneway)?;
            push_type(sites, kind, Use::AsType)
        }
        None => sites.extend_from_slice(&[UnitPart::Tokens(1)]),
    }
}

/// The parameters, if there are any.
fn push_parameters<'a>(
    sites: &mut Vec<UnitPart<'a>>,
    is_oneway: bool,
    parameters: &'a Option<Several<Parameter>>,
) -> Result<(), AllocError>
    ensures { OnOk result (Pushes sites.old.items sites.new.items
        (if_some (listed (parameter_parts is_oneway)) parameters.now)) }
{
    match parameters {
        Some(parameters) => push_several_parameters(sites, is_oneway, parameters),
        None => Ok(()),
    }
}

/// Parameters, with commas between.
fn push_several_parameters<'a>(
    sites: &mut Vec<UnitPart<'a>>,
    is_oneway: bool,
    parameters: &'a Several<Parameter>,
) -> Result<(), AllocError>
    ensures { OnOk result (Pushes sites.old.items sites.new.items
        (listed (parameter_parts is_oneway) parameters.now)) }
{
    push_parameter(sites, is_oneway, &parameters.first)?;
    for parameter in parameters.rest.as_slice() {
        sites.push(UnitPart::Tokens(1))?;
        push_parameter(sites, is_oneway, parameter)?;
    }
    Ok(())
}

/// A parameter.
fn push_parameter<'a>(
    sites: &mut Vec<UnitPart<'a>>,
    is_oneway: bool,
    parameter: &'a Parameter,
) -> Result<(), AllocError>
    ensures { OnOk result
        (Pushes sites.old.items sites.new.items (parameter_parts is_oneway parameter.now)) }
{
    push_direction(sites, is_oneway, parameter.direction)?;
    push_type(sites, &parameter.kind, Use::AsType)?;
    let way = Declaration::Parameter(parameter.direction);
    sites.push(UnitPart::Declared(way, &parameter.name))?;
    Ok(())
}

/// The direction of a parameter.
fn push_direction<'a>(
    sites: &mut Vec<UnitPart<'a>>,
    is_oneway: bool,
    direction: Direction,
) -> Result<(), AllocError>
    ensures { OnOk result
        (Pushes sites.old.items sites.new.items (direction_parts is_oneway direction)) }
{
    match direction {
        Direction::In => {}
        Direction::Out | Direction::InOut => push_given_back(sites, is_oneway)?,
    }
    sites.push(UnitPart::Tokens(1))?;
    Ok(())
}

/// What an operation raises, if that is said.
fn push_raises<'a>(
    sites: &mut Vec<UnitPart<'a>>,
    is_oneway: bool,
    names: &'a Option<Several<ScopedName>>,
) -> Result<(), AllocError>
    ensures { OnOk result (Pushes sites.old.items sites.new.items
        (if_some (raises_parts is_oneway) names.now)) }
{
    match names {
        Some(names) => {
            push_given_back(sites, is_oneway)?;
            push_raised(sites, Use::Raised, names)
        }
        None => Ok(()),
    }
}

/// The context of an operation, if it has one.
fn push_context<'a>(
    sites: &mut Vec<UnitPart<'a>>,
    context: &'a Option<Boxed<Several<Several<Seq<u16>>>>>,
) -> Result<(), AllocError>
    ensures { OnOk result
        (Pushes sites.old.items sites.new.items (if_some context_parts context.now)) }
{
    match context {
        Some(texts) => push_texts(sites, texts.get()),
        None => Ok(()),
    }
}

/// The texts of a context.
fn push_texts<'a>(
    sites: &mut Vec<UnitPart<'a>>,
    texts: &'a Several<Several<Seq<u16>>>,
) -> Result<(), AllocError>
    ensures { OnOk result (Pushes sites.old.items sites.new.items (context_parts texts.now)) }
{
    sites.extend_from_slice(&[
        UnitPart::Tokens(2),
        UnitPart::Joined(TextPurpose::Context, &texts.first),
    ])?;
    for text in texts.rest.as_slice() {
        sites.extend_from_slice(&[
            UnitPart::Tokens(1),
            UnitPart::Joined(TextPurpose::Context, text),
        ])?;
    }
    sites.push(UnitPart::Tokens(1))?;
    Ok(())
}
