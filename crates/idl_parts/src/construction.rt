//! Structs, unions and enums.

ghost use Rattle.std.specs.Prelude.{OnOk};
ghost use Rattle.idl_parts.specs.ConstructionParts.{base_parts, case_parts, construction_parts, discriminator_parts, enumeration_parts, label_parts, member_parts, member_type_parts, structure_parts, union_parts};
ghost use Rattle.idl_parts.specs.Item.{Pushes};
ghost use Rattle.idl_parts.specs.Part.{all_parts, if_some, listed};
ghost use Rattle.idl_parts.specs.TypeParts.{declarator_parts};

use crate::data_type::{discrete_len, push_declarator, push_type};
use crate::expression::push_value;
use crate::listed::push_declared;
use crate::part::{Declaration, Purpose, UnitPart, Use};
use idl_tree::declarations::{
    Case, Construction, Declarator, Discriminator, Enumeration, Label, Member, MemberType,
    Structure, Union,
};
use idl_tree::{ScopedName, Several};
use std::alloc::AllocError;

/// A struct, a union or an enum.
#[cycle(construction)]
#[tactic(auto, unfolding(crate::specs::ConstructionParts::construction_parts))]
pub fn push_construction<'a>(
    sites: &mut Vec<UnitPart<'a>>,
    construction: &'a Construction,
) -> Result<(), AllocError>
    ensures { OnOk result
        (Pushes sites.old.items sites.new.items (construction_parts construction.now)) }
{
    match construction {
        Construction::Structure(structure) => push_structure(sites, structure.get()),
        Construction::Union(union) => push_union(sites, union.get()),
        Construction::Enumeration(enumeration) => push_enumeration(sites, enumeration),
    }
}

/// A struct.
#[cycle(construction)]
#[tactic(auto, unfolding(crate::specs::ConstructionParts::structure_parts))]
fn push_structure<'a>(
    sites: &mut Vec<UnitPart<'a>>,
    structure: &'a Structure,
) -> Result<(), AllocError>
    ensures { OnOk result
        (Pushes sites.old.items sites.new.items (structure_parts structure.now)) }
{
    let Structure {
        name,
        base,
        members,
    } = structure;
    sites.extend_from_slice(&[
        UnitPart::Tokens(1),
        UnitPart::Declared(Declaration::Structure, name),
    ])?;
    push_base(sites, base)?;
    sites.extend_from_slice(&[
        UnitPart::Tokens(1),
        UnitPart::ScopeBegins(Declaration::Structure, name),
    ])?;
    for member in members.as_slice() {
        push_member(sites, member)?;
    }
    sites.push(UnitPart::ScopeEnds)?;
    sites.push(UnitPart::Tokens(1))?;
    Ok(())
}

/// The base of a struct, if it has one.
fn push_base<'a>(
    sites: &mut Vec<UnitPart<'a>>,
    base: &'a Option<ScopedName>,
) -> Result<(), AllocError>
    ensures { OnOk result (Pushes sites.old.items sites.new.items (if_some base_parts base.now)) }
{
    match base {
        Some(name) => {
            sites.extend_from_slice(&[UnitPart::Tokens(1), UnitPart::Used(Use::AsStructBase, name)])
        }
        None => Ok(()),
    }
}

/// Members of one type.
#[cycle(construction)]
#[tactic(auto, unfolding(crate::specs::ConstructionParts::member_parts))]
pub fn push_member<'a>(sites: &mut Vec<UnitPart<'a>>, member: &'a Member) -> Result<(), AllocError>
    ensures { OnOk result (Pushes sites.old.items sites.new.items (member_parts member.now)) }
{
    let Member { kind, declarators } = member;
    push_member_type(sites, kind)?;
    push_declarators(sites, Declaration::Member, declarators)?;
    sites.push(UnitPart::Tokens(1))?;
    Ok(())
}

/// A type, or one that is declared in place.
#[cycle(construction)]
#[tactic(auto, unfolding(crate::specs::ConstructionParts::member_type_parts))]
pub fn push_member_type<'a>(
    sites: &mut Vec<UnitPart<'a>>,
    kind: &'a MemberType,
) -> Result<(), AllocError>
    ensures { OnOk result (Pushes sites.old.items sites.new.items (member_type_parts kind.now)) }
{
    match kind {
        MemberType::Type(kind) => push_type(sites, kind, Use::AsType),
        MemberType::Construction(construction) => push_construction(sites, construction.get()),
    }
}

/// A union.
#[cycle(construction)]
#[tactic(auto, unfolding(crate::specs::ConstructionParts::union_parts))]
fn push_union<'a>(sites: &mut Vec<UnitPart<'a>>, union: &'a Union) -> Result<(), AllocError>
    ensures { OnOk result (Pushes sites.old.items sites.new.items (union_parts union.now)) }
{
    let Union {
        name,
        discriminator,
        first,
        rest,
    } = union;
    sites.extend_from_slice(&[
        UnitPart::Tokens(1),
        UnitPart::Declared(Declaration::Union, name),
        UnitPart::Tokens(2),
    ])?;
    push_discriminator(sites, discriminator)?;
    sites.extend_from_slice(&[
        UnitPart::Tokens(2),
        UnitPart::ScopeBegins(Declaration::Union, name),
    ])?;
    push_case(sites, first)?;
    for case in rest.as_slice() {
        push_case(sites, case)?;
    }
    sites.push(UnitPart::ScopeEnds)?;
    sites.push(UnitPart::Tokens(1))?;
    Ok(())
}

/// A member of a union, with its labels.
#[cycle(construction)]
#[tactic(auto, unfolding(crate::specs::ConstructionParts::case_parts))]
fn push_case<'a>(sites: &mut Vec<UnitPart<'a>>, case: &'a Case) -> Result<(), AllocError>
    ensures { OnOk result (Pushes sites.old.items sites.new.items (case_parts case.now)) }
{
    let Case {
        labels,
        kind,
        declarator,
    } = case;
    push_labels(sites, labels)?;
    push_member_type(sites, kind)?;
    push_declarator(sites, Declaration::Member, declarator)?;
    sites.push(UnitPart::Tokens(1))?;
    Ok(())
}

/// The labels of a case.
fn push_labels<'a>(
    sites: &mut Vec<UnitPart<'a>>,
    labels: &'a Several<Label>,
) -> Result<(), AllocError>
    ensures { OnOk result (Pushes sites.old.items sites.new.items (all_parts label_parts labels.now)) }
{
    push_label(sites, &labels.first)?;
    for label in labels.rest.as_slice() {
        push_label(sites, label)?;
    }
    Ok(())
}

/// A label.
fn push_label<'a>(sites: &mut Vec<UnitPart<'a>>, label: &'a Label) -> Result<(), AllocError>
    ensures { OnOk result (Pushes sites.old.items sites.new.items (label_parts label.now)) }
{
    match label {
        Label::Case(value) => {
            sites.push(UnitPart::Tokens(1))?;
            push_value(sites, Purpose::Label, value)?;
            sites.extend_from_slice(&[UnitPart::Tokens(1)])
        }
        Label::Default => sites.extend_from_slice(&[UnitPart::Default, UnitPart::Tokens(2)]),
    }
}

/// The type of a union's discriminator.
fn push_discriminator<'a>(
    sites: &mut Vec<UnitPart<'a>>,
    discriminator: &'a Discriminator,
) -> Result<(), AllocError>
    ensures { OnOk result
        (Pushes sites.old.items sites.new.items (discriminator_parts discriminator.now)) }
{
    match discriminator {
        Discriminator::Discrete(discrete) => sites.extend_from_slice(&[
            UnitPart::Switches(*discrete),
            UnitPart::Tokens(discrete_len(*discrete)),
        ]),
        Discriminator::Name(name) => {
            sites.extend_from_slice(&[UnitPart::Used(Use::AsDiscriminator, name)])
        }
    }
}

/// An enum.
fn push_enumeration<'a>(
    sites: &mut Vec<UnitPart<'a>>,
    enumeration: &'a Enumeration,
) -> Result<(), AllocError>
    ensures { OnOk result
        (Pushes sites.old.items sites.new.items (enumeration_parts enumeration.now)) }
{
    sites.extend_from_slice(&[
        UnitPart::Tokens(1),
        UnitPart::Enumerates(&enumeration.enumerators),
        UnitPart::Declared(Declaration::Enumeration, &enumeration.name),
        UnitPart::Tokens(1),
    ])?;
    push_declared(sites, Declaration::Enumerator, &enumeration.enumerators)?;
    sites.push(UnitPart::Tokens(1))?;
    Ok(())
}

/// Declared names, with commas between.
pub fn push_declarators<'a>(
    sites: &mut Vec<UnitPart<'a>>,
    declaration: Declaration,
    declarators: &'a Several<Declarator>,
) -> Result<(), AllocError>
    ensures { OnOk result (Pushes sites.old.items sites.new.items
        (listed (declarator_parts declaration) declarators.now)) }
{
    push_declarator(sites, declaration, &declarators.first)?;
    for declarator in declarators.rest.as_slice() {
        sites.push(UnitPart::Tokens(1))?;
        push_declarator(sites, declaration, declarator)?;
    }
    Ok(())
}
