//! Types and declared names.

ghost use Rattle.std.specs.Prelude.{◌≡◌, ◌++◌, length, OnOk};
ghost use Rattle.idl_parts.specs.Item.{Pushes};
ghost use Rattle.idl_parts.specs.TypeParts.{array_end, constant_type_parts, declarator_parts, length_parts, limit_parts, plain_parts, string_parts, type_parts_as};
ghost use Rattle.idl_tree.specs.DataType.{spell_basic, spell_discrete, spell_sign, spell_size};

use crate::expression::push_value;
use crate::part::{Declaration, Purpose, Shape, UnitPart, Use};
use idl_tree::declarations::{
    BasicType, Declarator, DiscreteType, IntegerSize, IntegerType, PlainType, Sequence, StringType,
    TypeTree,
};
use idl_tree::{ConstantTypeTree, Expression};
use std::alloc::AllocError;

/// A type. A name that it is itself is used so.
#[cycle(data_type)]
#[tactic(auto, unfolding(crate::specs::TypeParts::type_parts_as))]
pub fn push_type<'a>(
    sites: &mut Vec<UnitPart<'a>>,
    kind: &'a TypeTree,
    way: Use,
) -> Result<(), AllocError>
    ensures { OnOk result (Pushes sites.old.items sites.new.items (type_parts_as kind.now way)) }
{
    match kind {
        TypeTree::Plain(plain) => push_plain(sites, plain, way),
        TypeTree::Sequence(sequence) => {
            let Sequence { element, bound } = sequence.get();
            sites.push(UnitPart::Tokens(2))?;
            push_type(sites, element, Use::AsElement)?;
            push_limit(sites, bound)?;
            sites.extend_from_slice(&[
                UnitPart::Tokens(1),
                UnitPart::TypeEnds(Shape::Sequence(bound.is_some())),
            ])
        }
    }
}

/// A type that holds no other one.
fn push_plain<'a>(
    sites: &mut Vec<UnitPart<'a>>,
    plain: &'a PlainType,
    way: Use,
) -> Result<(), AllocError>
    ensures { OnOk result (Pushes sites.old.items sites.new.items (plain_parts plain.now way)) }
{
    match plain {
        PlainType::Basic(basic) => sites.extend_from_slice(&[
            UnitPart::Tokens(basic_len(*basic)),
            UnitPart::TypeEnds(Shape::Basic(*basic)),
        ]),
        PlainType::String(string) => push_string(sites, string),
        PlainType::Name(name) => sites.extend_from_slice(&[UnitPart::Used(way, name)]),
    }
}

/// A string type.
fn push_string<'a>(sites: &mut Vec<UnitPart<'a>>, string: &'a StringType) -> Result<(), AllocError>
    ensures { OnOk result (Pushes sites.old.items sites.new.items (string_parts string.now)) }
{
    let end = UnitPart::TypeEnds(Shape::Text(string.is_wide, string.bound.is_some()));
    let Some(bound) = &string.bound else {
        return sites.extend_from_slice(&[UnitPart::Tokens(1), end]);
    };
    sites.extend_from_slice(&[UnitPart::Tokens(1), UnitPart::Tokens(1)])?;
    push_value(sites, Purpose::Bound, bound.get())?;
    sites.extend_from_slice(&[UnitPart::Tokens(1), end])
}

/// The bound of a sequence, if it has one.
fn push_limit<'a>(
    sites: &mut Vec<UnitPart<'a>>,
    bound: &'a Option<Expression>,
) -> Result<(), AllocError>
    ensures { OnOk result (Pushes sites.old.items sites.new.items (limit_parts bound.now)) }
{
    let Some(bound) = bound else {
        return Ok(());
    };
    sites.push(UnitPart::Tokens(1))?;
    push_value(sites, Purpose::Bound, bound)
}

/// How many tokens a type of keywords is.
fn basic_len(basic: BasicType) -> usize
    ensures { result ≡ length (spell_basic basic) }
{
    match basic {
        BasicType::Discrete(discrete) => discrete_len(discrete),
        BasicType::LongDouble => 2,
        BasicType::Float | BasicType::Double | BasicType::Any | BasicType::Object => 1,
    }
}

/// How many tokens such a type is, if its values can be labels.
pub fn discrete_len(discrete: DiscreteType) -> usize
    ensures { result ≡ length (spell_discrete discrete) }
{
    match discrete {
        DiscreteType::Integer(integer) => integer_len(integer),
        DiscreteType::Sized(_)
        | DiscreteType::Char
        | DiscreteType::WideChar
        | DiscreteType::Boolean
        | DiscreteType::Octet => 1,
    }
}

/// How many tokens an integer type is.
fn integer_len(integer: IntegerType) -> usize
    ensures { result ≡ length (spell_sign integer.is_unsigned ++ spell_size integer.size) }
{
    let size = match integer.size {
        IntegerSize::Short | IntegerSize::Long => 1,
        IntegerSize::LongLong => 2,
    };
    size + usize::from(integer.is_unsigned)
}

/// The type of a constant.
pub fn push_constant_type<'a>(
    sites: &mut Vec<UnitPart<'a>>,
    kind: &'a ConstantTypeTree,
) -> Result<(), AllocError>
    ensures { OnOk result (Pushes sites.old.items sites.new.items (constant_type_parts kind.now)) }
{
    match kind {
        ConstantTypeTree::Discrete(discrete) => sites.extend_from_slice(&[
            UnitPart::Tokens(discrete_len(*discrete)),
            UnitPart::TypeEnds(Shape::Basic(BasicType::Discrete(*discrete))),
        ]),
        ConstantTypeTree::String(string) => push_string(sites, string),
        ConstantTypeTree::Name(name) => {
            sites.extend_from_slice(&[UnitPart::Used(Use::AsConstantType, name)])
        }
    }
}

/// A declared name, and the lengths of its array if it is one.
pub fn push_declarator<'a>(
    sites: &mut Vec<UnitPart<'a>>,
    declaration: Declaration,
    declarator: &'a Declarator,
) -> Result<(), AllocError>
    ensures { OnOk result (Pushes sites.old.items sites.new.items
        (declarator_parts declaration declarator.now)) }
{
    sites.push(UnitPart::Declared(declaration, &declarator.name))?;
    for length in declarator.lengths.as_slice() {
        sites.push(UnitPart::Tokens(1))?;
        push_value(sites, Purpose::Length, length)?;
        sites.push(UnitPart::Tokens(1))?;
    }
    push_array_end(sites, declarator.lengths.as_slice())
}

/// The end of an array with these lengths, if it is one.
fn push_array_end<'a>(
    sites: &mut Vec<UnitPart<'a>>,
    lengths: &[Expression],
) -> Result<(), AllocError>
    ensures { OnOk result (Pushes sites.old.items sites.new.items (array_end lengths.now)) }
{
    match lengths {
        [] => Ok(()),
        [_, ..] => sites.extend_from_slice(&[UnitPart::ArrayEnds]),
    }
}
