//! Structs, unions and enums.

ghost use Rattle.std.specs.Prelude.{◌≡◌};
ghost use Rattle.idl_tree.specs.Lexeme.{lexemes};
ghost use Rattle.idl_tree.specs.reading.ReadConstruction.{base_at, begins_construction, begins_label, case_with, cases_with, construction_at, construction_with, discriminator_at, enumeration_at, goes_on, label_with, member_type_with, member_with, members_with, structure_rest_with, structure_with, union_rest_with, union_with};
ghost use Rattle.idl_tree.specs.reading.ReadExpression.{expression_at};
ghost use Rattle.idl_tree.specs.reading.ReadType.{type_at};
ghost use Rattle.idl_tree.specs.reading.Reading.{first, many_of};
ghost use Rattle.idl_syntax.specs.Gives.{Advances, Reads, Remains};
ghost use Rattle.idl_syntax.specs.Nested.{nested};

use crate::cursor::{behind, behind_word, closed, identifier, is_at, is_at_word, keyword};
use crate::declarations::data_type::{data_type, discrete_type};
use crate::declarations::declarator::{Declared, declarator};
use crate::expression::expression;
use crate::fault::ReadingFault;
use crate::name::{Identifier, scoped_name};
use crate::production::{Production, Series, all, listed};
use idl_base::{Boxed, Bytes, Seq};
use idl_lex::Token;
use idl_lex::kinds::{Keyword, Mark};
use idl_tree::declarations::{
    Case, Construction, Discriminator, Enumeration, Label, Member, MemberType, Structure, Union,
};
use idl_tree::{ScopedName, Several};
use std::alloc::Global;

/// An enum.
#[tactic(auto, unfolding(idl_tree::specs::reading::ReadConstruction::enumeration_at))]
pub fn enumeration(alloc: Global, tokens: &[Token]) -> Result<(Enumeration, &[Token]), ReadingFault>
    ensures reads { Reads enumeration_at tokens.now result }
    ensures shorter { Advances tokens.now result }
{
    let rest = behind_word(tokens, Keyword::Enum)?;
    let (name, rest) = identifier(rest)?;
    let rest = behind(rest, Mark::OpenBrace)?;
    let (enumerators, rest) = listed(alloc, &Identifier, rest)?;
    closed(Enumeration { name, enumerators }, rest, Mark::CloseBrace)
}

/// The type of a union's discriminator.
#[tactic(auto, unfolding(idl_tree::specs::reading::ReadConstruction::discriminator_at))]
#[inline(never)]
fn discriminator(alloc: Global, tokens: &[Token]) -> Result<(Discriminator, &[Token]), ReadingFault>
    ensures reads { Reads discriminator_at tokens.now result }
    ensures shorter { Advances tokens.now result }
{
    match keyword(tokens) {
        None => {
            let (name, rest) = scoped_name(alloc, tokens)?;
            Ok((Discriminator::Name(name), rest))
        }
        _ => {
            let (discrete, rest) = discrete_type(tokens)?;
            Ok((Discriminator::Discrete(discrete), rest))
        }
    }
}

/// A label of a case, with parts of less than so many levels.
#[derive(Clone, Copy)]
struct LabelProduction {
    depth: usize,
}

impl Production for LabelProduction {
    type Tree = Label;

    ghost reader = { λ one. label_with (expression_at one.depth) };

    #[tactic(auto, unfolding(idl_tree::specs::reading::ReadConstruction::label_with))]
    fn read<'a>(
        &self,
        alloc: Global,
        tokens: &'a [Token],
    ) -> Result<(Label, &'a [Token]), ReadingFault> {
        if is_at_word(tokens, Keyword::Case) {
            let rest = behind_word(tokens, Keyword::Case)?;
            let (value, rest) = expression(alloc, self.depth, rest)?;
            closed(Label::Case(value), rest, Mark::Colon)
        } else {
            let rest = behind_word(tokens, Keyword::Default)?;
            let rest = behind(rest, Mark::Colon)?;
            Ok((Label::Default, rest))
        }
    }
}

impl Series for LabelProduction {
    ghost begins = { λ _. begins_label };

    fn is_ahead(&self, tokens: &[Token]) -> bool {
        matches!(keyword(tokens), Some(Keyword::Case | Keyword::Default))
    }
}

/// Whether a struct, a union or an enum begins here.
fn is_at_construction(tokens: &[Token]) -> bool
    ensures { result ≡ begins_construction (first (lexemes tokens.now)) }
{
    matches!(
        keyword(tokens),
        Some(Keyword::Struct | Keyword::Union | Keyword::Enum)
    )
}

/// A struct, a union or an enum, with less than so many levels.
#[cycle(construction)]
#[tactic(auto, unfolding(idl_tree::specs::reading::ReadConstruction::construction_at))]
pub fn construction(
    alloc: Global,
    depth: usize,
    tokens: &[Token],
) -> Result<(Construction, &[Token]), ReadingFault>
    ensures reads { Reads (construction_at depth) tokens.now result }
    ensures shorter { Advances tokens.now result }
{
    if depth == 0 {
        return Err(ReadingFault::NoTree(tokens.len()));
    }
    construction_inside(alloc, depth - 1, tokens)
}

/// A struct, a union or an enum, by its first keyword.
#[cycle(construction)]
#[tactic(auto, unfolding(idl_tree::specs::reading::ReadConstruction::construction_with))]
fn construction_inside(
    alloc: Global,
    depth: usize,
    tokens: &[Token],
) -> Result<(Construction, &[Token]), ReadingFault>
    ensures reads { Reads (nested construction_with depth) tokens.now result }
    ensures shorter { Advances tokens.now result }
{
    match keyword(tokens) {
        Some(Keyword::Struct) => {
            let (structure, rest) = structure(alloc, depth, tokens)?;
            Ok((Construction::Structure(structure), rest))
        }
        Some(Keyword::Union) => {
            let (union, rest) = union_type(alloc, depth, tokens)?;
            Ok((Construction::Union(union), rest))
        }
        _ => {
            let (enumeration, rest) = enumeration(alloc, tokens)?;
            Ok((Construction::Enumeration(enumeration), rest))
        }
    }
}

/// A type, or one that is declared in place.
#[cycle(construction)]
#[tactic(auto, unfolding(idl_tree::specs::reading::ReadConstruction::member_type_with))]
#[inline(always)]
pub fn member_type(
    alloc: Global,
    depth: usize,
    tokens: &[Token],
) -> Result<(MemberType, &[Token]), ReadingFault>
    ensures reads { Reads (member_type_with (type_at depth) (construction_at depth))
        tokens.now result }
    ensures shorter { Advances tokens.now result }
{
    if is_at_construction(tokens) {
        let (construction, rest) = construction(alloc, depth, tokens)?;
        let construction = Boxed::new(alloc, construction)?;
        Ok((MemberType::Construction(construction), rest))
    } else {
        let (kind, rest) = data_type(alloc, depth, tokens)?;
        Ok((MemberType::Type(kind), rest))
    }
}

/// Members of one type.
#[cycle(construction)]
#[tactic(auto, unfolding(idl_tree::specs::reading::ReadConstruction::member_with))]
fn member(alloc: Global, depth: usize, tokens: &[Token]) -> Result<(Member, &[Token]), ReadingFault>
    ensures reads { Reads (nested member_with depth) tokens.now result }
    ensures shorter { Advances tokens.now result }
{
    let (kind, rest) = member_type(alloc, depth, tokens)?;
    let (declarators, rest) = listed(alloc, &Declared { depth }, rest)?;
    closed(Member { kind, declarators }, rest, Mark::Semicolon)
}

/// Members in braces.
#[cycle(construction)]
#[tactic(auto, unfolding(idl_tree::specs::reading::ReadConstruction::members_with))]
pub fn members(
    alloc: Global,
    depth: usize,
    tokens: &[Token],
) -> Result<(Seq<Member>, &[Token]), ReadingFault>
    ensures reads { Reads (nested members_with depth) tokens.now result }
    ensures shorter { Advances tokens.now result }
{
    let rest = behind(tokens, Mark::OpenBrace)?;
    let (members, rest) = more_members(alloc, depth, rest)?;
    closed(members, rest, Mark::CloseBrace)
}

/// The members before a closing brace.
#[cycle(construction)]
fn more_members(
    alloc: Global,
    depth: usize,
    tokens: &[Token],
) -> Result<(Seq<Member>, &[Token]), ReadingFault>
    ensures reads { Reads (many_of goes_on (nested member_with depth)) tokens.now result }
    ensures within { Remains tokens.now result }
{
    let mut members = Vec::new(alloc);
    let mut rest = tokens;
    'members: while !is_at(rest, Mark::CloseBrace) {
        let (one, after) = member(alloc, depth, rest)?;
        members.push(one)?;
        rest = after;
    }
    Ok((Seq::from_vec(members), rest))
}

/// A struct.
#[cycle(construction)]
#[tactic(auto, unfolding(idl_tree::specs::reading::ReadConstruction::structure_with))]
#[inline(always)]
fn structure(
    alloc: Global,
    depth: usize,
    tokens: &[Token],
) -> Result<(Boxed<Structure>, &[Token]), ReadingFault>
    ensures reads { Reads (nested structure_with depth) tokens.now result }
    ensures shorter { Advances tokens.now result }
{
    let rest = behind_word(tokens, Keyword::Struct)?;
    let (name, rest) = identifier(rest)?;
    structure_rest(alloc, depth, name, rest)
}

/// What a struct inherits from, if that is said.
#[tactic(auto, unfolding(idl_tree::specs::reading::ReadConstruction::base_at))]
fn base(alloc: Global, tokens: &[Token]) -> Result<(Option<ScopedName>, &[Token]), ReadingFault>
    ensures reads { Reads base_at tokens.now result }
    ensures within { Remains tokens.now result }
{
    if !is_at(tokens, Mark::Colon) {
        return Ok((None, tokens));
    }
    let rest = behind(tokens, Mark::Colon)?;
    let (name, rest) = scoped_name(alloc, rest)?;
    Ok((Some(name), rest))
}

/// The base and the members of the struct with this name.
#[cycle(construction)]
#[tactic(auto, unfolding(idl_tree::specs::reading::ReadConstruction::structure_rest_with))]
pub fn structure_rest(
    alloc: Global,
    depth: usize,
    name: Bytes,
    tokens: &[Token],
) -> Result<(Boxed<Structure>, &[Token]), ReadingFault>
    ensures reads { Reads (nested structure_rest_with depth name) tokens.now result }
    ensures shorter { Advances tokens.now result }
{
    let (base, rest) = base(alloc, tokens)?;
    let (members, rest) = members(alloc, depth, rest)?;
    let structure = Structure {
        name,
        base,
        members,
    };
    Ok((Boxed::new(alloc, structure)?, rest))
}

/// A union.
#[cycle(construction)]
#[tactic(auto, unfolding(idl_tree::specs::reading::ReadConstruction::union_with))]
#[inline(always)]
fn union_type(
    alloc: Global,
    depth: usize,
    tokens: &[Token],
) -> Result<(Boxed<Union>, &[Token]), ReadingFault>
    ensures reads { Reads (nested union_with depth) tokens.now result }
    ensures shorter { Advances tokens.now result }
{
    let rest = behind_word(tokens, Keyword::Union)?;
    let (name, rest) = identifier(rest)?;
    union_rest(alloc, depth, name, rest)
}

/// The discriminator and the cases of the union with this name.
#[cycle(construction)]
#[tactic(auto, unfolding(idl_tree::specs::reading::ReadConstruction::union_rest_with))]
pub fn union_rest(
    alloc: Global,
    depth: usize,
    name: Bytes,
    tokens: &[Token],
) -> Result<(Boxed<Union>, &[Token]), ReadingFault>
    ensures reads { Reads (nested union_rest_with depth name) tokens.now result }
    ensures shorter { Advances tokens.now result }
{
    let rest = behind_word(tokens, Keyword::Switch)?;
    let rest = behind(rest, Mark::OpenParenthesis)?;
    let (discriminator, rest) = discriminator(alloc, rest)?;
    let rest = behind(rest, Mark::CloseParenthesis)?;
    union_cases(alloc, depth, (name, discriminator), rest)
}

/// The cases of the union with this name and discriminator, in braces.
#[cycle(construction)]
#[tactic(auto, unfolding(idl_tree::specs::reading::ReadConstruction::cases_with))]
#[inline(never)]
fn union_cases(
    alloc: Global,
    depth: usize,
    head: (Bytes, Discriminator),
    tokens: &[Token],
) -> Result<(Boxed<Union>, &[Token]), ReadingFault>
    ensures reads { Reads (nested cases_with depth head.0 head.1) tokens.now result }
    ensures shorter { Advances tokens.now result }
{
    let rest = behind(tokens, Mark::OpenBrace)?;
    let (first, rest) = case(alloc, depth, rest)?;
    let (more, rest) = cases(alloc, depth, rest)?;
    let (name, discriminator) = head;
    let union = Union {
        name,
        discriminator,
        first,
        rest: more,
    };
    closed(Boxed::new(alloc, union)?, rest, Mark::CloseBrace)
}

/// A member of a union, with its labels.
#[cycle(construction)]
#[tactic(auto, unfolding(idl_tree::specs::reading::ReadConstruction::case_with))]
fn case(alloc: Global, depth: usize, tokens: &[Token]) -> Result<(Case, &[Token]), ReadingFault>
    ensures reads { Reads (nested case_with depth) tokens.now result }
    ensures shorter { Advances tokens.now result }
{
    let (labels, rest) = all(alloc, &LabelProduction { depth }, tokens)?;
    let (kind, rest) = member_type(alloc, depth, rest)?;
    let (declarator, rest) = declarator(alloc, depth, rest)?;
    let case = Case {
        labels,
        kind,
        declarator,
    };
    closed(case, rest, Mark::Semicolon)
}

/// The cases before a closing brace.
#[cycle(construction)]
#[inline(always)]
fn cases(
    alloc: Global,
    depth: usize,
    tokens: &[Token],
) -> Result<(Seq<Case>, &[Token]), ReadingFault>
    ensures reads { Reads (many_of goes_on (nested case_with depth)) tokens.now result }
    ensures within { Remains tokens.now result }
{
    let mut cases = Vec::new(alloc);
    let mut rest = tokens;
    'cases: while !is_at(rest, Mark::CloseBrace) {
        let (one, after) = case(alloc, depth, rest)?;
        cases.push(one)?;
        rest = after;
    }
    Ok((Seq::from_vec(cases), rest))
}
