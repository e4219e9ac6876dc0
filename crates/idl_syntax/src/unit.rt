//! Units.

ghost use Rattle.std.specs.Prelude.{◌≡◌, ◌<◌, ◌≤◌, length, IfOk};
ghost use Rattle.idl_tree.specs.Lexeme.{lexemes};
ghost use Rattle.idl_tree.specs.reading.ReadConstruction.{enumeration_at};
ghost use Rattle.idl_tree.specs.reading.ReadExpression.{expression_at};
ghost use Rattle.idl_tree.specs.reading.ReadInterface.{operation_with};
ghost use Rattle.idl_tree.specs.reading.ReadType.{type_at};
ghost use Rattle.idl_tree.specs.reading.ReadUnit.{constant_type_with, constant_with, declaration_with, ended_with, equals_at, exception_with, native_at, structure_declaration_with, typedef_with, typeid_at, typeprefix_at, union_declaration_with, unit_at};
ghost use Rattle.idl_tree.specs.declared.declarations.construction.Construction.TheVariants as construction;
ghost use Rattle.idl_tree.specs.declared.unit.Tree.TheVariants as tree;
ghost use Rattle.idl_syntax.specs.Gives.{Advances, Reads, Remains, made};
ghost use Rattle.idl_syntax.specs.Nested.{nested};

use crate::cursor::{behind, behind_word, identifier, is_at, keyword};
use crate::declarations::attribute::{attribute, readonly_attribute};
use crate::declarations::construction::{
    enumeration, member_type, members, structure_rest, union_rest,
};
use crate::declarations::data_type::{discrete_type, string_type};
use crate::declarations::declarator::Declared;
use crate::declarations::interface::{closing, interface, module};
use crate::declarations::operation::operation;
use crate::expression::expression;
use crate::fault::ReadingFault;
use crate::literal::text;
use crate::name::scoped_name;
use crate::production::listed;
use idl_lex::Token;
use idl_lex::kinds::{Keyword, Mark};
use idl_tree::declarations::{Construction, Forward};
use idl_tree::{Constant, ConstantTypeTree, Exception, Tree, Typedef, Typeid, Typeprefix};
use std::alloc::Global;

/// A unit, with parts of less than so many levels.
#[tactic(auto, unfolding(idl_tree::specs::reading::ReadUnit::unit_at, idl_tree::specs::reading::ReadUnit::unit_with))]
pub fn unit(alloc: Global, depth: usize, tokens: &[Token]) -> Result<(Tree, &[Token]), ReadingFault>
    ensures reads { Reads (unit_at depth) tokens.now result }
    ensures shorter { Advances tokens.now result }
{
    if is_at(tokens, Mark::CloseBrace) {
        return closing(tokens);
    }
    match keyword(tokens) {
        Some(Keyword::Module) => module(tokens),
        Some(Keyword::Local | Keyword::Interface) => interface(alloc, tokens),
        _ => ended_declaration(alloc, depth, tokens),
    }
}

/// A declaration and its `;`. Trees are large, so this one isn't taken apart.
#[tactic(auto, unfolding(idl_tree::specs::reading::ReadUnit::ended_with))]
fn ended_declaration(
    alloc: Global,
    depth: usize,
    tokens: &[Token],
) -> Result<(Tree, &[Token]), ReadingFault>
    ensures reads { Reads (ended_with (nested declaration_with depth)) tokens.now result }
    ensures shorter { Advances tokens.now result }
{
    let mut read = declaration(alloc, depth, tokens)?;
    read.1 = behind(read.1, Mark::Semicolon)?;
    Ok(read)
}

/// A declaration, without its `;`. Each production is read in a function of its own, which makes the tree where it is given back,
/// since trees are large.
#[tactic(auto, unfolding(idl_tree::specs::reading::ReadUnit::declaration_with))]
#[inline(always)]
fn declaration(
    alloc: Global,
    depth: usize,
    tokens: &[Token],
) -> Result<(Tree, &[Token]), ReadingFault>
    ensures reads { Reads (nested declaration_with depth) tokens.now result }
    ensures shorter { Advances tokens.now result }
{
    match keyword(tokens) {
        Some(Keyword::Struct) => structure_declaration(alloc, depth, tokens),
        Some(Keyword::Union) => union_declaration(alloc, depth, tokens),
        Some(Keyword::Enum) => enumeration_declaration(alloc, tokens),
        Some(Keyword::Typedef) => typedef(alloc, depth, tokens),
        Some(Keyword::Native) => native(tokens),
        Some(Keyword::Const) => constant(alloc, depth, tokens),
        Some(Keyword::Exception) => exception(alloc, depth, tokens),
        Some(Keyword::Readonly) => readonly_attribute(alloc, depth, tokens),
        Some(Keyword::Attribute) => attribute(alloc, depth, tokens),
        Some(Keyword::Typeid) => typeid(alloc, tokens),
        Some(Keyword::Typeprefix) => typeprefix(alloc, tokens),
        _ => operation_declaration(alloc, depth, tokens),
    }
}

/// A struct, or its declaration ahead, which ends before the `;`.
#[tactic(auto, unfolding(idl_tree::specs::reading::ReadUnit::structure_declaration_with))]
#[inline(never)]
fn structure_declaration(
    alloc: Global,
    depth: usize,
    tokens: &[Token],
) -> Result<(Tree, &[Token]), ReadingFault>
    ensures reads { Reads (nested structure_declaration_with depth) tokens.now result }
    ensures shorter { Advances tokens.now result }
{
    let rest = behind_word(tokens, Keyword::Struct)?;
    let (name, rest) = identifier(rest)?;
    if is_at(rest, Mark::Semicolon) {
        Ok((Tree::Forward(Forward::Structure(name)), rest))
    } else {
        let (structure, rest) = structure_rest(alloc, depth, name, rest)?;
        Ok((Tree::Construction(Construction::Structure(structure)), rest))
    }
}

/// A union, or its declaration ahead, which ends before the `;`.
#[tactic(auto, unfolding(idl_tree::specs::reading::ReadUnit::union_declaration_with))]
#[inline(never)]
fn union_declaration(
    alloc: Global,
    depth: usize,
    tokens: &[Token],
) -> Result<(Tree, &[Token]), ReadingFault>
    ensures reads { Reads (nested union_declaration_with depth) tokens.now result }
    ensures shorter { Advances tokens.now result }
{
    let rest = behind_word(tokens, Keyword::Union)?;
    let (name, rest) = identifier(rest)?;
    if is_at(rest, Mark::Semicolon) {
        Ok((Tree::Forward(Forward::Union(name)), rest))
    } else {
        let (union, rest) = union_rest(alloc, depth, name, rest)?;
        Ok((Tree::Construction(Construction::Union(union)), rest))
    }
}

/// An enum.
#[inline(never)]
fn enumeration_declaration(
    alloc: Global,
    tokens: &[Token],
) -> Result<(Tree, &[Token]), ReadingFault>
    ensures reads { Reads (made (λ e. tree.Construction (construction.Enumeration e)) enumeration_at)
        tokens.now result }
    ensures shorter { Advances tokens.now result }
{
    let (enumeration, rest) = enumeration(alloc, tokens)?;
    let construction = Construction::Enumeration(enumeration);
    Ok((Tree::Construction(construction), rest))
}

/// An operation.
#[inline(never)]
fn operation_declaration(
    alloc: Global,
    depth: usize,
    tokens: &[Token],
) -> Result<(Tree, &[Token]), ReadingFault>
    ensures reads { Reads (made tree.Operation (operation_with (type_at depth))) tokens.now result }
    ensures shorter { Advances tokens.now result }
{
    let (operation, rest) = operation(alloc, depth, tokens)?;
    Ok((Tree::Operation(operation), rest))
}

/// A typedef, without its `;`.
#[tactic(auto, unfolding(idl_tree::specs::reading::ReadUnit::typedef_with))]
#[inline(never)]
fn typedef(alloc: Global, depth: usize, tokens: &[Token]) -> Result<(Tree, &[Token]), ReadingFault>
    ensures reads { Reads (made tree.Typedef (nested typedef_with depth)) tokens.now result }
    ensures shorter { Advances tokens.now result }
{
    let rest = behind_word(tokens, Keyword::Typedef)?;
    let (kind, rest) = member_type(alloc, depth, rest)?;
    let (declarators, rest) = listed(alloc, &Declared { depth }, rest)?;
    Ok((Tree::Typedef(Typedef { kind, declarators }), rest))
}

/// `native` and a name, without the `;`.
#[tactic(auto, unfolding(idl_tree::specs::reading::ReadUnit::native_at))]
#[inline(never)]
fn native(tokens: &[Token]) -> Result<(Tree, &[Token]), ReadingFault>
    ensures reads { Reads (made tree.Native native_at) tokens.now result }
    ensures shorter { Advances tokens.now result }
{
    let rest = behind_word(tokens, Keyword::Native)?;
    let (name, rest) = identifier(rest)?;
    Ok((Tree::Native(name), rest))
}

/// The type of a constant.
#[tactic(auto, unfolding(idl_tree::specs::reading::ReadUnit::constant_type_with))]
fn constant_type(
    alloc: Global,
    depth: usize,
    tokens: &[Token],
) -> Result<(ConstantTypeTree, &[Token]), ReadingFault>
    ensures reads { Reads (constant_type_with (expression_at depth)) tokens.now result }
    ensures shorter { Advances tokens.now result }
{
    match keyword(tokens) {
        Some(Keyword::String | Keyword::Wstring) => {
            let (string, rest) = string_type(alloc, depth, tokens)?;
            Ok((ConstantTypeTree::String(string), rest))
        }
        None => {
            let (name, rest) = scoped_name(alloc, tokens)?;
            Ok((ConstantTypeTree::Name(name), rest))
        }
        _ => {
            let (discrete, rest) = discrete_type(tokens)?;
            Ok((ConstantTypeTree::Discrete(discrete), rest))
        }
    }
}

/// A constant, without its `;`.
#[tactic(auto, unfolding(idl_tree::specs::reading::ReadUnit::constant_with))]
#[inline(never)]
fn constant(alloc: Global, depth: usize, tokens: &[Token]) -> Result<(Tree, &[Token]), ReadingFault>
    ensures reads { Reads (made tree.Constant (constant_with (expression_at depth))) tokens.now result }
    ensures shorter { Advances tokens.now result }
{
    let rest = behind_word(tokens, Keyword::Const)?;
    let (kind, rest) = constant_type(alloc, depth, rest)?;
    let (name, rest) = identifier(rest)?;
    let rest = behind(rest, Mark::Equals)?;
    let (value, rest) = expression(alloc, depth, rest)?;
    Ok((Tree::Constant(Constant { kind, name, value }), rest))
}

/// An exception, without its `;`.
#[tactic(auto, unfolding(idl_tree::specs::reading::ReadUnit::exception_with))]
#[inline(never)]
fn exception(
    alloc: Global,
    depth: usize,
    tokens: &[Token],
) -> Result<(Tree, &[Token]), ReadingFault>
    ensures reads { Reads (made tree.Exception (nested exception_with depth)) tokens.now result }
    ensures shorter { Advances tokens.now result }
{
    let rest = behind_word(tokens, Keyword::Exception)?;
    let (name, rest) = identifier(rest)?;
    let (members, rest) = members(alloc, depth, rest)?;
    Ok((Tree::Exception(Exception { name, members }), rest))
}

/// `typeid`, a name and its id, without the `;`.
#[tactic(auto, unfolding(idl_tree::specs::reading::ReadUnit::typeid_at))]
#[inline(never)]
fn typeid(alloc: Global, tokens: &[Token]) -> Result<(Tree, &[Token]), ReadingFault>
    ensures reads { Reads (made tree.Typeid typeid_at) tokens.now result }
    ensures shorter { Advances tokens.now result }
{
    let rest = behind_word(tokens, Keyword::Typeid)?;
    let (name, rest) = scoped_name(alloc, rest)?;
    let (text, rest) = text(alloc, rest)?;
    Ok((Tree::Typeid(Typeid { name, text }), rest))
}

/// Whether a `=` stands here, and what is behind it if one does.
#[tactic(auto, unfolding(idl_tree::specs::reading::ReadUnit::equals_at))]
fn equals(tokens: &[Token]) -> Result<(bool, &[Token]), ReadingFault>
    ensures reads { Reads equals_at tokens.now result }
    ensures within { Remains tokens.now result }
{
    if !is_at(tokens, Mark::Equals) {
        return Ok((false, tokens));
    }
    let rest = behind(tokens, Mark::Equals)?;
    Ok((true, rest))
}

/// `typeprefix`, a name and what the ids in it begin with, without the `;`.
#[tactic(auto, unfolding(idl_tree::specs::reading::ReadUnit::typeprefix_at))]
#[inline(never)]
fn typeprefix(alloc: Global, tokens: &[Token]) -> Result<(Tree, &[Token]), ReadingFault>
    ensures reads { Reads (made tree.Typeprefix typeprefix_at) tokens.now result }
    ensures shorter { Advances tokens.now result }
{
    let rest = behind_word(tokens, Keyword::Typeprefix)?;
    let (name, rest) = scoped_name(alloc, rest)?;
    let (has_equals, rest) = equals(rest)?;
    let (text, rest) = text(alloc, rest)?;
    let typeprefix = Typeprefix {
        name,
        has_equals,
        text,
    };
    Ok((Tree::Typeprefix(typeprefix), rest))
}
