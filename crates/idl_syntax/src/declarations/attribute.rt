//! Attributes.

ghost use Rattle.idl_tree.specs.reading.ReadInterface.{attribute_by, attribute_names_at, attribute_with, getraises_at, readonly_attribute_with, readonly_names_at, readonly_rest};
ghost use Rattle.idl_tree.specs.reading.ReadType.{type_at};
ghost use Rattle.idl_tree.specs.reading.Reading.{first};
ghost use Rattle.idl_tree.specs.reading.Tests.{keyword_of};
ghost use Rattle.idl_tree.specs.declared.unit.Tree.TheVariants as tree;
ghost use Rattle.idl_syntax.specs.Gives.{Advances, Reads, Remains, made};

use crate::cursor::{behind_word, identifier, is_at_word, keyword};
use crate::declarations::data_type::data_type;
use crate::fault::ReadingFault;
use crate::name::{Identifier, raises, raises_if};
use crate::production::more_listed;
use idl_base::Bytes;
use idl_lex::Token;
use idl_lex::kinds::Keyword;
use idl_tree::declarations::{
    Attribute, AttributeNames, AttributeRaises, ReadonlyAttribute, ReadonlyNames,
};
use idl_tree::{Several, Tree};
use std::alloc::Global;

/// An attribute that is read alone.
#[tactic(auto, unfolding(idl_tree::specs::reading::ReadInterface::readonly_attribute_with))]
#[inline(never)]
pub fn readonly_attribute(
    alloc: Global,
    depth: usize,
    tokens: &[Token],
) -> Result<(Tree, &[Token]), ReadingFault>
    ensures reads { Reads (made tree.ReadonlyAttribute (readonly_attribute_with (type_at depth))) tokens.now
        result }
    ensures shorter { Advances tokens.now result }
{
    let rest = behind_word(tokens, Keyword::Readonly)?;
    let rest = behind_word(rest, Keyword::Attribute)?;
    let (kind, rest) = data_type(alloc, depth, rest)?;
    let (names, rest) = readonly_names(alloc, rest)?;
    Ok((
        Tree::ReadonlyAttribute(ReadonlyAttribute { kind, names }),
        rest,
    ))
}

/// Its name with what reading raises, or its names.
#[tactic(auto, unfolding(idl_tree::specs::reading::ReadInterface::readonly_names_at))]
fn readonly_names(
    alloc: Global,
    tokens: &[Token],
) -> Result<(ReadonlyNames, &[Token]), ReadingFault>
    ensures reads { Reads readonly_names_at tokens.now result }
    ensures shorter { Advances tokens.now result }
{
    let (name, rest) = identifier(tokens)?;
    readonly_names_rest(alloc, name, rest)
}

/// What stands behind its first name.
#[tactic(auto, unfolding(idl_tree::specs::reading::ReadInterface::readonly_rest))]
fn readonly_names_rest(
    alloc: Global,
    name: Bytes,
    tokens: &[Token],
) -> Result<(ReadonlyNames, &[Token]), ReadingFault>
    ensures reads { Reads (readonly_rest name) tokens.now result }
    ensures within { Remains tokens.now result }
{
    if is_at_word(tokens, Keyword::Raises) {
        let (raised, rest) = raises(alloc, Keyword::Raises, tokens)?;
        Ok((ReadonlyNames::Raising(name, raised), rest))
    } else {
        let (more, rest) = more_listed(alloc, &Identifier, tokens)?;
        let names = Several {
            first: name,
            rest: more,
        };
        Ok((ReadonlyNames::Plain(names), rest))
    }
}

/// An attribute that is read and written.
#[tactic(auto, unfolding(idl_tree::specs::reading::ReadInterface::attribute_with))]
#[inline(never)]
pub fn attribute(
    alloc: Global,
    depth: usize,
    tokens: &[Token],
) -> Result<(Tree, &[Token]), ReadingFault>
    ensures reads { Reads (made tree.Attribute (attribute_with (type_at depth))) tokens.now result }
    ensures shorter { Advances tokens.now result }
{
    let rest = behind_word(tokens, Keyword::Attribute)?;
    let (kind, rest) = data_type(alloc, depth, rest)?;
    let (names, rest) = attribute_names(alloc, rest)?;
    Ok((Tree::Attribute(Attribute { kind, names }), rest))
}

/// Its name with what it raises, or its names.
#[tactic(auto, unfolding(idl_tree::specs::reading::ReadInterface::attribute_names_at))]
fn attribute_names(
    alloc: Global,
    tokens: &[Token],
) -> Result<(AttributeNames, &[Token]), ReadingFault>
    ensures reads { Reads attribute_names_at tokens.now result }
    ensures shorter { Advances tokens.now result }
{
    let (name, rest) = identifier(tokens)?;
    attribute_names_rest(alloc, name, rest)
}

/// What stands behind its first name.
fn attribute_names_rest(
    alloc: Global,
    name: Bytes,
    tokens: &[Token],
) -> Result<(AttributeNames, &[Token]), ReadingFault>
    ensures reads { Reads (λ ts. attribute_by name (keyword_of (first ts)) ts) tokens.now result }
    ensures within { Remains tokens.now result }
{
    match keyword(tokens) {
        Some(Keyword::Getraises) => {
            let (raised, rest) = getraises(alloc, tokens)?;
            Ok((AttributeNames::Raising(name, raised), rest))
        }
        Some(Keyword::Setraises) => {
            let (set, rest) = raises(alloc, Keyword::Setraises, tokens)?;
            Ok((
                AttributeNames::Raising(name, AttributeRaises::Set(set)),
                rest,
            ))
        }
        _ => {
            let (more, rest) = more_listed(alloc, &Identifier, tokens)?;
            let names = Several {
                first: name,
                rest: more,
            };
            Ok((AttributeNames::Plain(names), rest))
        }
    }
}

/// What reading raises, with what writing does if that is said.
#[tactic(auto, unfolding(idl_tree::specs::reading::ReadInterface::getraises_at))]
fn getraises(alloc: Global, tokens: &[Token]) -> Result<(AttributeRaises, &[Token]), ReadingFault>
    ensures reads { Reads getraises_at tokens.now result }
    ensures shorter { Advances tokens.now result }
{
    let (got, rest) = raises(alloc, Keyword::Getraises, tokens)?;
    let (set, rest) = raises_if(alloc, Keyword::Setraises, rest)?;
    Ok((AttributeRaises::Get(got, set), rest))
}
