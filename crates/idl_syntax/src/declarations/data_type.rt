//! Types.

ghost use Rattle.std.specs.Prelude.{◌≡◌};
ghost use Rattle.idl_tree.specs.Lexeme.{lexemes};
ghost use Rattle.idl_tree.specs.reading.ReadExpression.{expression_at};
ghost use Rattle.idl_tree.specs.reading.ReadType.{basic_at, bound_with, discrete_at, limit_with, long_at, long_size_at, plain_with, sequence_with, signed_at, signed_type, size_at, sized_of, string_with, string_word_of, type_at, unsigned_at};
ghost use Rattle.idl_tree.specs.reading.Reading.{first};
ghost use Rattle.idl_tree.specs.reading.Tests.{pick};
ghost use Rattle.idl_syntax.specs.Gives.{Advances, Reads, Remains};

use crate::cursor::{behind, behind_word, by_word, closed, is_at, is_at_word, keyword};
use crate::expression::expression;
use crate::fault::ReadingFault;
use crate::name::scoped_name;
use idl_base::Boxed;
use idl_lex::Token;
use idl_lex::kinds::{Keyword, Mark};
use idl_tree::Expression;
use idl_tree::declarations::{
    BasicType, DiscreteType, IntegerSize, IntegerType, PlainType, Sequence, SizedInteger,
    StringType, TypeTree,
};
use std::alloc::Global;

/// The size that is said behind `long`.
#[tactic(auto, unfolding(idl_tree::specs::reading::ReadType::long_size_at))]
fn long_size(tokens: &[Token]) -> Result<(IntegerSize, &[Token]), ReadingFault>
    ensures reads { Reads long_size_at tokens.now result }
    ensures within { Remains tokens.now result }
{
    if is_at_word(tokens, Keyword::Long) {
        by_word(tokens, Keyword::Long, IntegerSize::LongLong)
    } else {
        Ok((IntegerSize::Long, tokens))
    }
}

/// The size of an integer type.
#[tactic(auto, unfolding(idl_tree::specs::reading::ReadType::size_at))]
fn integer_size(tokens: &[Token]) -> Result<(IntegerSize, &[Token]), ReadingFault>
    ensures reads { Reads size_at tokens.now result }
    ensures shorter { Advances tokens.now result }
{
    if is_at_word(tokens, Keyword::Long) {
        let rest = behind_word(tokens, Keyword::Long)?;
        long_size(rest)
    } else {
        by_word(tokens, Keyword::Short, IntegerSize::Short)
    }
}

/// An integer type with `unsigned`.
fn unsigned_type(tokens: &[Token]) -> Result<(DiscreteType, &[Token]), ReadingFault>
    ensures reads { Reads unsigned_at tokens.now result }
    ensures shorter { Advances tokens.now result }
{
    let rest = behind_word(tokens, Keyword::Unsigned)?;
    let (size, rest) = integer_size(rest)?;
    let integer = IntegerType {
        is_unsigned: true,
        size,
    };
    Ok((DiscreteType::Integer(integer), rest))
}

/// An integer type without `unsigned`.
fn signed_type(tokens: &[Token]) -> Result<(DiscreteType, &[Token]), ReadingFault>
    ensures reads { Reads signed_at tokens.now result }
    ensures shorter { Advances tokens.now result }
{
    let (size, rest) = integer_size(tokens)?;
    let integer = IntegerType {
        is_unsigned: false,
        size,
    };
    Ok((DiscreteType::Integer(integer), rest))
}

/// A type of keywords alone that a discriminator or a constant may have.
#[tactic(auto, unfolding(idl_tree::specs::reading::ReadType::discrete_at))]
pub fn discrete_type(tokens: &[Token]) -> Result<(DiscreteType, &[Token]), ReadingFault>
    ensures reads { Reads discrete_at tokens.now result }
    ensures shorter { Advances tokens.now result }
{
    match keyword(tokens) {
        Some(Keyword::Unsigned) => unsigned_type(tokens),
        Some(Keyword::Short | Keyword::Long) => signed_type(tokens),
        Some(Keyword::Char) => by_word(tokens, Keyword::Char, DiscreteType::Char),
        Some(Keyword::Wchar) => by_word(tokens, Keyword::Wchar, DiscreteType::WideChar),
        Some(Keyword::Boolean) => by_word(tokens, Keyword::Boolean, DiscreteType::Boolean),
        Some(Keyword::Octet) => by_word(tokens, Keyword::Octet, DiscreteType::Octet),
        _ => {
            let (sized, rest) = sized_integer(tokens)?;
            Ok((DiscreteType::Sized(sized), rest))
        }
    }
}

/// An integer type by the word that says its width.
fn sized_integer(tokens: &[Token]) -> Result<(SizedInteger, &[Token]), ReadingFault>
    ensures reads { Reads (pick sized_of) tokens.now result }
    ensures shorter { Advances tokens.now result }
{
    match sized_word(tokens) {
        Some(sized) => Ok((sized, &tokens[1..])),
        None => Err(ReadingFault::NoTree(tokens.len())),
    }
}

/// The sized integer type that the next token is.
fn sized_word(tokens: &[Token]) -> Option<SizedInteger>
    ensures { result ≡ sized_of (first (lexemes tokens.now)) }
{
    match keyword(tokens) {
        Some(Keyword::Int8) => Some(SizedInteger::Int8),
        Some(Keyword::Int16) => Some(SizedInteger::Int16),
        Some(Keyword::Int32) => Some(SizedInteger::Int32),
        Some(Keyword::Int64) => Some(SizedInteger::Int64),
        Some(Keyword::Uint8) => Some(SizedInteger::Uint8),
        Some(Keyword::Uint16) => Some(SizedInteger::Uint16),
        Some(Keyword::Uint32) => Some(SizedInteger::Uint32),
        Some(Keyword::Uint64) => Some(SizedInteger::Uint64),
        _ => None,
    }
}

/// What `long` begins.
#[tactic(auto, unfolding(idl_tree::specs::reading::ReadType::long_at))]
fn long_type(tokens: &[Token]) -> Result<(BasicType, &[Token]), ReadingFault>
    ensures reads { Reads long_at tokens.now result }
    ensures shorter { Advances tokens.now result }
{
    let rest = behind_word(tokens, Keyword::Long)?;
    match keyword(rest) {
        Some(Keyword::Long) => by_word(rest, Keyword::Long, signed(IntegerSize::LongLong)),
        Some(Keyword::Double) => by_word(rest, Keyword::Double, BasicType::LongDouble),
        _ => Ok((signed(IntegerSize::Long), rest)),
    }
}

/// The type of signed integers of a size.
fn signed(size: IntegerSize) -> BasicType
    ensures { result ≡ signed_type size }
{
    BasicType::Discrete(DiscreteType::Integer(IntegerType {
        is_unsigned: false,
        size,
    }))
}

/// A type of keywords alone.
#[tactic(auto, unfolding(idl_tree::specs::reading::ReadType::basic_at))]
fn basic_type(tokens: &[Token]) -> Result<(BasicType, &[Token]), ReadingFault>
    ensures reads { Reads basic_at tokens.now result }
    ensures shorter { Advances tokens.now result }
{
    match keyword(tokens) {
        Some(Keyword::Long) => long_type(tokens),
        Some(Keyword::Float) => by_word(tokens, Keyword::Float, BasicType::Float),
        Some(Keyword::Double) => by_word(tokens, Keyword::Double, BasicType::Double),
        Some(Keyword::Any) => by_word(tokens, Keyword::Any, BasicType::Any),
        Some(Keyword::Object) => by_word(tokens, Keyword::Object, BasicType::Object),
        _ => {
            let (discrete, rest) = discrete_type(tokens)?;
            Ok((BasicType::Discrete(discrete), rest))
        }
    }
}

/// The bound of a string, if it has one.
#[tactic(auto, unfolding(idl_tree::specs::reading::ReadType::bound_with))]
fn string_bound(
    alloc: Global,
    depth: usize,
    tokens: &[Token],
) -> Result<(Option<Boxed<Expression>>, &[Token]), ReadingFault>
    ensures reads { Reads (bound_with (expression_at depth)) tokens.now result }
    ensures within { Remains tokens.now result }
{
    if !is_at(tokens, Mark::Less) {
        return Ok((None, tokens));
    }
    let rest = behind(tokens, Mark::Less)?;
    let (bound, rest) = expression(alloc, depth, rest)?;
    let bound = Boxed::new(alloc, bound)?;
    closed(Some(bound), rest, Mark::Greater)
}

/// `string` or `wstring`, with or without a bound.
#[tactic(auto, unfolding(idl_tree::specs::reading::ReadType::string_with))]
pub fn string_type(
    alloc: Global,
    depth: usize,
    tokens: &[Token],
) -> Result<(StringType, &[Token]), ReadingFault>
    ensures reads { Reads (string_with (expression_at depth)) tokens.now result }
    ensures shorter { Advances tokens.now result }
{
    let Some(is_wide) = string_word(tokens) else {
        return Err(ReadingFault::NoTree(tokens.len()));
    };
    let (bound, rest) = string_bound(alloc, depth, &tokens[1..])?;
    Ok((StringType { is_wide, bound }, rest))
}

/// Whether the keyword of a string is that of a wide one, if it is one.
fn string_word(tokens: &[Token]) -> Option<bool>
    ensures { result ≡ string_word_of (first (lexemes tokens.now)) }
{
    match keyword(tokens) {
        Some(Keyword::String) => Some(false),
        Some(Keyword::Wstring) => Some(true),
        _ => None,
    }
}

/// A type that holds no other one.
#[tactic(auto, unfolding(idl_tree::specs::reading::ReadType::plain_with))]
fn plain_type(
    alloc: Global,
    depth: usize,
    tokens: &[Token],
) -> Result<(PlainType, &[Token]), ReadingFault>
    ensures reads { Reads (plain_with (expression_at depth)) tokens.now result }
    ensures shorter { Advances tokens.now result }
{
    match keyword(tokens) {
        Some(Keyword::String | Keyword::Wstring) => {
            let (string, rest) = string_type(alloc, depth, tokens)?;
            Ok((PlainType::String(string), rest))
        }
        None => {
            let (name, rest) = scoped_name(alloc, tokens)?;
            Ok((PlainType::Name(name), rest))
        }
        _ => {
            let (basic, rest) = basic_type(tokens)?;
            Ok((PlainType::Basic(basic), rest))
        }
    }
}

/// The bound of a sequence, if it has one.
#[tactic(auto, unfolding(idl_tree::specs::reading::ReadType::limit_with))]
fn sequence_bound(
    alloc: Global,
    depth: usize,
    tokens: &[Token],
) -> Result<(Option<Expression>, &[Token]), ReadingFault>
    ensures reads { Reads (limit_with (expression_at depth)) tokens.now result }
    ensures within { Remains tokens.now result }
{
    if !is_at(tokens, Mark::Comma) {
        return Ok((None, tokens));
    }
    let rest = behind(tokens, Mark::Comma)?;
    let (bound, rest) = expression(alloc, depth, rest)?;
    Ok((Some(bound), rest))
}

/// A type, with less than so many levels of sequences.
#[cycle(data_type)]
#[tactic(auto, unfolding(idl_tree::specs::reading::ReadType::type_at, idl_tree::specs::reading::ReadType::type_with))]
pub fn data_type(
    alloc: Global,
    depth: usize,
    tokens: &[Token],
) -> Result<(TypeTree, &[Token]), ReadingFault>
    ensures reads { Reads (type_at depth) tokens.now result }
    ensures shorter { Advances tokens.now result }
{
    if depth == 0 {
        return Err(ReadingFault::NoTree(tokens.len()));
    }
    if is_at_word(tokens, Keyword::Sequence) {
        return sequence(alloc, depth - 1, tokens);
    }
    let (plain, rest) = plain_type(alloc, depth - 1, tokens)?;
    Ok((TypeTree::Plain(plain), rest))
}

/// A sequence.
#[cycle(data_type)]
#[tactic(auto, unfolding(idl_tree::specs::reading::ReadType::sequence_with))]
fn sequence(
    alloc: Global,
    depth: usize,
    tokens: &[Token],
) -> Result<(TypeTree, &[Token]), ReadingFault>
    ensures reads { Reads (sequence_with (expression_at depth) (type_at depth)) tokens.now result }
    ensures shorter { Advances tokens.now result }
{
    let rest = behind_word(tokens, Keyword::Sequence)?;
    let rest = behind(rest, Mark::Less)?;
    let (element, rest) = data_type(alloc, depth, rest)?;
    let (bound, rest) = sequence_bound(alloc, depth, rest)?;
    let sequence = Boxed::new(alloc, Sequence { element, bound })?;
    closed(TypeTree::Sequence(sequence), rest, Mark::Greater)
}
