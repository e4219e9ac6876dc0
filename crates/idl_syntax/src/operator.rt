//! Operators.

ghost use Rattle.std.specs.Prelude.{◌≡◌};
ghost use Rattle.idl_tree.specs.Lexeme.{lexemes};
ghost use Rattle.idl_tree.specs.reading.ReadExpression.{product_operator_of, shift_operator_of, sum_operator_of, unary_operator_of};
ghost use Rattle.idl_tree.specs.reading.Reading.{first};

use crate::cursor::punctuation;
use idl_lex::Token;
use idl_lex::kinds::Mark;
use idl_tree::expression::{ProductOperator, ShiftOperator, SumOperator, UnaryOperator};

/// The shift that the next token is.
pub fn shift_operator(tokens: &[Token]) -> Option<ShiftOperator>
    ensures { result ≡ shift_operator_of (first (lexemes tokens.now)) }
{
    match punctuation(tokens) {
        Some(Mark::ShiftLeft) => Some(ShiftOperator::Left),
        Some(Mark::ShiftRight) => Some(ShiftOperator::Right),
        _ => None,
    }
}

/// The operator of a sum that the next token is.
pub fn sum_operator(tokens: &[Token]) -> Option<SumOperator>
    ensures { result ≡ sum_operator_of (first (lexemes tokens.now)) }
{
    match punctuation(tokens) {
        Some(Mark::Plus) => Some(SumOperator::Plus),
        Some(Mark::Minus) => Some(SumOperator::Minus),
        _ => None,
    }
}

/// The operator of a product that the next token is.
pub fn product_operator(tokens: &[Token]) -> Option<ProductOperator>
    ensures { result ≡ product_operator_of (first (lexemes tokens.now)) }
{
    match punctuation(tokens) {
        Some(Mark::Star) => Some(ProductOperator::Times),
        Some(Mark::Slash) => Some(ProductOperator::Divided),
        Some(Mark::Percent) => Some(ProductOperator::Remainder),
        _ => None,
    }
}

/// The operator before an operand that the next token is.
pub fn unary_operator(tokens: &[Token]) -> Option<UnaryOperator>
    ensures { result ≡ unary_operator_of (first (lexemes tokens.now)) }
{
    match punctuation(tokens) {
        Some(Mark::Minus) => Some(UnaryOperator::Minus),
        Some(Mark::Plus) => Some(UnaryOperator::Plus),
        Some(Mark::Tilde) => Some(UnaryOperator::Complement),
        _ => None,
    }
}
