//! The marks of a condition.

ghost use Rattle.std.specs.Prelude.{◌≡◌};
ghost use Rattle.idl_macro.specs.conditions.Mark.{mark_of, symbol_of_mark, symbol_of_preprocessor_mark};

use crate::conditions::operator::Operator;
use crate::conditions::symbol::ConditionSymbol;
use idl_lex::kinds::{Mark, PreprocessorMark, TokenKind, mark_kind};

/// What the mark with this spelling counts as; any other text is `Other`.
pub fn mark(spelling: &[u8]) -> ConditionSymbol
    ensures { result ≡ mark_of spelling.now }
{
    match mark_kind(spelling) {
        Some(TokenKind::Punctuation(mark)) => symbol_of_mark(mark),
        Some(TokenKind::Preprocessing(mark)) => symbol_of_preprocessor_mark(mark),
        _ => ConditionSymbol::Other,
    }
}

fn symbol_of_mark(mark: Mark) -> ConditionSymbol
    ensures { result ≡ symbol_of_mark mark }
{
    match mark {
        Mark::OpenParenthesis => ConditionSymbol::Open,
        Mark::CloseParenthesis => ConditionSymbol::Close,
        Mark::Tilde => ConditionSymbol::Complement,
        Mark::Star => ConditionSymbol::Operator(Operator::Multiply),
        Mark::Slash => ConditionSymbol::Operator(Operator::Divide),
        Mark::Percent => ConditionSymbol::Operator(Operator::Remainder),
        Mark::Plus => ConditionSymbol::Operator(Operator::Add),
        Mark::Minus => ConditionSymbol::Operator(Operator::Subtract),
        Mark::ShiftLeft => ConditionSymbol::Operator(Operator::ShiftLeft),
        Mark::ShiftRight => ConditionSymbol::Operator(Operator::ShiftRight),
        Mark::Less => ConditionSymbol::Operator(Operator::Less),
        Mark::Greater => ConditionSymbol::Operator(Operator::Greater),
        Mark::Ampersand => ConditionSymbol::Operator(Operator::BitAnd),
        Mark::Caret => ConditionSymbol::Operator(Operator::BitXor),
        Mark::Bar => ConditionSymbol::Operator(Operator::BitOr),
        _ => ConditionSymbol::Other,
    }
}

fn symbol_of_preprocessor_mark(mark: PreprocessorMark) -> ConditionSymbol
    ensures { result ≡ symbol_of_preprocessor_mark mark }
{
    match mark {
        PreprocessorMark::Exclamation => ConditionSymbol::Not,
        PreprocessorMark::LessEquals => ConditionSymbol::Operator(Operator::LessOrEqual),
        PreprocessorMark::GreaterEquals => ConditionSymbol::Operator(Operator::GreaterOrEqual),
        PreprocessorMark::EqualsEquals => ConditionSymbol::Operator(Operator::Equal),
        PreprocessorMark::NotEquals => ConditionSymbol::Operator(Operator::NotEqual),
        PreprocessorMark::AndAnd => ConditionSymbol::Operator(Operator::And),
        PreprocessorMark::OrOr => ConditionSymbol::Operator(Operator::Or),
        _ => ConditionSymbol::Other,
    }
}
