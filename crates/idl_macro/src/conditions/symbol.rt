//! What a token counts as in a condition.

ghost use Rattle.std.specs.Prelude.{◌≡◌};
ghost use Rattle.idl_macro.specs.conditions.Symbol.{symbol_of};

use crate::conditions::mark::mark;
use crate::conditions::number::integer;
use crate::conditions::operator::Operator;
use idl_lex::is_word;

/// What a token counts as in a condition.
#[derive(Clone, Copy)]
pub enum ConditionSymbol {
    /// An integer without sign. One of 2^63 or more is an overflow where it is evaluated.
    Number(u64),
    /// A name that is no macro, a keyword too. Its value is 0.
    Name,
    /// An operator between two operands; `+` and `-` may also stand before one.
    Operator(Operator),
    /// `!`
    Not,
    /// `~`
    Complement,
    /// `(`
    Open,
    /// `)`
    Close,
    /// Anything else. No condition has it.
    Other,
}

impl ConditionSymbol {
    /// The symbol that the token with this spelling is (C 2011, 6.4 and 6.10.1).
    ///
    /// An integer is as in C, with any number of the letters `u`, `U`, `l` and `L` behind it in any order, and is below
    /// 2^64.
    pub fn from_spelling(spelling: &[u8]) -> ConditionSymbol
        ensures { result ≡ symbol_of spelling.now }
    {
        if is_word(spelling) {
            return ConditionSymbol::Name;
        }
        match integer(spelling) {
            Some(value) => ConditionSymbol::Number(value),
            None => mark(spelling),
        }
    }
}
