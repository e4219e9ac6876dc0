//! Which units open a scope, and which close one.

ghost use Rattle.std.specs.Prelude.{◌≡◌};
ghost use Rattle.idl_unit.specs.Ending.{opens};
ghost use Rattle.idl_unit.specs.Scoping.{brace_from, is_closing, is_opening, opening_brace};

use crate::role::{Role, Rule, role_of, rule_of};
use crate::unit::UnitText;
use idl_lex::Token;

impl UnitText {
    /// Whether it is an opening, which opens a scope whether it is faulty or not.
    pub fn is_opening(&self) -> bool
        ensures { result ≡ is_opening self.now }
    {
        match self {
            UnitText::Tokens(tokens) => opening_brace(tokens.as_slice()).is_some(),
            UnitText::Pragma(_tokens, _inside) => false,
        }
    }

    /// Whether it is a closing, which closes the innermost scope that is open, faulty or not.
    pub fn is_closing(&self) -> bool
        ensures { result ≡ is_closing self.now }
    {
        match self {
            UnitText::Tokens(tokens) => matches!(rule_of(tokens.as_slice()), Rule::Closing),
            UnitText::Pragma(_tokens, _inside) => false,
        }
    }
}

/// The number of the `{` of an opening, if the tokens are one.
pub fn opening_brace(tokens: &[Token]) -> Option<usize>
    ensures { result ≡ opening_brace tokens.now }
{
    match rule_of(tokens) {
        Rule::Heading => first_brace(tokens),
        Rule::Closing | Rule::Declaration => None,
    }
}

// The number of the first `{`.
fn first_brace(tokens: &[Token]) -> Option<usize>
    ensures { result ≡ brace_from 0 tokens.now }
{
    for (index, token) in tokens.iter().enumerate() {
        if opens(role_of(token)) {
            return Some(index);
        }
    }
    None
}

fn opens(role: Role) -> bool
    ensures { result ≡ opens role }
{
    match role {
        Role::OpenBrace => true,
        _ => false,
    }
}
