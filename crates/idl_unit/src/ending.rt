//! The first unit of tokens.

ghost use Rattle.std.specs.Prelude.{◌≡◌, ◌<◌, ◌≤◌, ◌∷◌, length, take, drop};
ghost use Rattle.idl_unit.specs.Ending.{begins, is_semicolon, rule_of, token_units};
ghost use Rattle.idl_unit.specs.declared.role.Rule.TheVariants as rule;

use crate::role::{Role, Rule, edge_of, role_of, rule_of};
use idl_lex::Token;

/// How many tokens the first unit of these has.
pub fn first_unit(tokens: &[Token]) -> usize
    requires { 0 < length tokens.now }
    ensures cut { token_units tokens.now
        ≡ take result tokens.now ∷ token_units (drop result tokens.now) }
    ensures some { 0 < result }
    ensures within { result ≤ length tokens.now }
{
    match rule_of(tokens) {
        Rule::Closing => closing_len(tokens),
        Rule::Heading => heading_len(tokens),
        Rule::Declaration => declaration_len(tokens),
    }
}

// A closing takes the `;` that follows directly, if one does.
fn closing_len(tokens: &[Token]) -> usize
    requires some { 0 < length tokens.now }
    requires rule { rule_of tokens.now ≡ rule.Closing }
    ensures cut { token_units tokens.now
        ≡ take result tokens.now ∷ token_units (drop result tokens.now) }
    ensures some { 0 < result }
    ensures within { result ≤ length tokens.now }
{
    if begins_semicolon(&tokens[1..]) { 2 } else { 1 }
}

// A heading goes through the first `{` or `;`, or ends before an earlier `}`.
fn heading_len(tokens: &[Token]) -> usize
    requires some { 0 < length tokens.now }
    requires rule { rule_of tokens.now ≡ rule.Heading }
    ensures cut { token_units tokens.now
        ≡ take result tokens.now ∷ token_units (drop result tokens.now) }
    ensures some { 0 < result }
    ensures within { result ≤ length tokens.now }
{
    for (index, token) in tokens.iter().enumerate() {
        match edge_of(token) {
            Role::OpenBrace => return index + 1,
            Role::Semicolon => return index + 1,
            Role::CloseBrace => return index,
            _ => {}
        }
    }
    tokens.len()
}

// A declaration goes through the first `;` outside its own braces, or ends before a `}` that closes none
// of them.
fn declaration_len(tokens: &[Token]) -> usize
    requires some { 0 < length tokens.now }
    requires rule { rule_of tokens.now ≡ rule.Declaration }
    ensures cut { token_units tokens.now
        ≡ take result tokens.now ∷ token_units (drop result tokens.now) }
    ensures some { 0 < result }
    ensures within { result ≤ length tokens.now }
{
    let mut depth = 0usize;
    for (index, token) in tokens.iter().enumerate() {
        match edge_of(token) {
            Role::OpenBrace => depth += 1,
            Role::CloseBrace => {
                if depth == 0 {
                    return index;
                }
                depth -= 1;
            }
            Role::Semicolon => {
                if depth == 0 {
                    return index + 1;
                }
            }
            _ => {}
        }
    }
    tokens.len()
}

// Whether `;` comes first.
fn begins_semicolon(tokens: &[Token]) -> bool
    ensures { result ≡ begins is_semicolon tokens.now }
{
    match tokens {
        [first, ..] => is_semicolon(role_of(first)),
        [] => false,
    }
}

fn is_semicolon(role: Role) -> bool
    ensures { result ≡ is_semicolon role }
{
    match role {
        Role::Semicolon => true,
        _ => false,
    }
}
