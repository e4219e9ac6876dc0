//! What a token is for the cut into units.

ghost use Rattle.std.specs.Prelude.{◌≡◌};
ghost use Rattle.idl_unit.specs.Ending.{begins, edge, is_interface, role, role_of, rule_of};
ghost use Rattle.idl_lex.specs.declared.kinds.kind.TokenKind.TheVariants.{Punctuation};

use idl_lex::Token;
use idl_lex::kinds::{Keyword, Mark, TokenKind};

/// What a token is for the cut.
#[derive(Clone, Copy)]
pub enum Role {
    /// `{`
    OpenBrace,
    /// `}`
    CloseBrace,
    /// `;`
    Semicolon,
    /// `module`
    Module,
    /// `interface`
    Interface,
    /// `local`
    Local,
    /// Any other token.
    Other,
}

/// What tells where a unit ends: how it begins.
#[derive(Clone, Copy)]
pub enum Rule {
    /// It begins with `}`.
    Closing,
    /// It begins with `module`, `interface`, or `local` before `interface`.
    Heading,
    /// It begins with another token.
    Declaration,
}

/// What the token is for the cut.
pub fn role_of(token: &Token) -> Role
    ensures { result ≡ role token.now }
{
    match token.kind() {
        TokenKind::Punctuation(mark) => mark_role(mark),
        TokenKind::Accepted(Keyword::Module) => Role::Module,
        TokenKind::Accepted(Keyword::Interface) => Role::Interface,
        TokenKind::Accepted(Keyword::Local) => Role::Local,
        _ => Role::Other,
    }
}

/// The same, where a keyword is as any other token: none tells where a unit ends.
#[tactic(auto, using(crate::proofs::EndingLemmas::edge_word))]
pub fn edge_of(token: &Token) -> Role
    ensures { result ≡ edge (role token.now) }
{
    match token.kind() {
        TokenKind::Punctuation(mark) => mark_role(mark),
        _ => Role::Other,
    }
}

// What a mark is for the cut.
fn mark_role(mark: Mark) -> Role
    ensures role { result ≡ role_of (Punctuation mark) }
    ensures edge { edge result ≡ result }
{
    match mark {
        Mark::OpenBrace => Role::OpenBrace,
        Mark::CloseBrace => Role::CloseBrace,
        Mark::Semicolon => Role::Semicolon,
        _ => Role::Other,
    }
}

/// The rule for the unit that these tokens begin with.
pub fn rule_of(tokens: &[Token]) -> Rule
    ensures { result ≡ rule_of tokens.now }
{
    let [first, rest @ ..] = tokens else {
        return Rule::Declaration;
    };
    match role_of(first) {
        Role::CloseBrace => Rule::Closing,
        Role::Module | Role::Interface => Rule::Heading,
        Role::Local if begins_interface(rest) => Rule::Heading,
        _ => Rule::Declaration,
    }
}

// Whether `interface` comes first.
fn begins_interface(tokens: &[Token]) -> bool
    ensures { result ≡ begins is_interface tokens.now }
{
    match tokens {
        [first, ..] => is_interface(role_of(first)),
        [] => false,
    }
}

fn is_interface(role: Role) -> bool
    ensures { result ≡ is_interface role }
{
    match role {
        Role::Interface => true,
        _ => false,
    }
}
