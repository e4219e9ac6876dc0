//! The tokens that may not stand in a unit, or not there.

ghost use Rattle.std.specs.Prelude.{◌≡◌, ◌<◌, ◌+◌, ◌-◌, ◌^◌, Some, None, cond, length, nat_lt, IfSome};
ghost use Rattle.std.specs.List.{list_all};
ghost use Rattle.std.specs.Option.{option_to_list};
ghost use Rattle.idl_lex.specs.kinds.Kind.{kind_of};
ghost use Rattle.idl_unit.specs.Faults.{least_fault};
ghost use Rattle.idl_unit.specs.TokenRules.{bad_codes, codes_beside, defect_code, first, is_const, is_harmless, is_left_out, is_long, is_other_width, nests, token_faults, unnests};

use crate::fault::Fault;
use idl_fault::Code;
use idl_lex::Token;
use idl_lex::kinds::{Defect, Keyword, Mark, TokenKind};

/// How deep brackets may stand in one another.
pub const MAX_NESTING: usize = 64;

/// The least fault of a unit of tokens by itself: the first token that may not stand there, with the least code.
pub fn token_fault(unit: &[Token]) -> Option<Fault>
    ensures least { result ≡ least_fault (token_faults unit.now) }
    ensures within { IfSome result (λ fault. fault.index < length unit.now) }
{
    if unit.len() <= MAX_NESTING && are_harmless(unit) {
        return None;
    }
    first_fault(unit)
}

// Whether no token of these has a fault, unless too many brackets are open.
fn are_harmless(unit: &[Token]) -> bool
    ensures { result ≡ list_all (λ token. is_harmless (kind_of token)) unit.now }
{
    unit.iter().all(|token| is_harmless(token.kind()))
}

// Whether a token of this kind has no fault beside others of such kinds, unless too many brackets are open.
fn is_harmless(kind: TokenKind) -> bool
    ensures { result ≡ is_harmless kind }
{
    match kind {
        TokenKind::Bad(_) | TokenKind::Preprocessing(_) => false,
        TokenKind::Refused | TokenKind::Miscased | TokenKind::WideString => false,
        TokenKind::Accepted(_) => !is_const(Some(kind)),
        _ => true,
    }
}

// The least fault of a unit, which is looked for token by token.
fn first_fault(unit: &[Token]) -> Option<Fault>
    ensures least { result ≡ least_fault (token_faults unit.now) }
    ensures within { IfSome result (λ fault. fault.index < length unit.now) }
{
    let mut before = TokenContext::nothing();
    for (index, token) in unit.iter().enumerate() {
        let kind = token.kind();
        let through = before.with(kind);
        if let Some(code) = token_code(kind, before, through.is_too_deep()) {
            return Some(Fault { index, code });
        }
        before = through;
    }
    None
}

// What stands before a token, as far as the rules of the token depend on it.
#[derive(Clone, Copy)]
struct TokenContext {
    // The kind of the token directly before it.
    last: Option<TokenKind>,
    // The kind of the one before that.
    second: Option<TokenKind>,
    // How many brackets are opened.
    opened: usize,
    // How many are closed.
    closed: usize,
}

impl TokenContext {
    fn nothing() -> TokenContext
        ensures { result ≡ record { last = None; second = None; opened = 0; closed = 0 } }
    {
        TokenContext {
            last: None,
            second: None,
            opened: 0,
            closed: 0,
        }
    }

    // With a token of this kind more.
    fn with(self, kind: TokenKind) -> TokenContext
        requires opened { self.opened < 2 ^ 64 - 1 }
        requires closed { self.closed < 2 ^ 64 - 1 }
        ensures last { result.last ≡ Some kind }
        ensures second { result.second ≡ self.last }
        ensures opened { result.opened ≡ cond (nests kind) 1 0 + self.opened }
        ensures closed { result.closed ≡ cond (unnests kind) 1 0 + self.closed }
    {
        TokenContext {
            last: Some(kind),
            second: self.last,
            opened: self.opened + usize::from(nests(kind)),
            closed: self.closed + usize::from(unnests(kind)),
        }
    }

    // Whether too many brackets are open.
    fn is_too_deep(self) -> bool
        ensures { result ≡ nat_lt (self.closed + 64) self.opened }
    {
        self.opened.saturating_sub(self.closed) > MAX_NESTING
    }
}

// The least code of a token of this kind, if it has one. With it too many brackets are open, or not.
fn token_code(kind: TokenKind, before: TokenContext, is_too_deep: bool) -> Option<Code>
    ensures { result ≡ first (codes_beside kind before.last before.second is_too_deep) }
{
    if let Some(code) = bad_code(kind) {
        return Some(code);
    }
    if is_other_width(kind, before.last) {
        return Some(Code::MixedWidths);
    }
    if is_left_out(kind, before.last, before.second) {
        return Some(Code::LeftOut);
    }
    if is_too_deep {
        return Some(Code::NestedTooDeep);
    }
    match kind {
        TokenKind::Miscased => Some(Code::LikeKeyword),
        _ => None,
    }
}

// The code of a bad token, and of a mark that the preprocessor alone knows.
fn bad_code(kind: TokenKind) -> Option<Code>
    ensures { option_to_list result ≡ bad_codes kind }
{
    match kind {
        TokenKind::Bad(defect) => Some(defect_code(defect)),
        TokenKind::Preprocessing(_) => Some(Code::BadToken),
        _ => None,
    }
}

// The code of a bad token.
fn defect_code(defect: Defect) -> Code
    ensures { result ≡ defect_code defect }
{
    match defect {
        Defect::UnknownByte | Defect::NothingEscaped => Code::BadToken,
        Defect::UnclosedLiteral => Code::UnclosedLiteral,
        Defect::NotOneCharacter => Code::NotOneCharacter,
        Defect::BadEscape => Code::BadEscape,
        Defect::MalformedInteger => Code::MalformedInteger,
        Defect::FloatingLiteral => Code::FloatingLiteral,
        Defect::IntegerTooLarge => Code::IntegerTooLarge,
        Defect::UnclosedComment => Code::UnclosedComment,
    }
}

// Whether a string literal comes directly after one of the other width.
fn is_other_width(kind: TokenKind, last: Option<TokenKind>) -> bool
    ensures { result ≡ is_other_width kind last }
{
    match (kind, last) {
        (TokenKind::WideString, Some(TokenKind::String)) => true,
        (TokenKind::String, Some(TokenKind::WideString)) => true,
        _ => false,
    }
}

// Whether the token is a refused keyword, or one that stands for a floating constant's type.
fn is_left_out(kind: TokenKind, last: Option<TokenKind>, second: Option<TokenKind>) -> bool
    ensures { result ≡ is_left_out kind last second }
{
    match kind {
        TokenKind::Refused => true,
        TokenKind::Accepted(Keyword::Float) => is_const(last),
        TokenKind::Accepted(Keyword::Double) => is_const(last) || is_long(last) && is_const(second),
        _ => false,
    }
}

fn is_const(kind: Option<TokenKind>) -> bool
    ensures { result ≡ is_const kind }
{
    match kind {
        Some(TokenKind::Accepted(Keyword::Const)) => true,
        _ => false,
    }
}

fn is_long(kind: Option<TokenKind>) -> bool
    ensures { result ≡ is_long kind }
{
    match kind {
        Some(TokenKind::Accepted(Keyword::Long)) => true,
        _ => false,
    }
}

// Whether it is `{`, `(`, `[` or `<`.
fn nests(kind: TokenKind) -> bool
    ensures { result ≡ nests kind }
{
    match kind {
        TokenKind::Punctuation(Mark::OpenBrace | Mark::OpenParenthesis) => true,
        TokenKind::Punctuation(Mark::OpenBracket | Mark::Less) => true,
        _ => false,
    }
}

// Whether it is `}`, `)`, `]` or `>`.
fn unnests(kind: TokenKind) -> bool
    ensures { result ≡ unnests kind }
{
    match kind {
        TokenKind::Punctuation(Mark::CloseBrace | Mark::CloseParenthesis) => true,
        TokenKind::Punctuation(Mark::CloseBracket | Mark::Greater) => true,
        _ => false,
    }
}
