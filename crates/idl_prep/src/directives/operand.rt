//! Operands of includes.

ghost use Rattle.std.specs.Prelude.{◌≡◌, IfOk};
ghost use Rattle.idl_prep.specs.Include.{begins_quoted, inner, is_closed, is_header_kind, is_string, operand_given, operand_in};

use idl_base::Bytes;
use idl_lex::Token;
use idl_lex::kinds::{Defect, TokenKind};
use std::alloc::AllocError;
use std::marker::Model;

/// An operand: how it is spelled, with its delimiters, and whether these are quotes.
#[derive(Drop)]
pub struct IncludeOperand {
    pub spelling: Bytes,
    pub is_quoted: bool,
}

impl Model for IncludeOperand {
    ghost use Rattle.idl_prep.specs.Include as spec;

    ghost Value = { spec.Operand };

    ghost view = { λ o. record {
      name = spec.inner o.spelling;
      is_quoted = o.is_quoted;
      spelling = o.spelling;
    } };
}

impl IncludeOperand {
    /// The bytes between the delimiters, which name a file.
    pub fn name(&self) -> &[u8]
        ensures { result.now ≡ self.now.name }
    {
        inner(self.spelling.as_bytes())
    }

    /// How it is spelled, with its delimiters.
    pub fn spelling(&self) -> &Bytes
        ensures { result.now ≡ self.now.spelling }
    {
        &self.spelling
    }

    /// Whether its delimiters are quotes.
    pub fn is_quoted(&self) -> bool
        ensures { result ≡ self.now.is_quoted }
    {
        self.is_quoted
    }
}

/// The operand that a token of the line is: a string that is closed on the line, or a name in `<` and `>`.
pub fn operand_in(token: &Token) -> Result<Option<IncludeOperand>, AllocError>
    ensures { IfOk result (λ operand. operand ≡ operand_in token.now) }
{
    let is_quoted = is_string(token);
    if is_quoted || is_header(token.kind()) {
        return Ok(Some(IncludeOperand {
            spelling: token.spelling().clone()?,
            is_quoted,
        }));
    }
    Ok(None)
}

/// The operand that the tokens of a macro give: one string.
pub fn operand_given(tokens: &[Token]) -> Result<Option<IncludeOperand>, AllocError>
    ensures { IfOk result (λ operand. operand ≡ operand_given tokens.now) }
{
    match tokens {
        [token] if is_string(token) => operand_in(token),
        _ => Ok(None),
    }
}

// Whether the token is a string that is closed on its line, whatever its escapes are.
fn is_string(token: &Token) -> bool
    ensures { result ≡ is_string token.now }
{
    begins_quoted(token.as_bytes()) && is_closed(token.kind())
}

fn begins_quoted(bytes: &[u8]) -> bool
    ensures { result ≡ begins_quoted bytes.now }
{
    matches!(bytes, [b'"', ..])
}

fn is_closed(kind: TokenKind) -> bool
    ensures { result ≡ is_closed kind }
{
    matches!(kind, TokenKind::String | TokenKind::Bad(Defect::BadEscape))
}

fn is_header(kind: TokenKind) -> bool
    ensures { result ≡ is_header_kind kind }
{
    matches!(kind, TokenKind::HeaderName)
}

// The bytes between the first and the last.
fn inner(bytes: &[u8]) -> &[u8]
    ensures { result.now ≡ inner bytes.now }
{
    match bytes {
        [_, inner @ .., _] => inner,
        _ => &[],
    }
}
