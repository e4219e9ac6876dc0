//! Texts of faults.

ghost use Rattle.std.specs.Prelude.{◌≡◌, IfOk};
ghost use Rattle.idl_prep.specs.Directive.{parted};

use idl_base::Bytes;
use idl_lex::Token;
use std::alloc::{AllocError, Global};

/// A text of these bytes.
pub fn text_of(alloc: Global, bytes: &[u8]) -> Result<Bytes, AllocError>
    ensures { IfOk result (λ text. text ≡ bytes.now) }
{
    Bytes::from_slice(alloc, bytes)
}

/// The text of the tokens, parted by one blank.
pub fn parted(alloc: Global, tokens: &[Token]) -> Result<Bytes, AllocError>
    ensures { IfOk result (λ text. text ≡ parted tokens.now) }
{
    let mut text = Vec::new(alloc);
    'tokens: for token in tokens {
        text.extend_from_slice(b" ")?;
        text.extend_from_slice(token.as_bytes())?;
    }
    match text.as_slice() {
        [_blank, rest @ ..] => Ok(text_of(alloc, rest)?),
        [] => Ok(text_of(alloc, b"")?),
    }
}
