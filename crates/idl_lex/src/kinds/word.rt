//! Words.

ghost use Rattle.std.specs.Prelude.{◌≡◌};
ghost use Rattle.std.specs.List.{list_all};
ghost use Rattle.idl_lex.specs.bytes.Byte.{is_word_byte};
ghost use Rattle.idl_lex.specs.kinds.Word.{is_word};

use crate::bytes::byte::{is_word_byte, is_word_start};

/// Whether these bytes are a word: a letter or `_`, and then letters, digits and `_`.
///
/// That is C's identifier. Of IDL (ISO/IEC 19516, 7.2.3) it may be a keyword, an identifier, an escaped one or none:
/// [`kind_of`](crate::kinds::kind_of) tells.
pub fn is_word(bytes: &[u8]) -> bool
    ensures { result ≡ is_word bytes.now }
{
    match bytes {
        [first, rest @ ..] => is_word_start(*first) && are_word_bytes(rest),
        [] => false,
    }
}

// Whether all bytes can stand in a word.
fn are_word_bytes(bytes: &[u8]) -> bool
    ensures { result ≡ list_all is_word_byte bytes.now }
{
    bytes.iter().all(|b| is_word_byte(*b))
}
