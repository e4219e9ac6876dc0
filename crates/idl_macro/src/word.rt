//! The words of macros.

ghost use Rattle.std.specs.Prelude.{◌≡◌};
ghost use Rattle.idl_macro.specs.Words.{is_macro_word};

use idl_lex::is_word;

/// Whether a macro can have this word: any word but `defined`.
pub fn is_macro_word(word: &[u8]) -> bool
    ensures { result ≡ is_macro_word word.now }
{
    is_word(word) && word != b"defined".as_slice()
}
