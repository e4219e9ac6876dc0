//! A walk over tokens, each where it begins.

ghost use Rattle.std.specs.Prelude.{◌≡◌, ◌∷◌, [], MatchOption};
ghost use Rattle.idl_text.specs.Starts.{starts_in, starts_left};

use crate::tokens::file_tokens::{FileToken, FileTokens};
use idl_lex::TextLeft;

/// Tokens that are left, and the text in which they begin: so each is told with how many bytes of its line are before it.
#[derive(Drop)]
pub struct StartsLeft<'a> {
    tokens: FileTokens<'a>,
    text: TextLeft<'a>,
}

/// The tokens of a chunk, each where it begins, with how many lines of the file are before the chunk and how many it has.
#[derive(Drop)]
pub struct ChunkStarts<'a> {
    pub before: usize,
    pub count: usize,
    pub starts: StartsLeft<'a>,
}

impl<'a> StartsLeft<'a> {
    /// These tokens in this text.
    pub fn new(tokens: FileTokens<'a>, text: TextLeft<'a>) -> StartsLeft<'a>
        ensures { starts_left result ≡ starts_in tokens.entry text.entry }
    {
        StartsLeft { tokens, text }
    }

    /// The same tokens again. It takes no memory.
    pub fn copied(&self) -> StartsLeft<'a>
        ensures { starts_left result ≡ starts_left self.now }
    {
        StartsLeft {
            tokens: self.tokens.copied(),
            text: self.text.copied(),
        }
    }

    /// The next token, with how many bytes of its line are before it.
    pub fn next(&mut self) -> Option<(FileToken<'a>, usize)>
        ensures { MatchOption result (starts_left self.old ≡ [])
            (λ start. starts_left self.old ≡ start ∷ starts_left self.new) }
    {
        let Some((token, others)) = self.tokens.split_first() else {
            return None;
        };
        let text = self.text.behind_gaps();
        let Some((first, _rest)) = text.split_first() else {
            return None;
        };
        self.tokens = others;
        self.text = text.behind_bytes(token.token().as_bytes().len());
        Some((token, first.column))
    }
}
