//! The lines of a text, chunk by chunk.

ghost use Rattle.std.specs.Prelude.{◌≡◌, ◌<◌, ◌≤◌, ◌++◌, [], MatchOption, length, take};
ghost use Rattle.idl_text.specs.Texts.{AreWordsOf};

use crate::tokens::file_tokens::FileTokens;
use crate::tokens::tokens_left::TokensLeft;
use idl_lex::Token;
use std::marker::Model;

/// Lines of a file that follow one another, no directive among them, and their words. To every contract they are the list of
/// their tokens.
#[derive(Drop)]
pub struct TextLines<'a> {
    parts: TextParts<'a>,
    words: &'a [Token],
}

impl<'a> Model for TextLines<'a> {
    ghost use Rattle.std.specs.Prelude.{List};
    ghost use Rattle.idl_lex.specs.declared.tokens.token.PlacedToken.{PlacedToken};
    ghost use Rattle.idl_text.specs.Texts.{AreWordsOf};

    ghost Value = { List PlacedToken };

    ghost view = { λ text. text.parts };

    ghost invariant = { λ text. AreWordsOf text.parts text.words.now };
}

impl<'a> TextLines<'a> {
    /// The first so many of these tokens, which have these words.
    pub(crate) fn new(tokens: TokensLeft<'a>, count: usize, words: &'a [Token]) -> TextLines<'a>
        requires within { count ≤ length tokens }
        requires words { AreWordsOf (take count tokens) words.now }
        ensures { result ≡ take count tokens.entry }
    {
        TextLines {
            parts: TextParts::new(tokens, count),
            words,
        }
    }

    /// How many tokens there are.
    pub fn len(&self) -> usize
        ensures { result ≡ length self.now }
    {
        self.parts.len()
    }

    /// The words that stand there, in the order in which they do so first. Some may be given twice.
    pub fn words(&self) -> &'a [Token]
        ensures { AreWordsOf self.now result.now }
    {
        self.words
    }

    /// All tokens, chunk by chunk. It takes no memory.
    pub fn parts(&self) -> TextParts<'a>
        ensures { result ≡ self.now }
    {
        self.parts.copied()
    }
}

/// The tokens of a text that are left, from one on. To every contract they are their list.
#[derive(Drop)]
pub struct TextParts<'a> {
    // All tokens of the file that are left, and how many of them are of the text.
    tokens: TokensLeft<'a>,
    count: usize,
}

impl<'a> Model for TextParts<'a> {
    ghost use Rattle.std.specs.Prelude.{◌≤◌, List, length, take};
    ghost use Rattle.idl_lex.specs.declared.tokens.token.PlacedToken.{PlacedToken};

    ghost Value = { List PlacedToken };

    ghost view = { λ parts. take parts.count parts.tokens };

    ghost invariant = { λ parts. parts.count ≤ length parts.tokens };
}

impl<'a> TextParts<'a> {
    // The first so many of these tokens.
    fn new(tokens: TokensLeft<'a>, count: usize) -> TextParts<'a>
        requires { count ≤ length tokens }
        ensures { result ≡ take count tokens.entry }
    {
        TextParts { tokens, count }
    }

    // How many tokens there are.
    fn len(&self) -> usize
        ensures { result ≡ length self.now }
    {
        self.count
    }

    // The same tokens again. It takes no memory.
    fn copied(&self) -> TextParts<'a>
        ensures { result ≡ self.now }
    {
        TextParts {
            tokens: self.tokens.copied(),
            count: self.count,
        }
    }

    /// Those of them that come first and stand in one chunk, and those after them.
    pub fn split_first(&self) -> Option<(FileTokens<'a>, TextParts<'a>)>
        ensures { MatchOption result (self.now ≡ []) (λ parts.
            (self.now ≡ parts.0 ++ parts.1) × (0 < length parts.0)) }
    {
        if self.count == 0 {
            return None;
        }
        let (part, tokens) = self.tokens.first_part(self.count);
        let rest = TextParts {
            tokens,
            count: self.count - part.len(),
        };
        Some((part, rest))
    }
}
