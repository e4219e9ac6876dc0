//! Tokens that are lent, where they stand in a file.

ghost use Rattle.std.specs.Prelude.{◌≡◌, ◌≤◌, ◌<◌, ◌+◌, ◌++◌, ◌∷◌, ◌⊎◌, ◌↔◌, [], IsTrue, true, drop, length, map, not, take, IfOk, MatchOption, Some, slice_get};
ghost use Rattle.std.specs.List.{All, prefix_len};
ghost use Rattle.idl_text.specs.Moved.{moved_tokens};
ghost use Rattle.idl_lex.specs.tokens.Tokens.{BeginsLine, followers_on_line, is_text, lines_of, tokens_in};
ghost use Rattle.idl_lex.specs.declared.tokens.chunk_tokens.TokenPlace as place;
ghost use Rattle.idl_lex.specs.declared.tokens.token.PlacedToken as spec;

use crate::tokens::chunk::Chunk;
use crate::tokens::token_range::TokenRange;
use idl_lex::{ChunkTokens, Token, TokenPlace};
use std::alloc::AllocError;
use std::marker::Model;
use std::rc::Rc;

/// A token of a chunk, where it stands in a file.
#[derive(Drop)]
pub struct FileToken<'a> {
    token: &'a Token,
    place: TokenPlace,
    lines_before: u32,
}

impl<'a> Model for FileToken<'a> {
    ghost use Rattle.std.specs.Prelude.{◌≤◌};
    ghost use Rattle.idl_lex.specs.tokens.Apart.{placed_at};
    ghost use Rattle.idl_text.specs.Moved.{moved_token};
    ghost use Rattle.idl_lex.specs.declared.tokens.token.PlacedToken as spec;

    ghost Value = { spec.PlacedToken };

    ghost view = { λ it. moved_token it.lines_before (placed_at it.token.now it.place) };

    ghost invariant = { λ it. (it.lines_before ≤ 200000) × (it.place.line ≤ 200000) };
}

impl<'a> FileToken<'a> {
    /// The token.
    pub fn token(&self) -> &'a Token
        ensures { result.now ≡ self.now.token }
    {
        self.token
    }

    /// The number of its line in the file.
    pub fn line(&self) -> u32
        ensures { result ≡ self.now.line }
    {
        self.lines_before + self.place.line
    }

    /// Whether it is the first token of its line.
    pub fn starts_line(&self) -> bool
        ensures { result ≡ self.now.starts_line }
    {
        self.place.starts_line
    }

    /// Whether a word ends where it begins.
    pub fn follows_word(&self) -> bool
        ensures { result ≡ self.now.follows_word }
    {
        self.place.follows_word
    }
}

/// Tokens of a chunk from one place up to another, where they stand in a file. To every contract they are their list.
#[derive(Drop)]
pub struct FileTokens<'a> {
    tokens: &'a ChunkTokens,
    lines_before: u32,
    from: usize,
    to: usize,
}

impl<'a> Model for FileTokens<'a> {
    ghost use Rattle.std.specs.Prelude.{◌≤◌, List, length, slice_range};
    ghost use Rattle.std.specs.List.{All};
    ghost use Rattle.idl_text.specs.Moved.{moved_tokens};
    ghost use Rattle.idl_lex.specs.declared.tokens.token.PlacedToken.{PlacedToken};

    ghost Value = { List PlacedToken };

    ghost view = { λ range.
        moved_tokens range.lines_before (slice_range range.tokens.now range.from range.to) };

    ghost invariant = { λ range. (range.from ≤ range.to)
        × (range.to ≤ length range.tokens.now)
        × (range.lines_before ≤ 200000)
        × All (λ (t : PlacedToken). t.line ≤ 200000) range.tokens.now };
}

impl<'a> FileTokens<'a> {
    /// The tokens of a chunk from a place on, where so many lines of the file are before the chunk.
    pub(crate) fn new(chunk: &'a Rc<Chunk>, lines_before: u32, from: usize) -> FileTokens<'a>
        requires within { from ≤ length chunk.now.value.tokens }
        requires lines { lines_before ≤ 200000 }
        requires numbers { All (λ (t : spec.PlacedToken). t.line ≤ 200000)
            chunk.now.value.tokens }
        ensures { result ≡ moved_tokens lines_before (drop from chunk.now.value.tokens) }
    {
        let tokens = &chunk.tokens;
        FileTokens {
            tokens,
            lines_before,
            from,
            to: tokens.len(),
        }
    }

    /// How many tokens there are.
    pub fn len(&self) -> usize
        ensures { result ≡ length self.now }
    {
        self.to - self.from
    }

    /// Whether there are none.
    pub fn is_empty(&self) -> bool
        ensures { IsTrue result ↔ (self.now ≡ []) }
    {
        self.len() == 0
    }

    /// The same tokens again. It takes no memory.
    pub fn copied(&self) -> FileTokens<'a>
        ensures { result ≡ self.now }
    {
        FileTokens {
            tokens: self.tokens,
            lines_before: self.lines_before,
            from: self.from,
            to: self.to,
        }
    }

    /// The tokens in order, without their places.
    pub fn as_slice(&self) -> &'a [Token]
        ensures { result.now ≡ tokens_in self.now }
    {
        &self.tokens.tokens().as_slice()[self.from..self.to]
    }

    /// The number of a token's line in the file.
    pub fn line_at(&self, index: usize) -> u32
        requires { index < length self.now }
        ensures { slice_get (map (λ (t : spec.PlacedToken). t.line) self.now) index ≡ Some result }
    {
        self.lines_before + self.tokens.places()[self.from + index].line
    }

    // How many tokens stand on the first line.
    pub(crate) fn first_line_len(&self) -> usize
        requires { 0 < length self.now }
        ensures len { result ≡ 1 + followers_on_line (drop 1 self.now) }
        ensures within { result ≤ length self.now }
    {
        1 + line_rest(&self.tokens.places()[self.from + 1..self.to])
    }

    // How many tokens stand on the first lines before one that begins with `#`.
    pub(crate) fn text_len(&self) -> usize
        ensures within { result ≤ length self.now }
        ensures begins { (result ≡ 0) ⊎ BeginsLine (drop result self.now) }
        ensures text { All (λ line. is_text line ≡ true) (lines_of (take result self.now)) }
    {
        let tokens = self.as_slice();
        let places = &self.tokens.places()[self.from..self.to];
        let mut count = 0;
        'lines: while count < tokens.len() {
            if tokens[count].as_bytes() == b"#".as_slice() {
                return count;
            }
            count += 1 + line_rest(&places[count + 1..]);
        }
        count
    }

    /// The first token, and those after it.
    pub fn split_first(&self) -> Option<(FileToken<'a>, FileTokens<'a>)>
        ensures { MatchOption result (self.now ≡ []) (λ parts. self.now ≡ parts.0 ∷ parts.1) }
    {
        if self.from == self.to {
            return None;
        }
        let first = FileToken {
            token: &self.tokens.tokens()[self.from],
            place: self.tokens.places()[self.from],
            lines_before: self.lines_before,
        };
        let rest = FileTokens {
            tokens: self.tokens,
            lines_before: self.lines_before,
            from: self.from + 1,
            to: self.to,
        };
        Some((first, rest))
    }

    /// The first `count` tokens, and those after them.
    pub fn split_at(&self, count: usize) -> (FileTokens<'a>, FileTokens<'a>)
        requires { count ≤ length self.now }
        ensures front { result.0 ≡ take count self.now }
        ensures back { result.1 ≡ drop count self.now }
    {
        let middle = self.from + count;
        let first = FileTokens {
            tokens: self.tokens,
            lines_before: self.lines_before,
            from: self.from,
            to: middle,
        };
        let rest = FileTokens {
            tokens: self.tokens,
            lines_before: self.lines_before,
            from: middle,
            to: self.to,
        };
        (first, rest)
    }

    /// The tokens, shared with their chunk from now on. Numbers from the first 2^32 on are as want of memory.
    pub fn shared(&self) -> Result<TokenRange, AllocError>
        ensures { IfOk result (λ range. range ≡ tokens_in self.now) }
    {
        TokenRange::new(self.tokens.tokens().clone()?, self.from, self.to)
    }
}

// How many of these tokens come before one that begins a line.
fn line_rest(places: &[TokenPlace]) -> usize
    ensures len { result ≡ prefix_len (λ (p : place.TokenPlace). not p.starts_line) places.now }
    ensures within { result ≤ length places.now }
{
    places.iter().take_while(|place| !place.starts_line).count()
}
