//! A walk over the tokens of a file, line by line.

ghost use Rattle.std.specs.Prelude.{◌≡◌, ◌⊎◌, ◌≤◌, ◌<◌, ◌++◌, ◌∷◌, [], ◌↔◌, ◌+◌, IsTrue, drop, length, take, true};
ghost use Rattle.idl_text.specs.Chunk.{AreOfSomeFile, tokens_in_chunks};
ghost use Rattle.std.specs.List.{All};
ghost use Rattle.idl_lex.specs.tokens.Tokens.{BeginsLine, is_text, lines_of};

use crate::tokens::chunk::PlacedChunk;
use crate::tokens::file_tokens::FileTokens;
use std::marker::Model;

/// The tokens of a file that are left, from a place on. To every contract they are their list.
#[derive(Drop)]
pub struct TokensLeft<'a> {
    chunks: &'a [PlacedChunk],
    // The first of them: its chunk, its place in that, and how many tokens of the file are before it. Where none is left,
    // there is no such chunk.
    chunk: usize,
    place: usize,
    before: usize,
}

impl<'a> Model for TokensLeft<'a> {
    ghost use Rattle.std.specs.Prelude.{List, drop};
    ghost use Rattle.idl_text.specs.Chunk.{AreOfSomeFile, IsPlace, tokens_in_chunks};
    ghost use Rattle.idl_lex.specs.declared.tokens.token.PlacedToken.{PlacedToken};

    ghost Value = { List PlacedToken };

    ghost view = { λ left. drop left.before (tokens_in_chunks left.chunks.now) };

    ghost invariant = { λ left. AreOfSomeFile left.chunks.now
        × IsPlace left.chunks.now left.chunk left.place left.before };
}

impl<'a> TokensLeft<'a> {
    /// The tokens from a place of a chunk on, or of those behind it where it has fewer.
    pub(crate) fn new(
        chunks: &'a [PlacedChunk],
        near: usize,
        from: usize,
        before: usize,
    ) -> TokensLeft<'a>
        requires chunks { AreOfSomeFile chunks.now }
        requires place { before ≡ length (tokens_in_chunks (take near chunks.now)) + from }
        requires within { before ≤ length (tokens_in_chunks chunks.now) }
        ensures { result ≡ drop before (tokens_in_chunks chunks.now) }
    {
        let mut chunk = near;
        let mut place = from;
        'on: while chunk < chunks.len() && chunks[chunk].chunk.tokens.len() <= place {
            place -= chunks[chunk].chunk.tokens.len();
            chunk += 1;
        }
        TokensLeft {
            chunks,
            chunk,
            place,
            before,
        }
    }

    /// Whether no token is left.
    pub fn is_empty(&self) -> bool
        ensures { IsTrue result ↔ (self.now ≡ []) }
    {
        self.chunks.len() <= self.chunk
    }

    /// The tokens of the first line, and those after it.
    pub fn first_line(&self) -> (FileTokens<'a>, TokensLeft<'a>)
        requires { 0 < length self.now }
        ensures lines { lines_of self.now ≡ result.0 ∷ lines_of result.1 }
        ensures all { self.now ≡ result.0 ++ result.1 }
        ensures some { 0 < length result.0 }
    {
        let placed = &self.chunks[self.chunk];
        let here = FileTokens::new(&placed.chunk, placed.lines_before as u32, self.place);
        let count = here.first_line_len();
        let (line, _rest) = here.split_at(count);
        let rest = TokensLeft::new(
            self.chunks,
            self.chunk,
            self.place + count,
            self.before + count,
        );
        (line, rest)
    }

    /// The tokens of the lines that come first before one that begins with `#`, or of some of these lines, and those after
    /// them.
    pub fn first_text(&self) -> (FileTokens<'a>, TokensLeft<'a>)
        requires { 0 < length self.now }
        ensures lines { lines_of self.now ≡ lines_of result.0 ++ lines_of result.1 }
        ensures all { self.now ≡ result.0 ++ result.1 }
        ensures begins { (length result.0 ≡ 0) ⊎ BeginsLine result.1 }
        ensures text { All (λ line. is_text line ≡ true) (lines_of result.0) }
    {
        let placed = &self.chunks[self.chunk];
        let here = FileTokens::new(&placed.chunk, placed.lines_before as u32, self.place);
        let count = here.text_len();
        let (text, _rest) = here.split_at(count);
        let rest = TokensLeft::new(
            self.chunks,
            self.chunk,
            self.place + count,
            self.before + count,
        );
        (text, rest)
    }

    /// Those of the tokens that come first and stand in one chunk, so many at most, and those after them.
    pub(crate) fn first_part(&self, most: usize) -> (FileTokens<'a>, TokensLeft<'a>)
        requires left { 0 < length self.now }
        requires most { 0 < most }
        ensures all { self.now ≡ result.0 ++ result.1 }
        ensures some { 0 < length result.0 }
        ensures few { length result.0 ≤ most }
    {
        let placed = &self.chunks[self.chunk];
        let here = FileTokens::new(&placed.chunk, placed.lines_before as u32, self.place);
        let count = here.len().min(most);
        let (part, _rest) = here.split_at(count);
        let rest = TokensLeft::new(
            self.chunks,
            self.chunk,
            self.place + count,
            self.before + count,
        );
        (part, rest)
    }

    /// The same tokens again. It takes no memory.
    pub(crate) fn copied(&self) -> TokensLeft<'a>
        ensures { result ≡ self.now }
    {
        TokensLeft {
            chunks: self.chunks,
            chunk: self.chunk,
            place: self.place,
            before: self.before,
        }
    }
}
