//! The tokens of a file.
//!
//! Tokens are numbered within their chunk, so a later text takes a chunk over by one pointer wherever its lines come to
//! stand.

ghost use Rattle.std.specs.Prelude.{◌≡◌, ◌≤◌, ◌+◌, ◌<◌, ◌^◌, ◌++◌, ◌∷◌, ◌↔◌, [], ℕ, List, drop, length, IfOk, IfSome, MatchOption, OnOk};
ghost use Rattle.idl_text.specs.Chunk.{AreChunks, IsChunk, lines_in_chunks};
ghost use Rattle.idl_lex.specs.bytes.Context.{line_start};
ghost use Rattle.idl_text.specs.Cut.{AreTokensOf};
ghost use Rattle.idl_text.specs.Starts.{IsLaidOut, on_line, starts_left, starts_of};
ghost use Rattle.idl_lex.specs.bytes.Text.{joined};
ghost use Rattle.idl_lex.specs.tokens.Tokens.{tokens_of};
ghost use Rattle.idl_lex.specs.declared.tokens.token.PlacedToken.{PlacedToken};

use crate::tokens::chunk::{Chunk, Ends, PlacedChunk, cut_chunk};
use crate::tokens::chunks::Chunks;
use crate::tokens::file_tokens::FileTokens;
use crate::tokens::starts_left::{ChunkStarts, StartsLeft};
use crate::tokens::tokens_left::TokensLeft;
use idl_lex::TextLeft;
use idl_source::{File, Line};
use std::alloc::{AllocError, Global};
use std::marker::Model;
use std::rc::Rc;

// A chunk has at least so many lines, unless another follows that is taken over.
const CHUNK_LINES: usize = 64;

/// A file, and its tokens in order: its chunks end to end. A later text of the file can take chunks over. To every contract it is
/// the lines of the file.
#[derive(Drop)]
pub struct Lexed {
    chunks: Chunks,
}

impl Model for Lexed {
    ghost use Rattle.std.specs.Prelude.{List, ℕ};
    ghost use Rattle.idl_text.specs.Chunk.{AreChunksOf};

    ghost Value = { List (List ℕ) };

    ghost view = { λ lexed. lexed.chunks.file };

    ghost invariant = { λ lexed. AreChunksOf lexed.chunks.file lexed.chunks.placed.items };
}

impl Lexed {
    /// The file.
    pub fn file(&self) -> &File
        ensures { result.now ≡ self.now }
    {
        &self.chunks.file
    }

    /// All tokens.
    pub fn all(&self) -> TokensLeft<'_>
        ensures tokens { result ≡ tokens_of self.now }
        ensures room { length (tokens_of self.now) < 2 ^ 64 }
    {
        TokensLeft::new(&self.chunks.placed, 0, 0, 0)
    }

    /// The tokens behind so many.
    pub fn behind(&self, before: usize) -> TokensLeft<'_>
        requires { before ≤ length (tokens_of self.now) }
        ensures { result ≡ drop before (tokens_of self.now) }
    {
        let count = self
            .chunks
            .placed
            .partition_point(|placed| placed.tokens_before <= before);
        let chunk = count.saturating_sub(1);
        let place = match self.chunks.placed.get(chunk) {
            Some(placed) => before - placed.tokens_before,
            None => 0,
        };
        TokensLeft::new(&self.chunks.placed, chunk, place, before)
    }

    /// The tokens of the chunk in which this line is, each where it begins.
    pub(crate) fn starts_around(&self, line: u32) -> Option<ChunkStarts<'_>>
        ensures line { MatchOption result (on_line line (starts_of self.now) ≡ []) (λ chunk.
            on_line line (starts_left chunk.starts) ≡ on_line line (starts_of self.now)) }
        ensures chunk { IfSome result (IsLaidOut self.now) }
    {
        let Some(placed) = self.chunks.chunk_of(line as usize) else {
            return None;
        };
        let before = placed.lines_before;
        let count = placed.chunk.lines;
        let (_before, from) = self.chunks.file.lines().split_at(before);
        let (own, _later) = from.split_at(count);
        let starts = StartsLeft::new(
            FileTokens::new(&placed.chunk, before as u32, 0),
            TextLeft::new(own, before as u32),
        );
        Some(ChunkStarts {
            before,
            count,
            starts,
        })
    }

    /// How many lines are before the chunk in which this line is, if it is one of the file.
    pub fn lines_before(&self, line: u32) -> usize {
        match self.chunks.chunk_of(line as usize) {
            Some(placed) => placed.lines_before,
            None => 0,
        }
    }

    /// Whether a chunk begins so many lines before the end.
    pub(crate) fn begins_chunk(&self, left: usize) -> bool {
        self.chunks.begins_chunk(left)
    }

    // The chunk with which these lines begin too, if they stand behind as many lines, or as far from the end.
    fn chunk_for(&self, before: usize, lines: &[Line]) -> Option<&Rc<Chunk>>
        ensures { IfSome result (λ chunk. IsChunk lines.now chunk.now.value) }
    {
        self.chunks.chunk_for(before, lines)
    }
}

/// The file with its tokens. Chunks of `old`, an earlier text, are taken over where their lines are the same,
/// which changes nothing in the answer.
pub fn lex(alloc: Global, file: &File, old: Option<&Lexed>) -> Result<Lexed, AllocError>
    ensures { IfOk result (λ lexed. lexed ≡ file.now) }
{
    let mut placed = Vec::new(alloc);
    let lines = file.lines();
    let total = file.line_count();
    let mut count = 0;
    let mut tokens = 0;
    'cut: while count < total {
        let chunk = next_chunk(alloc, count, &lines[count..], old)?;
        let lines_before = count;
        let tokens_before = tokens;
        count += chunk.lines;
        tokens = tokens_behind(tokens, &chunk)?;
        placed.push(PlacedChunk {
            chunk,
            lines_before,
            tokens_before,
        })?;
    }
    Ok(Lexed {
        chunks: Chunks {
            file: file.clone()?,
            placed,
        },
    })
}

// How many tokens of a file are before what comes after a chunk, where so many are before the chunk. No place has a number
// that is too large.
fn tokens_behind(before: usize, chunk: &Chunk) -> Result<usize, AllocError>
    ensures sum { IfOk result (λ sum. sum ≡ before + length chunk.now.tokens) }
    ensures fits { IfOk result (λ sum. sum < 2 ^ 64) }
{
    match before.checked_add(chunk.tokens.len()) {
        Some(sum) => Ok(sum),
        None => Err(AllocError),
    }
}

// The chunk with which these lines begin, which stand behind so many: one that is taken over, or a new one.
fn next_chunk(
    alloc: Global,
    before: usize,
    lines: &[Line],
    old: Option<&Lexed>,
) -> Result<Rc<Chunk>, AllocError>
    requires some { 0 < length lines.now }
    requires room { length lines.now ≤ 200000 }
    ensures { IfOk result (λ chunk. IsChunk lines.now chunk.value) }
{
    if let Some(lexed) = old {
        if let Some(chunk) = lexed.chunk_for(before, lines) {
            return chunk.clone();
        }
    }
    let ends = Ends {
        lines: CHUNK_LINES,
        old,
    };
    Ok(Rc::new(alloc, cut_chunk(alloc, lines, ends)?)?)
}

/// The tokens of a file's text are those of its pieces, each the longest that can begin at its place, and there is no other way to cut it so. This
/// does nothing: it carries the law.
pub fn longest_pieces()
    ensures { (lines : List (List ℕ)) → (tokens : List PlacedToken)
        → AreTokensOf line_start (joined 1 lines) tokens ↔ (tokens ≡ tokens_of lines) }
{}
