//! Chunks: lines of a file that are cut into tokens as if they were a file of their own.

ghost use Rattle.std.specs.Prelude.{◌≡◌, ◌≤◌, ◌<◌, ◌++◌, [], None, IfOk, IsSome, IsTrue, OnOk, length};
ghost use Rattle.idl_text.specs.Chunk.{IsChunk};
ghost use Rattle.idl_lex.specs.tokens.Lexer.{coming};

use crate::tokens::lexed::Lexed;
use idl_lex::{Before, ChunkTokens, Logical, Opening, TokenBuffer, joined_count, push_line};
use idl_source::Line;
use std::alloc::{AllocError, Global};
use std::rc::Rc;

// Few chunks have more lines.
const USUAL_LINES: usize = 64;

// Few lines have more tokens.
const TOKENS_OF_LINE: usize = 8;

/// Lines that are cut into tokens as if they were a file of their own: how many they are, and their tokens.
#[derive(Drop)]
pub struct Chunk {
    pub lines: usize,
    pub tokens: ChunkTokens,
}

/// A chunk where it stands in a file: how many lines and tokens of the file are before it. Texts of the file share the
/// chunk.
#[derive(Drop)]
pub struct PlacedChunk {
    pub chunk: Rc<Chunk>,
    pub lines_before: usize,
    pub tokens_before: usize,
}

/// Where a chunk ends, as soon as nothing is open: behind so many lines, or where a chunk of an earlier text begins that is
/// as far from the end.
#[derive(Clone, Copy)]
pub struct Ends<'a> {
    pub lines: usize,
    pub old: Option<&'a Lexed>,
}

impl<'a> Ends<'a> {
    // Whether a chunk ends behind so many lines, where so many are left.
    fn is_end(&self, lines: usize, left: usize) -> bool
        ensures some { IsTrue result → 0 < lines }
        ensures no_other { IsTrue result → self.now.old ≡ None → self.now.lines ≤ lines }
    {
        if lines == 0 {
            return false;
        }
        self.lines <= lines || begins_chunk(self.old, left)
    }
}

// Whether a chunk of an earlier text begins so many lines before its end.
fn begins_chunk(old: Option<&Lexed>, left: usize) -> bool
    ensures { IsTrue result → IsSome old.entry }
{
    match old {
        Some(old) => old.begins_chunk(left),
        None => false,
    }
}

/// Cuts the first of these lines, up to where a chunk ends.
pub fn cut_chunk(alloc: Global, lines: &[Line], ends: Ends<'_>) -> Result<Chunk, AllocError>
    requires some { 0 < length lines.now }
    requires room { length lines.now ≤ 200000 }
    ensures chunk { IfOk result (λ chunk. IsChunk lines.now chunk) }
    ensures whole { ends.entry.old ≡ None → length lines.now ≤ ends.entry.lines
        → IfOk result (λ chunk. chunk.lines ≡ length lines.now) }
{
    let mut tokens = TokenBuffer::with_capacity(alloc, usual_room(lines.len()))?;
    let mut before = Before::Fresh;
    let mut count = 0;
    'lines: while count < lines.len() {
        if before.is_fresh() && ends.is_end(count, lines.len() - count) {
            break;
        }
        let end = count + joined_count(&lines[count..]);
        let line = Logical::new(alloc, &lines[count..end], count + 1)?;
        before = push_line(&mut tokens, &line, before)?;
        count = end;
    }
    finish(&mut tokens, before)?;
    let shared = tokens.share(alloc)?;
    Ok(Chunk {
        lines: count,
        tokens: shared,
    })
}

// Room for as many tokens as few chunks have more, where so many lines are left.
fn usual_room(lines: usize) -> usize {
    TOKENS_OF_LINE * lines.min(USUAL_LINES)
}

// Puts in what is left at the end of a text: a comment that isn't closed.
fn finish(tokens: &mut TokenBuffer, before: Before) -> Result<(), AllocError>
    ensures { OnOk result (tokens.new ≡ tokens.old ++ coming before []) }
{
    match before {
        Before::Fresh => Ok(()),
        Before::Comment(opening) => {
            let Opening {
                token,
                context: _context,
            } = Box::into_inner(opening);
            tokens.push(token)?;
            Ok(())
        }
    }
}
