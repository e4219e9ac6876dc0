//! The chunks of a text, of which a later text takes over what is the same.

ghost use Rattle.std.specs.Prelude.{◌≡◌, ◌⊎◌, ◌≤◌, ◌<◌, [], IsTrue, length, take, IfSome, MatchOption};
ghost use Rattle.std.specs.List.{Contains};
ghost use Rattle.idl_text.specs.Chunk.{AreChunksOf, IsChunk, IsChunkOfLine};

use crate::tokens::chunk::{Chunk, PlacedChunk};
use idl_source::{File, Line};
use std::rc::Rc;

/// A file and its chunks.
#[derive(Drop)]
pub struct Chunks {
    pub file: File,
    pub placed: Vec<PlacedChunk>,
}

impl Chunks {
    /// Whether a chunk begins so many lines before the end.
    pub fn begins_chunk(&self, left: usize) -> bool {
        match self.file.line_count().checked_sub(left) {
            Some(before) => self.chunk_behind(before).is_some(),
            None => false,
        }
    }

    /// The chunk in which this line is, if it is one of the file, else the last one; of no lines there is none.
    pub fn chunk_of(&self, line: usize) -> Option<&PlacedChunk>
        requires { AreChunksOf self.now.file self.now.placed.items }
        ensures { MatchOption result (self.now.placed.items ≡ [])
            (λ b. IsChunkOfLine self.now.placed.items line b.now) }
    {
        if self.placed.is_empty() {
            return None;
        }
        let count = self
            .placed
            .partition_point(|placed| placed.lines_before < line);
        Some(&self.placed[count.saturating_sub(1)])
    }

    // The chunk that begins behind so many lines.
    fn chunk_behind(&self, before: usize) -> Option<&PlacedChunk>
        ensures { IfSome result
            (λ b. Contains self.now.placed.items b.now × (b.now.lines_before ≡ before)) }
    {
        match self
            .placed
            .binary_search_by_key(&before, |placed| placed.lines_before)
        {
            Ok(place) => Some(&self.placed[place]),
            Err(_) => None,
        }
    }

    /// The chunk with which these lines begin too, if they stand behind as many lines, or as far from the end.
    pub fn chunk_for(&self, before: usize, lines: &[Line]) -> Option<&Rc<Chunk>>
        requires { AreChunksOf self.now.file self.now.placed.items }
        ensures { IfSome result (λ chunk. IsChunk lines.now chunk.now.value) }
    {
        match self.same_chunk(before, lines) {
            Some(chunk) => Some(chunk),
            None => {
                let start = self.file.line_count().checked_sub(lines.len())?;
                if start == before {
                    return None;
                }
                self.same_chunk(start, lines)
            }
        }
    }

    // The chunk behind so many lines, if these lines begin with its lines.
    fn same_chunk(&self, before: usize, lines: &[Line]) -> Option<&Rc<Chunk>>
        requires { AreChunksOf self.now.file self.now.placed.items }
        ensures { IfSome result (λ chunk. IsChunk lines.now chunk.now.value) }
    {
        let placed = self.chunk_behind(before)?;
        let (_before, own) = self.file.lines().split_at(before);
        if !begin_alike(placed.chunk.lines, lines, own) {
            return None;
        }
        Some(&placed.chunk)
    }
}

// Whether so many lines are the first ones of both, and the last ones of both or of neither: the last lines of a file may
// stay open, where others follow.
fn begin_alike(count: usize, lines: &[Line], own: &[Line]) -> bool
    requires { count ≤ length own.now }
    ensures within { IsTrue result → count ≤ length lines.now }
    ensures same { IsTrue result → take count lines.now ≡ take count own.now }
    ensures end { IsTrue result → (count < length own.now) ⊎ (count ≡ length lines.now) }
{
    if lines.len() < count {
        return false;
    }
    if own.len() == count && lines.len() != count {
        return false;
    }
    lines[..count] == own[..count]
}
