//! Where the tokens of a chunk begin, line by line.
//!
//! Who asks for one column goes over a chunk for it (`column.rt`). Who asks for many lays the chunk out, once.

ghost use Rattle.std.specs.Prelude.{◌≡◌, ◌+◌, ◌++◌, ◌∷◌, ◌<◌, ◌≤◌, [], ℕ, List, IfNone, IfOk, IfSome, OnOk, filter, get_or, length, map, slice_get};
ghost use Rattle.std.specs.Str.{bytes_eq};
ghost use Rattle.idl_text.specs.Starts.{AreLinesOf, IsLaidOut, column_among, column_if, column_in, column_of_only, on_line, starts_of};

use crate::tokens::column::{column_in, column_with, line_of};
use crate::tokens::file_tokens::FileToken;
use crate::tokens::lexed::Lexed;
use crate::tokens::starts_left::ChunkStarts;
use std::alloc::{AllocError, Global};
use std::marker::Model;

/// The tokens of a chunk of a file, those of each line by themselves, each with how many bytes of the line are before it. To every
/// contract it is the lines of the file.
#[derive(Drop)]
pub struct ChunkColumns<'a> {
    lexed: &'a Lexed,
    // How many lines of the file are before the chunk.
    before: usize,
    lines: Vec<Vec<(FileToken<'a>, usize)>>,
}

impl<'a> Model for ChunkColumns<'a> {
    ghost use Rattle.std.specs.Prelude.{List, ℕ, map};
    ghost use Rattle.idl_text.specs.Starts.{AreLinesOf};

    ghost Value = { List (List ℕ) };

    ghost view = { λ chunk. chunk.lexed.now };

    ghost invariant = { λ chunk.
        AreLinesOf chunk.lexed.now chunk.before (map (λ starts. starts.items) chunk.lines.items) };
}

impl<'a> ChunkColumns<'a> {
    /// The chunk in which this line is, if it is one of the file.
    pub fn new(alloc: Global, lexed: &'a Lexed, line: u32) -> Result<ChunkColumns<'a>, AllocError>
        ensures { IfOk result (λ chunk. chunk ≡ lexed.now) }
    {
        let Some(chunk) = lexed.starts_around(line) else {
            return Ok(ChunkColumns {
                lexed,
                before: 0,
                lines: Vec::new(alloc),
            });
        };
        Ok(ChunkColumns {
            lexed,
            before: chunk.before,
            lines: lines_of(alloc, &chunk)?,
        })
    }

    /// How many bytes of its line are before a token of the file, as `column_in` tells it. Where the line is one of the chunk, its tokens
    /// alone are looked at. It takes no memory.
    pub fn column(&self, line: u32, number: Option<usize>, text: &[u8]) -> Option<usize>
        ensures { result ≡ column_in self.now line number text.now }
    {
        let Some(starts) = self.starts_on(line) else {
            return column_in(self.lexed, line, number, text);
        };
        let bytes = line_of(self.lexed.file().lines(), line)?.as_bytes();
        column_with(bytes, column_among(starts, number, text), text)
    }

    // The tokens on a line, if it is one of the chunk.
    fn starts_on(&self, line: u32) -> Option<&[(FileToken<'a>, usize)]>
        ensures { IfSome result (λ starts. starts.now ≡ on_line line (starts_of self.now)) }
    {
        let index = index_of(line, self.before)?;
        Some(self.lines.get(index)?.as_slice())
    }
}

// Which of the lines behind so many a line is.
fn index_of(line: u32, before: usize) -> Option<usize>
    ensures some { IfSome result (λ index. line ≡ before + index + 1) }
    ensures none { IfNone result (line ≤ before) }
{
    (line as usize).checked_sub(before)?.checked_sub(1)
}

// The tokens of each line of a chunk.
fn lines_of<'a>(
    alloc: Global,
    chunk: &ChunkStarts<'a>,
) -> Result<Vec<Vec<(FileToken<'a>, usize)>>, AllocError>
    ensures { IfOk result (λ lines. (file : List (List ℕ)) → IsLaidOut file chunk.now
        → AreLinesOf file chunk.now.before (map (λ starts. starts.items) lines.items)) }
{
    let mut lines = empty_lines(alloc, chunk.count)?;
    let mut left = chunk.starts.copied();
    'starts: while let Some(start) = left.next() {
        put(&mut lines, chunk.before, start)?;
    }
    Ok(lines)
}

// So many lines without tokens.
fn empty_lines<'a>(
    alloc: Global,
    count: usize,
) -> Result<Vec<Vec<(FileToken<'a>, usize)>>, AllocError>
    ensures count { IfOk result (λ lines. length lines.items ≡ count) }
    ensures empty { IfOk result (λ lines.
        (index : ℕ) → get_or (map (λ starts. starts.items) lines.items) index [] ≡ []) }
{
    let mut lines = Vec::with_capacity(alloc, count)?;
    'lines: for _line in 0..count {
        lines.push(Vec::new(alloc))?;
    }
    Ok(lines)
}

// Puts in a token on its line, if that is one of these lines, behind so many.
fn put<'a>(
    lines: &mut Vec<Vec<(FileToken<'a>, usize)>>,
    before: usize,
    start: (FileToken<'a>, usize),
) -> Result<(), AllocError>
    ensures count { length lines.new.items ≡ length lines.old.items }
    ensures each { OnOk result ((index : ℕ) → index < length lines.old.items
        → get_or (map (λ starts. starts.items) lines.new.items) index []
        ≡ get_or (map (λ starts. starts.items) lines.old.items) index []
        ++ on_line (before + index + 1) (start.entry ∷ [])) }
{
    let Some(index) = index_of(start.0.line(), before) else {
        return Ok(());
    };
    if index < lines.len() {
        lines[index].push(start)?;
    }
    Ok(())
}

// Where the token begins that is looked for, among those of its line.
fn column_among(
    starts: &[(FileToken<'_>, usize)],
    number: Option<usize>,
    text: &[u8],
) -> Option<usize>
    ensures { result ≡ column_among number text.now starts.now }
{
    if let Some(number) = number {
        if let Some(column) = column_by(starts, number, text) {
            return Some(column);
        }
    }
    column_of_only(starts, text)
}

// Where the token with this number begins, if it is spelled so.
fn column_by(starts: &[(FileToken<'_>, usize)], number: usize, text: &[u8]) -> Option<usize>
    ensures { result ≡ column_if text.now (slice_get starts.now number) }
{
    let (token, column) = starts.get(number)?;
    if token.token().as_bytes() == text {
        Some(*column)
    } else {
        None
    }
}

// Where the only token begins that is spelled so.
fn column_of_only(starts: &[(FileToken<'_>, usize)], text: &[u8]) -> Option<usize>
    ensures { result
        ≡ column_of_only (filter (λ s. bytes_eq s.0.token text.now) starts.now) }
{
    let mut only = None;
    'starts: for (token, column) in starts {
        if token.token().as_bytes() != text {
            continue;
        }
        if only.is_some() {
            return None;
        }
        only = Some(*column);
    }
    only
}
