//! Cutting a text into tokens, line by line of the joined text.

ghost use Rattle.std.specs.Prelude.{◌≡◌, ◌≤◌, ◌<◌, ◌+◌, ◌++◌, ◌-◌, false, ℕ, List, drop, length, slice_index, take, true, IfOk, IfSome, IsTrue, OnOk, ◌∷◌, []};
ghost use Rattle.idl_lex.specs.bytes.Context.{is_include};
ghost use Rattle.idl_lex.specs.tokens.Lexer.{begins_quote, begins_word, coming, ended, is_open};
ghost use Rattle.idl_lex.specs.tokens.Logical.{line_at};
ghost use Rattle.idl_lex.specs.bytes.Scan.{closing_end, further};
ghost use Rattle.idl_lex.specs.bytes.Text.{Placed, bytes_of};
ghost use Rattle.idl_lex.specs.tokens.Tokens.{token_if, token_of, tokens_after};
ghost use Rattle.idl_lex.specs.kinds.Word.{is_word};
ghost use Rattle.idl_lex.specs.declared.tokens.lexer.Before.TheVariants.{Fresh};

use crate::bytes::byte::{is_quote, is_space, is_word_start};
use crate::bytes::context::{Context, ends_block, is_gap};
use crate::bytes::state::{Inside, closing_end, further, taken, word_len};
use crate::kinds::kind::kind_of_word;
use crate::kinds::mark_table::is_lone_mark;
use crate::tokens::chunk_tokens::TokenBuffer;
use crate::tokens::logical::Logical;
use crate::tokens::token::PlacedToken;
use std::alloc::AllocError;
use std::ops::Range;

/// What a line begins in.
#[derive(Drop)]
pub enum Before {
    /// In nothing: the line before it has ended.
    Fresh,
    /// In a comment.
    Comment(Box<Opening>),
}

/// A comment that is open: the token that it is if it isn't closed, and what stands before what comes after it where it is.
#[derive(Drop)]
pub struct Opening {
    pub token: PlacedToken,
    pub context: Context,
}

impl Before {
    /// Whether nothing is open.
    pub fn is_fresh(&self) -> bool
        ensures { IsTrue result → self.now ≡ Fresh }
    {
        match self {
            Before::Fresh => true,
            Before::Comment(_) => false,
        }
    }
}

/// Puts in the tokens of a line that begins in this, and answers what the next line begins in.
pub fn push_line(
    tokens: &mut TokenBuffer,
    line: &Logical,
    before: Before,
) -> Result<Before, AllocError>
    ensures { IfOk result (λ after. (newline : ℕ) → (rest : List Placed) →
        tokens.new ++ coming after rest ≡ tokens.old ++ coming before (line.now ++ ended newline rest)) }
{
    match before {
        Before::Fresh => push_pieces(tokens, line, 0, Context::line_start()),
        Before::Comment(opening) => {
            let bytes = line.as_bytes();
            if !ends_block(bytes) {
                return Ok(Before::Comment(opening));
            }
            let from = taken(Inside::Block(false), bytes);
            let after = push_pieces(tokens, line, from, opening.context)?;
            Ok(after)
        }
    }
}

// Puts in the tokens from a place of a line on, where this stands before it, and answers what the next line begins in.
fn push_pieces(
    tokens: &mut TokenBuffer,
    line: &Logical,
    from: usize,
    context: Context,
) -> Result<Before, AllocError>
    requires { from ≤ length line.now }
    ensures { IfOk result (λ after. (newline : ℕ) → (rest : List Placed) →
        tokens.new ++ coming after rest ≡ tokens.old ++ tokens_after context 0 (drop from line.now ++ ended newline rest)) }
{
    let bytes = line.as_bytes();
    let mut closing = None;
    let mut i = from;
    let mut now = context;
    'pieces: while i < bytes.len() {
        let first = bytes[i];
        if is_space(first) {
            now = now.after_space(first);
            i += 1;
            continue;
        }
        if begins_word(&bytes[i..]) {
            let len = word_len(&bytes[i..]);
            let end = i + len;
            push_word(tokens, now, line, i..end)?;
            now = now.after_word(&bytes[i..end]);
            i = end;
            continue;
        }
        if is_lone_mark(first) {
            tokens.push(PlacedToken::mark(now, first, line.line_at(i)))?;
            now = now.after_mark();
            i += 1;
            continue;
        }
        let includes = now.beginning.is_include();
        closing = closing_for(includes && first == b'<', bytes, closing);
        let end = piece_end(now, bytes, i, closing);
        let piece = &bytes[i..end];
        if is_open(piece) {
            let spelling = line.spelling(i, i + 2)?;
            let token = PlacedToken::new(now, spelling, line.line_at(i));
            let context = now.after(b" ");
            let opening = Box::new(tokens.allocator(), Opening { token, context })?;
            return Ok(Before::Comment(opening));
        }
        push_piece(tokens, now, line, i..end)?;
        now = now.after(piece);
        i = end;
    }
    Ok(Before::Fresh)
}

// Puts in the token that a word of a line is.
fn push_word(
    tokens: &mut TokenBuffer,
    context: Context,
    line: &Logical,
    word: Range<usize>,
) -> Result<(), AllocError>
    requires order { word.start < word.end }
    requires within { word.end ≤ length line.now }
    requires word { is_word (take (word.end - word.start) (drop word.start (bytes_of line.now))) ≡ true }
    ensures { let bytes = take (word.end - word.start) (drop word.start (bytes_of line.now)) in
        OnOk result (tokens.new
        ≡ tokens.old ++ token_of context bytes (line_at line.now word.start) ∷ []) }
{
    let Range { start, end } = word;
    let kind = kind_of_word(&line.as_bytes()[start..end]);
    let spelling = line.spelling(start, end)?;
    tokens.push(PlacedToken::word(context, spelling, kind, line.line_at(start)))?;
    Ok(())
}

// Whether a word begins here, and no wide literal.
fn begins_word(bytes: &[u8]) -> bool
    ensures { result ≡ begins_word bytes.now }
{
    match bytes {
        [first, rest @ ..] if is_word_start(*first) => *first != b'L' || !begins_quote(rest),
        _ => false,
    }
}

// Whether a quote comes first.
fn begins_quote(bytes: &[u8]) -> bool
    ensures { result ≡ begins_quote bytes.now }
{
    match bytes {
        [first, ..] => is_quote(*first),
        [] => false,
    }
}

// Puts in the token that a piece of a line is, if it is one.
#[inline(never)]
fn push_piece(
    tokens: &mut TokenBuffer,
    context: Context,
    line: &Logical,
    piece: Range<usize>,
) -> Result<(), AllocError>
    requires order { piece.start < piece.end }
    requires within { piece.end ≤ length line.now }
    requires closed { let bytes = take (piece.end - piece.start) (drop piece.start (bytes_of line.now)) in
        is_open bytes ≡ false }
    ensures { let bytes = take (piece.end - piece.start) (drop piece.start (bytes_of line.now)) in
        OnOk result (tokens.new
        ≡ tokens.old ++ token_if context bytes (line_at line.now piece.start)) }
{
    let Range { start, end } = piece;
    if is_gap(&line.as_bytes()[start..end]) {
        return Ok(());
    }
    let spelling = line.spelling(start, end)?;
    tokens.push(PlacedToken::new(context, spelling, line.line_at(start)))?;
    Ok(())
}

// Where the longest piece ends that begins at a place, of the bytes that stand there, the last `>` of which ends at another place.
fn piece_end(context: Context, bytes: &[u8], i: usize, closing: Option<usize>) -> usize
    requires here { i < length bytes.now }
    requires closing { IfSome closing (λ end. end ≡ closing_end bytes.now) }
    ensures end { result
        ≡ i + 1 + further (is_include context.beginning) (slice_index bytes.now i)
        (drop (i + 1) bytes.now) }
    ensures within { result ≤ length bytes.now }
{
    // Past the last `>` no name begins, and none is searched for.
    let includes = context.beginning.is_include() && is_before(i + 1, closing);
    i + 1 + further(includes, bytes[i], &bytes[i + 1..])
}

// Where the last `>` ends, as far as it is known: it is looked up as soon as it is asked for.
fn closing_for(asked: bool, bytes: &[u8], known: Option<usize>) -> Option<usize>
    requires { IfSome known (λ end. end ≡ closing_end bytes.now) }
    ensures { IfSome result (λ end. end ≡ closing_end bytes.now) }
{
    match known {
        None if asked => Some(closing_end(bytes)),
        _ => known,
    }
}

// Whether a place is before another, unless that is known not to be so.
fn is_before(i: usize, end: Option<usize>) -> bool
    ensures { (n : ℕ) → IfSome end (λ end. end ≡ n) → result ≡ false → n ≤ i }
{
    match end {
        Some(end) => i < end,
        None => true,
    }
}

// Whether a piece is a comment that isn't closed.
fn is_open(piece: &[u8]) -> bool
    ensures { result ≡ is_open piece.now }
{
    match piece {
        [b'/', b'*', rest @ ..] => !ends_block(rest),
        _ => false,
    }
}
