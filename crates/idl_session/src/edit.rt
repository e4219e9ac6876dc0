//! The edits that commands ask for.

ghost use Rattle.std.specs.Prelude.{◌≡◌, ℕ, List, true, Err, IfOk, MatchBool, map, nat_eq, length};
ghost use Rattle.idl_source.specs.texts.Line.{IsLine};
ghost use Rattle.idl_project.specs.Edited.{IsEdited};
ghost use Rattle.idl_inputs.specs.Edits.{Define, Search, after, are_too_long};
ghost use Rattle.idl_session.specs.replies.Announced.{IsAnnounced};
ghost use Rattle.idl_session.specs.Headings.{HasLine, edit_by, edit_with, words_after};

use crate::announced::Announced;
use crate::heading::{EditCommand, Placement};
use idl_project::{Session, Work};
use idl_source::{Line, Name, Refusal, first_part};
use std::alloc::{AllocError, Global};

/// Places the gathered lines.
pub fn place(
    session: &mut Session,
    placement: Placement<'_>,
    announced: Announced,
) -> Result<Work, Refusal>
    ensures { (count : ℕ) (lines : List (List ℕ)) → IsAnnounced count lines announced →
        MatchBool (nat_eq (length lines) count)
        (IsEdited (edit_with placement.entry lines) session.old session.new result)
        ((result ≡ Err Refusal.Unfinished) × (session.new ≡ session.old)) }
{
    match announced {
        Announced::Whole(lines) => place_lines(session, placement, lines.into_vec()?),
        Announced::Unfinished => Err(Refusal::Unfinished),
        Announced::OverLimit => Err(refusal_of_long(session, placement)),
        Announced::NoMemory => Err(Refusal::NoMemory),
    }
}

/// Makes an edit that no line follows.
pub fn make(session: &mut Session, change: EditCommand<'_>) -> Result<Work, Refusal>
    requires { HasLine change }
    ensures { IsEdited (edit_by change.entry) session.old session.new result }
{
    match change {
        EditCommand::Remove(name) => session.remove(name),
        EditCommand::Define(word, body) => define(session, word, body),
        EditCommand::Undef(word) => session.undef(word),
        EditCommand::Search(rest) => search(session, rest),
        EditCommand::AddRoot(name) => session.add_root(name),
        EditCommand::DropRoot(name) => session.drop_root(name),
    }
}

fn place_lines(
    session: &mut Session,
    placement: Placement<'_>,
    lines: Vec<Line>,
) -> Result<Work, Refusal>
    ensures { IsEdited (edit_with placement.entry lines.items) session.old session.new result }
{
    match placement {
        Placement::Put(name) => session.put(name, lines),
        Placement::Splice(name, span) => session.splice(name, span, lines),
    }
}

// Why lines that are too many or too long aren't placed.
fn refusal_of_long(session: &Session, placement: Placement<'_>) -> Refusal
    ensures { (lines : List (List ℕ)) → are_too_long lines ≡ true
        → after session.now.project (edit_with placement.entry lines) ≡ Err result }
{
    match placement {
        Placement::Put(name) => session.refusal_of_long_put(name),
        Placement::Splice(name, span) => session.refusal_of_long_splice(name, span),
    }
}

fn define(session: &mut Session, word: &[u8], body: &[u8]) -> Result<Work, Refusal>
    requires { IsLine body.now }
    ensures { IsEdited (Define word.now body.now) session.old session.new result }
{
    let body = Line::new(session.allocator(), body)?.unwrap();
    session.define(word, body)
}

fn search(session: &mut Session, rest: Option<&[u8]>) -> Result<Work, Refusal>
    ensures { IsEdited (Search (words_after rest.entry)) session.old session.new result }
{
    let directories = words_in(session.allocator(), rest)?;
    session.search(&directories)
}

// The words that stand there.
fn words_in<'a>(alloc: Global, rest: Option<&'a [u8]>) -> Result<Vec<&'a [u8]>, AllocError>
    ensures { IfOk result (λ found. map (λ word. word.now) found.items ≡ words_after rest.entry) }
{
    let mut words = Vec::new(alloc);
    let Some(mut left) = rest else {
        return Ok(words);
    };
    'words: loop {
        let (word, more) = first_part(left, b' ');
        words.push(word)?;
        match more {
            Some(rest) => left = rest,
            None => return Ok(words),
        }
    }
}
