//! The lines that a command announces. They are taken where they can't be kept, too.

ghost use Rattle.std.specs.Prelude.{◌≡◌, ◌≤◌, ◌<◌, ◌+◌, ◌-◌, ◌^◌, ◌∷◌, ◌++◌, [], true, ℕ, List, Option, IfOk, IfSome, OnOk, OnErr, MatchBool};
ghost use Rattle.std.specs.Option.{option_copied};
ghost use Rattle.idl_source.specs.Limits.{longest_line};
ghost use Rattle.idl_source.specs.texts.Line.{IsLine};
ghost use Rattle.idl_session.specs.Lines.{line_within};
ghost use Rattle.idl_session.specs.Streams.{stream_of, IsOver, fuel, FailsWithin};
ghost use Rattle.idl_session.specs.replies.Announced.{IsGathered, Gathers, TakesAnnounced};

use crate::feed::Feed;
use crate::line_buffer::{LineBuffer, read_line};
use idl_source::devices::ReadFailed;
use idl_source::{Lines, MAX_LINE, MAX_LINES, NEWLINE, Source};
use memchr::memchr;
use std::alloc::{AllocError, Global};

/// The lines that a command announces, or why there are none to place.
#[derive(Drop)]
pub enum Announced {
    /// All of them.
    Whole(Lines),
    /// The input ended before the last of them.
    Unfinished,
    /// There are too many, or one is too long.
    OverLimit,
    /// There was no memory for one.
    NoMemory,
}

/// Takes so many lines, or fewer at the end of the input.
#[inline(never)]
pub fn read_announced<S: Source>(
    alloc: Global,
    source: &mut S,
    feed: &mut Feed,
    count: usize,
) -> Result<Announced, ReadFailed>
    requires counts { S.failures source.old < 2 ^ 64 - 1 }

    ensures taken { IfOk result (TakesAnnounced count
        (stream_of (S.remaining source.old) feed.old)
        (stream_of (S.remaining source.new) feed.new)) }
    ensures nearer { OnOk result
        (fuel (S.reads_left source.new) feed.new ≤ fuel (S.reads_left source.old) feed.old) }
    ensures ok { OnOk result (S.failures source.new ≡ S.failures source.old) }

    ensures err { OnErr result (S.failures source.new ≡ S.failures source.old + 1) }
    ensures fails { let old = stream_of (S.remaining source.old) feed.old in
        OnErr result (FailsWithin count old (S.remaining source.new)) }
{
    let mut line = LineBuffer::<MAX_LINE>::new();
    let mut announced = first_announced(alloc, count);
    for i in 0..count {
        if !take_next(source, feed, &mut line, &mut announced)? {
            return Ok(Announced::Unfinished);
        }
    }
    Ok(announced)
}

// What is gathered before the first of so many lines.
fn first_announced(alloc: Global, count: usize) -> Announced
    ensures { IsGathered count [] result }
{
    if count > MAX_LINES {
        return Announced::OverLimit;
    }
    Announced::Whole(Lines::new(alloc))
}

// Takes the next line, if there is one. Only one that doesn't stand whole in the feed goes through the buffer.
fn take_next<S: Source>(
    source: &mut S,
    feed: &mut Feed,
    line: &mut LineBuffer<MAX_LINE>,
    announced: &mut Announced,
) -> Result<bool, ReadFailed>
    requires counts { S.failures source.old < 2 ^ 64 - 1 }

    ensures taken { let old = stream_of (S.remaining source.old) feed.old in
        let new = stream_of (S.remaining source.new) feed.new in
        IfOk result (λ more. MatchBool more
        (Gathers old new announced.old announced.new)
        ((new ≡ record old { ended = true }) × IsOver old.bytes)) }
    ensures nearer { OnOk result
        (fuel (S.reads_left source.new) feed.new ≤ fuel (S.reads_left source.old) feed.old) }
    ensures ok { OnOk result (S.failures source.new ≡ S.failures source.old) }

    ensures err { OnErr result (S.failures source.new ≡ S.failures source.old + 1) }
    ensures fails { let old = stream_of (S.remaining source.old) feed.old in
        OnErr result (FailsWithin 1 old (S.remaining source.new)) }
{
    if take_whole(feed, announced) {
        return Ok(true);
    }
    if !read_line(source, feed, line)? {
        return Ok(false);
    }
    take_line(announced, line.get());
    Ok(true)
}

// Takes the next line, if it stands whole in the feed.
fn take_whole(feed: &mut Feed, announced: &mut Announced) -> bool
    ensures taken { (rest : Option (List ℕ)) → MatchBool result
        (Gathers (stream_of rest feed.old) (stream_of rest feed.new) announced.old announced.new)
        ((feed.new ≡ feed.old) × (announced.new ≡ announced.old)) }
    ensures nearer { (reads : ℕ) → fuel reads feed.new ≤ fuel reads feed.old }
{
    let bytes = feed.bytes();
    let Some(place) = memchr(NEWLINE, bytes) else {
        return false;
    };
    take_line(announced, within_limit(&bytes[..place]));
    feed.take(place + 1);
    true
}

// The line, where it isn't too long.
fn within_limit(line: &[u8]) -> Option<&[u8]>
    ensures { option_copied result ≡ line_within longest_line line.now }
{
    if line.len() > MAX_LINE {
        return None;
    }
    Some(line)
}

// Takes one line more, of which nothing was kept if it is too long.
#[inline(always)]
fn take_line(announced: &mut Announced, line: Option<&[u8]>)
    requires one_line { IfSome line (λ l. IsLine l.now) }
    ensures { (count : ℕ) (lines : List (List ℕ)) (next : List ℕ)
        → option_copied line.entry ≡ line_within longest_line next
        → IsGathered count lines announced.old
        → IsGathered count (lines ++ next ∷ []) announced.new }
{
    if let Announced::Whole(lines) = announced {
        let Some(line) = line else {
            *announced = Announced::OverLimit;
            return;
        };
        if lines.push(line).is_err() {
            *announced = Announced::NoMemory;
        }
    }
}
