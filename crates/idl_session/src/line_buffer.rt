//! A line of bounded length, and how one is taken from a feed.

ghost use Rattle.std.specs.Prelude.{◌≡◌, ◌≤◌, ◌<◌, ◌+◌, ◌-◌, ◌^◌, [], true, Some, IfOk, IfSome, OnOk, OnErr, MatchBool};
ghost use Rattle.std.specs.Option.{option_copied};
ghost use Rattle.idl_source.specs.texts.Line.{IsLine};
ghost use Rattle.idl_session.specs.Reading.{line_with};
ghost use Rattle.idl_session.specs.Streams.{stream_of, IsOver, fuel, TakesLine, FailsWithin};

use crate::feed::Feed;
use arrayvec::ArrayVec;
use idl_source::devices::ReadFailed;
use idl_source::{NEWLINE, Source};
use memchr::memchr;
use std::marker::Model;

/// A line of at most `N` bytes, none of them a newline. Of a longer one only that it is longer is known.
#[derive(Drop)]
pub struct LineBuffer<const N: usize> {
    bytes: ArrayVec<u8, N>,
    over: bool,
}

impl<const N: usize> Model for LineBuffer<N> {
    ghost use Rattle.std.specs.Prelude.{List, ℕ, Option, Some, None, if◌then◌else◌};
    ghost use Rattle.idl_source.specs.texts.Line.{IsLine};

    ghost Value = { Option (List ℕ) };

    ghost view = { λ line. if line.over then None else Some line.bytes.items };

    ghost invariant = { λ line. IsLine line.bytes.items };
}

impl<const N: usize> LineBuffer<N> {
    /// An empty line.
    pub fn new() -> LineBuffer<N>
        ensures { result ≡ Some [] }
    {
        LineBuffer {
            bytes: ArrayVec::new(),
            over: false,
        }
    }

    /// Makes the line empty.
    pub fn clear(&mut self)
        ensures { self.new ≡ Some [] }
    {
        self.bytes.clear();
        self.over = false;
    }

    /// Adds bytes, or finds that the line is too long.
    pub fn extend(&mut self, bytes: &[u8])
        requires { IsLine bytes.now }
        ensures { self.new ≡ line_with N self.old bytes.now }
    {
        if !self.over && self.bytes.try_extend_from_slice(bytes).is_err() {
            self.over = true;
        }
    }

    /// The line, where it isn't too long.
    pub fn get(&self) -> Option<&[u8]>
        ensures same { option_copied result ≡ self.now }
        ensures one_line { IfSome result (λ line. IsLine line.now) }
    {
        if self.over { None } else { Some(&self.bytes) }
    }
}

/// Takes the next line, if there is one. A last one without newline counts if it has a byte.
pub fn read_line<S: Source, const N: usize>(
    source: &mut S,
    feed: &mut Feed,
    line: &mut LineBuffer<N>,
) -> Result<bool, ReadFailed>
    requires counts { S.failures source.old < 2 ^ 64 - 1 }

    ensures line { let old = stream_of (S.remaining source.old) feed.old in
        let new = stream_of (S.remaining source.new) feed.new in
        IfOk result (λ more. MatchBool more
        (TakesLine N old new line.new)
        ((new ≡ record old { ended = true }) × IsOver old.bytes)) }
    ensures nearer { IfOk result (λ more. MatchBool more
        (fuel (S.reads_left source.new) feed.new < fuel (S.reads_left source.old) feed.old)
        (fuel (S.reads_left source.new) feed.new ≤ fuel (S.reads_left source.old) feed.old)) }
    ensures ok { OnOk result (S.failures source.new ≡ S.failures source.old) }

    ensures err { OnErr result (S.failures source.new ≡ S.failures source.old + 1) }
    ensures fails { let old = stream_of (S.remaining source.old) feed.old in
        OnErr result (FailsWithin 1 old (S.remaining source.new)) }
{
    line.clear();
    let mut any = false;
    'parts: loop {
        feed.fill(source)?;
        let bytes = feed.bytes();
        if bytes.is_empty() {
            return Ok(any);
        }
        if let Some(place) = memchr(NEWLINE, bytes) {
            line.extend(&bytes[..place]);
            feed.take(place + 1);
            return Ok(true);
        }
        let count = bytes.len();
        line.extend(bytes);
        feed.take(count);
        any = true;
    }
}
