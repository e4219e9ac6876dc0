//! The bytes of a source, as they are read: in large pieces.

ghost use Rattle.std.specs.Prelude.{◌≡◌, ◌≤◌, ◌<◌, ◌+◌, ◌-◌, ◌^◌, [], true, false, OnOk, OnErr, MatchBool, length, drop};
ghost use Rattle.idl_session.specs.Streams.{stream_of, unread, IsOver, fuel};

use idl_source::Source;
use idl_source::devices::ReadFailed;
use std::marker::Model;

/// Bytes that were read and not yet taken. Once the source has told its end, nothing more is read.
#[derive(Drop)]
pub struct Feed {
    bytes: [u8; 4096],
    start: usize,
    end: usize,
    ended: bool,
}

impl Model for Feed {
    ghost use Rattle.std.specs.Prelude.{take, drop, ◌≤◌};
    ghost use Rattle.idl_session.specs.Streams.{Fed};

    ghost Value = { Fed };

    ghost view = { λ feed. record {
      bytes = drop feed.start (take feed.end feed.bytes);
      ended = feed.ended;
    } };

    ghost invariant = { λ feed. (feed.start ≤ feed.end) × (feed.end ≤ 4096) };
}

impl Feed {
    /// Nothing was read.
    pub fn new() -> Feed
        ensures { result ≡ record { bytes = []; ended = false } }
    {
        Feed {
            bytes: [0; 4096],
            start: 0,
            end: 0,
            ended: false,
        }
    }

    /// Reads once, where nothing is left and the end has not come. So nothing is left only at the end.
    ///
    /// A read that failed took no byte.
    pub fn fill<S: Source>(&mut self, source: &mut S) -> Result<(), ReadFailed>
        requires counts { S.failures source.old < 2 ^ 64 - 1 }

        ensures same { let old = stream_of (S.remaining source.old) self.old in
            let new = stream_of (S.remaining source.new) self.new in
            OnOk result (0 < length self.new.bytes → old ≡ new) }
        ensures end { let old = stream_of (S.remaining source.old) self.old in
            let new = stream_of (S.remaining source.new) self.new in
            OnOk result (self.new.bytes ≡ []
            → (new ≡ record old { ended = true }) × IsOver old.bytes) }
        ensures nearer { OnOk result
            (fuel (S.reads_left source.new) self.new ≤ fuel (S.reads_left source.old) self.old) }
        ensures ok { OnOk result (S.failures source.new ≡ S.failures source.old) }

        ensures err { OnErr result (S.failures source.new ≡ S.failures source.old + 1) }
        ensures none { OnErr result
            (stream_of (S.remaining source.old) self.old ≡ unread (S.remaining source.new)) }
    {
        if self.start == self.end && !self.ended {
            self.read(source)?;
        }
        Ok(())
    }

    /// The bytes that were read and not yet taken.
    pub fn bytes(&self) -> &[u8]
        ensures { result.now ≡ self.now.bytes }
    {
        &self.bytes[self.start..self.end]
    }

    /// Takes so many of them.
    pub fn take(&mut self, count: usize)
        requires { count ≤ length self.old.bytes }
        ensures { self.new ≡ record self.old { bytes = drop count self.old.bytes } }
    {
        self.start += count;
    }

    // Reads, where nothing is left.
    fn read<S: Source>(&mut self, source: &mut S) -> Result<(), ReadFailed>
        requires empty { self.old.bytes ≡ [] }
        requires more { self.old.ended ≡ false }
        requires counts { S.failures source.old < 2 ^ 64 - 1 }

        ensures given { let new = stream_of (S.remaining source.new) self.new in
            OnOk result
            (new ≡ record (unread (S.remaining source.old)) { ended = self.new.ended }) }
        ensures end { OnOk result (MatchBool self.new.ended
            ((self.new.bytes ≡ []) × IsOver (S.remaining source.old))
            (0 < length self.new.bytes)) }
        ensures nearer { OnOk result (0 < length self.new.bytes
            → fuel (S.reads_left source.new) self.new < fuel (S.reads_left source.old) self.old) }
        ensures at_end { OnOk result (S.reads_left source.new ≤ S.reads_left source.old) }
        ensures ok { OnOk result (S.failures source.new ≡ S.failures source.old) }

        ensures err { OnErr result (S.failures source.new ≡ S.failures source.old + 1) }
        ensures kept { OnErr result (S.remaining source.new ≡ S.remaining source.old) }
    {
        self.start = 0;
        self.end = 0;
        self.end = source.read(&mut self.bytes)?;
        self.ended = self.end == 0;
        Ok(())
    }
}
