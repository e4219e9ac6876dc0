//! Messages one after another, of a source that gives its bytes in any pieces.

ghost use Rattle.std.specs.Prelude.{◌≡◌, ◌≤◌, ◌<◌, ◌+◌, ◌-◌, ◌^◌, ◌++◌, ◌↔◌, [], List, ℕ, Option, IfOk, OnOk, OnErr, IsTrue, length, true, false};
ghost use Rattle.idl_source.specs.devices.Device.{prepend};
ghost use Rattle.idl_editor.specs.frames.Heads.{HasNoHead, IsHeadAt};
ghost use Rattle.idl_editor.specs.frames.Message.{longest_body};
ghost use Rattle.idl_editor.specs.frames.Reading.{IsNearer, IsOver, Receives, TakesMessage, fuel};

use crate::frames::fault::ReadFault;
use crate::frames::head::{Head, head_of};
use idl_source::Source;
use std::alloc::{AllocError, Global};
use std::marker::Model;

// Bytes that are read at once.
const PIECE: usize = 8192;

/// What came next of a stream.
#[derive(Drop)]
pub enum Received {
    /// The body of a message, which is taken.
    Body(Vec<u8>),
    /// Nothing: the input has ended behind a message, or is empty.
    End,
    /// The input has ended within a message.
    Unfinished,
    /// No message begins with what comes, whatever may follow.
    NoHead,
    /// A message of a body of more than [`MAX_BODY`](crate::frames::MAX_BODY) bytes.
    OverLimit,
}

/// Takes messages off a source. To contracts it is the bytes that it has read and not yet given.
#[derive(Drop)]
pub struct Reader {
    held: Vec<u8>,
}

impl Model for Reader {
    ghost Value = { List ℕ };

    ghost view = { λ reader. reader.held.items };
}

impl Reader {
    /// Nothing was read.
    pub fn new(alloc: Global) -> Reader
        ensures { result ≡ [] }
    {
        Reader {
            held: Vec::new(alloc),
        }
    }

    /// Whether nothing is held: else more of the stream has come than the messages that were taken.
    pub fn is_empty(&self) -> bool
        ensures { IsTrue result ↔ (self.now ≡ []) }
    {
        self.held.is_empty()
    }

    /// Takes the next message. Where there is none, or a read or memory failed, nothing is taken.
    ///
    /// It reads no further than the read that the message ends in.
    pub fn receive<S: Source>(&mut self, source: &mut S) -> Result<Received, ReadFault>
        requires counts { S.failures source.old < 2 ^ 64 - 1 }

        ensures received { IfOk result (λ received. Receives received
            (prepend self.old (S.remaining source.old))
            (prepend self.new (S.remaining source.new))) }
        ensures nearer { IfOk result (λ received. IsNearer received
            (fuel (S.reads_left source.old) self.old)
            (fuel (S.reads_left source.new) self.new)) }
        ensures ok { OnOk result (S.failures source.new ≡ S.failures source.old) }

        ensures kept { OnErr result (prepend self.new (S.remaining source.new)
            ≡ prepend self.old (S.remaining source.old)) }
        ensures most { S.failures source.new ≤ S.failures source.old + 1 }
    {
        'heads: loop {
            match head_of(&self.held) {
                Head::Whole(len, count) => return self.receive_body(source, len, count),
                Head::OverLimit => return Ok(Received::OverLimit),
                Head::Missing => return Ok(Received::NoHead),
                Head::Begun => {
                    if !self.fill(source)? {
                        return Ok(self.ended());
                    }
                }
            }
        }
    }

    // Takes a message of which the head has come.
    fn receive_body<S: Source>(
        &mut self,
        source: &mut S,
        len: usize,
        count: usize,
    ) -> Result<Received, ReadFault>
        requires counts { S.failures source.old < 2 ^ 64 - 1 }
        requires head { IsHeadAt self.old len count }
        requires within { count ≤ longest_body }

        ensures received { IfOk result (λ received. Receives received
            (prepend self.old (S.remaining source.old))
            (prepend self.new (S.remaining source.new))) }
        ensures nearer { IfOk result (λ received. IsNearer received
            (fuel (S.reads_left source.old) self.old)
            (fuel (S.reads_left source.new) self.new)) }
        ensures ok { OnOk result (S.failures source.new ≡ S.failures source.old) }

        ensures kept { OnErr result (prepend self.new (S.remaining source.new)
            ≡ prepend self.old (S.remaining source.old)) }
        ensures most { S.failures source.new ≤ S.failures source.old + 1 }
    {
        'pieces: while self.held.len() < len + count {
            if !self.fill(source)? {
                return Ok(Received::Unfinished);
            }
        }
        let body = self.take(len, count)?;
        Ok(Received::Body(body))
    }

    // Takes the message of which the head has so many bytes and the body so many.
    fn take(&mut self, len: usize, count: usize) -> Result<Vec<u8>, AllocError>
        requires head { IsHeadAt self.old len count }
        requires within { count ≤ longest_body }
        requires whole { len + count ≤ length self.old }

        ensures taken { (rest : Option (List ℕ)) → IfOk result (λ body.
            TakesMessage body.items (prepend self.old rest) (prepend self.new rest)) }
        ensures fewer { OnOk result (length self.new < length self.old) }
        ensures kept { OnErr result (self.new ≡ self.old) }
    {
        let alloc = *self.held.allocator();
        let end = len + count;
        let body = Vec::from_slice(alloc, &self.held[len..end])?;
        self.held = Vec::from_slice(alloc, &self.held[end..])?;
        Ok(body)
    }

    // What it means that the input has ended where no head has come.
    fn ended(&self) -> Received
        requires { HasNoHead self.now }
        ensures received { (rest : Option (List ℕ)) → IsOver rest
            → Receives result (prepend self.now rest) (prepend self.now rest) }
        ensures nearer { (n : ℕ) → IsNearer result n n }
    {
        match self.held.as_slice() {
            [] => Received::End,
            _ => Received::Unfinished,
        }
    }

    // Reads once, and tells whether anything came.
    fn fill<S: Source>(&mut self, source: &mut S) -> Result<bool, ReadFault>
        requires counts { S.failures source.old < 2 ^ 64 - 1 }

        ensures same { prepend self.new (S.remaining source.new)
            ≡ prepend self.old (S.remaining source.old) }
        ensures grows { (more : List ℕ) × (self.new ≡ self.old ++ more) }
        ensures came { IfOk result (λ came. came ≡ true
            → fuel (S.reads_left source.new) self.new < fuel (S.reads_left source.old) self.old) }
        ensures ended { IfOk result (λ came. came ≡ false
            → (self.new ≡ self.old) × IsOver (S.remaining source.new)) }
        ensures bounded { OnOk result
            (fuel (S.reads_left source.new) self.new ≤ fuel (S.reads_left source.old) self.old) }
        ensures ok { OnOk result (S.failures source.new ≡ S.failures source.old) }
        ensures most { S.failures source.new ≤ S.failures source.old + 1 }
    {
        self.held.reserve(PIECE)?;
        let mut piece = [0; PIECE];
        let count = source.read(&mut piece)?;
        self.held.extend_from_slice(&piece[..count])?;
        Ok(count > 0)
    }
}
