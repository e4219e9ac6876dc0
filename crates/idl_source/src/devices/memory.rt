//! Devices over memory: a source of the bytes of a slice, and a sink into a buffer of fixed length.
//!
//! The source never fails. The sink fails when it is full, and then alone.
ghost use Rattle.std.specs.Prelude.{◌≡◌, ◌≤◌, ◌<◌, ◌+◌, ◌-◌, ◌^◌, ◌++◌, ◌↔◌, List, [], ℕ, Ok, Some, IfOk, IsErr, IsTrue, OnErr, OnOk, drop, length, min, take};
ghost use Rattle.idl_source.specs.devices.Memory.{Buffered};

use crate::devices::device::{ReadFailed, Sink, Source, WriteFailed};
use std::alloc::{AllocError, Global};
use std::marker::Model;

/// Gives the bytes of a slice, and never fails. Clauses see the bytes still to come.
#[derive(Drop)]
pub struct SliceSource<'a> {
    bytes: &'a [u8],
}

impl<'a> Model for SliceSource<'a> {
    ghost Value = { List ℕ };

    ghost view = { λ source. source.bytes.now };
}

impl<'a> SliceSource<'a> {
    /// A source that gives these bytes.
    pub fn new(bytes: &'a [u8]) -> SliceSource<'a>
        ensures { result ≡ bytes.now }
    {
        SliceSource { bytes }
    }

    /// The bytes still to come.
    pub fn as_bytes(&self) -> &[u8]
        ensures { result.now ≡ self.now }
    {
        self.bytes
    }
}

impl<'a> Source for SliceSource<'a> {
    ghost remaining = { λ source. Some source };

    ghost reads_left = { λ source. length source };

    ghost failures = { λ _. 0 };

    fn failures(&self) -> u64
        ensures { result ≡ 0 }
    {
        0
    }

    /// Gives as many bytes as fit.
    fn read(&mut self, buffer: &mut [u8]) -> Result<usize, ReadFailed>
        requires room { 0 < length buffer.old }

        ensures count { result ≡ Ok (min (length self.old) (length buffer.old)) }
        ensures given { IfOk result (λ n. buffer.new ≡ take n self.old ++ drop n buffer.old) }
        ensures left { IfOk result (λ n. self.new ≡ drop n self.old) }
    {
        let given = self.bytes.len().min(buffer.len());
        let (front, rest) = self.bytes.split_at(given);
        buffer[..given].copy_from_slice(front);
        self.bytes = rest;
        Ok(given)
    }
}

/// Keeps what is written in a buffer, which is allocated once. A write allocates nothing.
#[derive(Drop)]
pub struct BufferSink {
    buffer: Vec<u8>,
    len: usize,
    failures: u64,
}

impl Model for BufferSink {
    ghost use Rattle.std.specs.Prelude.{◌≤◌, length, take};
    ghost use Rattle.idl_source.specs.devices.Memory.{Buffered};

    ghost Value = { Buffered };

    ghost view = { λ sink. record {
      capacity = length sink.buffer.items;
      bytes = take sink.len sink.buffer.items;
      failures = sink.failures;
    } };

    ghost invariant = { λ sink. sink.len ≤ length sink.buffer.items };
}

impl BufferSink {
    /// An empty sink that takes this many bytes.
    pub fn new(alloc: Global, capacity: usize) -> Result<BufferSink, AllocError>
        ensures { IfOk result (λ sink.
            sink ≡ record { capacity = capacity; bytes = []; failures = 0 }) }
    {
        Ok(BufferSink {
            buffer: vec![in alloc; 0; capacity]?,
            len: 0,
            failures: 0,
        })
    }

    /// How many bytes it takes in all.
    pub fn capacity(&self) -> usize
        ensures capacity { result ≡ self.now.capacity }
        ensures within { length self.now.bytes ≤ self.now.capacity }
    {
        self.buffer.len()
    }

    /// The bytes that were written.
    pub fn as_bytes(&self) -> &[u8]
        ensures bytes { result.now ≡ self.now.bytes }
        ensures within { length self.now.bytes ≤ self.now.capacity }
    {
        &self.buffer[..self.len]
    }

    /// Whether the next write fails.
    pub fn is_full(&self) -> bool
        ensures full { IsTrue result ↔ (length self.now.bytes ≡ self.now.capacity) }
    {
        self.len == self.buffer.len()
    }
}

impl Sink for BufferSink {
    ghost written = { λ sink. Some sink.bytes };

    ghost failures = { λ sink. sink.failures };

    fn failures(&self) -> u64
        ensures { result ≡ self.now.failures }
    {
        self.failures
    }

    /// Takes as many bytes as fit. Only a write to a full buffer fails.
    fn write(&mut self, bytes: &[u8]) -> Result<usize, WriteFailed>
        requires some { 0 < length bytes.now }
        requires counts { self.old.failures < 2 ^ 64 - 1 }

        ensures count { IfOk result (λ n. (0 < n) × (n ≤ length bytes.now)) }
        ensures fits { IfOk result (λ n.
            n ≡ min (length bytes.now) (self.old.capacity - length self.old.bytes)) }
        ensures taken { IfOk result (λ n.
            self.new ≡ record self.old { bytes = self.old.bytes ++ take n bytes.now }) }

        ensures full { IsErr result ↔ (length self.old.bytes ≡ self.old.capacity) }
        ensures err { OnErr result
            (self.new ≡ record self.old { failures = self.old.failures + 1 }) }
    {
        if self.is_full() {
            self.failures += 1;
            return Err(WriteFailed);
        }
        let taken = bytes.len().min(self.buffer.len() - self.len);
        self.buffer[self.len..self.len + taken].copy_from_slice(&bytes[..taken]);
        self.len += taken;
        Ok(taken)
    }
}
