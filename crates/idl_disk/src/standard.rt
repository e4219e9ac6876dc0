//! Standard input and output as devices of commands and replies.

ghost use Rattle.std.specs.Prelude.{◌≡◌, None};

use idl_source::devices::{ReadFailed, WriteFailed};
use idl_source::{Sink, Source};
use std::io::{Read, Write};

/// Bytes of a reader. It gives no further ones after 2^64 - 1 reads, and then fails. A read that the host asks to be tried
/// again, as one that would block, is one that failed.
#[derive(Drop)]
pub struct StandardInput<R> {
    reader: R,
    reads_left: u64,
    failures: u64,
}

impl<R: Read + Drop> StandardInput<R> {
    /// Nothing was read.
    pub fn new(reader: R) -> StandardInput<R>
        ensures { result.failures ≡ 0 }
    {
        StandardInput {
            reader,
            reads_left: u64::MAX,
            failures: 0,
        }
    }
}

impl<R: Read + Drop> Source for StandardInput<R> {
    ghost remaining = { λ _. None };

    ghost reads_left = { λ input. input.reads_left };

    ghost failures = { λ input. input.failures };

    fn failures(&self) -> u64 {
        self.failures
    }

    fn read(&mut self, buffer: &mut [u8]) -> Result<usize, ReadFailed> {
        if self.reads_left == 0 {
            self.failures += 1;
            return Err(ReadFailed);
        }
        self.reads_left -= 1;
        match self.reader.read(buffer) {
            Ok(n) => Ok(n),
            Err(_) => {
                self.failures += 1;
                Err(ReadFailed)
            }
        }
    }
}

/// Bytes to a writer. A write that takes no byte is one that failed.
#[derive(Drop)]
pub struct StandardOutput<W> {
    writer: W,
    failures: u64,
}

impl<W: Write + Drop> StandardOutput<W> {
    /// Nothing was written.
    pub fn new(writer: W) -> StandardOutput<W>
        ensures { result.failures ≡ 0 }
    {
        StandardOutput {
            writer,
            failures: 0,
        }
    }
}

impl<W: Write + Drop> Sink for StandardOutput<W> {
    ghost written = { λ _. None };

    ghost failures = { λ output. output.failures };

    fn failures(&self) -> u64 {
        self.failures
    }

    fn write(&mut self, bytes: &[u8]) -> Result<usize, WriteFailed> {
        match self.writer.write(bytes) {
            Ok(n) if n > 0 => Ok(n),
            _ => {
                self.failures += 1;
                Err(WriteFailed)
            }
        }
    }
}
