//! The bytes of a file, which are read no further than its limits allow.

ghost use Rattle.std.specs.Prelude.{◌≡◌, ◌↔◌, ◌≤◌, ◌<◌, ◌++◌, ◌∷◌, ◌⊎◌, [], ℕ, List, IfOk, IfSome, IsTrue, length, take, false};
ghost use Rattle.std.specs.Io.KnownBytes.{Consumes, IsAtEnd};
ghost use Rattle.idl_disk.specs.Extent.{Measures, has_begun};
ghost use Rattle.idl_disk.specs.Reading.{ArePastLimits, IsTextOf, without_mark};

use idl_source::{MAX_LINE, MAX_LINES, NEWLINE};
use std::alloc::{AllocError, Global};
use std::io::{self, ErrorKind, Read};

// Bytes that are read at once.
const PIECE: usize = 8192;

// What some editors put at the front of a file.
const BYTE_ORDER_MARK: &[u8] = b"\xef\xbb\xbf";

/// The bytes of a reader to its end, or to where they are past the limits of a file whatever comes behind: at the first byte of a
/// line that is too long, or of a line more than there may be. Of bytes to the end a byte order mark at the front is left out.
pub fn read_file<R: Read>(alloc: Global, reader: &mut R) -> io::Result<Vec<u8>>
    ensures { IfSome (R.remaining reader.old) (λ all.
        IfOk result (λ text. IsTextOf all text.items)) }
{
    let mut bytes = Vec::new(alloc);
    let mut extent = Extent::new();
    let mut piece = [0; PIECE];
    'pieces: for _ in 0..u64::MAX {
        let count = read_piece(reader, &mut piece)?;
        if count == 0 {
            let text = without_mark(bytes)?;
            return Ok(text);
        }
        let within = extent.add(&piece[..count]);
        bytes.extend_from_slice(&piece[..within])?;
        if extent.is_over() {
            return Ok(bytes);
        }
    }
    Err(io::Error::from(ErrorKind::Other))
}

// These bytes, but for a byte order mark at their front.
fn without_mark(bytes: Vec<u8>) -> Result<Vec<u8>, AllocError>
    ensures { IfOk result (λ text. text.items ≡ without_mark bytes.items) }
{
    let Some(text) = bytes.strip_prefix(BYTE_ORDER_MARK) else {
        return Ok(bytes);
    };
    Vec::from_slice(*bytes.allocator(), text)
}

// Reads bytes, and reads again where that was interrupted.
fn read_piece<R: Read>(reader: &mut R, piece: &mut [u8]) -> io::Result<usize>
    requires { 0 < length piece.old }
    ensures bound { IfOk result (λ count. count ≤ length piece.new) }
    ensures length { length piece.new ≡ length piece.old }
    ensures bytes { IfOk result (λ count.
        Consumes (R.remaining reader.old) (R.remaining reader.new) (take count piece.new)
        × (count ≡ 0 → IsAtEnd (R.remaining reader.new))) }
{
    'tries: for _ in 0..u64::MAX {
        match reader.read(piece) {
            Err(error) if error.kind() == ErrorKind::Interrupted => {}
            read => return read,
        }
    }
    Err(io::Error::from(ErrorKind::Interrupted))
}

// How much of a file bytes are: the lines that ended, and of the line that didn't how many bytes it has. A carriage return at
// its end isn't among these, since a newline may follow.
#[derive(Clone, Copy)]
struct Extent {
    lines: usize,
    bytes: usize,
    has_return: bool,
}

impl Extent {
    // No byte.
    fn new() -> Extent
        ensures { Measures [] result }
    {
        Extent {
            lines: 0,
            bytes: 0,
            has_return: false,
        }
    }

    // Whether they are past the limits of a file, whatever comes behind.
    fn is_over(self) -> bool
        ensures over { (bytes : List ℕ) → Measures bytes self
            → (IsTrue result ↔ ArePastLimits bytes) }
        ensures room { result ≡ false → (self.bytes ≤ 4096) × (self.lines ≤ 200000) }
    {
        if self.bytes > MAX_LINE {
            return true;
        }
        match self.has_begun() {
            true => self.lines >= MAX_LINES,
            false => self.lines > MAX_LINES,
        }
    }

    // Whether there is a line that didn't end.
    fn has_begun(self) -> bool
        ensures { result ≡ has_begun self }
    {
        self.bytes > 0 || self.has_return
    }

    // Bytes come behind, up to where they are past the limits: gives how many these are.
    fn add(&mut self, bytes: &[u8]) -> usize
        ensures within { result ≤ length bytes.now }
        ensures measures { (before : List ℕ) → Measures before self.old
            → Measures (before ++ take result bytes.now) self.new }
        ensures end { (before : List ℕ) → Measures before self.old
            → (result ≡ length bytes.now) ⊎ ArePastLimits (before ++ take result bytes.now) }
        ensures first { (before : List ℕ) → Measures before self.old
            → (n : ℕ) → n < result → ArePastLimits (before ++ take n bytes.now) → ⊥ }
    {
        'bytes: for count in 0..bytes.len() {
            if self.is_over() {
                return count;
            }
            *self = self.after(bytes[count]);
        }
        bytes.len()
    }

    // The same with one byte more.
    fn after(self, byte: u8) -> Extent
        requires bytes { self.bytes ≤ 4096 }
        requires lines { self.lines ≤ 200000 }
        ensures { (bytes : List ℕ) → Measures bytes self → Measures (bytes ++ byte ∷ []) result }
    {
        if byte == NEWLINE {
            return Extent {
                lines: self.lines + 1,
                bytes: 0,
                has_return: false,
            };
        }
        let bytes = match self.has_return {
            true => self.bytes + 1,
            false => self.bytes,
        };
        if byte == b'\r' {
            return Extent {
                lines: self.lines,
                bytes,
                has_return: true,
            };
        }
        Extent {
            lines: self.lines,
            bytes: bytes + 1,
            has_return: false,
        }
    }
}
