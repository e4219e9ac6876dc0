//! A line of a file: bytes without newline.
//!
//! A clone copies a pointer. It may answer want of memory, where the count of the pointer is full.

ghost use Rattle.std.specs.Prelude.{◌≡◌, ◌↔◌, [], IsNone, IsTrue, IfOk, IfSome, Contains, length};
ghost use Rattle.std.specs.Cmp.{partial_equiv_from_equiv};
ghost use Rattle.std.specs.Cmp.Lexicographic.{bytes_decides, nat_list_eq_equiv};
ghost use Rattle.std.specs.Str.{bytes_eq};

use idl_base::{Bytes, Datum};
use std::alloc::{AllocError, Global};
use std::marker::Model;

/// The byte that ends a line.
pub const NEWLINE: u8 = b'\n';

/// A line of a file: bytes without newline. A clone shares the bytes.
#[derive(Drop)]
pub struct Line {
    bytes: Bytes,
}

impl Model for Line {
    ghost use Rattle.std.specs.Prelude.{List, ℕ};
    ghost use Rattle.idl_source.specs.texts.Line.{IsLine};

    ghost Value = { List ℕ };

    ghost view = { λ line. line.bytes };

    ghost invariant = { λ line. IsLine line.bytes };
}

impl Line {
    ghost use Rattle.idl_source.specs.texts.Line.{IsLine, newline};

    /// Copies the bytes of a line, and answers `None` to bytes with a newline among them.
    pub fn new(alloc: Global, bytes: &[u8]) -> Result<Option<Line>, AllocError>
        ensures none { IfOk result (λ line. IsNone line ↔ Contains bytes.now newline) }
        ensures same { IfOk result (λ line. IfSome line (λ l. l ≡ bytes.now)) }
    {
        if bytes.contains(&NEWLINE) {
            return Ok(None);
        }
        Ok(Some(Line::copied(alloc, bytes)?))
    }

    /// Copies the bytes of a line.
    pub(crate) fn copied(alloc: Global, bytes: &[u8]) -> Result<Line, AllocError>
        requires { IsLine bytes.now }
        ensures { IfOk result (λ line. line ≡ bytes.now) }
    {
        Ok(Line {
            bytes: Bytes::from_slice(alloc, bytes)?,
        })
    }

    /// The line of these bytes.
    pub(crate) fn of(bytes: Bytes) -> Line
        requires { IsLine bytes }
        ensures { result ≡ bytes }
    {
        Line { bytes }
    }

    /// The bytes, none of them a newline.
    pub fn as_bytes(&self) -> &[u8]
        ensures bytes { result.now ≡ self.now }
        ensures one_line { IsLine self.now }
    {
        self.bytes.as_bytes()
    }

    /// The bytes, shared: no byte is copied.
    pub fn shared(&self) -> Result<Bytes, AllocError>
        ensures { IfOk result (λ bytes. bytes ≡ self.now) }
    {
        self.bytes.clone()
    }

    /// How many bytes there are.
    pub fn len(&self) -> usize
        ensures { result ≡ length self.now }
    {
        self.bytes.len()
    }

    /// Whether there is no byte.
    pub fn is_empty(&self) -> bool
        ensures { IsTrue result ↔ (self.now ≡ []) }
    {
        self.as_bytes().is_empty()
    }
}

impl Clone for Line {
    ghost is_clone = { λ line copy. copy ≡ line };

    fn clone(&self) -> Result<Line, AllocError> {
        let bytes = self.bytes.clone()?;
        Ok(Line { bytes })
    }
}

impl PartialEq for Line {
    ghost eq = { bytes_eq };

    ghost laws = { partial_equiv_from_equiv nat_list_eq_equiv };

    fn eq(&self, other: &Line) -> bool
        ensures by_byte { result ≡ bytes_eq self.now other.now }
        ensures exact { IsTrue result ↔ (self.now ≡ other.now) }
    {
        self.as_bytes() == other.as_bytes()
    }
}

impl Eq for Line {
    ghost laws = { nat_list_eq_equiv };
}

impl Datum for Line {
    ghost same = { λ x y. (bytes_decides x y).0 };

    ghost copy = { λ x y h. h };
}
