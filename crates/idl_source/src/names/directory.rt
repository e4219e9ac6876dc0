//! Directories: where operands of includes are looked for.

ghost use Rattle.std.specs.Prelude.{◌≡◌, ◌↔◌, IsTrue, IsSome, IfSome};
ghost use Rattle.std.specs.Cmp.{partial_equiv_from_equiv};
ghost use Rattle.std.specs.Cmp.Lexicographic.{bytes_decides, nat_list_eq_equiv};
ghost use Rattle.std.specs.Str.{bytes_eq};
ghost use Rattle.std.specs.List.{list_all};
ghost use Rattle.idl_source.specs.names.Name.{is_up, segments};
ghost use Rattle.idl_source.specs.names.Directory.{is_directory, directory_of};

use crate::MAX_NAME;
use crate::names::name::{Name, is_name, is_up};
use crate::names::parts::{first_part, last_part};
use idl_base::Datum;
use std::alloc::AllocError;
use std::marker::Model;

/// A directory: a name as a file has it, or `.`, `/`, or a run of `..` segments, of 1 to 255 bytes.
///
/// It holds its bytes in place, so that making and copying one takes no memory.
#[derive(Drop)]
pub struct Directory {
    bytes: [u8; MAX_NAME],
    len: usize,
}

impl Model for Directory {
    ghost use Rattle.std.specs.Prelude.{List, ℕ, take, ◌≤◌, IsTrue};
    ghost use Rattle.idl_source.specs.names.Directory.{is_directory};
    ghost use Rattle.idl_source.specs.Limits.{longest_name};

    ghost Value = { List ℕ };

    ghost view = { λ directory. take directory.len directory.bytes };

    ghost invariant = { λ directory. (directory.len ≤ longest_name)
        × IsTrue (is_directory (take directory.len directory.bytes)) };
}

impl Directory {
    /// The directory of these bytes, if they make one. It takes no memory.
    pub fn new(bytes: &[u8]) -> Option<Directory>
        ensures allowed { IsSome result ↔ IsTrue (is_directory bytes.now) }
        ensures same { IfSome result (λ directory. directory ≡ bytes.now) }
    {
        if !is_directory(bytes) {
            return None;
        }
        Some(Directory::of(bytes))
    }

    /// The bytes, which make a directory.
    pub fn as_bytes(&self) -> &[u8]
        ensures bytes { result.now ≡ self.now }
        ensures allowed { IsTrue (is_directory self.now) }
    {
        &self.bytes[..self.len]
    }

    /// The same directory again. It takes no memory.
    pub fn copied(&self) -> Directory
        ensures { result ≡ self.now }
    {
        Directory {
            bytes: self.bytes,
            len: self.len,
        }
    }

    // The directory of bytes that make one.
    fn of(bytes: &[u8]) -> Directory
        requires { IsTrue (is_directory bytes.now) }
        ensures { result ≡ bytes.now }
    {
        let mut array = [0; MAX_NAME];
        array[..bytes.len()].copy_from_slice(bytes);
        Directory {
            bytes: array,
            len: bytes.len(),
        }
    }
}

impl Name {
    /// The directory of the file: its name up to the last `/`. It is `.` where there is none, and `/` where that stands
    /// first. It takes no memory.
    pub fn directory(&self) -> Directory
        ensures { result ≡ directory_of self.now }
    {
        let (before, _) = last_part(self.as_bytes(), b'/');
        match before {
            None => Directory::of(b"."),
            Some(before) => {
                if before.is_empty() {
                    return Directory::of(b"/");
                }
                Directory::of(before)
            }
        }
    }
}

fn is_directory(bytes: &[u8]) -> bool
    ensures { result ≡ is_directory bytes.now }
{
    if is_name(bytes) {
        return true;
    }
    if bytes == b".".as_slice() {
        return true;
    }
    if bytes == b"/".as_slice() {
        return true;
    }
    bytes.len() <= MAX_NAME && are_up(bytes)
}

// Whether each segment is `..`.
fn are_up(bytes: &[u8]) -> bool
    ensures { result ≡ list_all is_up (segments bytes.now) }
{
    let mut left = bytes;
    'segments: loop {
        let (segment, rest) = first_part(left, b'/');
        if !is_up(segment) {
            return false;
        }
        match rest {
            Some(rest) => left = rest,
            None => return true,
        }
    }
}

impl Clone for Directory {
    ghost is_clone = { λ directory copy. copy ≡ directory };

    ghost is_infallible = { λ _. Unit {0} };

    fn clone(&self) -> Result<Directory, AllocError> {
        Ok(self.copied())
    }
}

impl PartialEq for Directory {
    ghost eq = { bytes_eq };

    ghost laws = { partial_equiv_from_equiv nat_list_eq_equiv };

    fn eq(&self, other: &Directory) -> bool
        ensures by_byte { result ≡ bytes_eq self.now other.now }
        ensures exact { IsTrue result ↔ (self.now ≡ other.now) }
    {
        self.as_bytes() == other.as_bytes()
    }
}

impl Eq for Directory {
    ghost laws = { nat_list_eq_equiv };
}

impl Datum for Directory {
    ghost same = { λ x y. (bytes_decides x y).0 };

    ghost copy = { λ x y h. h };
}
