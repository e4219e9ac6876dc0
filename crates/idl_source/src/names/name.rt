//! The names of files.

ghost use Rattle.std.specs.Prelude.{◌≡◌, ◌↔◌, IsTrue, IsSome, IfSome, Some, refl};
ghost use Rattle.std.specs.Cmp.{partial_equiv_from_equiv};
ghost use Rattle.std.specs.Cmp.Lexicographic.{slice_cmp, bytes_decides, nat_list_eq_equiv, nat_list_cmp_total, texts_ties, texts_po};
ghost use Rattle.std.specs.Hash as fed;
ghost use Rattle.std.specs.Ordering.{nat_cmp};
ghost use Rattle.std.specs.Str.{bytes_eq};
ghost use Rattle.std.proofs.Common.{ap};
ghost use Rattle.std.specs.List.{list_all};
ghost use Rattle.idl_source.specs.names.Name.{is_name, is_visible, is_path, climbs, segments, is_plain, is_up};

use crate::MAX_NAME;
use crate::names::parts::first_part;
use idl_base::Datum;
use std::alloc::AllocError;
use std::cmp::Ordering;
use std::hash::{Hash, Hasher};
use std::marker::Model;

/// The name of a file: 1 to 255 bytes from 33 to 126, an optional leading `/` or a run of leading `..` segments, and
/// then one segment or more, none of them `.` or `..`, joined by single `/`.
///
/// It holds its bytes in place, so that making and copying one takes no memory. Names are ordered byte by byte.
#[derive(Drop)]
pub struct Name {
    bytes: [u8; MAX_NAME],
    len: usize,
}

impl Model for Name {
    ghost use Rattle.std.specs.Prelude.{List, ℕ, take, ◌≤◌, IsTrue};
    ghost use Rattle.idl_source.specs.Limits.{longest_name};
    ghost use Rattle.idl_source.specs.names.Name.{is_name};

    ghost Value = { List ℕ };

    ghost view = { λ name. take name.len name.bytes };

    ghost invariant = { λ name. (name.len ≤ longest_name) × IsTrue (is_name (take name.len name.bytes)) };
}

impl Name {
    /// The name of these bytes, if they make one. It takes no memory.
    pub fn new(bytes: &[u8]) -> Option<Name>
        ensures allowed { IsSome result ↔ IsTrue (is_name bytes.now) }
        ensures same { IfSome result (λ name. name ≡ bytes.now) }
    {
        if !is_name(bytes) {
            return None;
        }
        let mut array = [0; MAX_NAME];
        array[..bytes.len()].copy_from_slice(bytes);
        Some(Name {
            bytes: array,
            len: bytes.len(),
        })
    }

    /// The bytes, which make a name.
    pub fn as_bytes(&self) -> &[u8]
        ensures bytes { result.now ≡ self.now }
        ensures allowed { IsTrue (is_name self.now) }
    {
        &self.bytes[..self.len]
    }

    /// The same name again. It takes no memory.
    pub fn copied(&self) -> Name
        ensures { result ≡ self.now }
    {
        Name {
            bytes: self.bytes,
            len: self.len,
        }
    }
}

pub fn is_name(bytes: &[u8]) -> bool
    ensures { result ≡ is_name bytes.now }
{
    !bytes.is_empty() && bytes.len() <= MAX_NAME && are_visible(bytes) && is_path(bytes)
}

fn are_visible(bytes: &[u8]) -> bool
    ensures { result ≡ list_all is_visible bytes.now }
{
    bytes.iter().all(|b| 33 <= *b && *b <= 126)
}

fn is_path(bytes: &[u8]) -> bool
    ensures { result ≡ is_path bytes.now }
{
    match bytes {
        [] => false,
        [b'/', rest @ ..] => are_plain(rest),
        _ => climbs(bytes),
    }
}

// Whether each segment is plain.
fn are_plain(bytes: &[u8]) -> bool
    ensures { result ≡ list_all is_plain (segments bytes.now) }
{
    let mut left = bytes;
    'segments: loop {
        let (segment, rest) = first_part(left, b'/');
        if !is_plain(segment) {
            return false;
        }
        match rest {
            Some(rest) => left = rest,
            None => return true,
        }
    }
}

// Whether any run of `..` is followed by one plain segment or more.
fn climbs(bytes: &[u8]) -> bool
    ensures { result ≡ climbs (segments bytes.now) }
{
    let mut left = bytes;
    'segments: loop {
        let (segment, rest) = first_part(left, b'/');
        if !is_up(segment) {
            return are_plain(left);
        }
        match rest {
            Some(rest) => left = rest,
            None => return false,
        }
    }
}

pub fn is_up(segment: &[u8]) -> bool
    ensures { result ≡ is_up segment.now }
{
    segment == b"..".as_slice()
}

pub fn is_plain(segment: &[u8]) -> bool
    ensures { result ≡ is_plain segment.now }
{
    !segment.is_empty() && segment != b".".as_slice() && !is_up(segment)
}

impl Clone for Name {
    ghost is_clone = { λ name copy. copy ≡ name };

    ghost is_infallible = { λ _. Unit {0} };

    fn clone(&self) -> Result<Name, AllocError> {
        Ok(self.copied())
    }
}

impl PartialEq for Name {
    ghost eq = { bytes_eq };

    ghost laws = { partial_equiv_from_equiv nat_list_eq_equiv };

    fn eq(&self, other: &Name) -> bool
        ensures by_byte { result ≡ bytes_eq self.now other.now }
        ensures exact { IsTrue result ↔ (self.now ≡ other.now) }
    {
        self.as_bytes() == other.as_bytes()
    }
}

impl Eq for Name {
    ghost laws = { nat_list_eq_equiv };
}

impl PartialOrd for Name {
    ghost partial_cmp = { λ x y. Some (slice_cmp nat_cmp x y) };

    ghost laws = { texts_po };

    fn partial_cmp(&self, other: &Name) -> Option<Ordering> {
        Some(self.cmp(other))
    }
}

impl Ord for Name {
    ghost cmp = { slice_cmp nat_cmp };

    ghost total = { nat_list_cmp_total };

    ghost matches_partial_cmp = { λ x y. refl };

    ghost matches_eq = { texts_ties };

    fn cmp(&self, other: &Name) -> Ordering
        ensures by_byte { result ≡ slice_cmp nat_cmp self.now other.now }
        ensures exact { (result ≡ Ordering.Equal) ↔ (self.now ≡ other.now) }
    {
        self.as_bytes().cmp(&other.as_bytes())
    }
}

impl Hash for Name {
    ghost hash_input = { fed.slice fed.u8 };

    ghost respects_eq = { λ x y h. ap (fed.slice fed.u8) ((bytes_decides x y).0 h) };

    fn hash<H: Hasher>(&self, state: &mut H) {
        self.as_bytes().hash(state);
    }
}

impl Datum for Name {
    ghost same = { λ x y. (bytes_decides x y).0 };

    ghost copy = { λ x y h. h };
}
