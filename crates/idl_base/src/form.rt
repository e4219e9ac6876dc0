//! The forms in which bytes are held: few in place, and more in a block that is shared.

ghost use Rattle.std.specs.Prelude.{◌≡◌, ◌≤◌, ◌<◌, ◌∷◌, ◌↔◌, ◌*◌, [], IfNone, IfOk, IfSome, IsTrue, drop, length, slice_range, take};
ghost use Rattle.std.specs.Int.{to_le_bytes, w64};
ghost use Rattle.std.specs.Rc.{rc_slice_items};
ghost use Rattle.std.specs.Str.{str_to_ascii_lowercase};
ghost use Rattle.idl_base.specs.Form.{IsWithin, form_bytes};

use std::alloc::{AllocError, Global};
use std::marker::Model;
use std::rc::RcSlice;

// Up to so many bytes stand in place: with them a form is no larger than one of shared bytes.
const MOST: usize = 14;

/// Bytes, as they are held.
#[derive(Drop)]
pub enum Form {
    /// Few of them, in place.
    Few(Short),
    // The places stand before the pointer, where an enum has room beside its tag.
    /// Those of a block from one place up to another.
    Part(u16, u16, RcSlice<u8>),
    /// Those of a block whose places are larger numbers.
    Far(Box<Far>),
}

/// A block of bytes, and from which place up to which they count.
#[derive(Drop)]
pub struct Far {
    pub block: RcSlice<u8>,
    pub from: usize,
    pub to: usize,
}

impl Form {
    /// The bytes of a block from one place up to another.
    pub fn shared(
        alloc: Global,
        block: RcSlice<u8>,
        from: usize,
        to: usize,
    ) -> Result<Form, AllocError>
        requires order { from ≤ to }
        requires within { to ≤ length (rc_slice_items block) }
        ensures same { IfOk result (λ form.
            form_bytes form ≡ slice_range (rc_slice_items block) from to) }
        ensures within { IfOk result IsWithin }
    {
        match (u16::try_from(from), u16::try_from(to)) {
            (Ok(from), Ok(to)) => Ok(Form::Part(from, to, block)),
            _ => Ok(Form::Far(Box::new(alloc, Far { block, from, to })?)),
        }
    }

    /// The bytes in order.
    #[inline(never)]
    pub fn as_bytes(&self) -> &[u8]
        requires { IsWithin self.now }
        ensures { result.now ≡ form_bytes self.now }
    {
        match self {
            Form::Few(short) => short.as_bytes(),
            Form::Part(from, to, block) => &block.as_slice()[*from as usize..*to as usize],
            Form::Far(far) => &far.block.as_slice()[far.from..far.to],
        }
    }

    /// The same bytes again: those in place are copied, and the others stay shared.
    #[inline(never)]
    pub fn copied(&self) -> Result<Form, AllocError>
        requires { IsWithin self.now }
        ensures same { IfOk result (λ form. form_bytes form ≡ form_bytes self.now) }
        ensures within { IfOk result IsWithin }
    {
        match self {
            Form::Few(short) => Ok(Form::Few(short.copied())),
            Form::Part(from, to, block) => Ok(Form::Part(*from, *to, block.clone()?)),
            Form::Far(far) => {
                Form::shared(*Box::allocator(far), far.block.clone()?, far.from, far.to)
            }
        }
    }

    /// Those from one place up to another: of those in place a copy, and others stay shared.
    #[inline(never)]
    pub fn part(&self, from: usize, to: usize) -> Result<Form, AllocError>
        requires held { IsWithin self.now }
        requires order { from ≤ to }
        requires within { to ≤ length (form_bytes self.now) }
        ensures same { IfOk result (λ form.
            form_bytes form ≡ slice_range (form_bytes self.now) from to) }
        ensures within { IfOk result IsWithin }
    {
        match self {
            Form::Few(short) => Ok(Form::Few(short.part(from, to))),
            Form::Part(begin, end, block) => {
                let _end = *end;
                let (from, to) = (*begin + from as u16, *begin + to as u16);
                Ok(Form::Part(from, to, block.clone()?))
            }
            Form::Far(far) => {
                let (from, to) = (far.from + from, far.from + to);
                Form::shared(*Box::allocator(far), far.block.clone()?, from, to)
            }
        }
    }
}

/// Few bytes, in place.
#[derive(Drop)]
pub struct Short {
    count: u8,
    bytes: [u8; MOST],
}

impl Model for Short {
    ghost use Rattle.std.specs.Prelude.{List, ℕ, take, ◌≤◌};

    ghost Value = { List ℕ };

    ghost view = { λ short. take short.count short.bytes };

    ghost invariant = { λ short. short.count ≤ 14 };
}

impl Short {
    /// These bytes, if they are few.
    pub fn new(bytes: &[u8]) -> Option<Short>
        ensures same { IfSome result (λ short. short ≡ bytes.now) }
        ensures few { IfNone result (14 < length bytes.now) }
    {
        if bytes.len() > MOST {
            return None;
        }
        Some(Short::of(bytes))
    }

    /// This byte.
    pub fn of_byte(b: u8) -> Short
        ensures { result ≡ b ∷ [] }
    {
        let mut bytes = [0; MOST];
        bytes[0] = b;
        Short { count: 1, bytes }
    }

    // These few bytes.
    fn of(bytes: &[u8]) -> Short
        requires { length bytes.now ≤ 14 }
        ensures { result ≡ bytes.now }
    {
        let len = bytes.len();
        let mut array = [0; MOST];
        if 8 <= len {
            put_ends(&mut array, bytes, 8);
        } else if 4 <= len {
            put_ends(&mut array, bytes, 4);
        } else if 2 <= len {
            put_ends(&mut array, bytes, 2);
        } else if len == 1 {
            array[0] = bytes[0];
        }
        Short {
            count: len as u8,
            bytes: array,
        }
    }

    /// The bytes in order.
    #[inline(always)]
    pub fn as_bytes(&self) -> &[u8]
        ensures { result.now ≡ self.now }
    {
        &self.bytes[..self.count as usize]
    }

    /// The same bytes again.
    pub fn copied(&self) -> Short
        ensures { result ≡ self.now }
    {
        Short {
            count: self.count,
            bytes: self.bytes,
        }
    }

    /// Those from one place up to another.
    pub fn part(&self, from: usize, to: usize) -> Short
        requires order { from ≤ to }
        requires within { to ≤ length self.now }
        ensures { result ≡ slice_range self.now from to }
    {
        Short::of(&self.bytes[..self.count as usize][from..to])
    }

    /// Whether it is a copy of the other, also in what stands behind the bytes in place. Nothing follows where it is none.
    pub fn is_copy_of(&self, other: &Short) -> bool
        ensures { IsTrue result → self.now ≡ other.now }
    {
        self.count == other.count && are_same(&self.bytes, &other.bytes)
    }

    /// The bytes with each capital letter made small.
    #[inline(always)]
    pub fn folded(mut self) -> Short
        ensures { result ≡ str_to_ascii_lowercase self }
    {
        self.bytes.make_ascii_lowercase();
        self
    }
}

// Puts in few bytes: so many of the first ones, and so many of the last ones, which are all of them.
fn put_ends(array: &mut [u8; MOST], bytes: &[u8], count: usize)
    requires few { length bytes.now ≤ 14 }
    requires within { count ≤ length bytes.now }
    requires all { length bytes.now ≤ 2 * count }
    ensures { take (length bytes.now) array.new ≡ bytes.now }
{
    let len = bytes.len();
    array[..count].copy_from_slice(&bytes[..count]);
    array[len - count..len].copy_from_slice(&bytes[len - count..]);
}

// Whether these are the same bytes: the first eight are, and the last eight.
fn are_same(bytes: &[u8; MOST], others: &[u8; MOST]) -> bool
    ensures { IsTrue result ↔ (bytes.now ≡ others.now) }
{
    front(bytes) == front(others) && back(bytes) == back(others)
}

// The first eight bytes, as a number.
fn front(bytes: &[u8; MOST]) -> u64
    ensures { to_le_bytes w64 result ≡ take 8 bytes.now }
{
    word(bytes.first_chunk::<8>().unwrap())
}

// The last eight bytes, as a number.
fn back(bytes: &[u8; MOST]) -> u64
    ensures { to_le_bytes w64 result ≡ drop 6 bytes.now }
{
    word(bytes.last_chunk::<8>().unwrap())
}

// Eight bytes, as a number.
fn word(bytes: &[u8; 8]) -> u64
    ensures { to_le_bytes w64 result ≡ bytes.now }
{
    u64::from_le_bytes(*bytes)
}
