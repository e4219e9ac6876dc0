//! Lines of the joined text: a line of a file, with those that its backslashes join to it.

ghost use Rattle.std.specs.Prelude.{◌≡◌, ◌≤◌, ◌<◌, ◌+◌, ◌++◌, ◌^◌, length, replicate, IfOk, OnOk};
ghost use Rattle.idl_lex.specs.bytes.Text.{is_continued, front};
ghost use Rattle.idl_lex.specs.tokens.Logical.{joined_count, continued};

use idl_source::Line;
use idl_source::idl_base::Bytes;
use std::alloc::{AllocError, Global};
use std::marker::Model;

/// Bytes of a text without the newline that ends them, each with the number of its line. The bytes of one line of a file are shared with it.
#[derive(Drop)]
pub struct Logical {
    bytes: Bytes,
    // The numbers of the first bytes' lines; all further bytes stand on the last line.
    numbers: Vec<u32>,
    last: u32,
}

impl Model for Logical {
    ghost use Rattle.std.specs.Prelude.{List};
    ghost use Rattle.idl_lex.specs.bytes.Text.{Placed};
    ghost use Rattle.idl_lex.specs.tokens.Logical.{placed};

    ghost Value = { List Placed };

    ghost view = { λ logical. placed logical.numbers.items logical.last logical.bytes };
}

impl Logical {
    ghost use Rattle.std.specs.Prelude.{◌≡◌, ◌≤◌, ◌<◌, ◌+◌, ◌-◌, ◌^◌, length, take, drop, IfOk};
    ghost use Rattle.idl_lex.specs.bytes.Text.{Placed, bytes_of};
    ghost use Rattle.idl_lex.specs.tokens.Logical.{continued, line_at};

    /// The lines, the first of which has this number, as one: each but the last without its last byte, the backslash.
    pub fn new(alloc: Global, lines: &[Line], number: usize) -> Result<Logical, AllocError>
        requires some { 0 < length lines.now }
        requires room { number + length lines.now < 2 ^ 32 }
        ensures { IfOk result (λ logical. logical ≡ continued number lines.now) }
    {
        match lines {
            [line] => Ok(Logical {
                bytes: line.shared()?,
                numbers: Vec::new(alloc),
                last: number as u32,
            }),
            _ => join(alloc, lines, number),
        }
    }

    /// The bytes in order.
    pub fn as_bytes(&self) -> &[u8]
        ensures { result.now ≡ bytes_of self.now }
    {
        self.bytes.as_bytes()
    }

    /// The number of a byte's line.
    pub fn line_at(&self, i: usize) -> u32
        requires { i < length self.now }
        ensures { result ≡ line_at self.now i }
    {
        match self.numbers.get(i) {
            Some(number) => *number,
            None => self.last,
        }
    }

    /// The bytes from one place up to another, shared.
    #[inline(always)]
    pub fn spelling(&self, from: usize, to: usize) -> Result<Bytes, AllocError>
        requires order { from ≤ to }
        requires within { to ≤ length self.now }
        ensures { IfOk result
            (λ spelling. spelling ≡ take (to - from) (drop from (bytes_of self.now))) }
    {
        self.bytes.part(from, to)
    }
}

/// How many lines the first one and those that are joined to it are; none of no lines.
pub fn joined_count(lines: &[Line]) -> usize
    ensures count { result ≡ joined_count lines.now }
    ensures within { result ≤ length lines.now }
{
    let mut count = 0;
    'lines: while count < lines.len() {
        count += 1;
        if !is_continued(lines[count - 1].as_bytes()) {
            return count;
        }
    }
    count
}

// Joins lines, the first of which has this number.
fn join(alloc: Global, lines: &[Line], number: usize) -> Result<Logical, AllocError>
    requires room { number + length lines.now < 2 ^ 32 }
    requires some { 0 < length lines.now }
    ensures { IfOk result (λ logical. logical ≡ continued number lines.now) }
{
    let mut bytes = Vec::new(alloc);
    let mut numbers = Vec::new(alloc);
    let mut i = 0;
    'lines: while i + 1 < lines.len() {
        let front = front(lines[i].as_bytes());
        bytes.extend_from_slice(front)?;
        push_number(&mut numbers, (number + i) as u32, front.len())?;
        i += 1;
    }
    bytes.extend_from_slice(lines[i].as_bytes())?;
    Ok(Logical {
        bytes: Bytes::from_vec(bytes)?,
        numbers,
        last: (number + i) as u32,
    })
}

// Puts in a number this many times.
fn push_number(numbers: &mut Vec<u32>, number: u32, count: usize) -> Result<(), AllocError>
    ensures { OnOk result (numbers.new.items ≡ numbers.old.items ++ replicate count number) }
{
    for _ in 0..count {
        numbers.push(number)?;
    }
    Ok(())
}

/// Whether a line's last byte is a backslash.
pub(crate) fn is_continued(bytes: &[u8]) -> bool
    ensures { result ≡ is_continued bytes.now }
{
    !bytes.is_empty() && bytes[bytes.len() - 1] == b'\\'
}

/// All bytes but the last.
pub(crate) fn front(bytes: &[u8]) -> &[u8]
    ensures { result.now ≡ front bytes.entry.now }
{
    &bytes[..bytes.len().saturating_sub(1)]
}
