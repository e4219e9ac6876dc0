//! What the first bytes of a message tell.

ghost use Rattle.std.specs.Prelude.{◌≡◌, ◌≤◌, All, length, map};
ghost use Rattle.std.specs.Char.{is_ascii_digit};
ghost use Rattle.std.specs.List.{list_all};
ghost use Rattle.httparse.specs.Spans.{IsHeaderWithin, header_bytes};
ghost use Rattle.idl_editor.specs.frames.Message.{announced, is_length, is_number, number_of};
ghost use Rattle.idl_editor.specs.frames.Heads.{Tells, begun_by, head_by};

use crate::frames::{MAX_BODY, MAX_FIELDS, MAX_HEAD};
use httparse::Status;
use httparse::spans::{EMPTY_HEADER_SPAN, HeaderSpan, parse_headers};

/// What the first bytes of a message tell of its head.
#[derive(Clone, Copy)]
pub enum Head {
    /// The head has so many bytes, and the body so many.
    Whole(usize, usize),
    /// The bytes are none, and may begin one.
    Begun,
    /// The head announces a body of more bytes than there may be.
    OverLimit,
    /// No head begins with these bytes, whatever follows.
    Missing,
}

/// What these bytes tell of a head.
pub fn head_of(bytes: &[u8]) -> Head
    ensures { Tells bytes.now result }
{
    let mut fields = [EMPTY_HEADER_SPAN; MAX_FIELDS];
    match parse_headers(bytes, &mut fields) {
        Ok(Status::Complete((len, count))) => head_by(len, announced(bytes, &fields[..count])),
        Ok(Status::Partial) => begun_by(bytes.len()),
        Err(_) => Head::Missing,
    }
}

// What a head of so many bytes is that announces a body of so many.
fn head_by(len: usize, announced: Option<u64>) -> Head
    ensures { result ≡ head_by len announced }
{
    match announced {
        Some(_) if len > MAX_HEAD => Head::Missing,
        Some(count) if count > MAX_BODY as u64 => Head::OverLimit,
        Some(count) => Head::Whole(len, count as usize),
        None => Head::Missing,
    }
}

// What so many bytes are that may begin a head.
fn begun_by(len: usize) -> Head
    ensures { result ≡ begun_by len }
{
    if len < MAX_HEAD {
        Head::Begun
    } else {
        Head::Missing
    }
}

// How many bytes of a body the fields of a head announce.
fn announced(bytes: &[u8], fields: &[HeaderSpan]) -> Option<u64>
    requires { All (IsHeaderWithin (length bytes.now)) fields.now }
    ensures { result ≡ announced (map (header_bytes bytes.now) fields.now) }
{
    for field in fields {
        if is_length(field.name.of(bytes)) {
            return number_of(field.value.of(bytes));
        }
    }
    None
}

// Whether a field of this name tells the length.
fn is_length(name: &[u8]) -> bool
    ensures { result ≡ is_length name.now }
{
    name.eq_ignore_ascii_case(b"Content-Length")
}

// The number that 1 to 15 digits write.
fn number_of(digits: &[u8]) -> Option<u64>
    ensures { result ≡ number_of digits.now }
{
    if !is_number(digits) {
        return None;
    }
    let mut number: u64 = 0;
    for digit in digits {
        number = number * 10 + u64::from(digit.saturating_sub(b'0'));
    }
    Some(number)
}

#[tactic(auto, unfolding(crate::specs::frames::Message::is_number))]
fn is_number(digits: &[u8]) -> bool
    ensures { result ≡ is_number digits.now }
{
    !digits.is_empty() && digits.len() <= 15 && are_digits(digits)
}

fn are_digits(bytes: &[u8]) -> bool
    ensures { result ≡ list_all is_ascii_digit bytes.now }
{
    bytes.iter().all(|b| b.is_ascii_digit())
}
