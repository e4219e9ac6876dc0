//! The report of a finding: where it is and what it says, its line, and marks below its token.

ghost use Rattle.std.specs.Prelude.{◌≡◌, ◌++◌, ◌<◌, IfOk, OnOk, flat_map};
ghost use Rattle.std.specs.Option.{option_copied};
ghost use Rattle.bstr.specs.Utf8.{decoded};
ghost use Rattle.idl_tool.specs.Report.{beginning, column_text, excerpt, gap_below, heading, hex_digit, is_shown, line_byte, line_text, mark_below, marked, marks, more_text, note_beginning, note_saying, numbered, other_byte, place_text, report, saying, second_line, severity, shown_first, shown_piece, shown_text, shown_token, token_in};

use bstr::decode_utf8;
use idl_driver::idl_sources::Finding;
use idl_explain::Words;
use idl_fault::{Code, Place};
use idl_related::Related;
use itoa::Buffer;
use std::alloc::{AllocError, Global};

/// A finding, with what a report shows beside it.
#[derive(Clone, Copy)]
pub struct LocatedFinding<'a> {
    pub finding: &'a Finding,
    /// The line of its place, if there is one.
    pub line: Option<&'a [u8]>,
    /// How many bytes of that are before its token, where this is known.
    pub column: Option<usize>,
}

impl<'a> LocatedFinding<'a> {
    /// Writes the report, with these words on the token.
    pub fn push(self, words: Words, out: &mut Vec<u8>) -> Result<(), AllocError>
        ensures { OnOk result (out.new.items ≡ out.old.items ++ report
            (option_copied self.entry.line) self.entry.column self.entry.finding.now words) }
    {
        self.push_heading(words, out)?;
        match self.line {
            Some(line) => push_excerpt(line, self.column, token_in(self.finding), out),
            None => Ok(()),
        }
    }

    // Writes `FILE:LINE:COLUMN: error: WORDS [CODE]`.
    fn push_heading(self, words: Words, out: &mut Vec<u8>) -> Result<(), AllocError>
        ensures { OnOk result (out.new.items ≡ out.old.items
            ++ heading self.entry.finding.now self.entry.column words) }
    {
        push_beginning(self.finding, self.column, out)?;
        push_saying(self.finding, words, out)
    }
}

// Writes `FILE:LINE:COLUMN: error: `.
fn push_beginning(
    finding: &Finding,
    column: Option<usize>,
    out: &mut Vec<u8>,
) -> Result<(), AllocError>
    ensures { OnOk result
        (out.new.items ≡ out.old.items ++ beginning finding.now column) }
{
    push_place(&finding.place, column, out)?;
    out.extend_from_slice(b": ")?;
    out.extend_from_slice(severity(finding.code))?;
    out.extend_from_slice(b": ")
}

// Writes `WORDS [CODE]`, and the line's end.
fn push_saying(finding: &Finding, words: Words, out: &mut Vec<u8>) -> Result<(), AllocError>
    ensures { OnOk result (out.new.items ≡ out.old.items ++ saying finding.now words) }
{
    let token = shown_text(*out.allocator(), token_in(finding), false)?;
    words.push(&token, out)?;
    out.extend_from_slice(b" [")?;
    out.extend_from_slice(&finding.code.text())?;
    out.extend_from_slice(b"]\n")
}

/// Writes the line of a second place: `FILE:LINE:COLUMN: note: near: TOKEN`, and how many more were found than are told.
pub fn push_second(
    second: &Related,
    column: Option<usize>,
    out: &mut Vec<u8>,
) -> Result<(), AllocError>
    ensures { OnOk result
        (out.new.items ≡ out.old.items ++ second_line second.now column) }
{
    push_note(&second.place, column, out)?;
    push_reason(second, out)
}

// Writes `FILE:LINE:COLUMN: note: `.
fn push_note(place: &Place, column: Option<usize>, out: &mut Vec<u8>) -> Result<(), AllocError>
    ensures { OnOk result
        (out.new.items ≡ out.old.items ++ note_beginning place.now column) }
{
    push_place(place, column, out)?;
    out.extend_from_slice(b": note: ")
}

// Writes `near: TOKEN`, how many more there are, and the line's end.
fn push_reason(second: &Related, out: &mut Vec<u8>) -> Result<(), AllocError>
    ensures { OnOk result (out.new.items ≡ out.old.items ++ note_saying second.now) }
{
    out.extend_from_slice(second.reason.words())?;
    out.extend_from_slice(b": ")?;
    push_token(second.text.as_bytes(), out)?;
    push_more(second.more, out)?;
    out.extend_from_slice(b"\n")
}

// Writes a token, as a terminal can show it.
fn push_token(token: &[u8], out: &mut Vec<u8>) -> Result<(), AllocError>
    ensures { OnOk result (out.new.items ≡ out.old.items ++ shown_token token.now) }
{
    let shown = shown_text(*out.allocator(), token, false)?;
    out.extend_from_slice(&shown)
}

// Writes `, and N more`, where so many more were found than are told.
fn push_more(more: usize, out: &mut Vec<u8>) -> Result<(), AllocError>
    ensures { OnOk result (out.new.items ≡ out.old.items ++ more_text more) }
{
    if more == 0 {
        return Ok(());
    }
    let mut number = Buffer::new();
    out.extend_from_slice(b", and ")?;
    out.extend_from_slice(number.format(more).as_bytes())?;
    out.extend_from_slice(b" more")
}

// What a row shows behind its code.
fn token_in(finding: &Finding) -> &[u8]
    ensures { result.now ≡ token_in finding.entry.now }
{
    match &finding.text {
        Some(text) => text.as_bytes(),
        None => b"",
    }
}

/// Writes `FILE:LINE:COLUMN`, or `FILE:LINE`.
pub(crate) fn push_place(
    place: &Place,
    column: Option<usize>,
    out: &mut Vec<u8>,
) -> Result<(), AllocError>
    ensures { OnOk result (out.new.items ≡ out.old.items ++ place_text place.now column) }
{
    out.extend_from_slice(place.file.as_bytes())?;
    push_line(place.line, out)?;
    push_column(column, out)
}

// Writes the number of a line, unless it is 0.
fn push_line(line: u32, out: &mut Vec<u8>) -> Result<(), AllocError>
    ensures { OnOk result (out.new.items ≡ out.old.items ++ line_text line) }
{
    if line == 0 {
        return Ok(());
    }
    let mut number = Buffer::new();
    out.extend_from_slice(b":")?;
    out.extend_from_slice(number.format(line).as_bytes())
}

// Writes a column, where it is known: people count from 1.
fn push_column(column: Option<usize>, out: &mut Vec<u8>) -> Result<(), AllocError>
    ensures { OnOk result (out.new.items ≡ out.old.items ++ column_text column) }
{
    let Some(column) = column else {
        return Ok(());
    };
    let mut number = Buffer::new();
    out.extend_from_slice(b":")?;
    out.extend_from_slice(number.format(column as u128 + 1).as_bytes())
}

fn severity(code: Code) -> &'static [u8]
    ensures { result.now ≡ severity code }
{
    if code.is_error() {
        b"error"
    } else {
        b"warning"
    }
}

// Writes a line, and marks below a token of which the column is known.
fn push_excerpt(
    line: &[u8],
    column: Option<usize>,
    token: &[u8],
    out: &mut Vec<u8>,
) -> Result<(), AllocError>
    ensures { OnOk result
        (out.new.items ≡ out.old.items ++ excerpt line.now column token.now) }
{
    let shown = shown_text(*out.allocator(), line, true)?;
    out.extend_from_slice(&shown)?;
    out.extend_from_slice(b"\n")?;
    let Some(column) = column else {
        return Ok(());
    };
    push_marks(line, column, token.len(), out)?;
    out.extend_from_slice(b"\n")
}

// Writes a gap below what stands before a column, and marks below so many bytes from there on.
fn push_marks(line: &[u8], column: usize, size: usize, out: &mut Vec<u8>) -> Result<(), AllocError>
    ensures { OnOk result (out.new.items ≡ out.old.items ++ marks line.now column size) }
{
    let alloc = *out.allocator();
    let end = column.min(line.len());
    let before = shown_text(alloc, &line[..end], true)?;
    let below = shown_text(alloc, marked(line, column, size), true)?;
    push_gap(&before, out)?;
    push_carets(&below, out)
}

// What is marked of a line: so many bytes from a column on, or the character that begins there, if that has more.
fn marked(line: &[u8], column: usize, size: usize) -> &[u8]
    ensures { result.now ≡ marked line.entry.now column size }
{
    let text = &line[column.min(line.len())..];
    let (_character, whole) = decode_utf8(text);
    text.get(..size.max(whole)).unwrap_or(text)
}

// Writes what is as wide as these characters, and shows nothing.
fn push_gap(shown: &[u8], out: &mut Vec<u8>) -> Result<(), AllocError>
    ensures { OnOk result (out.new.items ≡ out.old.items ++ flat_map gap_below shown.now) }
{
    'bytes: for b in shown {
        push_gap_below(*b, out)?;
    }
    Ok(())
}

fn push_gap_below(b: u8, out: &mut Vec<u8>) -> Result<(), AllocError>
    ensures { OnOk result (out.new.items ≡ out.old.items ++ gap_below b) }
{
    match b {
        128..=191 => Ok(()),
        b'\t' => out.extend_from_slice(b"\t"),
        _ => out.extend_from_slice(b" "),
    }
}

// Writes a mark below each of these characters.
fn push_carets(shown: &[u8], out: &mut Vec<u8>) -> Result<(), AllocError>
    ensures { OnOk result (out.new.items ≡ out.old.items ++ flat_map mark_below shown.now) }
{
    'bytes: for b in shown {
        push_mark_below(*b, out)?;
    }
    Ok(())
}

fn push_mark_below(b: u8, out: &mut Vec<u8>) -> Result<(), AllocError>
    ensures { OnOk result (out.new.items ≡ out.old.items ++ mark_below b) }
{
    match b {
        128..=191 => Ok(()),
        _ => out.extend_from_slice(b"^"),
    }
}

// A line, or a token, as a terminal can show it.
fn shown_text(alloc: Global, text: &[u8], is_line: bool) -> Result<Vec<u8>, AllocError>
    ensures { IfOk result (λ shown. shown.items ≡ shown_text is_line text.now) }
{
    let mut shown = Vec::new(alloc);
    let mut at = 0;
    'pieces: while at < text.len() {
        let size = push_first(&text[at..], is_line, &mut shown)?;
        at += size;
    }
    Ok(shown)
}

// Writes what is shown of the first piece of a text, a character or bytes that are none, and answers how many bytes it has.
fn push_first(text: &[u8], is_line: bool, out: &mut Vec<u8>) -> Result<usize, AllocError>
    ensures shown { OnOk result
        (out.new.items ≡ out.old.items ++ shown_first is_line text.now) }
    ensures size { IfOk result (λ size. size ≡ (decoded text.now).size) }
{
    let (character, size) = decode_utf8(text);
    let end = size.min(text.len());
    push_piece(character, &text[..end], is_line, out)?;
    Ok(size)
}

// Writes what is shown of a piece of these bytes.
#[tactic(auto, unfolding(crate::specs::Report::shown_piece))]
fn push_piece(
    character: Option<char>,
    bytes: &[u8],
    is_line: bool,
    out: &mut Vec<u8>,
) -> Result<(), AllocError>
    ensures { OnOk result
        (out.new.items ≡ out.old.items ++ shown_piece is_line character bytes.now) }
{
    if is_shown(character) {
        return out.extend_from_slice(bytes);
    }
    push_others(bytes, is_line, out)
}

// The marks of the direction of text: what has Unicode's property Bidi_Control.
const BIDI_CONTROLS: &[char] = &[
    '\u{61c}', '\u{200e}', '\u{200f}', '\u{202a}', '\u{202b}', '\u{202c}', '\u{202d}', '\u{202e}',
    '\u{2066}', '\u{2067}', '\u{2068}', '\u{2069}',
];

// Whether a character is shown as it is.
fn is_shown(character: Option<char>) -> bool
    ensures { result ≡ is_shown character }
{
    match character {
        Some(character) => !(character.is_control() || BIDI_CONTROLS.contains(&character)),
        None => false,
    }
}

// Writes bytes that aren't shown as they are.
fn push_others(bytes: &[u8], is_line: bool, out: &mut Vec<u8>) -> Result<(), AllocError>
    ensures { OnOk result
        (out.new.items ≡ out.old.items ++ flat_map (other_byte is_line) bytes.now) }
{
    'bytes: for b in bytes {
        push_other(*b, is_line, out)?;
    }
    Ok(())
}

fn push_other(b: u8, is_line: bool, out: &mut Vec<u8>) -> Result<(), AllocError>
    ensures { OnOk result (out.new.items ≡ out.old.items ++ other_byte is_line b) }
{
    if is_line {
        push_line_byte(b, out)
    } else {
        push_number(b, out)
    }
}

// Writes a byte of a line: a tab stays, and what else is white is a blank.
fn push_line_byte(b: u8, out: &mut Vec<u8>) -> Result<(), AllocError>
    ensures { OnOk result (out.new.items ≡ out.old.items ++ line_byte b) }
{
    match b {
        b'\t' => out.extend_from_slice(b"\t"),
        11..=13 => out.extend_from_slice(b" "),
        _ => push_number(b, out),
    }
}

// Writes the number of a byte.
fn push_number(b: u8, out: &mut Vec<u8>) -> Result<(), AllocError>
    ensures { OnOk result (out.new.items ≡ out.old.items ++ numbered b) }
{
    out.extend_from_slice(b"\\x")?;
    out.extend_from_slice(&[hex_digit(b / 16), hex_digit(b % 16)])
}

fn hex_digit(n: u8) -> u8
    requires { n < 16 }
    ensures { result ≡ hex_digit n }
{
    if n < 10 { b'0' + n } else { b'a' + (n - 10) }
}
