//! The text of a declaration as it stands in its file, with the comment above it.

ghost use Rattle.std.specs.Prelude.{◌≤◌, length};

use idl_fault::Place;
use idl_project::{Session, SitedToken};
use idl_source::Line;
use std::alloc::AllocError;

// So many lines of a declaration are shown, and so many of the comment above it.
const MOST_LINES: usize = 12;

/// Puts in the lines from a token through another one, of many the first ones, behind those of the comment above them. Each line stands
/// behind a newline.
pub(crate) fn push_declaration(
    text: &mut Vec<u8>,
    session: &Session,
    first: &SitedToken,
    last: &SitedToken,
) -> Result<(), AllocError> {
    let (first, last) = (&first.place, &last.place);
    let Some(lines) = session.file(first.file.as_bytes()) else {
        return Ok(());
    };
    let begin = (first.line as usize).saturating_sub(1).min(lines.len());
    let (above, here) = (&lines[..begin], &lines[begin..]);
    let count = line_count(first, last).min(MOST_LINES).min(here.len());
    push_lines(text, &above[comment_start(above)..])?;
    push_lines(text, &here[..count])
}

// How many lines go from a place through another one. What ends in another file is shown by its first line.
fn line_count(first: &Place, last: &Place) -> usize {
    if last.file.as_bytes() != first.file.as_bytes() {
        return 1;
    }
    (last.line.saturating_sub(first.line) as usize).saturating_add(1)
}

// Puts in lines, each behind a newline, without the blanks at its end.
fn push_lines(text: &mut Vec<u8>, lines: &[Line]) -> Result<(), AllocError> {
    'lines: for line in lines {
        text.push(b'\n')?;
        text.extend_from_slice(line.as_bytes().trim_ascii_end())?;
    }
    Ok(())
}

// On which of these lines the comment begins that ends on the last one: a block, or lines of `//`. How many they are where there is none.
fn comment_start(above: &[Line]) -> usize
    ensures { result ≤ length above.now }
{
    match above.last() {
        Some(line) if line.as_bytes().trim_ascii_end().ends_with(b"*/") => block_start(above),
        _ => remark_start(above),
    }
}

// The same of lines of `//`.
fn remark_start(above: &[Line]) -> usize
    ensures { result ≤ length above.now }
{
    let mut start = above.len();
    'up: for _ in 0..MOST_LINES {
        let Some(index) = start.checked_sub(1) else {
            return start;
        };
        if !above[index]
            .as_bytes()
            .trim_ascii_start()
            .starts_with(b"//")
        {
            return start;
        }
        start = index;
    }
    start
}

// The same of a block that ends on the last one: it begins on the nearest line with `/*`, and is no comment of its own if that has
// something before it.
fn block_start(above: &[Line]) -> usize
    ensures { result ≤ length above.now }
{
    let mut start = above.len();
    'up: for _ in 0..MOST_LINES {
        let Some(index) = start.checked_sub(1) else {
            return above.len();
        };
        start = index;
        if let Some(before) = before_opening(above[index].as_bytes()) {
            return if before.trim_ascii().is_empty() {
                index
            } else {
                above.len()
            };
        }
    }
    above.len()
}

// What a line has before the first `/*`.
fn before_opening(line: &[u8]) -> Option<&[u8]> {
    'bytes: for index in 0..line.len() {
        if line[index..].starts_with(b"/*") {
            return Some(&line[..index]);
        }
    }
    None
}
