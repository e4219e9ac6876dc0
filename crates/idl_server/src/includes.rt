//! The include at a position of a file, and the file that it finds.

ghost use Rattle.std.specs.Prelude.{◌≡◌, ◌≤◌, IfSome, Some, length, nat_eq, not, position, slice_get};
ghost use Rattle.std.specs.Option.{option_to_list};
ghost use Rattle.idl_source.specs.names.Candidates.{along, found};
ghost use Rattle.idl_source.specs.names.Path.{joined_path};
ghost use Rattle.idl_server.specs.Includes.{blank_count, file_found, included_at, included_by, is_blank, operand_behind, operand_in, operand_until, word_end};
ghost use Rattle.idl_server.specs.Places.{lines_of};

use crate::places::{DocumentPosition, is_at};
use idl_editor::Encoding;
use idl_project::{MAX_DIRECTORIES, Session};
use idl_source::path::is_rooted;
use idl_source::{Directory, Name, join};

/// The operand of an include: behind how many bytes of its line its name begins and ends, and whether that stands in quotes.
#[derive(Clone, Copy)]
pub(crate) struct IncludeOperand {
    pub start: usize,
    pub end: usize,
    pub is_quoted: bool,
}

/// The file that the include at a position finds, where the operand of its line stands there.
pub(crate) fn included_at(
    session: &Session,
    encoding: Encoding,
    spot: DocumentPosition<'_>,
) -> Option<Name>
    requires { spot.file.now.lines ≡ lines_of session.now.project
        spot.file.now.name.now }
    ensures { result ≡ included_at encoding session.now.project
        spot.entry.file.now.name.now spot.entry.position }
{
    let line = spot.file.line_at(spot.position.line)?;
    included_by(session, encoding, spot, line)
}

// The same by that line.
fn included_by(
    session: &Session,
    encoding: Encoding,
    spot: DocumentPosition<'_>,
    line: &[u8],
) -> Option<Name>
    requires lines { spot.file.now.lines ≡ lines_of session.now.project
        spot.file.now.name.now }
    requires line { slice_get spot.file.now.lines spot.position.line ≡ Some line.now }
    ensures { result ≡ included_by encoding session.now.project
        spot.entry.file.now.name.now spot.entry.position line.now }
{
    let operand = operand_in(line)?;
    let range = spot
        .file
        .range_on(encoding, spot.position.line, (operand.start, operand.end));
    if !is_at(spot.position, range) {
        return None;
    }
    file_found(session, spot.file.name(), line, operand)
}

// The file that an operand on a line of a file finds.
fn file_found(session: &Session, name: &Name, line: &[u8], operand: IncludeOperand) -> Option<Name>
    requires { (operand.start ≤ operand.end) × (operand.end ≤ length line.now) }
    ensures { result ≡ file_found session.now.project name.now line.now operand }
{
    let spelled = &line[operand.start..operand.end];
    let beside = name.directory();
    if is_rooted(spelled) {
        return present(session, &beside, spelled);
    }
    if operand.is_quoted {
        if let Some(found) = present(session, &beside, spelled) {
            return Some(found);
        }
    }
    present_along(session, spelled)
}

// The first file along the search list.
fn present_along(session: &Session, spelled: &[u8]) -> Option<Name>
    ensures { result ≡ found session.now.project.inputs.files
        (along session.now.project.inputs.search spelled.now) }
{
    session.keeps_form();
    'directories: for at in 0..MAX_DIRECTORIES {
        let directory = directory_at(session, at)?;
        if let Some(found) = present(session, &directory, spelled) {
            return Some(found);
        }
    }
    None
}

// The directory at this place of the search list, if there is one.
fn directory_at(session: &Session, at: usize) -> Option<Directory>
    ensures { result ≡ slice_get session.now.project.inputs.search at }
{
    session.keeps_form();
    Directory::new(session.directory(at)?)
}

// The file that an operand makes in a directory, where it is present.
fn present(session: &Session, directory: &Directory, spelled: &[u8]) -> Option<Name>
    ensures { result ≡ found session.now.project.inputs.files
        (option_to_list (joined_path directory.now spelled.now)) }
{
    let name = join(directory, spelled)?;
    match session.file(name.as_bytes()) {
        Some(_lines) => Some(name),
        None => None,
    }
}

// The operand of the include that a line is.
fn operand_in(line: &[u8]) -> Option<IncludeOperand>
    ensures operand { result ≡ operand_in line.now }
    ensures within { IfSome result (λ operand.
        (operand.start ≤ operand.end) × (operand.end ≤ length line.now)) }
{
    let directive = word_end(line, b"#", 0)?;
    let word = word_end(line, b"include", directive)?;
    operand_behind(line, word)
}

// The name that stands behind so many bytes: in quotes, or in `<` and `>`.
fn operand_behind(line: &[u8], at: usize) -> Option<IncludeOperand>
    requires { at ≤ length line.now }
    ensures operand { result ≡ operand_behind line.now at }
    ensures within { IfSome result (λ operand.
        (operand.start ≤ operand.end) × (operand.end ≤ length line.now)) }
{
    if let Some(start) = word_end(line, b"\"", at) {
        return operand_until(line, b'"', start);
    }
    let start = word_end(line, b"<", at)?;
    operand_until(line, b'>', start)
}

// The name that begins behind so many bytes, and ends before a mark.
fn operand_until(line: &[u8], mark: u8, start: usize) -> Option<IncludeOperand>
    requires { start ≤ length line.now }
    ensures operand { result ≡ operand_until line.now mark start }
    ensures within { IfSome result (λ operand.
        (operand.start ≤ operand.end) × (operand.end ≤ length line.now)) }
{
    let len = place_of(&line[start..], mark)?;
    Some(IncludeOperand {
        start,
        end: start + len,
        is_quoted: mark == b'"',
    })
}

// Behind how many bytes of a line a word ends that stands behind so many of them, and blanks.
fn word_end(line: &[u8], word: &[u8], at: usize) -> Option<usize>
    requires { at ≤ length line.now }
    ensures end { result ≡ word_end line.now word.now at }
    ensures within { IfSome result (λ end. end ≤ length line.now) }
{
    let start = at + blank_count(&line[at..]);
    if line[start..].starts_with(word) {
        return Some(start + word.len());
    }
    None
}

// How many blanks bytes begin with.
fn blank_count(bytes: &[u8]) -> usize
    ensures count { result ≡ blank_count bytes.now }
    ensures within { result ≤ length bytes.now }
{
    place_past_blanks(bytes).unwrap_or(bytes.len())
}

// The place of the first byte that is no blank and no tab.
fn place_past_blanks(bytes: &[u8]) -> Option<usize>
    ensures place { result ≡ position (λ b. not (is_blank b)) bytes.now }
    ensures within { IfSome result (λ i. i ≤ length bytes.now) }
{
    bytes.iter().position(|byte| !is_blank(*byte))
}

// Whether a byte is a blank or a tab.
fn is_blank(byte: u8) -> bool
    ensures { result ≡ is_blank byte }
{
    byte == b' ' || byte == b'\t'
}

// The place of the first byte that is this one.
fn place_of(bytes: &[u8], mark: u8) -> Option<usize>
    ensures place { result ≡ position (λ b. nat_eq b mark) bytes.now }
    ensures within { IfSome result (λ i. i ≤ length bytes.now) }
{
    bytes.iter().position(|byte| *byte == mark)
}
