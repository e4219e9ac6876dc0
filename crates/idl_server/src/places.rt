//! Places in files of a session as positions of an editor.

ghost use Rattle.std.specs.Prelude.{◌≡◌, ◌+◌, ◌*◌, ◌^◌, ◌<◌, ◌≤◌, [], IfOk, IfSome, length, slice_get, suc, take, unwrap_or};
ghost use Rattle.std.specs.List.{sum_by};
ghost use Rattle.std.specs.Option.{option_copied};
ghost use Rattle.idl_source.specs.Limits.{longest_line, most_lines};
ghost use Rattle.idl_inputs.specs.WithinLimits.{IsAllowedFile};
ghost use Rattle.idl_editor.specs.Places.{line_range, position_in, range_between, range_in, returns};
ghost use Rattle.idl_server.specs.Places.{is_at, lines_of, range_of};

use idl_editor::{Encoding, Position, Range, is_up_to, position_behind, returns_in};
use idl_fault::{FileName, Place};
use idl_project::{Session, SitedToken};
use idl_source::{Line, Name};
use indexmap::IndexMap;
use std::alloc::{AllocError, Global};
use std::marker::Model;

/// A token of a file: the line on which it is found, its number there, and how it is spelled.
#[derive(Clone, Copy)]
pub(crate) struct LocatedToken<'a> {
    pub place: &'a Place,
    pub number: Option<usize>,
    pub text: &'a [u8],
}

impl<'a> LocatedToken<'a> {
    /// This token.
    pub fn of(token: &'a SitedToken) -> LocatedToken<'a>
        ensures place { result.place.now ≡ token.now.place }
        ensures number { result.number ≡ token.now.number }
        ensures text { result.text.now ≡ token.now.text }
    {
        LocatedToken {
            place: &token.place,
            number: token.number,
            text: token.text.as_bytes(),
        }
    }
}

/// The range of a token, or of its whole line where it isn't known where it begins.
pub(crate) fn range_of(session: &Session, encoding: Encoding, token: LocatedToken<'_>) -> Range
    ensures { result ≡ range_of encoding session.now.project
        token.entry.place.now token.entry.number token.entry.text.now }
{
    let lines = lines_of(session, token.place);
    let lines = CountedLines::uncounted(session.allocator(), lines);
    token_range(session, encoding, token, &lines)
}

/// The same by the lines of a file, if it is in that.
pub(crate) fn range_near(
    session: &Session,
    encoding: Encoding,
    token: LocatedToken<'_>,
    file: &CountedFile<'_>,
) -> Range
    requires { file.now.lines ≡ lines_of session.now.project file.now.name.now }
    ensures { result ≡ range_of encoding session.now.project
        token.entry.place.now token.entry.number token.entry.text.now }
{
    match file.lines_at(token.place) {
        Some(lines) => token_range(session, encoding, token, lines),
        None => range_of(session, encoding, token),
    }
}

// The same by the lines of its file.
fn token_range(
    session: &Session,
    encoding: Encoding,
    token: LocatedToken<'_>,
    lines: &CountedLines<'_>,
) -> Range
    requires { lines.now ≡ lines_of session.now.project token.place.now.file }
    ensures { result ≡ range_of encoding session.now.project
        token.entry.place.now token.entry.number token.entry.text.now }
{
    let column = session.column(token.place, token.number, token.text);
    lines.range(encoding, token, column)
}

/// The range of the line of a place.
pub(crate) fn line_of(session: &Session, encoding: Encoding, place: &Place) -> Range
    ensures { result ≡ line_range encoding (lines_of session.now.project place.now.file)
        place.now.line }
{
    let lines = lines_of(session, place);
    let lines = CountedLines::uncounted(session.allocator(), lines);
    lines.line(encoding, place.line)
}

/// The same by the lines of a file, if it is in that.
pub(crate) fn line_near(
    session: &Session,
    encoding: Encoding,
    place: &Place,
    file: &CountedFile<'_>,
) -> Range
    requires { file.now.lines ≡ lines_of session.now.project file.now.name.now }
    ensures { result ≡ line_range encoding (lines_of session.now.project place.now.file)
        place.now.line }
{
    match file.lines_at(place) {
        Some(lines) => lines.line(encoding, place.line),
        None => line_of(session, encoding, place),
    }
}

// The lines of the file in which a place is.
fn lines_of<'a>(session: &'a Session, place: &Place) -> &'a [Line]
    ensures lines { result.now ≡ lines_of session.now.project place.now.file }
    ensures allowed { IsAllowedFile result.now }
{
    lines_named(session, place.file.as_bytes())
}

// The lines of the file of this name.
fn lines_named<'a>(session: &'a Session, name: &[u8]) -> &'a [Line]
    ensures lines { result.now ≡ lines_of session.now.project name.now }
    ensures allowed { IsAllowedFile result.now }
{
    session.keeps_form();
    match session.file(name) {
        Some(lines) => lines,
        None => &[],
    }
}

/// Whether a range goes from a position or from before through it.
pub(crate) fn is_at(position: Position, range: Range) -> bool
    ensures { result ≡ is_at position range }
{
    is_up_to(range.start, position) && is_up_to(position, range.end)
}

/// A position in a file.
#[derive(Clone, Copy)]
pub(crate) struct DocumentPosition<'a> {
    pub file: &'a CountedFile<'a>,
    pub position: Position,
}

/// A file of which many places are asked for.
#[derive(Drop)]
pub(crate) struct CountedFile<'a> {
    name: &'a Name,
    lines: CountedLines<'a>,
}

/// Files of a session of which many places are asked for. The lines of a file are counted when the first of its places is asked for, and
/// once. To every contract it is the session.
pub(crate) struct CountedFiles<'a> {
    session: &'a Session,
    files: IndexMap<FileName, CountedLines<'a>>,
}

impl<'a> Model for CountedFiles<'a> {
    ghost use Rattle.idl_project.specs.UpToDate.{State, state_code};
    ghost use Rattle.idl_server.specs.Places.{AreOfProject};

    ghost Value = { State };

    ghost coded = { state_code };

    ghost view = { λ counted. counted.session.now };

    ghost invariant = { λ counted. AreOfProject counted.session.now.project counted.files.entries };
}

impl<'a> Drop for CountedFiles<'a> {
    fn drop(self) {
        let CountedFiles {
            session: _session,
            files: _files,
        } = self;
    }
}

impl<'a> CountedFiles<'a> {
    /// Before the first is counted.
    pub fn new(session: &'a Session) -> CountedFiles<'a>
        ensures { result ≡ session.now }
    {
        CountedFiles {
            session,
            files: IndexMap::new(session.allocator()),
        }
    }

    /// The range of a token, or of its whole line where it isn't known where it begins.
    pub fn range_of(
        &mut self,
        encoding: Encoding,
        token: LocatedToken<'_>,
    ) -> Result<Range, AllocError>
        ensures range { IfOk result (λ range. range ≡ range_of encoding self.old.project
            token.entry.place.now token.entry.number token.entry.text.now) }
        ensures same { self.new ≡ self.old }
    {
        let session = self.session;
        if let Some(lines) = self.files.get(&token.place.file) {
            return Ok(token_range(session, encoding, token, lines));
        }
        let lines = CountedLines::new(session.allocator(), lines_of(session, token.place))?;
        let range = token_range(session, encoding, token, &lines);
        self.files.insert(token.place.file.clone()?, lines)?;
        Ok(range)
    }
}

impl<'a> CountedFile<'a> {
    /// The file of this name, or one without lines.
    pub fn new(session: &'a Session, name: &'a Name) -> Result<CountedFile<'a>, AllocError>
        ensures name { IfOk result (λ file. file.name.now ≡ name.now) }
        ensures lines { IfOk result (λ file.
            file.lines ≡ lines_of session.now.project file.name.now) }
    {
        let lines = lines_named(session, name.as_bytes());
        let lines = CountedLines::new(session.allocator(), lines)?;
        Ok(CountedFile { name, lines })
    }

    /// Its name.
    pub fn name(&self) -> &Name
        ensures { result.now ≡ self.now.name.now }
    {
        self.name
    }

    /// The line with this index, if it is there.
    pub fn line_at(&self, index: usize) -> Option<&[u8]>
        ensures { option_copied result ≡ slice_get self.now.lines index }
    {
        match self.lines.lines.get(index) {
            Some(line) => Some(line.as_bytes()),
            None => None,
        }
    }

    /// From behind so many bytes up to behind so many of the line with this index, which is there.
    pub fn range_on(&self, encoding: Encoding, index: usize, columns: (usize, usize)) -> Range
        requires { index < length self.now.lines }
        ensures { result ≡ range_between encoding self.now.lines (suc index) columns.0 columns.1 }
    {
        self.lines.keeps_form();
        Range {
            start: self.lines.position_on(encoding, index, columns.0),
            end: self.lines.position_on(encoding, index, columns.1),
        }
    }

    /// The range of a token of it behind so many bytes of its line, or of that line where this isn't known.
    pub fn range(
        &self,
        encoding: Encoding,
        token: LocatedToken<'_>,
        column: Option<usize>,
    ) -> Option<Range>
        ensures { IfSome result (λ range. (token.entry.place.now.file ≡ self.now.name.now)
            × (range ≡ range_in encoding self.now.lines token.entry.place.now.line column
            (length token.entry.text.now))) }
    {
        let lines = self.lines_at(token.place)?;
        Some(lines.range(encoding, token, column))
    }

    // Its lines, if a place is in it.
    fn lines_at(&self, place: &Place) -> Option<&CountedLines<'a>>
        ensures { IfSome result (λ lines. (place.now.file ≡ self.now.name.now)
            × (lines.now ≡ self.now.lines)) }
    {
        if place.file.as_bytes() == self.name.as_bytes() {
            return Some(&self.lines);
        }
        None
    }
}

// The lines of a file, and where these were counted the carriage returns before each: to an editor one that is left in a line ends a
// line. To every contract it is the lines.
#[derive(Drop)]
struct CountedLines<'a> {
    lines: &'a [Line],
    // Those before the first lines.
    counts: Vec<usize>,
}

impl<'a> Model for CountedLines<'a> {
    ghost use Rattle.std.specs.Prelude.{List, ℕ};
    ghost use Rattle.idl_inputs.specs.WithinLimits.{IsAllowedFile};
    ghost use Rattle.idl_server.specs.Places.{AreCounts};

    ghost Value = { List (List ℕ) };

    ghost view = { λ counted. counted.lines.now };

    ghost invariant = { λ counted. IsAllowedFile counted.lines.now
        × AreCounts counted.lines.now counted.counts.items };
}

impl<'a> CountedLines<'a> {
    // Before any is counted: who asks for a place goes through the lines before it. It takes no memory.
    fn uncounted(alloc: Global, lines: &'a [Line]) -> CountedLines<'a>
        requires { IsAllowedFile lines.now }
        ensures { result ≡ lines.now }
    {
        let counts = Vec::new(alloc);
        CountedLines { lines, counts }
    }

    // For who asks for many places: all are counted.
    fn new(alloc: Global, lines: &'a [Line]) -> Result<CountedLines<'a>, AllocError>
        requires { IsAllowedFile lines.now }
        ensures { IfOk result (λ counted. counted ≡ lines.now) }
    {
        let mut counts = Vec::with_capacity(alloc, lines.len())?;
        let mut count = 0;
        'lines: for index in 0..lines.len() {
            counts.push(count)?;
            count = count_behind(lines, index, count);
        }
        Ok(CountedLines { lines, counts })
    }

    // Tells that the lines are within the limits.
    fn keeps_form(&self)
        ensures { IsAllowedFile self.now }
    {
        let _lines = &self.lines;
    }

    // The range of a token behind so many bytes of its line, or of that line where this isn't known.
    fn range(&self, encoding: Encoding, token: LocatedToken<'_>, column: Option<usize>) -> Range
        ensures { result ≡ range_in encoding self.now token.entry.place.now.line column
            (length token.entry.text.now) }
    {
        self.keeps_form();
        match column {
            Some(column) => {
                let end = column.saturating_add(token.text.len());
                self.between(encoding, token.place.line, (column, end))
            }
            None => self.line(encoding, token.place.line),
        }
    }

    // The range of a line, by its number from 1 on.
    fn line(&self, encoding: Encoding, number: u32) -> Range
        ensures { result ≡ line_range encoding self.now number }
    {
        self.keeps_form();
        self.between(encoding, number, (0, usize::MAX))
    }

    // From behind so many bytes of a line up to behind so many.
    fn between(&self, encoding: Encoding, number: u32, columns: (usize, usize)) -> Range
        ensures start { result.start ≡ position_in encoding self.now number columns.0 }
        ensures end { result.end ≡ position_in encoding self.now number columns.1 }
    {
        Range {
            start: self.position(encoding, number, columns.0),
            end: self.position(encoding, number, columns.1),
        }
    }

    // The position behind so many bytes of a line.
    fn position(&self, encoding: Encoding, number: u32, column: usize) -> Position
        ensures { result ≡ position_in encoding self.now number column }
    {
        match (number as usize).checked_sub(1) {
            Some(index) => self.position_on(encoding, index, column),
            None => Position { line: 0, column: 0 },
        }
    }

    // The position behind so many bytes of the line with this index.
    fn position_on(&self, encoding: Encoding, index: usize, column: usize) -> Position
        requires { index < 2 ^ 32 }
        ensures { result ≡ position_in encoding self.now (suc index) column }
    {
        let before = index + self.returns_before(index);
        let bytes = self.bytes_of(index);
        position_behind(encoding, before, &bytes[..column.min(bytes.len())])
    }

    // The bytes of the line with this index, or none.
    fn bytes_of(&self, index: usize) -> &[u8]
        ensures { result.now ≡ unwrap_or (slice_get self.now index) [] }
    {
        match self.lines.get(index) {
            Some(line) => line.as_bytes(),
            None => b"",
        }
    }

    // How many carriage returns are before the line with this index.
    fn returns_before(&self, index: usize) -> usize
        ensures value { result ≡ sum_by returns (take index self.now) }
        ensures few { result ≤ longest_line * most_lines }
    {
        match self.counts.get(index) {
            Some(count) => *count,
            None => returns_in_all(&self.lines[..index.min(self.lines.len())]),
        }
    }
}

// How many carriage returns are before the line behind one, of so many before that.
fn count_behind(lines: &[Line], index: usize, before: usize) -> usize
    requires allowed { IsAllowedFile lines.now }
    requires within { index < length lines.now }
    requires before { before ≡ sum_by returns (take index lines.now) }
    requires few { before ≤ longest_line * index }
    ensures value { result ≡ sum_by returns (take (index + 1) lines.now) }
    ensures few { result ≤ longest_line * (index + 1) }
{
    before + returns_in(lines[index].as_bytes())
}

// How many carriage returns these lines have.
fn returns_in_all(lines: &[Line]) -> usize
    requires { IsAllowedFile lines.now }
    ensures value { result ≡ sum_by returns lines.now }
    ensures few { result ≤ longest_line * length lines.now }
{
    let mut count = 0;
    'lines: for line in lines {
        count += returns_in(line.as_bytes());
    }
    count
}
