//! The names that are declared in a document.

ghost use Rattle.std.specs.Prelude.{◌≡◌};
ghost use Rattle.idl_server.specs.Places.{lines_of};

use crate::places::{CountedFile, LocatedToken, range_near};
use crate::workspace::Workspace;
use idl_editor::told::{DocumentSymbol, nested};
use idl_editor::{Encoding, Range, is_around};
use idl_entity::Kind;
use idl_project::{DeclaredPlace, DetailedEntry, Session};
use idl_source::Name;
use serde_json::Value;
use std::alloc::AllocError;

impl Workspace {
    /// The names that are declared in a file, as they are told.
    pub fn symbols_in(&self, name: &Name) -> Result<Value, AllocError> {
        let (session, encoding) = (&self.session, self.encoding);
        let alloc = session.allocator();
        let Some(told) = self.details_with(name)? else {
            return Ok(Value::Null);
        };
        let file = CountedFile::new(session, name)?;
        let mut symbols = Vec::new(alloc);
        'entries: for entry in told.details.entries.as_slice() {
            'places: for declared in entry.places.as_slice() {
                if declared.name.place.file.as_bytes() == name.as_bytes() {
                    let (here, whole) = ranges_of(session, encoding, declared, &file);
                    symbols.push(symbol_of(entry, declared, here, whole))?;
                }
            }
        }
        nested(alloc, symbols)
    }
}

// The range of a name where it is declared, and from the first token of what is declared through its last one.
fn ranges_of(
    session: &Session,
    encoding: Encoding,
    declared: &DeclaredPlace,
    file: &CountedFile<'_>,
) -> (Range, Range)
    requires { file.now.lines ≡ lines_of session.now.project file.now.name.now }
{
    let name = LocatedToken::of(&declared.name);
    let first = range_near(session, encoding, LocatedToken::of(&declared.first), file);
    let last = range_near(session, encoding, LocatedToken::of(&declared.last), file);
    let whole = Range {
        start: first.start,
        end: last.end,
    };
    (range_near(session, encoding, name, file), whole)
}

// A name where it is declared, by its range. What is declared goes from its first token through its last one, where these are known.
fn symbol_of<'d>(
    entry: &'d DetailedEntry,
    declared: &'d DeclaredPlace,
    name: Range,
    whole: Range,
) -> DocumentSymbol<'d> {
    let file = declared.name.place.file.as_bytes();
    let is_here = declared.first.place.file.as_bytes() == file
        && declared.last.place.file.as_bytes() == file;
    DocumentSymbol {
        path: entry.tree.path.as_bytes(),
        kind: symbol_kind(entry.tree.kind),
        text: declared.name.text.as_bytes(),
        name,
        whole: if is_here && is_around(whole, name) {
            whole
        } else {
            name
        },
    }
}

// The number of a kind of symbols.
fn symbol_kind(kind: Kind) -> u8 {
    match kind {
        Kind::Module => 2,
        Kind::Interface => 11,
        Kind::Structure | Kind::Union | Kind::Exception => 23,
        Kind::Enumeration => 10,
        Kind::Enumerator => 22,
        Kind::Alias => 26,
        Kind::Native => 5,
        Kind::Constant => 14,
        Kind::Attribute => 7,
        Kind::Operation => 6,
        Kind::Parameter => 13,
        Kind::Member => 8,
    }
}
