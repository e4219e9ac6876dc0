//! Rows that a session lends.

ghost use Rattle.std.specs.Prelude.{◌≡◌, ◌<◌, Some, length, slice_get};
ghost use Rattle.std.specs.Option.{option_map};
ghost use Rattle.idl_session.specs.replies.Rows.{rows_for, rows_of};

use crate::heading::RootQuery;
use idl_project::{Row, Session};
use idl_source::Name;

/// Rows that a session lends: those of a root, or the names of files.
#[derive(Clone, Copy)]
pub enum Rows<'a> {
    Texts(&'a [Row]),
    Names(&'a [Name]),
}

impl<'a> Rows<'a> {
    /// How many there are.
    pub fn len(self) -> usize
        ensures { result ≡ length (rows_of self.entry) }
    {
        match self {
            Rows::Texts(texts) => texts.len(),
            Rows::Names(names) => names.len(),
        }
    }

    /// The bytes of one.
    pub fn get(self, i: usize) -> &'a [u8]
        requires { i < length (rows_of self) }
        ensures { slice_get (rows_of self.entry) i ≡ Some result.now }
    {
        match self {
            Rows::Texts(texts) => texts[i].as_bytes(),
            Rows::Names(names) => names[i].as_bytes(),
        }
    }
}

/// The rows that answer a question about a name, if it is that of a root.
pub fn ask<'s>(session: &'s Session, question: RootQuery, name: &[u8]) -> Option<Rows<'s>>
    ensures { option_map rows_of result ≡ rows_for session.entry.now.project question name.now }
{
    match question {
        RootQuery::Diagnostics => Some(Rows::Texts(session.diagnostics(name)?)),
        RootQuery::Listing => Some(Rows::Texts(session.listing(name)?)),
        RootQuery::Dump => Some(Rows::Texts(session.dump(name)?)),
        RootQuery::Absent => Some(Rows::Names(session.absent(name)?)),
    }
}
