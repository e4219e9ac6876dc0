//! Events where they are read.

use crate::told::event::Event;
use idl_fault::FileName;
use idl_lex::Token;

/// What an event is: a token of the text in a file, at a line, or another event.
#[derive(Clone, Copy)]
pub enum EventView<'a> {
    Emitted(&'a FileName, u32, &'a Token),
    Other(&'a Event),
}
