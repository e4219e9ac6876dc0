//! What the expansion of a root tells, and what is kept of it.

ghost use Rattle.std.specs.Prelude.{◌≡◌};
ghost use Rattle.idl_event.specs.Items.{event_of, last, place_of, place_of_event};

use idl_base::Bytes;
use idl_fault::{Code, FileName, Place};
use idl_lex::Token;
use idl_text::TokenRange;

/// What is kept of the expansion of a root.
#[derive(Drop)]
pub enum Event {
    /// A token of the text, at its place; one that a macro gives is at the place of the outermost word replaced.
    Emitted(Place, Token),
    /// A file is entered.
    Entered(FileName),
    /// A file is left.
    Left(FileName),
    /// A `pragma` that means something to IDL: the place of that word, and the tokens from it on.
    Pragma(Place, TokenRange),
    /// A fault, with the text that its row shows, if it has one.
    Fault(Place, Code, Option<Bytes>),
}

/// What happens next when a root is expanded.
#[derive(Drop)]
pub enum Item {
    /// An event.
    Kept(Event),
    /// A token of a condition, or of the operand of an `include`.
    Counted(Place),
    /// A replacement, or a directive that isn't skipped.
    Turn(Place),
    /// A file isn't entered, as too many are open.
    TooDeep(Place),
}

impl Event {
    /// The place of the event; that of a file entered or left is its line 0.
    pub fn place(self) -> Place
        ensures { result ≡ place_of_event self }
    {
        match self {
            Event::Emitted(place, _token) => place,
            Event::Pragma(place, _tokens) => place,
            Event::Fault(place, _code, _text) => place,
            Event::Entered(file) | Event::Left(file) => Place { file, line: 0 },
        }
    }
}

impl Item {
    /// The place of the item; that of a file entered or left is its line 0.
    pub fn place(self) -> Place
        ensures { result ≡ place_of self }
    {
        match self {
            Item::Kept(event) => event.place(),
            Item::Counted(place) | Item::Turn(place) | Item::TooDeep(place) => place,
        }
    }

    /// The fault that stands in the place of the item where it is past the limits.
    pub fn past_limit(self) -> Event
        ensures { result ≡ last self }
    {
        Event::Fault(self.place(), Code::PastLimit, None)
    }

    /// What is kept of the item.
    pub fn event(self) -> Option<Event>
        ensures { result ≡ event_of self }
    {
        match self {
            Item::Kept(event) => Some(event),
            Item::Counted(_) | Item::Turn(_) | Item::TooDeep(_) => None,
        }
    }
}
