//! The number of a token in its line.
//!
//! It counts the tokens of the line directly before one in the root. It is found by walking back, and not kept with
//! each site, since few have findings.

ghost use Rattle.std.specs.Prelude.{◌≡◌, ◌≢◌, ◌<◌, ◌-◌, IfNone, IfOk, IfSome, Some, slice_get};
ghost use Rattle.idl_event.specs.declared.told.event.Event.TheVariants.{Emitted};
ghost use Rattle.idl_fault.specs.declared.place.Place.{Place};
ghost use Rattle.idl_lex.specs.tokens.Tokens.{Token};
ghost use Rattle.idl_finding.specs.Number.{stands_at, token_number, tokens_before};

use idl_event::Expansion;
use idl_fault::FileName;
use std::alloc::{AllocError, Global};
use std::marker::Model;

/// The number of the token that an event is, among those of its line that stand together, from 0. Another event has none.
pub fn token_number(expansion: &Expansion, event: usize) -> Option<usize>
    ensures { result ≡ token_number expansion.now event }
{
    let place = token_place(expansion, event)?;
    Some(tokens_before(expansion, event, place))
}

// How many tokens at this place stand directly before an event.
fn tokens_before(expansion: &Expansion, event: usize, place: (&FileName, u32)) -> usize
    ensures { result
        ≡ tokens_before expansion.now
        (record { file = place.entry.0.now; line = place.entry.1 }) event }
{
    let mut first = event;
    'back: while first > 0 && stands_at(expansion, first - 1, place) {
        first -= 1;
    }
    event - first
}

// Whether the event with this number is a token at this place.
fn stands_at(expansion: &Expansion, event: usize, place: (&FileName, u32)) -> bool
    ensures { result
        ≡ stands_at (record { file = place.entry.0.now; line = place.entry.1 })
        (slice_get expansion.now event) }
{
    match token_place(expansion, event) {
        Some((file, line)) => *file == *place.0 && line == place.1,
        None => false,
    }
}

// The place of the token that the event with this number is, if it is one.
fn token_place(expansion: &Expansion, event: usize) -> Option<(&FileName, u32)>
    ensures some { IfSome result (λ place. (token : Token)
        × (slice_get expansion.now event
        ≡ Some (Emitted (record { file = place.0.now; line = place.1 }) token))) }
    ensures none { IfNone result ((place : Place) (token : Token)
        → slice_get expansion.now event ≢ Some (Emitted place token)) }
{
    let others = expansion.others();
    let before = others.partition_point(|other| other.0 < event);
    match others.get(before) {
        Some((number, _other)) if *number == event => None,
        _ => expansion.sites().place_at(event.saturating_sub(before)),
    }
}

/// The numbers of the tokens of an expansion, which are counted once. To every contract it is the list of the events.
#[derive(Drop)]
pub struct LineNumbers<'a> {
    expansion: &'a Expansion,
    // Those of the events from the first on.
    numbers: Vec<Option<usize>>,
}

impl<'a> Model for LineNumbers<'a> {
    ghost use Rattle.std.specs.Prelude.{List};
    ghost use Rattle.idl_event.specs.declared.told.event.Event.{Event};
    ghost use Rattle.idl_finding.specs.Number.{AreNumbersOf};

    ghost Value = { List Event };

    ghost view = { λ numbers. numbers.expansion.now };

    ghost invariant = { λ numbers. AreNumbersOf numbers.expansion.now numbers.numbers.items };
}

impl<'a> LineNumbers<'a> {
    /// Those of this expansion.
    pub fn new(alloc: Global, expansion: &'a Expansion) -> Result<LineNumbers<'a>, AllocError>
        ensures { IfOk result (λ numbers. numbers ≡ expansion.now) }
    {
        let count = expansion.sites().len() + expansion.others().len();
        let mut numbers = Vec::with_capacity(alloc, count)?;
        let mut number = None;
        for event in 0..count {
            number = next_number(expansion, event, number);
            numbers.push(number)?;
        }
        Ok(LineNumbers { expansion, numbers })
    }

    /// Where the tokens take memory.
    pub fn allocator(&self) -> Global {
        *self.numbers.allocator()
    }

    /// The number of the token that an event is, among those of its line that stand together, from 0. Another event has none.
    pub fn number(&self, event: usize) -> Option<usize>
        ensures { result ≡ token_number self.now event }
    {
        match self.numbers.get(event) {
            Some(number) => *number,
            None => token_number(self.expansion, event),
        }
    }
}

// The same, where that of the event before is known.
fn next_number(expansion: &Expansion, event: usize, before: Option<usize>) -> Option<usize>
    requires { 0 < event → before ≡ token_number expansion.now (event - 1) }
    ensures { result ≡ token_number expansion.now event }
{
    let place = token_place(expansion, event)?;
    if event > 0 && stands_at(expansion, event - 1, place) {
        return Some(before? + 1);
    }
    Some(0)
}
