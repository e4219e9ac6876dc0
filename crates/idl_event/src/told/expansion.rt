//! What a root expands to, and the walk over it.

ghost use Rattle.std.specs.Prelude.{◌≡◌, ◌≢◌, ℕ, ◌+◌, ◌<◌, ◌≤◌, IfNone, IfSome, Some, slice_get};
ghost use Rattle.std.specs.List.{enumerate_from};
ghost use Rattle.idl_event.specs.Apart.{StandApart, TokensFirst, others_in, sites_in, tokens_in, woven};
ghost use Rattle.idl_event.specs.declared.told.event.Event.{Event};

use crate::told::event::Event;
use crate::told::event_view::EventView;
use crate::told::runs::TokenRuns;
use crate::told::sites::Sites;
use std::marker::Model;
use std::rc::Rc;

/// What a root expands to: to every contract the list of its events. The tokens of its text stand apart from the others, so
/// that they are shared.
pub struct Expansion {
    text: TokenRuns,
    sites: Rc<Sites>,
    others: Vec<(usize, Event)>,
}

impl Model for Expansion {
    ghost use Rattle.std.specs.Prelude.{List};
    ghost use Rattle.idl_event.specs.Apart.{StandApart, woven};
    ghost use Rattle.idl_event.specs.declared.told.event.Event.{Event};

    ghost Value = { List Event };

    ghost view = { λ e. woven e.sites.value e.text e.others.items };

    ghost invariant = { λ e. StandApart e.sites.value e.text e.others.items };
}

impl Drop for Expansion {
    fn drop(self) {
        let Expansion {
            text: _text,
            sites: _sites,
            others: _others,
        } = self;
    }
}

impl Expansion {
    /// What consists of these tokens, at these sites, and of these other events.
    pub fn from_parts(text: TokenRuns, sites: Rc<Sites>, others: Vec<(usize, Event)>) -> Expansion
        requires { StandApart sites.value text others.items }
        ensures { result ≡ woven sites.value text others.items }
    {
        Expansion {
            text,
            sites,
            others,
        }
    }

    /// The tokens of its text in order.
    pub fn text(&self) -> &TokenRuns
        ensures { result.now ≡ tokens_in (enumerate_from 0 self.now) }
    {
        &self.text
    }

    /// Where each of these tokens stands.
    pub fn sites(&self) -> &Rc<Sites>
        ensures { result.now.value ≡ sites_in (enumerate_from 0 self.now) }
    {
        &self.sites
    }

    /// The events that are no tokens of the text in order, each with its number among all, from 0.
    pub fn others(&self) -> &[(usize, Event)]
        ensures { result.now ≡ others_in (enumerate_from 0 self.now) }
    {
        &self.others
    }

    /// The events in order, each with its number, from 0.
    pub fn events(&self) -> Events<'_>
        ensures { result ≡ enumerate_from 0 self.now }
    {
        // So many tokens can be counted.
        let _count = self.text.len();
        Events {
            text: &self.text,
            sites: &self.sites,
            others: &self.others,
            tokens_passed: 0,
            others_passed: 0,
        }
    }
}

/// A walk over the events of an expansion: to every contract the list of those that are still to come, each with its
/// number.
#[derive(Drop)]
pub struct Events<'a> {
    text: &'a TokenRuns,
    sites: &'a Sites,
    others: &'a [(usize, Event)],
    tokens_passed: usize,
    others_passed: usize,
}

impl<'a> Model for Events<'a> {
    ghost use Rattle.std.specs.Prelude.{List, ℕ, ◌+◌, ◌<◌, ◌^◌, length};
    ghost use Rattle.idl_event.specs.Apart.{ArePassed, events_from, woven};
    ghost use Rattle.idl_event.specs.declared.told.event.Event.{Event};

    ghost Value = { List (ℕ × Event) };

    ghost view = { λ e.
        events_from (e.tokens_passed + e.others_passed)
        (woven e.sites.now e.text.now e.others.now) };

    ghost invariant = { λ e.
        ArePassed e.sites.now e.text.now e.others.now e.tokens_passed e.others_passed
        × (length e.text.now < 2 ^ 32) };
}

impl<'a> Events<'a> {
    /// Passes tokens by that come next, as many as asked for at most, up to the next event that is none: tells how many.
    pub fn pass_tokens(&mut self, most: usize) -> usize
        ensures most { result ≤ most }
        ensures passed { TokensFirst result self.old self.new }
    {
        let left = self
            .text
            .len()
            .min(self.sites.len())
            .saturating_sub(self.tokens_passed);
        let number = self.tokens_passed + self.others_passed;
        let free = tokens_before(self.others, self.others_passed, number);
        let count = most.min(free).min(left);
        self.tokens_passed += count;
        count
    }
}

impl<'a> Iterator for Events<'a> {
    ghost use Rattle.std.specs.Iterator.{YieldsFirstBy, item_count};
    ghost use Rattle.idl_event.specs.Told.{event_told};

    type Item = (usize, EventView<'a>);

    ghost next_gives = { YieldsFirstBy (λ item. (item.0, event_told item.1)) (λ events. events) };

    ghost remaining = { item_count (λ events. events) };

    fn next(&mut self) -> Option<(usize, EventView<'a>)> {
        let number = self.tokens_passed + self.others_passed;
        match other_at(self.others, self.others_passed, number) {
            Some(event) => {
                self.others_passed += 1;
                Some((number, EventView::Other(event)))
            }
            None => {
                let (file, line) = self.sites.place_at(self.tokens_passed)?;
                let token = self.text.get(self.tokens_passed)?;
                self.tokens_passed += 1;
                Some((number, EventView::Emitted(file, line, token)))
            }
        }
    }
}

// The event with a number, where it stands at this place among those that are no tokens.
fn other_at(others: &[(usize, Event)], place: usize, number: usize) -> Option<&Event>
    ensures some { IfSome result (λ event. slice_get others.now place ≡ Some (number, event.now)) }
    ensures none { IfNone result ((event : Event)
        → slice_get others.now place ≢ Some (number, event)) }
{
    match others.get(place) {
        Some((at, event)) if *at == number => Some(event),
        _ => None,
    }
}

// How many numbers there are from one on before that of the event at this place among those that are no tokens.
fn tokens_before(others: &[(usize, Event)], place: usize, number: usize) -> usize
    ensures { (j : ℕ) (event : Event) → j < result
        → slice_get others.now place ≢ Some (number + j, event) }
{
    match others.get(place) {
        Some((at, _event)) => at.saturating_sub(number),
        None => usize::MAX,
    }
}
