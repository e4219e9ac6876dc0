//! The cut of an expansion into units.

ghost use Rattle.std.specs.Prelude.{◌≡◌, ◌∷◌, ◌++◌, ◌≤◌, ◌<◌, [], List, IfNone, IfOk, IfSome, IsFalse, IsTrue, None, OnOk, drop, length, take};
ghost use Rattle.std.specs.List.{enumerate_from};
ghost use Rattle.idl_event.specs.Apart.{Numbered, site_at, sites_in, tokens_in};
ghost use Rattle.idl_event.specs.Told.{event_told};
ghost use Rattle.idl_lex.specs.tokens.Tokens.{Token as Bytes};
ghost use Rattle.idl_unit.specs.Ending.{token_units};
ghost use Rattle.idl_unit.specs.Placing.{ahead, after_token, begun, IsFirstUnit, IsFront, IsWithin, to_come};
ghost use Rattle.idl_unit.specs.Units.{units_of};

use crate::ending::first_unit;
use crate::site_run::SiteRun;
use crate::unit::{Unit, UnitText, Units};
use idl_event::idl_text::TokenRange;
use idl_event::{Event, EventView, Events, Expansion, Sites, TokenRuns};
use idl_fault::Place;
use idl_lex::Token;
use std::alloc::{AllocError, Global};
use std::rc::Rc;

/// The units of what a root expands to. A unit stands where its first token does, and what stands between its tokens
/// directly after it.
pub fn split(alloc: Global, expansion: &Expansion) -> Result<Units, AllocError>
    ensures { IfOk result (λ units. units ≡ units_of expansion.now) }
{
    let mut cut = Cut::new(alloc, expansion)?;
    let mut events = expansion.events();
    'events: while cut.put_next(alloc, &mut events)? {}
    let mut units = cut.units;
    units.push(Unit::End)?;
    Ok(Units::from_vec(units))
}

// So many tokens most units have, or more.
const TOKENS_A_UNIT: usize = 8;

// How far the cut has come.
#[derive(Drop)]
struct Cut<'a> {
    text: &'a TokenRuns,
    sites: &'a Rc<Sites>,
    units: Vec<Unit>,
    // How many tokens stand in the units so far.
    taken: usize,
    // How many of these are still to come among the events.
    inside: usize,
    // The run that the last unit began in, and how many tokens of it are before what is behind that unit: more than it has where
    // the unit goes on behind it.
    run: Option<&'a TokenRange>,
    place: usize,
}

impl<'a> Cut<'a> {
    fn new(alloc: Global, expansion: &'a Expansion) -> Result<Cut<'a>, AllocError>
        ensures text { IfOk result (λ cut.
            cut.text.now ≡ tokens_in (enumerate_from 0 expansion.now)) }
        ensures sites { IfOk result (λ cut.
            cut.sites.now.value ≡ sites_in (enumerate_from 0 expansion.now)) }
        ensures units { IfOk result (λ cut. cut.units.items ≡ []) }
        ensures taken { IfOk result (λ cut. cut.taken ≡ 0) }
        ensures inside { IfOk result (λ cut. cut.inside ≡ 0) }
        ensures run { IfOk result (λ cut. cut.run ≡ None) }
    {
        let text = expansion.text();
        Ok(Cut {
            text,
            sites: expansion.sites(),
            units: Vec::with_capacity(alloc, text.len() / TOKENS_A_UNIT)?,
            taken: 0,
            inside: 0,
            run: None,
            place: 0,
        })
    }

    // Puts in what the next event gives, if one is left; of a token that is told, neither file nor line is wanted.
    fn put_next(&mut self, alloc: Global, events: &mut Events<'_>) -> Result<bool, AllocError>
        requires { IsWithin self.old }
        ensures within { OnOk result (IsWithin self.new) }
        ensures units { OnOk result (to_come self.new events.new ≡ to_come self.old events.old) }
        ensures fewer { IfOk result (λ more. IsTrue more → length events.new < length events.old) }
        ensures none { IfOk result (λ more. IsFalse more → events.new ≡ []) }
    {
        if events.pass_tokens(1) == 1 {
            self.put_token(alloc)?;
            self.pass(events);
            return Ok(true);
        }
        let Some((number, event)) = events.next() else {
            return Ok(false);
        };
        self.put(alloc, number, event)?;
        Ok(true)
    }

    // The tokens inside the present unit are passed by, up to what stands between them.
    fn pass(&mut self, events: &mut Events<'_>)
        requires { IsWithin self.old }
        ensures within { IsWithin self.new }
        ensures fewer { length events.new ≤ length events.old }
        ensures units { to_come self.new events.new ≡ to_come self.old events.old }
    {
        self.inside -= events.pass_tokens(self.inside);
    }

    // Puts in what one event more gives.
    fn put(&mut self, alloc: Global, number: usize, event: EventView<'_>) -> Result<(), AllocError>
        requires { IsWithin self.old }
        ensures within { OnOk result (IsWithin self.new) }
        ensures units { OnOk result ((events : List Numbered)
            → to_come self.new events
            ≡ to_come self.old ((number, event_told event.entry) ∷ events)) }
    {
        match event {
            EventView::Emitted(_file, _line, _token) => self.put_token(alloc),
            EventView::Other(event) => self.put_other(alloc, number, event),
        }
    }

    // The same of an event.
    fn put_other(&mut self, alloc: Global, number: usize, event: &Event) -> Result<(), AllocError>
        requires { IsWithin self.old }
        ensures within { OnOk result (IsWithin self.new) }
        ensures units { OnOk result ((events : List Numbered)
            → to_come self.new events ≡ to_come self.old ((number, event.now) ∷ events)) }
    {
        let inside = self.inside > 0;
        match event {
            Event::Emitted(_place, _token) => self.put_token(alloc)?,
            Event::Entered(file) => self.units.push(Unit::Entered(file.clone()?, inside))?,
            Event::Left(file) => self.units.push(Unit::Left(file.clone()?, inside))?,
            Event::Pragma(place, tokens) => {
                let text = UnitText::Pragma(tokens.clone()?, inside);
                let sites = one_site(alloc, number, place)?;
                self.units.push(Unit::Spelled(text, sites))?;
            }
            Event::Fault(_place, _code, _text) => {}
        }
        Ok(())
    }

    // Puts in what a token more gives: a unit, unless it stands inside one.
    fn put_token(&mut self, alloc: Global) -> Result<(), AllocError>
        requires within { IsWithin self.old }
        ensures within { OnOk result (IsWithin self.new) }
        ensures units { OnOk result (self.new.units.items
            ≡ self.old.units.items ++ begun (ahead self.old)) }
        ensures ahead { OnOk result (ahead self.new ≡ after_token (ahead self.old)) }
    {
        if self.inside > 0 {
            self.inside -= 1;
            return Ok(());
        }
        self.begin(alloc)
    }

    // Puts in the unit that begins here.
    fn begin(&mut self, alloc: Global) -> Result<(), AllocError>
        requires within { IsWithin self.old }
        requires outside { self.old.inside ≡ 0 }
        ensures within { OnOk result (IsWithin self.new) }
        ensures units { OnOk result (self.new.units.items
            ≡ self.old.units.items ++ begun (ahead self.old)) }
        ensures ahead { OnOk result (ahead self.new ≡ after_token (ahead self.old)) }
    {
        // Where no token is left, none begins.
        let Some((run, place)) = self.run_ahead() else {
            return Ok(());
        };
        prove!(place < run.len());
        let text = self.unit_at(alloc, run, place)?;
        let len = text.len();
        let from = self.taken;
        prove!(len <= self.text.len() - from);
        let to = from + len;
        let sites = SiteRun::new(self.sites.clone()?, from, to)?;
        let unit = Unit::Spelled(UnitText::Tokens(text), sites);
        self.units.reserve(1)?;
        self.units.push_reserved(unit);
        self.taken = to;
        self.inside = len - 1;
        self.run = Some(run);
        self.place = place.saturating_add(len);
        Ok(())
    }

    // The run that the next token is in, and how many tokens of the run are before it.
    fn run_ahead(&self) -> Option<(&'a TokenRange, usize)>
        requires { IsWithin self.now }
        ensures some { let left = drop self.now.taken self.now.text.now in
            IfSome result (λ at. IsFront at.0.now at.1 left) }
        ensures none { IfNone result (length self.now.text.now ≤ self.now.taken) }
    {
        match self.run {
            Some(run) if self.place < run.len() => Some((run, self.place)),
            _ => self.text.run_from(self.taken),
        }
    }

    // The unit of the tokens that are left, the first of which is at this place of a run: shared with the run, unless it goes on
    // behind that.
    fn unit_at(
        &self,
        alloc: Global,
        run: &TokenRange,
        place: usize,
    ) -> Result<TokenRange, AllocError>
        requires within { self.now.taken ≤ length self.now.text.now }
        requires front { IsFront run.now place (drop self.now.taken self.now.text.now) }
        ensures { let left = drop self.now.taken self.now.text.now in
            IfOk result (λ text. IsFirstUnit text left) }
    {
        let (_before, front) = run.as_slice().split_at(place);
        let len = self.first_len(alloc, front)?;
        if len <= front.len() {
            return run.part(place, place + len);
        }
        let mut copies = self.text.gathered(alloc, self.taken, len)?;
        TokenRange::take(&mut copies)
    }

    // How many tokens the unit has that begins with these, which are in one run. Where they are not the last of the text and no
    // token stands behind the unit, it may go on: it is looked for among copies then, twice as many each time.
    fn first_len(&self, alloc: Global, front: &[Token]) -> Result<usize, AllocError>
        requires within { self.now.taken ≤ length self.now.text.now }
        requires some { 0 < length front.now }
        requires front { (rest : List Bytes)
            × (drop self.now.taken self.now.text.now ≡ front.now ++ rest) }
        ensures cut { let left = drop self.now.taken self.now.text.now in
            IfOk result (λ len. token_units left ≡ take len left ∷ token_units (drop len left)) }
        ensures some { IfOk result (λ len. 0 < len) }
        ensures within { IfOk result (λ len.
            len ≤ length (drop self.now.taken self.now.text.now)) }
    {
        let left = self.text.len() - self.taken;
        let mut len = first_unit(front);
        let mut count = front.len();
        'more: while len == count && count < left {
            count = count.saturating_mul(2).min(left);
            let tokens = self.text.gathered(alloc, self.taken, count)?;
            len = first_unit(&tokens);
        }
        Ok(len)
    }
}

// The one site of a pragma: that many events stand before it.
fn one_site(alloc: Global, event: usize, place: &Place) -> Result<SiteRun, AllocError>
    ensures { IfOk result (λ sites. sites ≡ site_at event place.now ∷ []) }
{
    let mut sites = Sites::new(alloc);
    sites.push(place.clone()?, event)?;
    SiteRun::new(Rc::new(alloc, sites)?, 0, 1)
}
