//! The units of a root, judged one after another, and what is told of them.

ghost use Rattle.std.specs.Prelude.{◌≡◌, ◌≤◌, ◌+◌, ◌++◌, ◌∷◌, [], false, true, IfOk, IfSome, IsTrue, None, OnOk, flat_map, length, map, option_to_list, reverse};
ghost use Rattle.std.specs.List.{list_any};
ghost use Rattle.std.specs.List.Sorted.{IsNonDecreasingBy, IsPermutation};
ghost use Rattle.idl_related.specs.FirstDeclared.{KeepsOrder, first_declaration_over, names_behind, related_at, seconds_at, told_after, told_for, without_other_places};
ghost use Rattle.idl_env.specs.Facts.{boundary};
ghost use Rattle.idl_check.specs.walk.Verdict.{added, verdict_over};
ghost use Rattle.idl_related.specs.Related.{AreAtTokens, AreOfFinding, IsAtToken};
ghost use Rattle.idl_related.specs.Judged.{AreOfFindings, IsBehind, IsOfRoot, before_spelled, text_and_sites, units_before};
ghost use Rattle.idl_related.specs.Told.{AreFew, has_second, is_redeclaration};
ghost use Rattle.idl_unit.specs.Units.{units_of};
ghost use Rattle.idl_unit.specs.declared.unit.Unit.TheVariants.{Spelled};

use crate::about::About;
use crate::first_declared::{add_names, first_declaration, names_in, seconds_at};
use crate::known::KnownUnits;
use crate::second::{Reason, Related, Second, TokenPosition, site_of, token_of};
use crate::told::{
    RelatedPlaces, count_with_second, has_redeclaration, has_second, is_redeclaration,
};
use idl_base::{Bytes, Seq};
use idl_check::{Scratch, verdict_of};
use idl_env::{DigestedKey, Env, Facts, Step, Writes};
use idl_event::{Expansion, Site};
use idl_fault::Code;
use idl_finding::{Finding, token_number};
use idl_map::Table;
use idl_memo::Journal;
use idl_unit::{Fault, SiteRun, Unit, UnitText};
use std::alloc::{AllocError, Global};

// A unit, by its number.
#[derive(Clone, Copy)]
struct NumberedUnit<'a> {
    number: usize,
    unit: &'a Unit,
}

// A unit of tokens or of a pragma, by its number, with the environment before it.
#[derive(Clone, Copy)]
struct SpelledUnit<'a> {
    number: usize,
    env: &'a Env,
    text: &'a UnitText,
    sites: &'a SiteRun,
}

/// The units of a root up to one of them.
pub struct JudgedUnits<'a> {
    expansion: &'a Expansion,
    known: KnownUnits<'a>,
    /// How many findings are asked for that may have second places.
    asked: usize,
    /// Whether anything asks where names are declared first.
    asks_first: bool,
    /// The names that the units declare, each at its key with where it is declared first, if that is asked.
    first: Table<DigestedKey, TokenPosition>,
    told: Vec<RelatedPlaces>,
}

impl<'a> Drop for JudgedUnits<'a> {
    fn drop(self) {
        let JudgedUnits {
            expansion: _expansion,
            known: _known,
            asked: _asked,
            asks_first: _asks_first,
            first: _first,
            told: _told,
        } = self;
    }
}

impl<'a> JudgedUnits<'a> {
    /// Before the first of these units, which are those of what a root expands to, as these findings ask.
    pub fn new(
        alloc: Global,
        expansion: &'a Expansion,
        units: &'a [Unit],
        findings: &[Finding],
    ) -> Result<JudgedUnits<'a>, AllocError>
        requires { units.now ≡ units_of expansion.now }
        ensures root { IfOk result IsOfRoot }
        ensures expansion { IfOk result (λ judged. judged.expansion.now ≡ expansion.now) }
        ensures asks { IfOk result (λ judged.
            judged.asks_first ≡ list_any (λ f. is_redeclaration f.code) findings.now) }
        ensures empty { IfOk result (λ judged. (judged.first ≡ []) × (judged.told.items ≡ [])) }
    {
        let asks_uses = findings
            .iter()
            .any(|finding| finding.code == Code::DeclaredAfterUse);
        let known = KnownUnits::new(alloc, units, asks_uses)?;
        Ok(JudgedUnits {
            expansion,
            known,
            asked: count_with_second(findings),
            asks_first: has_redeclaration(findings),
            first: Table::new(alloc),
            told: Vec::new(alloc),
        })
    }

    /// Behind all units, before the first of them; where no redeclaration is asked for, behind as many as tell what is.
    pub fn pass_all(&mut self) -> Result<(), AllocError>
        requires { IsOfRoot self.old }
        ensures root { OnOk result (IsOfRoot self.new) }
        ensures expansion { OnOk result (self.new.expansion.now ≡ self.old.expansion.now) }
        ensures told { OnOk result (self.old.asks_first ≡ true
            → map without_other_places self.new.told.items
            ≡ map without_other_places self.old.told.items
            ++ told_after self.old.expansion.now (units_before self.old [] 0)
            (units_of self.old.expansion.now)) }
    {
        let mut env = Env::new(self.known.alloc)?;
        let mut scratch = Scratch::new(self.known.alloc);
        let units = self.known.units;
        'units: for number in 0..units.len() {
            let unit = NumberedUnit {
                number,
                unit: &units[number],
            };
            if self.has_told(unit.unit) {
                return Ok(());
            }
            env = self.pass(env, &mut scratch, unit)?;
        }
        Ok(())
    }

    // Whether all that is asked for is told before a unit, and none is a redeclaration: of those all are told. What stands inside of a unit of
    // tokens is behind it, and may tell of an event before it.
    fn has_told(&self, next: &Unit) -> bool
        ensures { IsTrue result → self.now.asks_first ≡ false }
    {
        !self.asks_first && self.told.len() >= self.asked && is_of_tokens(next)
    }

    // Behind a unit, which is next: the environment with what it adds.
    fn pass(
        &mut self,
        env: Env,
        scratch: &mut Scratch,
        unit: NumberedUnit<'_>,
    ) -> Result<Env, AllocError>
        requires { IsOfRoot self.old }
        ensures root { OnOk result (IsOfRoot self.new) }
        ensures behind { OnOk result
            (IsBehind self.old self.new (units_before self.old env unit.entry.number)
            unit.entry.unit.now) }
        ensures env { IfOk result (λ after. after ≡ env ++ added env unit.entry.unit.now) }
    {
        match self.writes(&env, scratch, unit)? {
            Some(writes) => {
                self.known.pass(&env, writes.get())?;
                env.add_own(writes, &mut scratch.room)
            }
            None => Ok(env),
        }
    }

    // What a unit adds; the end of a root adds nothing.
    fn writes(
        &mut self,
        env: &Env,
        scratch: &mut Scratch,
        unit: NumberedUnit<'_>,
    ) -> Result<Option<Writes>, AllocError>
        requires { IsOfRoot self.old }
        ensures root { OnOk result (IsOfRoot self.new) }
        ensures behind { OnOk result
            (IsBehind self.old self.new (units_before self.old env.now unit.entry.number)
            unit.entry.unit.now) }
        ensures writes { IfOk result (λ writes.
            option_to_list writes ≡ added env.now unit.entry.unit.now) }
    {
        match unit.unit {
            Unit::Spelled(text, sites) => {
                let spelled = SpelledUnit {
                    number: unit.number,
                    env,
                    text,
                    sites,
                };
                Ok(Some(self.judge(scratch, spelled)?))
            }
            Unit::Entered(_file, _inside) => Ok(Some(boundary(env.alloc(), Step::Enters)?)),
            Unit::Left(_file, _inside) => Ok(Some(boundary(env.alloc(), Step::Leaves)?)),
            Unit::End => Ok(None),
        }
    }

    // What such a unit adds. What is found in it is told, or else it is taken up what it declares.
    fn judge(&mut self, scratch: &mut Scratch, unit: SpelledUnit<'_>) -> Result<Writes, AllocError>
        requires { IsOfRoot self.old }
        ensures root { OnOk result (IsOfRoot self.new) }
        ensures behind { OnOk result
            (IsBehind self.old self.new (before_spelled self.old unit.entry)
            (Spelled unit.entry.text.now unit.entry.sites.now)) }
        ensures writes { IfOk result (λ writes.
            writes ≡ (verdict_over unit.entry.env.now unit.entry.text.now).writes) }
    {
        let verdict = verdict_of(scratch, unit.env, &mut Journal::told(), unit.text)?;
        self.take(scratch, unit, verdict.fault)?;
        Ok(verdict.into_writes())
    }

    // Takes up what is found in a unit, or else what it declares.
    fn take(
        &mut self,
        scratch: &mut Scratch,
        unit: SpelledUnit<'_>,
        fault: Option<Fault>,
    ) -> Result<(), AllocError>
        requires { IsOfRoot self.old }
        ensures root { OnOk result (IsOfRoot self.new) }
        ensures expansion { OnOk result (self.new.expansion.now ≡ self.old.expansion.now) }
        ensures asks { OnOk result (self.new.asks_first ≡ self.old.asks_first) }
        ensures names { OnOk result (self.old.asks_first ≡ true
            → self.new.first
            ≡ names_behind (before_spelled self.old unit.entry) unit.entry.text.now fault) }
        ensures told { OnOk result (map without_other_places self.new.told.items
            ≡ map without_other_places self.old.told.items
            ++ told_for self.old.expansion.now (before_spelled self.old unit.entry)
            (text_and_sites unit.entry) fault) }
    {
        match fault {
            Some(fault) => self.take_fault(scratch, unit, fault),
            None => self.take_names(scratch, unit),
        }
    }

    // Takes up the names that a unit without fault declares, if they are asked for.
    fn take_names(&mut self, scratch: &mut Scratch, unit: SpelledUnit<'_>) -> Result<(), AllocError>
        requires { IsOfRoot self.old }
        ensures root { OnOk result (IsOfRoot self.new) }
        ensures expansion { OnOk result (self.new.expansion.now ≡ self.old.expansion.now) }
        ensures asks { OnOk result (self.new.asks_first ≡ self.old.asks_first) }
        ensures told { OnOk result (self.new.told.items ≡ self.old.told.items) }
        ensures names { OnOk result (self.old.asks_first ≡ true
            → self.new.first
            ≡ names_behind (before_spelled self.old unit.entry) unit.entry.text.now None) }
    {
        if !self.asks_first {
            return Ok(());
        }
        let names = names_in(scratch, unit.env, unit.number, unit.text)?;
        add_names(&mut self.first, names.as_slice())
    }

    // Takes up the fault of a unit.
    fn take_fault(
        &mut self,
        scratch: &mut Scratch,
        unit: SpelledUnit<'_>,
        fault: Fault,
    ) -> Result<(), AllocError>
        requires { IsOfRoot self.old }
        ensures root { OnOk result (IsOfRoot self.new) }
        ensures expansion { OnOk result (self.new.expansion.now ≡ self.old.expansion.now) }
        ensures asks { OnOk result (self.new.asks_first ≡ self.old.asks_first) }
        ensures first { OnOk result (self.new.first ≡ self.old.first) }
        ensures told { OnOk result (map without_other_places self.new.told.items
            ≡ map without_other_places self.old.told.items
            ++ told_for self.old.expansion.now (before_spelled self.old unit.entry)
            (text_and_sites unit.entry) (Some fault)) }
    {
        self.tell(scratch, unit, fault)?;
        self.known.pass_faulty(unit.env, unit.text)
    }

    // Tells what is found in a unit, if it has second places.
    fn tell(
        &mut self,
        scratch: &mut Scratch,
        unit: SpelledUnit<'_>,
        fault: Fault,
    ) -> Result<(), AllocError>
        requires { IsOfRoot self.old }
        ensures root { OnOk result (IsOfRoot self.new) }
        ensures expansion { OnOk result (self.new.expansion.now ≡ self.old.expansion.now) }
        ensures asks { OnOk result (self.new.asks_first ≡ self.old.asks_first) }
        ensures first { OnOk result (self.new.first ≡ self.old.first) }
        ensures told { OnOk result (map without_other_places self.new.told.items
            ≡ map without_other_places self.old.told.items
            ++ told_for self.old.expansion.now (before_spelled self.old unit.entry)
            (text_and_sites unit.entry) (Some fault)) }
    {
        if !has_second(fault.code) {
            return Ok(());
        }
        match site_of(unit.text, unit.sites, fault.index)? {
            Some(site) => {
                let seconds = self.seconds(scratch, unit, fault)?;
                self.tell_at(site.event, fault.code, seconds.as_slice())
            }
            None => Ok(()),
        }
    }

    // The second places of the fault of a unit.
    fn seconds(
        &self,
        scratch: &mut Scratch,
        unit: SpelledUnit<'_>,
        fault: Fault,
    ) -> Result<Vec<Second>, AllocError>
        ensures few { IfOk result (λ seconds. AreFew seconds.items) }
        ensures first_declared { IfOk result (λ seconds.
            is_redeclaration fault.code ≡ true → seconds.items
            ≡ seconds_at (first_declaration_over (before_spelled self.now unit.entry)
            unit.entry.text.now fault.index)) }
    {
        if is_redeclaration(fault.code) {
            return self.first_declared(scratch, unit, fault.index);
        }
        let about = About {
            known: &self.known,
            env: unit.env,
            text: unit.text,
            fault,
        };
        about.seconds(scratch)
    }

    // Where the name at a token of a unit is declared first, if that is before it.
    fn first_declared(
        &self,
        scratch: &mut Scratch,
        unit: SpelledUnit<'_>,
        token: usize,
    ) -> Result<Vec<Second>, AllocError>
        ensures { IfOk result (λ seconds. seconds.items
            ≡ seconds_at (first_declaration_over (before_spelled self.now unit.entry)
            unit.entry.text.now token)) }
    {
        let alloc = unit.env.alloc();
        let own = names_in(scratch, unit.env, unit.number, unit.text)?;
        let spot = first_declaration(alloc, &self.first, own.as_slice(), token)?;
        seconds_at(alloc, spot)
    }

    // Tells what is found of this code at an event, with these second places.
    fn tell_at(&mut self, event: usize, code: Code, seconds: &[Second]) -> Result<(), AllocError>
        requires root { IsOfRoot self.old }
        requires few { AreFew seconds.now }
        ensures root { OnOk result (IsOfRoot self.new) }
        ensures expansion { OnOk result (self.new.expansion.now ≡ self.old.expansion.now) }
        ensures asks { OnOk result (self.new.asks_first ≡ self.old.asks_first) }
        ensures first { OnOk result (self.new.first ≡ self.old.first) }
        ensures told { OnOk result (self.new.told.items
            ≡ self.old.told.items
            ++ record {
              event = event;
              code = code;
              related = flat_map (related_at self.old.expansion.now) seconds.now;
            } ∷ []) }
    {
        let related = self.related(seconds)?;
        self.count(code, seconds);
        self.told.push(RelatedPlaces {
            event,
            code,
            related,
        })?;
        Ok(())
    }

    // Counts what is found, if near names were looked for.
    fn count(&mut self, code: Code, seconds: &[Second])
        ensures units { self.new.known.units.now ≡ self.old.known.units.now }
        ensures told { self.new.told.items ≡ self.old.told.items }
        ensures expansion { self.new.expansion.now ≡ self.old.expansion.now }
        ensures asks { self.new.asks_first ≡ self.old.asks_first }
        ensures first { self.new.first ≡ self.old.first }
    {
        if code == Code::NameNotFound && !are_faulty(seconds) {
            self.known.count_unknown();
        }
    }

    // These places, looked up.
    fn related(&self, seconds: &[Second]) -> Result<Seq<Related>, AllocError>
        requires root { IsOfRoot self.now }
        requires few { AreFew seconds.now }
        ensures finding { IfOk result (AreOfFinding self.now.expansion.now) }
        ensures places { IfOk result (λ related.
            related ≡ flat_map (related_at self.now.expansion.now) seconds.now) }
    {
        let mut related = Vec::new(self.known.alloc);
        'seconds: for second in seconds {
            self.push(&mut related, second)?;
        }
        Ok(Seq::from_vec(related))
    }

    // Puts in this place, looked up.
    fn push(&self, related: &mut Vec<Related>, second: &Second) -> Result<(), AllocError>
        requires root { IsOfRoot self.now }
        requires related { AreAtTokens self.now.expansion.now related.old.items }
        ensures tokens { OnOk result (AreAtTokens self.now.expansion.now related.new.items) }
        ensures count { OnOk result (length related.new.items ≤ length related.old.items + 1) }
        ensures place { OnOk result (related.new.items
            ≡ related.old.items ++ related_at self.now.expansion.now second.now) }
    {
        match self.place(second)? {
            Some(place) => {
                related.push(place)?;
                Ok(())
            }
            None => Ok(()),
        }
    }

    // This place, looked up.
    fn place(&self, second: &Second) -> Result<Option<Related>, AllocError>
        requires { IsOfRoot self.now }
        ensures token { let events = self.now.expansion.now in
            IfOk result (λ place. IfSome place (IsAtToken events (units_of events))) }
        ensures place { IfOk result (λ place.
            option_to_list place ≡ related_at self.now.expansion.now second.now) }
    {
        let Some(Unit::Spelled(text, sites)) = self.known.units.get(second.spot.unit) else {
            return Ok(None);
        };
        let token = second.spot.token;
        let Some(site) = site_of(text, sites, token)? else {
            return Ok(None);
        };
        let Some(spelled) = token_of(text, token) else {
            return Ok(None);
        };
        Ok(Some(Related {
            reason: second.reason,
            place: site.place()?,
            number: token_number(self.expansion, site.event),
            text: Bytes::from_slice(self.known.alloc, spelled)?,
            more: second.more,
        }))
    }

    /// All that is told, from the last event to the first.
    pub fn told_backwards(self) -> Result<Vec<RelatedPlaces>, AllocError>
        requires { IsOfRoot self }
        ensures told { IfOk result (λ told. AreOfFindings self.entry.expansion.now told.items) }
        ensures permutation { IfOk result (λ told.
            IsPermutation self.entry.told.items (reverse told.items)) }
        ensures ordered { IfOk result (λ told.
            IsNonDecreasingBy (λ t. t.event) (reverse told.items)) }
        ensures kept { IfOk result (λ told.
            KeepsOrder self.entry.told.items (reverse told.items)) }
    {
        let JudgedUnits {
            expansion: _expansion,
            known: _known,
            asked: _asked,
            asks_first: _asks_first,
            first: _first,
            mut told,
        } = self;
        told.sort_by_key(|places| places.event)?;
        told.reverse();
        Ok(told)
    }
}

// Whether what is spoken of has an error itself.
fn are_faulty(seconds: &[Second]) -> bool {
    match seconds {
        [first, ..] => first.reason == Reason::Faulty,
        [] => false,
    }
}

// What a file boundary adds.
fn boundary(alloc: Global, step: Step) -> Result<Writes, AllocError>
    ensures { IfOk result (λ writes. writes ≡ boundary step) }
{
    let mut facts = Facts::new(alloc);
    facts.then(step);
    Writes::new(alloc, facts)
}

// Whether a unit is one of tokens.
fn is_of_tokens(unit: &Unit) -> bool {
    match unit {
        Unit::Spelled(UnitText::Tokens(_run), _sites) => true,
        _ => false,
    }
}
