//! The walk over the sites of a unit.

ghost use Rattle.std.specs.Prelude.{◌≡◌, ◌≤◌, ◌+◌, ◌∷◌, ◌++◌, [], ℕ, OnOk, Some, drop, map, option_to_list, take};
ghost use Rattle.idl_check.specs.told.Bodies.{begun_body, raising};
ghost use Rattle.idl_check.specs.tables.Declaring.{finished, with_finished};
ghost use Rattle.idl_check.specs.walk.Held.{HasRoomFor, held, visited};
ghost use Rattle.idl_check.specs.walk.Walk.{faulty_if, first_walk, is_known, is_over, noted, noted_in, scope_visit, walk, with_scope};
ghost use Rattle.idl_check.specs.told.Labels.{is_idle};
ghost use Rattle.idl_fault.specs.declared.code.Code.TheVariants.{BadOneway, UselessDefault};
ghost use Rattle.std.specs.List.{list_any};
ghost use Rattle.idl_memo.specs.Query.{run};
ghost use Rattle.idl_env.specs.Facts.{answers};
ghost use Rattle.idl_env.specs.keys.Key.{key_eq};
ghost use Rattle.idl_env.specs.Turns.{turns_for};
ghost use Rattle.idl_parts.specs.Item.{item_at, item_length};
ghost use Rattle.idl_unit.specs.TokenRules.{fault_at};

use crate::tables::bases::Bases;
use crate::tables::codes::lesser;
use crate::tables::declaring::{Ending, Written, finished, kind_of, path_in};
use crate::told::bodies::{Body, Nest, end_innermost};
use crate::told::clauses::Clauses;
use crate::told::labels::UnionLabels;
use crate::told::values::Values;
use crate::walk::scratch::Scratch;
use idl_base::{Bytes, Seq, Shared};
use idl_entity::{Entity, Kind, Path};
use idl_env::{Addition, Env, Facts, OpenScopes, Scope, Step};
use idl_fault::Code;
use idl_memo::Journal;
use idl_parts::{Declaration, UnitPart};
use idl_scope::{Cursor, View};
use idl_unit::Fault;
use std::alloc::{AllocError, Global};

/// How far a walk has come. Of its many fields most are empty, so each is dropped where it stands.
pub struct Walker<'a> {
    pub env: &'a Env,
    /// The number of the next token.
    pub at: usize,
    /// The scopes around it, the innermost first.
    pub cursor: Cursor<'a>,
    /// What the tokens before it add.
    pub own: Facts,
    /// Those of the declared names that the unit's end finishes.
    pub begun: Seq<Shared<Entity>>,
    pub bases: Bases,
    /// What the next names are declared with.
    pub written: Written,
    /// What was declared last.
    pub last: Option<Shared<Entity>>,
    /// The scopes of the unit around it, the innermost first.
    pub bodies: Nest,
    pub clauses: Clauses,
    /// The labels of the unions around it, the innermost first.
    pub unions: Vec<UnionLabels>,
    /// The text that stands behind the next name, if something is said by it of what that denotes.
    pub text: Seq<u16>,
    /// The paths of what the used names denote, in order.
    pub found: Seq<Path>,
    pub values: Values,
    /// The least fault so far.
    pub fault: Option<Fault>,
}

impl<'a> Drop for Walker<'a> {
    #[inline(always)]
    fn drop(self) {
        let Walker {
            env: _env,
            at: _at,
            cursor: _cursor,
            own: _own,
            begun: _begun,
            bases: _bases,
            written: _written,
            last: _last,
            bodies: _bodies,
            clauses: _clauses,
            unions: _unions,
            text: _text,
            found: _found,
            values: _values,
            fault: _fault,
        } = self;
    }
}

impl<'a> Walker<'a> {
    /// Before the first site of a unit, in these scopes, where this fault of it is known. What is
    /// added takes the room that there is.
    pub fn new(
        env: &'a Env,
        scopes: &'a OpenScopes,
        scratch: &mut Scratch,
        known: Option<Fault>,
    ) -> Walker<'a>
        ensures walk { held result ≡ record (first_walk scopes.now) { fault = known } }
        ensures env { result.env.now ≡ env.now }
    {
        let alloc = env.alloc();
        Walker {
            env,
            at: 0,
            cursor: Cursor::new(scopes),
            own: Facts::within(alloc, &mut scratch.room),
            begun: Seq::new(alloc),
            bases: Bases::new(),
            written: Written::new(alloc),
            last: None,
            bodies: Nest::new(alloc),
            clauses: Clauses::new(alloc),
            unions: Vec::new(alloc),
            text: Seq::new(alloc),
            found: Seq::new(alloc),
            values: Values::new(alloc),
            fault: known,
        }
    }

    /// Walks over sites.
    pub fn walk(&mut self, log: &mut Journal<Env>, sites: &[UnitPart<'_>]) -> Result<(), AllocError>
        requires { HasRoomFor (held self.old) (map item_at sites.now) }
        ensures walked { OnOk result ((turns : ℕ) → turns_for self.old.env.now ≤ turns →
            (held self.new, log.new)
            ≡ run key_eq (walk turns (map item_at sites.now) (held self.old))
            (answers self.old.env.now) log.old) }
        ensures env { OnOk result (self.new.env.now ≡ self.old.env.now) }
    {
        for site in sites {
            if self.is_over() {
                return Ok(());
            }
            self.visit(log, site)?;
        }
        Ok(())
    }

    // Nothing more is asked behind the token of a fault.
    fn is_over(&self) -> bool
        ensures { result ≡ is_over (held self.now) }
    {
        self.is_known(self.at)
    }

    /// Whether a fault at a token before this one is known, and no expression is being read.
    pub fn is_known(&self, at: usize) -> bool
        ensures { result ≡ is_known at (held self.now) }
    {
        match self.fault {
            Some(fault) => fault.index < at && self.values.begin.is_none(),
            None => false,
        }
    }

    /// Notes a fault of a token, unless a lesser one was noted.
    pub fn note(&mut self, index: usize, code: Option<Code>)
        ensures { self.new
            ≡ record self.old {
              fault = noted self.old.fault (map (fault_at index) (option_to_list code));
            } }
    {
        let Some(code) = code else {
            return;
        };
        let fault = Fault { index, code };
        self.fault = Some(least_of(self.fault, fault));
    }

    /// A site. Most are tokens.
    #[tactic(auto, unfolding(crate::specs::walk::Walk::visit))]
    pub fn visit(&mut self, log: &mut Journal<Env>, site: &UnitPart<'_>) -> Result<(), AllocError>
        requires { HasRoomFor (held self.old) (item_at site.now ∷ []) }
        ensures visited { OnOk result ((turns : ℕ) → turns_for self.old.env.now ≤ turns →
            (held self.new, log.new)
            ≡ run key_eq (visited turns (item_at site.now) (held self.old))
            (answers self.old.env.now) log.old) }
        ensures at { OnOk result (self.new.at ≡ self.old.at + item_length (item_at site.now)) }
        ensures env { OnOk result (self.new.env.now ≡ self.old.env.now) }
    {
        match *site {
            UnitPart::Tokens(count) => self.pass(count),
            _ => self.visit_any(log, site),
        }
    }

    // A site, whatever it is.
    #[inline(never)]
    #[tactic(auto, unfolding(crate::specs::walk::Walk::visit))]
    fn visit_any(&mut self, log: &mut Journal<Env>, site: &UnitPart<'_>) -> Result<(), AllocError>
        requires { HasRoomFor (held self.old) (item_at site.now ∷ []) }
        ensures visited { OnOk result ((turns : ℕ) → turns_for self.old.env.now ≤ turns →
            (held self.new, log.new)
            ≡ run key_eq (visited turns (item_at site.now) (held self.old))
            (answers self.old.env.now) log.old) }
        ensures at { OnOk result (self.new.at ≡ self.old.at + item_length (item_at site.now)) }
        ensures env { OnOk result (self.new.env.now ≡ self.old.env.now) }
    {
        match *site {
            UnitPart::Declared(way, name) => self.declare(log, way, name),
            UnitPart::Used(way, name) => self.use_name(log, way, name),
            UnitPart::ScopeBegins(way, name) => self.begin_scope(way, name),
            UnitPart::Tokens(count) => self.pass(count),
            UnitPart::Joined(purpose, text) => self.join(purpose, text),
            UnitPart::ScopeEnds => self.end_scope(),
            UnitPart::ValueBegins => self.begin_value(),
            UnitPart::ValueEnds(way, expression) => self.end_value(way, expression),
            UnitPart::TypeEnds(shape) => self.end_type(shape),
            UnitPart::ArrayEnds => self.end_array(),
            UnitPart::Enumerates(names) => self.enumerate(names),
            UnitPart::Identifies(text) => self.keep_text(text),
            UnitPart::Switches(discrete) => self.switch(discrete),
            UnitPart::Default => self.label_default(),
            UnitPart::GivesBack => self.give_back(),
        }
    }

    /// So many tokens.
    pub fn pass(&mut self, count: usize) -> Result<(), AllocError>
        requires { self.old.at + count ≤ 18446744073709551615 }
        ensures { self.new ≡ record self.old { at = self.old.at + count } }
    {
        self.at += count;
        Ok(())
    }

    // What the next token begins is given back by a oneway operation.
    fn give_back(&mut self) -> Result<(), AllocError>
        ensures { self.new
            ≡ record self.old {
              fault = noted self.old.fault (fault_at self.old.at BadOneway ∷ []);
            } }
    {
        self.note(self.at, Some(Code::BadOneway));
        Ok(())
    }

    /// The environment under what the tokens so far add.
    pub fn view(&self) -> View<'_>
        ensures env { result.env.now ≡ self.now.env.now }
        ensures own { result.own.now ≡ self.now.own }
    {
        View {
            env: self.env,
            own: &self.own,
        }
    }

    // The scope of what is declared so begins.
    fn begin_scope(&mut self, way: Declaration, name: &Bytes) -> Result<(), AllocError>
        ensures walk { OnOk result
            (held self.new
            ≡ record (held self.old) {
              cursor = with_scope way name.now self.old.cursor;
              bodies =
                  begun_body self.old.last self.old.written.data_type
                  ∷ self.old.bodies;
            }) }
        ensures env { OnOk result (self.new.env.now ≡ self.old.env.now) }
    {
        let alloc = self.env.alloc();
        let body = Body::new(alloc, &self.last, &self.written.data_type)?;
        self.bodies.begin(body)?;
        let Some(innermost) = self.cursor.innermost() else {
            return Ok(());
        };
        let path = path_in(alloc, &self.own, name, &innermost.path)?;
        let scope = Scope {
            path,
            kind: kind_of(way),
            body: 1,
        };
        self.cursor.begin(alloc, scope)
    }

    // It ends: it is a type from then on. The labels of a union are complete.
    fn end_scope(&mut self) -> Result<(), AllocError>
        ensures visit { OnOk result
            (held self.new ≡ noted_in (scope_visit (held self.old)) self.old.fault) }
        ensures at { OnOk result (self.new.at ≡ self.old.at) }
        ensures env { OnOk result (self.new.env.now ≡ self.old.env.now) }
    {
        let Some(innermost) = self.cursor.innermost() else {
            return Ok(());
        };
        let path = innermost.path.clone()?;
        let is_union = innermost.kind == Kind::Union;
        let alloc = self.env.alloc();
        self.written.name_type(path);
        end_innermost(alloc, &mut self.bodies, &self.clauses, &mut self.begun)?;
        self.cursor.end()?;
        if is_union { self.end_union() } else { Ok(()) }
    }

    // The labels of the innermost union are complete.
    fn end_union(&mut self) -> Result<(), AllocError>
        ensures visit { OnOk result
            (held self.new
            ≡ noted_in
            (faulty_if (list_any is_idle (take 1 self.old.unions.items)) UselessDefault
            (held self.old)
            (record (held self.old) { unions = drop 1 self.old.unions.items })) self.old.fault) }
        ensures at { OnOk result (self.new.at ≡ self.old.at) }
        ensures env { OnOk result (self.new.env.now ≡ self.old.env.now) }
    {
        if self.unions.is_empty() {
            return Ok(());
        }
        let labels = self.unions.remove(0);
        if labels.is_idle() {
            self.note(self.at, Some(Code::UselessDefault));
            return Ok(());
        }
        Ok(())
    }

    /// What a unit without fault adds stands there, where it does this to the open scopes.
    pub fn finish_facts(&mut self, step: Step) -> Result<(), AllocError>
        ensures { OnOk result
            (self.new.own
            ≡ record {
              additions =
                  with_finished
                  (finished self.old.bases.paths self.old.values.constant self.old.clauses)
                  self.old.own.additions
                  (self.old.begun ++ raising self.old.last self.old.clauses);
              step = step;
            }) }
    {
        let alloc = self.env.alloc();
        self.own.then(step);
        self.clauses.add_raising(&mut self.begun, &self.last)?;
        let begun = self.begun.as_slice();
        if begun.is_empty() {
            return Ok(());
        }
        let paths = self.bases.paths(alloc)?;
        let ending = Ending {
            bases: &paths,
            value: &self.values.constant,
            clauses: &self.clauses,
        };
        finish(alloc, &mut self.own, ending, begun)
    }
}

// The least of a fault and of the one before, if there was one.
fn least_of(before: Option<Fault>, fault: Fault) -> Fault
    ensures { Some result ≡ noted before (fault ∷ []) }
{
    match before {
        Some(before) => lesser(before, fault),
        None => fault,
    }
}

// Puts in what has begun, as the unit's end finishes it.
fn finish(
    alloc: Global,
    own: &mut Facts,
    ending: Ending<'_>,
    begun: &[Shared<Entity>],
) -> Result<(), AllocError>
    ensures { OnOk result
        (own.new
        ≡ record own.old {
          additions =
              with_finished
              (finished ending.entry.bases.now ending.entry.value.now ending.entry.clauses.now)
              own.old.additions begun.now;
        }) }
{
    for entity in begun {
        own.add(Addition::Declares(finished(alloc, ending, entity)?))?;
    }
    Ok(())
}
