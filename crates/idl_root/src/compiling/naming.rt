//! The names of a root's units, and where what they declare ends.

ghost use Rattle.std.specs.Prelude.{◌≡◌, ◌++◌, IfOk, List, OnOk, filter, map, reverse};
ghost use Rattle.idl_env.specs.Facts.{UnitFacts};
ghost use Rattle.idl_root.specs.Added.{told_by};
ghost use Rattle.idl_root.specs.Held.{with_gathered, with_units};
ghost use Rattle.idl_root.specs.Judged.{judged_at};
ghost use Rattle.idl_root_blocks.specs.idl_check.walk.Verdict.{added, verdict_over};
ghost use Rattle.idl_root.specs.Named.{AreNumbersIn, closings_from, end_before, ends_of, is_used, named_as, named_at, names_over};

use crate::compiling::judging::{Accumulator, RootState, verdict_over};
use crate::kept::added::Added;
use idl_env::{Env, Step};
use idl_finding::Spelled;
use idl_root_blocks::idl_check::{NameRole, NamedSite, Scratch, names_of};
use idl_unit::{Fault, Unit, UnitText};
use std::alloc::{AllocError, Global};

/// A unit with tokens, its names, and how it changes the open scopes.
pub struct NamedUnit<'a> {
    pub unit: Spelled<'a>,
    pub names: Vec<NamedSite>,
    pub step: Step,
}

impl<'a> Drop for NamedUnit<'a> {
    fn drop(self) {
        let NamedUnit {
            unit: _unit,
            names: _names,
            step: _step,
        } = self;
    }
}

/// What has come of a root so far, and its units with their names.
pub struct Naming<'a> {
    pub judging: RootState<'a>,
    pub units: Vec<NamedUnit<'a>>,
}

impl<'a> Drop for Naming<'a> {
    fn drop(self) {
        let Naming {
            judging: _judging,
            units: _units,
        } = self;
    }
}

impl<'a> Accumulator<'a> {
    // Puts in what comes of one unit more over these facts, and the unit with its names; what it adds to them.
    pub(crate) fn add_named(
        &mut self,
        named: &mut Vec<NamedUnit<'a>>,
        scratch: &mut Scratch,
        env: &Env,
        unit: &'a Unit,
    ) -> Result<Added, AllocError>
        ensures added { IfOk result (λ a. told_by a ≡ added env.now unit.now) }
        ensures gathered { OnOk result ((facts : List UnitFacts)
            → with_gathered facts self.new
            ≡ with_units (with_gathered facts self.old) (judged_at env.now unit.now)) }
        ensures named { OnOk result
            (map named_as named.new.items
            ≡ map named_as named.old.items ++ named_at env.now unit.now) }
    {
        let Unit::Spelled(text, sites) = unit else {
            return self.add(env.alloc(), scratch, env, unit);
        };
        let unit = Spelled { text, sites };
        let verdict = verdict_over(scratch, env, text)?;
        self.add_verdict(env.alloc(), unit, &verdict)?;
        named.push(NamedUnit {
            unit,
            names: names_over(scratch, env, text, verdict.fault)?,
            step: verdict.writes.get().step().clone()?,
        })?;
        Ok(Added::Given(verdict.into_writes()))
    }
}

// The names of a text over facts, where this is its fault: of one with a fault, which declares nothing, those that are used.
fn names_over(
    scratch: &mut Scratch,
    env: &Env,
    text: &UnitText,
    fault: Option<Fault>,
) -> Result<Vec<NamedSite>, AllocError>
    requires { fault ≡ (verdict_over env.now text.now).fault }
    ensures { IfOk result (λ names. names.items ≡ names_over env.now text.now) }
{
    let names = names_of(scratch, env, text)?;
    match fault {
        None => Ok(names),
        Some(_fault) => Ok(used_among(names)),
    }
}

// Those that are used, in order.
fn used_among(mut names: Vec<NamedSite>) -> Vec<NamedSite>
    ensures { result.items ≡ filter is_used names.items }
{
    names.retain(|name| is_used(name));
    names
}

// Whether a name is used.
fn is_used(name: &NamedSite) -> bool
    ensures { result ≡ is_used name.now }
{
    matches!(name.role, NameRole::Used)
}

/// The numbers of the units in which what these declare ends: of an opening its closing, if it is closed, and else its own.
pub fn ends_of(alloc: Global, units: &[NamedUnit<'_>]) -> Result<Vec<usize>, AllocError>
    ensures { let all = map named_as units.now in
        IfOk result (λ ends. AreNumbersIn all ends.items (ends_of all)) }
{
    let mut ends = Vec::with_capacity(alloc, units.len())?;
    let mut closings = Vec::new(alloc);
    let mut index = units.len();
    'back: while index > 0 {
        index -= 1;
        let step = &units[index].step;
        ends.push(end_before(step, index, &closings))?;
        note_step(&mut closings, step, index)?;
    }
    ends.reverse();
    Ok(ends)
}

// The number of the unit in which that ends what a unit declares, behind which these closings stand, the innermost last.
fn end_before(step: &Step, index: usize, closings: &[usize]) -> usize
    ensures { result ≡ end_before step.now index (reverse closings.now) }
{
    match step {
        Step::Opens(_, _) | Step::OpensNameless(_) => closings.last().copied().unwrap_or(index),
        _ => index,
    }
}

// Puts a closing to those behind it; an opening takes the innermost off.
fn note_step(closings: &mut Vec<usize>, step: &Step, index: usize) -> Result<(), AllocError>
    ensures { OnOk result
        (reverse closings.new.items ≡ closings_from step.now index (reverse closings.old.items)) }
{
    match step {
        Step::Opens(_, _) | Step::OpensNameless(_) => {
            let _closing = closings.pop();
        }
        Step::Closes => closings.push(index)?,
        _ => {}
    }
    Ok(())
}
