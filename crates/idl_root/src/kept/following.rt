//! What was kept of a root's units, gone through beside the units that stand there now.
//!
//! It stands in front of the store and counts nothing: what it takes again is alike, and so not fresh. A unit judged
//! anew changes the keys at which it adds otherwise. What counts is the answer left there: two prefixes that tell one
//! id are one. Of a use the scopes that may stop it count too. Where scopes, files or prefixes come or go, or more than
//! 256 digests have changed, it ends, and the store is asked.

ghost use Rattle.std.specs.Prelude.{◌≡◌, ◌-◌, ◌∷◌, ◌++◌, [], false, IfNone, IfOk, IfSome, IsFalse, IsTrue, List, OnErr, Some};
ghost use Rattle.idl_env.specs.Facts.{UnitFacts, answers, operations_among};
ghost use Rattle.idl_env.specs.declared.additions.addition.Step.TheVariants.{Closes, Stays};
ghost use Rattle.idl_root.specs.Followed.{AreBeside, ArePrinted, IsAgain, IsFollowed, IsNext, IsTakenAgain, LookElsewhere, StayAlike, UnitsOnly, WereThere, added_by, facts_of, results_from};
ghost use Rattle.idl_root_blocks.specs.Places.{DeclarationPlace, declaration_result};
ghost use Rattle.idl_store.specs.Spots.{result_on};
ghost use Rattle.idl_store.specs.Stored.{list_at};
ghost use Rattle.idl_kept.specs.Texts.{DeclarationResult};
ghost use Rattle.idl_root.specs.Results.{EntryResult};
ghost use Rattle.idl_root.specs.declared.kept.course.Course.{Course as RootCourse};

use crate::kept::changed::Changed;
use crate::kept::course::Course;
use crate::kept::marks::Mark;
use crate::kept::reading::{kept_verdict, unit_log};
use crate::kept::reprinting::Reprinting;
use idl_env::{Env, Facts, Step};
use idl_kept::{Declarations, KeptDeclaration, KeptTexts};
use idl_store::Spot;
use idl_unit::UnitText;
use std::alloc::{AllocError, Global};
use std::rc::Rc;

// So many keys may be answered otherwise than before, until nothing is taken over any more.
const MOST: usize = 256;

/// The units as they were that are still to come, beside the facts so far.
pub struct Following<'k> {
    alloc: Global,
    course: Course<'k>,
    // Digests of the keys that may be answered otherwise than they were before what is kept.
    changed: Changed,
    // Whether the innermost of the open scopes may have other operations than it had then.
    is_around: bool,
    // How many more units there were, and how many more there are.
    less: usize,
    more: usize,
}

impl<'k> Drop for Following<'k> {
    fn drop(self) {
        let Following {
            alloc: _alloc,
            course: _course,
            changed: _changed,
            is_around: _is_around,
            less: _less,
            more: _more,
        } = self;
    }
}

impl<'k> Following<'k> {
    /// Before the first of so many units.
    pub fn new(alloc: Global, course: Course<'k>, count: usize) -> Result<Following<'k>, AllocError>
        ensures { IfOk result (λ following. (lists : List (List DeclarationResult))
            → WereThere [] course.entry.marks.now (results_from lists course.entry)
            → IsFollowed lists course.entry following []) }
    {
        Ok(Following {
            alloc,
            course,
            changed: Changed::new(alloc)?,
            is_around: false,
            less: course.len().saturating_sub(count),
            more: count.saturating_sub(course.len()),
        })
    }

    /// The result of the next unit, if it is of this text and nothing that it asked has changed. It goes into the last draft too.
    ///
    /// Want of memory leaves what is kept as it was.
    pub fn take_again(
        &self,
        kept: &mut KeptTexts,
        text: &UnitText,
    ) -> Result<Option<Rc<KeptDeclaration>>, AllocError>
        ensures none { IfOk result (λ found. IfNone found (kept.new ≡ kept.old)) }
        ensures next { IfOk result (λ found. IfSome found (λ k.
            IsNext kept.old.declarations.lists k.value.out.writes self.now.course)) }
        ensures again { IfOk result (λ found. IfSome found (λ k.
            (earlier : RootCourse) (facts : List UnitFacts)
            → IsFollowed kept.old.declarations.lists earlier self.now facts
            → let here : DeclarationPlace = (text.now, answers facts) in
            IsTakenAgain here (declaration_result here)
            kept.old.declarations kept.new.declarations k.value)) }
        ensures rest { UnitsOnly kept.old kept.new }
        ensures err { OnErr result (kept.new ≡ kept.old) }
    {
        match self.place_of(kept.declarations(), text) {
            Some((list, place)) => kept.take_again(list, place),
            None => Ok(None),
        }
    }

    /// Whether what stands at a spot is one with what is kept of the next unit: so that added the same.
    pub fn is_next(&self, kept: &Declarations, spot: Spot) -> bool
        ensures { IsTrue result → (k : DeclarationResult) → result_on kept.now spot ≡ Some k
            → IsNext kept.now.lists k.out.writes self.now.course }
    {
        if !self.course.begins_with(Mark::Judged) {
            return false;
        }
        kept.is_one(spot, self.course.spot())
    }

    // Where the result of the next unit stands, if it is of this text and nothing that it asked has changed.
    fn place_of(&self, kept: &Declarations, text: &UnitText) -> Option<(usize, usize)>
        ensures { IfSome result (λ place. IsAgain kept.now self.now text.now place) }
    {
        let declaration = self.course.first_of(kept, text)?;
        if !self.changed.shares_none_of(unit_log(declaration)) {
            return None;
        }
        Some(self.course.place())
    }

    /// Behind the units that are no longer there, if the next one isn't of this text.
    pub fn caught_up(
        self,
        kept: &Declarations,
        text: &UnitText,
    ) -> Result<Option<Following<'k>>, AllocError>
        ensures { IfOk result (λ found. IfSome found (λ f.
            (earlier : RootCourse) (facts : List UnitFacts)
            → IsFollowed kept.now.lists earlier self.entry facts
            → IsFollowed kept.now.lists earlier f facts)) }
    {
        let mut following = self;
        while following.less > 0 && following.course.first_of(kept, text).is_none() {
            let Some(next) = following.without_next(kept)? else {
                return Ok(None);
            };
            following = next;
        }
        Ok(Some(following))
    }

    // Behind the next unit, which is no longer there.
    fn without_next(self, kept: &Declarations) -> Result<Option<Following<'k>>, AllocError>
        ensures followed { IfOk result (λ found. IfSome found (λ f.
            (earlier : RootCourse) (facts : List UnitFacts)
            → IsFollowed kept.now.lists earlier self.entry facts
            → IsFollowed kept.now.lists earlier f facts)) }
        ensures less { IfOk result (λ found. IfSome found (λ f. f.less ≡ self.entry.less - 1)) }
    {
        let Following {
            alloc,
            course,
            changed,
            is_around,
            less,
            more,
        } = self;
        let Some(declaration) = course.first(kept) else {
            return Ok(None);
        };
        let Some(course) = course.behind_first() else {
            return Ok(None);
        };
        let facts = kept_verdict(declaration).writes.get();
        let none = Facts::new(alloc);
        if !facts.is_same_step(&none) {
            return Ok(None);
        }
        let changed = changed.with(alloc, facts)?;
        if changed.len() > MOST {
            return Ok(None);
        }
        Ok(Some(Following {
            alloc,
            course,
            changed,
            is_around: may_differ(is_around, facts, &none),
            less: less.saturating_sub(1),
            more,
        }))
    }

    /// Behind the next unit, where this one adds what it added.
    pub fn with_same(self, env: &Env, facts: &Facts) -> Result<Option<Following<'k>>, AllocError>
        ensures { IfOk result (λ found. IfSome found (λ f.
            (lists : List (List DeclarationResult)) (earlier : RootCourse)
            → IsNext lists facts.now self.entry.course
            → IsFollowed lists earlier self.entry env.now
            → IsFollowed lists earlier f (env.now ++ facts.now ∷ []))) }
    {
        if stay_alike(self.is_around, env, &self.changed, facts)? {
            return Ok(self.with_alike(env, facts));
        }
        self.with_closing(env, facts)
    }

    // The same, where nothing that these facts look at may be answered otherwise.
    fn with_alike(self, env: &Env, facts: &Facts) -> Option<Following<'k>>
        requires { StayAlike self.is_around env.now self.changed facts.now }
        ensures { IfSome result (λ f.
            (lists : List (List DeclarationResult)) (earlier : RootCourse)
            → IsNext lists facts.now self.entry.course
            → IsFollowed lists earlier self.entry env.now
            → IsFollowed lists earlier f (env.now ++ facts.now ∷ [])) }
    {
        let Following {
            alloc,
            course,
            changed,
            is_around,
            less,
            more,
        } = self;
        Some(Following {
            alloc,
            course: course.behind_first()?,
            changed,
            is_around,
            less,
            more,
        })
    }

    // The same, where the innermost scope is closed: what it declared and inherited may be answered otherwise from then on.
    fn with_closing(self, env: &Env, facts: &Facts) -> Result<Option<Following<'k>>, AllocError>
        ensures { IfOk result (λ found. IfSome found (λ f.
            (lists : List (List DeclarationResult)) (earlier : RootCourse)
            → IsNext lists facts.now self.entry.course
            → IsFollowed lists earlier self.entry env.now
            → IsFollowed lists earlier f (env.now ++ facts.now ∷ []))) }
    {
        let Following {
            alloc,
            course,
            mut changed,
            is_around: _is_around,
            less,
            more,
        } = self;
        let Some(course) = course.behind_first() else {
            return Ok(None);
        };
        let Some((cursor, entity)) = env.digests_of_innermost() else {
            return Ok(None);
        };
        if !is_closing(facts) || !changed.shares_none(&[cursor]) {
            return Ok(None);
        }
        changed.push(entity)?;
        Ok(Some(Following {
            alloc,
            course,
            changed,
            is_around: false,
            less,
            more,
        }))
    }

    /// Behind the next unit, or before it, where one of this text adds that.
    pub fn with_other(
        self,
        kept: &Declarations,
        env: &Env,
        text: &UnitText,
        facts: &Facts,
    ) -> Result<Option<Following<'k>>, AllocError>
        ensures { IfOk result (λ found. IfSome found (λ f. (earlier : RootCourse)
            → IsFollowed kept.now.lists earlier self.entry env.now
            → IsFollowed kept.now.lists earlier f (env.now ++ facts.now ∷ []))) }
    {
        if self.more > 0 && self.course.first_of(kept, text).is_none() {
            return self.with_more(facts);
        }
        self.exchanged(kept, env, facts)
    }

    // Behind the next unit, in whose place one adds that.
    fn exchanged(
        self,
        kept: &Declarations,
        env: &Env,
        facts: &Facts,
    ) -> Result<Option<Following<'k>>, AllocError>
        ensures { IfOk result (λ found. IfSome found (λ f. (earlier : RootCourse)
            → IsFollowed kept.now.lists earlier self.entry env.now
            → IsFollowed kept.now.lists earlier f (env.now ++ facts.now ∷ []))) }
    {
        let Following {
            alloc,
            course,
            changed,
            is_around,
            less,
            more,
        } = self;
        let Some(declaration) = course.first(kept) else {
            return Ok(None);
        };
        let Some(course) = course.behind_first() else {
            return Ok(None);
        };
        let before = kept_verdict(declaration).writes.get();
        if !before.is_same_step(facts) {
            return Ok(None);
        }
        let changed = changed.with_differing(alloc, before, facts)?;
        let is_around = may_differ(is_around, before, facts);
        if changed.len() > MOST || !stay_alike(is_around, env, &changed, facts)? {
            return Ok(None);
        }
        Ok(Some(Following {
            alloc,
            course,
            changed,
            is_around,
            less,
            more,
        }))
    }

    // Before the next unit, where one more adds that.
    fn with_more(self, facts: &Facts) -> Result<Option<Following<'k>>, AllocError>
        ensures { IfOk result (λ found. IfSome found (λ f.
            (lists : List (List DeclarationResult)) (earlier : RootCourse) (here : List UnitFacts)
            → IsFollowed lists earlier self.entry here
            → IsFollowed lists earlier f (here ++ facts.now ∷ []))) }
    {
        let Following {
            alloc,
            course,
            changed,
            is_around,
            less,
            more,
        } = self;
        let none = Facts::new(alloc);
        if !facts.is_same_step(&none) {
            return Ok(None);
        }
        let changed = changed.with(alloc, facts)?;
        if changed.len() > MOST {
            return Ok(None);
        }
        Ok(Some(Following {
            alloc,
            course,
            changed,
            is_around: may_differ(is_around, facts, &none),
            less,
            more: more.saturating_sub(1),
        }))
    }

    /// Behind a file boundary that adds that.
    pub fn across(
        self,
        env: &Env,
        boundary: Mark,
        facts: &Facts,
    ) -> Result<Option<Following<'k>>, AllocError>
        requires { added_by (boundary ∷ []) [] ≡ facts.now ∷ [] }
        ensures { IfOk result (λ found. IfSome found (λ f.
            (lists : List (List DeclarationResult)) (earlier : RootCourse)
            → IsFollowed lists earlier self.entry env.now
            → IsFollowed lists earlier f (env.now ++ facts.now ∷ []))) }
    {
        if !self.course.begins_with(boundary) {
            return Ok(None);
        }
        Ok(self.with_same(env, facts)?)
    }

    /// Beside the root's names as they were, if no unit is still to come: before the first of so many names, of which there were so
    /// many.
    pub fn reprinting(self, before: usize, count: usize) -> Option<Reprinting>
        ensures { IfSome result (λ r. (lists : List (List DeclarationResult)) (earlier : RootCourse)
            (facts : List UnitFacts) (entries : List (List EntryResult))
            → IsFollowed lists earlier self.entry facts
            → ArePrinted (facts_of lists earlier) (list_at entries earlier.list)
            → AreBeside entries r facts) }
    {
        let Following {
            alloc: _alloc,
            course,
            changed,
            is_around: _is_around,
            less: _less,
            more: _more,
        } = self;
        if !course.is_empty() {
            return None;
        }
        let (list, _place) = course.place();
        Some(Reprinting::new(list, changed, before, count))
    }
}

// Whether the innermost scope may have other operations from now on, where these facts take the place of those.
fn may_differ(is_around: bool, facts: &Facts, others: &Facts) -> bool
    ensures { IsFalse result → (is_around ≡ false)
        × (operations_among facts.now.additions ≡ operations_among others.now.additions) }
{
    is_around || !facts.has_same_operations(others)
}

// Whether facts that are added on both sides keep them alike but at keys of these digests.
fn stay_alike(
    is_around: bool,
    env: &Env,
    changed: &Changed,
    facts: &Facts,
) -> Result<bool, AllocError>
    ensures { IfOk result (λ stay.
        IsTrue stay → StayAlike is_around env.now changed.now facts.now) }
{
    if is_around && !changes_no_scope(facts) {
        return Ok(false);
    }
    look_elsewhere(env, changed, facts)
}

// Whether facts change no open scope, file or prefix.
fn changes_no_scope(facts: &Facts) -> bool
    ensures { IsTrue result → facts.now.step ≡ Stays }
{
    matches!(facts.step(), Step::Stays)
}

// Whether facts look at no key of these digests.
fn look_elsewhere(env: &Env, changed: &Changed, facts: &Facts) -> Result<bool, AllocError>
    ensures { IfOk result (λ elsewhere.
        IsTrue elsewhere → LookElsewhere env.now changed.now facts.now) }
{
    match env.digests_looked_at(facts)? {
        Some(looked) => Ok(changed.shares_none(looked.as_slice())),
        None => Ok(false),
    }
}

// Whether they close a scope, and nothing else.
fn is_closing(facts: &Facts) -> bool
    ensures { IsTrue result → (facts.now.step ≡ Closes) × (facts.now.additions ≡ []) }
{
    matches!(facts.step(), Step::Closes) && facts.len() == 0
}
