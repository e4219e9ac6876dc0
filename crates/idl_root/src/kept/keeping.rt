//! The judging of units whose results are kept.

ghost use Rattle.std.specs.Prelude.{◌≡◌, ◌∷◌, ◌++◌, [], IfOk, IfSome, List, None, OnOk, Some, length, map};
ghost use Rattle.idl_env.specs.Facts.{UnitFacts, answers};
ghost use Rattle.idl_memo.specs.Query.{HoldsIn};
ghost use Rattle.idl_store.specs.Spots.{result_on};
ghost use Rattle.idl_store.specs.Stored.{list_at};
ghost use Rattle.idl_root.specs.Followed.{AreBeside, ArePrinted, IsDeclarationLast, IsFollowed, IsFollowing, IsKeeping, UnitsOnly, WereThere, added_by, facts_of, results_from};
ghost use Rattle.idl_root_blocks.specs.idl_check.walk.Verdict.{verdict_over};
ghost use Rattle.idl_root.specs.Passed.{AllGoOn, JudgesOnly, WalksOnly, keys_behind};
ghost use Rattle.idl_root_blocks.specs.Asking.{AreNoted as HaveNoted, with_asked};
ghost use Rattle.idl_root_blocks.specs.Met.{unit_keys};
ghost use Rattle.idl_root_blocks.specs.Places.{DeclarationPlace};
ghost use Rattle.idl_root_blocks.specs.declared.text.BlockPart.TheVariants.{Text};
ghost use Rattle.idl_kept.specs.Texts.{DeclarationResult};
ghost use Rattle.idl_root.specs.Results.{EntryResult};
ghost use Rattle.idl_root.specs.declared.kept.course.Course.{Course as RootCourse};
ghost use Rattle.idl_root.specs.declared.kept.marks.Mark.TheVariants.{Judged};

use crate::kept::course::Course;
use crate::kept::following::Following;
use crate::kept::known::Known;
use crate::kept::marks::Mark;
use crate::kept::noting::noting;
use crate::kept::reading::{kept_verdict, keys_in, unit_keys, unit_log, unit_text};
use crate::kept::reprinting::Reprinting;
use idl_env::{Answer, DigestedKey, Env, Facts};
use idl_kept::{Declarations, KeptDeclaration, KeptTexts};
use idl_memo::{KeptLog, Meter};
use idl_root_blocks::OpenBlocks;
use idl_root_blocks::idl_check::{DeclarationTask, Scratch};
use idl_unit::UnitText;
use std::alloc::{AllocError, Global};
use std::mem::replace;
use std::rc::Rc;

/// The judging of a root's units so far: what they were, those of before that are still to come, as far as they tell anything, and the
/// blocks that are not yet left.
pub struct Keeping<'k> {
    marks: Vec<Mark>,
    // The root's units as they were when it was compiled last.
    earlier: Course<'k>,
    following: Option<Following<'k>>,
    pub(crate) blocks: OpenBlocks,
    // For what stands in logs for several entries.
    room: Vec<(DigestedKey, Option<Answer>)>,
    /// In which verdicts are made.
    pub scratch: Scratch,
    /// What was run, this root's declarations among it.
    pub meter: Meter,
    /// How many keys the units and blocks asked that stand in no block.
    pub keys: usize,
}

impl<'k> Drop for Keeping<'k> {
    fn drop(self) {
        let Keeping {
            marks: _marks,
            earlier: _earlier,
            following: _following,
            blocks: _blocks,
            room: _room,
            scratch: _scratch,
            meter: _meter,
            keys: _keys,
        } = self;
    }
}

impl<'k> Keeping<'k> {
    /// Before the first of so many units, where these were there before.
    pub fn new(
        alloc: Global,
        earlier: Course<'k>,
        count: usize,
        meter: Meter,
    ) -> Result<Keeping<'k>, AllocError>
        ensures marks { IfOk result (λ keeping. keeping.marks.items ≡ []) }
        ensures earlier { IfOk result (λ keeping. keeping.earlier ≡ earlier.entry) }
        ensures keeping { IfOk result (λ keeping. (lists : List (List DeclarationResult))
            → WereThere [] earlier.entry.marks.now (results_from lists earlier.entry)
            → IsKeeping lists keeping []) }
        ensures meter { IfOk result (λ keeping. keeping.meter ≡ meter) }
        ensures blocks { IfOk result (λ keeping. keeping.blocks.blocks ≡ []) }
        ensures keys { IfOk result (λ keeping. keeping.keys ≡ 0) }
    {
        let marks = Vec::with_capacity(alloc, count)?;
        let following = Following::new(alloc, earlier, count)?;
        Ok(Keeping {
            marks,
            earlier,
            following: Some(following),
            blocks: OpenBlocks::new(alloc),
            room: Vec::new(alloc),
            scratch: Scratch::new(alloc),
            meter,
            keys: 0,
        })
    }

    /// What is kept of a text over the facts so far, to which its verdict's are added next. It goes last into what is made of the
    /// root.
    pub fn judge(
        &mut self,
        kept: &mut KeptTexts,
        env: &Env,
        text: &UnitText,
    ) -> Result<Rc<KeptDeclaration>, AllocError>
        requires { IsKeeping kept.old.declarations.lists self.old env.now }
        ensures obtained { let place : DeclarationPlace = (text.now, answers env.now) in
            IfOk result (λ declaration. IsDeclarationLast place kept.old.declarations
            kept.new.declarations self.old.meter self.new.meter declaration.value) }
        ensures units { UnitsOnly kept.old kept.new }
        ensures lists { kept.new.declarations.lists ≡ kept.old.declarations.lists }
        ensures marks { OnOk result
            (self.new.marks.items ≡ self.old.marks.items ++ Judged ∷ []) }
        ensures keeping { OnOk result (IsKeeping kept.new.declarations.lists self.new
            (env.now ++ (verdict_over env.now text.now).writes ∷ [])) }
        ensures earlier { self.new.earlier ≡ self.old.earlier }
        ensures blocks { OnOk result (AllGoOn env.now (Text text.now ∷ [])
            self.old.blocks.blocks self.new.blocks.blocks) }
        ensures keys { let place : DeclarationPlace = (text.now, answers env.now) in
            OnOk result (self.new.keys
            ≡ keys_behind self.old.blocks.blocks self.old.keys (unit_keys place)) }
    {
        self.marks.push(Mark::Judged)?;
        let declaration = match self.caught_up(kept.declarations(), text)? {
            Some(following) => self.judged(following, kept, env, text)?,
            None => self.obtained(kept, env, text)?,
        };
        self.ask(env, unit_log(&declaration))?;
        noting();
        Ok(declaration)
    }

    // A unit asks these keys: those that stand in no block are counted, and each block notes what it asks.
    fn ask(&mut self, env: &Env, log: &KeptLog<Env>) -> Result<(), AllocError>
        requires held { HoldsIn (answers env.now) log.now }
        requires noted { HaveNoted env.now self.old.blocks }
        ensures blocks { OnOk result
            (self.new.blocks.blocks ≡ map (with_asked env.now log.now) self.old.blocks.blocks) }
        ensures noted { OnOk result (HaveNoted env.now self.new.blocks) }
        ensures keys { OnOk result (self.new.keys
            ≡ keys_behind self.old.blocks.blocks self.old.keys (length log.now)) }
        ensures rest { self.new ≡ record self.old {
          blocks = self.new.blocks;
          keys = self.new.keys;
          room = self.new.room;
        } }
    {
        if self.blocks.is_empty() {
            self.keys = self.keys.saturating_add(keys_in(log));
            return Ok(());
        }
        self.room.clear();
        let entries = log.entries_in(env.alloc(), &mut self.room)?;
        self.blocks.ask(env, entries)
    }

    // The same beside what is followed.
    fn judged(
        &mut self,
        following: Following<'k>,
        kept: &mut KeptTexts,
        env: &Env,
        text: &UnitText,
    ) -> Result<Rc<KeptDeclaration>, AllocError>
        requires { IsFollowed kept.old.declarations.lists self.old.earlier following env.now }
        ensures obtained { let place : DeclarationPlace = (text.now, answers env.now) in
            IfOk result (λ declaration. IsDeclarationLast place kept.old.declarations
            kept.new.declarations self.old.meter self.new.meter declaration.value) }
        ensures units { UnitsOnly kept.old kept.new }
        ensures lists { kept.new.declarations.lists ≡ kept.old.declarations.lists }
        ensures follows { OnOk result (IsFollowing kept.new.declarations.lists self.new
            (env.now ++ (verdict_over env.now text.now).writes ∷ [])) }
        ensures rest { JudgesOnly self.old self.new }
    {
        match following.take_again(kept, text)? {
            Some(declaration) => {
                self.meter.compare(unit_keys(&declaration));
                let facts = kept_verdict(&declaration).writes.get();
                self.following = following.with_same(env, facts)?;
                Ok(declaration)
            }
            None => self.judged_anew(following, kept, env, text),
        }
    }

    // The same, where the next unit's result isn't taken again.
    fn judged_anew(
        &mut self,
        following: Following<'k>,
        kept: &mut KeptTexts,
        env: &Env,
        text: &UnitText,
    ) -> Result<Rc<KeptDeclaration>, AllocError>
        requires { IsFollowed kept.old.declarations.lists self.old.earlier following env.now }
        ensures obtained { let place : DeclarationPlace = (text.now, answers env.now) in
            IfOk result (λ declaration. IsDeclarationLast place kept.old.declarations
            kept.new.declarations self.old.meter self.new.meter declaration.value) }
        ensures units { UnitsOnly kept.old kept.new }
        ensures lists { kept.new.declarations.lists ≡ kept.old.declarations.lists }
        ensures follows { OnOk result (IsFollowing kept.new.declarations.lists self.new
            (env.now ++ (verdict_over env.now text.now).writes ∷ [])) }
        ensures rest { JudgesOnly self.old self.new }
    {
        let declaration = self.obtained(kept, env, text)?;
        let facts = kept_verdict(&declaration).writes.get();
        self.following = following.with_other(kept.declarations(), env, text, facts)?;
        Ok(declaration)
    }

    // A result that is kept and alike, or what a run gives. Where no count can say that one more was run, memory is wanting first.
    fn obtained(
        &mut self,
        kept: &mut KeptTexts,
        env: &Env,
        text: &UnitText,
    ) -> Result<Rc<KeptDeclaration>, AllocError>
        ensures obtained { let place : DeclarationPlace = (text.now, answers env.now) in
            IfOk result (λ declaration. IsDeclarationLast place kept.old.declarations
            kept.new.declarations self.old.meter self.new.meter declaration.value) }
        ensures units { UnitsOnly kept.old kept.new }
        ensures lists { kept.new.declarations.lists ≡ kept.old.declarations.lists }
        ensures following { self.new.following ≡ self.old.following }
        ensures rest { JudgesOnly self.old self.new }
    {
        if self.meter.checked == u64::MAX {
            return Err(AllocError);
        }
        let task = DeclarationTask {
            text: text.clone()?,
        };
        Ok(kept.obtain(&task, env, &mut self.scratch, &mut self.meter)?)
    }

    // What is followed, behind the units that are no longer there: taken out, until it is put back behind this unit.
    fn caught_up(
        &mut self,
        kept: &Declarations,
        text: &UnitText,
    ) -> Result<Option<Following<'k>>, AllocError>
        ensures followed { IfOk result (λ found. IfSome found (λ f. (facts : List UnitFacts)
            → IsFollowing kept.now.lists self.old facts
            → IsFollowed kept.now.lists self.old.earlier f facts)) }
        ensures none { self.new.following ≡ None }
        ensures rest { self.new ≡ record self.old { following = self.new.following } }
    {
        match replace(&mut self.following, None) {
            Some(following) => following.caught_up(kept, text),
            None => Ok(None),
        }
    }

    /// A file boundary, which adds this next.
    pub fn cross(&mut self, env: &Env, mark: Mark, facts: &Facts) -> Result<(), AllocError>
        requires { added_by (mark ∷ []) [] ≡ facts.now ∷ [] }
        ensures keeping { OnOk result ((lists : List (List DeclarationResult))
            → IsKeeping lists self.old env.now
            → IsKeeping lists self.new (env.now ++ facts.now ∷ [])) }
        ensures marks { OnOk result (self.new.marks.items ≡ self.old.marks.items ++ mark ∷ []) }
        ensures rest { WalksOnly self.old self.new }
    {
        self.marks.push(mark)?;
        let following = replace(&mut self.following, None);
        self.following = across(following, env, mark, facts)?;
        Ok(())
    }

    /// The first of known results is that of the next unit, which stands in a block that is taken whole: what was there before is gone
    /// through beside it.
    pub fn pass_known(
        &mut self,
        known: Known<'_>,
        env: &Env,
        declaration: &KeptDeclaration,
    ) -> Result<(), AllocError>
        requires known { result_on known.declarations.now known.spot ≡ Some declaration.now }
        requires keeping { IsKeeping known.declarations.now.lists self.old env.now }
        ensures keeping { OnOk result (IsKeeping known.entry.declarations.now.lists self.new
            (env.now ++ declaration.now.out.writes ∷ [])) }
        ensures marks { OnOk result
            (self.new.marks.items ≡ self.old.marks.items ++ Judged ∷ []) }
        ensures rest { WalksOnly self.old self.new }
    {
        self.marks.push(Mark::Judged)?;
        match self.caught_up(known.declarations(), unit_text(declaration))? {
            Some(following) => {
                self.following = behind_known(following, known, env, declaration)?;
                Ok(())
            }
            None => Ok(()),
        }
    }

    /// What the units were, and what is followed of the root's names, of which there were so many and are so many.
    pub fn ended(self, before: usize, count: usize) -> (Vec<Mark>, Option<Reprinting>)
        ensures marks { result.0 ≡ self.entry.marks }
        ensures reprinting { IfSome result.1 (λ r. (lists : List (List DeclarationResult))
            (facts : List UnitFacts) (entries : List (List EntryResult))
            → IsFollowing lists self.entry facts
            → ArePrinted (facts_of lists self.entry.earlier)
            (list_at entries self.entry.earlier.list)
            → AreBeside entries r facts) }
    {
        let Keeping {
            marks,
            earlier: _earlier,
            following,
            blocks: _blocks,
            room: _room,
            scratch: _scratch,
            meter: _meter,
            keys: _keys,
        } = self;
        match following {
            Some(following) => (marks, following.reprinting(before, count)),
            None => (marks, None),
        }
    }
}

// What is followed behind a unit of which this is kept, the first of known results.
fn behind_known<'k>(
    following: Following<'k>,
    known: Known<'_>,
    env: &Env,
    declaration: &KeptDeclaration,
) -> Result<Option<Following<'k>>, AllocError>
    requires { result_on known.declarations.now known.spot ≡ Some declaration.now }
    ensures { IfOk result (λ found. IfSome found (λ f. (earlier : RootCourse)
        → IsFollowed known.entry.declarations.now.lists earlier following.entry env.now
        → IsFollowed known.entry.declarations.now.lists earlier f
        (env.now ++ declaration.now.out.writes ∷ []))) }
{
    let facts = kept_verdict(declaration).writes.get();
    if following.is_next(known.declarations(), known.spot()) {
        return Ok(following.with_same(env, facts)?);
    }
    Ok(following.with_other(known.declarations(), env, unit_text(declaration), facts)?)
}

// What is followed behind a file boundary that adds that.
fn across<'k>(
    following: Option<Following<'k>>,
    env: &Env,
    mark: Mark,
    facts: &Facts,
) -> Result<Option<Following<'k>>, AllocError>
    requires { added_by (mark ∷ []) [] ≡ facts.now ∷ [] }
    ensures { IfOk result (λ found. (lists : List (List DeclarationResult)) (earlier : RootCourse)
        → IfSome following.entry (λ f. IsFollowed lists earlier f env.now)
        → IfSome found (λ f. IsFollowed lists earlier f (env.now ++ facts.now ∷ []))) }
{
    match following {
        Some(following) => following.across(env, mark, facts),
        None => Ok(None),
    }
}
