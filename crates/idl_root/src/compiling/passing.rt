//! The passing of units whose results are kept, block by block.
//!
//! Pieces are gone through by recursion, no deeper than files include one another: its contract is that of what is met
//! (`met_over`). Whether a file is a block is told by a scan to its leaving, at each level anew.

ghost use Rattle.std.specs.Prelude.{◌≡◌, ◌≤◌, ◌<◌, ◌^◌, ◌++◌, ◌∷◌, [], IfOk, List, OnOk, Some};
ghost use Rattle.idl_root_blocks.specs.idl_check_laws.Closing.{AreTold};
ghost use Rattle.idl_env.specs.Facts.{UnitFacts, answers, count_in};
ghost use Rattle.idl_env.specs.Turns.{most_turns, turns_for};
ghost use Rattle.idl_env.specs.declared.keys.key.Key.TheVariants.{Nameless};
ghost use Rattle.idl_kept.specs.Texts.{AreListsOf, DeclarationResult, IsPlaced, Texts, unit_results};
ghost use Rattle.idl_memo.specs.declared.meter.Meter.{Meter};
ghost use Rattle.idl_store.specs.Spots.{result_on};
ghost use Rattle.idl_root.specs.Added.{told_by};
ghost use Rattle.idl_root.specs.AsBefore.{judged_beside};
ghost use Rattle.idl_root.specs.Followed.{IsBoundary, IsKeeping, added_by};
ghost use Rattle.idl_root.specs.Held.{with_gathered, with_units};
ghost use Rattle.idl_root.specs.Judged.{facts_after, judged_after};
ghost use Rattle.idl_root.specs.Passed.{ArePassed, Compares, HasDrafts, IsSameBlock, WalksOnly, known_results, with_kept};
ghost use Rattle.idl_root.specs.Results.{mark_at, marks_in, marks_of};
ghost use Rattle.idl_root.specs.declared.kept.keeping.Keeping.{Keeping as SeenKeeping};
ghost use Rattle.idl_root_blocks.specs.declared.text.BlockPart.{BlockPart};
ghost use Rattle.idl_root_blocks.specs.Blocks.{Block, IsOfBlock, Nothing, Pieces, cut};
ghost use Rattle.idl_root_blocks.specs.Finding.{in_front, texts_in};
ghost use Rattle.idl_root_blocks.specs.Places.{block_at as block_place, block_result, facts_behind, facts_over, with_entering};
ghost use Rattle.idl_root_blocks.specs.Units.{text_of};
ghost use Rattle.idl_unit.specs.declared.unit.Unit.{Unit as RootUnit};

use crate::compiling::judging::{Accumulator, crossed};
use crate::kept::added::Added;
use crate::kept::keeping::Keeping;
use crate::kept::known::Known;
use crate::kept::marks::Mark;
use crate::kept::noting::noting;
use crate::kept::reading::kept_verdict;
use idl_env::{Env, PlainEnv};
use idl_finding::Spelled;
use idl_kept::KeptTexts;
use idl_memo::passing;
use idl_root_blocks::idl_check::DeclarationTask;
use idl_root_blocks::idl_check_laws::more_turns;
use idl_root_blocks::verdicts::{enough, walked};
use idl_root_blocks::{BlockTask, block_at, cutting, resulting, standing, taking, text_of};
use idl_store::Spot;
use idl_unit::Unit;
use std::alloc::AllocError;

impl<'a> Accumulator<'a> {
    /// Puts in what comes of these units, whose results are kept; the facts behind them.
    #[cycle(pieces)]
    pub fn add_all(
        &mut self,
        keeping: &mut Keeping<'_>,
        kept: &mut KeptTexts,
        env: PlainEnv,
        units: &'a [Unit],
    ) -> Result<PlainEnv, AllocError>
        requires keeping { IsKeeping kept.old.declarations.lists keeping.old env }
        requires told { AreTold env }
        requires drafts { HasDrafts kept.old }
        ensures env { IfOk result (λ behind. behind ≡ facts_after env units.now) }
        ensures gathered { OnOk result ((facts : List UnitFacts)
            → with_gathered facts self.new
            ≡ with_units (with_gathered facts self.old) (judged_after env units.now)) }
        ensures lists { AreListsOf kept.old kept.new }
        ensures earlier { keeping.new.earlier ≡ keeping.old.earlier }
        ensures passed { OnOk result (ArePassed env (cut (text_of units.now))
            kept.old keeping.old kept.new keeping.new) }
        ensures compared { OnOk result (Compares env (cut (text_of units.now))
            kept.old keeping.old.meter keeping.new.meter) }
    {
        joining();
        cutting();
        more_turns();
        let mut env = env;
        let mut left = units;
        'units: while let Some((unit, behind)) = left.split_first() {
            match block_at(unit, behind) {
                Some((inside, others)) => {
                    env = self.add_block(keeping, kept, env, inside)?;
                    env.get().bounds_turns();
                    left = others;
                }
                None => {
                    let added = self.add_kept(keeping, kept, env.get(), unit)?;
                    env = behind_added(keeping, env, added)?;
                    env.get().bounds_turns();
                    left = behind;
                }
            }
        }
        Ok(env)
    }

    // The same of the block of these units. It is taken whole, if one is kept that is alike, and units are around the same boundaries; if
    // they are around others, what is kept of it is put together anew, of results that are all kept, and it is compared as a whole.
    #[cycle(pieces)]
    fn add_block(
        &mut self,
        keeping: &mut Keeping<'_>,
        kept: &mut KeptTexts,
        env: PlainEnv,
        units: &'a [Unit],
    ) -> Result<PlainEnv, AllocError>
        requires block { IsOfBlock (text_of units.now) }
        requires keeping { IsKeeping kept.old.declarations.lists keeping.old env }
        requires told { AreTold env }
        requires drafts { HasDrafts kept.old }
        ensures env { IfOk result (λ behind.
            behind ≡ facts_behind env (cut (text_of units.now))) }
        ensures gathered { OnOk result ((facts : List UnitFacts)
            → with_gathered facts self.new ≡ with_units (with_gathered facts self.old)
            (judged_after (with_entering env) units.now)) }
        ensures lists { AreListsOf kept.old kept.new }
        ensures earlier { keeping.new.earlier ≡ keeping.old.earlier }
        ensures passed { OnOk result (ArePassed env (Block (cut (text_of units.now)) Nothing)
            kept.old keeping.old kept.new keeping.new) }
        ensures compared { OnOk result (Compares env (Block (cut (text_of units.now)) Nothing)
            kept.old keeping.old.meter keeping.new.meter) }
    {
        noting();
        taking();
        standing();
        let task = BlockTask {
            text: text_of(env.get().alloc(), units)?,
        };
        if let Some(spot) = kept.alike(&task, &env) {
            return self.add_taken(keeping, kept, env, (units, spot));
        }
        let is_like = kept.has_like(&task, &env);
        let compared = keeping.meter.compared;
        let begin = kept.drafted();
        let env = beyond(keeping, env, Mark::Entered(false))?;
        keeping.enter(env.get(), task)?;
        let env = self.add_all(keeping, kept, env, units)?;
        bound(env.get());
        let keys = keeping.leave(kept, begin)?;
        keeping.compare_block(is_like, compared, keys);
        let env = beyond(keeping, env, Mark::Left(false))?;
        Ok(env)
    }

    // The same, where one that is alike is kept at a spot.
    fn add_taken(
        &mut self,
        keeping: &mut Keeping<'_>,
        kept: &mut KeptTexts,
        env: PlainEnv,
        block: (&'a [Unit], Spot),
    ) -> Result<PlainEnv, AllocError>
        requires block { IsOfBlock (text_of block.0.now) }
        requires found { result_on kept.old.blocks block.1
            ≡ Some (block_result (text_of block.0.now, answers env)) }
        requires keeping { IsKeeping kept.old.declarations.lists keeping.old env }
        requires told { AreTold env }
        requires drafts { HasDrafts kept.old }
        ensures env { IfOk result (λ behind.
            behind ≡ facts_behind env (cut (text_of block.entry.0.now))) }
        ensures gathered { OnOk result ((facts : List UnitFacts)
            → with_gathered facts self.new ≡ with_units (with_gathered facts self.old)
            (judged_after (with_entering env) block.entry.0.now)) }
        ensures lists { AreListsOf kept.old kept.new }
        ensures earlier { keeping.new.earlier ≡ keeping.old.earlier }
        ensures passed { OnOk result (ArePassed env
            (Block (cut (text_of block.entry.0.now)) Nothing)
            kept.old keeping.old kept.new keeping.new) }
        ensures compared { OnOk result (Compares env
            (Block (cut (text_of block.entry.0.now)) Nothing)
            kept.old keeping.old.meter keeping.new.meter) }
    {
        let (units, spot) = block;
        let first = keeping.take_block(kept, &env, spot, units)?;
        let env = beyond(keeping, env, Mark::Entered(false))?;
        let known = Known::new(kept.declarations(), first);
        let env = self.add_known(keeping, known, env, units)?;
        bound(env.get());
        let env = beyond(keeping, env, Mark::Left(false))?;
        repeated();
        noting();
        taking();
        passing::<Env, DeclarationTask>();
        Ok(env)
    }

    // Puts in what comes of units of which these are the results.
    fn add_known(
        &mut self,
        keeping: &mut Keeping<'_>,
        known: Known<'_>,
        env: PlainEnv,
        units: &'a [Unit],
    ) -> Result<PlainEnv, AllocError>
        requires { IsKeeping known.declarations.now.lists keeping.old env }
        ensures env { let results = known_results known.entry (texts_in (text_of units.now)) in
            IfOk result (λ behind. behind ≡ env ++ added_by (marks_of units.now) results) }
        ensures gathered { let results = known_results known.entry (texts_in (text_of units.now)) in
            OnOk result ((facts : List UnitFacts) → with_gathered facts self.new
            ≡ with_units (with_gathered facts self.old) (judged_beside units.now results)) }
        ensures marks { OnOk result
            (keeping.new.marks.items ≡ keeping.old.marks.items ++ marks_of units.now) }
        ensures keeping { IfOk result (λ behind.
            IsKeeping known.entry.declarations.now.lists keeping.new behind) }
        ensures rest { WalksOnly keeping.old keeping.new }
    {
        let mut env = env;
        let mut known = known;
        for unit in units {
            let (behind, others) = self.add_next(keeping, known, env, unit)?;
            env = behind;
            known = others;
        }
        Ok(env)
    }

    // The same of one of them; the facts behind it, and the results of those behind it.
    fn add_next<'s>(
        &mut self,
        keeping: &mut Keeping<'_>,
        known: Known<'s>,
        env: PlainEnv,
        unit: &'a Unit,
    ) -> Result<(PlainEnv, Known<'s>), AllocError>
        requires { IsKeeping known.declarations.now.lists keeping.old env }
        ensures env { IfOk result (λ r. (units : List RootUnit)
            → let all = unit.now ∷ units in
            r.0 ++ added_by (marks_of units) (known_results r.1 (texts_in (text_of units)))
            ≡ env ++ added_by (marks_of all) (known_results known.entry (texts_in (text_of all)))) }
        ensures gathered { IfOk result (λ r. (facts : List UnitFacts) (units : List RootUnit)
            → let all = unit.now ∷ units in
            let results = known_results r.1 (texts_in (text_of units)) in
            with_units (with_gathered facts self.new) (judged_beside units results)
            ≡ with_units (with_gathered facts self.old)
            (judged_beside all (known_results known.entry (texts_in (text_of all))))) }
        ensures marks { OnOk result
            (keeping.new.marks.items ≡ keeping.old.marks.items ++ mark_at unit.now) }
        ensures keeping { IfOk result (λ r.
            IsKeeping known.entry.declarations.now.lists keeping.new r.0) }
        ensures known { IfOk result (λ r.
            r.1.declarations.now ≡ known.entry.declarations.now) }
        ensures rest { WalksOnly keeping.old keeping.new }
    {
        match unit {
            Unit::Spelled(text, sites) => {
                let (declaration, behind) = known.split_first().ok_or(AllocError)?;
                let verdict = kept_verdict(declaration);
                self.add_verdict(env.get().alloc(), Spelled { text, sites }, verdict)?;
                keeping.pass_known(known, env.get(), declaration)?;
                let env = env.into_env().add(verdict.writes.get())?;
                Ok((PlainEnv::of(env), behind))
            }
            Unit::Entered(_file, inside) => {
                let env = beyond(keeping, env, Mark::Entered(*inside))?;
                Ok((env, known))
            }
            Unit::Left(_file, inside) => {
                let env = beyond(keeping, env, Mark::Left(*inside))?;
                Ok((env, known))
            }
            Unit::End => Ok((env, known)),
        }
    }
}

// Where all is no more than memory holds behind what the units of a block added where that was kept, a block that is alike stands
// here and comes to the same. It does nothing: it carries the law.
fn repeated()
    ensures { (facts there : List UnitFacts) (text : List BlockPart) (inside : Pieces)
        → let behind = with_entering facts
        ++ added_by (marks_in text) (unit_results there inside) in
        IsOfBlock text → IsPlaced there inside
        → block_result (text, answers facts) ≡ block_result (block_place there inside)
        → AreTold facts → turns_for behind ≤ most_turns
        → count_in (answers behind Nameless) < 2 ^ 64
        → IsSameBlock facts text there inside }
{
    taking();
    resulting();
    standing();
}

// Pieces of a root's units that are passed, and more of them behind these. It does nothing: it carries the laws.
fn joining()
    ensures none { (facts : List UnitFacts) (kept : Texts) (keeping : SeenKeeping)
        → IsKeeping kept.declarations.lists keeping facts
        → ArePassed facts Nothing kept keeping kept keeping }
    ensures front { (facts : List UnitFacts) (parts : List BlockPart) (pieces : Pieces)
        (kept between new : Texts) (keeping at behind : SeenKeeping) → HasDrafts kept
        → ArePassed facts (in_front parts Nothing) kept keeping between at
        → ArePassed (facts_over facts parts) pieces between at new behind
        → ArePassed facts (in_front parts pieces) kept keeping new behind }
    ensures block { (facts : List UnitFacts) (inside pieces : Pieces)
        (kept between new : Texts) (keeping at behind : SeenKeeping) → HasDrafts kept
        → ArePassed facts (Block inside Nothing) kept keeping between at
        → ArePassed (facts_behind facts inside) pieces between at new behind
        → ArePassed facts (Block inside pieces) kept keeping new behind }
    ensures compares_front { (facts : List UnitFacts) (parts : List BlockPart) (pieces : Pieces)
        (kept between : Texts) (old at new : Meter) → HasDrafts kept
        → between ≡ with_kept kept facts (in_front parts Nothing)
        → Compares facts (in_front parts Nothing) kept old at
        → Compares (facts_over facts parts) pieces between at new
        → Compares facts (in_front parts pieces) kept old new }
    ensures compares_block { (facts : List UnitFacts) (inside pieces : Pieces)
        (kept between : Texts) (old at new : Meter) → HasDrafts kept
        → between ≡ with_kept kept facts (Block inside Nothing)
        → Compares facts (Block inside Nothing) kept old at
        → Compares (facts_behind facts inside) pieces between at new
        → Compares facts (Block inside pieces) kept old new }
{
    passing::<Env, DeclarationTask>();
    enough();
    walked();
    more_turns();
}

/// The law that all is no more than memory holds. It does nothing.
pub fn bound(env: &Env)
    ensures turns { turns_for env.now ≤ most_turns }
    ensures count { count_in (answers env.now Nameless) < 2 ^ 64 }
{
    env.bounds_turns();
    // No scope without a name is counted but by facts.
    let _count = env.len();
}

// The facts behind a file boundary, beside what was kept.
fn beyond(keeping: &mut Keeping<'_>, env: PlainEnv, mark: Mark) -> Result<PlainEnv, AllocError>
    requires { IsBoundary mark }
    ensures env { IfOk result (λ behind. behind ≡ env ++ added_by (mark ∷ []) []) }
    ensures keeping { IfOk result (λ behind. (lists : List (List DeclarationResult))
        → IsKeeping lists keeping.old env
        → IsKeeping lists keeping.new behind) }
    ensures marks { OnOk result
        (keeping.new.marks.items ≡ keeping.old.marks.items ++ mark ∷ []) }
    ensures rest { WalksOnly keeping.old keeping.new }
{
    let added = crossed(keeping, env.get(), mark)?;
    behind_added(keeping, env, added)
}

// The facts behind what a unit adds.
fn behind_added(
    keeping: &mut Keeping<'_>,
    env: PlainEnv,
    added: Added,
) -> Result<PlainEnv, AllocError>
    ensures env { IfOk result (λ behind. behind ≡ env ++ told_by added) }
    ensures keeping { keeping.new ≡ record keeping.old { scratch = keeping.new.scratch } }
{
    let env = added.behind(env.into_env(), &mut keeping.scratch.room)?;
    Ok(PlainEnv::of(env))
}
