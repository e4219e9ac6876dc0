//! The laws of blocks of verdicts.

ghost use Rattle.std.specs.Prelude.{◌≡◌, ◌≤◌, ◌<◌, ◌^◌, ◌∷◌, ◌++◌, [], List};
ghost use Rattle.idl_block.specs.Blocks.{Part, walk};
ghost use Rattle.idl_block.specs.Behind.{laid};
ghost use Rattle.idl_block.specs.Questions.{AreNested, outer_asked};
ghost use Rattle.idl_root_blocks.specs.verdicts.Standing.{AreStanding, IsBlockFront, block_end, unit_asks, unit_writes};
ghost use Rattle.idl_check_laws.specs.Closing.{AreTold};
ghost use Rattle.idl_env.specs.Facts.{UnitFacts, answers, boundary, count_in};
ghost use Rattle.idl_env.specs.Turns.{most_turns, turns_for};
ghost use Rattle.idl_env.specs.declared.additions.addition.Step.{Step};
ghost use Rattle.idl_env.specs.declared.additions.addition.Step.TheVariants.{Enters};
ghost use Rattle.idl_env.specs.declared.keys.key.Key.TheVariants.{Nameless};
ghost use Rattle.idl_block.specs.facts.Answered.{answered};
ghost use Rattle.idl_block.specs.facts.Known.{AskEnough};
ghost use Rattle.idl_block.specs.facts.Written.{ways_of};
ghost use Rattle.idl_memo.specs.Query.{Agree};
ghost use Rattle.idl_unit.specs.declared.unit.UnitText.{UnitText};

use idl_block::facts::{FactUnits, agreeing};
use idl_check_laws::{more_turns, naming, refusal};

/// Units with their verdicts.
pub struct Verdicts;

impl FactUnits for Verdicts {
    ghost use Rattle.idl_check_laws.specs.idl_check.declared.walk.verdict.Verdict.{Verdict};
    ghost use Rattle.idl_root_blocks.specs.verdicts.Standing.{unit_asks, unit_writes};
    ghost use Rattle.idl_unit.specs.declared.unit.UnitText.{UnitText};

    ghost Text = { UnitText };

    ghost Out = { Verdict };

    ghost unit = { unit_asks };

    ghost writes = { unit_writes };
}

/// The units of a block ask enough where what it writes stands behind facts that are told.
pub fn enough()
    ensures { (before : List UnitFacts) (parts : List (Part UnitText Step))
        → IsBlockFront parts → AreStanding before (block_end (answers before) parts).1
        → AskEnough unit_asks unit_writes (answers before) parts (boundary Enters ∷ []) }
{
    naming();
    refusal();
    more_turns();
}

/// What a block writes stands behind facts that are told, where what its units add there one after another is no more than memory
/// holds.
pub fn walked()
    ensures { (before : List UnitFacts) (parts : List (Part UnitText Step))
        → let ways = ways_of unit_asks unit_writes in
        let facts = (walk ways answers parts (before ++ boundary Enters ∷ [])).1 in
        IsBlockFront parts → AreTold before
        → turns_for facts ≤ most_turns → count_in (answers facts Nameless) < 2 ^ 64
        → AreStanding before (block_end (answers before) parts).1 }
{
    naming();
    refusal();
    more_turns();
}

/// Two places that agree on the outer keys of a block give its units the same verdicts, and so the same facts: those of the one
/// place, where these stand at the other too.
pub fn alike()
    ensures { (before other : List UnitFacts) (parts : List (Part UnitText Step))
        → let ways = ways_of unit_asks unit_writes in
        let entered = boundary Enters ∷ [] in
        let end = block_end (answers before) parts in
        IsBlockFront parts → AreStanding before end.1 → AreStanding other end.1
        → Agree (outer_asked ways parts entered (answers before)) (answers before) (answers other)
        → (walk ways answers parts (before ++ entered) ≡ (end.0, before ++ end.1))
        × (walk ways answers parts (other ++ entered) ≡ (end.0, other ++ end.1)) }
{
    enough();
    agreeing::<Verdicts>();
}

/// What a block in a block writes lies over what the one around it has written by then, and that lies over what stands before it.
pub fn nested()
    ensures { (before : List UnitFacts) (front parts : List (Part UnitText Step))
        → let ways = ways_of unit_asks unit_writes in
        let entered = boundary Enters ∷ [] in
        let outer = (block_end (answers before) front).1 in
        IsBlockFront front → AreStanding before outer
        → IsBlockFront parts
        → AreStanding (before ++ outer) (block_end (answers (before ++ outer)) parts).1
        → AreNested ways outer (answers before) parts entered
        × (laid answered outer (answers before) ≡ answers (before ++ outer)) }
{
    enough();
}
