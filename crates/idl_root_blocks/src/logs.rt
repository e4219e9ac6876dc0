//! The laws of the log of a block.

ghost use Rattle.std.specs.Prelude.{◌≡◌, ◌++◌, ◌∷◌, [], Bool, List, false, length, suc};
ghost use Rattle.idl_root_blocks.specs.verdicts.Standing.{IsBlockFront};
ghost use Rattle.idl_env.specs.Facts.{UnitFacts, answers};
ghost use Rattle.idl_root_blocks.specs.Asking.{AreNoted, Opened};
ghost use Rattle.idl_root_blocks.specs.Blocks.{IsOfBlock, parts_of};
ghost use Rattle.idl_root_blocks.specs.Outer.{noted_over, outer_log};
ghost use Rattle.idl_root_blocks.specs.Places.{Stands, block_result, declaration_result, facts_over, with_entering};
ghost use Rattle.idl_root_blocks.specs.declared.text.BlockPart.{BlockPart as Part};
ghost use Rattle.idl_root_blocks.specs.declared.text.BlockPart.TheVariants.{Text, Enters, Leaves};
ghost use Rattle.idl_unit.specs.declared.unit.UnitText.{UnitText as Unit};

use crate::verdicts::{enough, nested};

/// The log of a block goes on with what is kept of its units, and of the blocks inside: with those keys at which nothing was
/// written since its entering. Boundaries ask nothing; and it is what is kept of the block once it is left.
pub fn logging()
    ensures unit { (before : List UnitFacts) (front : List Part) (text : Unit)
        → let over = facts_over (with_entering before) front in
        let log = outer_log before front in
        let entries = (declaration_result (text, answers over)).log in
        IsBlockFront (parts_of front) → Stands before front
        → outer_log before (front ++ Text text ∷ [])
        ≡ noted_over over (suc (length before)) log entries }
    ensures block { (before : List UnitFacts) (front inside : List Part)
        → let over = facts_over (with_entering before) front in
        let log = outer_log before front in
        let entries = (block_result (inside, answers over)).log in
        IsBlockFront (parts_of front) → Stands before front
        → IsOfBlock inside → Stands over inside
        → outer_log before (front ++ Enters false ∷ (inside ++ Leaves false ∷ []))
        ≡ noted_over over (suc (length before)) log entries }
    ensures boundaries { (before : List UnitFacts) (front : List Part) (b : Bool)
        → IsBlockFront (parts_of front) → Stands before front
        → (outer_log before (front ++ Enters b ∷ []) ≡ outer_log before front)
        × (outer_log before (front ++ Leaves b ∷ []) ≡ outer_log before front) }
    ensures left { (before : List UnitFacts) (text : List Part)
        → IsBlockFront (parts_of text) → Stands before text
        → (block_result (text, answers before)).log ≡ outer_log before text }
{
    enough();
    nested();
}

/// What open blocks have noted rightly stays so behind one more of the facts.
pub fn noting_on()
    ensures { (facts : List UnitFacts) (more : UnitFacts) (opened : Opened)
        → AreNoted facts opened → AreNoted (facts ++ more ∷ []) opened }
{}
