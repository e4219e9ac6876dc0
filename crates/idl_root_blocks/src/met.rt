//! The laws of what is compared at an edit.

ghost use Rattle.std.specs.Prelude.{◌≡◌, ◌≤◌, ◌<◌, ◌^◌, ◌∷◌, [], All, IsTrue, List, true};
ghost use Rattle.std.specs.List.{list_any};
ghost use Rattle.idl_check_laws.specs.Closing.{AreTold};
ghost use Rattle.idl_env.specs.Facts.{UnitFacts, answers, count_in};
ghost use Rattle.idl_env.specs.Turns.{most_turns, turns_for};
ghost use Rattle.idl_env.specs.declared.keys.key.Key.TheVariants.{Nameless};
ghost use Rattle.idl_root_blocks.specs.Blocks.{AreCut, Block, IsOfBlock, Loose, Nothing, Pieces, text_in};
ghost use Rattle.idl_root_blocks.specs.Met.{AreKnownAt, AreKnownWhole, AreSame, Known, Met, alike_unit, compared, is_known, met_over, most_compared, outermost_keys, with_block, with_part, with_pieces};
ghost use Rattle.idl_root_blocks.specs.declared.text.BlockPart.{BlockPart as Part};
ghost use Rattle.idl_root_blocks.specs.Places.{Stands, block_at, declarations_over, facts_behind, facts_over, with_entering};

use crate::blocks::resulting;
use crate::equality::exact;
use crate::text::BlockPart;
use crate::verdicts::walked;
use idl_base::Seq;
use idl_check_laws::more_turns;
use idl_env::{Answer, DigestedKey};
use idl_unit::UnitText;

/// What is compared hangs on which tasks are known, and not on their order; and it is no more than the known tasks asked that have
/// the texts of those that are met.
pub fn meeting()
    ensures known { (known other : Known) (facts : List UnitFacts) (pieces : Pieces)
        → AreSame known other
        → compared (met_over known facts pieces) ≡ compared (met_over other facts pieces) }
    ensures most { (met : List Met) → compared met ≤ most_compared met }
{
    exact::<UnitText>();
    exact::<Seq<BlockPart>>();
    exact::<Option<Answer>>();
    exact::<DigestedKey>();
}

/// Of a known block that stands its units are known, where it is so with each known block where it stood; and so it is when all of a
/// root, or of pieces of one, becomes known.
pub fn containing()
    ensures known { (known : Known) (facts : List UnitFacts) (inside : Pieces)
        → let text = text_in inside in
        AreKnownWhole known → IsOfBlock text → Stands facts text
        → is_known known.blocks (block_at facts inside) ≡ true
        → All (λ here. IsTrue (list_any (alike_unit here) known.declarations))
        (declarations_over (with_entering facts) text) }
    ensures pieces { (known : Known) (facts : List UnitFacts) (pieces : Pieces)
        → let behind = facts_over facts (text_in pieces) in
        AreKnownWhole known → AreCut pieces → AreTold facts
        → turns_for behind ≤ most_turns → count_in (answers behind Nameless) < 2 ^ 64
        → AreKnownWhole (with_pieces known facts pieces) }
    ensures none { (known : Known) (facts : List UnitFacts)
        → with_pieces known facts Nothing ≡ known }
    ensures loose { (known : Known) (facts : List UnitFacts) (part : Part) (pieces : Pieces)
        → with_pieces known facts (Loose part pieces)
        ≡ with_pieces (with_part known facts part) (facts_over facts (part ∷ [])) pieces }
    ensures block { (known : Known) (facts : List UnitFacts) (inside pieces : Pieces)
        → with_pieces known facts (Block inside pieces)
        ≡ with_pieces (with_block known facts inside) (facts_behind facts inside) pieces }
{
    resulting();
    walked();
    more_turns();
    exact::<UnitText>();
    exact::<Seq<BlockPart>>();
    exact::<Option<Answer>>();
    exact::<DigestedKey>();
}

/// Where all tasks of pieces are known, at so many keys are known ones compared as loose units and outermost blocks ask. What is known
/// of pieces is alike where they stand.
pub fn repeating()
    ensures all { (known : Known) (facts : List UnitFacts) (pieces : Pieces)
        → AreKnownAt known facts pieces
        → compared (met_over known facts pieces) ≡ outermost_keys facts pieces }
    ensures itself { (known : Known) (facts : List UnitFacts) (pieces : Pieces)
        → AreKnownAt (with_pieces known facts pieces) facts pieces }
{
    exact::<UnitText>();
    exact::<Seq<BlockPart>>();
    exact::<Option<Answer>>();
    exact::<DigestedKey>();
}
