//! The laws of what blocks ask.

ghost use Rattle.std.specs.Prelude.{◌≡◌, ◌↔◌, ◌≤◌, ◌<◌, ◌^◌, List, true, if◌then◌else◌, length};
ghost use Rattle.std.specs.Option.{option_eq};
ghost use Rattle.idl_asked.specs.Blocks.{AreBlocksOf, IsBlockOf, IsLevel, behind, block_log};
ghost use Rattle.idl_check_laws.specs.Closing.{AreTold};
ghost use Rattle.idl_env.specs.Facts.{UnitFacts, answers, count_in};
ghost use Rattle.idl_env.specs.SameAnswer.{answer_eq};
ghost use Rattle.idl_env.specs.Turns.{most_turns, turns_for};
ghost use Rattle.idl_env.specs.declared.keys.key.Key.TheVariants.{Nameless};
ghost use Rattle.idl_env.specs.keys.Key.{key_eq};
ghost use Rattle.idl_memo.specs.Fresh.{shared_at};
ghost use Rattle.idl_memo.specs.Query.{HoldsIn};
ghost use Rattle.idl_root_blocks.specs.Blocks.{AreCut, IsOfBlock, Pieces, plain_text, text_in};
ghost use Rattle.idl_root_blocks.specs.Met.{MetBlock, MetUnit, alike_block, block_keys, is_known, shared_by, unit_text_eq};
ghost use Rattle.idl_root_blocks.specs.Places.{BlockPlace, DeclarationPlace, block_result, facts_over};
ghost use Rattle.idl_root_blocks.specs.declared.text.BlockPart.{BlockPart};
ghost use Rattle.idl_root_blocks.specs.verdicts.Standing.{unit_asks};

use idl_block::facts::knowing;
use idl_root_blocks::verdicts::{Verdicts, enough};
use idl_root_blocks::{logging, standing, taking};

/// The log of a block that stands in a root has the keys of the table: those that its units ask and at which it has not written
/// before. It is alike at a place of its text where that log holds.
pub fn blocks()
    ensures texts { (text : List BlockPart) → IsOfBlock text ↔ IsLevel 0 0 text }
    ensures facts { (facts : List UnitFacts) (text : List BlockPart)
        → facts_over facts text ≡ behind facts text }
    ensures kept { (before : List UnitFacts) (text : List BlockPart) → IsBlockOf before text
        → block_result (text, answers before)
        ≡ record { text = text; log = block_log before text; out = tt } }
    ensures alike { (before : List UnitFacts) (text : List BlockPart) (here : BlockPlace)
        → IsBlockOf before text
        → (alike_block here (text, answers before) ≡ true)
        ↔ ((plain_text text ≡ plain_text here.0) × HoldsIn here.1 (block_log before text)) }
    ensures shared { (known : List BlockPlace) (before : List UnitFacts) (text : List BlockPart)
        → IsBlockOf before text
        → shared_by (MetBlock known (text, answers before))
        ≡ (if is_known known (text, answers before) then length (block_log before text) else 0) }
    ensures keys { (before : List UnitFacts) (text : List BlockPart) → IsBlockOf before text
        → block_keys (text, answers before) ≡ length (block_log before text) }
    ensures units { (known : List DeclarationPlace) (here : DeclarationPlace)
        → shared_by (MetUnit known here)
        ≡ shared_at unit_text_eq (option_eq answer_eq) unit_asks key_eq known here }
{
    enough();
    knowing::<Verdicts>();
    logging();
    standing();
    taking();
}

/// Each block of a root is so, where 64 bits count what the root adds.
pub fn blocks_of_roots()
    ensures { (facts : List UnitFacts) (pieces : Pieces)
        → let end = facts_over facts (text_in pieces) in
        AreCut pieces → AreTold facts
        → turns_for end ≤ most_turns → count_in (answers end Nameless) < 2 ^ 64
        → AreBlocksOf facts pieces }
{
    standing();
    taking();
}
