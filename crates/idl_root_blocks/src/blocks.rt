//! The laws of blocks where they stand.

ghost use Rattle.std.specs.Prelude.{◌≡◌, ◌↔◌, ◌≤◌, ◌<◌, ◌^◌, ◌∷◌, [], List, map, true};
ghost use Rattle.std.specs.Option.{option_eq};
ghost use Rattle.idl_block.specs.Questions.{outer_asked};
ghost use Rattle.idl_root_blocks.specs.verdicts.Standing.{AreStanding, IsBlockFront, block_end};
ghost use Rattle.idl_check_laws.specs.Closing.{AreTold};
ghost use Rattle.idl_env.specs.Facts.{UnitFacts, answers, boundary, count_in};
ghost use Rattle.idl_env.specs.SameAnswer.{answer_eq};
ghost use Rattle.idl_env.specs.Turns.{most_turns, turns_for};
ghost use Rattle.idl_env.specs.declared.additions.addition.Step.TheVariants.{Enters as EntersFile};
ghost use Rattle.idl_env.specs.declared.keys.key.Key.TheVariants.{Nameless};
ghost use Rattle.idl_env.specs.keys.Key.{key_eq};
ghost use Rattle.idl_memo.specs.Fresh.{is_alike, log_at};
ghost use Rattle.idl_memo.specs.Query.{Agree};
ghost use Rattle.idl_root_blocks.specs.Blocks.{AreCut, IsOfBlock, Pieces, parts_of, text_in};
ghost use Rattle.idl_root_blocks.specs.Met.{IsLike, block_text_eq};
ghost use Rattle.idl_root_blocks.specs.Places.{AreStandingOver, BlockPlace, ComesTo, Stands, block_asks, block_at, block_query, block_result, blocks_over, declaration_result, declarations_over, facts_over, unit_ways, with_entering};
ghost use Rattle.idl_root_blocks.specs.declared.text.BlockPart.{BlockPart as Part};

use crate::equality::exact;
use crate::text::BlockPart;
use crate::verdicts::{Verdicts, alike, enough, nested, walked};
use idl_base::Seq;
use idl_block::facts::knowing;
use idl_check_laws::more_turns;
use idl_env::Answer;

/// What the units of a block come to where it stands is what it comes to as a task of its own; so where two places agree on the
/// keys that it asks outside, its units come to the same at both; and so they do where a block is alike.
pub fn taking()
    ensures parts { (text : List Part) → IsOfBlock text → IsBlockFront (parts_of text) }
    ensures here { (before : List UnitFacts) (text : List Part)
        → let end = block_end (answers before) (parts_of text) in
        IsOfBlock text → AreStanding before end.1 → ComesTo before text end }
    ensures agreed { (before other : List UnitFacts) (text : List Part)
        → let end = block_end (answers before) (parts_of text) in
        let entered = boundary EntersFile ∷ [] in
        let outer = outer_asked unit_ways (parts_of text) entered (answers before) in
        IsOfBlock text → AreStanding before end.1 → AreStanding other end.1
        → Agree outer (answers before) (answers other)
        → ComesTo before text end × ComesTo other text end }
    ensures alike { (before other : List UnitFacts) (text there : List Part)
        → let end = block_end (answers before) (parts_of text) in
        IsOfBlock text → AreStanding before end.1 → AreStanding other end.1
        → is_alike block_text_eq (option_eq answer_eq) block_query
        (there, answers other) (text, answers before) ≡ true
        → ComesTo before text end × ComesTo other there end }
    // What is kept of a block has what it asks alone, and tells as much.
    ensures asks { (here task : BlockPlace)
        → (is_alike block_text_eq (option_eq answer_eq) block_asks here task
        ≡ is_alike block_text_eq (option_eq answer_eq) block_query here task)
        × ((block_result here).log ≡ log_at key_eq block_query here) }
    // And that is alike at a place just where the block is.
    ensures kept { (here task : BlockPlace)
        → IsLike here (block_result task)
        ↔ (is_alike block_text_eq (option_eq answer_eq) block_query here task ≡ true) }
{
    alike();
    exact::<Seq<BlockPart>>();
    exact::<Option<Answer>>();
}

/// What a block adds stands behind facts that are told, where all is no more than memory holds. So does each block among pieces where
/// that holds of all of them.
pub fn standing()
    ensures here { (before : List UnitFacts) (text : List Part)
        → let facts = facts_over (with_entering before) text in
        IsBlockFront (parts_of text) → AreTold before
        → turns_for facts ≤ most_turns → count_in (answers facts Nameless) < 2 ^ 64
        → Stands before text }
    ensures pieces { (facts : List UnitFacts) (pieces : Pieces)
        → let behind = facts_over facts (text_in pieces) in
        AreCut pieces → AreTold facts
        → turns_for behind ≤ most_turns → count_in (answers behind Nameless) < 2 ^ 64
        → AreStandingOver facts pieces }
{
    walked();
    more_turns();
}

/// Where a block is alike, what is kept of each of its units is the same at both places: the text, what it asked with the answers,
/// and its verdict. Where units are around the same boundaries, each block inside is alike, too, and the same is kept of it.
pub fn resulting()
    ensures units { (before other : List UnitFacts) (text there : List Part)
        → let end = block_end (answers before) (parts_of text) in
        IsOfBlock text → AreStanding before end.1 → AreStanding other end.1
        → is_alike block_text_eq (option_eq answer_eq) block_query
        (there, answers other) (text, answers before) ≡ true
        → map declaration_result (declarations_over (with_entering other) there)
        ≡ map declaration_result (declarations_over (with_entering before) text) }
    ensures blocks { (before other : List UnitFacts) (inside : Pieces)
        → let end = block_end (answers before) (parts_of (text_in inside)) in
        IsOfBlock (text_in inside) → AreCut inside
        → AreStanding before end.1 → AreStanding other end.1
        → is_alike block_text_eq (option_eq answer_eq) block_query
        (block_at other inside) (block_at before inside) ≡ true
        → map block_result (blocks_over (with_entering other) inside)
        ≡ map block_result (blocks_over (with_entering before) inside) }
{
    enough();
    walked();
    nested();
    more_turns();
    knowing::<Verdicts>();
    exact::<Seq<BlockPart>>();
    exact::<Option<Answer>>();
}
