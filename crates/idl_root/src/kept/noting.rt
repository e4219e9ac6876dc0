//! The law of what open blocks note.

ghost use Rattle.std.specs.Prelude.{◌≡◌, ◌∷◌, ◌++◌, [], Bool, List, false, length, map};
ghost use Rattle.idl_root_blocks.specs.verdicts.Standing.{IsBlockFront};
ghost use Rattle.idl_env.specs.Facts.{UnitFacts, answers};
ghost use Rattle.idl_root.specs.Passed.{AllGoOn, GoesOn};
ghost use Rattle.idl_root_blocks.specs.Asking.{OpenBlock, kept_of, with_asked};
ghost use Rattle.idl_root_blocks.specs.Blocks.{IsOfBlock, parts_of};
ghost use Rattle.idl_root_blocks.specs.Places.{Stands, block_result, declaration_result, facts_over, with_entering};
ghost use Rattle.idl_root_blocks.specs.declared.text.BlockPart.{BlockPart as Part};
ghost use Rattle.idl_root_blocks.specs.declared.text.BlockPart.TheVariants.{Text, Enters, Leaves};
ghost use Rattle.idl_unit.specs.declared.unit.UnitText.{UnitText};

use idl_root_blocks::idl_check_laws::more_turns;
use idl_root_blocks::logging;
use idl_root_blocks::verdicts::{enough, walked};

/// Open blocks go on with what a unit asks, and with what a block asks that is taken whole; a file boundary asks nothing. What has
/// gone on from its entering is what is kept of it, once it is left. This does nothing: it carries the laws.
pub(crate) fn noting()
    ensures boundary { (facts : List UnitFacts) (b : Bool) (blocks : List OpenBlock)
        → AllGoOn facts (Enters b ∷ []) blocks blocks
        × AllGoOn facts (Leaves b ∷ []) blocks blocks }
    ensures unit { (facts : List UnitFacts) (text : UnitText) (blocks : List OpenBlock)
        → let entries = (declaration_result (text, answers facts)).log in
        AllGoOn facts (Text text ∷ []) blocks (map (with_asked facts entries) blocks) }
    ensures block { (facts : List UnitFacts) (text : List Part) (blocks : List OpenBlock)
        → let entries = (block_result (text, answers facts)).log in
        IsOfBlock text → Stands facts text
        → AllGoOn facts (Enters false ∷ (text ++ Leaves false ∷ [])) blocks
        (map (with_asked facts entries) blocks) }
    ensures more { (facts : List UnitFacts) (first then : List Part)
        (old between new : List OpenBlock)
        → AllGoOn facts first old between
        → AllGoOn (facts_over facts first) then between new
        → AllGoOn facts (first ++ then) old new }
    ensures left { (before : List UnitFacts) (text : List Part) (old new : OpenBlock)
        → IsBlockFront (parts_of text) → Stands before text
        → old ≡ record { text = text; start = length (with_entering before); log = [] }
        → GoesOn (with_entering before) text old new
        → kept_of new ≡ block_result (text, answers before) }
{
    enough();
    walked();
    more_turns();
    logging();
}
