//! The law of pieces.

ghost use Rattle.std.specs.Prelude.{◌≡◌, List};
ghost use Rattle.idl_root_blocks.specs.Blocks.{AreCut, Pieces, cut, text_in};
ghost use Rattle.idl_root_blocks.specs.declared.text.BlockPart.{BlockPart as Part};

/// A text is cut into pieces in one way.
pub fn cutting()
    ensures whole { (text : List Part) → text_in (cut text) ≡ text }
    ensures blocks { (text : List Part) → AreCut (cut text) }
    ensures one { (pieces : Pieces) → AreCut pieces → cut (text_in pieces) ≡ pieces }
{}
