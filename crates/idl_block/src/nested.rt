//! The laws of a block in a block.

ghost use Rattle.std.specs.Prelude.{◌≡◌, ◌++◌, [], List, map};
ghost use Rattle.idl_memo.specs.Query.{Agree, asked, noted_all, outcome, run};
ghost use Rattle.idl_block.specs.Behind.{laid};
ghost use Rattle.idl_block.specs.Blocks.{Part, block};
ghost use Rattle.idl_block.specs.Questions.{AreKnown, AreNested, outer_asked, unwritten};

use crate::block::BlockWays;

/// What a block is to the one around it: its units come to the same, and of its outer keys those are asked that the one around
/// it has not written.
pub fn nesting<B: BlockWays>()
    ensures outcome { (outer : List B.Write) (bank : B.Key → B.Answer)
        (parts : List (Part B.Text B.Boundary)) (written : List B.Write)
        → AreNested B.ways outer bank parts written
        → let end = outcome (block B.ways parts written) (laid B.ways.answered outer bank) in
        outcome (block B.ways parts (outer ++ written)) bank ≡ (end.0, outer ++ end.1) }
    ensures outer { (outer : List B.Write) (bank : B.Key → B.Answer)
        (parts : List (Part B.Text B.Boundary)) (written : List B.Write)
        → AreNested B.ways outer bank parts written
        → outer_asked B.ways parts (outer ++ written) bank
        ≡ unwritten B.ways outer bank
        (outer_asked B.ways parts written (laid B.ways.answered outer bank)) }
    // So the log of the one around it goes on with the keys of the log of the block.
    ensures log { (outer : List B.Write) (bank : B.Key → B.Answer)
        (parts : List (Part B.Text B.Boundary)) (written : List B.Write)
        (log : List (B.Key × B.Answer))
        → AreNested B.ways outer bank parts written
        → AreKnown B.ways parts written (laid B.ways.answered outer bank)
        → let own =
        (run B.Key.eq (block B.ways parts written) (laid B.ways.answered outer bank) []).1 in
        noted_all B.Key.eq bank log (outer_asked B.ways parts (outer ++ written) bank)
        ≡ noted_all B.Key.eq bank log (unwritten B.ways outer bank (map (λ e. e.0) own)) }
    // Over two banks that answer the one around it alike it is answered alike.
    ensures agreed { (outer : List B.Write) (bank other : B.Key → B.Answer)
        (parts : List (Part B.Text B.Boundary)) (written : List B.Write)
        → AreNested B.ways outer bank parts written → AreNested B.ways outer other parts written
        → let here = laid B.ways.answered outer bank in
        let there = laid B.ways.answered outer other in
        AreKnown B.ways parts written here → AreKnown B.ways parts written there
        → Agree (asked (block B.ways parts (outer ++ written)) bank) bank other
        → Agree (asked (block B.ways parts written) here) here there }
{}
