//! The laws of blocks.

ghost use Rattle.std.specs.Prelude.{◌≡◌, ◌↔◌, ◌++◌, [], Contains, List, map};
ghost use Rattle.idl_memo.specs.Kept.{result_over};
ghost use Rattle.idl_memo.specs.Query.{Agree, HoldsIn, asked, noted_all, outcome, run};
ghost use Rattle.idl_block.specs.Blocks.{Part, block, unit_places, walk};
ghost use Rattle.idl_block.specs.Questions.{AreKnown, AreOver, outer_asked};

use idl_base::Datum;

/// Units that stand in blocks, and boundaries between them.
pub trait BlockWays {
    ghost use Rattle.idl_block.specs.Blocks.{Ways};

    /// What is asked.
    type Key: Datum;

    /// What is answered.
    ghost Answer: { Type 0 };

    /// What a unit tells on the way.
    ghost Item: { Type 0 };

    /// The text of a unit.
    ghost Text: { Type 0 };

    /// What stands between units.
    ghost Boundary: { Type 0 };

    /// What a unit or a boundary writes.
    ghost Write: { Type 0 };

    /// What a unit comes to.
    ghost Out: { Type 0 };

    /// What units ask and write, and what is answered behind that.
    ghost ways: { Ways Self.Key Self.Answer Self.Item Self.Text Self.Boundary Self.Write Self.Out };
}

/// What a block comes to, what it asks, and where it comes to the same.
pub fn blocks<B: BlockWays>()
    // The units come to what they come to one after another, and write the same.
    ensures walk { (answers : List B.Write → B.Key → B.Answer) (before : List B.Write)
        (parts : List (Part B.Text B.Boundary)) (written : List B.Write)
        → AreOver B.ways answers before parts written
        → let end = outcome (block B.ways parts written) (answers before) in
        walk B.ways answers parts (before ++ written) ≡ (end.0, before ++ end.1) }
    // The log of a block has what its units ask and it has not written before, and nothing else.
    ensures log { (parts : List (Part B.Text B.Boundary)) (written : List B.Write)
        (bank : B.Key → B.Answer) (log : List (B.Key × B.Answer))
        → AreKnown B.ways parts written bank
        → (run B.Key.eq (block B.ways parts written) bank log).1
        ≡ noted_all B.Key.eq bank log (outer_asked B.ways parts written bank) }
    ensures outer { (parts : List (Part B.Text B.Boundary)) (written : List B.Write)
        (bank : B.Key → B.Answer)
        → AreKnown B.ways parts written bank → (k : B.Key)
        → Contains (asked (block B.ways parts written) bank) k
        ↔ Contains (outer_asked B.ways parts written bank) k }
    // Parts one after another are asked so.
    ensures joined { (front parts : List (Part B.Text B.Boundary)) (written : List B.Write)
        (bank : B.Key → B.Answer)
        → let between = (outcome (block B.ways front written) bank).1 in
        ((outcome (block B.ways (front ++ parts) written) bank).1
        ≡ (outcome (block B.ways parts between) bank).1)
        × (outer_asked B.ways (front ++ parts) written bank
        ≡ outer_asked B.ways front written bank ++ outer_asked B.ways parts between bank) }
    // Over a bank that agrees on those keys the block comes to the same.
    ensures again { (parts : List (Part B.Text B.Boundary)) (written : List B.Write)
        (bank other : B.Key → B.Answer)
        → AreKnown B.ways parts written bank
        → Agree (outer_asked B.ways parts written bank) bank other
        → outcome (block B.ways parts written) other
        ≡ outcome (block B.ways parts written) bank }
    // So behind what agrees on those keys the units come to the same, and write the same.
    ensures alike { (answers : List B.Write → B.Key → B.Answer) (before other : List B.Write)
        (parts : List (Part B.Text B.Boundary)) (written : List B.Write)
        → AreKnown B.ways parts written (answers before)
        → Agree (outer_asked B.ways parts written (answers before)) (answers before)
        (answers other)
        → AreOver B.ways answers other parts written
        → let end = outcome (block B.ways parts written) (answers before) in
        walk B.ways answers parts (other ++ written) ≡ (end.0, other ++ end.1) }
    // The same is kept of each unit then.
    ensures results { (answers : List B.Write → B.Key → B.Answer) (before other : List B.Write)
        (parts : List (Part B.Text B.Boundary)) (written : List B.Write)
        → AreKnown B.ways parts written (answers before)
        → Agree (outer_asked B.ways parts written (answers before)) (answers before)
        (answers other)
        → AreOver B.ways answers before parts written → AreOver B.ways answers other parts written
        → map (λ p. result_over B.Key.eq B.ways.unit p)
        (unit_places B.ways answers parts (other ++ written))
        ≡ map (λ p. result_over B.Key.eq B.ways.unit p)
        (unit_places B.ways answers parts (before ++ written)) }
    // And so they come to the same where the log of the block holds.
    ensures taken { (answers : List B.Write → B.Key → B.Answer) (before : List B.Write)
        (parts : List (Part B.Text B.Boundary)) (written : List B.Write)
        (bank : B.Key → B.Answer)
        → HoldsIn (answers before) (run B.Key.eq (block B.ways parts written) bank []).1
        → AreOver B.ways answers before parts written
        → let end = outcome (block B.ways parts written) bank in
        walk B.ways answers parts (before ++ written) ≡ (end.0, before ++ end.1) }
{}
