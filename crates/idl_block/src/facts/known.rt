//! The law of what a block asks.

ghost use Rattle.std.specs.Prelude.{◌≡◌, ◌≢◌, ◌∷◌, ◌++◌, [], All, Contains, List, Option};
ghost use Rattle.idl_block.specs.Behind.{laid};
ghost use Rattle.idl_block.specs.Blocks.{Part, block, walk};
ghost use Rattle.idl_block.specs.Questions.{AreKnown, AreNested, AreOver, outer_asked};
ghost use Rattle.idl_env.specs.Facts.{UnitFacts, after, answers, boundary, scopes_in};
ghost use Rattle.idl_env.specs.declared.additions.addition.Step.{Step};
ghost use Rattle.idl_env.specs.declared.additions.addition.Step.TheVariants.{Enters};
ghost use Rattle.idl_env.specs.declared.answering.answer.Answer.{Answer};
ghost use Rattle.idl_env.specs.declared.keys.key.Key.{Key};
ghost use Rattle.idl_env.specs.declared.keys.key.Key.TheVariants.{Cursor};
ghost use Rattle.idl_block.specs.facts.Answered.{AreProper, answered};
ghost use Rattle.idl_block.specs.facts.Beneath.{AreBalanced, start};
ghost use Rattle.idl_block.specs.facts.Known.{AreInside, AskEnough, stops_among};
ghost use Rattle.idl_block.specs.facts.Written.{ways_of};
ghost use Rattle.idl_memo.specs.Query.{Agree, asked, outcome};

/// Units that ask an environment and add facts to it.
pub trait FactUnits {
    ghost use Rattle.idl_env.specs.Facts.{UnitFacts};
    ghost use Rattle.idl_block.specs.facts.Answered.{Asking};

    /// The text of a unit.
    ghost Text: { Type 0 };

    /// What a unit comes to.
    ghost Out: { Type 0 };

    /// What a unit asks and comes to.
    ghost unit: { Self.Text → Asking Self.Out };

    /// What it adds then.
    ghost writes: { Self.Out → UnitFacts };
}

/// Where units ask enough, what the block of an included file asks beside its outer keys was asked by then, and what it writes
/// lies over what stands before it.
pub fn knowing<U: FactUnits>()
    ensures known { (bank : Key → Option Answer) (parts : List (Part U.Text Step))
        → AskEnough U.unit U.writes bank parts (boundary Enters ∷ [])
        → AreKnown (ways_of U.unit U.writes) parts (boundary Enters ∷ []) bank }
    ensures over { (before : List UnitFacts) (parts : List (Part U.Text Step))
        → AskEnough U.unit U.writes (answers before) parts (boundary Enters ∷ [])
        → AreOver (ways_of U.unit U.writes) answers before parts (boundary Enters ∷ []) }
{}

/// Two places that agree on the outer keys of a block give its units the same outcomes, and so the same facts: those of the one
/// place, behind what stands at the other.
pub fn agreeing<U: FactUnits>()
    ensures { (before other : List UnitFacts) (parts : List (Part U.Text Step))
        → AskEnough U.unit U.writes (answers before) parts (boundary Enters ∷ [])
        → AskEnough U.unit U.writes (answers other) parts (boundary Enters ∷ [])
        → let ways = ways_of U.unit U.writes in
        let entered = boundary Enters ∷ [] in
        let end = outcome (block ways parts entered) (answers before) in
        Agree (outer_asked ways parts entered (answers before)) (answers before) (answers other)
        → (walk ways answers parts (before ++ entered) ≡ (end.0, before ++ end.1))
        × (walk ways answers parts (other ++ entered) ≡ (end.0, other ++ end.1)) }
{}

/// What a block in a block writes lies over what the one around it has written.
pub fn nested<U: FactUnits>()
    ensures { (bank : Key → Option Answer) (outer : List UnitFacts) (parts : List (Part U.Text Step))
        → let there = laid answered outer bank in
        AreProper (start bank) outer
        → AskEnough U.unit U.writes there parts (boundary Enters ∷ [])
        → AreNested (ways_of U.unit U.writes) outer bank parts (boundary Enters ∷ []) }
{}

/// What a block's facts close and leave is told by their steps alone, where a scope is open before it.
pub fn inside()
    ensures { (bank : Key → Option Answer) (facts : List UnitFacts)
        → scopes_in (bank Cursor) ≢ []
        → AreBalanced (record { scopes = 0; files = 0 }) facts
        → AreInside (after (start bank) (boundary Enters)) facts }
{}

/// At any key behind what a block wrote no more is asked than the key, the outer keys of the block, and what tells whether the uses
/// that it added are stopped.
pub fn looking<U: FactUnits>()
    ensures { (bank : Key → Option Answer) (parts : List (Part U.Text Step)) (k : Key)
        → let ways = ways_of U.unit U.writes in
        let entered = boundary Enters ∷ [] in
        let end = (outcome (block ways parts entered) bank).1 in
        AskEnough U.unit U.writes bank parts entered
        → All (Contains ((outer_asked ways parts entered bank ++ stops_among end) ++ k ∷ []))
        (asked (answered end k) bank) }
{}
