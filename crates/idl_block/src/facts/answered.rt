//! The law of what is answered behind facts.

ghost use Rattle.std.specs.Prelude.{◌≡◌, ◌++◌, List, Option};
ghost use Rattle.idl_env.specs.Facts.{UnitFacts, answers};
ghost use Rattle.idl_env.specs.declared.answering.answer.Answer.{Answer};
ghost use Rattle.idl_env.specs.declared.keys.key.Key.{Key};
ghost use Rattle.idl_block.specs.facts.Answered.{AreProper, answered};
ghost use Rattle.idl_block.specs.facts.Beneath.{StayWithin, answers_over, start};
ghost use Rattle.idl_memo.specs.Query.{outcome};

/// What is answered behind facts over a bank is what they leave there, and so what is answered where they stand behind others.
pub fn answering()
    ensures over { (facts : List UnitFacts) (bank : Key → Option Answer) (k : Key)
        → AreProper (start bank) facts
        → outcome (answered facts k) bank ≡ answers_over facts bank k }
    ensures behind { (before facts : List UnitFacts) (k : Key)
        → AreProper (start (answers before)) facts
        → StayWithin (start (answers before)) facts
        → outcome (answered facts k) (answers before) ≡ answers (before ++ facts) k }
{}
