//! The laws of facts with others beneath.

ghost use Rattle.std.specs.Prelude.{◌≡◌, ◌≢◌, ◌++◌, [], List, Option};
ghost use Rattle.idl_env.specs.Facts.{UnitFacts, World, after, after_all, answers, scopes_in, world};
ghost use Rattle.idl_env.specs.declared.answering.answer.Answer.{Answer};
ghost use Rattle.idl_env.specs.declared.keys.key.Key.{Key};
ghost use Rattle.idl_env.specs.declared.keys.key.Key.TheVariants.{Cursor};
ghost use Rattle.idl_block.specs.facts.Beneath.{AreBalanced, Depth, IsThere, StayWithin, StaysWithin, answers_over, onto, start};

/// Facts that close and leave nothing that was there before them do on a world what they do over its answers alone: what lies
/// beneath stays as it is.
pub fn lying()
    ensures one { (w beneath : World) (f : UnitFacts)
        → IsThere w.inside → StaysWithin w f.step
        → after (onto w beneath) f ≡ onto (after w f) beneath }
    ensures all { (w beneath : World) (facts : List UnitFacts)
        → IsThere w.inside → StayWithin w facts
        → after_all (onto w beneath) facts ≡ onto (after_all w facts) beneath }
    ensures answers { (before facts : List UnitFacts)
        → StayWithin (start (answers before)) facts
        → answers (before ++ facts) ≡ answers_over facts (answers before) }
{}

/// That they close and leave nothing else is told by their steps alone, where a scope is open at the start.
pub fn within()
    ensures { (bank : Key → Option Answer) (facts : List UnitFacts)
        → scopes_in (bank Cursor) ≢ []
        → AreBalanced (record { scopes = 0; files = 0 }) facts
        → StayWithin (start bank) facts }
{}
