//! The law of what a verdict asks.

ghost use Rattle.std.specs.Prelude.{◌≢◌, ◌<◌, ◌^◌, [], ℕ, List, Option};
ghost use Rattle.idl_check_laws.specs.idl_check.walk.Verdict.{verdict};
ghost use Rattle.idl_root_blocks.specs.verdicts.Owned.{AreOwned};
ghost use Rattle.idl_check_laws.specs.Closing.{AreTold};
ghost use Rattle.idl_env.specs.Facts.{UnitFacts, answers, count_in, path_around, scopes_in, with_additions, world};
ghost use Rattle.idl_env.specs.declared.answering.answer.Answer.{Answer};
ghost use Rattle.idl_env.specs.declared.keys.key.Key.{Key};
ghost use Rattle.idl_env.specs.declared.keys.key.Key.TheVariants.{Cursor, Nameless};
ghost use Rattle.idl_block.specs.facts.Answered.{AreNamedAt};
ghost use Rattle.idl_block.specs.facts.Known.{HasAsked, NoneInside};
ghost use Rattle.idl_memo.specs.Query.{asked, outcome};
ghost use Rattle.idl_unit.specs.declared.unit.UnitText.{UnitText};

use idl_check_laws::naming;

/// A unit asks what is looked at behind the facts that its verdict adds, where a scope is open, and none is deeper than the innermost.
pub fn asking()
    ensures { (turns : ℕ) (text : UnitText) (answers : Key → Option Answer)
        → let scopes = scopes_in (answers Cursor) in
        AreOwned answers → scopes ≢ [] → NoneInside scopes (path_around scopes)
        → HasAsked scopes (asked (verdict turns text) answers)
        (outcome (verdict turns text) answers).writes }
{}

/// Over facts that are told, names are as they have to be where a unit closes a scope or opens one: where it closes one, or opens a
/// nameless one, it adds nothing.
pub fn telling()
    ensures { (facts : List UnitFacts) (turns : ℕ) (text : UnitText)
        → AreTold facts → count_in (answers facts Nameless) < 2 ^ 64
        → let f = (outcome (verdict turns text) (answers facts)).writes in
        AreNamedAt (with_additions f.additions (world facts)).answers f.step }
{
    naming();
}
