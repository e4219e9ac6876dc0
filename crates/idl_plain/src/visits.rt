//! The laws of sites: what comes of each over answers, without a question; and of what a walk is asked in fewer words.

ghost use Rattle.std.specs.Prelude.{◌≡◌, List, Option, fold, ℕ};
ghost use Rattle.idl_check.specs.walk.AllFaults.{whole_visit};
ghost use Rattle.idl_check.specs.walk.Judging.{walked};
ghost use Rattle.idl_check.specs.walk.Verdict.{verdict};
ghost use Rattle.idl_check.specs.walk.Walk.{Walk, ended_array, scope_visit, unfound_visit};
ghost use Rattle.idl_env.specs.declared.answering.answer.Answer.{Answer};
ghost use Rattle.idl_env.specs.declared.keys.key.Key.{Key};
ghost use Rattle.idl_parts.specs.Item.{Item};
ghost use Rattle.idl_parts.specs.declared.part.Use.{Use};
ghost use Rattle.idl_plain.specs.Verdict.{asked_verdict};
ghost use Rattle.idl_plain.specs.Visited.{array_left, scope_left, unfound_at, visited};
ghost use Rattle.idl_scope.specs.declared.fault.NameFault.{NameFault};
ghost use Rattle.idl_tree.specs.declared.name.ScopedName.{ScopedName};
ghost use Rattle.idl_unit.specs.declared.unit.UnitText.{UnitText};

/// What comes of a site is told by the answers there: by no question, and by no fault before it.
pub fn sites()
    ensures whole { (turns : ℕ) (answers : Key → Option Answer) (site : Item) (w : Walk)
        → whole_visit turns answers site w ≡ visited turns answers site w }
    ensures walked { (turns : ℕ) (answers : Key → Option Answer) (sites : List Item) (w : Walk)
        → walked turns answers sites w
        ≡ fold (λ w site. (visited turns answers site w).after) w sites }
{}

/// How a walk goes on behind a scope, an array, and a name that denotes nothing.
pub fn behind()
    ensures scopes { (w : Walk) → scope_visit w ≡ scope_left w }
    ensures arrays { (w : Walk) → ended_array w ≡ array_left w }
    ensures unfound { (w : Walk) (way : Use) (name : ScopedName) (fault : NameFault)
        → unfound_visit w way name fault ≡ unfound_at w way name fault }
{}

/// A unit is told, and asks, by the first of the steps in which a fault is; and else by all that its sites come to.
pub fn verdicts()
    ensures { (turns : ℕ) (text : UnitText) → verdict turns text ≡ asked_verdict turns text }
{}
