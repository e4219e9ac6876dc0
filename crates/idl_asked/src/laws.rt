//! The laws of what is asked.
//!
//! Each function does nothing: it carries its laws as clauses. `names` and `units` hold of any facts, where a look-up may take as many
//! turns as these need.

ghost use Rattle.std.specs.Prelude.{◌≡◌, ◌↔◌, ◌≤◌, ℕ, Bool, List, Option, Contains, true};
ghost use Rattle.idl_asked.specs.Entries.{AsksEntry};
ghost use Rattle.idl_asked.specs.Ids.{AsksId};
ghost use Rattle.idl_asked.specs.Names.{AsksIn, AsksName, AsksThrough};
ghost use Rattle.idl_asked.specs.Units.{AsksUnit};
ghost use Rattle.idl_check_laws.specs.idl_check.walk.Verdict.{verdict};
ghost use Rattle.idl_entity.specs.declared.kind.Kind.{Kind};
ghost use Rattle.idl_entity.specs.idl_tree.declared.name.ScopedName.{ScopedName};
ghost use Rattle.idl_env.specs.Facts.{UnitFacts, answers};
ghost use Rattle.idl_env.specs.Turns.{HasTurnsFor, turns_for};
ghost use Rattle.idl_env.specs.declared.additions.addition.Addition.{Addition};
ghost use Rattle.idl_env.specs.declared.answering.answer.Answer.{Answer};
ghost use Rattle.idl_env.specs.declared.answering.answer.Scope.{Scope};
ghost use Rattle.idl_env.specs.declared.keys.key.Key.{Key};
ghost use Rattle.idl_memo.specs.Fresh.{Place, is_alike};
ghost use Rattle.idl_memo.specs.Query.{asked, outcome};
ghost use Rattle.idl_repo.specs.Entry.{entry};
ghost use Rattle.idl_scope.specs.Known.{known};
ghost use Rattle.idl_scope.specs.Lookup.{denoted, has, reached};
ghost use Rattle.idl_scope.specs.Meaning.{bases_at, seen};
ghost use Rattle.idl_unit.specs.declared.unit.UnitText.{UnitText};

/// Through bases, in one scope, and for a whole name exactly those keys are asked that the table tells.
pub fn names()
    ensures through { (facts : List UnitFacts) (own : List Addition) (turns : ℕ)
        → HasTurnsFor facts own turns
        → (path : List (List ℕ)) (n : List ℕ) (k : Key)
        → let bases = bases_at (seen own facts) path in
        Contains (asked (reached turns n bases) (seen own facts)) k
        ↔ AsksThrough (seen own facts) n bases k }
    ensures scope { (facts : List UnitFacts) (own : List Addition) (turns : ℕ)
        → HasTurnsFor facts own turns
        → (kind : Kind) (path : List (List ℕ)) (n : List ℕ) (k : Key)
        → Contains (asked (has turns kind path n) (seen own facts)) k
        ↔ AsksIn (seen own facts) kind path n k }
    ensures name { (facts : List UnitFacts) (own : List Addition) (turns : ℕ)
        → HasTurnsFor facts own turns
        → (cursor : List Scope) (name : ScopedName) (k : Key)
        → Contains (asked (denoted turns cursor name) (seen own facts)) k
        ↔ ((part : ℕ) × AsksName (seen own facts) cursor name part k) }
{}

/// For an id exactly those keys are asked that the table tells, over any answers.
pub fn ids()
    ensures { (path : List (List ℕ)) (answers : Key → Option Answer) (k : Key)
        → Contains (asked (known path) answers) k ↔ AsksId answers path k }
{}

/// An entry asks exactly the keys that the table tells, over any answers.
pub fn entries()
    ensures { (path : List (List ℕ)) (answers : Key → Option Answer) (k : Key)
        → Contains (asked (entry path) answers) k ↔ AsksEntry answers path k }
{}

/// A unit asks exactly the keys that the table tells: those of its sites that count at tokens not behind its fault's.
pub fn units()
    ensures { (facts : List UnitFacts) (turns : ℕ) (text : UnitText) (k : Key)
        → turns_for facts ≤ turns
        → Contains (asked (verdict turns text) (answers facts)) k
        ↔ AsksUnit turns facts text (outcome (verdict turns text) (answers facts)) k }
{}

/// A known task of a unit, and one of an entry, is alike at a place that has its text, by any test of texts and answers, and where each
/// key of the table is answered as it was.
pub fn alike()
    ensures units { (facts : List UnitFacts) (turns : ℕ) (text : UnitText)
        (here : Place Key (Option Answer) UnitText) (text_eq : UnitText → UnitText → Bool)
        (answer_eq : Option Answer → Option Answer → Bool)
        → turns_for facts ≤ turns
        → (is_alike text_eq answer_eq (verdict turns) here (text, answers facts) ≡ true)
        ↔ ((text_eq here.0 text ≡ true)
        × ((k : Key)
        → AsksUnit turns facts text (outcome (verdict turns text) (answers facts)) k
        → answer_eq (here.1 k) (answers facts k) ≡ true)) }
    ensures entries { (path : List (List ℕ)) (bank : Key → Option Answer)
        (here : Place Key (Option Answer) (List (List ℕ)))
        (text_eq : List (List ℕ) → List (List ℕ) → Bool)
        (answer_eq : Option Answer → Option Answer → Bool)
        → (is_alike text_eq answer_eq entry here (path, bank) ≡ true)
        ↔ ((text_eq here.0 path ≡ true)
        × ((k : Key) → AsksEntry bank path k → answer_eq (here.1 k) (bank k) ≡ true)) }
{}
