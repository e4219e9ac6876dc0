//! The laws of the names of units.
//!
//! Each function does nothing: it carries its laws as clauses. `meaning` alone looks at the facts that a program holds.

ghost use Rattle.std.specs.Prelude.{◌≡◌, ◌<◌, ◌-◌, ◌++◌, ℕ, Bool, List, [], ◌∷◌, All, Contains, None, Ok, Option, Some, length, slice_get};
ghost use Rattle.std.specs.Option.{IsSome};
ghost use Rattle.idl_check.specs.walk.Judging.{used_names, walked};
ghost use Rattle.idl_check.specs.walk.Names.{declared_paths, unit_names, used_paths};
ghost use Rattle.idl_check.specs.walk.Verdict.{verdict};
ghost use Rattle.idl_check.specs.walk.Walk.{first_walk};
ghost use Rattle.idl_check.specs.declared.walk.names.NameRole.TheVariants.{Declared};
ghost use Rattle.idl_entity.specs.declared.entity.Entity.{Entity};
ghost use Rattle.idl_entity.specs.declared.identity.Prefix.{Prefix};
ghost use Rattle.idl_entity.specs.declared.kind.Stage.TheVariants.{Ahead};
ghost use Rattle.idl_env.specs.Facts.{answers, entity_in, entity_key, over, scopes_in};
ghost use Rattle.idl_env.specs.Turns.{most_turns};
ghost use Rattle.idl_env.specs.declared.additions.addition.Addition.TheVariants.{Appears, Declares};
ghost use Rattle.idl_env.specs.declared.answering.answer.Answer.{Answer};
ghost use Rattle.idl_env.specs.declared.keys.key.Key.{Key};
ghost use Rattle.idl_env.specs.declared.keys.key.Key.TheVariants.{Cursor};
ghost use Rattle.idl_lex.specs.tokens.Tokens.{Token};
ghost use Rattle.idl_memo.specs.Query.{outcome};
ghost use Rattle.idl_parts.specs.Item.{Item, items};
ghost use Rattle.idl_parts.specs.Part.{Part as item};
ghost use Rattle.idl_parts.specs.UnitParts.{unit_parts};
ghost use Rattle.idl_parts.specs.declared.part.Use.{Use};
ghost use Rattle.idl_scope.specs.Meaning.{Denotes, seen};
ghost use Rattle.idl_tree.specs.Lexeme.{lexemes};
ghost use Rattle.idl_tree.specs.Unit.{spell};
ghost use Rattle.idl_tree.specs.declared.name.ScopedName.{ScopedName};
ghost use Rattle.idl_tree.specs.declared.unit.Tree.{Tree};
ghost use Rattle.idl_unit.specs.declared.unit.UnitText.{UnitText};
ghost use Rattle.idl_unit.specs.declared.unit.UnitText.TheVariants as unit;

use idl_env::Env;

/// Each name of a unit stands at a token of it. Where the unit has no fault, what its used names
/// denote is what its walk finds, which is what its row shows. What appears by a unit, as a name does
/// that is declared first, one of the unit's names declares.
pub fn names()
    ensures index { (turns : ℕ) (tokens : List Token) (answers : Key → Option Answer)
        → All (λ n. n.index < length tokens)
        (unit_names turns answers (unit.Tokens tokens)) }
    ensures used { (turns : ℕ) (tokens : List Token) (answers : Key → Option Answer)
        (tree : Tree)
        → (outcome (verdict turns (unit.Tokens tokens)) answers).fault ≡ None
        → lexemes tokens ≡ spell tree
        → used_paths (unit_names turns answers (unit.Tokens tokens))
        ≡ (walked turns answers (items (unit_parts tree))
        (first_walk (scopes_in (answers Cursor)))).found }
    ensures first { (turns : ℕ) (text : UnitText) (answers : Key → Option Answer)
        (path : List (List ℕ)) (prefix : Prefix)
        → Contains (outcome (verdict turns text) answers).writes.additions (Appears path prefix)
        → Contains (declared_paths (unit_names turns answers text)) path }
{}

/// Where a unit has no fault over the facts of an environment, each name that it uses denotes what the scoping rules say, over these
/// facts and what the unit's earlier tokens add, in the scopes around the name. The unit's names tell the path of what that is, at the
/// name's place among those that the unit uses. It does nothing.
pub fn meaning(env: &Env)
    ensures { (tokens : List Token) (tree : Tree) (front : List Item) (way : Use)
        (name : ScopedName) (back : List Item)
        → (outcome (verdict most_turns (unit.Tokens tokens)) (answers env.now)).fault ≡ None
        → lexemes tokens ≡ spell tree
        → items (unit_parts tree) ≡ front ++ item.Uses way name ∷ back
        → let w = walked most_turns (answers env.now) front
        (first_walk (scopes_in (answers env.now Cursor))) in
        let names = unit_names most_turns (answers env.now) (unit.Tokens tokens) in
        (e : Entity) × Denotes (seen w.own env.now) w.cursor name (Ok e)
        × (slice_get (used_paths names) (length (used_names front)) ≡ Some e.path) }
{
    env.bounds_turns();
}

/// What a unit without fault declares is known behind it. What appears by a unit wasn't declared before it. What a unit adds that
/// is declared ahead and no further wasn't declared before either: the unit has one name, which is that, at the token before the
/// last. A pragma declares nothing.
pub fn ahead()
    ensures known { (turns : ℕ) (text : UnitText) (answers : Key → Option Answer)
        (path : List (List ℕ))
        → (outcome (verdict turns text) answers).fault ≡ None
        → Contains (declared_paths (unit_names turns answers text)) path
        → IsSome (entity_in (over (outcome (verdict turns text) answers).writes.additions
        (entity_key path) (answers (entity_key path)))) }
    ensures fresh { (turns : ℕ) (text : UnitText) (answers : Key → Option Answer)
        (path : List (List ℕ)) (prefix : Prefix)
        → Contains (outcome (verdict turns text) answers).writes.additions (Appears path prefix)
        → entity_in (answers (entity_key path)) ≡ None }
    ensures ahead { (turns : ℕ) (tokens : List Token) (answers : Key → Option Answer)
        (e : Entity)
        → Contains (outcome (verdict turns (unit.Tokens tokens)) answers).writes.additions
        (Declares e)
        → e.stage ≡ Ahead
        → (unit_names turns answers (unit.Tokens tokens)
        ≡ record { index = length tokens - 2; role = Declared; path = e.path } ∷ [])
        × (entity_in (answers (entity_key e.path)) ≡ None) }
    ensures pragma { (turns : ℕ) (tokens : List Token) (inside : Bool)
        (answers : Key → Option Answer) (e : Entity)
        → Contains (outcome (verdict turns (unit.Pragma tokens inside)) answers).writes.additions
        (Declares e)
        → ⊥ }
{}
