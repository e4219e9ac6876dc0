//! The laws that what is told in fewer words is the same.
//!
//! Each function does nothing: it carries its laws as clauses, which hold of any values.

ghost use Rattle.std.specs.Prelude.{◌≡◌, ◌↔◌, ℕ, ℤ, List, Option, None, Some, filter, flat_map, fold, is_some, length, map, not, true, if◌then◌else◌};
ghost use Rattle.std.specs.Map.{lookup};
ghost use Rattle.std.specs.List.{list_any};
ghost use Rattle.std.specs.Option.{option_or};
ghost use Rattle.idl_check.specs.walk.Placing.{faulty_step, opened_kind};
ghost use Rattle.idl_entity.specs.Kind.{kind_eq, stage_eq};
ghost use Rattle.idl_entity.specs.declared.kind.Kind.{Kind};
ghost use Rattle.idl_entity.specs.declared.kind.Stage.{Stage};
ghost use Rattle.idl_env.specs.Facts.{UnitFacts, World, entity_in, entity_key, gathered, joined, key_of, more_inside, operations_among, operations_of, over, stops_of, with_additions};
ghost use Rattle.idl_env.specs.Turns.{turns_among, turns_for};
ghost use Rattle.idl_env.specs.declared.additions.addition.Addition.{Addition};
ghost use Rattle.idl_env.specs.declared.additions.addition.Step.TheVariants.{Closes, OpensNameless, Stays};
ghost use Rattle.idl_env.specs.declared.answering.answer.Answer.{Answer};
ghost use Rattle.idl_env.specs.declared.keys.key.Key.{Key};
ghost use Rattle.idl_env.specs.keys.Key.{key_eq};
ghost use Rattle.idl_event.specs.Items.{event_of};
ghost use Rattle.idl_event.specs.Key.{key_eq as root_key_eq};
ghost use Rattle.idl_event.specs.declared.asked.key.RootKey.{RootKey};
ghost use Rattle.idl_event.specs.declared.asked.key.RootAnswer.{RootAnswer};
ghost use Rattle.idl_event.specs.declared.asked.key.RootAnswer.TheVariants.{File, Macro};
ghost use Rattle.idl_event.specs.declared.told.event.Event.{Event};
ghost use Rattle.idl_event.specs.declared.told.event.Item.{Item};
ghost use Rattle.idl_event.specs.declared.told.event.Item.TheVariants.{Kept};
ghost use Rattle.idl_lex.specs.tokens.Tokens.{Token, tokens_in, tokens_of};
ghost use Rattle.idl_macro.specs.Condition.{value};
ghost use Rattle.idl_macro.specs.Macros.{body_in};
ghost use Rattle.idl_plain.specs.Additions.{left_by, named_by, operation_by};
ghost use Rattle.idl_plain.specs.Condition.{Means};
ghost use Rattle.idl_plain.specs.Ending.{ends_before, is_heading};
ghost use Rattle.idl_plain.specs.Pragma.{IsPragma};
ghost use Rattle.idl_prep.specs.Include.{file_in};
ghost use Rattle.idl_tree.specs.Pragma.{pragma_of};
ghost use Rattle.idl_tree.specs.declared.pragma.Pragma.{Pragma};
ghost use Rattle.idl_unit.specs.Ending.{begins, closes, ends, role};
ghost use Rattle.idl_unit.specs.Scoping.{brace_from, opening_brace};
ghost use Rattle.idl_value.specs.Equal.{path_eq};

use idl_macro::conditions::grammar;

/// A unit ends where its first tokens and its braces say, and so it opens or closes a scope.
pub fn units()
    ensures ending { (unit rest : List Token) → ends unit rest ≡ ends_before unit rest }
    ensures opening { (tokens : List Token) → opening_brace tokens
        ≡ (if is_heading (map role tokens) then brace_from 0 tokens else None) }
    ensures step { (tokens : List Token) → faulty_step tokens ≡ elim (opened_kind tokens) [
      | Some kind ↦ OpensNameless kind
      | None ↦ if begins closes tokens then Closes else Stays
    ] }
{}

/// Tokens are a pragma where they are spelled as it is, and then they are no other.
pub fn pragmas()
    ensures { (tokens : List Token) (p : Pragma) → (pragma_of tokens ≡ Some p) ↔ IsPragma tokens p }
{}

/// A condition has a value where its tokens spell an expression of C that has it; else it is faulty.
pub fn conditions()
    ensures { (tokens : List Token) (z : ℤ) → (value tokens ≡ Some z)
        ↔ Means 1 tokens (Some z) }
{
    grammar();
}

/// A test whether values are one holds of one value alone.
pub fn sameness()
    ensures kinds { (x y : Kind) → (kind_eq x y ≡ true) ↔ (x ≡ y) }
    ensures stages { (x y : Stage) → (stage_eq x y ≡ true) ↔ (x ≡ y) }
    ensures paths { (p q : List (List ℕ)) → (path_eq p q ≡ true) ↔ (p ≡ q) }
    ensures keys { (k other : Key) → (key_eq k other ≡ true) ↔ (k ≡ other) }
    ensures roots { (k other : RootKey) → (root_key_eq k other ≡ true) ↔ (k ≡ other) }
{}

/// A look-up needs as many turns as entities are declared and bases named. Of each addition one line tells the key and the answer; and
/// operations are inherited from one base after another.
pub fn additions()
    ensures turns { (additions : List Addition) → turns_among additions
        ≡ length (flat_map named_by additions) }
    ensures needed { (facts : List UnitFacts) → turns_for facts
        ≡ length (flat_map (λ f. flat_map named_by f.additions) facts) }
    ensures keys { (a : Addition) → key_of a ≡ (left_by a).0 }
    ensures answers { (additions : List Addition) (k : Key) (before : Option Answer)
        → over additions k before ≡ option_or (lookup (key_eq k) (map left_by additions)) before }
    ensures operations { (additions : List Addition) → operations_among additions
        ≡ flat_map operation_by additions }
    ensures counted { (additions : List Addition) (w : World)
        → with_additions additions w ≡ record w {
          answers = λ k. over (filter (λ a. not (list_any
              (λ k. is_some (entity_in (w.answers k))) (stops_of a))) additions) k (w.answers k);
          inside = more_inside w.inside (operations_among additions);
        } }
    ensures inherited { (answers : Key → Option Answer) (found bases : List (List (List ℕ)))
        → gathered answers found bases
        ≡ fold (λ found b. joined found (operations_of (entity_in (answers (entity_key b)))))
        found bases }
{}

/// An answer tells a file's lines, or the tokens of a macro's body, and an item an event, in one form alone.
pub fn answers()
    ensures files { (a : Option RootAnswer) (text : List (List ℕ)) → (file_in a ≡ Some text)
        ↔ (a ≡ Some (File text)) }
    ensures bodies { (a : Option RootAnswer) (tokens : List Token) → (body_in a ≡ Some tokens)
        ↔ ((t : List (List ℕ)) × (a ≡ Some (Macro t)) × (tokens ≡ tokens_in (tokens_of t))) }
    ensures events { (i : Item) (e : Event) → (event_of i ≡ Some e) ↔ (i ≡ Kept e) }
{}
