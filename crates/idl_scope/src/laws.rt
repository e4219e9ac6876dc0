//! The laws of names: that lookup comes to what the scoping rules say.
//!
//! Each function does nothing: it carries its laws as clauses. They hold of any facts, also of such as
//! no declarations add; only, a walk over bases must be allowed as many turns as these facts need.

ghost use Rattle.std.specs.Prelude.{◌≡◌, ◌≢◌, ◌↔◌, ◌∷◌, ◌++◌, ◌+◌, [], ℕ, List, Ok, Option, Result, Some, true, AllPairs, Contains, flat_map, map};
ghost use Rattle.idl_lex.specs.kinds.Keywords.{folded};
ghost use Rattle.idl_memo.specs.Query.{Agree, asked, outcome, run};
ghost use Rattle.idl_entity.specs.Identity.{no_prefix};
ghost use Rattle.idl_entity.specs.idl_tree.declared.name.ScopedName.{ScopedName};
ghost use Rattle.idl_env.specs.Turns.{HasTurnsFor};
ghost use Rattle.idl_env.specs.Differing.{differing};
ghost use Rattle.idl_env.specs.Facts.{UnitFacts, World, after, after_all, answers, entity_key, key_of, operations_among, over, path_around, prefix_in, scopes_in, stops_of, unstopped, world};
ghost use Rattle.idl_env.specs.keys.Key.{key_eq};
ghost use Rattle.idl_env.specs.declared.keys.key.Key.{Key};
ghost use Rattle.idl_env.specs.declared.keys.key.Key.TheVariants as key;
ghost use Rattle.idl_scope.specs.Known.{told_at};
ghost use Rattle.idl_scope.specs.Lookup.{Lookup, denoted, has, reached, under};
ghost use Rattle.idl_scope.specs.Meaning.{Denotes, Has, Reaches, Through, bases_at, entity_found, own_at, seen};
ghost use Rattle.idl_env.specs.Outside.{AgreeOutside, AreApart, IsInnermost, WorldsAgreeAround, WorldsAgreeOutside, looked_at_by};
ghost use Rattle.idl_entity.specs.Path.{name_of, scope_of};
ghost use Rattle.idl_env.specs.declared.additions.addition.Addition.{Addition};
ghost use Rattle.idl_scope.specs.Stretch.{IsBalanced, closes, enters, leaves, opens};
ghost use Rattle.idl_env.specs.declared.additions.addition.Step.TheVariants.{Stays, Closes, Prefixes, Enters, Leaves};
ghost use Rattle.idl_env.specs.declared.answering.answer.Answer.{Answer};
ghost use Rattle.idl_env.specs.declared.answering.answer.Scope.{Scope};
ghost use Rattle.idl_entity.specs.declared.entity.Entity.{Entity};
ghost use Rattle.idl_scope.specs.declared.fault.NameFault.{NameFault};
ghost use Rattle.idl_scope.specs.declared.found.Found.{Found};
ghost use Rattle.idl_entity.specs.declared.kind.Kind.{Kind};

/// An entity is answered at the name and in the scope that its path tells, and nowhere else.
pub fn own_path()
    ensures { (facts : List UnitFacts) (own : List Addition) (n : List ℕ) (path : List (List ℕ))
        (e : Entity)
        → own_at (seen own facts) n path ≡ Some e
        → (folded (name_of e.path) ≡ n) × (scope_of e.path ≡ path) }
{}

/// What is found under a name in a scope is what the scope declares or reaches through its bases, all
/// of it, and each entity once; and what is found in the bases of what stands at a path is what is
/// reached through these.
pub fn found_in_a_scope()
    ensures all { (facts : List UnitFacts) (own : List Addition) (turns : ℕ)
        → HasTurnsFor facts own turns
        → (kind : Kind) (path : List (List ℕ)) (n : List ℕ) (e : Entity)
        → Contains (outcome (has turns kind path n) (seen own facts)) e
        ↔ Has (seen own facts) kind path n e }
    ensures once { (facts : List UnitFacts) (own : List Addition) (turns : ℕ)
        → HasTurnsFor facts own turns
        → (kind : Kind) (path : List (List ℕ)) (n : List ℕ)
        → AllPairs (λ e f. e ≢ f) (outcome (has turns kind path n) (seen own facts)) }
    ensures through { (facts : List UnitFacts) (own : List Addition) (turns : ℕ)
        → HasTurnsFor facts own turns
        → (path : List (List ℕ)) (n : List ℕ) (e : Entity)
        → let bases = bases_at (seen own facts) path in
        Contains (outcome (reached turns n bases) (seen own facts)) e
        ↔ Through (seen own facts) n bases e }
{}

/// A scoped name denotes one thing, an entity or a fault, and lookup comes to it.
pub fn denotation()
    ensures denoted { (facts : List UnitFacts) (own : List Addition) (turns : ℕ)
        → HasTurnsFor facts own turns
        → (cursor : List Scope) (name : ScopedName)
        → Denotes (seen own facts) cursor name
        (entity_found (outcome (denoted turns cursor name) (seen own facts))) }
    ensures once { (answers : Key → Option Answer) (cursor : List Scope) (name : ScopedName)
        (r s : Result Entity NameFault)
        → Denotes answers cursor name r → Denotes answers cursor name s → r ≡ s }
{}

/// More turns than the facts need change nothing: neither what a scope has under a name, nor what a
/// name denotes, nor what is logged for it.
pub fn more_turns()
    ensures has { (facts : List UnitFacts) (own : List Addition) (turns more : ℕ)
        → HasTurnsFor facts own turns
        → (kind : Kind) (path : List (List ℕ)) (n : List ℕ) (log : List (Key × Option Answer))
        → run key_eq (under own (has (turns + more) kind path n)) (answers facts) log
        ≡ run key_eq (under own (has turns kind path n)) (answers facts) log }
    ensures denoted { (facts : List UnitFacts) (own : List Addition) (turns more : ℕ)
        → HasTurnsFor facts own turns
        → (cursor : List Scope) (name : ScopedName) (log : List (Key × Option Answer))
        → run key_eq (under own (denoted (turns + more) cursor name)) (answers facts) log
        ≡ run key_eq (under own (denoted turns cursor name)) (answers facts) log }
{}

/// The use of a name introduces its first part into the scopes that the rules tell, and into no
/// others: those to which it comes, as far as its reach says.
pub fn introduction()
    ensures { (facts : List UnitFacts) (own : List Addition) (turns : ℕ)
        → HasTurnsFor facts own turns
        → (cursor : List Scope) (name : ScopedName) (found : Found)
        → outcome (denoted turns cursor name) (seen own facts) ≡ Ok found
        → Reaches (seen own facts) cursor name found.reach }
{}

/// What a unit adds that changes no open scope is seen as what its earlier tokens add, but for uses
/// that are stopped. What is asked under additions is asked of the answers as they change them.
pub fn own_facts<A>()
    ensures seen { (facts : List UnitFacts) (own : List Addition) (key : Key)
        → answers (facts ++ record { additions = own; step = Stays } ∷ []) key
        ≡ seen (unstopped (answers facts) own) facts key }
    ensures outcome { (own : List Addition) (query : Lookup A) (bank : Key → Option Answer)
        → outcome (under own query) bank ≡ outcome query (λ key. over own key (bank key)) }
    ensures asked { (own : List Addition) (query : Lookup A) (bank : Key → Option Answer)
        → asked (under own query) bank ≡ asked query (λ key. over own key (bank key)) }
{}

/// Facts that are added one after another are added together. Answers that are the same outside some
/// keys stay so under the same additions, and under the same facts if these look at none of the keys.
pub fn adding()
    ensures together { (w : World) (facts more : List UnitFacts)
        → after_all w (facts ++ more) ≡ after_all (after_all w facts) more }
    ensures additions { (additions : List Addition) (keys : List Key)
        (bank other : Key → Option Answer)
        → AgreeOutside keys bank other
        → AgreeOutside keys (λ key. over additions key (bank key))
        (λ key. over additions key (other key)) }
    ensures facts { (keys : List Key) (w other : World) (facts : UnitFacts)
        → WorldsAgreeOutside keys w other → AreApart (looked_at_by w facts) keys
        → WorldsAgreeOutside keys (after w facts) (after other facts) }
{}

/// Facts that take the place of others with the same operations and the same change of the open scopes leave answers that are the
/// same outside the keys at which the two differ, if they look at none of these; with no operations and no such change they may also
/// come or go. What facts look at is told from either of two worlds, if they look at none of the keys outside of which these agree.
pub fn exchanging()
    ensures pair { (keys : List Key) (w other : World) (f g : UnitFacts)
        → WorldsAgreeOutside keys w other → f.step ≡ g.step
        → operations_among f.additions ≡ operations_among g.additions
        → let more = keys ++ differing f.additions g.additions in
        AreApart (looked_at_by other g) more → WorldsAgreeOutside more (after w f) (after other g) }
    ensures less { (keys : List Key) (w other : World) (f : UnitFacts)
        → WorldsAgreeOutside keys w other → f.step ≡ Stays → operations_among f.additions ≡ []
        → WorldsAgreeOutside (keys ++ map key_of f.additions) (after w f) other }
    ensures more { (keys : List Key) (w other : World) (g : UnitFacts)
        → WorldsAgreeOutside keys w other → g.step ≡ Stays → operations_among g.additions ≡ []
        → WorldsAgreeOutside (keys ++ map key_of g.additions) w (after other g) }
    ensures looked_at { (keys : List Key) (w other : World) (f : UnitFacts)
        → WorldsAgreeOutside keys w other → AreApart (looked_at_by other f) keys
        → AreApart (looked_at_by w f) keys }
{}

/// Facts that change no open scope may declare any operations, and take the place of such others, where the worlds may have other
/// operations in the innermost scope. Once that scope closes, they have the same, and agree but at its own key. The same facts on
/// both sides stop the same uses, where these look at none of the keys.
pub fn agreeing_around()
    ensures wider { (keys : List Key) (w other : World)
        → WorldsAgreeOutside keys w other → WorldsAgreeAround keys w other }
    ensures same { (keys : List Key) (w other : World) (f : UnitFacts)
        → WorldsAgreeAround keys w other → f.step ≡ Stays
        → AreApart (flat_map stops_of f.additions) keys
        → WorldsAgreeAround keys (after w f) (after other f) }
    ensures pair { (keys : List Key) (w other : World) (f g : UnitFacts)
        → WorldsAgreeAround keys w other → f.step ≡ Stays → g.step ≡ Stays
        → AreApart (flat_map stops_of g.additions) keys
        → WorldsAgreeAround (keys ++ differing f.additions g.additions) (after w f) (after other g) }
    ensures less { (keys : List Key) (w other : World) (f : UnitFacts)
        → WorldsAgreeAround keys w other → f.step ≡ Stays
        → WorldsAgreeAround (keys ++ map key_of f.additions) (after w f) other }
    ensures more { (keys : List Key) (w other : World) (g : UnitFacts)
        → WorldsAgreeAround keys w other → g.step ≡ Stays
        → WorldsAgreeAround (keys ++ map key_of g.additions) w (after other g) }
    ensures closes { (keys : List Key) (before facts : List UnitFacts) (s : Scope) (f : UnitFacts)
        → WorldsAgreeAround keys (world before) (world facts)
        → f.step ≡ Closes → f.additions ≡ []
        → IsInnermost (answers facts) s → (Contains keys key.Cursor → ⊥)
        → WorldsAgreeOutside (keys ++ entity_key s.path ∷ [])
        (after (world before) f) (after (world facts) f) }
{}

/// Over answers that agree on the keys that a name asks, it is found as the same and asks the same
/// keys. Answers that agree outside keys that it doesn't ask are such answers.
pub fn reliance()
    ensures outcome { (turns : ℕ) (cursor : List Scope) (name : ScopedName)
        (bank other : Key → Option Answer)
        → Agree (asked (denoted turns cursor name) bank) bank other
        → outcome (denoted turns cursor name) other ≡ outcome (denoted turns cursor name) bank }
    ensures asked { (turns : ℕ) (cursor : List Scope) (name : ScopedName)
        (bank other : Key → Option Answer)
        → Agree (asked (denoted turns cursor name) bank) bank other
        → asked (denoted turns cursor name) other ≡ asked (denoted turns cursor name) bank }
    ensures outside { (keys asks : List Key) (bank other : Key → Option Answer)
        → AgreeOutside keys bank other → AreApart asks keys → Agree asks bank other }
{}

/// Facts that come to the same id of a name, the same text of its prefix and the same that a pragma fixed answer the same where its id
/// is asked: the scope in which the prefix was met shows in the id alone.
pub fn identities()
    ensures { (facts others : List UnitFacts) (path : List (List ℕ))
        → told_at path (answers facts (key.IdOf path))
        ≡ told_at path (answers others (key.IdOf path))
        → answers facts (key.IdOf path) ≡ answers others (key.IdOf path) }
{}

/// A prefix lasts to the next one, and no longer than the scope or the file in which it is met: behind these the prefix of before
/// is in force again. Files may open and close scopes as they like meanwhile, and scopes hold any files.
pub fn prefixes()
    ensures scope { (w : World) (f g : UnitFacts) (inside : List UnitFacts)
        → scopes_in (w.answers key.Cursor) ≢ []
        → opens f.step ≡ true → IsBalanced opens closes inside → g.step ≡ Closes
        → prefix_in ((after_all w (f ∷ (inside ++ g ∷ []))).answers key.Prefix)
        ≡ prefix_in (w.answers key.Prefix) }
    ensures file { (w : World) (f g : UnitFacts) (inside : List UnitFacts)
        → f.step ≡ Enters → IsBalanced enters leaves inside → g.step ≡ Leaves
        → prefix_in ((after_all w (f ∷ (inside ++ g ∷ []))).answers key.Prefix)
        ≡ prefix_in (w.answers key.Prefix) }
    ensures opened { (w : World) (f : UnitFacts)
        → opens f.step ≡ true
        → prefix_in ((after w f).answers key.Prefix) ≡ prefix_in (w.answers key.Prefix) }
    ensures entered { (w : World) (f : UnitFacts)
        → f.step ≡ Enters → prefix_in ((after w f).answers key.Prefix) ≡ no_prefix }
    ensures pragma { (w : World) (f : UnitFacts) (text : List ℕ)
        → f.step ≡ Prefixes text
        → prefix_in ((after w f).answers key.Prefix)
        ≡ record { text = text; scope = path_around (scopes_in (w.answers key.Cursor)) } }
{}
