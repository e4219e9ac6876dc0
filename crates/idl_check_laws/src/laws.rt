//! The laws of verdicts.
//!
//! Each function does nothing: it carries its laws as clauses. `fitting` alone looks at a unit that a
//! program holds.
//!
//! `least` speaks of units of fewer than 2^64 tokens, as an expression's tokens are counted by a `usize`; `fitting`
//! says that each unit of a program is one.

ghost use Rattle.std.specs.Prelude.{◌≡◌, ◌≢◌, ◌↔◌, ◌+◌, ◌^◌, ◌++◌, ◌<◌, ◌≤◌, Bool, ℕ, List, [], ◌∷◌, All, Contains, codes, decimal, false, fold, length, take, true, Err, None, Ok, Option, Some, map};
ghost use Rattle.std.specs.Option.{IsSome};
ghost use Rattle.idl_check.specs.walk.AllFaults.{site_faults, unit_faults};
ghost use Rattle.idl_check.specs.tables.Using.{uses_of};
ghost use Rattle.idl_check_laws.specs.Closing.{AreTold, HasOperation};
ghost use Rattle.idl_check.specs.tables.Declaring.{standing};
ghost use Rattle.idl_check.specs.ids.About.{about};
ghost use Rattle.idl_check.specs.ids.Identifying.{changed};
ghost use Rattle.idl_check.specs.ids.Remarks.{purpose_of, unless};
ghost use Rattle.idl_check.specs.tables.Rules.{is_no_id};
ghost use Rattle.idl_check.specs.walk.Placing.{faulty_step, step_of};
ghost use Rattle.idl_check.specs.walk.Judging.{FitsMemory, IsNotAfter, IsSound, IsSpoken, refused_keys, spoken_from, spoken_till, used_names, walked, without_name};
ghost use Rattle.idl_check.specs.idl_dump.Row.{Rest, unit_text};
ghost use Rattle.idl_check.specs.walk.Sections.{AreBracketed};
ghost use Rattle.idl_check_laws.specs.Valued.{AreValues, expressions};
ghost use Rattle.idl_check.specs.walk.Verdict.{faulty, first_faults, tree_of, verdict};
ghost use Rattle.idl_check.specs.walk.Walk.{Walk, first_walk, turns_at, visit};
ghost use Rattle.idl_fault.specs.declared.code.Code.TheVariants.{NoTree};
ghost use Rattle.idl_lex.specs.kinds.Keywords.{folded};
ghost use Rattle.idl_lex.specs.tokens.Tokens.{Token};
ghost use Rattle.idl_memo.specs.Query.{asked, outcome, run};
ghost use Rattle.idl_env.specs.Facts.{UnitFacts, addition_at, answers, count_in, entity_in, entity_key, nameless, scopes_in, with_addition, key_of, unstopped};
ghost use Rattle.idl_entity.specs.Identity.{first_identity, identity_of, is_within, prefixed, relative, slashed, told};
ghost use Rattle.idl_entity.specs.declared.identity.Fixed.TheVariants.{Version, Id};
ghost use Rattle.idl_env.specs.keys.Key.{key_eq};
ghost use Rattle.idl_env.specs.declared.keys.key.Key.{Key};
ghost use Rattle.idl_env.specs.declared.keys.key.Key.TheVariants.{Cursor, Declared, Introduced, Nameless, Opened};
ghost use Rattle.idl_env.specs.declared.additions.addition.Addition.{Addition};
ghost use Rattle.idl_scope.specs.Lookup.{denoted, under};
ghost use Rattle.idl_entity.specs.Kind.{inherits};
ghost use Rattle.idl_scope.specs.Meaning.{Denotes, InheritsOperation, Reaches, Through, bases_at, entity_found, reached_by, seen};
ghost use Rattle.idl_entity.specs.Path.{name_of, scope_of};
ghost use Rattle.idl_env.specs.Turns.{turns_for};
ghost use Rattle.idl_scope.specs.declared.found.Found.{Found};
ghost use Rattle.idl_scope.specs.declared.found.Reach.{Reach};
ghost use Rattle.idl_parts.specs.Part.{Part as item};
ghost use Rattle.idl_parts.specs.declared.part.TextPurpose.{TextPurpose};
ghost use Rattle.idl_parts.specs.declared.part.Use.{Use};
ghost use Rattle.idl_parts.specs.declared.part.Use.TheVariants.{AsIdentified};
ghost use Rattle.idl_tree.specs.declared.expression.Expression.{Expression};
ghost use Rattle.idl_tree.specs.declared.name.ScopedName.{ScopedName};
ghost use Rattle.idl_value.specs.Names.{name_count};
ghost use Rattle.idl_env.specs.declared.additions.addition.Step.TheVariants.{Stays};
ghost use Rattle.idl_env.specs.declared.answering.answer.Answer.{Answer};
ghost use Rattle.idl_env.specs.declared.answering.answer.Answer.TheVariants.{Known};
ghost use Rattle.idl_env.specs.declared.answering.answer.Scope.{Scope};
ghost use Rattle.idl_entity.specs.declared.entity.Entity.{Entity};
ghost use Rattle.idl_entity.specs.declared.identity.Prefix.{Prefix};
ghost use Rattle.idl_entity.specs.declared.kind.Kind.TheVariants.{Interface};
ghost use Rattle.idl_entity.specs.declared.kind.Stage.TheVariants.{Complete};
ghost use Rattle.idl_parts.specs.Item.{Item, items, items_length};
ghost use Rattle.idl_parts.specs.ExpressionParts.{expression_parts};
ghost use Rattle.idl_parts.specs.UnitParts.{unit_parts};
ghost use Rattle.idl_check.specs.idl_parse.Parse.{StopsAt, pragma_faults};
ghost use Rattle.idl_tree.specs.Lexeme.{lexemes};
ghost use Rattle.idl_tree.specs.Pragma.{pragma_of};
ghost use Rattle.idl_tree.specs.Unit.{spell};
ghost use Rattle.idl_tree.specs.declared.pragma.Pragma.TheVariants as pragma;
ghost use Rattle.idl_tree.specs.declared.unit.Constant.{Constant};
ghost use Rattle.idl_tree.specs.declared.unit.Tree.{Tree};
ghost use Rattle.idl_tree.specs.declared.unit.Tree.TheVariants as tree;
ghost use Rattle.idl_unit.specs.Faults.{least_fault};
ghost use Rattle.idl_unit.specs.TokenRules.{fault_at};
ghost use Rattle.idl_unit.specs.declared.fault.Fault.{Fault};
ghost use Rattle.idl_unit.specs.declared.unit.UnitText.{UnitText};
ghost use Rattle.idl_unit.specs.declared.unit.UnitText.TheVariants as unit;

/// The fault that is told is the least of all that hold in the first step that has one, also of
/// those at sites to which the walk never comes, and behind the first of an expression or of a name:
/// it is one of them, at no later token than any other, and with no greater code than another there.
/// Where none is told, none holds. Each unit that a program holds fits into memory (`fitting`).
pub fn least()
    ensures is { (turns : ℕ) (text : UnitText) (answers : Key → Option Answer)
        → FitsMemory text
        → (outcome (verdict turns text) answers).fault
        ≡ least_fault (unit_faults turns answers text) }
    ensures among { (turns : ℕ) (text : UnitText) (answers : Key → Option Answer) (fault : Fault)
        → FitsMemory text → (outcome (verdict turns text) answers).fault ≡ Some fault
        → Contains (unit_faults turns answers text) fault }
    ensures before { (turns : ℕ) (text : UnitText) (answers : Key → Option Answer) (fault : Fault)
        → FitsMemory text → (outcome (verdict turns text) answers).fault ≡ Some fault
        → (other : Fault) → Contains (unit_faults turns answers text) other
        → IsNotAfter fault other }
    ensures none { (turns : ℕ) (text : UnitText) (answers : Key → Option Answer)
        → (outcome (verdict turns text) answers).fault ≡ None
        → unit_faults turns answers text ≡ [] }
{}

/// A unit that a program holds has fewer tokens than `FitsMemory` asks for: they stand in a list of
/// which the number is a `usize`.
pub fn fitting(text: &idl_unit::UnitText)
    ensures { FitsMemory text.now }
{
    match text {
        idl_unit::UnitText::Tokens(run) => {
            let _count = run.len();
        }
        idl_unit::UnitText::Pragma(_tokens, _inside) => {}
    }
}

/// A faulty unit of tokens adds nothing but its step, which its tokens alone tell: an opening opens
/// a nameless scope, a closing closes, and any other changes no open scope. That is what it would
/// do without fault, but for the name. It has no row. A faulty pragma adds nothing at all.
pub fn refusal()
    ensures tokens { (turns : ℕ) (tokens : List Token) (answers : Key → Option Answer)
        (fault : Fault)
        → (outcome (verdict turns (unit.Tokens tokens)) answers).fault ≡ Some fault
        → outcome (verdict turns (unit.Tokens tokens)) answers
        ≡ faulty fault (faulty_step tokens) }
    ensures step { (tokens : List Token) (tree : Tree) (scope : List (List ℕ))
        → lexemes tokens ≡ spell tree → faulty_step tokens ≡ without_name (step_of tree scope) }
    ensures pragma { (turns : ℕ) (tokens : List Token) (inside : Bool)
        (answers : Key → Option Answer) (fault : Fault)
        → (outcome (verdict turns (unit.Pragma tokens inside)) answers).fault ≡ Some fault
        → outcome (verdict turns (unit.Pragma tokens inside)) answers ≡ faulty fault Stays }
{}

/// Where a unit of tokens has no fault, no rule of tokens refuses it, and it is the spelling of a
/// tree, which stands where it may. At none of its sites is a fault, and what it adds is what all
/// of these come to. A pragma without fault stands outside, and adds what it says.
pub fn acceptance()
    ensures sound { (turns : ℕ) (tokens : List Token) (answers : Key → Option Answer)
        → (outcome (verdict turns (unit.Tokens tokens)) answers).fault ≡ None
        → IsSound turns answers (scopes_in (answers Cursor)) tokens
        (outcome (verdict turns (unit.Tokens tokens)) answers) }
    ensures tree { (tokens : List Token) (tree : Tree)
        → (tree_of tokens ≡ Ok tree) ↔ (lexemes tokens ≡ spell tree) }
    ensures pragma { (turns : ℕ) (tokens : List Token) (inside : Bool)
        (answers : Key → Option Answer)
        → (outcome (verdict turns (unit.Pragma tokens inside)) answers).fault ≡ None
        → IsSpoken turns answers tokens inside
        (outcome (verdict turns (unit.Pragma tokens inside)) answers) }
{}

/// Where no tree spells the tokens of a unit, they stop being the beginning of one at one token alone: the first such that the
/// tokens through it are no beginning of a tree, or the last where all of them are one. There the unit has E20, if nothing is
/// wrong with it in the first step.
pub fn stopping()
    ensures place { (tokens : List Token) (place : ℕ)
        → (tree_of tokens ≡ Err place) ↔ StopsAt tokens place }
    ensures once { (tokens : List Token) (place other : ℕ)
        → StopsAt tokens place → StopsAt tokens other → place ≡ other }
    ensures told { (turns : ℕ) (tokens : List Token) (answers : Key → Option Answer)
        (place : ℕ)
        → first_faults tokens (scopes_in (answers Cursor)) ≡ [] → StopsAt tokens place
        → (outcome (verdict turns (unit.Tokens tokens)) answers).fault
        ≡ Some (fault_at place NoTree) }
{}

/// At a site a walk has come to the number of its first token, whatever is wrong before, and the
/// faults there stand at the tokens of the site, or at the next one of a site of none; those of an
/// expression at its tokens. So a fault that is told stands at a token of its unit.
pub fn numbering()
    ensures walk { (turns : ℕ) (answers : Key → Option Answer) (front : List Item) (w : Walk)
        → (walked turns answers front w).at ≡ w.at + items_length front }
    ensures site { (turns : ℕ) (answers : Key → Option Answer) (site : Item) (w : Walk)
        → All (λ f. (spoken_from site w ≤ f.index) × (f.index < spoken_till site w))
        (outcome (visit turns site w) answers).faults }
    ensures told { (turns : ℕ) (tokens : List Token) (answers : Key → Option Answer)
        (fault : Fault)
        → tokens ≢ []
        → (outcome (verdict turns (unit.Tokens tokens)) answers).fault ≡ Some fault
        → fault.index < length tokens }
    ensures pragma { (turns : ℕ) (tokens : List Token) (inside : Bool)
        (answers : Key → Option Answer) (fault : Fault)
        → tokens ≢ []
        → (outcome (verdict turns (unit.Pragma tokens inside)) answers).fault ≡ Some fault
        → fault.index < length tokens }
{}

/// The sites of a unit are bracketed: between an expression's beginning and its end stands what it
/// is made of, and an expression is nowhere else.
pub fn bracketing()
    ensures { (tree : Tree) → AreBracketed (items (unit_parts tree)) }
{}

/// Where a unit has no fault, each of its expressions has a value, which is told, in the order of
/// tokens: what the expression comes to, each of whose names has a value. A constant then has one
/// too. There are as many operands as the expression uses names.
pub fn evaluating()
    ensures values { (turns : ℕ) (answers : Key → Option Answer) (tree : Tree)
        (scopes : List Scope)
        → site_faults turns answers (items (unit_parts tree)) (first_walk scopes) ≡ []
        → AreValues (expressions (items (unit_parts tree)))
        (walked turns answers (items (unit_parts tree)) (first_walk scopes)).values.told }
    ensures constant { (turns : ℕ) (answers : Key → Option Answer) (c : Constant)
        (scopes : List Scope)
        → site_faults turns answers (items (unit_parts (tree.Constant c))) (first_walk scopes) ≡ []
        → IsSome (walked turns answers (items (unit_parts (tree.Constant c)))
        (first_walk scopes)).values.constant }
    ensures names { (e : Expression)
        → length (used_names (items (expression_parts e))) ≡ name_count e }
{}

/// A walk over sites without fault has found a path for each name that they use, so no used name is
/// left out of a row; and a row's first word has a blank before it, which is what is dropped there.
pub fn wording()
    ensures found { (turns : ℕ) (answers : Key → Option Answer) (sites : List Item) (w : Walk)
        → site_faults turns answers sites w ≡ []
        → length (walked turns answers sites w).found
        ≡ length w.found + length (used_names sites) }
    ensures blank { (tree : Tree) (rest : Rest)
        → lexemes rest.tokens ≡ spell tree
        → length rest.found ≡ length (used_names (items (unit_parts tree)))
        → rest.in_value ≡ false
        → take 1 (unit_text rest (items (unit_parts tree))) ≡ codes " " }
{}

/// A unit that the rules of tokens refuse, or that no tree spells, asks for the open scopes, and as
/// an opening for the nameless ones; nothing else. A pragma that is refused by its form or place
/// asks for the open scopes alone, and so does one of a prefix.
pub fn questions()
    ensures rules { (turns : ℕ) (tokens : List Token) (answers : Key → Option Answer)
        → first_faults tokens (scopes_in (answers Cursor)) ≢ []
        → asked (verdict turns (unit.Tokens tokens)) answers ≡ Cursor ∷ refused_keys tokens }
    ensures tree { (turns : ℕ) (tokens : List Token) (answers : Key → Option Answer)
        → ((tree : Tree) → lexemes tokens ≢ spell tree)
        → asked (verdict turns (unit.Tokens tokens)) answers ≡ Cursor ∷ refused_keys tokens }
    ensures pragma { (turns : ℕ) (tokens : List Token) (inside : Bool)
        (answers : Key → Option Answer)
        → pragma_faults tokens inside ≢ []
        → asked (verdict turns (unit.Pragma tokens inside)) answers ≡ Cursor ∷ [] }
    ensures prefix { (turns : ℕ) (tokens : List Token) (inside : Bool)
        (answers : Key → Option Answer) (text : List ℕ)
        → pragma_of tokens ≡ Some (pragma.Prefix text)
        → asked (verdict turns (unit.Pragma tokens inside)) answers ≡ Cursor ∷ [] }
{}

/// A version that is told stands in the place of `1.0`, and nothing else of the id changes. A path in
/// the scope of a prefix is told up to that scope, which is what is left out of it, and any other is
/// told whole. A typeprefix stands in the place of any prefix, before the whole path, and changes no
/// id that is given.
pub fn identification()
    ensures version { (p : Prefix) (path : List (List ℕ)) (major : ℕ) (minor : ℕ)
        → let first = first_identity None p in
        told path (identity_of None (changed (Version major minor) first))
        ≡ codes "IDL:" ++ prefixed p.text ++ slashed (relative path p.scope)
        ++ 58 ∷ (decimal major ++ 46 ∷ decimal minor) }
    ensures typeprefix { (text : List ℕ) (p : Prefix) (path : List (List ℕ)) (major : ℕ) (minor : ℕ)
        → let first = first_identity (Some text) p in
        told path (identity_of (Some text) (changed (Version major minor) first))
        ≡ codes "IDL:" ++ prefixed text ++ slashed path
        ++ 58 ∷ (decimal major ++ 46 ∷ decimal minor) }
    ensures given { (typeprefix : Option (List ℕ)) (p : Prefix) (path : List (List ℕ))
        (id : List ℕ)
        → let first = first_identity typeprefix p in
        told path (identity_of typeprefix (changed (Id id) first)) ≡ id }
    ensures inside { (path : List (List ℕ)) (scope : List (List ℕ))
        → is_within (scope_of path) scope ≡ true
        → relative path scope ++ scope ≡ path }
    ensures elsewhere { (path : List (List ℕ)) (scope : List (List ℕ))
        → is_within (scope_of path) scope ≡ false
        → relative path scope ≡ path }
{}

/// As many turns as the facts before a unit need are enough for it: with more its verdict is the
/// same, and so is what is logged for it.
pub fn more_turns()
    ensures { (facts : List UnitFacts) (turns more : ℕ) (text : UnitText)
        (log : List (Key × Option Answer))
        → turns_for facts ≤ turns
        → run key_eq (verdict (turns + more) text) (answers facts) log
        ≡ run key_eq (verdict turns text) (answers facts) log }
{}

/// Where a unit uses a name, it denotes what the scoping rules say, over the facts before the unit
/// and what its earlier tokens add, and its use is introduced into the scopes that they tell: into
/// these are the uses that it adds and that are not stopped over the facts before the unit. A
/// pragma's name denotes what they say over the facts before it. Where a unit declares a name, it is
/// told just where an operation or attribute of that name is inherited, and where a struct reaches
/// anything of that name through its base.
pub fn denoting()
    ensures denoted { (facts : List UnitFacts) (turns : ℕ) (w : Walk) (name : ScopedName)
        → turns_for facts ≤ turns
        → let query = under w.own (denoted (turns_at turns w) w.cursor name) in
        Denotes (seen w.own facts) w.cursor name (entity_found (outcome query (answers facts))) }
    ensures introduced { (facts : List UnitFacts) (turns : ℕ) (w : Walk) (name : ScopedName)
        (found : Found)
        → turns_for facts ≤ turns
        → let query = under w.own (denoted (turns_at turns w) w.cursor name) in
        outcome query (answers facts) ≡ Ok found
        → Reaches (seen w.own facts) w.cursor name found.reach }
    ensures used { (facts : List UnitFacts) (own : List Addition) (n : List ℕ) (r : Reach)
        (cursor : List Scope)
        → map key_of (unstopped (answers facts) (uses_of n r cursor own))
        ≡ map (λ s. Introduced n s.path s.body) (reached_by (seen own facts) n cursor r) }
    ensures path { (facts : List UnitFacts) (turns : ℕ) (w : Walk) (way : Use) (name : ScopedName)
        (found : Found)
        → let query = under w.own (denoted (turns_at turns w) w.cursor name) in
        outcome query (answers facts) ≡ Ok found
        → (outcome (visit turns (item.Uses way name) w) (answers facts)).after.found
        ≡ w.found ++ found.entity.path ∷ [] }
    ensures pragma { (facts : List UnitFacts) (turns : ℕ) (scopes : List Scope)
        (name : ScopedName)
        → turns_for facts ≤ turns
        → Denotes (answers facts) scopes name
        (entity_found (outcome (denoted turns scopes name) (answers facts))) }
    ensures inherited { (facts : List UnitFacts) (turns : ℕ) (w : Walk) (s : Scope) (e : Entity)
        → turns_for facts ≤ turns
        → let query = under w.own (standing (turns_at turns w) s e) in
        ((outcome query (answers facts)).brings_operation ≡ true)
        ↔ ((f : Entity)
        × InheritsOperation (seen w.own facts) s (folded (name_of e.path)) f) }
    ensures reached { (facts : List UnitFacts) (turns : ℕ) (w : Walk) (s : Scope) (e : Entity)
        → turns_for facts ≤ turns
        → let query = under w.own (standing (turns_at turns w) s e) in
        let after = seen w.own facts in
        ((outcome query (answers facts)).is_reached ≡ true)
        ↔ ((f : Entity) × (inherits s.kind ≡ true)
        × Through after (folded (name_of e.path)) (bases_at after s.path) f) }
{}

/// What a `typeid` says of what its name denotes is what the pragma of an id says of that, and is added where its text may be an id.
/// By it, and by a `typeprefix`, no name is declared or introduced.
pub fn speaking()
    ensures id { (turns : ℕ) (answers : Key → Option Answer) (w : Walk) (name : ScopedName)
        → let query = about w.at (turns_at turns w) w.cursor name (Id w.text) in
        let said = outcome (under w.own query) answers in
        let v = outcome (visit turns (item.Uses AsIdentified name) w) answers in
        (v.faults ≡ said.faults)
        × (v.after.own ≡ fold with_addition w.own (unless (is_no_id w.text) said).additions) }
    ensures alone { (turns : ℕ) (answers : Key → Option Answer) (w : Walk) (way : Use)
        (purpose : TextPurpose) (name : ScopedName) (n : List ℕ) (path : List (List ℕ)) (body : ℕ)
        → purpose_of way ≡ Some purpose
        → let own = (outcome (visit turns (item.Uses way name) w) answers).after.own in
        (addition_at own (Declared n path) ≡ addition_at w.own (Declared n path))
        × (addition_at own (Introduced n path body)
        ≡ addition_at w.own (Introduced n path body)) }
{}

/// The operations and attributes of a closed interface are those that the scoping rules reach from
/// it, over the facts of units each of which is told by its verdict over those before it: its own,
/// and those of its bases of other names. Its list is what is asked where two bases are named.
pub fn inheriting()
    ensures { (facts : List UnitFacts) (e : Entity) (p : List (List ℕ))
        → AreTold facts
        → answers facts (entity_key e.path) ≡ Some (Known e)
        → e.kind ≡ Interface → e.stage ≡ Complete
        → Contains e.operations p ↔ HasOperation (answers facts) e.path p }
{}

/// Over such facts each name that is declared stands at its own key, no entity has the path of a nameless scope, and the next
/// nameless scope was never open.
pub fn naming()
    ensures own { (facts : List UnitFacts) (n : List ℕ) (path : List (List ℕ)) (e : Entity)
        → AreTold facts → entity_in (answers facts (Declared n path)) ≡ Some e
        → entity_key e.path ≡ Declared n path }
    ensures nameless { (facts : List UnitFacts) (name : List ℕ) (scope : List (List ℕ))
        → AreTold facts → entity_in (answers facts (entity_key ((63 ∷ name) ∷ scope))) ≡ None }
    ensures next { (facts : List UnitFacts) (scope : List (List ℕ))
        → let count = count_in (answers facts Nameless) in
        AreTold facts → count < 2 ^ 64
        → count_in (answers facts (Opened (nameless count ∷ scope))) ≡ 0 }
{}
