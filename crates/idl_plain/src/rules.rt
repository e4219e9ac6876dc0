//! The laws of rules: that each is told in fewer words.

ghost use Rattle.std.specs.Prelude.{◌≡◌, ◌&&◌, ◌||◌, ◌∷◌, [], ℕ, List, Option, flat_map, length, map, nat_eq, nat_le, not, pos, take, if◌then◌else◌};
ghost use Rattle.std.specs.List.{list_any};
ghost use Rattle.std.specs.Option.{option_and_then, option_map, option_to_list};
ghost use Rattle.std.specs.Ordering.{int_eq};
ghost use Rattle.std.specs.Str.{bytes_eq};
ghost use Rattle.idl_check.specs.tables.Codes.{Table, faults_by};
ghost use Rattle.idl_check.specs.tables.Rules.{depth, is_interface, is_label_again, is_no_id, is_useless_default, is_visible, may_be_ahead, may_follow};
ghost use Rattle.idl_check.specs.told.Labels.{Labels};
ghost use Rattle.idl_check.specs.told.Types.{written_as};
ghost use Rattle.idl_check.specs.walk.AllFaults.{or_else};
ghost use Rattle.idl_check.specs.walk.Placing.{is_module, opened_kind, opening_faults};
ghost use Rattle.idl_entity.specs.Kind.{kind_eq, stage_eq};
ghost use Rattle.idl_entity.specs.Path.{name_of};
ghost use Rattle.idl_entity.specs.declared.data_type.DataType.{DataType};
ghost use Rattle.idl_entity.specs.declared.entity.Entity.{Entity};
ghost use Rattle.idl_entity.specs.declared.kind.Kind.TheVariants.{Interface, Module};
ghost use Rattle.idl_entity.specs.declared.kind.Stage.TheVariants.{Ahead};
ghost use Rattle.idl_env.specs.declared.answering.answer.Answer.{Answer};
ghost use Rattle.idl_env.specs.declared.answering.answer.Scope.{Scope};
ghost use Rattle.idl_env.specs.declared.keys.key.Key.{Key};
ghost use Rattle.idl_fault.specs.declared.code.Code.TheVariants.{NestedTooDeep};
ghost use Rattle.idl_lex.specs.tokens.Tokens.{Token};
ghost use Rattle.idl_parts.specs.declared.part.Shape.{Shape};
ghost use Rattle.idl_plain.specs.Types.{type_in};
ghost use Rattle.idl_unit.specs.Ending.{begins};
ghost use Rattle.idl_unit.specs.Scoping.{opening_brace};
ghost use Rattle.idl_unit.specs.TokenRules.{fault_at};
ghost use Rattle.idl_unit.specs.declared.fault.Fault.{Fault};
ghost use Rattle.idl_value.specs.ConstantType.{value_count};
ghost use Rattle.idl_value.specs.Equal.{value_eq};
ghost use Rattle.idl_value.specs.declared.value.Value.{Value};

/// What may be declared again, which labels a union may have, what an id is, and how many scopes may be open.
pub fn refusals()
    ensures again { (old new : Entity) → may_follow old new
        ≡ bytes_eq (name_of old.path) (name_of new.path)
        && ((kind_eq old.kind Module && kind_eq new.kind Module)
        || ((may_be_ahead old.kind && may_be_ahead new.kind)
        && (stage_eq old.stage Ahead || stage_eq new.stage Ahead))) }
    ensures labels { (unions : List Labels) (v : Value) → is_label_again unions v
        ≡ list_any (λ l. list_any (value_eq v) l.values) (take 1 unions) }
    ensures useless { (unions : List Labels) → is_useless_default unions
        ≡ list_any (λ l. l.has_default && list_any (int_eq (pos (length l.values)))
        (option_to_list (option_and_then (λ t. value_count t l.enumerators) l.target)))
        (take 1 unions) }
    ensures ids { (text : List ℕ) → is_no_id text
        ≡ not (is_visible text && list_any (nat_eq 58) text) }
    ensures interfaces { (scopes : List Scope) → is_interface scopes
        ≡ list_any (λ s. kind_eq s.kind Interface) (take 1 scopes) }
    ensures depths { (tokens : List Token) (scopes : List Scope) → opening_faults tokens scopes
        ≡ (if nat_le 64 (depth scopes)
        then map (λ n. fault_at n NestedTooDeep) (option_to_list (opening_brace tokens)) else []) }
    ensures steps { (turns : ℕ) (answers : Key → Option Answer) (earlier later : List Fault)
        → or_else turns answers earlier later ≡ elim earlier [ [] ↦ later | f ∷ fs ↦ f ∷ fs ] }
    ensures faults { (n : ℕ) (table : Table) → faults_by n table
        ≡ flat_map (λ row. if row.0 then fault_at n row.1 ∷ [] else []) table }
{}

/// What an opening opens, and what is written as a type that is no name.
pub fn writings()
    ensures openings { (tokens : List Token) → opened_kind tokens
        ≡ option_map (λ n. if begins is_module tokens then Module else Interface)
        (opening_brace tokens) }
    ensures types { (s : Shape) (bound : Option ℕ) (before : Option DataType)
        → written_as s bound before ≡ type_in s bound before }
{}
