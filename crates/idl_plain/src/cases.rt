//! The laws of what is one thing with a value, or of a choice, and another without it.

ghost use Rattle.std.specs.Prelude.{◌≡◌, ◌&&◌, ◌∷◌, [], Bool, List, Option, codes, drop, false, filter, slice_get, ℕ, if◌then◌else◌};
ghost use Rattle.std.specs.Option.{option_and_then, option_map, option_map_or, option_to_list, unwrap_or};
ghost use Rattle.idl_check.specs.tables.Rules.{is_there};
ghost use Rattle.idl_check.specs.told.Bodies.{Clauses, array_type, raises, raising};
ghost use Rattle.idl_check.specs.told.Types.{may_switch, path_in, target_in};
ghost use Rattle.idl_check.specs.told.Values.{evaluation_in};
ghost use Rattle.idl_entity.specs.DataType.{constants_in, named_in, with_arrays};
ghost use Rattle.idl_entity.specs.Identity.{prefix_told, told};
ghost use Rattle.idl_entity.specs.Kind.{has_bases, kind_eq};
ghost use Rattle.idl_entity.specs.Path.{name_of};
ghost use Rattle.idl_entity.specs.declared.data_type.DataType.{DataType};
ghost use Rattle.idl_entity.specs.declared.entity.Entity.{Entity};
ghost use Rattle.idl_entity.specs.declared.identity.Prefix.{Prefix};
ghost use Rattle.idl_entity.specs.declared.kind.Kind.TheVariants.{Attribute};
ghost use Rattle.idl_env.specs.Facts.{operations_of};
ghost use Rattle.idl_macro.specs.Condition.{taken_by, truth};
ghost use Rattle.idl_memo.specs.Query.{Done, and_then};
ghost use Rattle.idl_parts.specs.Part.{GivesBack};
ghost use Rattle.idl_parts.specs.UnitParts.{given_back};
ghost use Rattle.idl_scope.specs.Known.{id_of, known};
ghost use Rattle.idl_scope.specs.Meaning.{bases_of};
ghost use Rattle.idl_source.specs.names.Path.{slashed, text_down};
ghost use Rattle.idl_tree.specs.Interface.{spell_local};
ghost use Rattle.idl_tree.specs.Lexeme.{Punctuation, Word};
ghost use Rattle.idl_tree.specs.Name.{spell_leading};
ghost use Rattle.idl_tree.specs.declared.expression.Expression.{Expression};
ghost use Rattle.idl_lex.specs.declared.kinds.keyword.Keyword.TheVariants.{Local};
ghost use Rattle.idl_lex.specs.declared.kinds.mark.Mark.TheVariants.{ColonColon};
ghost use Rattle.idl_value.specs.ConstantType.{discriminates};
ghost use Rattle.idl_value.specs.Evaluation.{Faulty, Operands, value_of};
ghost use Rattle.idl_value.specs.Spelled.{scope_of, truth_word};
ghost use Rattle.idl_value.specs.Term.{leading};
ghost use Rattle.idl_value.specs.declared.constant_type.ConstantType.{ConstantType};

/// Each of these is so much of a value, if there is one.
pub fn optional()
    ensures paths { (t : Option DataType) → path_in t ≡ option_and_then named_in t }
    ensures targets { (t : Option DataType) → target_in t ≡ option_and_then constants_in t }
    ensures switches { (t : Option ConstantType) → may_switch t
        ≡ option_map_or discriminates t false }
    ensures values { (t : Option ConstantType) (operands : Operands) (e : Expression)
        → evaluation_in t operands e ≡ option_map_or (λ t. value_of t operands e) t (Faulty []) }
    ensures there { (old : Option Entity) (test : Entity → Bool) → is_there old test
        ≡ option_map_or test old false }
    ensures bases { (e : Option Entity) → bases_of e
        ≡ option_map_or (λ e. if has_bases e.stage then e.bases else []) e [] }
    ensures operations { (e : Option Entity) → operations_of e
        ≡ option_map_or (λ e. e.operations) e [] }
    ensures raised { (e : Option Entity) (clauses : Clauses) → raising e clauses
        ≡ filter (λ e. kind_eq e.kind Attribute && raises clauses) (option_to_list e) }
    ensures arrays { (lengths : List ℕ) (t : Option DataType) → array_type lengths t
        ≡ option_map (with_arrays lengths) t }
    ensures prefixes { (text : Option (List ℕ)) (p : Prefix) → prefix_told text p
        ≡ option_map_or (λ t. record { text = t; scope = [] }) text p }
    ensures ids { (path : List (List ℕ)) → id_of path
        ≡ and_then (known path) (λ d. Done (option_map_or (told path) d [])) }
    ensures taken { (name : Option (List ℕ × ℕ)) → taken_by name ≡ option_map_or (λ n. n.1) name 0 }
{}

/// Each of these is one thing or another, as is chosen.
pub fn chosen()
    ensures truths { (b : Bool) → truth b ≡ (if b then codes "1" else codes "0") }
    ensures words { (b : Bool) → truth_word b ≡ (if b then codes "TRUE" else codes "FALSE") }
    ensures counts { (b : Bool) → leading b ≡ (if b then 1 else 0) }
    ensures marks { (b : Bool) → spell_leading b ≡ (if b then Punctuation ColonColon ∷ [] else []) }
    ensures locals { (b : Bool) → spell_local b ≡ (if b then Word Local ∷ [] else []) }
    ensures back { (b : Bool) → given_back b ≡ (if b then GivesBack ∷ [] else []) }
    ensures texts { (rooted : Bool) (segments : List (List ℕ)) → text_down rooted segments
        ≡ drop (if rooted then 0 else 1) (slashed segments) }
{}

/// A path begins with the name of what stands there, behind which stands the scope.
pub fn begun()
    ensures names { (path : List (List ℕ)) → name_of path ≡ unwrap_or (slice_get path 0) [] }
    ensures scopes { (path : List (List ℕ)) → scope_of path ≡ drop 1 path }
{}
