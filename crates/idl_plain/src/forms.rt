//! The laws that a test of one form holds of that alone, and of a beginning where a text begins so.

ghost use Rattle.std.specs.Prelude.{◌≡◌, ◌++◌, ◌∷◌, ◌↔◌, ◌⊎◌, ℕ, ℤ, [], Bool, List, codes, drop, flat_map, map, nat_eq, not, pos, slice_get, take, true};
ghost use Rattle.std.specs.Option.{option_and_then, unwrap_or};
ghost use Rattle.std.specs.List.{list_any, starts_with};
ghost use Rattle.idl_check.specs.tables.Rules.{has_id, is_type};
ghost use Rattle.idl_check.specs.told.Bodies.{Body, Clauses, is_nothing as raises_none, told_body, told_innermost, with_innermost};
ghost use Rattle.idl_check.specs.told.Labels.{Labels};
ghost use Rattle.idl_check.specs.walk.Placing.{is_module};
ghost use Rattle.idl_check.specs.walk.Walk.{label_target, with_labels};
ghost use Rattle.idl_entity.specs.Identity.{no_prefix};
ghost use Rattle.idl_entity.specs.Kind.{has_bases, is_scope, kind_eq};
ghost use Rattle.idl_entity.specs.declared.kind.Kind.{Kind};
ghost use Rattle.idl_entity.specs.declared.kind.Kind.TheVariants as kind;
ghost use Rattle.idl_entity.specs.declared.kind.Stage.{Stage};
ghost use Rattle.idl_entity.specs.declared.kind.Stage.TheVariants.{Complete, Open};
ghost use Rattle.idl_entity.specs.declared.identity.Prefix.{Prefix};
ghost use Rattle.idl_env.specs.Facts.{given_back, innermost, more_inside, path_around};
ghost use Rattle.idl_env.specs.declared.answering.answer.Scope.{Scope};
ghost use Rattle.idl_lex.specs.bytes.Context.{is_include, is_newline, is_nothing};
ghost use Rattle.idl_lex.specs.bytes.Piece.{is_empty};
ghost use Rattle.idl_lex.specs.declared.bytes.context.Beginning.{Beginning};
ghost use Rattle.idl_lex.specs.declared.bytes.context.Beginning.TheVariants.{Include, Nothing};
ghost use Rattle.idl_lex.specs.declared.kinds.kind.Defect.{Defect};
ghost use Rattle.idl_lex.specs.declared.kinds.kind.Defect.TheVariants.{BadEscape};
ghost use Rattle.idl_lex.specs.declared.kinds.kind.TokenKind.{TokenKind};
ghost use Rattle.idl_lex.specs.declared.kinds.kind.TokenKind.TheVariants.{HeaderName, Miscased, Punctuation};
ghost use Rattle.idl_lex.specs.declared.kinds.mark.Mark.TheVariants.{ColonColon};
ghost use Rattle.idl_lex.specs.kinds.Kind.{begins_block};
ghost use Rattle.idl_lex.specs.tokens.Tokens.{Token};
ghost use Rattle.idl_macro.specs.conditions.Arithmetic.{is_zero};
ghost use Rattle.idl_prep.specs.Include.{begins_quoted, is_bad_escape, is_header_kind};
ghost use Rattle.idl_source.specs.names.Path.{is_rooted};
ghost use Rattle.idl_source.specs.texts.Line.{newline};
ghost use Rattle.idl_text.specs.Tree.{is_else, is_endif};
ghost use Rattle.idl_text.specs.declared.groups.kind.DirectiveKind.{DirectiveKind};
ghost use Rattle.idl_text.specs.declared.groups.kind.DirectiveKind.TheVariants as directive;
ghost use Rattle.idl_tree.specs.Pragma.{is_separator};
ghost use Rattle.idl_unit.specs.Ending.{begins, closes, is_empty as ends_text, is_semicolon, opens, role};
ghost use Rattle.idl_unit.specs.TokenRules.{is_miscased};
ghost use Rattle.idl_unit.specs.declared.role.Role.{Role};
ghost use Rattle.idl_unit.specs.declared.role.Role.TheVariants as role;

/// Each of these tests holds of one form alone, and that of bases of two.
pub fn tests()
    ensures nothing { (b : Beginning) → (is_nothing b ≡ true) ↔ (b ≡ Nothing) }
    ensures included { (b : Beginning) → (is_include b ≡ true) ↔ (b ≡ Include) }
    ensures headers { (k : TokenKind) → (is_header_kind k ≡ true) ↔ (k ≡ HeaderName) }
    ensures miscased { (k : TokenKind) → (is_miscased k ≡ true) ↔ (k ≡ Miscased) }
    ensures separators { (k : TokenKind) → (is_separator k ≡ true) ↔ (k ≡ Punctuation ColonColon) }
    ensures escapes { (d : Defect) → (is_bad_escape d ≡ true) ↔ (d ≡ BadEscape) }
    ensures modules { (r : Role) → (is_module r ≡ true) ↔ (r ≡ role.Module) }
    ensures openings { (r : Role) → (opens r ≡ true) ↔ (r ≡ role.OpenBrace) }
    ensures closings { (r : Role) → (closes r ≡ true) ↔ (r ≡ role.CloseBrace) }
    ensures semicolons { (r : Role) → (is_semicolon r ≡ true) ↔ (r ≡ role.Semicolon) }
    ensures otherwise { (d : DirectiveKind) → (is_else d ≡ true) ↔ (d ≡ directive.Else) }
    ensures endings { (d : DirectiveKind) → (is_endif d ≡ true) ↔ (d ≡ directive.Endif) }
    ensures zeros { (z : ℤ) → (is_zero z ≡ true) ↔ (z ≡ pos 0) }
    ensures bytes { (xs : List ℕ) → (is_empty xs ≡ true) ↔ (xs ≡ []) }
    ensures ends { (xs : List Token) → (ends_text xs ≡ true) ↔ (xs ≡ []) }
    ensures raised { (xs : List (List (List ℕ))) → (raises_none xs ≡ true) ↔ (xs ≡ []) }
    ensures bases { (s : Stage) → (has_bases s ≡ true) ↔ ((s ≡ Open) ⊎ (s ≡ Complete)) }
{}

/// Each of these tests holds where the bytes begin so.
pub fn beginnings()
    ensures rooted { (bytes : List ℕ) → is_rooted bytes ≡ starts_with nat_eq bytes (codes "/") }
    ensures quoted { (bytes : List ℕ) → begins_quoted bytes ≡ starts_with nat_eq bytes (34 ∷ []) }
    ensures ended { (bytes : List ℕ) → is_newline bytes ≡ starts_with nat_eq bytes (newline ∷ []) }
    ensures blocks { (bytes : List ℕ) → begins_block bytes ≡ starts_with nat_eq bytes (codes "/*") }
{}

/// These kinds of names are types, these are scopes, and all but these have ids.
pub fn kinds()
    ensures types { (k : Kind) → is_type k ≡ list_any (kind_eq k)
        (kind.Interface ∷ kind.Structure ∷ kind.Union ∷ kind.Enumeration ∷ kind.Alias ∷ kind.Native
        ∷ []) }
    ensures scopes { (k : Kind) → is_scope k ≡ list_any (kind_eq k)
        (kind.Module ∷ kind.Interface ∷ kind.Structure ∷ kind.Union ∷ kind.Exception ∷ []) }
    ensures ids { (k : Kind) → has_id k
        ≡ not (list_any (kind_eq k) (kind.Enumerator ∷ kind.Parameter ∷ kind.Member ∷ [])) }
{}

/// Each of these speaks of the first of a list alone, if there is one.
pub fn firsts()
    ensures tokens { (p : Role → Bool) (tokens : List Token) → begins p tokens
        ≡ list_any (λ t. p (role t)) (take 1 tokens) }
    ensures told { (clauses : Clauses) (bodies : List Body) → told_innermost clauses bodies
        ≡ flat_map (told_body clauses) (take 1 bodies) }
    ensures bodies { (next : Body → Body) (bodies : List Body) → with_innermost next bodies
        ≡ map next (take 1 bodies) ++ drop 1 bodies }
    ensures labels { (more : Labels → Labels) (unions : List Labels) → with_labels more unions
        ≡ map more (take 1 unions) ++ drop 1 unions }
    ensures targets { (unions : List Labels) → label_target unions
        ≡ option_and_then (λ l. l.target) (slice_get unions 0) }
    ensures inside { (inside : List (List (List (List ℕ)))) (paths : List (List (List ℕ)))
        → more_inside inside paths ≡ map (λ own. own ++ paths) (take 1 inside) ++ drop 1 inside }
    ensures prefixes { (prefixes : List Prefix) → given_back prefixes
        ≡ unwrap_or (slice_get prefixes 0) no_prefix }
    ensures operations { (inside : List (List (List (List ℕ)))) → innermost inside
        ≡ unwrap_or (slice_get inside 0) [] }
    ensures paths { (scopes : List Scope) → path_around scopes
        ≡ unwrap_or (slice_get (map (λ s. s.path) scopes) 0) [] }
{}
