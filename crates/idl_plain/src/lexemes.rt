//! The laws of tokens by how they are spelled.

ghost use Rattle.std.specs.Prelude.{◌≡◌, ◌&&◌, ◌∷◌, ◌||◌, [], Bool, List, None, Option, Some, drop, false, is_some, map, nat_eq, not, suc, take, true, ℕ, if◌then◌else◌};
ghost use Rattle.std.specs.List.{list_all, list_any};
ghost use Rattle.std.specs.Option.{option_map_or, unwrap_or};
ghost use Rattle.std.specs.Str.{bytes_eq};
ghost use Rattle.idl_lex.specs.bytes.Byte.{is_d, is_e, is_x};
ghost use Rattle.idl_lex.specs.bytes.Piece.{is_empty, is_pair, literal_rest, number_rest, zero_rest};
ghost use Rattle.idl_lex.specs.kinds.Keywords.{like_keyword};
ghost use Rattle.idl_lex.specs.kinds.Kind.{is_fraction, other_kind, unmarked_kind, word_kind};
ghost use Rattle.idl_lex.specs.kinds.Literal.{all_good, body_of, characters, closing, literal_kind};
ghost use Rattle.idl_lex.specs.kinds.Marks.{mark_kind};
ghost use Rattle.idl_lex.specs.kinds.Number.{is_floating, is_hexadecimal, number_kind};
ghost use Rattle.idl_lex.specs.declared.kinds.kind.Defect.TheVariants.{UnclosedLiteral};
ghost use Rattle.idl_lex.specs.declared.kinds.kind.TokenKind.TheVariants.{Bad, Identifier, Miscased};
ghost use Rattle.idl_plain.specs.Spelling.{lone as lone_in, quoted_kind};
ghost use Rattle.idl_source.specs.texts.Line.{newline};
ghost use Rattle.idl_tree.specs.Lexeme.{one_character};

/// A word is a keyword as the table has it, a mark is what its table has, and a literal is told by its characters.
pub fn spellings()
    ensures words { (word : List ℕ) → word_kind word ≡ elim (like_keyword word)
        [ None ↦ Identifier | Some k ↦ if bytes_eq k.0 word then k.1 else Miscased ] }
    ensures others { (b : ℕ) (rest : List ℕ) → other_kind b rest
        ≡ (if is_fraction b rest then number_kind (b ∷ rest)
        else unwrap_or (mark_kind (b ∷ rest)) (unmarked_kind b rest)) }
    ensures literals { (wide : Bool) (quote : ℕ) (rest : List ℕ) → literal_kind wide quote rest
        ≡ elim (body_of quote rest) [
          | None ↦ Bad UnclosedLiteral
          | Some body ↦ quoted_kind (nat_eq quote 39) wide (characters wide body)
        ] }
    ensures values { (cs : List (Option ℕ)) → all_good cs
        ≡ (if list_all is_some cs then Some (map (λ c. unwrap_or c 0) cs) else None) }
    ensures pairs { (a b : ℕ) → is_pair a b ≡ is_some (mark_kind (a ∷ b ∷ [])) }
    ensures bodies { (quote : ℕ) (escaped : Bool) (rest : List ℕ) → literal_rest quote escaped rest
        ≡ not (list_any (λ b. nat_eq b newline) rest)
        && option_map_or (λ n. is_empty (drop (suc n) rest)) (closing quote escaped rest) true }
    ensures zeros { (rest : List ℕ) → zero_rest rest
        ≡ (if list_any is_x (take 1 rest) then number_rest true false (drop 1 rest)
        else number_rest false false rest) }
    ensures floats { (spelling : List ℕ) → is_floating spelling
        ≡ list_any (λ b. nat_eq b 46) spelling
        || (not (is_hexadecimal spelling) && list_any (λ b. is_e b || is_d b) spelling) }
    ensures lone { (text : Option (List ℕ)) → one_character text ≡ lone_in text }
{}
