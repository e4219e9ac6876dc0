//! The laws of directives, and of the files and the numbers in them: each is told in one.

ghost use Rattle.std.specs.Prelude.{◌≡◌, ◌&&◌, ◌+◌, ◌++◌, ◌-◌, ◌∷◌, ◌||◌, Bool, List, None, Some, codes, drop, is_none, is_some, length, map, nat_eq, not, replicate, slice_range, take, ℕ, if◌then◌else◌};
ghost use Rattle.std.specs.List.{list_all, list_any, prefix_len};
ghost use Rattle.std.specs.Str.{bytes_eq};
ghost use Rattle.idl_fault.specs.declared.file_name.FileName.{FileName};
ghost use Rattle.idl_fault.specs.declared.place.Place.{Place};
ghost use Rattle.idl_lex.specs.kinds.Kind.{kind_of};
ghost use Rattle.idl_lex.specs.kinds.Number.{integer_value};
ghost use Rattle.idl_lex.specs.tokens.Tokens.{Token, lines_of, tokens_of};
ghost use Rattle.idl_lex.specs.declared.tokens.token.PlacedToken.{PlacedToken};
ghost use Rattle.idl_macro.specs.Directives.{begins_parameters, define, ifdef, ifndef};
ghost use Rattle.idl_macro.specs.Macros.{Definitions};
ghost use Rattle.idl_macro.specs.conditions.Number.{integer, is_suffix};
ghost use Rattle.idl_plain.specs.Directives.{defined_at, file_at, minded, operand_at};
ghost use Rattle.idl_plain.specs.Macros.{macro_test};
ghost use Rattle.idl_prep.specs.Directive.{pragma};
ghost use Rattle.idl_prep.specs.Include.{Operand, file_of, is_header_kind, is_string, operand_in, operand_of};
ghost use Rattle.idl_prep.specs.State.{Said};
ghost use Rattle.idl_source.specs.names.Name.{is_name, is_plain, is_up};
ghost use Rattle.idl_source.specs.names.Path.{Path, led_by, name_of, slashed};
ghost use Rattle.idl_text.specs.Line.{Directive, lines_in, read};

/// `ifdef` and `ifndef` test whether a macro is there; `define` adds a macro, unless there is one with other tokens.
pub fn macros()
    ensures there { (place : Place) (word : List ℕ) (definitions : Definitions)
        (operands : List PlacedToken) → ifdef place word definitions operands
        ≡ macro_test is_some place word definitions operands }
    ensures missing { (place : Place) (word : List ℕ) (definitions : Definitions)
        (operands : List PlacedToken) → ifndef place word definitions operands
        ≡ macro_test is_none place word definitions operands }
    ensures defined { (place : Place) (word : List ℕ) (definitions : Definitions)
        (operands : List PlacedToken) → define place word definitions operands
        ≡ defined_at place word definitions operands }
{}

/// The operand of `include` finds a file beside this one, or along the search list. `pragma` says that the file isn't entered again, or
/// something to IDL.
pub fn files()
    ensures operands { (place : Place) (definitions : Definitions) (tokens : List PlacedToken)
        → operand_of place definitions tokens ≡ operand_at place definitions tokens }
    ensures found { (from : FileName) (o : Operand) → file_of from o ≡ file_at from o }
    ensures pragmas { (file : FileName) (d : Directive) (s : Said)
        → pragma file d s ≡ minded file d s }
{}

/// Names of files, numbers and parameters, which directives have, and the lines of a file are told in one each.
pub fn operands()
    ensures names { (rooted : Bool) (path : Path) → name_of rooted path ≡ (
        let text = slashed (replicate path.up (codes "..") ++ path.down) in
        let name = if rooted then text else drop 1 text in
        if is_name name then Some name else None) }
    ensures steps { (segment : List ℕ) (path : Path) → led_by segment path ≡ (
        let down = record path { down = segment ∷ path.down } in
        if is_up segment then record path { up = path.up + 1 }
        else if not (is_plain segment) then path
        else if nat_eq path.up 0 then down else record path { up = path.up - 1 }) }
    ensures numbers { (spelling : List ℕ) → integer spelling ≡ (
        let n = prefix_len (λ b. not (is_suffix b)) spelling in
        if list_all is_suffix (drop n spelling) then integer_value (take n spelling) else None) }
    ensures parameters { (operands : List PlacedToken) → begins_parameters operands
        ≡ list_any (λ t. t.follows_word && bytes_eq t.token (codes "(")) (take 1 operands) }
    ensures quoted { (t : Token) → operand_in t ≡ (
        let name = slice_range t 1 (length t - 1) in
        if is_header_kind (kind_of t) || is_string t
        then Some (record { name = name; is_quoted = is_string t; spelling = t }) else None) }
    ensures lines { (text : List (List ℕ)) → lines_in text ≡ map read (lines_of (tokens_of text)) }
{}
