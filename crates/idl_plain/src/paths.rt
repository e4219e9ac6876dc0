//! The laws of paths and of layers, which stand the innermost first and are told from the outermost on.

ghost use Rattle.std.specs.Prelude.{◌≡◌, ◌++◌, ◌∷◌, List, codes, drop, flat_map, map, reverse, ℕ};
ghost use Rattle.idl_entity.specs.DataType.{arrays_of};
ghost use Rattle.idl_entity.specs.Identity.{slashed};
ghost use Rattle.idl_entity.specs.declared.data_type.Layer.TheVariants.{Array};
ghost use Rattle.idl_repo.specs.Row.{path_text};
ghost use Rattle.idl_source.specs.names.Path.{slashed as slashed_name};
ghost use Rattle.idl_value.specs.Spelled.{escaped, path_word};

/// The names of a path are told from the outermost on, and so are arrays; the parts of a file's name as they stand.
pub fn outward()
    ensures slashes { (path : List (List ℕ)) → slashed path
        ≡ drop 1 (flat_map (λ n. 47 ∷ n) (reverse path)) }
    ensures texts { (path : List (List ℕ)) → path_text path
        ≡ drop 2 (flat_map (λ n. codes "::" ++ n) (reverse path)) }
    ensures words { (path : List (List ℕ)) → path_word path
        ≡ flat_map (λ n. codes "::" ++ escaped n) (reverse path) }
    ensures arrays { (lengths : List ℕ) → arrays_of lengths ≡ map (λ n. Array n) (reverse lengths) }
    ensures names { (parts : List (List ℕ)) → slashed_name parts ≡ flat_map (λ p. 47 ∷ p) parts }
{}
