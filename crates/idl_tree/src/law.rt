//! Laws of trees and of their spelling.
//!
//! Each function does nothing: it carries its laws as clauses.

ghost use Rattle.std.specs.Prelude.{◌≡◌, ◌<◌, ◌∷◌, [], ℕ, length, Ok, Err};
ghost use Rattle.idl_tree.specs.reading.Fault.{IsFaultAt};
ghost use Rattle.idl_tree.specs.reading.Levels.{IsWithin};
ghost use Rattle.idl_tree.specs.Lexeme.{Lexeme, Lexemes};
ghost use Rattle.idl_tree.specs.reading.ReadUnit.{unit_at};
ghost use Rattle.idl_tree.specs.Unit.{spell};
ghost use Rattle.idl_tree.specs.declared.unit.Tree.{Tree};

/// No two trees have one spelling.
pub fn one_spelling()
    ensures { (a b : Tree) → spell a ≡ spell b → a ≡ b }
{}

/// Reading, allowed more levels than there are tokens, gives a tree exactly where the tokens are spelled so. Else it
/// fails, or leaves tokens, at the first one through which they are no beginning of a tree.
pub fn reading()
    ensures again { (tree : Tree) (n : ℕ) → length (spell tree) < n → unit_at n (spell tree) ≡ Ok (tree, []) }
    ensures found { (n : ℕ) (tokens : Lexemes) (tree : Tree) → length tokens < n
        → unit_at n tokens ≡ Ok (tree, []) → tokens ≡ spell tree }
    ensures fault { (n : ℕ) (tokens : Lexemes) (left : ℕ) → length tokens < n
        → unit_at n tokens ≡ Err left → IsFaultAt spell tokens left }
    ensures rest { (n : ℕ) (tokens : Lexemes) (tree : Tree) (next : Lexeme) (more : Lexemes)
        → length tokens < n
        → unit_at n tokens ≡ Ok (tree, next ∷ more)
        → IsFaultAt spell tokens (length (next ∷ more)) }
{}

/// Reading that is allowed more levels than brackets open in one another gives the same, however many more.
pub fn nesting()
    ensures same { (levels n m : ℕ) (tokens : Lexemes) → IsWithin levels tokens → levels < n → levels < m
        → unit_at n tokens ≡ unit_at m tokens }
    ensures most { (tokens : Lexemes) → IsWithin (length tokens) tokens }
{}
