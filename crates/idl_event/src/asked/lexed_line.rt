//! Lines that are held with their tokens.

ghost use Rattle.std.specs.Prelude.{◌≡◌, ◌↔◌, ◌∷◌, [], IsTrue, IfOk};
ghost use Rattle.std.specs.Cmp.{partial_equiv_from_equiv};
ghost use Rattle.std.specs.Cmp.Lexicographic.{pointwise, pointwise_decides, bytes_decides, lists_per, lists_equiv, nat_list_eq_equiv};
ghost use Rattle.std.specs.Str.{bytes_eq};
ghost use Rattle.idl_lex.specs.tokens.Tokens.{tokens_in, tokens_of};

use idl_base::Datum;
use idl_lex::idl_source::{File, Line};
use idl_text::TokenRange;
use std::alloc::{AllocError, Global};
use std::marker::Model;

/// A file of one line, and beside it its tokens, so that they are made once: the body of a macro. Its line alone is its
/// value, and a clone shares both.
#[derive(Drop)]
pub struct LexedLine {
    file: File,
    tokens: TokenRange,
}

impl Model for LexedLine {
    ghost use Rattle.std.specs.Prelude.{◌≡◌, List, ℕ};
    ghost use Rattle.idl_lex.specs.tokens.Tokens.{tokens_in, tokens_of};

    ghost Value = { List (List ℕ) };

    ghost view = { λ it. it.file };

    ghost invariant = { λ it. it.tokens ≡ tokens_in (tokens_of it.file) };
}

impl LexedLine {
    /// The line with its tokens.
    pub fn new(alloc: Global, line: Line) -> Result<LexedLine, AllocError>
        ensures { IfOk result (λ it. it ≡ line ∷ []) }
    {
        let mut lines = Vec::new(alloc);
        lines.push(line)?;
        let tokens = TokenRange::of_lines(alloc, &lines)?;
        let file = File::new(alloc, lines)?;
        Ok(LexedLine { file, tokens })
    }

    /// Its tokens in order.
    pub fn tokens(&self) -> &TokenRange
        ensures { result.now ≡ tokens_in (tokens_of self.now) }
    {
        &self.tokens
    }
}

impl Clone for LexedLine {
    ghost is_clone = { λ it copy. copy ≡ it };

    fn clone(&self) -> Result<LexedLine, AllocError> {
        let tokens = self.tokens.clone()?;
        let file = self.file.clone()?;
        Ok(LexedLine { file, tokens })
    }
}

impl PartialEq for LexedLine {
    ghost eq = { pointwise bytes_eq };

    ghost laws = { lists_per (partial_equiv_from_equiv nat_list_eq_equiv) };

    fn eq(&self, other: &LexedLine) -> bool
        ensures by_line { result ≡ pointwise bytes_eq self.now other.now }
        ensures exact { IsTrue result ↔ (self.now ≡ other.now) }
    {
        self.file == other.file
    }
}

impl Eq for LexedLine {
    ghost laws = { lists_equiv nat_list_eq_equiv };
}

impl Datum for LexedLine {
    ghost same = { λ x y. (pointwise_decides bytes_decides x y).0 };

    ghost copy = { λ x y h. h };
}
