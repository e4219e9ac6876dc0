//! A file: a list of lines.

ghost use Rattle.std.specs.Prelude.{◌≡◌, ◌↔◌, ◌≤◌, length, IsTrue, IfOk};
ghost use Rattle.std.specs.Cmp.{partial_equiv_from_equiv};
ghost use Rattle.std.specs.Cmp.Lexicographic.{pointwise, pointwise_decides, bytes_decides, lists_per, lists_equiv, nat_list_eq_equiv};
ghost use Rattle.std.specs.Str.{bytes_eq};

use crate::texts::line::Line;
use idl_base::Datum;
use std::alloc::{AllocError, Global};
use std::marker::Model;
use std::rc::Rc;

/// A file: a list of at most 200,000 lines. A clone shares the lines.
#[derive(Drop)]
pub struct File {
    lines: Rc<Vec<Line>>,
}

impl Model for File {
    ghost use Rattle.std.specs.Prelude.{List, ℕ, ◌≤◌, length};

    ghost Value = { List (List ℕ) };

    ghost view = { λ file. file.lines.value.items };

    ghost invariant = { λ file. length file.lines.value.items ≤ 200000 };
}

impl File {
    /// The file of these lines, at most [`MAX_LINES`](crate::MAX_LINES). No line is copied.
    pub fn new(alloc: Global, lines: Vec<Line>) -> Result<File, AllocError>
        requires { length lines.items ≤ 200000 }
        ensures { IfOk result (λ file. file ≡ lines.items) }
    {
        Ok(File {
            lines: Rc::new(alloc, lines)?,
        })
    }

    /// The lines in order.
    pub fn lines(&self) -> &[Line]
        ensures { result.now ≡ self.now }
    {
        &self.lines
    }

    /// How many lines there are.
    pub fn line_count(&self) -> usize
        ensures count { result ≡ length self.now }
        ensures within { result ≤ 200000 }
    {
        self.lines.len()
    }
}

impl Clone for File {
    ghost is_clone = { λ file copy. copy ≡ file };

    fn clone(&self) -> Result<File, AllocError> {
        let lines = self.lines.clone()?;
        Ok(File { lines })
    }
}

impl PartialEq for File {
    ghost eq = { pointwise bytes_eq };

    ghost laws = { lists_per (partial_equiv_from_equiv nat_list_eq_equiv) };

    fn eq(&self, other: &File) -> bool
        ensures by_line { result ≡ pointwise bytes_eq self.now other.now }
        ensures exact { IsTrue result ↔ (self.now ≡ other.now) }
    {
        self.lines() == other.lines()
    }
}

impl Eq for File {
    ghost laws = { lists_equiv nat_list_eq_equiv };
}

impl Datum for File {
    ghost same = { λ x y. (pointwise_decides bytes_decides x y).0 };

    ghost copy = { λ x y h. h };
}
