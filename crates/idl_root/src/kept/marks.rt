//! What the units of a root were.

ghost use Rattle.std.specs.Prelude.{◌≡◌, []};
ghost use Rattle.idl_root.specs.Results.{IsKeptOf, nothing_kept};

use std::alloc::Global;
use std::marker::Model;

/// What a unit was.
#[derive(Clone, Copy, PartialEq, Eq)]
pub enum Mark {
    /// One with tokens, whose result is kept.
    Judged,
    /// A file was entered, inside a unit of tokens or not.
    Entered(bool),
    /// A file was left, inside a unit of tokens or not.
    Left(bool),
}

/// What the units of a root were, one after another, and how many keys its tasks asked, as far as memory counts: those of its names, and
/// of the blocks and units that stand in no block.
#[derive(Drop)]
pub struct Marks {
    marks: Vec<Mark>,
    keys: usize,
}

impl Model for Marks {
    ghost use Rattle.idl_root.specs.Results.{RootMarks};

    ghost Value = { RootMarks };

    ghost view = { λ marks. record { marks = marks.marks.items; keys = marks.keys } };
}

impl Marks {
    /// There were none: nothing is kept of a root. It takes no memory.
    pub fn none(alloc: Global) -> Marks
        ensures { IsKeptOf [] result nothing_kept }
    {
        Marks {
            marks: Vec::new(alloc),
            keys: 0,
        }
    }

    /// These, and so many keys.
    pub(crate) fn new(marks: Vec<Mark>, keys: usize) -> Marks
        ensures { result ≡ record { marks = marks.items; keys = keys } }
    {
        Marks { marks, keys }
    }

    /// How many keys were asked.
    pub(crate) fn keys(&self) -> usize
        ensures { result ≡ self.now.keys }
    {
        self.keys
    }

    /// What the units were.
    pub(crate) fn as_slice(&self) -> &[Mark]
        ensures { result.now ≡ self.now.marks }
    {
        &self.marks
    }
}
