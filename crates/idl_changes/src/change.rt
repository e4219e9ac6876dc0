//! Changes as data: which entries they are of, of which part, what became of it, and for whom it counts.

use crate::rows::Weights;
use idl_base::Text;

/// What became of a part.
pub enum Turn {
    Gone,
    New,
    /// It is new, and the one with this number of its list.
    NewAt(usize),
    /// What it was, and what it is now.
    Changed(Text, Text),
}

/// What differs between two entries. A whole entry that is gone or new has no part.
pub struct Difference {
    pub weights: Weights,
    pub part: Text,
    pub turn: Turn,
}

/// A change, with the places of the entries of the old listing and the new one that it is of.
pub struct Change {
    pub before: Option<usize>,
    pub after: Option<usize>,
    pub difference: Difference,
}

impl Drop for Turn {
    fn drop(self) {
        match self {
            Turn::Gone => {}
            Turn::New => {}
            Turn::NewAt(_number) => {}
            Turn::Changed(_was, _is) => {}
        }
    }
}

impl Drop for Difference {
    fn drop(self) {
        let Difference {
            weights: _weights,
            part: _part,
            turn: _turn,
        } = self;
    }
}

impl Drop for Change {
    fn drop(self) {
        let Change {
            before: _before,
            after: _after,
            difference: _difference,
        } = self;
    }
}
