//! Kept logs by parts, some of which are runs.

use crate::bank::Bank;
use crate::run::{LogPart, Part};
use std::marker::Model;

// Parts, and how many entries they have.
pub(crate) struct Parted<B: Bank> {
    pub(crate) parts: Vec<LogPart<B>>,
    pub(crate) len: usize,
}

impl<B: Bank> Drop for Parted<B> {
    fn drop(self) {
        let Parted {
            parts: _parts,
            len: _len,
        } = self;
    }
}

impl<B: Bank> Model for Parted<B> {
    ghost use Rattle.std.specs.Prelude.{◌≡◌, List, Option, flat_map, length};
    ghost use Rattle.idl_memo.specs.Parts.{part_entries};

    ghost Value = { List (B.Key × Option B.Answer) };

    ghost view = { λ parted. flat_map part_entries parted.parts.items };

    ghost invariant = { λ parted. parted.len ≡ length (flat_map part_entries parted.parts.items) };
}

// Whether there is a run among these parts.
pub(crate) fn are_parted<B: Bank>(parts: &[LogPart<B>]) -> bool {
    parts.iter().any(|part| matches!(part, Part::Many(_)))
}
