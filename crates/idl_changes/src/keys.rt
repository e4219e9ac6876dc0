//! What is looked up by a text and a number.

use idl_base::{Bytes, Datum, with_bytes};
use idl_map::Digest;

/// A text and a number: an id and how many of it come before, a name and the place of what offers it, a label.
#[derive(Clone, PartialEq, Eq, PartialOrd, Ord, Drop)]
pub struct NumberedText {
    pub text: Bytes,
    pub number: usize,
}

impl Datum for NumberedText {
    ghost use Rattle.idl_changes.specs.Keys.{copied_numbered, same_numbered};

    ghost same = { same_numbered };

    ghost copy = { copied_numbered };
}

impl Digest for NumberedText {
    ghost use Rattle.idl_base.specs.Digest.{with_bytes};

    ghost digest_of = { λ key. with_bytes key.number key.text };

    fn digest(&self) -> u64 {
        with_bytes(self.number as u64, self.text.as_bytes())
    }
}
