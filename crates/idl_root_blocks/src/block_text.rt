//! The text of a block, as a list that is shared.

ghost use Rattle.std.specs.Prelude.{◌≡◌, ◌↔◌, IfOk, IsTrue, Some, refl, take};
ghost use Rattle.std.specs.Cmp.{partial_order_from_agreeing_total};
ghost use Rattle.std.specs.Cmp.Lexicographic.{pointwise, slice_cmp, lists_per, lists_equiv, lists_total, lists_ties};
ghost use Rattle.std.proofs.Common.{ap};
ghost use Rattle.std.specs.Hash as fed;
ghost use Rattle.idl_base.specs.Exact.{same_list};
ghost use Rattle.idl_root_blocks.specs.Blocks.{has_enclosed, part_writes, plain_part, text_hint};
ghost use Rattle.idl_root_blocks.specs.Met.{block_text_eq};
ghost use Rattle.idl_root_blocks.specs.contracts.text.BlockPartDatum.TheImpl.Laws.{same-law as same_part};
ghost use Rattle.idl_root_blocks.specs.contracts.text.BlockPartEq.TheImpl.Laws.{laws-law as part_equiv};
ghost use Rattle.idl_root_blocks.specs.contracts.text.BlockPartOrd.TheImpl.{ghosts as ordered};
ghost use Rattle.idl_root_blocks.specs.contracts.text.BlockPartOrd.TheImpl.Laws.{matches_eq-law as part_ties, total-law as part_total};
ghost use Rattle.idl_root_blocks.specs.contracts.text.BlockPartPartialEq.TheImpl.{ghosts as parts};
ghost use Rattle.idl_root_blocks.specs.contracts.text.BlockPartPartialEq.TheImpl.Laws.{laws-law as part_per};

use crate::text::BlockPart;
use idl_base::{Datum, Seq, Shared};
use std::alloc::{AllocError, Global};
use std::cmp::Ordering;
use std::hash::{Hash, Hasher};
use std::marker::Model;

/// The hint of texts with a boundary in them around which a unit is.
pub const ENCLOSED: u64 = 1 << 32;

/// The hint of all other texts.
pub const PLAIN: u64 = 0;

// By so many parts it is found.
const FIRST: usize = 8;

/// The text of a block: its parts in order, which clones share. To every contract it is the list of them.
///
/// It may be long: so it is hashed by its first parts alone.
#[derive(Drop)]
pub struct BlockText {
    parts: Shared<Seq<BlockPart>>,
}

impl Model for BlockText {
    ghost use Rattle.std.specs.Prelude.{List};
    ghost use Rattle.idl_root_blocks.specs.declared.text.BlockPart.{BlockPart};

    ghost Value = { List BlockPart };

    ghost view = { λ text. text.parts };
}

impl BlockText {
    /// These parts, from now on shared.
    pub fn new(alloc: Global, parts: Vec<BlockPart>) -> Result<BlockText, AllocError>
        ensures { IfOk result (λ text. text ≡ parts.items) }
    {
        let parts = Shared::new(alloc, Seq::from_vec(parts))?;
        Ok(BlockText { parts })
    }

    /// The parts in order.
    pub fn as_slice(&self) -> &[BlockPart]
        ensures { result.now ≡ self.now }
    {
        self.parts.get().as_slice()
    }

    /// Whether a unit is around a boundary in it.
    pub fn has_enclosed(&self) -> bool
        ensures { result ≡ has_enclosed self.now }
    {
        self.as_slice().iter().any(|part| part.is_enclosed())
    }

    /// The hint by which a block of this text is found.
    pub fn hint(&self) -> u64
        ensures { result ≡ text_hint self.now }
    {
        if self.has_enclosed() { ENCLOSED } else { PLAIN }
    }

    /// Whether blocks of both have one text: whatever units are around boundaries in them.
    pub fn is_like(&self, other: &BlockText) -> bool
        ensures { result ≡ block_text_eq self.now other.now }
    {
        are_like(self.as_slice(), other.as_slice())
    }
}

impl Clone for BlockText {
    ghost is_clone = { λ text copy. copy ≡ text };

    fn clone(&self) -> Result<BlockText, AllocError> {
        let parts = self.parts.clone()?;
        Ok(BlockText { parts })
    }
}

impl PartialEq for BlockText {
    ghost eq = { pointwise parts.eq };

    ghost laws = { lists_per part_per };

    fn eq(&self, other: &BlockText) -> bool
        ensures by_part { result ≡ pointwise parts.eq self.now other.now }
        ensures exact { IsTrue result ↔ (self.now ≡ other.now) }
    {
        *self.parts.get() == *other.parts.get()
    }
}

impl Eq for BlockText {
    ghost laws = { lists_equiv part_equiv };
}

impl PartialOrd for BlockText {
    ghost partial_cmp = { λ x y. Some (slice_cmp ordered.cmp x y) };

    ghost laws = { partial_order_from_agreeing_total (slice_cmp ordered.cmp) (lists_total part_total) (λ x y. refl) (lists_ties ordered.cmp part_ties) };

    fn partial_cmp(&self, other: &BlockText) -> Option<Ordering> {
        Some(self.cmp(other))
    }
}

impl Ord for BlockText {
    ghost cmp = { slice_cmp ordered.cmp };

    ghost total = { lists_total part_total };

    ghost matches_partial_cmp = { λ x y. refl };

    ghost matches_eq = { lists_ties ordered.cmp part_ties };

    fn cmp(&self, other: &BlockText) -> Ordering
        ensures by_part { result ≡ slice_cmp ordered.cmp self.now other.now }
        ensures exact { (result ≡ Ordering.Equal) ↔ (self.now ≡ other.now) }
    {
        self.parts.get().cmp(other.parts.get())
    }
}

impl Hash for BlockText {
    ghost hash_input = { λ text. fed.slice part_writes (take 8 text) };

    ghost respects_eq = { λ x y h. ap (λ text. fed.slice part_writes (take 8 text)) (same_list parts.eq same_part x y h) };

    fn hash<H: Hasher>(&self, state: &mut H) {
        first_of(self.as_slice()).hash(state);
    }
}

impl Datum for BlockText {
    ghost same = { same_list parts.eq same_part };

    ghost copy = { λ x y h. h };
}

// Whether these parts are those, whatever units are around boundaries.
fn are_like(these: &[BlockPart], those: &[BlockPart]) -> bool
    ensures { result ≡ block_text_eq these.now those.now }
{
    let mut mine = these;
    let mut theirs = those;
    'parts: while let Some((part, behind)) = mine.split_first() {
        let Some((beside, others)) = theirs.split_first() else {
            return false;
        };
        if !is_like(part, beside) {
            return false;
        }
        mine = behind;
        theirs = others;
    }
    theirs.is_empty()
}

// Whether a part is another, whatever units are around both.
fn is_like(part: &BlockPart, other: &BlockPart) -> bool
    ensures { result ≡ parts.eq (plain_part part.now) (plain_part other.now) }
{
    match (part, other) {
        (BlockPart::Text(unit), BlockPart::Text(same)) => *unit == *same,
        (BlockPart::Enters(_inside), BlockPart::Enters(_within)) => true,
        (BlockPart::Leaves(_inside), BlockPart::Leaves(_within)) => true,
        _ => false,
    }
}

// The first of these.
fn first_of(parts: &[BlockPart]) -> &[BlockPart]
    ensures { result.now ≡ take FIRST parts.now }
{
    match parts.get(..FIRST) {
        Some(first) => first,
        None => parts,
    }
}
