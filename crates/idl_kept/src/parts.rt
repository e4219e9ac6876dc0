//! The steps of what is kept, of which each changes the three lists one after another, as far as there is memory.

ghost use Rattle.std.specs.Prelude.{◌≡◌, ◌≤◌, ◌<◌, ◌+◌, ◌^◌, ◌∷◌, ◌++◌, [], All, IfOk, OnErr, OnOk, Some, length, map};
ghost use Rattle.idl_env.specs.keys.Key.{key_eq};
ghost use Rattle.idl_kept.specs.Parts.{HasPart, inner_from};
ghost use Rattle.idl_kept.specs.Texts.{BlockResult, moved};
ghost use Rattle.idl_memo.specs.Kept.{IsSound};
ghost use Rattle.idl_root_blocks.specs.Places.{block_asks};
ghost use Rattle.idl_store.specs.Spots.{result_on, results_from};
ghost use Rattle.idl_store.specs.Stored.{begun, discarded, grown, last_draft};

use crate::texts::{Blocks, Declarations};
use idl_root_blocks::KeptBlock;
use idl_store::{Lists, Spot};
use std::alloc::AllocError;
use std::rc::Rc;

/// A block at a spot, with so many units and blocks in it.
#[derive(Clone, Copy)]
pub(crate) struct Part {
    pub(crate) spot: Spot,
    pub(crate) units: usize,
    pub(crate) inner: usize,
}

// Begins the drafts of a root.
pub(crate) fn begin_each(
    declarations: &mut Declarations,
    blocks: &mut Blocks,
    begins: &mut Lists,
    root: usize,
) -> Result<(), AllocError>
    ensures declarations { OnOk result (declarations.new ≡ begun declarations.old root) }
    ensures blocks { OnOk result (blocks.new ≡ begun blocks.old root) }
    ensures begins { OnOk result (begins.new ≡ begun begins.old root) }
    ensures units_left { OnErr result (discarded declarations.new ≡ discarded declarations.old) }
    ensures blocks_left { OnErr result (discarded blocks.new ≡ discarded blocks.old) }
    ensures begins_left { OnErr result (discarded begins.new ≡ discarded begins.old) }
{
    declarations.begin(root)?;
    blocks.begin(root)?;
    let none = Vec::new(begins.alloc());
    begins.begin(root, none)
}

// No draft is left.
pub(crate) fn discard_each(declarations: &mut Declarations, blocks: &mut Blocks, begins: &mut Lists)
    ensures declarations { declarations.new ≡ discarded declarations.old }
    ensures blocks { blocks.new ≡ discarded blocks.old }
    ensures begins { begins.new ≡ discarded begins.old }
{
    declarations.discard();
    blocks.discard();
    begins.discard();
}

// A block goes into the last draft, with where the results of its units begin.
pub(crate) fn put_each(
    blocks: &mut Blocks,
    begins: &mut Lists,
    kept: Rc<KeptBlock>,
    begin: usize,
) -> Result<(), AllocError>
    requires { IsSound key_eq block_asks kept.value }
    ensures blocks { OnOk result (blocks.new ≡ grown blocks.old (kept.value ∷ [])) }
    ensures begins { OnOk result (begins.new ≡ grown begins.old (begin ∷ [])) }
    ensures blocks_left { OnErr result (discarded blocks.new ≡ discarded blocks.old) }
    ensures begins_left { OnErr result (discarded begins.new ≡ discarded begins.old) }
{
    let hint = kept.text().hint();
    blocks.put(kept, hint)?;
    begins.push(begin)
}

// The results of a block's units, of the blocks in it and of itself go into the last draft too. It tells where those of its units begin.
pub(crate) fn take_each(
    declarations: &mut Declarations,
    blocks: &mut Blocks,
    begins: &mut Lists,
    part: Part,
) -> Result<usize, AllocError>
    requires { HasPart declarations.old begins.old part }
    ensures begin { IfOk result (λ begin. result_on begins.old part.spot ≡ Some begin) }
    ensures declarations { IfOk result (λ begin. declarations.new ≡ grown declarations.old
        (results_from declarations.old (record part.spot { place = begin }) part.units)) }
    ensures blocks { OnOk result ((kept : BlockResult) → result_on blocks.old part.spot ≡ Some kept
        → blocks.new ≡ grown blocks.old (inner_from blocks.old part ++ kept ∷ [])) }
    ensures begins { let to = length (last_draft declarations.old) in
        IfOk result (λ begin. begins.new ≡ grown begins.old
        (map (moved begin to) (inner_from begins.old part) ++ to ∷ [])) }
    ensures units_left { OnErr result (discarded declarations.new ≡ discarded declarations.old) }
    ensures blocks_left { OnErr result (discarded blocks.new ≡ discarded blocks.old) }
    ensures begins_left { OnErr result (discarded begins.new ≡ discarded begins.old) }
{
    let begin = begins.at(part.spot).unwrap();
    let from = Spot {
        place: begin,
        ..part.spot
    };
    declarations.take_part(from, part.units)?;
    let to = declarations.drafted().saturating_sub(part.units);
    let first = Spot {
        place: part.spot.place - part.inner,
        ..part.spot
    };
    blocks.take_part(first, part.inner)?;
    blocks.take_part(part.spot, 1)?;
    push_begins(begins, part, begin, to)?;
    begins.push(to)?;
    Ok(begin)
}

// The numbers beside the blocks in a block go into the last draft too: the results of its units, which begin at a place, stand from
// another place on there.
fn push_begins(begins: &mut Lists, part: Part, from: usize, to: usize) -> Result<(), AllocError>
    requires after { part.inner ≤ part.spot.place }
    requires long { length (inner_from begins.old part) ≡ part.inner }
    requires within { All (λ n. (from ≤ n) × (n ≤ from + part.units)) (inner_from begins.old part) }
    requires fits { to + part.units < 2 ^ 64 }
    ensures ok { OnOk result
        (begins.new ≡ grown begins.old (map (moved from to) (inner_from begins.old part))) }
    ensures left { OnErr result (discarded begins.new ≡ discarded begins.old) }
{
    let first = part.spot.place - part.inner;
    for nth in 0..part.inner {
        let spot = Spot {
            place: first + nth,
            ..part.spot
        };
        let begin = begins.at(spot).unwrap();
        begins.push(begin - from + to)?;
    }
    Ok(())
}
