//! The law of what is kept of a block.

ghost use Rattle.std.specs.Prelude.{◌≡◌, List};
ghost use Rattle.idl_env.specs.Facts.{UnitFacts};
ghost use Rattle.idl_kept.specs.Texts.{IsPlaced, inner_results, unit_results};
ghost use Rattle.idl_root_blocks.specs.Blocks.{Pieces};
ghost use Rattle.idl_root_blocks.specs.Places.{block_at, block_result};

use idl_root_blocks::{resulting, taking};

/// Where the same is kept of a block at two places, the same is kept of its units and of the blocks in it. This does nothing: it carries
/// the law.
pub(crate) fn alike_at()
    ensures units { (there here : List UnitFacts) (inside : Pieces)
        → IsPlaced there inside → IsPlaced here inside
        → block_result (block_at there inside) ≡ block_result (block_at here inside)
        → unit_results there inside ≡ unit_results here inside }
    ensures inner { (there here : List UnitFacts) (inside : Pieces)
        → IsPlaced there inside → IsPlaced here inside
        → block_result (block_at there inside) ≡ block_result (block_at here inside)
        → inner_results there inside ≡ inner_results here inside }
{
    taking();
    resulting();
}
