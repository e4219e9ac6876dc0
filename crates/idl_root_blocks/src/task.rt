//! The task of a block.

use crate::block_text::BlockText;
use idl_env::PlainEnv;
use idl_memo::{Kept, Task};

/// A block: its units' tasks one after another, each behind what those before it added.
#[derive(Drop)]
pub struct BlockTask {
    pub text: BlockText,
}

/// What is kept of a block: what it asks. What its units come to is kept by themselves.
pub type KeptBlock = Kept<PlainEnv, BlockText, ()>;

impl Task<PlainEnv> for BlockTask {
    ghost use Rattle.idl_root_blocks.specs.Blocks.{text_hint};
    ghost use Rattle.idl_root_blocks.specs.Places.{block_asks};

    type Text = BlockText;

    type Out = ();

    ghost text_of = { λ task. task.text };

    ghost query = { block_asks };

    // Blocks of one text are told apart by what they asked alone. Those with a boundary inside a unit are few, and stand apart: among
    // them is looked for one that differs in that alone.
    ghost hint_of = { λ text first. text_hint text };

    fn text(&self) -> &BlockText {
        &self.text
    }

    fn hint(&self, _bank: &PlainEnv) -> u64 {
        self.text.hint()
    }
}
