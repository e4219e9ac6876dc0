//! The blocks of a root whose results are kept.

ghost use Rattle.std.specs.Prelude.{◌≡◌, ◌∷◌, ◌++◌, [], IfOk, List, OnOk, Some, length, map, if◌then◌else◌};
ghost use Rattle.idl_env.specs.Facts.{UnitFacts, answers};
ghost use Rattle.idl_kept.specs.Texts.{AreListsOf, IsTaken, with_blocks};
ghost use Rattle.idl_memo.specs.Meter.{compared_after};
ghost use Rattle.idl_memo.specs.Query.{HoldsIn};
ghost use Rattle.idl_root.specs.Passed.{MayBeLeft, keys_behind};
ghost use Rattle.idl_root_blocks.specs.Asking.{AreNoted as HaveNoted, OpenBlock, kept_of, with_asked};
ghost use Rattle.idl_root_blocks.specs.Blocks.{Pieces};
ghost use Rattle.idl_root_blocks.specs.Places.{block_result};
ghost use Rattle.idl_root_blocks.specs.Units.{text_of};
ghost use Rattle.idl_store.specs.Spots.{result_on};

use crate::kept::keeping::Keeping;
use idl_env::{Env, PlainEnv};
use idl_kept::KeptTexts;
use idl_root_blocks::{BlockTask, KeptBlock, blocks_in, texts_in};
use idl_store::Spot;
use idl_unit::Unit;
use std::alloc::AllocError;

impl<'k> Keeping<'k> {
    /// A block was entered by the last of the facts.
    pub fn enter(&mut self, env: &Env, task: BlockTask) -> Result<(), AllocError>
        requires { (before : List UnitFacts) × (f : UnitFacts) × (env.now ≡ before ++ f ∷ [])
            × HaveNoted before self.old.blocks }
        ensures blocks { OnOk result (self.new.blocks.blocks ≡ self.old.blocks.blocks
            ++ record { text = task.text; start = length env.now; log = [] } ∷ []) }
        ensures noted { OnOk result (HaveNoted env.now self.new.blocks) }
        ensures rest { self.new ≡ record self.old { blocks = self.new.blocks } }
    {
        self.blocks.enter(env, task.text)
    }

    /// The innermost block is left next, the results of whose units begin there in what is made of the root: what is kept of it goes last
    /// there. It tells how many keys the block asked.
    pub fn leave(&mut self, kept: &mut KeptTexts, begin: usize) -> Result<usize, AllocError>
        requires { (before : List UnitFacts) × (inside : Pieces) × (others : List OpenBlock)
            × MayBeLeft kept.old begin before inside others self.old.blocks.blocks }
        ensures blocks { OnOk result ((others : List OpenBlock) (block : OpenBlock)
            → self.old.blocks.blocks ≡ others ++ block ∷ [] → self.new.blocks.blocks ≡ others) }
        ensures kept { OnOk result ((others : List OpenBlock) (block : OpenBlock)
            → self.old.blocks.blocks ≡ others ++ block ∷ []
            → kept.new ≡ with_blocks kept.old (kept_of block ∷ []) (begin ∷ [])) }
        ensures keys { OnOk result ((others : List OpenBlock) (block : OpenBlock)
            → self.old.blocks.blocks ≡ others ++ block ∷ []
            → self.new.keys ≡ keys_behind others self.old.keys (length block.log)) }
        ensures asked { IfOk result (λ keys. (others : List OpenBlock) (block : OpenBlock)
            → self.old.blocks.blocks ≡ others ++ block ∷ [] → keys ≡ length block.log) }
        ensures lists { AreListsOf kept.old kept.new }
        ensures noted { OnOk result ((facts : List UnitFacts)
            → HaveNoted facts self.old.blocks → HaveNoted facts self.new.blocks) }
        ensures rest { self.new ≡ record self.old { blocks = self.new.blocks; keys = self.new.keys } }
    {
        let Some(block) = self.blocks.leave()? else {
            return Ok(0);
        };
        let keys = block.log().len();
        self.count(keys);
        kept.put_block(block, begin)?;
        Ok(keys)
    }

    /// A block was left before which so many keys had been compared, and which asked so many. Where it is alike to a known one these are
    /// compared, and nothing inside counts.
    pub fn compare_block(&mut self, is_like: bool, before: u64, keys: usize)
        ensures { self.new ≡ record self.old {
          meter = record self.old.meter {
            compared = if is_like then compared_after before keys else self.old.meter.compared;
          };
        } }
    {
        if is_like {
            self.meter.compared = before.saturating_add(keys as u64);
        }
    }

    // So many keys are asked next: they are counted where they are asked in no block.
    fn count(&mut self, keys: usize)
        ensures { self.new ≡ record self.old {
          keys = keys_behind self.old.blocks.blocks self.old.keys keys;
        } }
    {
        if self.blocks.is_empty() {
            self.keys = self.keys.saturating_add(keys);
        }
    }

    /// The block at a spot is taken whole next, which is of these units: what is kept of it and in it goes into what is made of the root.
    /// It tells where the results of its units stand. What it asked counts as compared, and is asked by the blocks around it.
    pub fn take_block(
        &mut self,
        kept: &mut KeptTexts,
        env: &PlainEnv,
        spot: Spot,
        units: &[Unit],
    ) -> Result<Spot, AllocError>
        requires found { result_on kept.old.blocks spot
            ≡ Some (block_result (text_of units.now, answers env.now)) }
        requires noted { HaveNoted env.now self.old.blocks }
        ensures taken { let block = block_result (text_of units.now, answers env.now) in
            IfOk result (λ from. IsTaken kept.old kept.new block from) }
        ensures lists { AreListsOf kept.old kept.new }
        ensures blocks { let block = block_result (text_of units.now, answers env.now) in
            OnOk result
            (self.new.blocks.blocks ≡ map (with_asked env.now block.log) self.old.blocks.blocks) }
        ensures noted { OnOk result (HaveNoted env.now self.new.blocks) }
        ensures keys { let block = block_result (text_of units.now, answers env.now) in
            OnOk result
            (self.new.keys ≡ keys_behind self.old.blocks.blocks self.old.keys (length block.log)) }
        ensures meter { let block = block_result (text_of units.now, answers env.now) in
            OnOk result (self.new.meter ≡ record self.old.meter {
              compared = compared_after self.old.meter.compared (length block.log);
            }) }
        ensures rest { self.new ≡ record self.old {
          blocks = self.new.blocks;
          keys = self.new.keys;
          meter = self.new.meter;
        } }
    {
        if let Some(block) = kept.blocks().at(spot) {
            self.ask_block(env.get(), block)?;
        }
        kept.take_block(spot, texts_in(units), blocks_in(units))
    }

    // A block is met that is alike to this one.
    fn ask_block(&mut self, env: &Env, block: &KeptBlock) -> Result<(), AllocError>
        requires held { HoldsIn (answers env.now) block.now.log }
        requires noted { HaveNoted env.now self.old.blocks }
        ensures blocks { OnOk result
            (self.new.blocks.blocks ≡ map (with_asked env.now block.now.log) self.old.blocks.blocks) }
        ensures noted { OnOk result (HaveNoted env.now self.new.blocks) }
        ensures keys { OnOk result (self.new.keys
            ≡ keys_behind self.old.blocks.blocks self.old.keys (length block.now.log)) }
        ensures meter { OnOk result (self.new.meter ≡ record self.old.meter {
          compared = compared_after self.old.meter.compared (length block.now.log);
        }) }
        ensures rest { self.new ≡ record self.old {
          blocks = self.new.blocks;
          keys = self.new.keys;
          meter = self.new.meter;
        } }
    {
        let keys = block.log().len();
        self.meter.compare(keys);
        if self.blocks.is_empty() {
            self.keys = self.keys.saturating_add(keys);
            return Ok(());
        }
        let mut room = Vec::new(env.alloc());
        let entries = block.log().entries_in(env.alloc(), &mut room)?;
        self.blocks.ask(env, entries)
    }
}
