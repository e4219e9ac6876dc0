//! The results of units and blocks.
//!
//! Units' results stand in one row, those of inner blocks in another, and beside each block where its units' begin: so
//! a block is taken by three parts of lists, and nothing is looked up in it. Which list it is in is told nowhere, so
//! commits and removals keep the invariant. A block that is taken is told as it stood elsewhere (`IsTaken`); that it
//! adds the same here is known behind its units.

ghost use Rattle.std.specs.Prelude.{◌≡◌, ◌≤◌, ◌<◌, ◌∷◌, ◌++◌, [], All, Any, List, IfNone, IfOk, IfSome, IsFalse, IsTrue, OnErr, OnOk, Some, length};
ghost use Rattle.std.specs.Option.{option_copied, option_map, option_to_list};
ghost use Rattle.idl_env.specs.Facts.{UnitFacts, answers};
ghost use Rattle.idl_kept.specs.Drafts.{begun_texts, committed_texts, no_texts, removed_texts};
ghost use Rattle.idl_kept.specs.Texts.{AreListsOf, BlockResult, IsBlockOn, IsLast, IsPlaced, IsTaken, unit_results, with_blocks, with_units, with_whole, without_drafts};
ghost use Rattle.idl_memo.specs.Kept.{NoneAlikeAt};
ghost use Rattle.idl_memo.specs.Meter.{count_of, most_compared};
ghost use Rattle.idl_memo.specs.declared.task.TaskKind.TheVariants.{Check};
ghost use Rattle.idl_root_blocks.specs.Blocks.{Pieces};
ghost use Rattle.idl_root_blocks.specs.Met.{IsLike};
ghost use Rattle.idl_root_blocks.specs.Places.{DeclarationPlace, block_at, block_result, declaration_result};
ghost use Rattle.idl_store.specs.Obtained.{IsObtained};
ghost use Rattle.idl_store.specs.Spots.{result_on, results_from};
ghost use Rattle.idl_store.specs.Stored.{last_draft, result_at, results_in};

use crate::laws::alike_at;
use crate::like::Like;
use crate::parts::{Part, begin_each, discard_each, put_each, take_each};
use idl_env::{Env, PlainEnv};
use idl_memo::{Kept, Meter};
use idl_root_blocks::idl_check::{DeclarationTask, Scratch, Verdict};
use idl_root_blocks::idl_unit::UnitText;
use idl_root_blocks::{BlockTask, ENCLOSED, KeptBlock, PLAIN};
use idl_store::{Held, Lists, Running, Spot, Store};
use std::alloc::{AllocError, Global};
use std::marker::Model;
use std::rc::Rc;

/// What is kept of a unit with tokens: its text, what it asked with the answers, and its verdict.
pub type KeptDeclaration = Kept<Env, UnitText, Verdict>;

/// What is kept of the units with tokens of all roots: a list for each root, and those that an edit is making.
pub type Declarations = Store<Held<Env, DeclarationTask>, Running<Env>>;

/// What is kept of the blocks of all roots, in the order in which they are left.
pub type Blocks = Store<Held<PlainEnv, BlockTask>, Running<PlainEnv>>;

/// What is kept of the units and of the blocks of all roots: a list of each for each root, and those that an edit is making.
///
/// Wherever a block's result stands, what is kept of its units and of the blocks in it stands too, one after another: so a block that
/// is alike elsewhere is taken whole.
pub struct KeptTexts {
    declarations: Declarations,
    blocks: Blocks,
    // Beside each block where the results of its units begin.
    begins: Lists,
}

impl Drop for KeptTexts {
    fn drop(self) {
        let KeptTexts {
            declarations: _declarations,
            blocks: _blocks,
            begins: _begins,
        } = self;
    }
}

impl Model for KeptTexts {
    ghost use Rattle.idl_kept.specs.Texts.{AreKept, Texts};

    ghost Value = { Texts };

    ghost view = { λ kept. record {
      declarations = kept.declarations;
      blocks = kept.blocks;
      begins = kept.begins;
    } };

    ghost invariant = { λ kept. AreKept (record {
      declarations = kept.declarations;
      blocks = kept.blocks;
      begins = kept.begins;
    }) };
}

impl KeptTexts {
    /// Nothing is kept. It takes no memory.
    pub fn new(alloc: Global) -> KeptTexts
        ensures { result ≡ no_texts }
    {
        KeptTexts {
            declarations: Store::new(alloc, Running::new(alloc)),
            blocks: Store::new(alloc, Running::new(alloc)),
            begins: Lists::new(alloc),
        }
    }

    /// What is kept of units.
    pub fn declarations(&self) -> &Declarations
        ensures { result.now ≡ self.now.declarations }
    {
        &self.declarations
    }

    /// What is kept of blocks.
    pub fn blocks(&self) -> &Blocks
        ensures { result.now ≡ self.now.blocks }
    {
        &self.blocks
    }

    /// Begins drafts, without results, of the lists of a root: of one that is there, or else of a new last one. Refused, no draft is
    /// left.
    pub fn begin(&mut self, root: usize) -> Result<(), AllocError>
        ensures ok { OnOk result (self.new ≡ begun_texts self.old root) }
        ensures err { OnErr result (self.new ≡ without_drafts self.old) }
        ensures lists { AreListsOf self.old self.new }
    {
        match begin_each(
            &mut self.declarations,
            &mut self.blocks,
            &mut self.begins,
            root,
        ) {
            Ok(()) => Ok(()),
            Err(refused) => {
                discard_each(&mut self.declarations, &mut self.blocks, &mut self.begins);
                Err(refused)
            }
        }
    }

    /// How many results of units the last draft has: where those of a block begin that is entered next.
    pub fn drafted(&self) -> usize
        ensures { result ≡ length (last_draft self.now.declarations) }
    {
        self.declarations.drafted()
    }

    /// The result of a unit, as the store of declarations obtains it.
    pub fn obtain(
        &mut self,
        task: &DeclarationTask,
        env: &Env,
        scratch: &mut Scratch,
        meter: &mut Meter,
    ) -> Result<Rc<KeptDeclaration>, AllocError>
        requires room { count_of Check meter.old < most_compared }
        ensures result { IfOk result (λ found.
            found.value ≡ declaration_result (task.now.text, answers env.now)) }
        ensures ok { OnOk result (self.new
            ≡ with_units self.old (declaration_result (task.now.text, answers env.now) ∷ [])) }
        ensures meter { let here : DeclarationPlace = (task.now.text, answers env.now) in
            OnOk result (IsObtained here (declaration_result here) Check
            (results_in self.old.declarations) meter.old meter.new) }
        ensures err { OnErr result (self.new ≡ self.old) }
    {
        self.declarations.obtain(task, env, scratch, meter)
    }

    /// The result of a unit at a place of a list, which goes into the last draft too.
    pub fn take_again(
        &mut self,
        list: usize,
        place: usize,
    ) -> Result<Option<Rc<KeptDeclaration>>, AllocError>
        ensures found { IfOk result (λ found.
            option_map (λ r. r.value) found ≡ result_at self.old.declarations list place) }
        ensures ok { OnOk result (self.new ≡ with_units self.old
            (option_to_list (result_at self.old.declarations list place))) }
        ensures err { OnErr result (self.new ≡ self.old) }
    {
        self.declarations.take_again(list, place)
    }

    /// A block is left, the results of whose units are the last ones of the draft, from that place on. Refused, no draft is left.
    pub fn put_block(&mut self, kept: Rc<KeptBlock>, begin: usize) -> Result<(), AllocError>
        requires { (before : List UnitFacts) × (inside : Pieces)
            × (IsPlaced before inside × (IsLast self.old begin before inside
            × (kept.value ≡ block_result (block_at before inside)))) }
        ensures ok { OnOk result (self.new ≡ with_blocks self.old (kept.value ∷ []) (begin ∷ [])) }
        ensures err { OnErr result (self.new ≡ without_drafts self.old) }
        ensures lists { AreListsOf self.old self.new }
    {
        match put_each(&mut self.blocks, &mut self.begins, kept, begin) {
            Ok(()) => Ok(()),
            Err(refused) => {
                discard_each(&mut self.declarations, &mut self.blocks, &mut self.begins);
                Err(refused)
            }
        }
    }

    /// A spot at which a block stands that is alike to the task over this bank, or nothing where none is. It takes no memory.
    pub fn alike<'a>(&'a self, task: &'a BlockTask, env: &'a PlainEnv) -> Option<Spot>
        ensures found { IfSome result (λ spot. result_on self.now.blocks spot
            ≡ Some (block_result (task.now.text, answers env.now))) }
        ensures none { IfNone result
            (NoneAlikeAt (task.now.text, answers env.now) (results_in self.now.blocks)) }
    {
        self.blocks.alike(task, env)
    }

    /// Whether a block is kept that is alike to the task over this bank, whatever units are around boundaries in both: asked where none
    /// is found in which they are around the same ones. Few are looked at, and it takes no memory.
    pub fn has_like(&self, task: &BlockTask, env: &PlainEnv) -> bool
        ensures some { IsTrue result
            → Any (IsLike (task.now.text, answers env.now)) (results_in self.now.blocks) }
        ensures none { IsFalse result
            → NoneAlikeAt (task.now.text, answers env.now) (results_in self.now.blocks)
            → All (λ kept. ¬ IsLike (task.now.text, answers env.now) kept)
            (results_in self.now.blocks) }
    {
        let like = Like {
            text: &task.text,
            env,
        };
        if self.blocks.has_beside(&task.text, ENCLOSED, &like) {
            return true;
        }
        task.text.has_enclosed() && self.blocks.has_beside(&task.text, PLAIN, &like)
    }

    /// The block at a spot, which has so many units and blocks in it, goes into the last draft too, with what is kept of these. It tells
    /// where the results of its units stand. That is all that would be kept of a block that is alike, where that stands. Refused, no
    /// draft is left.
    pub fn take_block(&mut self, spot: Spot, units: usize, inner: usize) -> Result<Spot, AllocError>
        requires { IsBlockOn self.old spot units inner }
        ensures taken { IfOk result (λ from. (kept : BlockResult)
            → result_on self.old.blocks spot ≡ Some kept
            → IsTaken self.old self.new kept from) }
        ensures ok { OnOk result ((before : List UnitFacts) (inside : Pieces)
            → IsPlaced before inside
            → result_on self.old.blocks spot ≡ Some (block_result (block_at before inside))
            → self.new ≡ with_whole self.old before inside) }
        ensures units { IfOk result (λ from. (before : List UnitFacts) (inside : Pieces)
            → IsPlaced before inside
            → result_on self.old.blocks spot ≡ Some (block_result (block_at before inside))
            → results_from self.new.declarations from (length (unit_results before inside))
            ≡ unit_results before inside) }
        ensures err { OnErr result (self.new ≡ without_drafts self.old) }
        ensures lists { AreListsOf self.old self.new }
    {
        alike_at();
        let part = Part { spot, units, inner };
        match take_each(
            &mut self.declarations,
            &mut self.blocks,
            &mut self.begins,
            part,
        ) {
            Ok(place) => Ok(Spot { place, ..spot }),
            Err(refused) => {
                discard_each(&mut self.declarations, &mut self.blocks, &mut self.begins);
                Err(refused)
            }
        }
    }

    /// Each draft takes the place of its list, or is a new last one. It takes no memory.
    pub fn commit(&mut self)
        ensures { self.new ≡ committed_texts self.old }
    {
        self.declarations.commit();
        self.blocks.commit();
        self.begins.commit();
    }

    /// No draft is left. It takes no memory.
    pub fn discard(&mut self)
        ensures { self.new ≡ without_drafts self.old }
    {
        discard_each(&mut self.declarations, &mut self.blocks, &mut self.begins);
    }

    /// Takes the lists of a root out; those behind it move up. It takes no memory.
    pub fn remove(&mut self, root: usize)
        ensures { self.new ≡ removed_texts self.old root }
    {
        self.declarations.remove(root);
        self.blocks.remove(root);
        self.begins.remove(root);
    }
}
