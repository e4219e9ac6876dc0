//! The blocks that are not yet left.
//!
//! A block has asked just what stands, in it and inside, with a date before its entering: the later of when its key was
//! written and asked. Nothing was written at a key since the entering just where the facts that wrote last there came
//! before it. So an open block has no table of what it wrote; one table for all tells when each key was asked last; and
//! a log is pages, shared with those around, and a date.

ghost use Rattle.std.specs.Prelude.{◌≡◌, ◌↔◌, ◌∷◌, ◌++◌, [], IfNone, IfOk, IfSome, IsTrue, List, OnOk, if◌then◌else◌, length, map};
ghost use Rattle.std.specs.Option.{unwrap_or};
ghost use Rattle.idl_env.specs.Facts.{UnitFacts, answers};
ghost use Rattle.idl_env.specs.declared.keys.key.Key.{Key};
ghost use Rattle.idl_env.specs.keys.Key.{key_eq};
ghost use Rattle.idl_memo.specs.Query.{HoldsIn};
ghost use Rattle.idl_root_blocks.specs.Asking.{AreNoted, OpenBlock, asked_at, kept_of, seen_blocks, with_asked, with_dated};

use crate::block_text::BlockText;
use crate::held::{HeldBlock, join_outer, note_inside};
use crate::task::KeptBlock;
use idl_env::{Answer, DigestedKey, Env};
use idl_map::Map;
use idl_memo::Dated;
use std::alloc::{AllocError, Global};
use std::marker::Model;
use std::rc::Rc;

type Entry = (DigestedKey, Option<Answer>);

/// The blocks that are not yet left, the innermost last. To every contract they are what each has asked so far, and when each key
/// was asked last in one of them.
///
/// What is asked is noted once, in the innermost, with the number of the facts behind which its key was asked or written last: those
/// blocks have asked it that were entered behind these.
pub struct OpenBlocks {
    alloc: Global,
    blocks: Vec<HeldBlock>,
    // How many facts there were when a key was asked last, once one was.
    asked: Option<Map<DigestedKey, usize>>,
}

impl Model for OpenBlocks {
    ghost use Rattle.std.specs.Prelude.{[]};
    ghost use Rattle.std.specs.Option.{unwrap_or};
    ghost use Rattle.idl_root_blocks.specs.Asking.{Opened, seen_blocks};

    ghost Value = { Opened };

    ghost view = { λ all. record {
      blocks = seen_blocks all.blocks.items;
      asked = unwrap_or all.asked [];
    } };
}

impl Drop for OpenBlocks {
    fn drop(self) {
        let OpenBlocks {
            alloc: _alloc,
            blocks: _blocks,
            asked: _asked,
        } = self;
    }
}

impl OpenBlocks {
    /// No block is entered.
    pub fn new(alloc: Global) -> OpenBlocks
        ensures none { result ≡ record { blocks = []; asked = [] } }
        ensures noted { AreNoted [] result }
    {
        OpenBlocks {
            alloc,
            blocks: Vec::new(alloc),
            asked: None,
        }
    }

    /// Whether none is open.
    pub fn is_empty(&self) -> bool
        ensures { IsTrue result ↔ self.now.blocks ≡ [] }
    {
        self.blocks.is_empty()
    }

    /// The block with this text was entered by the last of the facts.
    pub fn enter(&mut self, env: &Env, text: BlockText) -> Result<(), AllocError>
        // Those around it have noted what was asked before.
        requires { (before : List UnitFacts) × (f : UnitFacts)
            × (env.now ≡ before ++ f ∷ []) × AreNoted before self.old }
        ensures blocks { OnOk result (self.new.blocks ≡ self.old.blocks
            ++ record { text = text; start = length env.now; log = [] } ∷ []) }
        ensures noted { OnOk result (AreNoted env.now self.new) }
    {
        self.blocks
            .push(HeldBlock::new(self.alloc, text, env.len()))?;
        Ok(())
    }

    /// These entries are asked next, of a unit or of a block that is taken whole: each block notes those that it hasn't written since
    /// its entering.
    pub fn ask(&mut self, env: &Env, entries: &[Entry]) -> Result<(), AllocError>
        requires held { HoldsIn (answers env.now) entries.now }
        requires noted { AreNoted env.now self.old }
        ensures blocks { OnOk result
            (self.new.blocks ≡ map (with_asked env.now entries.now) self.old.blocks) }
        ensures noted { OnOk result (AreNoted env.now self.new) }
    {
        for entry in entries {
            self.ask_one(env, entry)?;
        }
        Ok(())
    }

    // This entry is asked next.
    fn ask_one(&mut self, env: &Env, entry: &Entry) -> Result<(), AllocError>
        requires held { entry.now.1 ≡ answers env.now entry.now.0 }
        requires noted { AreNoted env.now self.old }
        ensures blocks { OnOk result
            (self.new.blocks ≡ map (with_asked env.now (entry.now ∷ [])) self.old.blocks) }
        ensures noted { OnOk result (AreNoted env.now self.new) }
    {
        let Some(start) = self.innermost() else {
            return Ok(());
        };
        let written = env.written_at(&entry.0);
        if written >= start {
            return Ok(());
        }
        let asked = asked_at(&self.asked, &entry.0);
        if asked >= start {
            return Ok(());
        }
        self.note(env.len(), entry, written.max(asked))?;
        Ok(())
    }

    // The number of the facts of the entering of the innermost.
    fn innermost(&self) -> Option<usize>
        ensures none { IfNone result (self.now.blocks ≡ []) }
        ensures some { IfSome result (λ start. (around : List OpenBlock) × (block : OpenBlock)
            × (self.now.blocks ≡ around ++ block ∷ []) × (block.start ≡ start)) }
    {
        Some(self.blocks.last()?.start)
    }

    // An entry is noted, which has this date, behind so many facts.
    fn note(&mut self, facts: usize, entry: &Entry, date: usize) -> Result<(), AllocError>
        ensures blocks { OnOk result (self.new.blocks ≡ map (with_dated
            (record { key = entry.now.0; answer = entry.now.1; date = date })) self.old.blocks) }
        ensures asked { OnOk result ((k : Key) → asked_at self.new.asked k
            ≡ (if key_eq k entry.now.0 then facts else asked_at self.old.asked k)) }
    {
        mark_asked(&mut self.asked, self.alloc, &entry.0, facts)?;
        let dated = dated(entry, date)?;
        note_inside(&mut self.blocks, self.alloc, dated)?;
        Ok(())
    }

    /// The innermost is left: what is kept of it.
    pub fn leave(&mut self) -> Result<Option<Rc<KeptBlock>>, AllocError>
        ensures none { IfOk result (λ left. IfNone left (self.old.blocks ≡ [])) }
        ensures some { IfOk result (λ left. IfSome left (λ kept. (block : OpenBlock)
            × (self.old.blocks ≡ self.new.blocks ++ block ∷ []) × (kept.value ≡ kept_of block))) }
        ensures noted { OnOk result ((facts : List UnitFacts) → AreNoted facts self.old
            → AreNoted facts self.new) }
    {
        let Some(block) = self.take_innermost()? else {
            return Ok(None);
        };
        self.forget();
        Ok(Some(block.kept(self.alloc)?))
    }

    // The innermost is left: its pages are those of the one around it, too.
    fn take_innermost(&mut self) -> Result<Option<HeldBlock>, AllocError>
        ensures none { IfOk result (λ left.
            IfNone left ((self.old.blocks ≡ []) × (self.new.blocks ≡ []))) }
        ensures some { IfOk result (λ left. IfSome left (λ block. (block.page.items ≡ [])
            × (self.old.blocks ≡ self.new.blocks ++ seen_blocks (block ∷ [])))) }
        ensures asked { self.new.asked ≡ self.old.asked }
    {
        let Some(mut block) = self.blocks.pop() else {
            return Ok(None);
        };
        block.turn(self.alloc)?;
        join_outer(&mut self.blocks, self.alloc, &block.pages)?;
        Ok(Some(block))
    }

    // Where none is open what was asked is forgotten.
    fn forget(&mut self)
        ensures blocks { self.new.blocks ≡ self.old.blocks }
        ensures noted { (facts : List UnitFacts) → AreNoted facts self.old → AreNoted facts self.new }
    {
        if self.blocks.is_empty() {
            self.asked = None;
        }
    }
}

// How many facts there were when a key was asked last.
fn asked_at(asked: &Option<Map<DigestedKey, usize>>, key: &DigestedKey) -> usize
    ensures { result ≡ asked_at (unwrap_or asked.now []) key.now }
{
    let Some(asked) = asked else {
        return 0;
    };
    match asked.get(key) {
        Some(count) => *count,
        None => 0,
    }
}

// A key is asked behind so many facts.
fn mark_asked(
    asked: &mut Option<Map<DigestedKey, usize>>,
    alloc: Global,
    key: &DigestedKey,
    facts: usize,
) -> Result<(), AllocError>
    ensures { OnOk result ((k : Key) → asked_at (unwrap_or asked.new []) k
        ≡ (if key_eq k key.now then facts else asked_at (unwrap_or asked.old []) k)) }
{
    if let Some(asked) = asked {
        asked.insert(key.clone()?, facts)?;
        return Ok(());
    }
    let mut first = Map::new(alloc)?;
    first.insert(key.clone()?, facts)?;
    *asked = Some(first);
    Ok(())
}

// A copy of an entry, with a date.
fn dated(entry: &Entry, date: usize) -> Result<Dated<DigestedKey, Answer>, AllocError>
    ensures { IfOk result (λ dated.
        dated ≡ record { key = entry.now.0; answer = entry.now.1; date = date }) }
{
    let key = entry.0.clone()?;
    let answer = match &entry.1 {
        Some(found) => Some(found.clone()?),
        None => None,
    };
    Ok(Dated { key, answer, date })
}
