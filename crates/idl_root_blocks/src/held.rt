//! A block that is not yet left, as it is held.
//!
//! What is noted in it stands on pages, which are shared with the blocks around it once it is left.

ghost use Rattle.std.specs.Prelude.{◌≡◌, ◌∷◌, ◌++◌, [], IfOk, OnOk, map};
ghost use Rattle.idl_memo.specs.Dated.{dated_on, entries_before};
ghost use Rattle.idl_root_blocks.specs.Asking.{noted_in, seen_blocks, with_dated};

use crate::block_text::BlockText;
use crate::task::KeptBlock;
use idl_env::{Answer, DigestedKey, PlainEnv};
use idl_memo::{Dated, KeptLog, LogPage, keep};
use std::alloc::{AllocError, Global};
use std::mem::replace;
use std::rc::Rc;

// So many entries make a page.
const PAGE: usize = 64;

/// An entry with the number of the facts behind which its key was asked or written last.
pub(crate) type DatedEntry = Dated<DigestedKey, Answer>;

/// A block that is not yet left.
pub(crate) struct HeldBlock {
    pub(crate) text: BlockText,
    /// The number of the facts of its entering.
    pub(crate) start: usize,
    // What was noted in it, and in blocks inside that are left.
    pub(crate) pages: Vec<LogPage<PlainEnv>>,
    pub(crate) page: Vec<DatedEntry>,
}

impl Drop for HeldBlock {
    fn drop(self) {
        let HeldBlock {
            text: _text,
            start: _start,
            pages: _pages,
            page: _page,
        } = self;
    }
}

impl HeldBlock {
    /// The block with this text that the facts of this number entered.
    pub(crate) fn new(alloc: Global, text: BlockText, start: usize) -> HeldBlock
        ensures noted { noted_in result ≡ [] }
        ensures text { result.text ≡ text }
        ensures start { result.start ≡ start }
    {
        HeldBlock {
            text,
            start,
            pages: Vec::new(alloc),
            page: Vec::new(alloc),
        }
    }

    /// An entry goes behind the others.
    pub(crate) fn note(&mut self, alloc: Global, entry: DatedEntry) -> Result<(), AllocError>
        ensures noted { OnOk result (noted_in self.new ≡ noted_in self.old ++ entry ∷ []) }
        ensures text { OnOk result (self.new.text ≡ self.old.text) }
        ensures start { OnOk result (self.new.start ≡ self.old.start) }
    {
        self.page.push(entry)?;
        if self.page.len() >= PAGE {
            self.turn(alloc)?;
        }
        Ok(())
    }

    /// The last page is full.
    pub(crate) fn turn(&mut self, alloc: Global) -> Result<(), AllocError>
        ensures noted { OnOk result (noted_in self.new ≡ noted_in self.old) }
        ensures turned { OnOk result (self.new.page.items ≡ []) }
        ensures text { OnOk result (self.new.text ≡ self.old.text) }
        ensures start { OnOk result (self.new.start ≡ self.old.start) }
    {
        if self.page.is_empty() {
            return Ok(());
        }
        let mut page = replace(&mut self.page, Vec::new(alloc));
        page.shrink_to_fit();
        self.pages.push(Rc::new(alloc, page)?)?;
        Ok(())
    }

    /// A block inside is left: what was noted there is noted here too.
    pub(crate) fn join(
        &mut self,
        alloc: Global,
        pages: &[LogPage<PlainEnv>],
    ) -> Result<(), AllocError>
        ensures noted { OnOk result (noted_in self.new ≡ noted_in self.old ++ dated_on pages.now) }
        ensures text { OnOk result (self.new.text ≡ self.old.text) }
        ensures start { OnOk result (self.new.start ≡ self.old.start) }
    {
        self.turn(alloc)?;
        for page in pages {
            self.pages.push(page.clone()?)?;
        }
        Ok(())
    }

    /// What is kept of it once its last page is turned.
    pub(crate) fn kept(self, alloc: Global) -> Result<Rc<KeptBlock>, AllocError>
        ensures { IfOk result (λ kept. kept.value ≡ record {
          text = self.text;
          log = entries_before self.start (dated_on self.pages.items);
          out = tt;
        }) }
    {
        let HeldBlock {
            text,
            start,
            pages,
            page: _page,
        } = self;
        keep(alloc, &text, KeptLog::dated(alloc, pages, start)?, ())
    }
}

/// An entry is noted in the innermost of these blocks.
pub(crate) fn note_inside(
    blocks: &mut [HeldBlock],
    alloc: Global,
    entry: DatedEntry,
) -> Result<(), AllocError>
    ensures { OnOk result
        (seen_blocks blocks.new ≡ map (with_dated entry) (seen_blocks blocks.old)) }
{
    if let Some(block) = blocks.last_mut() {
        block.note(alloc, entry)?;
    }
    Ok(())
}

/// The innermost was left, and had these pages: they are those of the one around it, too.
pub(crate) fn join_outer(
    blocks: &mut [HeldBlock],
    alloc: Global,
    pages: &[LogPage<PlainEnv>],
) -> Result<(), AllocError>
    ensures { OnOk result ((block : HeldBlock) → noted_in block ≡ dated_on pages.now
        → seen_blocks (blocks.old ++ block ∷ []) ≡ seen_blocks blocks.new ++ seen_blocks (block ∷ [])) }
{
    if let Some(block) = blocks.last_mut() {
        block.join(alloc, pages)?;
    }
    Ok(())
}
