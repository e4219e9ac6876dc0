//! Logs that share their entries: each entry has a date, and a log has those before its own.
//!
//! A page has some entries and not one, so a block that is left hands on few things. How many entries a log has is
//! counted when it is made. One at a place is looked for from the first on, so logs are compared by going over both.

ghost use Rattle.std.specs.Prelude.{◌≡◌, ◌++◌, ◌∷◌, [], IfNone, IfOk, IfSome, length};
ghost use Rattle.std.specs.Option.{option_copied};
ghost use Rattle.idl_memo.specs.Dated.{dated_on, entries_before};

use crate::bank::Bank;
use std::alloc::{AllocError, Global};
use std::marker::Model;
use std::rc::Rc;

/// A key with its answer, and a date.
#[derive(Drop)]
pub struct Dated<K, A> {
    pub key: K,
    pub answer: Option<A>,
    pub date: usize,
}

/// Some entries side by side, which logs share.
pub type Page<K, A> = Rc<Vec<Dated<K, A>>>;

/// A page of what is asked of a bank.
pub type LogPage<B> = Page<<B as Bank>::Key, <B as Bank>::Answer>;

// The entries of these pages before a date, which are so many.
pub(crate) struct DatedLog<B: Bank> {
    pages: Vec<LogPage<B>>,
    before: usize,
    len: usize,
}

impl<B: Bank> Model for DatedLog<B> {
    ghost use Rattle.std.specs.Prelude.{◌≡◌, List, Option, length};
    ghost use Rattle.idl_memo.specs.Dated.{dated_on, entries_before};

    ghost Value = { List (B.Key × Option B.Answer) };

    ghost view = { λ log. entries_before log.before (dated_on log.pages.items) };

    ghost invariant = { λ log.
        log.len ≡ length (entries_before log.before (dated_on log.pages.items)) };
}

impl<B: Bank> Drop for DatedLog<B> {
    fn drop(self) {
        let DatedLog {
            pages: _pages,
            before: _before,
            len: _len,
        } = self;
    }
}

impl<B: Bank> DatedLog<B> {
    // Those of these pages before a date. An error where they are past counting.
    pub(crate) fn new(pages: Vec<LogPage<B>>, before: usize) -> Result<DatedLog<B>, AllocError>
        ensures { IfOk result (λ log. log ≡ entries_before before (dated_on pages.items)) }
    {
        let len = count(DatedEntries::new(&pages, before))?;
        Ok(DatedLog { pages, before, len })
    }

    // How many they are.
    pub(crate) fn len(&self) -> usize
        ensures { result ≡ length self.now }
    {
        self.len
    }

    // The entries.
    pub(crate) fn entries(&self) -> DatedEntries<'_, B::Key, B::Answer>
        ensures { result ≡ self.now }
    {
        DatedEntries::new(&self.pages, self.before)
    }

    // Where it takes memory.
    pub(crate) fn alloc(&self) -> Global {
        *self.pages.allocator()
    }
}

// How many entries are still to come. An error where they are past counting.
fn count<K, A>(entries: DatedEntries<'_, K, A>) -> Result<usize, AllocError>
    ensures { IfOk result (λ count. count ≡ length entries.entry) }
{
    let mut left = entries;
    let mut count: usize = 0;
    'entries: while let Some(_entry) = left.next() {
        count = count.checked_add(1).ok_or(AllocError)?;
    }
    Ok(count)
}

// The entries of some pages before a date that are still to come.
pub(crate) struct DatedEntries<'a, K, A> {
    left: PagedEntries<'a, K, A>,
    before: usize,
}

impl<'a, K, A> Model for DatedEntries<'a, K, A> {
    ghost use Rattle.std.specs.Prelude.{List, Option};
    ghost use Rattle.idl_memo.specs.Dated.{entries_before};

    ghost Value = { List (K × Option A) };

    ghost view = { λ entries. entries_before entries.before entries.left };
}

impl<'a, K, A> Drop for DatedEntries<'a, K, A> {
    fn drop(self) {
        let DatedEntries {
            left: _left,
            before: _before,
        } = self;
    }
}

impl<'a, K, A> DatedEntries<'a, K, A> {
    // Those of these pages before a date.
    pub(crate) fn new(pages: &'a [Page<K, A>], before: usize) -> DatedEntries<'a, K, A>
        ensures { result ≡ entries_before before (dated_on pages.now) }
    {
        let left = PagedEntries { page: &[], pages };
        DatedEntries { left, before }
    }

    // The first of them, which is passed.
    pub(crate) fn next(&mut self) -> Option<(&'a K, Option<&'a A>)>
        ensures first { IfSome result (λ e. self.old ≡ (e.0.now, option_copied e.1) ∷ self.new) }
        ensures none { IfNone result (self.old ≡ []) }
    {
        'entries: while let Some(entry) = self.left.next() {
            if entry.date < self.before {
                return Some((&entry.key, entry.answer.as_ref()));
            }
        }
        None
    }
}

// The entries of some pages that are still to come: those of a page, and of the pages behind it.
struct PagedEntries<'a, K, A> {
    page: &'a [Dated<K, A>],
    pages: &'a [Page<K, A>],
}

impl<'a, K, A> Model for PagedEntries<'a, K, A> {
    ghost use Rattle.std.specs.Prelude.{◌++◌, List};
    ghost use Rattle.idl_memo.specs.Dated.{dated_on};
    ghost use Rattle.idl_memo.specs.declared.dated.Dated.{Dated};

    ghost Value = { List (Dated K A) };

    ghost view = { λ left. left.page.now ++ dated_on left.pages.now };
}

impl<'a, K, A> Drop for PagedEntries<'a, K, A> {
    fn drop(self) {
        let PagedEntries {
            page: _page,
            pages: _pages,
        } = self;
    }
}

impl<'a, K, A> PagedEntries<'a, K, A> {
    // The first of them, which is passed.
    fn next(&mut self) -> Option<&'a Dated<K, A>>
        ensures first { IfSome result (λ e. self.old ≡ e.now ∷ self.new) }
        ensures none { IfNone result (self.old ≡ []) }
    {
        'pages: loop {
            if let Some((first, behind)) = self.page.split_first() {
                self.page = behind;
                return Some(first);
            }
            let (page, behind) = self.pages.split_first()?;
            self.page = page.as_slice();
            self.pages = behind;
        }
    }
}
