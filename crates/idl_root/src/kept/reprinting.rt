//! What was kept of the names of a root, gone through beside the names that are listed now.

ghost use Rattle.std.specs.Prelude.{◌≡◌, ℕ, IfNone, IfOk, IfSome, List, OnErr, Some};
ghost use Rattle.idl_env.specs.Facts.{UnitFacts, answers};
ghost use Rattle.idl_store.specs.Stored.{result_at};
ghost use Rattle.idl_root.specs.Followed.{AreBeside, IsPrintedAt, IsTakenAgain};
ghost use Rattle.idl_root.specs.Places.{EntryPlace};
ghost use Rattle.idl_root.specs.Results.{EntryResult, entry_result};

use crate::kept::changed::Changed;
use crate::kept::keeper::{Entries, KeptEntry};
use crate::kept::reading::entry_at;
use idl_entity::Path;
use std::alloc::AllocError;
use std::rc::Rc;

/// The names as they were that are still to come, behind all units.
pub struct Reprinting {
    // The list of the root, and the place in it of the next of them.
    list: usize,
    place: usize,
    // Digests of the keys that may be answered otherwise than they were over the facts of before.
    changed: Changed,
    // How many more names there were, and how many more there are.
    less: usize,
    more: usize,
}

impl Drop for Reprinting {
    fn drop(self) {
        let Reprinting {
            list: _list,
            place: _place,
            changed: _changed,
            less: _less,
            more: _more,
        } = self;
    }
}

impl Reprinting {
    /// Before the first of so many names, where there were so many, which are kept in this list.
    pub fn new(list: usize, changed: Changed, before: usize, count: usize) -> Reprinting
        ensures list { result.list ≡ list }
        ensures changed { result.changed ≡ changed }
    {
        Reprinting {
            list,
            place: 0,
            changed,
            less: before.saturating_sub(count),
            more: count.saturating_sub(before),
        }
    }

    /// The entry of the name at a path, which is listed next, if nothing that it asked has changed. It goes into the last draft too.
    ///
    /// Want of memory leaves what is kept as it was.
    pub fn take_again(
        &mut self,
        kept: &mut Entries,
        path: &Path,
    ) -> Result<Option<Rc<KeptEntry>>, AllocError>
        ensures none { IfOk result (λ found. IfNone found (kept.new ≡ kept.old)) }
        ensures again { IfOk result (λ found. IfSome found (λ k. (facts : List UnitFacts)
            → AreBeside kept.old.lists self.old facts
            → let here : EntryPlace = (path.now, answers facts) in
            IsTakenAgain here (entry_result here) kept.old kept.new k.value)) }
        ensures rest { (lists : List (List EntryResult)) (facts : List UnitFacts)
            → AreBeside lists self.old facts → AreBeside lists self.new facts }
        ensures err { OnErr result (kept.new ≡ kept.old) }
    {
        match self.place_of(kept, path) {
            Some((list, place)) => kept.take_again(list, place),
            None => Ok(None),
        }
    }

    // Where the entry of the name at a path stands, which is listed next, if nothing that it asked has changed.
    fn place_of(&mut self, kept: &Entries, path: &Path) -> Option<(usize, usize)>
        ensures printed { IfSome result (λ place. IsPrintedAt kept.now self.old path.now place) }
        ensures list { self.new.list ≡ self.old.list }
        ensures changed { self.new.changed ≡ self.old.changed }
    {
        let place = self.next_at(kept, path)?;
        let entry = entry_at(kept, self.list, place)?;
        if !self.changed.shares_none_of(entry.log()) {
            return None;
        }
        Some((self.list, place))
    }

    // The place of the name at a path, which is listed next.
    fn next_at(&mut self, kept: &Entries, path: &Path) -> Option<usize>
        ensures found { IfSome result (λ place. (k : EntryResult)
            × ((result_at kept.now self.old.list place ≡ Some k) × (k.text ≡ path.now))) }
        ensures list { self.new.list ≡ self.old.list }
        ensures changed { self.new.changed ≡ self.old.changed }
    {
        while let Some(first) = entry_at(kept, self.list, self.place) {
            let place = self.place;
            if *first.text() == *path {
                self.pass();
                return Some(place);
            }
            if self.less == 0 {
                self.pass_other();
                return None;
            }
            self.less -= 1;
            self.pass();
        }
        None
    }

    // Behind the next name.
    fn pass(&mut self)
        ensures list { self.new.list ≡ self.old.list }
        ensures changed { self.new.changed ≡ self.old.changed }
        ensures less { self.new.less ≡ self.old.less }
    {
        self.place = self.place.saturating_add(1);
    }

    // Behind a name of which nothing was kept: it is one more, or has taken another one's place.
    fn pass_other(&mut self)
        ensures list { self.new.list ≡ self.old.list }
        ensures changed { self.new.changed ≡ self.old.changed }
    {
        if self.more > 0 {
            self.more -= 1;
        } else {
            self.pass();
        }
    }
}
