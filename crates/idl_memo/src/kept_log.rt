//! What a kept task asked of its bank.

ghost use Rattle.std.specs.Prelude.{◌≡◌, ◌++◌, All, IfOk, IsFalse, OnOk, Option, flat_map, length, map, slice_get};
ghost use Rattle.std.specs.Option.{option_copied, option_map, option_to_list};
ghost use Rattle.idl_memo.specs.Dated.{dated_on, entries_before};
ghost use Rattle.idl_memo.specs.Query.{is_logged};
ghost use Rattle.idl_memo.specs.Parts.{part_entries};
ghost use Rattle.idl_memo.specs.Runs.{first_other, other_at};

use crate::bank::{Bank, LentBank, PlainBank};
use crate::dated::{DatedLog, LogPage};
use crate::lent_parts::{LentParts, append_part, has, other_in, shares_in};
use crate::log::is_same;
use crate::log_entries::LogEntries;
use crate::parted::Parted;
use crate::run::LogPart;
use crate::step::Digests;
use idl_base::Datum;
use idl_map::Digest;
use std::alloc::{AllocError, Global};
use std::marker::Model;

/// The keys asked of a bank with their answers, as a kept result has them. To every contract it is the list of its entries.
///
/// It takes what memory the entries need. Where they are many, the digests of the keys stand by themselves too, for whoever looks
/// for a key; and what steps of runs stand for is held once for all logs that have it. So are entries on pages: logs that begin at
/// other dates share them.
pub struct KeptLog<B: Bank> {
    form: Form<(B::Key, Option<B::Answer>), Digested<B>, Parted<B>, DatedLog<B>>,
}

// How entries are held.
#[derive(Drop)]
enum Form<E, D, P, L> {
    /// One after another.
    Plain(Vec<E>),
    /// The same, and the digests of their keys by themselves.
    Digested(Box<D>),
    /// By parts, some of which are runs.
    Parted(Box<P>),
    /// On pages that logs share.
    Dated(Box<L>),
}

// Entries, and the digests of their keys.
struct Digested<B: Bank> {
    digests: Vec<u64>,
    entries: Vec<(B::Key, Option<B::Answer>)>,
}

impl<B: Bank> Drop for Digested<B> {
    fn drop(self) {
        let Digested {
            digests: _digests,
            entries: _entries,
        } = self;
    }
}

impl<B: Bank> Drop for KeptLog<B> {
    fn drop(self) {
        let KeptLog { form: _form } = self;
    }
}

// So many entries are gone through by themselves.
const FEW: usize = 32;

impl<B: Bank> Model for Digested<B> {
    ghost use Rattle.std.specs.Prelude.{◌≡◌, List, Option, map};

    ghost Value = { List (B.Key × Option B.Answer) };

    ghost view = { λ both. both.entries.items };

    ghost invariant = { λ both. both.digests.items ≡ map (λ e. B.Key.digest_of e.0) both.entries.items };
}

impl<B: Bank> Model for KeptLog<B> {
    ghost use Rattle.std.specs.Prelude.{List, Option};
    ghost use Rattle.idl_memo.specs.Forms.{form_entries};

    ghost Value = { List (B.Key × Option B.Answer) };

    ghost view = { λ log. form_entries log.form };
}

impl<B: Bank> KeptLog<B> {
    // The log of these entries.
    pub(crate) fn of(
        alloc: Global,
        entries: Vec<(B::Key, Option<B::Answer>)>,
    ) -> Result<KeptLog<B>, AllocError>
        ensures { IfOk result (λ log. log ≡ entries.items) }
    {
        if entries.len() <= FEW {
            return Ok(KeptLog {
                form: Form::Plain(entries),
            });
        }
        let digests = digests_of(alloc, &entries)?;
        let both = Box::new(alloc, Digested { digests, entries })?;
        Ok(KeptLog {
            form: Form::Digested(both),
        })
    }

    // The log of these parts, which have so many entries.
    pub(crate) fn parted(
        alloc: Global,
        parts: Vec<LogPart<B>>,
        len: usize,
    ) -> Result<KeptLog<B>, AllocError>
        requires { len ≡ length (flat_map part_entries parts.items) }
        ensures { IfOk result (λ log. log ≡ flat_map part_entries parts.items) }
    {
        let parted = Box::new(alloc, Parted { parts, len })?;
        Ok(KeptLog {
            form: Form::Parted(parted),
        })
    }

    /// The log of the entries of these pages before a date, which it shares with other logs.
    pub fn dated(
        alloc: Global,
        pages: Vec<LogPage<B>>,
        before: usize,
    ) -> Result<KeptLog<B>, AllocError>
        ensures { IfOk result (λ log. log ≡ entries_before before (dated_on pages.items)) }
    {
        let log = Box::new(alloc, DatedLog::new(pages, before)?)?;
        Ok(KeptLog {
            form: Form::Dated(log),
        })
    }

    /// How many keys were asked.
    pub fn len(&self) -> usize
        ensures { result ≡ length self.now }
    {
        match &self.form {
            Form::Plain(entries) => entries.len(),
            Form::Digested(both) => both.entries.len(),
            Form::Parted(parted) => parted.len,
            Form::Dated(log) => log.len(),
        }
    }

    /// Whether a key was asked, with an answer or without. It takes no memory, and reads the digests of the keys.
    pub fn contains(&self, key: &B::Key) -> bool
        ensures { result ≡ is_logged B.Key.eq self.now key.now }
    {
        if let Form::Digested(both) = &self.form {
            return both.contains(key);
        }
        let alloc = self.alloc();
        let mut left = self.parts();
        'parts: while let Some(part) = left.next() {
            if has(alloc, part, key) {
                return true;
            }
        }
        false
    }

    /// The first of the answers that isn't the bank's, with the bank's.
    pub fn first_other<'a>(
        &'a self,
        bank: &'a B,
    ) -> Option<(Option<&'a B::Answer>, Option<&'a B::Answer>)>
    where
        B: LentBank,
        ensures { option_map (λ p. (option_copied p.0, option_copied p.1)) result
            ≡ first_other B.Answer.eq (B.at bank.now) self.now }
    {
        let alloc = self.alloc();
        let mut left = self.parts();
        'parts: while let Some(part) = left.next() {
            let other = other_in(alloc, part, bank);
            if other.is_some() {
                return other;
            }
        }
        None
    }

    /// Whether a digest of one of the keys may be among these.
    pub fn shares<D: Digests>(&self, digests: &D) -> bool
        ensures { IsFalse result
            → All (λ e. D.has digests.now (B.Key.digest_of e.0) → ⊥) self.now }
    {
        let alloc = self.alloc();
        let mut left = self.parts();
        'parts: while let Some(part) = left.next() {
            if shares_in(alloc, part, digests) {
                return true;
            }
        }
        false
    }

    /// The entries, one after another: lent where each stands by itself, and else copies of them in this room.
    pub fn entries_in<'a>(
        &'a self,
        alloc: Global,
        room: &'a mut Vec<(B::Key, Option<B::Answer>)>,
    ) -> Result<&'a [(B::Key, Option<B::Answer>)], AllocError>
        ensures { IfOk result (λ entries. entries.now ≡ self.now) }
    {
        match &self.form {
            Form::Plain(entries) => Ok(entries),
            Form::Digested(both) => Ok(&both.entries),
            _ => {
                room.clear();
                self.append_to(alloc, room)?;
                Ok(room)
            }
        }
    }

    // Puts copies of the entries behind others.
    fn append_to(
        &self,
        alloc: Global,
        entries: &mut Vec<(B::Key, Option<B::Answer>)>,
    ) -> Result<(), AllocError>
        ensures { OnOk result (entries.new.items ≡ entries.old.items ++ self.now) }
    {
        let mut left = self.parts();
        'parts: while let Some(part) = left.next() {
            append_part(alloc, part, entries)?;
        }
        Ok(())
    }

    // Its parts, lent.
    fn parts(&self) -> LentParts<'_, B>
        ensures { result.entries ≡ self.now }
    {
        match &self.form {
            Form::Plain(entries) => LentParts::plain(entries),
            Form::Digested(both) => LentParts::plain(&both.entries),
            Form::Parted(parted) => LentParts::parted(&parted.parts),
            Form::Dated(log) => LentParts::dated(log.entries()),
        }
    }

    // Where it takes memory.
    fn alloc(&self) -> Global {
        match &self.form {
            Form::Plain(entries) => *entries.allocator(),
            Form::Digested(both) => *both.entries.allocator(),
            Form::Parted(parted) => *parted.parts.allocator(),
            Form::Dated(log) => log.alloc(),
        }
    }
}

impl<B: PlainBank> KeptLog<B> {
    /// The key at a place in the order, with its answer, or nothing past the last.
    pub fn get(&self, index: usize) -> Option<(&B::Key, Option<&B::Answer>)>
        ensures { option_map (λ e. (e.0.now, option_copied e.1)) result ≡ slice_get self.now index }
    {
        match &self.form {
            Form::Plain(entries) => entry_at(entries, index),
            Form::Digested(both) => entry_at(&both.entries, index),
            _ => nth(self.entries(), index),
        }
    }

    /// The entries, one after another. It takes no memory.
    pub fn entries(&self) -> LogEntries<'_, B>
        ensures { result ≡ self.now }
    {
        LogEntries::of(self.parts())
    }
}

impl<B: Bank> Digested<B> {
    // Whether a key is one of theirs: the digests tell most that aren't.
    fn contains(&self, key: &B::Key) -> bool
        ensures { result ≡ is_logged B.Key.eq self.now key.now }
    {
        let digest = key.digest();
        for place in 0..self.len() {
            if self.is_at(place, key, digest) {
                return true;
            }
        }
        false
    }

    // How many they are.
    fn len(&self) -> usize
        ensures { result ≡ length self.now }
    {
        self.entries.len()
    }

    // Whether the key at a place is this one of this digest.
    fn is_at(&self, place: usize, key: &B::Key, digest: u64) -> bool
        requires { digest ≡ B.Key.digest_of key.now }
        ensures { result ≡ is_logged B.Key.eq (option_to_list (slice_get self.now place)) key.now }
    {
        match self.entries.get(place) {
            Some(entry) => self.digest(place) == Some(digest) && *key == entry.0,
            None => false,
        }
    }

    // The digest of the key at a place, or nothing past the last.
    fn digest(&self, place: usize) -> Option<u64>
        ensures { result ≡ option_map (λ e. B.Key.digest_of e.0) (slice_get self.now place) }
    {
        self.digests.get(place).copied()
    }
}

/// An answer and the one that is found in its place, where that is another.
pub fn other_at<'a, A: Datum>(
    answer: Option<&'a A>,
    found: Option<&'a A>,
) -> Option<(Option<&'a A>, Option<&'a A>)>
    ensures { option_map (λ p. (option_copied p.0, option_copied p.1)) result
        ≡ other_at A.eq (option_copied answer.entry) (option_copied found.entry) }
{
    if is_same(found, answer) {
        return None;
    }
    Some((answer, found))
}

// The entry at a place, or nothing past the last.
fn entry_at<K, A>(entries: &[(K, Option<A>)], index: usize) -> Option<(&K, Option<&A>)>
    ensures { option_map (λ e. (e.0.now, option_copied e.1)) result ≡ slice_get entries.now index }
{
    let (key, answer) = entries.get(index)?;
    Some((key, answer.as_ref()))
}

// The entry behind so many of these, or nothing past the last.
fn nth<'a, B: PlainBank>(
    entries: LogEntries<'a, B>,
    index: usize,
) -> Option<(&'a B::Key, Option<&'a B::Answer>)>
    ensures { option_map (λ e. (e.0.now, option_copied e.1)) result ≡ slice_get entries.entry index }
{
    let mut left = entries;
    let mut before = index;
    'entries: while let Some(entry) = left.next() {
        if before == 0 {
            return Some(entry);
        }
        before -= 1;
    }
    None
}

// The digests of the keys of these entries.
fn digests_of<K: Digest, V>(alloc: Global, entries: &[(K, V)]) -> Result<Vec<u64>, AllocError>
    ensures { IfOk result (λ digests. digests.items ≡ map (λ e. K.digest_of e.0) entries.now) }
{
    let mut digests = Vec::with_capacity(alloc, entries.len())?;
    for entry in entries {
        digests.push(entry.0.digest())?;
    }
    Ok(digests)
}
