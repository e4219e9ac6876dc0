//! The parts of a kept log, lent one after another, however its entries are held.

ghost use Rattle.std.specs.Prelude.{◌≡◌, ◌++◌, ◌<◌, [], All, IfNone, IfSome, IsFalse, OnOk, Option, flat_map};
ghost use Rattle.std.specs.Option.{option_copied, option_map};
ghost use Rattle.idl_memo.specs.Parts.{lent_entries, part_entries};
ghost use Rattle.idl_memo.specs.Query.{is_logged};
ghost use Rattle.idl_memo.specs.Runs.{first_other};

use crate::bank::{Bank, LentBank};
use crate::dated::DatedEntries;
use crate::kept_log::other_at;
use crate::log::push_copy;
use crate::run::{LogPart, Part, Run};
use crate::step::Digests;
use idl_map::Digest;
use std::alloc::{AllocError, Global};
use std::marker::Model;

/// A part of a log that is lent.
pub(crate) type LentPart<'a, B> = Part<&'a <B as Bank>::Key, &'a <B as Bank>::Answer, &'a Run<B>>;

/// The parts of a log that are still to come. To every contract it is the list of their entries, and how many parts they are.
pub(crate) struct LentParts<'a, B: Bank> {
    left: Left<'a, B>,
}

// By how the entries are held, those that are still to come.
type Left<'a, B> = Held<
    'a,
    (<B as Bank>::Key, Option<<B as Bank>::Answer>),
    LogPart<B>,
    DatedEntries<'a, <B as Bank>::Key, <B as Bank>::Answer>,
>;

// How entries are held.
#[derive(Drop)]
enum Held<'a, E, P, D> {
    /// One after another: each is a part.
    Plain(&'a [E]),
    /// By parts.
    Parted(&'a [P]),
    /// On pages that logs share: each is a part.
    Dated(D),
}

impl<'a, B: Bank> Model for LentParts<'a, B> {
    ghost use Rattle.idl_memo.specs.Forms.{PartsLeft, held_parts};

    ghost Value = { PartsLeft B.Key B.Answer };

    ghost view = { λ parts. held_parts parts.left };
}

impl<'a, B: Bank> Drop for LentParts<'a, B> {
    fn drop(self) {
        let LentParts { left: _left } = self;
    }
}

impl<'a, B: Bank> LentParts<'a, B> {
    /// Those of entries that stand one after another.
    pub(crate) fn plain(entries: &'a [(B::Key, Option<B::Answer>)]) -> LentParts<'a, B>
        ensures { result.entries ≡ entries.now }
    {
        LentParts {
            left: Held::Plain(entries),
        }
    }

    /// These.
    pub(crate) fn parted(parts: &'a [LogPart<B>]) -> LentParts<'a, B>
        ensures { result.entries ≡ flat_map part_entries parts.now }
    {
        LentParts {
            left: Held::Parted(parts),
        }
    }

    /// Those of entries on pages.
    pub(crate) fn dated(entries: DatedEntries<'a, B::Key, B::Answer>) -> LentParts<'a, B>
        ensures { result.entries ≡ entries.entry }
    {
        LentParts {
            left: Held::Dated(entries),
        }
    }

    /// The first of them, which is passed, or nothing behind the last.
    #[inline]
    pub(crate) fn next(&mut self) -> Option<LentPart<'a, B>>
        ensures first { IfSome result (λ part. self.old.entries
            ≡ lent_entries part ++ self.new.entries) }
        ensures fewer { IfSome result (λ part. self.new.count < self.old.count) }
        ensures none { IfNone result (self.old.entries ≡ []) }
    {
        match &mut self.left {
            Held::Plain(entries) => {
                let (first, behind) = entries.split_first()?;
                *entries = behind;
                Some(Part::One(&first.0, first.1.as_ref()))
            }
            Held::Parted(parts) => {
                let (first, behind) = parts.split_first()?;
                *parts = behind;
                Some(lent(first))
            }
            Held::Dated(entries) => {
                let (key, answer) = entries.next()?;
                Some(Part::One(key, answer))
            }
        }
    }
}

// A part, lent.
fn lent<'a, B: Bank>(part: &'a LogPart<B>) -> LentPart<'a, B>
    ensures { lent_entries result ≡ part_entries part.now }
{
    match part {
        Part::One(key, answer) => Part::One(key, answer.as_ref()),
        Part::Many(run) => Part::Many(run),
    }
}

/// Whether a key is among those of a part.
pub(crate) fn has<'a, B: Bank>(alloc: Global, part: LentPart<'a, B>, key: &B::Key) -> bool
    ensures { result ≡ is_logged B.Key.eq (lent_entries part.entry) key.now }
{
    match part {
        Part::One(own, _answer) => *key == *own,
        Part::Many(run) => run.has(alloc, key),
    }
}

/// The first of the answers of a part that isn't the bank's, with the bank's.
pub(crate) fn other_in<'a, B: LentBank>(
    alloc: Global,
    part: LentPart<'a, B>,
    bank: &'a B,
) -> Option<(Option<&'a B::Answer>, Option<&'a B::Answer>)>
    ensures { option_map (λ p. (option_copied p.0, option_copied p.1)) result
        ≡ first_other B.Answer.eq (B.at bank.now) (lent_entries part.entry) }
{
    match part {
        Part::One(key, answer) => other_at(answer, bank.answer(key)),
        Part::Many(run) => run.first_other(alloc, bank),
    }
}

/// Whether a digest of one of the keys of a part may be among these.
pub(crate) fn shares_in<'a, B: Bank, D: Digests>(
    alloc: Global,
    part: LentPart<'a, B>,
    digests: &D,
) -> bool
    ensures { IsFalse result
        → All (λ e. D.has digests.now (B.Key.digest_of e.0) → ⊥) (lent_entries part.entry) }
{
    match part {
        Part::One(key, _answer) => digests.has(key.digest()),
        Part::Many(run) => run.shares(alloc, digests),
    }
}

/// Puts copies of the entries of a part behind others.
pub(crate) fn append_part<'a, B: Bank>(
    alloc: Global,
    part: LentPart<'a, B>,
    entries: &mut Vec<(B::Key, Option<B::Answer>)>,
) -> Result<(), AllocError>
    ensures { OnOk result
        (entries.new.items ≡ entries.old.items ++ lent_entries part.entry) }
{
    match part {
        Part::One(key, answer) => push_copy(entries, key, answer),
        Part::Many(run) => run.append_to(alloc, entries),
    }
}
