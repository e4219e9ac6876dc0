//! Runs that are known, of which others are made.

ghost use Rattle.std.specs.Prelude.{◌≡◌, ◌+◌, ◌++◌, ◌<◌, ◌≤◌, [], None, IfOk, IfSome, OnOk, drop, flat_map, length, reverse, take};
ghost use Rattle.idl_memo.specs.Parts.{part_entries};

use crate::bank::Bank;
use crate::log::copied;
use crate::run::{LogPart, Part, Run};
use crate::step::Step;
use crate::steps::Steps;
use idl_map::SharedList;
use std::alloc::{AllocError, Global};
use std::collections::BTreeMap;
use std::rc::Rc;

// Fewer steps make no run.
const LEAST: usize = 4;

/// Steps that logs have, by the mark of the first of them. Logs that are kept share what is there.
///
/// Nothing is said of what is known: what a log takes of it is compared with its entries.
pub struct Runs<B: Bank> {
    known: BTreeMap<u64, Steps<B::Step>>,
}

impl<B: Bank> Drop for Runs<B> {
    fn drop(self) {
        let Runs { known: _known } = self;
    }
}

// The steps with which entries begin: some, behind them so many of those that are known, and the entries behind all of these.
struct Front<'e, B: Bank> {
    first: Vec<B::Step>,
    known: Steps<B::Step>,
    count: usize,
    behind: &'e [(B::Key, Option<B::Answer>)],
}

impl<'e, B: Bank> Drop for Front<'e, B> {
    fn drop(self) {
        let Front {
            first: _first,
            known: _known,
            count: _count,
            behind: _behind,
        } = self;
    }
}

impl<'e, B: Bank> Front<'e, B> {
    // The first, and those that are known.
    fn into_steps(self) -> (Vec<B::Step>, Steps<B::Step>)
        ensures { result ≡ (self.entry.first, self.entry.known) }
    {
        let Front {
            first,
            known,
            count: _count,
            behind: _behind,
        } = self;
        (first, known)
    }
}

impl<B: Bank> Runs<B> {
    /// None is known. It takes no memory.
    pub fn new(alloc: Global) -> Runs<B> {
        Runs {
            known: BTreeMap::new(alloc),
        }
    }

    /// None is known any more, if more than so many were. It takes no memory.
    pub fn forget_beyond(&mut self, most: usize) {
        if self.known.len() > most {
            self.known.clear();
        }
    }

    /// Puts the parts of a log with these entries behind others.
    pub(crate) fn append_parts(
        &mut self,
        alloc: Global,
        entries: &[(B::Key, Option<B::Answer>)],
        parts: &mut Vec<LogPart<B>>,
    ) -> Result<(), AllocError>
        ensures { OnOk result (flat_map part_entries parts.new.items
            ≡ flat_map part_entries parts.old.items ++ entries.now) }
    {
        let mut rest = entries;
        'entries: while let Some((part, behind)) = self.next(alloc, rest)? {
            parts.push(part)?;
            rest = behind;
        }
        Ok(())
    }

    // The part with which these entries begin, and those behind it; nothing where there is no entry.
    fn next<'e>(
        &mut self,
        alloc: Global,
        entries: &'e [(B::Key, Option<B::Answer>)],
    ) -> Result<Option<(LogPart<B>, &'e [(B::Key, Option<B::Answer>)])>, AllocError>
        ensures whole { IfOk result (λ found. IfSome found (λ f.
            entries.now ≡ part_entries f.0 ++ f.1.now)) }
        ensures fewer { IfOk result (λ found. IfSome found (λ f.
            length f.1.now < length entries.now)) }
        ensures none { IfOk result (λ found. found ≡ None → entries.now ≡ []) }
    {
        if let Some((run, behind)) = self.run(alloc, entries)? {
            return Ok(Some((Part::Many(run), behind)));
        }
        let Some((entry, others)) = entries.split_first() else {
            return Ok(None);
        };
        let answer = copied(entry.1.as_ref())?;
        Ok(Some((Part::One(entry.0.clone()?, answer), others)))
    }

    // A run with which these entries begin, if there is one, and those behind it.
    fn run<'e>(
        &mut self,
        alloc: Global,
        entries: &'e [(B::Key, Option<B::Answer>)],
    ) -> Result<Option<(Run<B>, &'e [(B::Key, Option<B::Answer>)])>, AllocError>
        ensures whole { IfOk result (λ found. IfSome found (λ f. entries.now ≡ f.0 ++ f.1.now)) }
        ensures fewer { IfOk result (λ found. IfSome found (λ f.
            length f.1.now < length entries.now)) }
    {
        let Some(head) = B::Step::head(alloc, entries)? else {
            return Ok(None);
        };
        let front = self.front(alloc, &head, entries)?;
        let behind = front.behind;
        let count = front.first.len() + front.count;
        if count < LEAST || behind.len() >= entries.len() {
            return Ok(None);
        }
        let len = entries.len() - behind.len();
        let steps = self.all(alloc, front)?;
        Ok(Some((Run::new(head, steps, count, len), behind)))
    }

    // The steps with which these entries begin: as far as the first that is known, and those behind that agree.
    fn front<'e>(
        &self,
        alloc: Global,
        head: &B::Head,
        entries: &'e [(B::Key, Option<B::Answer>)],
    ) -> Result<Front<'e, B>, AllocError>
        ensures whole { IfOk result (λ front. entries.now
            ≡ flat_map (B.Step.logged head.now) (front.first.items ++ take front.count front.known)
            ++ front.behind.now) }
        ensures count { IfOk result (λ front. length front.first.items + front.count
            + length front.behind.now ≤ length entries.now) }
    {
        let width = B::Step::width(head).unwrap_or(0);
        let mut first = Vec::new(alloc);
        let mut rest = entries;
        'steps: while width > 0 && rest.len() >= width {
            if let Some((known, count, behind)) = self.known_at(head, rest, first.is_empty())? {
                return Ok(Front {
                    first,
                    known,
                    count,
                    behind,
                });
            }
            let Some(step) = B::Step::first(head, rest)? else {
                return Ok(alone(first, rest));
            };
            first.push(step)?;
            rest = past(rest, width);
        }
        Ok(alone(first, rest))
    }

    // The known steps that begin as these entries do, with how many of them the entries begin, and the entries behind.
    fn known_at<'e>(
        &self,
        head: &B::Head,
        entries: &'e [(B::Key, Option<B::Answer>)],
        is_front: bool,
    ) -> Result<Option<(Steps<B::Step>, usize, &'e [(B::Key, Option<B::Answer>)])>, AllocError>
        ensures whole { IfOk result (λ found. IfSome found (λ f. entries.now
            ≡ flat_map (B.Step.logged head.now) (take f.1 f.0) ++ f.2.now)) }
        ensures count { IfOk result (λ found. IfSome found (λ f.
            f.1 + length f.2.now ≤ length entries.now)) }
    {
        let Some(mark) = B::Step::first_mark(head, entries) else {
            return Ok(None);
        };
        let Some(known) = self.known.get(&mark) else {
            return Ok(None);
        };
        if !is_front && known.is_block() {
            return Ok(None);
        }
        let (count, behind) = agreed::<B>(head, known, entries);
        if count < LEAST {
            return Ok(None);
        }
        Ok(Some((known.clone()?, count, behind)))
    }

    // The first steps, and behind them those that are known. Where none are known, those that are told at little cost are known
    // from now on, each with those behind it.
    fn all(&mut self, alloc: Global, front: Front<'_, B>) -> Result<Steps<B::Step>, AllocError>
        ensures { IfOk result (λ steps. steps ≡ front.entry.first.items ++ front.entry.known) }
    {
        let (first, known) = front.into_steps();
        if first.is_empty() {
            return Ok(known);
        }
        if known.is_empty() && !first.iter().all(|step| step.is_told()) {
            return self.in_block(alloc, first);
        }
        match known.into_list() {
            Ok(list) => self.listed(alloc, first, list),
            Err(block) => {
                let mut first = first;
                block.append_to(&mut first)?;
                self.in_block(alloc, first)
            }
        }
    }

    // These steps in front of a list.
    fn listed(
        &mut self,
        alloc: Global,
        first: Vec<B::Step>,
        list: SharedList<B::Step>,
    ) -> Result<Steps<B::Step>, AllocError>
        ensures { IfOk result (λ steps. steps ≡ first.items ++ reverse list) }
    {
        let mut first = first;
        let mut list = list;
        'steps: while let Some(step) = first.pop() {
            let mark = step.mark();
            list.push(alloc, step)?;
            self.known.insert(mark, Steps::listed(list.clone()?))?;
        }
        Ok(Steps::listed(list))
    }

    // These steps in a block.
    fn in_block(&mut self, alloc: Global, first: Vec<B::Step>) -> Result<Steps<B::Step>, AllocError>
        ensures { IfOk result (λ steps. steps ≡ first.items) }
    {
        let mark = mark_of::<B>(&first);
        let mut first = first;
        first.shrink_to_fit();
        let steps = Steps::block(Rc::new(alloc, first)?);
        if let Some(mark) = mark {
            self.known.insert(mark, steps.clone()?)?;
        }
        Ok(steps)
    }
}

// Steps behind which none is known.
fn alone<'e, B: Bank>(
    first: Vec<B::Step>,
    behind: &'e [(B::Key, Option<B::Answer>)],
) -> Front<'e, B>
    ensures first { result.first.items ++ take result.count result.known ≡ first.items }
    ensures count { result.count ≡ 0 }
    ensures same { result.first.items ≡ first.items }
    ensures behind { result.behind.now ≡ behind.now }
{
    Front {
        first,
        known: Steps::listed(SharedList::new()),
        count: 0,
        behind,
    }
}

// The entries behind so many.
fn past<E>(entries: &[E], count: usize) -> &[E]
    requires { count ≤ length entries.now }
    ensures entries { result.now ≡ drop count entries.now }
    ensures fewer { length result.now + count ≡ length entries.now }
{
    &entries[count..]
}

// The mark of the first of these steps.
fn mark_of<B: Bank>(steps: &[B::Step]) -> Option<u64> {
    Some(steps.first()?.mark())
}

// With how many of these steps the entries begin, and the entries behind.
fn agreed<'e, B: Bank>(
    head: &B::Head,
    steps: &Steps<B::Step>,
    entries: &'e [(B::Key, Option<B::Answer>)],
) -> (usize, &'e [(B::Key, Option<B::Answer>)])
    ensures whole { entries.now
        ≡ flat_map (B.Step.logged head.now) (take result.0 steps.now) ++ result.1.now }
    ensures count { result.0 + length result.1.now ≤ length entries.now }
{
    let width = B::Step::width(head).unwrap_or(0);
    let mut behind = steps.lent();
    let mut rest = entries;
    let mut count = 0;
    'steps: while let Some((step, others)) = behind.split_first() {
        if width == 0 || rest.len() < width || !step.is_first(head, rest) {
            return (count, rest);
        }
        rest = past(rest, width);
        behind = others;
        count += 1;
    }
    (count, rest)
}
