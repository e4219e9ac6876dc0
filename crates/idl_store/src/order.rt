//! The order of kept results, by which they are found.
//!
//! In a bucket results stand in the order of texts, and of one text of the answers in their logs. A look-up asks the
//! bank what a log asked: of one text the next key follows from the answers so far. So this leads to the alike result,
//! as a law says, and few are compared. Nothing rests on which orders these are.

ghost use Rattle.std.specs.Prelude.{◌≡◌};
ghost use Rattle.std.specs.Option.{option_cmp};
ghost use Rattle.idl_store.specs.Order.{bank_cmp, logs_cmp, place_cmp, results_cmp};

use idl_memo::{Kept, KeptLog, LentBank, PlainBank};
use std::cmp::Ordering;

// How a kept result stands to a place: by the texts, and then by the first of its answers that isn't the bank's.
pub(crate) fn order_at<B: LentBank, X: Ord, O>(kept: &Kept<B, X, O>, text: &X, bank: &B) -> Ordering
where
    B::Answer: Ord,
    ensures { result
        ≡ place_cmp X.cmp (option_cmp B.Answer.cmp) kept.now text.now (B.at bank.now) }
{
    if *kept.text() != *text {
        return kept.text().cmp(text);
    }
    order_in(kept.log(), bank)
}

// How a log stands to a bank: by the first of its answers that isn't the bank's.
fn order_in<B: LentBank>(log: &KeptLog<B>, bank: &B) -> Ordering
where
    B::Answer: Ord,
    ensures { result ≡ bank_cmp (option_cmp B.Answer.cmp) log.now (B.at bank.now) }
{
    match log.first_other(bank) {
        Some((logged, found)) => logged.cmp(&found),
        None => Ordering::Equal,
    }
}

// How a kept result stands to another: by the texts, and then by the first of their answers that differ.
pub(crate) fn order_of<B: PlainBank, X: Ord, O>(
    kept: &Kept<B, X, O>,
    other: &Kept<B, X, O>,
) -> Ordering
where
    B::Answer: Ord,
    ensures { result ≡ results_cmp X.cmp (option_cmp B.Answer.cmp) kept.now other.now }
{
    if *kept.text() != *other.text() {
        return kept.text().cmp(other.text());
    }
    order_of_logs(kept.log(), other.log())
}

// How a log stands to another: by the first of their answers that differ, and a log that goes on behind one that ends comes later.
fn order_of_logs<B: PlainBank>(log: &KeptLog<B>, other: &KeptLog<B>) -> Ordering
where
    B::Answer: Ord,
    ensures { result ≡ logs_cmp (option_cmp B.Answer.cmp) log.now other.now }
{
    let mut these = log.entries();
    let mut those = other.entries();
    'entries: while let Some(mine) = these.next() {
        let Some(theirs) = those.next() else {
            return Ordering::Greater;
        };
        let order = mine.1.cmp(&theirs.1);
        if order.is_ne() {
            return order;
        }
    }
    match those.next() {
        Some(_theirs) => Ordering::Less,
        None => Ordering::Equal,
    }
}
