//! The entries of a kept log, one after another.

ghost use Rattle.std.specs.Prelude.{◌≡◌, ◌∷◌, [], IfNone, IfSome};
ghost use Rattle.std.specs.Option.{option_copied};

use crate::bank::{Bank, PlainBank};
use crate::lent_parts::LentParts;
use crate::run::Part;
use std::marker::Model;

/// The entries of a log that are still to come. To every contract it is the list of them.
pub struct LogEntries<'a, B: Bank> {
    parts: LentParts<'a, B>,
}

impl<'a, B: Bank> Model for LogEntries<'a, B> {
    ghost use Rattle.std.specs.Prelude.{List, Option};

    ghost Value = { List (B.Key × Option B.Answer) };

    ghost view = { λ entries. entries.parts.entries };
}

impl<'a, B: Bank> Drop for LogEntries<'a, B> {
    fn drop(self) {
        let LogEntries { parts: _parts } = self;
    }
}

impl<'a, B: Bank> LogEntries<'a, B> {
    // Those of these parts.
    pub(crate) fn of(parts: LentParts<'a, B>) -> LogEntries<'a, B>
        ensures { result ≡ parts.entry.entries }
    {
        LogEntries { parts }
    }
}

impl<'a, B: PlainBank> LogEntries<'a, B> {
    /// The first of them, which is passed, or nothing behind the last.
    pub fn next(&mut self) -> Option<(&'a B::Key, Option<&'a B::Answer>)>
        ensures first { IfSome result (λ e. self.old ≡ (e.0.now, option_copied e.1) ∷ self.new) }
        ensures none { IfNone result (self.old ≡ []) }
    {
        'parts: while let Some(part) = self.parts.next() {
            match part {
                Part::One(key, answer) => return Some((key, answer)),
                Part::Many(run) => run.has_none(),
            }
        }
        None
    }
}
