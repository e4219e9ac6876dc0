//! The groups of a file that are open.

ghost use Rattle.std.specs.Prelude.{◌≡◌, IfOk};
ghost use Rattle.std.specs.Option.{option_copied};
ghost use Rattle.idl_prep.specs.Pass.{innermost, is_walked};
ghost use Rattle.idl_prep.specs.Walk.{opener_of};

use crate::directives::line::DirectiveLine;
use idl_base::{Bytes, Stack};
use std::alloc::AllocError;

/// The directive that opened a group: the number of its line, and its word.
#[derive(Drop)]
pub struct Opener {
    pub line: u32,
    pub word: Bytes,
}

impl Opener {
    /// The group that the directive opens.
    pub fn of(directive: &DirectiveLine<'_>) -> Result<Opener, AllocError>
        ensures { IfOk result (λ opener. opener ≡ opener_of directive.now) }
    {
        Ok(Opener {
            line: directive.line,
            word: directive.word().clone()?,
        })
    }
}

/// A group that is open.
#[derive(Drop)]
pub struct Group {
    pub opener: Opener,
    /// Whether its first directive isn't skipped.
    pub is_live: bool,
    /// Whether one of its branches was taken.
    pub is_taken: bool,
    /// Whether the lines of its present branch are walked, and not skipped.
    pub is_active: bool,
    /// Whether its `else` has come.
    pub has_else: bool,
}

/// Whether a line in these groups is walked, and not skipped.
pub fn is_walked(groups: &Stack<Group>) -> bool
    ensures { result ≡ is_walked groups.now }
{
    match groups.top() {
        None => true,
        Some(group) => group.is_active,
    }
}

/// The innermost of these groups.
pub fn innermost(groups: &Stack<Group>) -> Option<&Group>
    ensures { option_copied result ≡ innermost groups.now }
{
    groups.top()
}
