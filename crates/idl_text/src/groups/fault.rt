//! Faults of groups.

ghost use Rattle.std.specs.Prelude.{◌≡◌, IfOk};
ghost use Rattle.idl_text.specs.Jump.{fault_at};

use crate::groups::directive::Directive;
use idl_base::Bytes;
use std::alloc::AllocError;

/// What is wrong with a directive of a group.
#[derive(Clone, Copy)]
pub enum Misplaced {
    /// A group would go on or end where it can't.
    OutOfPlace,
    /// The group that it opens goes to the end of the file.
    NotClosed,
}

/// A fault of a group: the line of the directive at which it is told, and that directive's word.
#[derive(Drop)]
pub struct GroupFault {
    pub what: Misplaced,
    pub line: u32,
    pub word: Bytes,
}

impl GroupFault {
    /// The fault at a directive.
    pub fn at(what: Misplaced, directive: &Directive<'_>) -> Result<GroupFault, AllocError>
        ensures { IfOk result (λ fault. fault ≡ fault_at what directive.now) }
    {
        Ok(GroupFault {
            what,
            line: directive.line,
            word: directive.word.token().spelling().clone()?,
        })
    }
}
