//! Branches of groups.

use crate::groups::fault::GroupFault;

/// A branch of a group in a file: from which of the file's tokens up to which it goes, and which of the file's faults are in
/// it.
#[derive(Clone, Copy)]
pub struct BranchSpan {
    pub from: usize,
    pub to: usize,
    pub first_fault: usize,
    pub end_fault: usize,
    /// Whether it is the group's `else`.
    pub has_else: bool,
}

/// A branch whose end hasn't come.
#[derive(Drop)]
pub struct OpenBranch {
    /// The token with which it begins.
    pub from: usize,
    /// How many faults were found before it.
    pub faults: usize,
    /// Whether it is the group's `else`.
    pub has_else: bool,
    /// The fault of its group, if that isn't closed.
    pub unclosed: GroupFault,
}
