//! The groups of a file are matched, directive by directive.

ghost use Rattle.std.specs.Prelude.{◌≡◌, ◌≤◌, ◌++◌, ◌∷◌, [], ℕ, List, IfOk, OnOk, length};
ghost use Rattle.std.specs.List.{All};
ghost use Rattle.idl_text.specs.Jump.{fault_at};
ghost use Rattle.idl_text.specs.Line.{Line};
ghost use Rattle.idl_text.specs.Matching.{IsMatchedBy, IsSpan, IsStep, span_of};
ghost use Rattle.idl_text.specs.Tree.{IsBranch};
ghost use Rattle.idl_text.specs.declared.groups.fault.Misplaced.TheVariants.{OutOfPlace};
ghost use Rattle.idl_text.specs.declared.groups.kind.DirectiveKind.TheVariants.{Endif, Opening};
ghost use Rattle.idl_text.specs.declared.groups.kind.Test.{Test};

use crate::groups::branch::{BranchSpan, OpenBranch};
use crate::groups::directive::Directive;
use crate::groups::fault::{GroupFault, Misplaced};
use crate::groups::kind::DirectiveKind;
use crate::groups::table::BranchTable;
use idl_base::Stack;
use std::alloc::{AllocError, Global};

/// The branches that are open, those whose end has come, and the faults so far.
pub struct Matching {
    branches: Stack<OpenBranch>,
    spans: Vec<BranchSpan>,
    faults: Vec<GroupFault>,
}

impl Drop for Matching {
    fn drop(self) {
        let Matching {
            branches: _branches,
            spans: _spans,
            faults: _faults,
        } = self;
    }
}

impl Matching {
    /// No line was read. It takes no memory.
    pub fn new(alloc: Global) -> Matching
        ensures { (lines : ℕ → List Line) → IsMatchedBy lines 0 result }
    {
        Matching {
            branches: Stack::new(alloc),
            spans: Vec::new(alloc),
            faults: Vec::new(alloc),
        }
    }

    /// A directive, which stands at a place, and what comes after it.
    pub fn step(
        &mut self,
        directive: &Directive<'_>,
        at: usize,
        after: usize,
    ) -> Result<(), AllocError>
        requires { at ≤ after }
        ensures { OnOk result (IsStep directive.now at after self.old self.new) }
    {
        match directive.kind {
            DirectiveKind::Alone(_) => Ok(()),
            DirectiveKind::Opening(_) => {
                self.open_group(directive, after)?;
                Ok(())
            }
            DirectiveKind::Elif | DirectiveKind::Else => self.begin_branch(directive, at, after),
            DirectiveKind::Endif => {
                self.end_group(directive, at)?;
                Ok(())
            }
        }
    }

    // A group begins.
    fn open_group(&mut self, directive: &Directive<'_>, after: usize) -> Result<(), AllocError>
        ensures { OnOk result ((what : Test) (at : ℕ) → directive.now.kind ≡ Opening what
            → at ≤ after → IsStep directive.now at after self.old self.new) }
    {
        let unclosed = GroupFault::at(Misplaced::NotClosed, directive)?;
        self.branches.push(OpenBranch {
            from: after,
            faults: self.faults.len(),
            has_else: false,
            unclosed,
        })?;
        Ok(())
    }

    // Another branch begins, unless it may not.
    fn begin_branch(
        &mut self,
        directive: &Directive<'_>,
        at: usize,
        after: usize,
    ) -> Result<(), AllocError>
        requires branch { IsBranch directive.now.kind }
        requires order { at ≤ after }
        ensures { OnOk result (IsStep directive.now at after self.old self.new) }
    {
        match self.branches.pop() {
            None => {
                self.stray(directive)?;
                Ok(())
            }
            Some(branch) if branch.has_else => {
                self.stray(directive)?;
                self.branches.push(branch)?;
                Ok(())
            }
            Some(branch) => {
                self.close(&branch, at)?;
                self.branches.push(OpenBranch {
                    from: after,
                    faults: self.faults.len(),
                    has_else: directive.kind.is_else(),
                    unclosed: branch.unclosed,
                })?;
                Ok(())
            }
        }
    }

    // A group ends, if one is open.
    fn end_group(&mut self, directive: &Directive<'_>, at: usize) -> Result<(), AllocError>
        requires { directive.now.kind ≡ Endif }
        ensures { OnOk result ((after : ℕ) → at ≤ after
            → IsStep directive.now at after self.old self.new) }
    {
        match self.branches.pop() {
            None => {
                self.stray(directive)?;
                Ok(())
            }
            Some(branch) => {
                self.close(&branch, at)?;
                Ok(())
            }
        }
    }

    // A directive is out of place.
    fn stray(&mut self, directive: &Directive<'_>) -> Result<(), AllocError>
        ensures branches { OnOk result (self.new.branches ≡ self.old.branches) }
        ensures spans { OnOk result (self.new.spans.items ≡ self.old.spans.items) }
        ensures faults { let fault = fault_at OutOfPlace directive.now in
            OnOk result (self.new.faults.items ≡ self.old.faults.items ++ fault ∷ []) }
    {
        let fault = GroupFault::at(Misplaced::OutOfPlace, directive)?;
        self.faults.push(fault)?;
        Ok(())
    }

    // The end of a branch has come.
    fn close(&mut self, branch: &OpenBranch, to: usize) -> Result<(), AllocError>
        ensures branches { OnOk result (self.new.branches ≡ self.old.branches) }
        ensures spans { let span = span_of branch.now to (length self.old.faults.items) in
            OnOk result (self.new.spans.items ≡ self.old.spans.items ++ span ∷ []) }
        ensures faults { OnOk result (self.new.faults.items ≡ self.old.faults.items) }
    {
        self.spans.push(BranchSpan {
            from: branch.from,
            to,
            first_fault: branch.faults,
            end_fault: self.faults.len(),
            has_else: branch.has_else,
        })?;
        Ok(())
    }

    /// The end of the file: the groups that are open are not closed, the innermost first.
    pub fn finish(mut self, at: usize) -> Result<BranchTable, AllocError>
        ensures { IfOk result (λ table. (lines : ℕ → List Line) → lines at ≡ []
            → IsMatchedBy lines at self
            → All (IsSpan lines at table.faults.items) table.spans.items) }
    {
        'branches: while let Some(branch) = self.branches.pop() {
            self.close(&branch, at)?;
            self.faults.push(branch.unclosed)?;
        }
        let Matching {
            branches: _branches,
            mut spans,
            faults,
        } = self;
        spans.sort_unstable_by_key(|span| span.from);
        Ok(BranchTable { spans, faults })
    }
}
