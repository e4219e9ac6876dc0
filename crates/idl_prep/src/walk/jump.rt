//! Branches that aren't taken are jumped over.

ghost use Rattle.std.specs.Prelude.{◌≡◌, ◌≤◌, Option, IfOk, OnOk, length};
ghost use Rattle.idl_text.specs.Line.{lines_from};
ghost use Rattle.idl_prep.specs.Directive.{Enter};
ghost use Rattle.idl_prep.specs.Pass.{to_come};
ghost use Rattle.idl_prep.specs.State.{ended, onward};
ghost use Rattle.idl_prep.specs.Told.{code_of, told};

use crate::walk::groups::{Group, innermost, is_walked};
use crate::walk::root::Root;
use idl_base::Stack;
use idl_event::{RootAnswer, RootBank, RootKey};
use idl_fault::{Code, FileName, Place};
use idl_text::{GroupFault, LinesLeft, Misplaced};
use std::alloc::AllocError;

/// What is left of a file's lines once the branch that they begin with is jumped over, if it isn't taken: of what is in it,
/// the faults of groups alone are told.
pub fn jump<'t, B: RootBank>(
    root: &mut Root<B>,
    groups: &Stack<Group>,
    file: &FileName,
    left: LinesLeft<'t>,
) -> Result<LinesLeft<'t>, AllocError>
    ensures to_come { let file = file.now in let groups = groups.now in
        IfOk result (λ rest. (bank : RootKey → Option RootAnswer) (enter : Enter)
        → to_come bank enter file groups (lines_from rest) root.new
        ≡ to_come bank enter file groups (lines_from left.entry) root.old) }
    ensures shorter { IfOk result (λ rest. length rest ≤ length left.entry) }
{
    if is_walked(groups) {
        return Ok(left);
    }
    jump_over(root, groups, file, left)
}

// The same where the lines are skipped, as few are.
#[inline(never)]
fn jump_over<'t, B: RootBank>(
    root: &mut Root<B>,
    groups: &Stack<Group>,
    file: &FileName,
    left: LinesLeft<'t>,
) -> Result<LinesLeft<'t>, AllocError>
    ensures to_come { let file = file.now in let groups = groups.now in
        IfOk result (λ rest. (bank : RootKey → Option RootAnswer) (enter : Enter)
        → to_come bank enter file groups (lines_from rest) root.new
        ≡ to_come bank enter file groups (lines_from left.entry) root.old) }
    ensures shorter { IfOk result (λ rest. length rest ≤ length left.entry) }
{
    let Some(group) = innermost(groups) else {
        return Ok(left);
    };
    if group.is_active {
        return Ok(left);
    }
    let Some((rest, faults)) = left.jump(group.has_else) else {
        return Ok(left);
    };
    tell_faults(root, file, faults)?;
    Ok(rest)
}

// Faults of a file's groups.
fn tell_faults<B: RootBank>(
    root: &mut Root<B>,
    file: &FileName,
    faults: &[GroupFault],
) -> Result<(), AllocError>
    ensures { OnOk result ((bank : RootKey → Option RootAnswer)
        → ended root.new ≡ onward bank (told file.now faults.now) root.old) }
{
    'faults: for fault in faults {
        let place = Place {
            file: file.clone()?,
            line: fault.line,
        };
        root.fault(place, code_of(fault.what), &fault.word)?;
    }
    Ok(())
}

// The code of a fault.
fn code_of(what: Misplaced) -> Code
    ensures { result ≡ code_of what }
{
    match what {
        Misplaced::OutOfPlace => Code::OutOfPlace,
        Misplaced::NotClosed => Code::NotClosed,
    }
}
