//! Directives of groups that are out of place.

ghost use Rattle.std.specs.Prelude.{◌≡◌, ◌∷◌, [], true, List, Option, OnOk};
ghost use Rattle.idl_text.specs.Line as spec;
ghost use Rattle.idl_text.specs.Line.{Directed};
ghost use Rattle.idl_text.specs.Tree.{IsBranch, IsOfGroup, Stray};
ghost use Rattle.idl_prep.specs.Directive.{Enter};
ghost use Rattle.idl_prep.specs.Pass.{to_come, visit_tree};
ghost use Rattle.idl_prep.specs.State.{ended, onward};
ghost use Rattle.idl_prep.specs.declared.walk.groups.Group as declared;

use crate::directives::line::DirectiveLine;
use crate::walk::groups::Group;
use crate::walk::root::Root;
use idl_event::{RootAnswer, RootBank, RootKey};
use idl_fault::{Code, FileName};
use std::alloc::AllocError;

/// Another branch would begin after the group's `else`: the lines of the last one go on.
pub fn stray_inside<B: RootBank>(
    root: &mut Root<B>,
    group: &Group,
    file: &FileName,
    directive: &DirectiveLine<'_>,
) -> Result<(), AllocError>
    requires branch { IsBranch directive.now.kind }
    requires has_else { group.now.has_else ≡ true }
    ensures { let file = file.now in OnOk result ((bank : RootKey → Option RootAnswer) (enter : Enter)
        (groups : List declared.Group) (lines : List spec.Line)
        → to_come bank enter file (group.now ∷ groups) lines root.new
        ≡ to_come bank enter file (group.now ∷ groups) (Directed directive.now ∷ lines) root.old) }
{
    stray(root, group.is_active, file, directive)
}

/// A group would go on or end where none is open.
pub fn stray_outside<B: RootBank>(
    root: &mut Root<B>,
    file: &FileName,
    directive: &DirectiveLine<'_>,
) -> Result<(), AllocError>
    requires { IsOfGroup directive.now.kind }
    ensures { OnOk result ((bank : RootKey → Option RootAnswer) (enter : Enter) (lines : List spec.Line)
        → to_come bank enter file.now [] lines root.new
        ≡ to_come bank enter file.now [] (Directed directive.now ∷ lines) root.old) }
{
    stray(root, true, file, directive)
}

// A directive that is out of place, in lines that are walked or skipped.
#[tactic(auto, unfolding(crate::specs::Walk::walk_tree, crate::specs::Walk::skip_tree))]
fn stray<B: RootBank>(
    root: &mut Root<B>,
    is_active: bool,
    file: &FileName,
    directive: &DirectiveLine<'_>,
) -> Result<(), AllocError>
    ensures { OnOk result ((bank : RootKey → Option RootAnswer) (enter : Enter) → ended root.new
        ≡ onward bank (visit_tree enter file.now is_active (Stray directive.now)) root.old) }
{
    if is_active {
        root.turn(file, directive)?;
    }
    root.fault_at(file, directive, Code::OutOfPlace)?;
    Ok(())
}
