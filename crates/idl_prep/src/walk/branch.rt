//! Groups, as they are opened, go on and end.

ghost use Rattle.std.specs.Prelude.{◌≡◌, ◌∷◌, false, true, List, Option, IfOk, OnOk};
ghost use Rattle.idl_event.specs.Expanding.{arrival, arrived};
ghost use Rattle.idl_text.specs.Line as spec;
ghost use Rattle.idl_text.specs.Line.{Directed};
ghost use Rattle.idl_text.specs.Tree.{IsBranch};
ghost use Rattle.idl_text.specs.declared.groups.kind.DirectiveKind.TheVariants.{Endif, Opening};
ghost use Rattle.idl_prep.specs.Directive.{Enter};
ghost use Rattle.idl_prep.specs.Pass.{begun, is_walked, to_come};
ghost use Rattle.idl_prep.specs.Walk.{decision, opener_of};
ghost use Rattle.idl_prep.specs.declared.walk.groups.Group as declared;

use crate::directives::line::DirectiveLine;
use crate::walk::groups::{Group, Opener};
use crate::walk::root::Root;
use crate::walk::walked_file::WalkedFile;
use idl_event::{RootAnswer, RootBank, RootKey};
use idl_fault::FileName;
use idl_text::Test;
use std::alloc::AllocError;

/// A group begins in lines that are walked.
pub fn begin_group<B: RootBank>(
    root: &mut Root<B>,
    site: &WalkedFile<'_, B>,
    directive: &DirectiveLine<'_>,
    what: Test,
) -> Result<Group, AllocError>
    requires { directive.now.kind ≡ Opening what }
    ensures { let bank = B.at site.now.bank.now in let file = site.now.file.now in
        IfOk result (λ group. (enter : Enter)
        (groups : List declared.Group) (lines : List spec.Line) → is_walked groups ≡ true
        → to_come bank enter file (group ∷ groups) lines root.new
        ≡ to_come bank enter file groups (Directed directive.now ∷ lines) root.old) }
{
    root.turn(site.file, directive)?;
    let is_taken = root.test(site, directive, what)?;
    let opener = Opener::of(directive)?;
    Ok(Group {
        opener,
        is_live: true,
        is_taken,
        is_active: is_taken,
        has_else: false,
    })
}

/// A group begins in lines that are skipped.
pub fn skip_group(directive: &DirectiveLine<'_>) -> Result<Group, AllocError>
    ensures { IfOk result (λ group. group ≡ begun (opener_of directive.now) false false) }
{
    let opener = Opener::of(directive)?;
    Ok(Group {
        opener,
        is_live: false,
        is_taken: false,
        is_active: false,
        has_else: false,
    })
}

/// Another branch of a group begins, which had no `else` before it.
pub fn begin_branch<B: RootBank>(
    root: &mut Root<B>,
    group: &mut Group,
    site: &WalkedFile<'_, B>,
    directive: &DirectiveLine<'_>,
) -> Result<(), AllocError>
    requires branch { IsBranch directive.now.kind }
    requires no_else { group.old.has_else ≡ false }
    ensures { let bank = B.at site.now.bank.now in let file = site.now.file.now in
        OnOk result ((enter : Enter) (groups : List declared.Group) (lines : List spec.Line)
        → to_come bank enter file (group.new ∷ groups) lines root.new
        ≡ to_come bank enter file (group.old ∷ groups) (Directed directive.now ∷ lines) root.old) }
{
    group.has_else = directive.kind.is_else();
    if !group.is_live {
        group.is_active = false;
        return Ok(());
    }
    root.turn(site.file, directive)?;
    group.is_active = decide(root, site, directive, group.is_taken)?;
    group.is_taken |= group.is_active;
    Ok(())
}

/// A group ends.
pub fn end_group<B: RootBank>(
    root: &mut Root<B>,
    group: &Group,
    file: &FileName,
    directive: &DirectiveLine<'_>,
) -> Result<(), AllocError>
    requires { directive.now.kind ≡ Endif }
    ensures { let file = file.now in OnOk result ((bank : RootKey → Option RootAnswer) (enter : Enter)
        (groups : List declared.Group) (lines : List spec.Line)
        → to_come bank enter file groups lines root.new
        ≡ to_come bank enter file (group.now ∷ groups) (Directed directive.now ∷ lines) root.old) }
{
    if !group.is_live {
        return Ok(());
    }
    root.turn(file, directive)
}

// Whether a branch after the first is taken.
fn decide<B: RootBank>(
    root: &mut Root<B>,
    site: &WalkedFile<'_, B>,
    directive: &DirectiveLine<'_>,
    is_taken: bool,
) -> Result<bool, AllocError>
    ensures arrival { IfOk result (λ taken. arrived taken root.new.progress
        ≡ arrival (B.at site.now.bank.now)
        (decision site.now.file.now directive.now is_taken root.old.state) root.old.progress) }
    ensures state { root.new.state ≡ root.old.state }
{
    if is_taken {
        return Ok(false);
    }
    if directive.kind.is_else() {
        return Ok(true);
    }
    root.test(site, directive, Test::If)
}
