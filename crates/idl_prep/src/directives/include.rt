//! `include`.

ghost use Rattle.std.specs.Prelude.{◌≡◌, Some, IfOk};
ghost use Rattle.idl_prep.specs.Directive.{Enter, include, including};
ghost use Rattle.idl_prep.specs.Pass.{entered};
ghost use Rattle.idl_prep.specs.State.{onward};

use crate::directives::inclusion::Inclusion;
use crate::directives::line::DirectiveLine;
use crate::directives::operand::IncludeOperand;
use crate::walk::root::Root;
use crate::walk::walked_file::WalkedFile;
use idl_event::RootBank;
use idl_fault::Code;
use std::alloc::AllocError;

/// `include`: gives the file that is to be entered, if there is one.
pub fn include<'b, B: RootBank>(
    root: &mut Root<B>,
    site: &WalkedFile<'b, B>,
    directive: &DirectiveLine<'_>,
) -> Result<Option<Inclusion<'b>>, AllocError>
    ensures { let bank = B.at site.now.bank.now in IfOk result (λ inclusion. (enter : Enter)
        → onward bank (entered enter inclusion) root.new
        ≡ onward bank (include enter site.now.file.now directive.now) root.old) }
{
    let Some(operand) = root.operand_of(site, directive)? else {
        root.fault_at(site.file, directive, Code::MalformedInclude)?;
        return Ok(None);
    };
    included(root, site, directive, &operand)
}

// The file of the operand, if it is found and may be entered.
fn included<'b, B: RootBank>(
    root: &mut Root<B>,
    site: &WalkedFile<'b, B>,
    directive: &DirectiveLine<'_>,
    operand: &IncludeOperand,
) -> Result<Option<Inclusion<'b>>, AllocError>
    ensures { let bank = B.at site.now.bank.now in let file = site.now.file.now in
        IfOk result (λ inclusion. (enter : Enter) → onward bank (entered enter inclusion) root.new
        ≡ onward bank (λ s. including enter file directive.now s (Some operand.now)) root.old) }
{
    let place = directive.place(site.file)?;
    let Some(found) = root.find(site, operand)? else {
        root.fault(place, Code::NotFound, operand.spelling())?;
        return Ok(None);
    };
    if root.is_once(&found.name) {
        return Ok(None);
    }
    Ok(Some(Inclusion {
        place,
        name: found.name,
        file: found.file,
    }))
}
