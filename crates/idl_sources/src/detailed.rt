//! The details of a root, which are worked out when they are asked for.

ghost use Rattle.std.specs.Prelude.{◌≡◌, IfOk};
ghost use Rattle.idl_inputs.specs.Bank.{bank_of};
ghost use Rattle.idl_sources.specs.Details.{details_over};

use idl_inputs::SessionBank;
use idl_inputs::expanding::expanded_alone;
use idl_inputs::reading::root_expansion;
use idl_root::Details;
use idl_source::Name;
use std::alloc::{AllocError, Global};

/// The details of a root over a bank. It is expanded, and its units judged, for them alone.
pub fn details_alone(alloc: Global, bank: &SessionBank, root: &Name) -> Result<Details, AllocError>
    ensures { IfOk result (λ details. details ≡ details_over (bank_of bank.now) root.now) }
{
    let kept = expanded_alone(alloc, bank, root)?;
    idl_root::details_of(alloc, root_expansion(&kept))
}
