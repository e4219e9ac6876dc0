//! The details of a root, which are worked out when they are asked for.

ghost use Rattle.std.specs.Prelude.{◌≡◌, ℕ, IfOk, List, Some, false};
ghost use Rattle.std.specs.Option.{option_map};
ghost use Rattle.idl_sources.specs.idl_root.Details.{printed};
ghost use Rattle.idl_inputs.specs.Bank.{bank_of};
ghost use Rattle.idl_sources.specs.Compile.{compiled_root};
ghost use Rattle.idl_sources.specs.Details.{details_over};
ghost use Rattle.idl_project.specs.Details.{details_of};
ghost use Rattle.idl_inputs.specs.Project.{Inputs, Project};
ghost use Rattle.idl_project.specs.UpToDate.{is_faulty_of, listing_of};

use crate::session::Session;
use idl_sources::idl_root::{Details, detailing};
use std::alloc::AllocError;

impl Session {
    /// What the listing of a root tells, as data, and of a root with an error what is declared in it; nothing where the name isn't one
    /// of a root. The root's units are judged for it, and nothing of that is kept.
    pub fn details(&self, root: &[u8]) -> Result<Option<Details>, AllocError>
        ensures { IfOk result (λ details. details ≡ details_of self.now.project root.now) }
    {
        match self.kept(root) {
            Some(kept) => Ok(Some(kept.details(self.allocator())?)),
            None => Ok(None),
        }
    }
}

/// Where a root has no error, the rows of its listing are what its details are printed as. This does nothing: it carries the law.
pub fn listing_is_details()
    ensures compiled { (inputs : Inputs) (name : List ℕ)
        → (compiled_root inputs name).rows.is_faulty ≡ false
        → (compiled_root inputs name).rows.listing
        ≡ printed (details_over (bank_of inputs) name) }
    ensures answered { (project : Project) (name : List ℕ)
        → is_faulty_of project name ≡ Some false
        → listing_of project name ≡ option_map printed (details_of project name) }
{
    // It does nothing: it carries the law of a root's details.
    detailing();
}
