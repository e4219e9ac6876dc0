//! The second places of what is found in a root, which are worked out when they are asked for.

ghost use Rattle.std.specs.Prelude.{IfOk};
ghost use Rattle.idl_inputs.specs.Bank.{bank_of};
ghost use Rattle.idl_sources.specs.Related.{AreRelatedOver};

use crate::sources::Sources;
use idl_base::Seq;
use idl_event::Expansion;
use idl_finding::Finding;
use idl_memo::{Kept, Meter, run_anew};
use idl_prep::RootTask;
use idl_related::{Related, related_of, unrelated};
use idl_source::Name;
use std::alloc::AllocError;
use std::rc::Rc;

/// For each of these findings of the root of this name, in order, its second places. They are to be all that is found in it: of some of
/// them alone each may have another one's. Where any has some, it is expanded, and its units judged, for them alone.
pub fn related_over(
    sources: &Sources,
    root: &Name,
    findings: &[Finding],
) -> Result<Seq<Seq<Related>>, AllocError>
    ensures { IfOk result (AreRelatedOver (bank_of sources.now) root.now findings.now) }
{
    let alloc = sources.allocator();
    if let Some(none) = unrelated(alloc, findings)? {
        return Ok(none);
    }
    let root = RootTask::new(root.copied());
    let kept: Rc<Kept<Sources, Name, Expansion>> = run_anew(
        alloc,
        &root,
        sources,
        &mut Meter::new(),
    )?;
    related_of(alloc, kept.out(), findings)
}
