//! The second places of what is found in a root of a project, which are worked out when they are asked for.

ghost use Rattle.std.specs.Prelude.{◌≡◌, IfOk, take};
ghost use Rattle.idl_project.specs.Related.{AreRelatedIn};

use crate::session::Session;
use idl_base::Seq;
use idl_finding::Finding;
use idl_sources::idl_related::{Related, related_of};
use std::alloc::AllocError;

/// For each of the first findings of a root, of which there are so many at most, in order, its second places; nothing where the name isn't
/// one of a root. Where any has second places, the root's units are judged for it, up to the last that is asked for, and nothing of that is
/// kept.
pub fn related_in(
    session: &Session,
    root: &[u8],
    count: usize,
) -> Result<Option<Seq<Seq<Related>>>, AllocError>
    ensures { IfOk result (AreRelatedIn session.now.project root.now count) }
{
    let Some(expansion) = session.expansion(root) else {
        return Ok(None);
    };
    let Some(findings) = session.findings(root) else {
        return Ok(None);
    };
    let first = first_of(findings, count);
    Ok(Some(related_of(session.allocator(), expansion, first)?))
}

// The first of these findings, so many at most.
fn first_of(findings: &[Finding], count: usize) -> &[Finding]
    ensures { result.now ≡ take count findings.entry.now }
{
    findings.get(..count).unwrap_or(findings)
}
