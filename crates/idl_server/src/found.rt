//! What is found in a file by all roots, each once.

ghost use Rattle.std.specs.Prelude.{◌≡◌, IfOk, slice_get};
ghost use Rattle.std.specs.Option.{option_copied, option_map};
ghost use Rattle.idl_editor.specs.told.Found.{findings_in};
ghost use Rattle.idl_server.specs.Found.{AreFoundIn, all_found, findings_by};

use idl_editor::told::{RootFinding, in_order, put_all};
use idl_project::{Finding, MAX_ROOTS, Session};
use idl_source::Name;
use std::alloc::AllocError;

/// What roots find in a file, each once, in the order of lines.
pub(crate) fn found_in<'a>(
    session: &'a Session,
    name: &Name,
) -> Result<Vec<RootFinding<'a>>, AllocError>
    ensures { IfOk result (λ found.
        AreFoundIn session.now.project name.now (findings_in found.items)) }
{
    let found = all_found(session, name)?;
    in_order(session.allocator(), &found)
}

// What all roots find in a file.
fn all_found<'a>(session: &'a Session, name: &Name) -> Result<Vec<RootFinding<'a>>, AllocError>
    ensures { IfOk result (λ found. findings_in found.items
        ≡ all_found session.now.project name.now) }
{
    session.keeps_form();
    let mut found = Vec::new(session.allocator());
    'roots: for root in 0..MAX_ROOTS {
        let Some(findings) = findings_at(session, root) else {
            return Ok(found);
        };
        put_all(&mut found, name, root, findings)?;
    }
    Ok(found)
}

// What the root of this number finds, if there is one.
fn findings_at(session: &Session, root: usize) -> Option<&[Finding]>
    ensures { option_copied result
        ≡ option_map (findings_by session.now.project.inputs)
        (slice_get session.now.project.roots root) }
{
    match session.root(root) {
        Some(name) => session.findings(name.as_bytes()),
        None => None,
    }
}
