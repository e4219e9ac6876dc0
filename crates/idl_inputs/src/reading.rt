//! What is kept of a root's expansion, read at its own type: whoever calls these meets no bounds of what is kept.

ghost use Rattle.std.specs.Prelude.{◌≡◌, IfOk, flat_map, slice_get};
ghost use Rattle.std.specs.Option.{option_copied, option_to_list};
ghost use Rattle.idl_prep.specs.Root.{absent_files};
ghost use Rattle.idl_inputs.specs.Asked.{asked_file, asked_files};

use crate::bank::SessionBank;
use crate::expanding::KeptExpansion;
use idl_event::{Expansion, RootKey};
use idl_fault::FileName;
use idl_memo::KeptLog;
use idl_prep::absent;
use idl_source::Name;
use std::alloc::{AllocError, Global};

/// The name of the root.
#[inline(always)]
pub fn root_name(kept: &KeptExpansion) -> &Name
    ensures { result.now ≡ kept.now.text }
{
    kept.text()
}

/// What the root expands to.
#[inline(always)]
pub fn root_expansion(kept: &KeptExpansion) -> &Expansion
    ensures { result.now ≡ kept.now.out }
{
    kept.out()
}

/// The keys that the root asked, with their answers.
#[inline(always)]
pub fn root_log(kept: &KeptExpansion) -> &KeptLog<SessionBank>
    ensures { result.now ≡ kept.now.log }
{
    kept.log()
}

/// The files that the root asked for and that aren't there, in the order in which they were first asked.
pub fn absent_names(alloc: Global, kept: &KeptExpansion) -> Result<Vec<Name>, AllocError>
    ensures { IfOk result (λ names. names.items ≡ absent_files kept.now.log) }
{
    absent(alloc, root_log(kept))
}

/// The files that were asked for, there or not, in the order in which they were first asked.
pub fn asked(alloc: Global, log: &KeptLog<SessionBank>) -> Result<Vec<Name>, AllocError>
    ensures { IfOk result (λ names. names.items ≡ asked_files log.now) }
{
    let mut names = Vec::new(alloc);
    'entries: for index in 0..log.len() {
        let Some(name) = asked_at(log, index) else {
            continue;
        };
        names.push(name.name())?;
    }
    Ok(names)
}

// The file of an entry, if the entry is of one.
fn asked_at(log: &KeptLog<SessionBank>, index: usize) -> Option<&FileName>
    ensures { option_to_list (option_copied result)
        ≡ flat_map asked_file (option_to_list (slice_get log.now index)) }
{
    match log.get(index) {
        Some((RootKey::File(name), _)) => Some(name),
        _ => None,
    }
}
