//! Findings of a file in the order of lines, each once: the first ones are told.
//!
//! Those that tell the same are found by a hash of what they tell, and the rest is sorted once, so that many take no longer
//! than their number. A list in order into which one was put after another would be gone through for each.

ghost use Rattle.std.specs.Prelude.{◌≡◌, ◌++◌, ◌∷◌, [], IfOk, OnOk, if◌then◌else◌, take};
ghost use Rattle.std.specs.List.{filter};
ghost use Rattle.idl_editor.specs.told.Found.{AreInOrder, each_once, findings_in, is_in, key_of, most_told};

use idl_base::Bytes;
use idl_finding::Finding;
use idl_source::Name;
use indexmap::IndexSet;
use std::alloc::{AllocError, Global};

/// How many findings of a file are told.
pub const MOST_TOLD: usize = 1000;

/// Of how many of them the second places are told.
pub const MOST_RELATED: usize = 20;

/// What a root finds: the number of the root, and that of the finding among those of the root.
#[derive(Clone, Copy)]
pub struct RootFinding<'a> {
    pub root: usize,
    pub index: usize,
    pub finding: &'a Finding,
}

// What a finding tells of its file.
#[derive(PartialEq, Eq, Hash, Drop)]
struct FindingKey {
    line: u32,
    code: u8,
    text: Option<Bytes>,
    number: Option<usize>,
}

/// Puts in what a root finds in a file.
pub fn put_all<'a>(
    found: &mut Vec<RootFinding<'a>>,
    name: &Name,
    root: usize,
    findings: &'a [Finding],
) -> Result<(), AllocError>
    ensures { OnOk result (findings_in found.new.items
        ≡ findings_in found.old.items ++ filter (is_in name.now) findings.entry.now) }
{
    'findings: for index in 0..findings.len() {
        let one = RootFinding {
            root,
            index,
            finding: &findings[index],
        };
        put_if_in(found, name, one)?;
    }
    Ok(())
}

// Puts one in, if it is in this file.
fn put_if_in<'a>(
    found: &mut Vec<RootFinding<'a>>,
    name: &Name,
    one: RootFinding<'a>,
) -> Result<(), AllocError>
    ensures { OnOk result (findings_in found.new.items
        ≡ (if is_in name.now one.entry.finding.now
        then findings_in found.old.items ++ one.entry.finding.now ∷ []
        else findings_in found.old.items)) }
{
    if one.finding.place.file.as_bytes() == name.as_bytes() {
        return Ok(found.push(one)?);
    }
    Ok(())
}

/// These findings of a file in the order of lines: of those that tell the same the first.
pub fn in_order<'a>(
    alloc: Global,
    found: &[RootFinding<'a>],
) -> Result<Vec<RootFinding<'a>>, AllocError>
    ensures { IfOk result (λ ordered.
        AreInOrder (each_once (findings_in found.now)) (findings_in ordered.items)) }
{
    let mut ordered = each_once(alloc, found)?;
    ordered.sort_by_key(|one| one.finding.place.line)?;
    Ok(ordered)
}

/// The first of these findings, which are told.
pub fn first_told<'s, 'a>(found: &'s [RootFinding<'a>]) -> &'s [RootFinding<'a>]
    ensures { result.now ≡ take most_told found.now }
{
    if found.len() <= MOST_TOLD {
        return found;
    }
    &found[..MOST_TOLD]
}

// Of findings that tell the same the first.
fn each_once<'a>(
    alloc: Global,
    found: &[RootFinding<'a>],
) -> Result<Vec<RootFinding<'a>>, AllocError>
    ensures { IfOk result (λ once. findings_in once.items ≡ each_once (findings_in found.now)) }
{
    let mut keys = IndexSet::new(alloc);
    let mut once = Vec::new(alloc);
    'each: for one in found {
        let key = key_of(one.finding)?;
        let is_new = keys.insert(key)?;
        if !is_new {
            continue;
        }
        once.push(*one)?;
    }
    Ok(once)
}

// What a finding tells of its file.
fn key_of(finding: &Finding) -> Result<FindingKey, AllocError>
    ensures { IfOk result (λ key. key ≡ key_of finding.now) }
{
    Ok(FindingKey {
        line: finding.place.line,
        code: finding.code.number(),
        text: shared(&finding.text)?,
        number: finding.number,
    })
}

// The same text, which shares its memory.
fn shared(text: &Option<Bytes>) -> Result<Option<Bytes>, AllocError>
    ensures { IfOk result (λ same. same ≡ text.now) }
{
    match text {
        Some(text) => Ok(Some(text.clone()?)),
        None => Ok(None),
    }
}
