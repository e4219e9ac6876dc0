//! Which files of two versions are there.

ghost use Rattle.std.specs.Prelude.{◌≡◌, ◌++◌, ◌∷◌, ◌||◌, [], IfOk, OnOk, false, map, not, slice_get, true, unwrap_or};
ghost use Rattle.std.specs.List.{AllZip};
ghost use Rattle.idl_tool.specs.There.{AreThere, IsHad, files_of, kept};

use crate::failure::ToolFailure;
use crate::request::Diff;
use idl_driver::{FailureSubject, ProgramFailure, name_at};
use idl_loader::{Loaded, Loader};
use idl_source::Refusal;
use std::alloc::{AllocError, Global};

/// The FILEs of two versions, but those that one of them hasn't and the other one has.
pub fn files_there<'a, L: Loader>(
    alloc: Global,
    diff: &Diff<'a>,
    loader: &mut L,
) -> Result<(Vec<&'a str>, Vec<&'a str>), ToolFailure<'a>>
    ensures there { IfOk result (λ files. AreThere diff.now.are_pairs (L.told loader.old)
        (files_of diff.now.old) (files_of diff.now.new)
        (map (λ w. w.now) files.0.items) (map (λ w. w.now) files.1.items)) }
    ensures still { OnOk result (L.told loader.new ≡ L.told loader.old) }
{
    if !diff.are_pairs {
        let old = Vec::from_slice(alloc, &diff.old.files)?;
        let new = Vec::from_slice(alloc, &diff.new.files)?;
        return Ok((old, new));
    }
    let old_had = had(alloc, &diff.old.files, loader)?;
    let new_had = had(alloc, &diff.new.files, loader)?;
    let old = kept(alloc, &old_had, &new_had, &diff.old.files)?;
    let new = kept(alloc, &new_had, &old_had, &diff.new.files)?;
    Ok((old, new))
}

// Which of these FILEs are there.
fn had<'a, L: Loader>(
    alloc: Global,
    files: &[&'a str],
    loader: &mut L,
) -> Result<Vec<bool>, ToolFailure<'a>>
    ensures had { IfOk result (λ had.
        AllZip (IsHad (L.told loader.old)) (map (λ w. w.now) files.now) had.items) }
    ensures still { OnOk result (L.told loader.new ≡ L.told loader.old) }
{
    let mut had = Vec::new(alloc);
    'files: for file in files {
        let there = is_had(file, loader)?;
        push_mark(&mut had, there)?;
    }
    Ok(had)
}

fn push_mark(marks: &mut Vec<bool>, mark: bool) -> Result<(), AllocError>
    ensures { OnOk result (marks.new.items ≡ marks.old.items ++ mark ∷ []) }
{
    marks.push(mark)?;
    Ok(())
}

// Whether a FILE is there.
fn is_had<'a, L: Loader>(file: &'a str, loader: &mut L) -> Result<bool, ToolFailure<'a>>
    ensures had { IfOk result (IsHad (L.told loader.old) file.now) }
    ensures still { OnOk result (L.told loader.new ≡ L.told loader.old) }
{
    let Some(name) = name_at(file.as_bytes()) else {
        let refused = ProgramFailure::Refused(FailureSubject::Word(file), Refusal::BadName);
        return Err(ToolFailure::Program(refused));
    };
    match loader.load(&name) {
        Loaded::Bytes(_bytes) => Ok(true),
        Loaded::Missing => Ok(false),
        Loaded::Failed => Err(ToolFailure::Program(ProgramFailure::CannotRead(name))),
        Loaded::NoMemory => {
            let refused = ProgramFailure::Refused(FailureSubject::File(name), Refusal::NoMemory);
            Err(ToolFailure::Program(refused))
        }
    }
}

// FILEs of a version without those that it hasn't and the other one has.
fn kept<'a>(
    alloc: Global,
    had: &[bool],
    others: &[bool],
    files: &[&'a str],
) -> Result<Vec<&'a str>, AllocError>
    ensures { IfOk result (λ left.
        map (λ w. w.now) left.items ≡ kept had.now others.now (map (λ w. w.now) files.now)) }
{
    let mut left = Vec::new(alloc);
    'files: for (place, file) in files.iter().enumerate() {
        if !is_left(had, others, place) {
            continue;
        }
        left.push(*file)?;
    }
    Ok(left)
}

// Whether the FILE at a place is left.
fn is_left(had: &[bool], others: &[bool], place: usize) -> bool
    ensures { result ≡ (unwrap_or (slice_get had.now place) true
        || not (unwrap_or (slice_get others.now place) false)) }
{
    match (had.get(place), others.get(place)) {
        (Some(is), Some(other)) => *is || !*other,
        _ => true,
    }
}
