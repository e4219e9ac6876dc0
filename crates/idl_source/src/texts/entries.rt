//! The files of a set in the order of their names: where a name stands, and the entries with one more.

ghost use Rattle.std.specs.Prelude.{◌≡◌, ◌<◌, IfOk, IfErr, IsTrue, length};
ghost use Rattle.std.specs.List.{remove as without_at};
ghost use Rattle.std.specs.Ordering.{nat_cmp};
ghost use Rattle.std.specs.Cmp.Lexicographic.{slice_cmp};
ghost use Rattle.std.specs.FinMap.{is_sorted, put};
ghost use Rattle.idl_source.specs.texts.Entries.{entries_of, IsAt, IsGapFor};

use crate::names::name::Name;
use crate::texts::file::File;
use std::alloc::AllocError;
use std::cmp::Ordering;
use std::rc::Rc;

/// A file under its name.
#[derive(Drop)]
pub struct NamedFile {
    pub name: Name,
    pub file: File,
}

/// The place of the entry with this name, or the place where it would stand.
pub fn place_of(entries: &[Rc<NamedFile>], name: &[u8]) -> Result<usize, usize>
    // The files keep them so.
    requires { IsTrue (is_sorted (slice_cmp nat_cmp) (entries_of entries.now)) }
    ensures found { IfOk result (IsAt entries.now name.now) }
    ensures absent { IfErr result (IsGapFor entries.now name.now) }
{
    entries.binary_search_by(|entry| compared(entry, name))
}

/// The entries with one more at its place, or with one in place of that of its name. They share the other ones.
pub fn entries_with(
    entries: &Vec<Rc<NamedFile>>,
    entry: Rc<NamedFile>,
) -> Result<Vec<Rc<NamedFile>>, AllocError>
    // The files keep them so.
    requires { IsTrue (is_sorted (slice_cmp nat_cmp) (entries_of entries.now.items)) }
    ensures { IfOk result
        (λ with. entries_of with.items
        ≡ put (slice_cmp nat_cmp) entry.value.name entry.value.file
        (entries_of entries.now.items)) }
{
    let mut with = entries.clone()?;
    match place_of(entries, entry.name.as_bytes()) {
        Ok(place) => {
            with[place] = entry;
            Ok(with)
        }
        Err(place) => {
            with.insert(place, entry)?;
            Ok(with)
        }
    }
}

/// The entries without the one at this place. They share the other ones.
pub fn entries_without(
    entries: &Vec<Rc<NamedFile>>,
    place: usize,
) -> Result<Vec<Rc<NamedFile>>, AllocError>
    requires { place < length entries.now.items }
    ensures { IfOk result
        (λ without. entries_of without.items ≡ without_at (entries_of entries.now.items) place) }
{
    let mut without = entries.clone()?;
    without.remove(place);
    Ok(without)
}

// How the entry's name stands to this one.
fn compared(entry: &Rc<NamedFile>, name: &[u8]) -> Ordering
    ensures { result ≡ slice_cmp nat_cmp entry.now.value.name name.now }
{
    entry.name.as_bytes().cmp(&name)
}
