//! The directories of a search list.

ghost use Rattle.std.specs.Prelude.{◌≡◌, ◌≢◌, Ok, Err, map, IfOk, IfErr};
ghost use Rattle.std.specs.List.{list_all};
ghost use Rattle.idl_source.specs.names.Directory.{is_directory};
ghost use Rattle.idl_inputs.specs.Edits.{search_list};

use crate::limits::MAX_DIRECTORIES;
use idl_source::{Directory, Refusal};
use std::alloc::Global;

/// The directories of these bytes, in the same order.
///
/// They are refused where one is none, and then where there are more than [`MAX_DIRECTORIES`](crate::MAX_DIRECTORIES). Memory
/// may be refused too.
pub fn directories(alloc: Global, list: &[&[u8]]) -> Result<Vec<Directory>, Refusal>
    ensures ok { IfOk result (λ directories.
        search_list (map (λ bytes. bytes.now) list.now) ≡ Ok directories.items) }
    ensures err { IfErr result (λ refusal. refusal ≢ Refusal.NoMemory
        → search_list (map (λ bytes. bytes.now) list.now) ≡ Err refusal) }
{
    if !are_directories(list) {
        return Err(Refusal::BadName);
    }
    if list.len() > MAX_DIRECTORIES {
        return Err(Refusal::OverLimit);
    }
    let mut directories = Vec::new(alloc);
    for bytes in list {
        directories.push(Directory::new(bytes).unwrap())?;
    }
    Ok(directories)
}

fn are_directories(list: &[&[u8]]) -> bool
    ensures { result ≡ list_all (λ bytes. is_directory bytes.now) list.now }
{
    list.iter().all(|bytes| is_directory(bytes))
}

fn is_directory(bytes: &[u8]) -> bool
    ensures { result ≡ is_directory bytes.now }
{
    Directory::new(bytes).is_some()
}
