//! What is asked for of two versions of files.

ghost use Rattle.std.specs.Prelude.{◌≡◌, IfOk, map};
ghost use Rattle.std.specs.Option.{option_map};
ghost use Rattle.clap.specs.Words.{found_of, rows_of};
ghost use Rattle.idl_tool.specs.Words.{AreSideOf, all_below, below, below_in, files_in, new_directories, new_files, old_directories, old_files};

use clap::ArgMatches;
use idl_driver::{Options, values_of};
use idl_source::path::is_rooted;
use std::alloc::{AllocError, Global};

/// The directory of `--old`, if it stands there.
pub fn below_of<'a>(matches: &ArgMatches<'a>) -> Option<&'a str>
    ensures { option_map (λ w. w.now) result ≡ below_in (rows_of (found_of matches.now)) }
{
    matches.get_str("below")
}

/// What is asked for of OLD.
pub fn old_side<'a>(alloc: Global, matches: &ArgMatches<'a>) -> Result<Options<'a>, AllocError>
    ensures { let rows = rows_of (found_of matches.now) in IfOk result
        (AreSideOf (old_files (below_in rows) (files_in rows)) (old_directories rows) rows) }
{
    let below = below_of(matches);
    let given = values_of(alloc, matches, "file")?;
    let files = old_files(alloc, below, &given)?;
    let mut directories = values_of(alloc, matches, "old-directory")?;
    let shared = values_of(alloc, matches, "directory")?;
    let others = all_below(alloc, below, &shared)?;
    directories.extend_from_slice(&others)?;
    side_of(alloc, matches, files, directories)
}

/// What is asked for of NEW.
pub fn new_side<'a>(alloc: Global, matches: &ArgMatches<'a>) -> Result<Options<'a>, AllocError>
    ensures { let rows = rows_of (found_of matches.now) in IfOk result
        (AreSideOf (new_files (below_in rows) (files_in rows)) (new_directories rows) rows) }
{
    let given = values_of(alloc, matches, "file")?;
    let files = new_files(alloc, below_of(matches), &given)?;
    let mut directories = values_of(alloc, matches, "new-directory")?;
    let shared = values_of(alloc, matches, "directory")?;
    directories.extend_from_slice(&shared)?;
    side_of(alloc, matches, files, directories)
}

// What is asked for of a version, which has these files and directories.
fn side_of<'a>(
    alloc: Global,
    matches: &ArgMatches<'a>,
    files: Vec<&'a str>,
    directories: Vec<&'a str>,
) -> Result<Options<'a>, AllocError>
    ensures { IfOk result (AreSideOf (map (λ w. w.now) files.entry.items)
        (map (λ w. w.now) directories.entry.items) (rows_of (found_of matches.now))) }
{
    Ok(Options {
        defines: values_of(alloc, matches, "define")?,
        undefines: values_of(alloc, matches, "undefine")?,
        directories,
        files,
        shows_dump: false,
        shows_listing: false,
    })
}

// The FILEs of the old version: below a directory, or the first.
fn old_files<'a>(
    alloc: Global,
    directory: Option<&str>,
    files: &[&'a str],
) -> Result<Vec<&'a str>, AllocError>
    ensures { IfOk result (λ old. map (λ w. w.now) old.items
        ≡ old_files (option_map (λ w. w.now) directory.entry) (map (λ w. w.now) files.now)) }
{
    match (directory, files) {
        (None, [first, ..]) => Vec::from_slice(alloc, &[*first]),
        (None, []) => Ok(Vec::new(alloc)),
        (Some(_), _) => all_below(alloc, directory, files),
    }
}

// The FILEs of the new version: all, or those behind the first.
fn new_files<'a>(
    alloc: Global,
    directory: Option<&str>,
    files: &[&'a str],
) -> Result<Vec<&'a str>, AllocError>
    ensures { IfOk result (λ new. map (λ w. w.now) new.items
        ≡ new_files (option_map (λ w. w.now) directory.entry) (map (λ w. w.now) files.now)) }
{
    match (directory, files) {
        (None, [_, others @ ..]) => Vec::from_slice(alloc, others),
        _ => Vec::from_slice(alloc, files),
    }
}

// These paths below a directory, if there is one.
fn all_below<'a>(
    alloc: Global,
    directory: Option<&str>,
    paths: &[&'a str],
) -> Result<Vec<&'a str>, AllocError>
    ensures { IfOk result (λ all. map (λ w. w.now) all.items
        ≡ all_below (option_map (λ w. w.now) directory.entry) (map (λ w. w.now) paths.now)) }
{
    let Some(directory) = directory else {
        return Vec::from_slice(alloc, paths);
    };
    let mut all = Vec::new(alloc);
    'paths: for path in paths {
        let whole = below(alloc, directory, path)?;
        all.push(whole)?;
    }
    Ok(all)
}

// A path below a directory. It stays till the program ends, as words do.
fn below<'a>(alloc: Global, directory: &str, path: &'a str) -> Result<&'a str, AllocError>
    ensures { IfOk result (λ whole. whole.now ≡ below directory.now path.now) }
{
    if is_rooted(path.as_bytes()) {
        return Ok(path);
    }
    let mut whole = String::from_str(alloc, directory)?;
    whole.push_str("/")?;
    whole.push_str(path)?;
    let boxed = Box::new(alloc, whole)?;
    let kept: &'a String = Box::leak(boxed);
    let text = kept.as_str();
    Ok(text)
}
