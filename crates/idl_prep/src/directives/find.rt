//! The file that an include finds.

ghost use Rattle.std.specs.Prelude.{◌≡◌, IfOk, OnOk};
ghost use Rattle.std.specs.Option.{option_copied, option_to_list};
ghost use Rattle.idl_memo.specs.Progress.{after_key};
ghost use Rattle.idl_event.specs.Expanding.{arrival, arrived};
ghost use Rattle.idl_event.specs.Key.{key_eq};
ghost use Rattle.idl_event.specs.declared.asked.key.RootKey.TheVariants.{File};
ghost use Rattle.idl_prep.specs.Include.{directories_in, file_in, file_of, first_present, present_along};
ghost use Rattle.idl_source.specs.names.Path.{joined_path};

use crate::directives::operand::IncludeOperand;
use idl_event::{LexedFile, Progress, RootAnswer, RootBank, RootKey};
use idl_fault::FileName;
use idl_source::path::is_rooted;
use idl_source::{Directory, join};
use std::alloc::AllocError;
use std::marker::Model;

/// A file that is there: its name, and the file.
#[derive(Drop)]
pub struct FoundFile<'b> {
    pub name: FileName,
    pub file: &'b LexedFile,
}

impl<'b> Model for FoundFile<'b> {
    ghost use Rattle.idl_prep.specs.Include as spec;

    ghost Value = { spec.Found };

    ghost view = { λ found. record { name = found.name; lines = found.file.now } };
}

/// The file that an operand finds from another file.
pub fn find<'b, B: RootBank>(
    from: &FileName,
    operand: &IncludeOperand,
    bank: &'b B,
    progress: &mut Progress<B>,
) -> Result<Option<FoundFile<'b>>, AllocError>
    ensures { IfOk result (λ found. arrived found progress.new
        ≡ arrival (B.at bank.now) (file_of from.now operand.now) progress.old) }
{
    let beside = from.name().directory();
    let name = operand.name();
    if is_rooted(name) {
        return present(&beside, name, bank, progress);
    }
    if !operand.is_quoted() {
        return present_along(name, bank, progress);
    }
    match present(&beside, name, bank, progress)? {
        Some(found) => Ok(Some(found)),
        None => present_along(name, bank, progress),
    }
}

// The first file along the search list.
fn present_along<'b, B: RootBank>(
    name: &[u8],
    bank: &'b B,
    progress: &mut Progress<B>,
) -> Result<Option<FoundFile<'b>>, AllocError>
    ensures { IfOk result (λ found. arrived found progress.new
        ≡ arrival (B.at bank.now) (present_along name.now) progress.old) }
{
    let directories = directories_in(progress.ask(&RootKey::Search, bank)?);
    'directories: for directory in directories {
        if let Some(found) = present(directory, name, bank, progress)? {
            return Ok(Some(found));
        }
    }
    Ok(None)
}

// The file that the operand makes in the directory, where it is present.
fn present<'b, B: RootBank>(
    directory: &Directory,
    name: &[u8],
    bank: &'b B,
    progress: &mut Progress<B>,
) -> Result<Option<FoundFile<'b>>, AllocError>
    ensures { let names = option_to_list (joined_path directory.now name.now) in
        IfOk result (λ found. arrived found progress.new
        ≡ arrival (B.at bank.now) (first_present names) progress.old) }
{
    let Some(name) = join(directory, name) else {
        return Ok(None);
    };
    let name = FileName::new(progress.allocator(), &name)?;
    match file_named(&name, bank, progress)? {
        Some(file) => Ok(Some(FoundFile { name, file })),
        None => Ok(None),
    }
}

/// The file with this name, which is asked of the bank.
pub fn file_named<'b, B: RootBank>(
    name: &FileName,
    bank: &'b B,
    progress: &mut Progress<B>,
) -> Result<Option<&'b LexedFile>, AllocError>
    ensures file { let answer = B.at bank.now (File name.now) in
        IfOk result (λ file. option_copied file ≡ file_in answer) }
    ensures progress { OnOk result (progress.new
        ≡ after_key key_eq (B.at bank.now) (File name.now) progress.old) }
{
    let answer = progress.ask(&RootKey::File(name.clone()?), bank)?;
    Ok(file_in(answer))
}

// The file that is answered, if one is.
fn file_in(answer: Option<&RootAnswer>) -> Option<&LexedFile>
    ensures { option_copied result ≡ file_in (option_copied answer.entry) }
{
    match answer {
        Some(RootAnswer::File(file)) => Some(file),
        _ => None,
    }
}

// The directories that are answered.
fn directories_in(answer: Option<&RootAnswer>) -> &[Directory]
    ensures { result.now ≡ directories_in (option_copied answer.entry) }
{
    match answer {
        Some(RootAnswer::Search(directories)) => directories.as_slice(),
        _ => &[],
    }
}
