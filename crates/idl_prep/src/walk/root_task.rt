//! The task of a root: its expansion over a bank.

ghost use Rattle.std.specs.Prelude.{◌≡◌, Some, IfOk, OnOk, flat_map, slice_get};
ghost use Rattle.std.specs.Option.{option_copied, option_to_list};
ghost use Rattle.idl_event.specs.Expanding.{reached};
ghost use Rattle.idl_fault.specs.declared.code.Code.TheVariants.{NotFound};
ghost use Rattle.idl_event.specs.declared.told.event.Event.TheVariants.{Fault};
ghost use Rattle.idl_event.specs.declared.told.event.Item.TheVariants.{Kept};
ghost use Rattle.idl_prep.specs.Root as spec;
ghost use Rattle.idl_prep.specs.Root.{absent_files, expansion};
ghost use Rattle.idl_prep.specs.State.{nothing_said, telling};

use crate::MAX_DEPTH;
use crate::directives::text::text_of;
use crate::walk::file::walk_file;
use crate::walk::root::Root;
use crate::walk::walked_file::WalkedFile;
use idl_event::{Expansion, RootBank, RootKey};
use idl_fault::{Code, FileName, Place};
use idl_memo::{KeptLog, Log, Runnable, Task, TaskKind};
use idl_source::Name;
use std::alloc::{AllocError, Global};
use std::mem::replace;

/// The expansion of the root with this name.
#[derive(Drop)]
pub struct RootTask {
    name: Name,
}

impl RootTask {
    /// The task of the root with this name. It takes no memory.
    pub fn new(name: Name) -> RootTask
        ensures { result.name ≡ name }
    {
        RootTask { name }
    }
}

impl<B: RootBank> Task<B> for RootTask {
    ghost use Rattle.idl_prep.specs.Root.{expansion};

    type Text = Name;

    type Out = Expansion;

    ghost text_of = { λ task. task.name };

    ghost query = { expansion };

    ghost hint_of = { λ _ _. 0 };

    fn text(&self) -> &Name {
        &self.name
    }

    fn hint(&self, _bank: &B) -> u64 {
        0
    }
}

impl<B: RootBank> Runnable<B> for RootTask {
    ghost use Rattle.std.specs.Prelude.{◌≡◌};
    ghost use Rattle.idl_memo.specs.declared.task.TaskKind.TheVariants.{Expand};

    type Scratch = ();

    const KIND: TaskKind = TaskKind::Expand;

    ghost KIND = { Expand };

    fn run(
        &self,
        alloc: Global,
        bank: &B,
        _scratch: &mut (),
        log: &mut Log<B>,
    ) -> Result<Expansion, AllocError> {
        let file = FileName::new(alloc, &self.name)?;
        let before = replace(log, Log::new(alloc));
        let mut root = Root::new(alloc, before);
        expand(&mut root, &file, bank)?;
        let (events, logged) = root.into_parts();
        *log = logged;
        let expansion = events.build(alloc)?;
        Ok(expansion)
    }
}

// A root asks for its file, and where it is there its lines are walked.
fn expand<B: RootBank>(root: &mut Root<B>, file: &FileName, bank: &B) -> Result<(), AllocError>
    requires { root.old.state ≡ nothing_said }
    ensures { OnOk result (root.new.progress
        ≡ reached (B.at bank.now) (spec.root file.now) root.old.progress) }
{
    match root.file_named(file, bank)? {
        Some(lexed) => walk_file(root, MAX_DEPTH - 1, &WalkedFile { file, bank }, lexed),
        None => fault_absent(root, file),
    }
}

// The file of a root isn't there.
fn fault_absent<B: RootBank>(root: &mut Root<B>, file: &FileName) -> Result<(), AllocError>
    ensures { let fault = Fault (record { file = file.now; line = 0 }) NotFound (Some file.now) in
        OnOk result (root.new ≡ telling (Kept fault) root.old) }
{
    let text = text_of(root.allocator(), file.as_bytes())?;
    let place = Place {
        file: file.clone()?,
        line: 0,
    };
    root.fault(place, Code::NotFound, &text)
}

/// The files that a root asked for and that aren't there, in the order in which they were first asked.
pub fn absent<B: RootBank>(alloc: Global, log: &KeptLog<B>) -> Result<Vec<Name>, AllocError>
    ensures { IfOk result (λ names. names.items ≡ absent_files log.now) }
{
    let mut names = Vec::new(alloc);
    'entries: for index in 0..log.len() {
        let Some(name) = absent_at(log, index) else {
            continue;
        };
        names.push(name.name())?;
    }
    Ok(names)
}

// The file of an entry that isn't there, if the entry is of one.
fn absent_at<B: RootBank>(log: &KeptLog<B>, index: usize) -> Option<&FileName>
    ensures { option_to_list (option_copied result)
        ≡ flat_map spec.absent_file (option_to_list (slice_get log.now index)) }
{
    match log.get(index) {
        Some((RootKey::File(name), None)) => Some(name),
        _ => None,
    }
}
