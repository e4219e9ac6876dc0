//! The task: the entry of a name.

ghost use Rattle.std.specs.Option.{option_copied};
ghost use Rattle.std.specs.Prelude.{◌≡◌, IfOk, OnOk};
ghost use Rattle.idl_memo.specs.Query.{outcome, run};
ghost use Rattle.idl_repo.specs.Entry.{IsPushed, closing_fault, entry, entry_in, pushed_entry};
ghost use Rattle.idl_env.specs.Facts.{answers, entity_in};
ghost use Rattle.idl_env.specs.keys.Key.{key_eq};

use crate::row_writer::RowWriter;
use idl_base::Bytes;
use idl_entity::{Entity, Kind, Path, Stage};
use idl_env::{Answer, Env, LentKey, entity_in};
use idl_fault::Code;
use idl_memo::{Journal, Log, Runnable, Task, TaskKind};
use std::alloc::{AllocError, Global};

/// The printing of a name, which has an id: of what is declared at this path.
#[derive(Drop)]
pub struct EntryTask {
    pub path: Path,
}

/// What comes of it at the root's end.
pub struct Entry {
    /// The row of a listing.
    pub row: Option<Bytes>,
    /// A struct, union or interface that is never defined.
    pub fault: Option<Code>,
}

impl Drop for Entry {
    fn drop(self) {
        let Entry {
            row: _row,
            fault: _fault,
        } = self;
    }
}

/// What is told of an entry whose row is written behind other bytes.
#[derive(Clone, Copy)]
pub struct Pushed {
    /// Whether it has a row.
    pub has_row: bool,
    /// What is wrong with the name.
    pub fault: Option<Code>,
}

impl Pushed {
    // The entry whose row is all of these bytes.
    fn entry(&self, alloc: Global, row: &[u8]) -> Result<Entry, AllocError>
        ensures { IfOk result (λ e. e ≡ pushed_entry self.now row.now) }
    {
        let mut entry = Entry {
            row: None,
            fault: self.fault,
        };
        if self.has_row {
            entry.row = Some(Bytes::from_slice(alloc, row)?);
        }
        Ok(entry)
    }
}

impl Task<Env> for EntryTask {
    ghost use Rattle.idl_entity.specs.Digest.{path_digest};
    ghost use Rattle.idl_repo.specs.Entry.{entry};
    ghost use Rattle.idl_value.specs.Spelled.{scope_of};

    type Text = Path;

    type Out = Entry;

    ghost text_of = { λ task. task.path };

    ghost query = { entry };

    ghost hint_of = { λ path _. path_digest (scope_of path) };

    // The scope around.
    fn hint(&self, _bank: &Env) -> u64 {
        self.path.around().digest()
    }

    fn text(&self) -> &Path {
        &self.path
    }
}

impl Runnable<Env> for EntryTask {
    ghost use Rattle.idl_memo.specs.declared.task.TaskKind.TheVariants.{Print};

    // The buffer in which a row is written before it is copied.
    type Scratch = Vec<u8>;

    const KIND: TaskKind = TaskKind::Print;

    ghost KIND = { Print };

    fn run(
        &self,
        alloc: Global,
        bank: &Env,
        scratch: &mut Vec<u8>,
        log: &mut Log<Env>,
    ) -> Result<Entry, AllocError> {
        let mut journal = Journal::taking(alloc, log);
        let entry = entry_at(scratch, bank, &mut journal, &self.path);
        journal.give_back(log)?;
        entry
    }
}

/// The entry of the name at a path. Its row is written in a buffer before it is copied: what stands there is given up, and many
/// entries may be written in one. What it asks goes into the journal, behind what is there.
///
/// After want of memory nothing is said of the journal, nor of the buffer.
#[tactic(auto, unfolding(crate::specs::Entry::entry))]
pub fn entry_at(
    buffer: &mut Vec<u8>,
    env: &Env,
    log: &mut Journal<Env>,
    path: &Path,
) -> Result<Entry, AllocError>
    ensures { IfOk result (λ e.
        (e, log.new) ≡ run key_eq (entry path.now) (answers env.now) log.old) }
{
    let key = LentKey::of_entity(env.alloc(), path);
    let answer = log.ask_lent(&key, env)?;
    buffer.clear();
    let pushed = push_entry(buffer, env, log, answer)?;
    let entry = pushed.entry(env.alloc(), buffer.as_slice())?;
    Ok(entry)
}

/// The entry of what this is answered of. Its row is written behind what stands in a buffer, and is not copied.
#[inline(always)]
pub fn push_entry(
    buffer: &mut Vec<u8>,
    env: &Env,
    log: &mut Journal<Env>,
    answer: Option<&Answer>,
) -> Result<Pushed, AllocError>
    ensures entry { IfOk result (λ pushed.
        IsPushed (outcome (entry_in (entity_in (option_copied answer.entry))) (answers env.now))
        pushed buffer.old.items buffer.new.items) }
    ensures log { OnOk result
        (log.new
        ≡ (run key_eq (entry_in (entity_in (option_copied answer.entry)))
        (answers env.now) log.old).1) }
{
    let Some(entity) = entity_in(answer) else {
        return Ok(Pushed {
            has_row: false,
            fault: None,
        });
    };
    let mut row = RowWriter::taking(buffer, env, log);
    row.push_row(entity.get())?;
    row.give_back(buffer, log);
    Ok(Pushed {
        has_row: true,
        fault: closing_fault(entity.get()),
    })
}

// What is wrong with a declared name at the root's end.
fn closing_fault(entity: &Entity) -> Option<Code>
    ensures { result ≡ closing_fault entity.now }
{
    if entity.stage() != Stage::Ahead {
        return None;
    }
    if entity.kind() == Kind::Interface {
        Some(Code::InterfaceNeverDefined)
    } else {
        Some(Code::NeverDefined)
    }
}
