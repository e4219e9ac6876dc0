//! The compilation of a root over files, macros and directories.

ghost use Rattle.std.specs.Prelude.{◌≡◌, IfOk, OnOk};
ghost use Rattle.std.specs.Option.{option_copied};
ghost use Rattle.idl_event.specs.Key.{key_eq};
ghost use Rattle.idl_memo.specs.Kept.{HoldsOver};
ghost use Rattle.idl_prep.specs.Root.{expanded, expansion};
ghost use Rattle.idl_root.specs.Turns.{FitsU64};
ghost use Rattle.idl_inputs.specs.Bank.{bank_of};
ghost use Rattle.idl_sources.specs.Compile.{compile_over, compiled_root, end_of, line_count};

use idl_base::Seq;
use idl_event::{RootAnswer, RootBank, RootKey};
use idl_fault::{FileName, Place};
use idl_inputs::SessionBank;
use idl_inputs::expanding::{KeptExpansion, expanded_alone};
use idl_inputs::reading::{absent_names, root_expansion, root_name};
use idl_root::{Compiled, Memory};
use idl_source::Name;
use std::alloc::{AllocError, Global};

/// What a root compiles to: its rows, and the files that it asks for and that aren't there, in the order first asked.
pub struct CompiledRoot {
    pub rows: Compiled,
    pub absent: Seq<Name>,
}

impl Drop for CompiledRoot {
    fn drop(self) {
        let CompiledRoot {
            rows: _rows,
            absent: _absent,
        } = self;
    }
}

/// Compiles a root over a bank, in which its own file may be absent. Nothing is kept of it.
pub fn compile_alone(
    memory: &mut Memory,
    bank: &SessionBank,
    root: &Name,
) -> Result<CompiledRoot, AllocError>
    ensures compiled { IfOk result (λ compiled. compiled ≡ compiled_root bank.now root.now) }
    ensures within { OnOk result (FitsU64 (expanded root.now (bank_of bank.now)).0) }
{
    let kept = expanded_alone(memory.alloc(), bank, root)?;
    compile(memory, bank, &kept)
}

/// Compiles a root over a bank, in which its own file may be absent, from the result of its task.
pub fn compile<B: RootBank>(
    memory: &mut Memory,
    bank: &B,
    kept: &KeptExpansion,
) -> Result<CompiledRoot, AllocError>
    requires { HoldsOver key_eq expansion (B.at bank.now) kept.now }
    ensures compiled { IfOk result (λ compiled.
        compiled ≡ compile_over (B.at bank.now) kept.now.text) }
    ensures within { OnOk result (FitsU64 (expanded kept.now.text (B.at bank.now)).0) }
{
    let alloc = memory.alloc();
    let end = end_of(alloc, bank, root_name(kept))?;
    let rows = idl_root::compile(memory, &end, root_expansion(kept))?;
    let names = absent_names(alloc, kept)?;
    Ok(CompiledRoot {
        rows,
        absent: Seq::from_vec(names),
    })
}

/// The end of a root: its number of lines.
pub fn end_of<B: RootBank>(alloc: Global, bank: &B, root: &Name) -> Result<Place, AllocError>
    ensures { IfOk result (λ place. place ≡ end_of (B.at bank.now) root.now) }
{
    let file = FileName::new(alloc, root)?;
    let line = line_count(bank.answer(&RootKey::File(file.clone()?)));
    Ok(Place { file, line })
}

// The number of lines of an answered file.
fn line_count(answer: Option<&RootAnswer>) -> u32
    ensures { result ≡ line_count (option_copied answer.entry) }
{
    match answer {
        Some(RootAnswer::File(text)) => text.file().line_count() as u32,
        _ => 0,
    }
}
