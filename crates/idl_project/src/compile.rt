//! The compilation of a root.

ghost use Rattle.std.specs.Prelude.{◌≡◌, ◌⊎◌, ℕ, IfNone, IfOk, IfSome, List, OnOk, map};
ghost use Rattle.std.specs.Option.{option_map, unwrap_or};
ghost use Rattle.idl_event.specs.Key.{key_eq};
ghost use Rattle.idl_event.specs.declared.told.event.Event.{Event};
ghost use Rattle.idl_memo.specs.Kept.{HoldsOver};
ghost use Rattle.idl_prep.specs.Root.{expanded, expansion};
ghost use Rattle.idl_sources.specs.idl_root.AsBefore.{AreListsLeft, IsAsBefore, IsCompiledOf, kept_lists};
ghost use Rattle.idl_finding.specs.Findings.{finding_row};
ghost use Rattle.idl_sources.specs.idl_root.Results.{ExpandsNone, IsKeptOf, root_marks};
ghost use Rattle.idl_sources.specs.idl_root.Turns.{FitsU64};
ghost use Rattle.idl_sources.specs.Compile.{compile_over, end_of};
ghost use Rattle.idl_inputs.specs.Project.{Project};
ghost use Rattle.idl_project.specs.Renewed.{IsDrafted};
ghost use Rattle.idl_project.specs.UpToDate.{diagnostics_of, findings_of};

use idl_base::Seq;
use idl_event::RootBank;
use idl_inputs::expanding::KeptExpansion;
use idl_inputs::reading::{absent_names, root_expansion, root_name};
use idl_memo::Meter;
use idl_sources::idl_root::{Keeper, Marks, RootAfter, RootBefore, telling};
use idl_sources::{CompiledRoot, end_of, idl_root};
use std::alloc::AllocError;
use std::rc::Rc;

/// Compiles a root over a bank, in which its own file may be absent, from the result of its task, beside what it was: what it compiles to,
/// and what its units are, unless they are as they were. The results of its declarations, blocks and entries are kept.
///
/// After want of memory nothing is said of the meter, and there may be drafts more.
pub fn compile_kept<B: RootBank>(
    keeper: &mut Keeper,
    bank: &B,
    root: (&Rc<KeptExpansion>, RootBefore<'_>),
    meter: &mut Meter,
) -> Result<(CompiledRoot, Option<Marks>), AllocError>
    requires over { HoldsOver key_eq expansion (B.at bank.now) root.0.now.value }
    requires kept { (was : List Event)
        × IsKeptOf was root.1.marks.now.value (kept_lists keeper.old root.1.at)
        × IfSome root.1.compiled (λ compiled. IsCompiledOf was compiled.now) }
    ensures compiled { let name = root.entry.0.now.value.text in
        IfOk result (λ r. r.0 ≡ compile_over (B.at bank.now) name) }
    ensures within { let name = root.entry.0.now.value.text in
        OnOk result (FitsU64 (expanded name (B.at bank.now)).0) }
    ensures marks { let name = root.entry.0.now.value.text in
        IfOk result (λ r. unwrap_or r.1 root.entry.1.marks.now.value
        ≡ root_marks (expanded name (B.at bank.now)).0) }
    ensures tasks { let name = root.entry.0.now.value.text in
        OnOk result ((was : List Event)
        → IsKeptOf was root.entry.1.marks.now.value (kept_lists keeper.old root.entry.1.at)
        → IsAsBefore was (expanded name (B.at bank.now)).0 keeper.old keeper.new
        meter.old meter.new
        ⊎ IsDrafted (B.at bank.now) root.entry.1.at name keeper.old keeper.new
        meter.old meter.new) }
    ensures first { let name = root.entry.0.now.value.text in
        OnOk result (IfNone root.entry.1.compiled (IsDrafted (B.at bank.now)
        root.entry.1.at name keeper.old keeper.new meter.old meter.new)) }
    ensures lists { AreListsLeft keeper.old keeper.new }
    ensures others { OnOk result (ExpandsNone meter.old meter.new) }
{
    let alloc = keeper.alloc();
    let (result, before) = root;
    let end = end_of(alloc, bank, root_name(result))?;
    let source = (&end, root_expansion(result));
    let RootAfter {
        compiled: rows,
        marks,
    } = idl_root::compile_kept(keeper, before, source, meter)?;
    let names = absent_names(alloc, result)?;
    let compiled = CompiledRoot {
        rows,
        absent: Seq::from_vec(names),
    };
    Ok((compiled, marks))
}

/// The diagnostics that are answered for a name are the rows of what is found. This does nothing: it carries the law.
pub fn diagnostics_are_findings()
    ensures { (project : Project) (name : List ℕ)
        → diagnostics_of project name
        ≡ option_map (map finding_row) (findings_of project name) }
{
    // It does nothing: it carries the law of a root's rows.
    telling();
}
