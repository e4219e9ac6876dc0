//! Unions, which are compared by what each label selects: neither the order of cases nor which labels share one counts.

ghost use Rattle.std.specs.Prelude.{◌≡◌, ◌++◌, OnOk, flat_map, option_copied};
ghost use Rattle.idl_changes.specs.Differences.{case_differences, cases_differences, label_differences, new_label, new_label_differences, old_label_differences, selection_differences, union_differences};
ghost use Rattle.idl_changes.specs.Plain.{enumerators};

use crate::change::{Difference, Turn};
use crate::keys::NumberedText;
use crate::labels::Labels;
use crate::parts::{compare_texts, part_of, push_told};
use crate::rows::Line;
use crate::sides::Sides;
use crate::types::compare_types;
use idl_base::Bytes;
use idl_repo::details::{CaseTree, UnionTree};
use std::alloc::AllocError;

// What a label, or `default`, selected and selects: the lines of the table where that is gone or new, and its name.
#[derive(Drop)]
struct Choice<'p> {
    gone: Line,
    added: Line,
    part: &'p [u8],
}

/// Compares unions.
#[tactic(auto, unfolding(crate::specs::Differences::union_differences))]
pub fn compare_unions(
    sides: &Sides<'_>,
    old: &UnionTree,
    new: &UnionTree,
    out: &mut Vec<Difference>,
) -> Result<(), AllocError>
    ensures { OnOk result (out.new.items
        ≡ out.old.items ++ union_differences sides.now.0 sides.now.1 old.now new.now) }
{
    let types = (&old.discriminator, &new.discriminator);
    compare_types(sides, b"discriminator", types, out)?;
    compare_bodies(sides, old, new, out)
}

// Compares what stands behind the types of their discriminators.
fn compare_bodies(
    sides: &Sides<'_>,
    old: &UnionTree,
    new: &UnionTree,
    out: &mut Vec<Difference>,
) -> Result<(), AllocError>
    ensures { OnOk result (out.new.items ≡ out.old.items
        ++ cases_differences sides.now.0 sides.now.1
        (enumerators sides.now.0 old.now.discriminator, old.now.cases)
        (enumerators sides.now.1 new.now.discriminator, new.now.cases)) }
{
    let alloc = *out.allocator();
    let old_names = sides.before().enumerators(&old.discriminator)?;
    let old_labels = Labels::new(alloc, old_names, old.cases.as_slice())?;
    let new_names = sides.after().enumerators(&new.discriminator)?;
    let new_labels = Labels::new(alloc, new_names, new.cases.as_slice())?;
    compare_cases(sides, &old_labels, &new_labels, out)
}

// Compares what labels select, and what `default` does.
fn compare_cases(
    sides: &Sides<'_>,
    old: &Labels<'_>,
    new: &Labels<'_>,
    out: &mut Vec<Difference>,
) -> Result<(), AllocError>
    ensures { OnOk result (out.new.items
        ≡ out.old.items ++ cases_differences sides.now.0 sides.now.1 old.now new.now) }
{
    compare_old_labels(sides, old, new, out)?;
    compare_new_labels(sides, old, new, out)?;
    let choice = Choice {
        gone: Line::DefaultGone,
        added: Line::DefaultNew,
        part: b"default",
    };
    let selected = (old.default_case(), new.default_case());
    compare_selected(sides, &choice, selected, out)
}

// Compares what each label of the old union selects.
fn compare_old_labels(
    sides: &Sides<'_>,
    old: &Labels<'_>,
    new: &Labels<'_>,
    out: &mut Vec<Difference>,
) -> Result<(), AllocError>
    ensures { OnOk result (out.new.items ≡ out.old.items
        ++ flat_map (old_label_differences sides.now.0 sides.now.1 old.now new.now) old.now.1) }
{
    for case in old.cases() {
        compare_old_label(sides, (old, new), case, out)?;
    }
    Ok(())
}

// Compares what the label of an old case selects, if it has one.
fn compare_old_label(
    sides: &Sides<'_>,
    unions: (&Labels<'_>, &Labels<'_>),
    case: &CaseTree,
    out: &mut Vec<Difference>,
) -> Result<(), AllocError>
    ensures { OnOk result (out.new.items ≡ out.old.items ++ old_label_differences sides.now.0
        sides.now.1 unions.entry.0.now unions.entry.1.now case.now) }
{
    let Some(text) = &case.label else {
        return Ok(());
    };
    let label = unions.0.label_of(text)?;
    compare_label(sides, unions, (text, &label), out)
}

// Compares what each label selects that the new union has besides.
fn compare_new_labels(
    sides: &Sides<'_>,
    old: &Labels<'_>,
    new: &Labels<'_>,
    out: &mut Vec<Difference>,
) -> Result<(), AllocError>
    ensures { OnOk result (out.new.items ≡ out.old.items
        ++ flat_map (new_label_differences sides.now.0 sides.now.1 old.now new.now) new.now.1) }
{
    for case in new.cases() {
        compare_new_label(sides, (old, new), case, out)?;
    }
    Ok(())
}

// Compares what the label of a new case selects, if it has one that the old union hasn't.
fn compare_new_label(
    sides: &Sides<'_>,
    unions: (&Labels<'_>, &Labels<'_>),
    case: &CaseTree,
    out: &mut Vec<Difference>,
) -> Result<(), AllocError>
    ensures { OnOk result (out.new.items ≡ out.old.items ++ new_label_differences sides.now.0
        sides.now.1 unions.entry.0.now unions.entry.1.now case.now) }
{
    let Some(text) = &case.label else {
        return Ok(());
    };
    let label = unions.1.label_of(text)?;
    compare_added(sides, unions, (text, &label), out)
}

// Compares what a label selects, unless the old union has it.
fn compare_added(
    sides: &Sides<'_>,
    unions: (&Labels<'_>, &Labels<'_>),
    named: (&Bytes, &NumberedText),
    out: &mut Vec<Difference>,
) -> Result<(), AllocError>
    ensures { OnOk result (out.new.items ≡ out.old.items ++ new_label sides.now.0 sides.now.1
        unions.entry.0.now unions.entry.1.now named.entry.0.now named.entry.1.now) }
{
    if unions.0.labelled(named.1).is_some() {
        return Ok(());
    }
    compare_label(sides, unions, named, out)
}

// Compares what a label selects.
fn compare_label(
    sides: &Sides<'_>,
    unions: (&Labels<'_>, &Labels<'_>),
    named: (&Bytes, &NumberedText),
    out: &mut Vec<Difference>,
) -> Result<(), AllocError>
    ensures { OnOk result (out.new.items ≡ out.old.items ++ label_differences sides.now.0
        sides.now.1 unions.entry.0.now unions.entry.1.now named.entry.0.now named.entry.1.now) }
{
    let (text, label) = named;
    let part = part_of(*out.allocator(), b"case ", text.as_bytes())?;
    let choice = Choice {
        gone: Line::CaseGone,
        added: Line::CaseNew,
        part: &part,
    };
    let before = unions.0.selected(label);
    let after = unions.1.selected(label);
    compare_selected(sides, &choice, (before, after), out)
}

// Compares what was selected with what is.
fn compare_selected(
    sides: &Sides<'_>,
    choice: &Choice<'_>,
    selected: (Option<&CaseTree>, Option<&CaseTree>),
    out: &mut Vec<Difference>,
) -> Result<(), AllocError>
    ensures { OnOk result (out.new.items ≡ out.old.items
        ++ selection_differences sides.now.0 sides.now.1 choice.now.gone choice.now.added
        choice.now.part.now (option_copied selected.entry.0) (option_copied selected.entry.1)) }
{
    match selected {
        (None, None) => Ok(()),
        (Some(_old), None) => push_told(choice.gone, choice.part, Turn::Gone, out),
        (None, Some(_new)) => push_told(choice.added, choice.part, Turn::New, out),
        (Some(old), Some(new)) => compare_members(sides, choice.part, (old, new), out),
    }
}

// Compares the members of cases.
fn compare_members(
    sides: &Sides<'_>,
    part: &[u8],
    cases: (&CaseTree, &CaseTree),
    out: &mut Vec<Difference>,
) -> Result<(), AllocError>
    ensures { OnOk result (out.new.items ≡ out.old.items ++ case_differences sides.now.0
        sides.now.1 part.now cases.entry.0.now cases.entry.1.now) }
{
    let (old, new) = (&cases.0.member, &cases.1.member);
    let of_type = part_of(*out.allocator(), b"type of ", part)?;
    compare_types(sides, &of_type, (&old.data_type, &new.data_type), out)?;
    let of_name = part_of(*out.allocator(), b"name of ", part)?;
    let names = (old.name.as_bytes(), new.name.as_bytes());
    compare_texts(Line::CaseName, &of_name, names, out)
}
