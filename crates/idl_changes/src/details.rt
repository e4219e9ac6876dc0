//! What entries that belong together tell behind their ids.

ghost use Rattle.std.specs.Prelude.{◌≡◌, ◌++◌, OnOk};
ghost use Rattle.idl_changes.specs.Differences.{attribute_differences, details_differences, members_differences, operation_differences, parts_differences, readonly_line, set_differences};

use crate::change::Difference;
use crate::lists::{Lists, compare_lists};
use crate::parts::{compare_contexts, compare_flags, compare_values, push_changed};
use crate::rows::{Item, Line};
use crate::sets::{compare_bases, compare_references};
use crate::sides::Sides;
use crate::types::{compare_constant_types, compare_types};
use crate::unions::compare_unions;
use idl_base::Seq;
use idl_repo::details::{
    AttributeTree, DeclaredType, MemberTree, OperationTree, RowDetails, TypeCodeParts, code_word,
};
use std::alloc::AllocError;

/// Compares what two rows of one kind tell, which isn't that of interfaces.
pub fn compare_details(
    sides: &Sides<'_>,
    old: &RowDetails,
    new: &RowDetails,
    out: &mut Vec<Difference>,
) -> Result<(), AllocError>
    ensures { OnOk result (out.new.items ≡ out.old.items
        ++ details_differences sides.now.0 sides.now.1 old.now new.now) }
{
    match (old, new) {
        (RowDetails::Nothing, RowDetails::Nothing) => Ok(()),
        (RowDetails::Type(old), RowDetails::Type(new)) => {
            let was = (old, &old.code.parts);
            compare_parts(sides, was, (new, &new.code.parts), out)
        }
        (RowDetails::Constant(old), RowDetails::Constant(new)) => {
            compare_constant_types(sides, &old.data_type, &new.data_type, out)?;
            compare_values(&old.value, &new.value, out)
        }
        (RowDetails::Attribute(old), RowDetails::Attribute(new)) => {
            compare_attributes(sides, old, new, out)
        }
        (RowDetails::Operation(old), RowDetails::Operation(new)) => {
            compare_operations(sides, old, new, out)
        }
        _ => {
            let was: &[u8] = b"old";
            let is: &[u8] = b"new";
            push_changed(Line::Kind, b"row", (was, is), out)
        }
    }
}

// Compares what stands behind the names in TypeCodes.
fn compare_parts(
    sides: &Sides<'_>,
    old: (&DeclaredType, &TypeCodeParts),
    new: (&DeclaredType, &TypeCodeParts),
    out: &mut Vec<Difference>,
) -> Result<(), AllocError>
    ensures { OnOk result (out.new.items ≡ out.old.items
        ++ parts_differences sides.now.0 sides.now.1 old.entry.0.now new.entry.0.now
        old.entry.1.now new.entry.1.now) }
{
    match (old.1, new.1) {
        (TypeCodeParts::ObjectReference, TypeCodeParts::ObjectReference)
        | (TypeCodeParts::LocalInterface, TypeCodeParts::LocalInterface)
        | (TypeCodeParts::Native, TypeCodeParts::Native) => Ok(()),
        (TypeCodeParts::Structure(was), TypeCodeParts::Structure(is))
        | (TypeCodeParts::Exception(was), TypeCodeParts::Exception(is)) => {
            compare_members(sides, (old.0, was), (new.0, is), out)
        }
        (TypeCodeParts::Union(was), TypeCodeParts::Union(is)) => {
            compare_unions(sides, was, is, out)
        }
        (TypeCodeParts::Enumeration(was), TypeCodeParts::Enumeration(is)) => {
            let lists = Lists {
                item: Item::Enumerator,
                before: was.as_slice(),
                after: is.as_slice(),
            };
            compare_lists(sides, &lists, out)
        }
        (TypeCodeParts::Alias(was), TypeCodeParts::Alias(is)) => {
            compare_types(sides, b"type", (was, is), out)
        }
        _ => push_changed(
            Line::Kind,
            b"TypeCode",
            (code_word(old.1), code_word(new.1)),
            out,
        ),
    }
}

// Compares the bases and members of structs, and the members of exceptions.
fn compare_members(
    sides: &Sides<'_>,
    old: (&DeclaredType, &Seq<MemberTree>),
    new: (&DeclaredType, &Seq<MemberTree>),
    out: &mut Vec<Difference>,
) -> Result<(), AllocError>
    ensures { OnOk result (out.new.items ≡ out.old.items
        ++ members_differences sides.now.0 sides.now.1 old.entry.0.now new.entry.0.now
        old.entry.1.now new.entry.1.now) }
{
    compare_bases(sides, old.0.bases.as_slice(), new.0.bases.as_slice(), out)?;
    let lists = Lists {
        item: Item::Member,
        before: old.1.as_slice(),
        after: new.1.as_slice(),
    };
    compare_lists(sides, &lists, out)
}

// Compares attributes: what reading them raises, and where both may be written, what that does.
fn compare_attributes(
    sides: &Sides<'_>,
    old: &AttributeTree,
    new: &AttributeTree,
    out: &mut Vec<Difference>,
) -> Result<(), AllocError>
    ensures { OnOk result (out.new.items ≡ out.old.items
        ++ attribute_differences sides.now.0 sides.now.1 old.now new.now) }
{
    compare_types(sides, b"type", (&old.data_type, &new.data_type), out)?;
    let flags = (old.is_readonly, new.is_readonly);
    compare_flags(readonly_line(old.is_readonly), b"readonly", flags, out)?;
    let raised = (old.raised.as_slice(), new.raised.as_slice());
    compare_references(sides, b"exception of get", raised, out)?;
    compare_writing(sides, old, new, out)
}

// The line of readonly, where it is taken off or put on.
fn readonly_line(was: bool) -> Line
    ensures { result ≡ readonly_line was }
{
    if was {
        Line::ReadonlyOff
    } else {
        Line::ReadonlyOn
    }
}

// Compares what writing attributes raises, where both may be written.
fn compare_writing(
    sides: &Sides<'_>,
    old: &AttributeTree,
    new: &AttributeTree,
    out: &mut Vec<Difference>,
) -> Result<(), AllocError>
    ensures { OnOk result (out.new.items ≡ out.old.items
        ++ set_differences sides.now.0 sides.now.1 old.now new.now) }
{
    if old.is_readonly || new.is_readonly {
        return Ok(());
    }
    let raised = (old.raised_by_set.as_slice(), new.raised_by_set.as_slice());
    compare_references(sides, b"exception of set", raised, out)
}

// Compares operations.
fn compare_operations(
    sides: &Sides<'_>,
    old: &OperationTree,
    new: &OperationTree,
    out: &mut Vec<Difference>,
) -> Result<(), AllocError>
    ensures { OnOk result (out.new.items ≡ out.old.items
        ++ operation_differences sides.now.0 sides.now.1 old.now new.now) }
{
    compare_types(sides, b"type", (&old.data_type, &new.data_type), out)?;
    let lists = Lists {
        item: Item::Parameter,
        before: old.parameters.as_slice(),
        after: new.parameters.as_slice(),
    };
    compare_lists(sides, &lists, out)?;
    let flags = (old.is_oneway, new.is_oneway);
    compare_flags(Line::Oneway, b"oneway", flags, out)?;
    let raised = (old.raised.as_slice(), new.raised.as_slice());
    compare_references(sides, b"exception", raised, out)?;
    compare_contexts(old.contexts.as_slice(), new.contexts.as_slice(), out)
}
