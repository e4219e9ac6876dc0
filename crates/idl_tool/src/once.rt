//! Rows of several files, of which what is declared at one place counts once.

ghost use Rattle.std.specs.Prelude.{◌≡◌, IfOk, map};
ghost use Rattle.idl_json.specs.Listed.{row_of};
ghost use Rattle.idl_tool.specs.Compared.{declared_text, each_once};

use crate::diff::push_shown;
use idl_base::Bytes;
use idl_json::ListedRow;
use indexmap::IndexSet;
use std::alloc::{AllocError, Global};

/// Of rows of one path that are declared at one place the first.
pub fn each_once<'d>(
    alloc: Global,
    rows: &[ListedRow<'d>],
) -> Result<Vec<ListedRow<'d>>, AllocError>
    ensures { IfOk result (λ once. map row_of once.items ≡ each_once (map row_of rows.now)) }
{
    let mut keys = IndexSet::new(alloc);
    let mut once = Vec::new(alloc);
    'each: for row in rows {
        let key = declared_text(alloc, row)?;
        let is_new = keys.insert(key)?;
        if !is_new {
            continue;
        }
        once.push(*row)?;
    }
    Ok(once)
}

// Where a row is declared, if that is known, and its path.
fn declared_text(alloc: Global, row: &ListedRow<'_>) -> Result<Bytes, AllocError>
    ensures { IfOk result (λ text. text ≡ declared_text (row_of row.now)) }
{
    let mut text = Vec::new(alloc);
    push_shown(&mut text, row.declared)?;
    text.extend_from_slice(row.tree.path.as_bytes())?;
    Bytes::from_vec(text)
}
