//! The rows of diagnostics.

ghost use Rattle.std.specs.Prelude.{◌≡◌, IfOk};
ghost use Rattle.std.specs.Option.{option_copied};
ghost use Rattle.idl_fault.specs.Diagnostic.{diagnostic_row, head_row};

use crate::code::Code;
use crate::place::Place;
use idl_source::idl_base::Text;
use itoa::Buffer;
use std::alloc::{AllocError, Global};

/// The row of a diagnostic: `FILE:LINE: CODE TEXT`, or without text where it has none.
pub fn diagnostic_row(
    alloc: Global,
    place: &Place,
    code: Code,
    text: Option<&[u8]>,
) -> Result<Text, AllocError>
    ensures { IfOk result (λ row. row ≡ diagnostic_row place.now code (option_copied text.entry)) }
{
    let mut row = head(alloc, place, code)?;
    let Some(text) = text else {
        return Ok(Text::from_vec(row));
    };
    row.extend_from_slice(b" ")?;
    row.extend_from_slice(text)?;
    Ok(Text::from_vec(row))
}

// `FILE:LINE: CODE`
fn head(alloc: Global, place: &Place, code: Code) -> Result<Vec<u8>, AllocError>
    ensures { IfOk result (λ row. row.items ≡ head_row place.now code) }
{
    let mut buffer = Buffer::new();
    let mut row = Vec::from_slice(alloc, place.file.as_bytes())?;
    row.extend_from_slice(b":")?;
    row.extend_from_slice(buffer.format(place.line).as_bytes())?;
    row.extend_from_slice(b": ")?;
    row.extend_from_slice(&code.text())?;
    Ok(row)
}
