//! A loaded file's bytes, cut into lines.

ghost use Rattle.std.specs.Prelude.{◌≡◌, IfOk};
ghost use Rattle.idl_source.specs.texts.Cut.{cut_lines};

use crate::texts::line::Line;
use crate::texts::lines::Lines;
use bstr::ByteSlice;
use std::alloc::{AllocError, Global};

/// The lines of a loaded file.
///
/// Its bytes are cut at newlines, and a carriage return before a newline goes out. Bytes behind the
/// last newline are a line of their own, so a file that ends in a newline has no empty line more.
pub fn cut(alloc: Global, bytes: &[u8]) -> Result<Vec<Line>, AllocError>
    ensures { IfOk result (λ lines. lines.items ≡ cut_lines bytes.now) }
{
    let mut lines = Lines::new(alloc);
    for line in bytes.lines() {
        lines.push(line)?;
    }
    lines.into_vec()
}
