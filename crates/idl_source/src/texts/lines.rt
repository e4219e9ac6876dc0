//! Lines that are gathered.
//!
//! Larger blocks would take less still, but a line that is left of a file would keep more of its old neighbours than
//! its own tokens take.

ghost use Rattle.std.specs.Prelude.{◌≡◌, ◌∷◌, ◌++◌, [], IfOk, OnOk};
ghost use Rattle.idl_source.specs.texts.Line.{IsLine};
ghost use Rattle.idl_base.specs.Spans.{pieces};
ghost use Rattle.idl_source.specs.texts.Lines.{AreLines};

use crate::texts::line::Line;
use idl_base::{ByteRange, Bytes};
use std::alloc::{AllocError, Global};
use std::marker::Model;
use std::rc::RcSlice;

// So many bytes stand in one block, unless a line alone has more.
const TOGETHER: usize = 256;

/// Lines that are gathered, one after another. The bytes of many stand together in a block of memory, which these
/// lines share.
#[derive(Drop)]
pub struct Lines {
    lines: Vec<Line>,
    // The bytes of the last lines, and where among them each of these stands.
    bytes: Vec<u8>,
    spans: Vec<ByteRange>,
}

impl Model for Lines {
    ghost use Rattle.std.specs.Prelude.{List, ℕ, ◌++◌};
    ghost use Rattle.idl_base.specs.Spans.{pieces};
    ghost use Rattle.idl_source.specs.texts.Lines.{AreLines};

    ghost Value = { List (List ℕ) };

    ghost view = { λ it. it.lines.items ++ pieces it.bytes.items it.spans.items };

    ghost invariant = { λ it. AreLines it.bytes.items it.spans.items };
}

impl Lines {
    /// No lines.
    pub fn new(alloc: Global) -> Lines
        ensures { result ≡ [] }
    {
        Lines {
            lines: Vec::new(alloc),
            bytes: Vec::new(alloc),
            spans: Vec::new(alloc),
        }
    }

    /// Puts in a line.
    pub fn push(&mut self, line: &[u8]) -> Result<(), AllocError>
        requires { IsLine line.now }
        ensures { OnOk result (self.new ≡ self.old ++ line.now ∷ []) }
    {
        if !self.has_room_for(line) {
            self.close()?;
        }
        self.add(line)
    }

    // Puts in a line, whose bytes stand with those of the last ones.
    fn add(&mut self, line: &[u8]) -> Result<(), AllocError>
        requires { IsLine line.now }
        ensures { OnOk result (self.new ≡ self.old ++ line.now ∷ []) }
    {
        let from = self.bytes.len();
        self.bytes.extend_from_slice(line)?;
        let to = self.bytes.len();
        self.spans.push(ByteRange { from, to })?;
        Ok(())
    }

    /// All the lines.
    pub fn into_vec(mut self) -> Result<Vec<Line>, AllocError>
        ensures { IfOk result (λ lines. lines.items ≡ self) }
    {
        push_pieces(&mut self.lines, &self.bytes, &self.spans)?;
        Ok(self.lines)
    }

    // Whether a line's bytes may stand with those of the last lines.
    fn has_room_for(&self, line: &[u8]) -> bool {
        self.bytes.is_empty() || line.len() <= TOGETHER.saturating_sub(self.bytes.len())
    }

    // Gives the last lines their block.
    fn close(&mut self) -> Result<(), AllocError>
        ensures { OnOk result (self.new ≡ self.old) }
    {
        push_pieces(&mut self.lines, &self.bytes, &self.spans)?;
        self.bytes.clear();
        self.spans.clear();
        Ok(())
    }
}

// Puts in the lines that stand among these bytes, which all but the short ones share from now on.
fn push_pieces(lines: &mut Vec<Line>, bytes: &[u8], spans: &[ByteRange]) -> Result<(), AllocError>
    requires { AreLines bytes.now spans.now }
    ensures { OnOk result (lines.new.items ≡ lines.old.items ++ pieces bytes.now spans.now) }
{
    let alloc = *lines.allocator();
    let block = RcSlice::from_slice(alloc, bytes)?;
    for span in spans {
        let piece = Bytes::of_block(alloc, &block, span.from, span.to)?;
        lines.push(Line::of(piece))?;
    }
    Ok(())
}
