//! Lines of a file, one after another.

ghost use Rattle.std.specs.Prelude.{◌≡◌, ◌≤◌, ◌-◌, ◌+◌, IsTrue, length};
ghost use Rattle.idl_source.specs.texts.Texts.{is_inside};

use crate::texts::line::Line;

/// A span of a file: so many lines from one on.
#[derive(Clone, Copy)]
pub struct Span {
    /// The first line of the span, where 1 is the first of the file.
    pub from: usize,
    /// How many lines there are in the span.
    pub del: usize,
}

impl Span {
    /// Whether the span is all in a file of these lines.
    pub fn is_inside(self, lines: &[Line]) -> bool
        ensures inside { result ≡ is_inside lines.now self.from self.del }
        ensures within { IsTrue result
            → (1 ≤ self.from) × (self.from - 1 + self.del ≤ length lines.now) }
    {
        0 < self.from && self.from - 1 <= lines.len() && self.del <= lines.len() - (self.from - 1)
    }
}
