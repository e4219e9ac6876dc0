//! Directives, as groups are matched by them.

ghost use Rattle.std.specs.Prelude.{◌≡◌, MatchOption};
ghost use Rattle.idl_text.specs.Line.{Directed, read};
ghost use Rattle.idl_text.specs.TreeLaw.{IsLineAlone};

use crate::groups::kind::DirectiveKind;
use crate::tokens::file_tokens::{FileToken, FileTokens};
use std::marker::Model;

/// A directive: its kind, the number of its line, its word, and the tokens after that.
#[derive(Drop)]
pub struct Directive<'t> {
    pub kind: DirectiveKind,
    pub line: u32,
    pub word: FileToken<'t>,
    pub operands: FileTokens<'t>,
}

impl<'t> Model for Directive<'t> {
    ghost use Rattle.idl_text.specs.Line as spec;

    ghost Value = { spec.Directive };

    ghost view = { λ d. record {
      kind = d.kind;
      line = d.line;
      word = d.word;
      operands = d.operands;
    } };
}

/// The directive on a line of these tokens; `None` of text, and of a `#` alone.
pub fn directive_on<'t>(line: &FileTokens<'t>) -> Option<Directive<'t>>
    ensures { MatchOption result (IsLineAlone (read line.now))
        (λ directive. read line.now ≡ Directed directive) }
{
    let (hash, rest) = line.split_first()?;
    if hash.token().as_bytes() != b"#".as_slice() {
        return None;
    }
    let (word, operands) = rest.split_first()?;
    Some(Directive {
        kind: DirectiveKind::of(word.token().as_bytes()),
        line: hash.line(),
        word,
        operands,
    })
}
