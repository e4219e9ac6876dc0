//! The bodies of the session's macros.

ghost use Rattle.std.specs.Prelude.{◌≡◌, ◌∷◌, [], IfOk};
ghost use Rattle.idl_event.specs.declared.asked.key.RootAnswer.TheVariants as answers;

use idl_event::{LexedLine, RootAnswer};
use idl_source::Line;
use std::alloc::{AllocError, Global};
use std::marker::Model;

/// The body of a macro: a line, and what is answered of the macro, a file of that line alone with its tokens.
pub struct MacroBody {
    line: Line,
    answer: RootAnswer,
}

impl Model for MacroBody {
    ghost use Rattle.std.specs.Prelude.{◌≡◌, ◌∷◌, [], List, ℕ};
    ghost use Rattle.idl_event.specs.declared.asked.key.RootAnswer.TheVariants as answers;

    ghost Value = { List ℕ };

    ghost view = { λ body. body.line };

    ghost invariant = { λ body. body.answer ≡ answers.Macro (body.line ∷ []) };
}

impl Drop for MacroBody {
    fn drop(self) {
        let MacroBody {
            line: _line,
            answer: _answer,
        } = self;
    }
}

impl MacroBody {
    /// The body of this line, which is cut into tokens here.
    pub fn new(alloc: Global, line: Line) -> Result<MacroBody, AllocError>
        ensures { IfOk result (λ body. body ≡ line) }
    {
        let text = LexedLine::new(alloc, line.clone()?)?;
        Ok(MacroBody {
            line,
            answer: RootAnswer::Macro(text),
        })
    }

    /// The bytes of the line.
    pub fn as_bytes(&self) -> &[u8]
        ensures { result.now ≡ self.now }
    {
        self.line.as_bytes()
    }

    /// What is answered of the macro.
    pub fn answer(&self) -> &RootAnswer
        ensures { result.now ≡ answers.Macro (self.now ∷ []) }
    {
        &self.answer
    }
}
