//! What holds of the lines of a text, whoever changes it. Nothing here runs.

ghost use Rattle.std.specs.Prelude.{◌≡◌, ◌++◌, ℕ, List};
ghost use Rattle.idl_source.specs.texts.Cut.{cut_lines};
ghost use Rattle.idl_editor.specs.Splices.{EndsLine};

/// Texts are cut apart: where one ends with a line, the lines of both are those of the one and those of the other.
pub fn joined_lines()
    ensures { (text more : List ℕ) → EndsLine text
        → cut_lines (text ++ more) ≡ cut_lines text ++ cut_lines more }
{}
