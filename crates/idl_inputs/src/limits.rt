//! The limits of a session.

ghost use Rattle.std.specs.Prelude.{◌≡◌, Ok};
ghost use Rattle.idl_inputs.specs.Edits.{Edit, after};
ghost use Rattle.idl_inputs.specs.Project.{Project, no_project};
ghost use Rattle.idl_inputs.specs.WellFormed.{IsWellFormed};
ghost use Rattle.idl_inputs.specs.WithinLimits.{IsWithinLimits};

/// Macros that a session has at most.
pub const MAX_MACROS: usize = 4096;

/// Bytes that the body of a session's macro has at most.
pub const MAX_BODY: usize = 4096;

/// Directories in which included files are searched, at most.
pub const MAX_DIRECTORIES: usize = 256;

/// Roots that a project has at most.
pub const MAX_ROOTS: usize = 256;

/// A session begins within the limits, and each edit leaves it there, so that it never holds more than they allow. This does
/// nothing: it carries the law.
pub fn edits_keep_limits()
    ensures first { IsWithinLimits no_project }
    ensures kept { (project new : Project) (edit : Edit)
        → IsWithinLimits project → after project edit ≡ Ok new → IsWithinLimits new }
{}

/// A session begins well-formed, and each edit leaves it so: names, words and directories obey their rules, and macros and
/// roots stand once. This does nothing: it carries the law.
pub fn edits_keep_form()
    ensures first { IsWellFormed no_project }
    ensures kept { (project new : Project) (edit : Edit)
        → IsWellFormed project → after project edit ≡ Ok new → IsWellFormed new }
{}
