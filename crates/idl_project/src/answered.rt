//! What a session answers of a root, in other words.

ghost use Rattle.std.specs.Prelude.{◌≡◌, ◌↔◌, ◌<◌, ◌^◌, IfSome, Some, length, true};
ghost use Rattle.std.specs.List.{enumerate_from};
ghost use Rattle.idl_event.specs.Apart.{tokens_in};
ghost use Rattle.idl_inputs.specs.Bank.{bank_of};
ghost use Rattle.idl_inputs.specs.Project.{is_root};
ghost use Rattle.idl_project.specs.Compiled.{CompilesOver};
ghost use Rattle.idl_project.specs.UpToDate.{compiled_of};
ghost use Rattle.idl_sources.specs.declared.compile.CompiledRoot.{CompiledRoot};

use crate::session::Session;
use idl_event::Expansion;
use idl_sources::idl_root::compiled;

impl Session {
    /// Tells that what is answered for a name is what the units of its root come to, each of which has the least of all its faults, or
    /// else what it declares over the facts of those before it; nothing else is answered for it, and nothing for a name that isn't
    /// one of a root. No bound on turns or tokens is in that.
    ///
    /// This does nothing but count the tokens of the root: it carries the fact.
    pub fn is_compiled(&self, root: &[u8])
        ensures { (compiled : CompiledRoot)
            → let project = self.now.project in
            (compiled_of project root.now ≡ Some compiled)
            ↔ ((is_root project root.now ≡ true)
            × CompilesOver (bank_of project.inputs) root.now compiled) }
    {
        count_within(self.expansion(root));
        self.bounds_turns();
        // It does nothing: it carries the law of a root.
        compiled();
    }
}

// The law that the tokens of a root's text are counted by a word, if there is a root.
fn count_within(expansion: Option<&Expansion>)
    ensures { IfSome expansion.entry (λ e.
        length (tokens_in (enumerate_from 0 e.now)) < 2 ^ 64) }
{
    match expansion {
        Some(expansion) => count(expansion),
        None => {}
    }
}

// The same of what a root expands to.
fn count(expansion: &Expansion)
    ensures { length (tokens_in (enumerate_from 0 expansion.now)) < 2 ^ 64 }
{
    let _count = expansion.text().len();
}
