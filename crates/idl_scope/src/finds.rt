//! What a scope has under a name.

ghost use Rattle.std.specs.Prelude.{◌≡◌, IfOk, map, option_to_list};
ghost use Rattle.std.specs.Option.{option_copied};
ghost use Rattle.idl_scope.specs.Finds.{those};
ghost use Rattle.idl_scope.specs.Lookup.{is_nothing};

use idl_base::Shared;
use idl_entity::Entity;
use std::alloc::{AllocError, Global};

/// What a scope has under a name. One declaration of its own takes no memory.
#[derive(Drop)]
pub enum Finds<'a> {
    /// The scope's own declaration.
    Own(&'a Shared<Entity>),
    /// The declarations that are reached through bases, or nothing.
    Reached(Vec<&'a Shared<Entity>>),
}

impl<'a> Finds<'a> {
    /// What a scope has that reaches nothing: its own declaration, if there is one.
    pub fn own(alloc: Global, declared: Option<&'a Shared<Entity>>) -> Finds<'a>
        ensures { those result ≡ option_to_list (option_copied declared.entry) }
    {
        match declared {
            Some(entity) => Finds::Own(entity),
            None => Finds::Reached(Vec::new(alloc)),
        }
    }

    /// Whether nothing is found.
    pub fn is_nothing(&self) -> bool
        ensures { result ≡ is_nothing (those self.now) }
    {
        match self {
            Finds::Own(_) => false,
            Finds::Reached(found) => found.is_empty(),
        }
    }

    /// All that are found.
    pub fn into_vec(self, alloc: Global) -> Result<Vec<&'a Shared<Entity>>, AllocError>
        ensures { IfOk result (λ es. map (λ e. e.now) es.items ≡ those self.entry) }
    {
        match self {
            Finds::Own(entity) => {
                let mut found = Vec::new(alloc);
                found.push(entity)?;
                Ok(found)
            }
            Finds::Reached(found) => Ok(found),
        }
    }
}
