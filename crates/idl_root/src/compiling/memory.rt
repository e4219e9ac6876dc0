//! Where compilations take memory.

use idl_env::Env;
use std::alloc::Global;

/// Where compilations take memory, and the environment of the last one.
///
/// An environment takes long to give back, so that is done when the next compilation begins, not when its own ends. One is held
/// at most.
pub struct Memory {
    alloc: Global,
    last: Option<Env>,
}

impl Drop for Memory {
    fn drop(self) {
        let Memory {
            alloc: _alloc,
            last: _last,
        } = self;
    }
}

impl Memory {
    /// Nothing was compiled.
    pub fn new(alloc: Global) -> Memory {
        Memory { alloc, last: None }
    }

    /// Where it is taken.
    pub fn alloc(&self) -> Global {
        self.alloc
    }

    /// Gives back what the last compilation took.
    pub fn clear(&mut self) {
        self.last = None;
    }

    // Holds the environment of a compilation that ends.
    pub(crate) fn hold(&mut self, env: Env) {
        self.last = Some(env);
    }
}
