//! A stack.

ghost use Rattle.std.specs.Prelude.{◌≡◌, ◌∷◌, [], OnOk, MatchOption, slice_get};
ghost use Rattle.std.specs.Option.{option_copied};

use std::alloc::{AllocError, Global};
use std::marker::Model;

/// Items, of which the last that was put in is taken first. Contracts see them as a list, the last one first.
#[derive(Drop)]
pub struct Stack<T> {
    items: Vec<T>,
}

impl<T> Model for Stack<T> {
    ghost use Rattle.std.specs.Prelude.{List, reverse};

    ghost Value = { List T };

    ghost view = { λ stack. reverse stack.items.items };
}

impl<T> Stack<T> {
    /// No items. It takes no memory.
    pub fn new(alloc: Global) -> Stack<T>
        ensures { result ≡ [] }
    {
        Stack {
            items: Vec::new(alloc),
        }
    }

    /// The item that was put in last.
    pub fn top(&self) -> Option<&T>
        ensures { option_copied result ≡ slice_get self.now 0 }
    {
        self.items.last()
    }
}

impl<T: Drop> Stack<T> {
    /// Puts an item in.
    pub fn push(&mut self, item: T) -> Result<(), AllocError>
        ensures { OnOk result (self.new ≡ item ∷ self.old) }
    {
        self.items.push(item)?;
        Ok(())
    }

    /// Takes the item that was put in last.
    pub fn pop(&mut self) -> Option<T>
        ensures { MatchOption result
            ((self.old ≡ []) × (self.new ≡ []))
            (λ item. self.old ≡ item ∷ self.new) }
    {
        self.items.pop()
    }
}
