//! The limits of a root.

ghost use Rattle.std.specs.Prelude.{◌≡◌};
ghost use Rattle.idl_event.specs.Items.{spend, spend_token, whole_allowance};

use crate::told::event::{Event, Item};

/// Turns that a root makes at most: replacements, and directives that aren't skipped.
pub const MAX_TURNS: usize = 1_000_000;

/// Tokens that a root emits at most, with those that conditions and operands of `include` give.
pub const MAX_TOKENS: usize = 1_000_000;

/// What is left of the two limits.
#[derive(Clone, Copy)]
pub struct Allowance {
    pub turns: usize,
    pub tokens: usize,
}

impl Allowance {
    /// What a root begins with.
    pub fn new() -> Allowance
        ensures { result ≡ whole_allowance }
    {
        Allowance {
            turns: MAX_TURNS,
            tokens: MAX_TOKENS,
        }
    }

    /// What is left after an item, or nothing where the item is past the allowance.
    pub fn after(self, item: &Item) -> Option<Allowance>
        ensures { result ≡ spend self item.now }
    {
        match item {
            Item::Turn(_) => Some(Allowance {
                turns: self.turns.checked_sub(1)?,
                tokens: self.tokens,
            }),
            Item::Kept(Event::Emitted(_, _)) | Item::Counted(_) => self.after_token(),
            Item::TooDeep(_) => None,
            Item::Kept(_) => Some(self),
        }
    }

    /// What is left after a token, or nothing where it is past the allowance.
    pub fn after_token(self) -> Option<Allowance>
        ensures { result ≡ spend_token self }
    {
        Some(Allowance {
            turns: self.turns,
            tokens: self.tokens.checked_sub(1)?,
        })
    }
}
