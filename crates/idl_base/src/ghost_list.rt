//! A list of which contracts alone know.

ghost use Rattle.std.specs.Prelude.{◌≡◌, ◌++◌, ◌∷◌, []};

use std::marker::Model;
use std::snapshot::Snapshot;

/// Items in order, of which contracts alone know. To every contract it is the list of them, and no byte of any is kept.
#[derive(Drop)]
pub struct GhostList<T> {
    last: Option<(Snapshot<GhostList<T>>, Snapshot<T>)>,
}

impl<T> Model for GhostList<T> {
    ghost use Rattle.std.specs.Prelude.{List, length};
    ghost use Rattle.idl_base.specs.GhostList.{items_of};

    ghost Value = { List T };

    ghost view = { λ list. items_of list.last };

    ghost size = { length };

    ghost use Rattle.std.proofs.Common.{arith, length-append};

    ghost size_decreases = { λ a h. Prim.grind (arith, length-append) };
}

impl<T> GhostList<T> {
    /// No items.
    pub fn new() -> GhostList<T>
        ensures { result ≡ [] }
    {
        GhostList { last: None }
    }

    /// The items, and this one behind them.
    pub fn and(&self, item: &T) -> GhostList<T>
        ensures { result ≡ self.now ++ item.now ∷ [] }
    {
        GhostList {
            last: Some((Snapshot::of(self), Snapshot::of(item))),
        }
    }
}
