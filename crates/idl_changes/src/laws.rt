//! What interfaces inherit, and what it means that no change has a weight.

ghost use Rattle.std.specs.Prelude.{◌≡◌, ◌↔◌, [], ℕ, Contains, List};
ghost use Rattle.idl_changes.specs.Changes.{changes};
ghost use Rattle.idl_changes.specs.Laws.{Finds, IsChain, NoneHas, Serves};
ghost use Rattle.idl_changes.specs.Offered.{ancestors};
ghost use Rattle.idl_changes.specs.Speaks.{IsDeclared, Speaks};
ghost use Rattle.idl_repo.specs.declared.details.row_tree.RowTree.{RowTree};

/// Where no change counts on the wire, programs that are built from the two listings speak with each other, if these are declared as
/// IDL asks for. This does nothing: it carries the law.
pub fn nothing_on_the_wire()
    ensures { (old new : List RowTree) → IsDeclared old → IsDeclared new
        → NoneHas (λ weights. weights.wire) (changes old new) → Speaks old new }
{}

/// Where no change counts for servants, who implements an old interface implements all that the new one offers, by name. This does
/// nothing: it carries the law.
pub fn nothing_for_servants()
    ensures { (old new : List RowTree)
        → NoneHas (λ weights. weights.servant) (changes old new) → Serves old new }
{}

/// Where no change counts for clients, all that the old listing has is in the new one by its path and with its kind, and what an
/// interface offers its partner offers. This does nothing: it carries the law.
pub fn nothing_for_clients()
    ensures { (old new : List RowTree)
        → NoneHas (λ weights. weights.client) (changes old new) → Finds old new }
{}

/// From a listing to itself there is no change. This does nothing: it carries the law.
pub fn nothing_changes()
    ensures { (trees : List RowTree) → changes trees trees ≡ [] }
{}

/// An entry inherits the interfaces to which a chain of bases leads, and no others. This does nothing: it carries the law.
pub fn inherited_by_chains()
    ensures { (trees : List RowTree) (i n : ℕ) → Contains (ancestors trees i) n
        ↔ ((by_way : List ℕ) × IsChain trees i by_way n) }
{}
