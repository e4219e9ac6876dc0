//! Laws of the parts of a unit.
//!
//! Each function does nothing: it carries its laws as clauses.

ghost use Rattle.std.specs.Prelude.{◌≡◌, ◌++◌, drop, length};
ghost use Rattle.idl_parts.specs.Item.{items, items_length};
ghost use Rattle.idl_parts.specs.Part.{Parts, spell_parts};
ghost use Rattle.idl_parts.specs.UnitParts.{unit_parts};
ghost use Rattle.idl_tree.specs.Unit.{spell};
ghost use Rattle.idl_tree.specs.declared.unit.Tree.{Tree};

/// The parts of a unit are the unit, nothing lost and nothing twice: spelled one after another, they are what its tree is
/// spelled as.
pub fn spelling()
    ensures { (tree : Tree) → spell_parts (unit_parts tree) ≡ spell tree }
{}

/// The tokens of parts are as many as their items say. So those before a part say at which of the unit's tokens it stands.
pub fn counting()
    ensures counted { (parts : Parts) → items_length (items parts) ≡ length (spell_parts parts) }
    ensures numbered { (tree : Tree) (front back : Parts) → unit_parts tree ≡ front ++ back
        → drop (items_length (items front)) (spell tree) ≡ spell_parts back }
{}
