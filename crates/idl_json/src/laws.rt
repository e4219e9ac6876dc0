//! That nothing is lost.

ghost use Rattle.std.specs.Prelude.{◌≡◌, Some};
ghost use Rattle.idl_repo.specs.declared.details.row_tree.RowTree.{RowTree};
ghost use Rattle.idl_json.specs.Listed.{LocatedRow, row_json};
ghost use Rattle.idl_json.specs.Reading.{tree_of};
ghost use Rattle.idl_json.specs.Rows.{json_of};

/// From the JSON of a tree the tree can be read, and from that of a row too. This does nothing: it carries the law.
pub fn nothing_is_lost()
    ensures trees { (tree : RowTree) → tree_of (json_of tree) ≡ Some tree }
    ensures rows { (row : LocatedRow) → tree_of (row_json row) ≡ Some row.tree }
{}
