//! The lines of a file are one tree.

ghost use Rattle.std.specs.Prelude.{◌≡◌, List, []};
ghost use Rattle.idl_text.specs.Line.{Line};
ghost use Rattle.idl_text.specs.Tree.{Forest, tree};
ghost use Rattle.idl_text.specs.TreeLaw.{IsFormed, Outside, lines_in_forest};

/// The tree of a file has the file's lines in their order, with each directive of a group where it may be, and no other tree
/// has. This does nothing: it carries the law.
pub fn tree_of_lines()
    ensures lines { (lines : List Line) → lines_in_forest (tree lines) ≡ lines }
    ensures formed { (lines : List Line) → IsFormed Outside (tree lines) [] }
    ensures only { (lines : List Line) (f : Forest)
        → lines_in_forest f ≡ lines → IsFormed Outside f [] → f ≡ tree lines }
{}
