//! Rows of a listing as trees, for programs: a row can't be read back as text, since an id may have any character in it.
//!
//! A tree has all that its row tells, and the row is what the tree is printed as. Nothing here knows places, tokens, or how the
//! facts of a root came about.

mod laws;
mod reference;
mod row_tree;
mod rows;
mod type_code_tree;
mod type_codes;
mod type_tree;
mod types;

pub use crate::words::{direction_word, kind_word};
pub use laws::printing;
pub use reference::Reference;
pub use row_tree::{
    AttributeTree, ConstantTree, DeclaredType, OperationTree, ParameterTree, RowDetails, RowTree,
};
pub use rows::tree_of;
pub use type_code_tree::{CaseTree, MemberTree, TypeCodeParts, TypeCodeTree, UnionTree, code_word};
pub use type_tree::{ElementTree, LayeredType};
