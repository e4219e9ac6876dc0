//! The lines of a file by their directives, and the tree that they are.

pub(crate) mod branch;
pub(crate) mod directive;
pub(crate) mod fault;
pub(crate) mod grouped;
pub(crate) mod kind;
pub(crate) mod matching;
pub(crate) mod table;
pub(crate) mod tree;
