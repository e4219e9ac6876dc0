//! The texts of a file: lines that follow one another, no directive among them, and the words of each.

pub(crate) mod digest;
pub(crate) mod gathering;
pub(crate) mod hints;
pub(crate) mod lines;
pub(crate) mod table;
