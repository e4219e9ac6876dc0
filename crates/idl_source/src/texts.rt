//! Lines and files.

pub(crate) mod cutting;
pub(crate) mod entries;
pub(crate) mod file;
pub(crate) mod files;
pub(crate) mod line;
pub(crate) mod lines;
