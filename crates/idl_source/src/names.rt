//! Names of files, directories and operands of includes.

pub(crate) mod directory;
pub(crate) mod name;
pub(crate) mod parts;
pub mod path;
pub(crate) mod span;
