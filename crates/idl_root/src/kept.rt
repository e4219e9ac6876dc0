//! What is kept of the units and the names of roots.

pub(crate) mod added;
pub(crate) mod again;
pub(crate) mod changed;
pub(crate) mod comparing;
pub(crate) mod course;
pub(crate) mod following;
pub(crate) mod fresh;
pub(crate) mod keeper;
pub(crate) mod keeping;
pub(crate) mod keeping_blocks;
pub(crate) mod known;
pub(crate) mod marks;
pub(crate) mod noting;
pub(crate) mod printing;
pub(crate) mod reading;
pub(crate) mod reprinting;
