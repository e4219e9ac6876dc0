//! The walk over the lines of a root.

pub(crate) mod branch;
pub(crate) mod explorer;
pub(crate) mod file;
pub(crate) mod groups;
pub(crate) mod jump;
pub(crate) mod pass;
pub(crate) mod perform;
pub(crate) mod root;
pub(crate) mod root_task;
pub(crate) mod stray;
pub(crate) mod walked_file;
