//! Repository ids, and what pragmas and declarations say of them.

pub(crate) mod identifying;
pub(crate) mod pragmas;
pub(crate) mod remark;
