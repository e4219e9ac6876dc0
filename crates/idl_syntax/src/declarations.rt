//! Readers of declarations and of what stands in them.

pub(crate) mod attribute;
pub(crate) mod construction;
pub(crate) mod data_type;
pub(crate) mod declarator;
pub(crate) mod interface;
pub(crate) mod operation;
