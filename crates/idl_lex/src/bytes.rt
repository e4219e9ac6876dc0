//! Bytes, and what stands before one.

pub(crate) mod byte;
pub(crate) mod context;
pub(crate) mod state;
pub(crate) mod text_left;
