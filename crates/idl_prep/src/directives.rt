//! What one line says, and what of it is told.

pub(crate) mod candidate;
pub(crate) mod find;
pub(crate) mod include;
pub(crate) mod inclusion;
pub(crate) mod line;
pub(crate) mod operand;
pub(crate) mod pragma;
pub(crate) mod replaced_operand;
pub(crate) mod text;
