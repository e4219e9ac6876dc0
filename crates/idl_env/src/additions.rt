//! What units add.

pub(crate) mod addition;
pub(crate) mod digested_addition;
pub(crate) mod exchange;
pub(crate) mod facts;
pub(crate) mod further;
pub(crate) mod room;
