//! The walk over the sites of a unit, and its verdict.

pub(crate) mod judge;
pub(crate) mod names;
pub(crate) mod naming;
pub(crate) mod placing;
pub(crate) mod scratch;
pub(crate) mod speaking;
pub(crate) mod steps;
pub(crate) mod task;
pub(crate) mod valuing;
pub(crate) mod verdict;
pub(crate) mod walker;
