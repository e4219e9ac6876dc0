//! The compilation of a root from its units.

pub(crate) mod compiled;
pub(crate) mod detailing;
pub(crate) mod judging;
pub(crate) mod laws;
pub(crate) mod memory;
pub(crate) mod naming;
pub(crate) mod passing;
pub(crate) mod places;
pub(crate) mod printing;
