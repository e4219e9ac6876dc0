//! What is answered, and how an addition changes it.

pub(crate) mod answer;
pub(crate) mod answers;
pub(crate) mod count;
pub(crate) mod open_scopes;
pub(crate) mod operations;
pub(crate) mod outward;
pub(crate) mod queue;
pub(crate) mod state;
pub(crate) mod steps;
