//! What is known of a unit so far.

pub(crate) mod bodies;
pub(crate) mod clauses;
pub(crate) mod labels;
pub(crate) mod last_type;
pub(crate) mod types;
pub(crate) mod values;
