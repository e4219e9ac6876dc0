//! What the expansion of a root tells.

pub(crate) mod allowance;
pub(crate) mod builder;
pub(crate) mod event;
pub(crate) mod event_view;
pub(crate) mod expansion;
pub(crate) mod progress;
pub(crate) mod runs;
pub(crate) mod site;
pub(crate) mod sites;
