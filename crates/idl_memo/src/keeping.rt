//! Results that are kept.

pub(crate) mod anew;
pub(crate) mod edited;
pub(crate) mod fresh;
pub(crate) mod kept;
pub(crate) mod passes;
pub(crate) mod places;
