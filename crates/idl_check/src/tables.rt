//! What may be wrong at each site.

pub(crate) mod bases;
pub(crate) mod codes;
pub(crate) mod declaring;
pub(crate) mod standing;
pub(crate) mod using;
