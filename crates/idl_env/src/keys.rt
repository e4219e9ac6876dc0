//! What is asked of an environment, as it is stored and as it is lent.

pub(crate) mod digested;
pub(crate) mod held_key;
pub(crate) mod key;
pub(crate) mod lent_key;
pub(crate) mod outline;
