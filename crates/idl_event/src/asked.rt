//! What a root asks, and what it is answered.

pub(crate) mod hinted_log;
pub(crate) mod key;
pub(crate) mod lexed_file;
pub(crate) mod lexed_line;
pub(crate) mod root_bank;
