//! The tokens of a file.

pub(crate) mod chunk;
pub(crate) mod chunk_columns;
pub(crate) mod chunks;
pub(crate) mod column;
pub(crate) mod file_tokens;
pub(crate) mod lexed;
pub(crate) mod starts_left;
pub(crate) mod token_range;
pub(crate) mod tokens_left;
