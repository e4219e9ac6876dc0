//! Tokens, and where each begins and ends.

pub(crate) mod chunk_tokens;
pub(crate) mod lexer;
pub(crate) mod logical;
pub(crate) mod token;
