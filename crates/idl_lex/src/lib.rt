//! The tokens of a file, each with its kind, its spelling and its line: words, numbers, literals, marks, and what begins no token.
//!
//! A token's kind is what it counts as in IDL, where it is emitted; its spelling is as written. Faults are kinds of tokens here, and no
//! diagnostics. Joined lines and comments are dealt with here, and directives are not.
#![tactic(auto)]

mod bytes;
pub mod kinds;
mod tokens;

pub use bytes::text_left::{TextByte, TextLeft};
pub use idl_source;
pub use kinds::word::is_word;
pub use tokens::chunk_tokens::{ChunkTokens, TokenBuffer, TokenPlace};
pub use tokens::lexer::{Before, Opening, push_line};
pub use tokens::logical::{Logical, joined_count};
pub use tokens::token::{PlacedToken, Token};
