//! A file as those who walk over it see it: its tokens by chunks, its lines by their directives, the tree that these are, and
//! how far each branch goes, so that a branch that isn't taken is jumped over.
//!
//! Nothing here knows what is told of a file, or which branches are taken.
//!
//! `lex` makes a file's chunks, which end where the next line begins in nothing. `Matching` makes the table of branches
//! once, over the directives with the open branches on a stack. `LinesLeft::jump` looks a branch up by how many tokens
//! are before it. `find_texts` makes that of the texts between directives, each with its words, so that who asks for the words
//! of a text asks for each once.
#![tactic(auto)]

mod groups;
mod texts;
mod tokens;

pub use groups::fault::{GroupFault, Misplaced};
pub use groups::grouped::{GroupedTokens, LinesLeft};
pub use groups::kind::{DirectiveKind, Plain, Test};
pub use groups::tree::tree_of_lines;
pub use texts::digest::digest_of;
pub use texts::hints::{Hints, Places};
pub use texts::lines::{TextLines, TextParts};
pub use tokens::chunk_columns::ChunkColumns;
pub use tokens::column::{beginnings, column_in, columns};
pub use tokens::file_tokens::{FileToken, FileTokens};
pub use tokens::lexed::{Lexed, lex, longest_pieces};
pub use tokens::token_range::TokenRange;
pub use tokens::tokens_left::TokensLeft;
