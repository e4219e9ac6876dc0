//! What a spelling counts as.

pub(crate) mod keyword;
pub(crate) mod keyword_table;
pub(crate) mod kind;
pub(crate) mod literal;
pub(crate) mod mark;
pub(crate) mod mark_table;
pub(crate) mod number;
pub(crate) mod word;
pub(crate) mod word_table;

pub use keyword::Keyword;
pub use kind::{Defect, TokenKind, is_like_keyword, kind_of};
pub use literal::decode;
pub use mark::{Mark, PreprocessorMark};
pub use mark_table::mark_kind;
pub use number::integer_value;
pub use word::is_word;
pub use word_table::{WordEntry, value_of};
