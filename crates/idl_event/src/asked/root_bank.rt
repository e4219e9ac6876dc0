//! Banks of what roots ask for.

use crate::asked::key::{RootAnswer, RootKey};
use idl_memo::{Bank, PlainBank};

/// A bank that answers what the expansion of a root asks: the bound of all that expands. Each bank with these keys and
/// answers, each of which stands in a log by itself, is one.
pub trait RootBank: Bank<Key = RootKey, Answer = RootAnswer> + PlainBank {}

impl<B: Bank<Key = RootKey, Answer = RootAnswer> + PlainBank> RootBank for B {}
