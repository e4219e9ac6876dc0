//! Tokens, and where they stand in a file.
//!
//! A token is its bytes alone, and where it stands is beside it: "the same tokens" is equality, and what rests on
//! tokens can't rest on places. One that a macro gives has no place of its own, and is told at that of the outermost
//! word.
//!
//! Each placed token tells whether it begins its line, which directives need, and whether it directly follows a word,
//! which `(` alone needs: the shorter definition says both of all.

ghost use Rattle.std.specs.Prelude.{◌≡◌, ◌∷◌, [], ◌↔◌, IfOk, IsTrue, Some, refl, true};
ghost use Rattle.std.specs.Cmp.{partial_equiv_from_equiv};
ghost use Rattle.std.specs.Cmp.Lexicographic.{bytes_decides, nat_list_cmp_total, nat_list_eq_equiv, slice_cmp, texts_po, texts_ties};
ghost use Rattle.std.specs.Hash as fed;
ghost use Rattle.std.specs.Option.{option_copied};
ghost use Rattle.std.specs.Ordering.{nat_cmp};
ghost use Rattle.std.specs.Str.{bytes_eq};
ghost use Rattle.std.proofs.Common.{ap};
ghost use Rattle.idl_lex.specs.kinds.Kind.{kind_of, name_of, unescaped};
ghost use Rattle.idl_lex.specs.kinds.Marks.{is_lone_mark};
ghost use Rattle.idl_lex.specs.tokens.Tokens.{token_of};
ghost use Rattle.idl_lex.specs.kinds.Word.{is_word};

use crate::bytes::context::Context;
use crate::kinds::kind::{TokenKind, kind_of};
use crate::kinds::mark_table::lone_kind;
use crate::kinds::word::is_word;
use idl_source::idl_base::{Bytes, Datum};
use std::alloc::AllocError;
use std::cmp::Ordering;
use std::hash::{Hash, Hasher};
use std::marker::Model;

/// A token: its bytes as written, and what it counts as in IDL, which follows from them. To every contract it is its bytes,
/// and two are equal where these are. A clone shares them.
#[derive(Drop)]
pub struct Token {
    spelling: Bytes,
    kind: TokenKind,
    // Whether it is a word.
    word: bool,
}

impl Model for Token {
    ghost use Rattle.std.specs.Prelude.{◌≡◌, List, ℕ};
    ghost use Rattle.idl_lex.specs.kinds.Kind.{kind_of};
    ghost use Rattle.idl_lex.specs.kinds.Word.{is_word};

    ghost Value = { List ℕ };

    ghost view = { λ token. token.spelling };

    ghost invariant = { λ token. (token.kind ≡ kind_of token.spelling) × (token.word ≡ is_word token.spelling) };
}

impl Token {
    /// The token with this spelling.
    pub fn new(spelling: Bytes) -> Token
        ensures { result ≡ spelling }
    {
        Token {
            kind: kind_of(spelling.as_bytes()),
            word: is_word(spelling.as_bytes()),
            spelling,
        }
    }

    /// The token that a word is, which is of this kind.
    pub(crate) fn word(spelling: Bytes, kind: TokenKind) -> Token
        requires word { is_word spelling ≡ true }
        requires kind { kind ≡ kind_of spelling }
        ensures { result ≡ spelling }
    {
        Token {
            kind,
            word: true,
            spelling,
        }
    }

    /// The token that a mark is which none other begins with.
    pub(crate) fn mark(b: u8) -> Token
        requires { is_lone_mark b ≡ true }
        ensures { result ≡ b ∷ [] }
    {
        Token {
            kind: lone_kind(b),
            word: false,
            spelling: Bytes::of_byte(b),
        }
    }

    /// What it counts as in IDL.
    pub fn kind(&self) -> TokenKind
        ensures { result ≡ kind_of self.now }
    {
        self.kind
    }

    /// Whether it is a word, whatever it counts as in IDL.
    pub fn is_word(&self) -> bool
        ensures { result ≡ is_word self.now }
    {
        self.word
    }

    /// Its bytes as written, shared.
    pub fn spelling(&self) -> &Bytes
        ensures { result.now ≡ self.now }
    {
        &self.spelling
    }

    /// Its bytes as written.
    pub fn as_bytes(&self) -> &[u8]
        ensures { result.now ≡ self.now }
    {
        self.spelling.as_bytes()
    }

    /// Its name, as `name` gives it, shared.
    pub fn shared_name(&self) -> Result<Option<Bytes>, AllocError>
        ensures { IfOk result (λ name. name ≡ name_of self.now) }
    {
        match self.kind {
            TokenKind::Identifier => Ok(Some(self.spelling.clone()?)),
            TokenKind::Escaped => unescaped(&self.spelling),
            _ => Ok(None),
        }
    }

    /// The name that an identifier is, without the `_` of an escaped one; `None` of any other token.
    pub fn name(&self) -> Option<&[u8]>
        ensures { option_copied result ≡ name_of self.now }
    {
        match self.kind {
            TokenKind::Identifier => Some(self.spelling.as_bytes()),
            TokenKind::Escaped => match self.spelling.as_bytes() {
                [_, rest @ ..] => Some(rest),
                [] => None,
            },
            _ => None,
        }
    }
}

// What stands behind the first byte, if there is one.
fn unescaped(spelling: &Bytes) -> Result<Option<Bytes>, AllocError>
    ensures { IfOk result (λ name. name ≡ unescaped spelling.now) }
{
    let end = spelling.len();
    if end == 0 {
        return Ok(None);
    }
    Ok(Some(spelling.part(1, end)?))
}

impl Clone for Token {
    ghost is_clone = { λ token copy. copy ≡ token };

    fn clone(&self) -> Result<Token, AllocError> {
        let spelling = self.spelling.clone()?;
        Ok(Token {
            spelling,
            kind: self.kind,
            word: self.word,
        })
    }
}

impl PartialEq for Token {
    ghost eq = { bytes_eq };

    ghost laws = { partial_equiv_from_equiv nat_list_eq_equiv };

    fn eq(&self, other: &Token) -> bool
        ensures by_byte { result ≡ bytes_eq self.now other.now }
        ensures exact { IsTrue result ↔ (self.now ≡ other.now) }
    {
        self.spelling == other.spelling
    }
}

impl Eq for Token {
    ghost laws = { nat_list_eq_equiv };
}

impl PartialOrd for Token {
    ghost partial_cmp = { λ x y. Some (slice_cmp nat_cmp x y) };

    ghost laws = { texts_po };

    fn partial_cmp(&self, other: &Token) -> Option<Ordering> {
        Some(self.cmp(other))
    }
}

impl Ord for Token {
    ghost cmp = { slice_cmp nat_cmp };

    ghost total = { nat_list_cmp_total };

    ghost matches_partial_cmp = { λ x y. refl };

    ghost matches_eq = { texts_ties };

    fn cmp(&self, other: &Token) -> Ordering
        ensures { result ≡ slice_cmp nat_cmp self.now other.now }
    {
        self.spelling.cmp(&other.spelling)
    }
}

impl Hash for Token {
    ghost hash_input = { fed.slice fed.u8 };

    ghost respects_eq = { λ x y h. ap (fed.slice fed.u8) ((bytes_decides x y).0 h) };

    fn hash<H: Hasher>(&self, state: &mut H) {
        self.spelling.hash(state);
    }
}

impl Datum for Token {
    ghost same = { λ x y. (bytes_decides x y).0 };

    ghost copy = { λ x y h. h };
}

/// A token where it stands in a file.
#[derive(Clone, Drop)]
pub struct PlacedToken {
    pub token: Token,
    /// The number of the line of its first byte, from 1 on.
    pub line: u32,
    /// Whether it is the first token of its line, where joined lines are one, and a comment joins those that it spans.
    pub starts_line: bool,
    /// Whether a word ends where it begins, with nothing between.
    pub follows_word: bool,
}

// A file has a hundred thousands of tokens.
const _: () = prove!(size_of::<Token>() <= 24);

const _: () = prove!(size_of::<PlacedToken>() <= 32);

impl PlacedToken {
    /// The token with this spelling, on this line.
    pub fn new(context: Context, spelling: Bytes, line: u32) -> PlacedToken
        ensures { result ≡ token_of context spelling line }
    {
        PlacedToken::placed(context, Token::new(spelling), line)
    }

    /// The token that a word is, which is of this kind, on this line.
    pub(crate) fn word(context: Context, spelling: Bytes, kind: TokenKind, line: u32) -> PlacedToken
        requires word { is_word spelling ≡ true }
        requires kind { kind ≡ kind_of spelling }
        ensures { result ≡ token_of context spelling line }
    {
        PlacedToken::placed(context, Token::word(spelling, kind), line)
    }

    /// The token that a mark is which none other begins with, on this line.
    pub(crate) fn mark(context: Context, b: u8, line: u32) -> PlacedToken
        requires { is_lone_mark b ≡ true }
        ensures { result ≡ token_of context (b ∷ []) line }
    {
        PlacedToken::placed(context, Token::mark(b), line)
    }

    // The token on this line.
    fn placed(context: Context, token: Token, line: u32) -> PlacedToken
        ensures { result ≡ token_of context token line }
    {
        PlacedToken {
            token,
            line,
            starts_line: context.beginning.is_nothing(),
            follows_word: context.follows_word,
        }
    }
}
