//! The tokens of a chunk, apart from their places, so that they are shared without these.

ghost use Rattle.std.specs.Prelude.{◌≡◌, ◌++◌, ◌∷◌, [], IfOk, OnOk, length, map};
ghost use Rattle.idl_lex.specs.tokens.Apart.{place_of};
ghost use Rattle.idl_lex.specs.tokens.Tokens.{tokens_in};

use crate::tokens::token::{PlacedToken, Token};
use std::alloc::{AllocError, Global};
use std::marker::Model;
use std::rc::Rc;

/// Where a token stands: its line, and what it begins or follows there.
#[derive(Clone, Copy)]
pub struct TokenPlace {
    pub line: u32,
    pub starts_line: bool,
    pub follows_word: bool,
}

// A file has a hundred thousands of tokens.
const _: () = prove!(size_of::<TokenPlace>() <= 8);

/// Tokens that are put in one after another. To every contract they are their list.
#[derive(Drop)]
pub struct TokenBuffer {
    tokens: Vec<Token>,
    places: Vec<TokenPlace>,
}

impl Model for TokenBuffer {
    ghost use Rattle.std.specs.Prelude.{◌≡◌, List, length};
    ghost use Rattle.idl_lex.specs.tokens.Apart.{placed};
    ghost use Rattle.idl_lex.specs.declared.tokens.token.PlacedToken.{PlacedToken};

    ghost Value = { List PlacedToken };

    ghost view = { λ buffer. placed buffer.tokens.items buffer.places.items };

    ghost invariant = { λ buffer. length buffer.places.items ≡ length buffer.tokens.items };
}

impl TokenBuffer {
    /// No tokens, with room for so many.
    pub fn with_capacity(alloc: Global, room: usize) -> Result<TokenBuffer, AllocError>
        ensures { IfOk result (λ buffer. buffer ≡ []) }
    {
        Ok(TokenBuffer {
            tokens: Vec::with_capacity(alloc, room)?,
            places: Vec::with_capacity(alloc, room)?,
        })
    }

    /// Where its memory comes from.
    pub fn allocator(&self) -> Global {
        *self.tokens.allocator()
    }

    /// Puts in a token.
    #[inline(always)]
    pub fn push(&mut self, placed: PlacedToken) -> Result<(), AllocError>
        ensures { OnOk result (self.new ≡ self.old ++ placed ∷ []) }
    {
        let PlacedToken {
            token,
            line,
            starts_line,
            follows_word,
        } = placed;
        self.places.reserve(1)?;
        self.tokens.push(token)?;
        self.places.push_reserved(TokenPlace {
            line,
            starts_line,
            follows_word,
        });
        Ok(())
    }

    /// The tokens, which are shared from now on. They take no more memory than they need.
    pub fn share(mut self, alloc: Global) -> Result<ChunkTokens, AllocError>
        ensures { IfOk result (λ tokens. tokens ≡ self) }
    {
        self.tokens.shrink_to_fit();
        self.places.shrink_to_fit();
        Ok(ChunkTokens {
            tokens: Rc::new(alloc, self.tokens)?,
            places: self.places,
        })
    }
}

/// The tokens of a chunk, which others share, and where each of them stands. To every contract they are their list.
#[derive(Drop)]
pub struct ChunkTokens {
    tokens: Rc<Vec<Token>>,
    places: Vec<TokenPlace>,
}

impl Model for ChunkTokens {
    ghost use Rattle.std.specs.Prelude.{◌≡◌, List, length};
    ghost use Rattle.idl_lex.specs.tokens.Apart.{placed};
    ghost use Rattle.idl_lex.specs.declared.tokens.token.PlacedToken.{PlacedToken};

    ghost Value = { List PlacedToken };

    ghost view = { λ it. placed it.tokens.value.items it.places.items };

    ghost invariant = { λ it. length it.places.items ≡ length it.tokens.value.items };
}

impl ChunkTokens {
    /// How many they are.
    pub fn len(&self) -> usize
        ensures { result ≡ length self.now }
    {
        self.places.len()
    }

    /// The tokens without their places.
    pub fn tokens(&self) -> &Rc<Vec<Token>>
        ensures { result.now.value.items ≡ tokens_in self.now }
    {
        &self.tokens
    }

    /// Where each of them stands.
    pub fn places(&self) -> &[TokenPlace]
        ensures { result.now ≡ map place_of self.now }
    {
        &self.places
    }
}
