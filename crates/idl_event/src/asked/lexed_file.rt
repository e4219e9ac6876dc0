//! Files that are held with their tokens.
//!
//! Files are lexed where they are held, and an answer carries the tokens: a file that is included a thousand times is
//! cut once.

ghost use Rattle.std.specs.Prelude.{◌≡◌, ◌↔◌, IsTrue, IfOk};
ghost use Rattle.std.specs.Cmp.{partial_equiv_from_equiv};
ghost use Rattle.std.specs.Cmp.Lexicographic.{pointwise, pointwise_decides, bytes_decides, lists_per, lists_equiv, nat_list_eq_equiv};
ghost use Rattle.std.specs.Str.{bytes_eq};
ghost use Rattle.idl_lex.specs.tokens.Tokens.{tokens_of};
ghost use Rattle.idl_text.specs.Starts.{column_in};

use idl_base::Datum;
use idl_lex::idl_source::File;
use idl_text::{ChunkColumns, GroupedTokens, LinesLeft, column_in, lex};
use std::alloc::{AllocError, Global};
use std::marker::Model;
use std::rc::Rc;

/// A file with its tokens and the branches of its groups, so that they are made once. Its lines alone are its value, and a
/// clone shares all.
#[derive(Drop)]
pub struct LexedFile {
    tokens: Rc<GroupedTokens>,
}

impl Model for LexedFile {
    ghost use Rattle.std.specs.Prelude.{List, ℕ};

    ghost Value = { List (List ℕ) };

    ghost view = { λ it. it.tokens.value };
}

impl LexedFile {
    /// The file with its tokens, of which those of an earlier text are taken over that are the same.
    pub fn new(alloc: Global, file: File, old: Option<&LexedFile>) -> Result<LexedFile, AllocError>
        ensures { IfOk result (λ it. it ≡ file) }
    {
        let old = old.map(|old| old.tokens.lexed());
        let tokens = GroupedTokens::new(alloc, lex(alloc, &file, old)?)?;
        Ok(LexedFile {
            tokens: Rc::new(alloc, tokens)?,
        })
    }

    /// The file.
    pub fn file(&self) -> &File
        ensures { result.now ≡ self.now }
    {
        self.tokens.lexed().file()
    }

    /// Its lines.
    pub fn lines(&self) -> LinesLeft<'_>
        ensures { result ≡ tokens_of self.now }
    {
        self.tokens.all()
    }

    /// How many bytes of a line are before the token with this number there, from 0 on, if it is spelled so, or else before the only one
    /// there that is. What goes over joined lines has no column. It takes no memory.
    pub fn column(&self, line: u32, number: Option<usize>, text: &[u8]) -> Option<usize>
        ensures { result ≡ column_in self.now line number text.now }
    {
        column_in(self.tokens.lexed(), line, number, text)
    }

    /// The tokens of the chunk in which this line is, where they begin, for who asks for the columns of many.
    pub fn chunk_columns(&self, alloc: Global, line: u32) -> Result<ChunkColumns<'_>, AllocError>
        ensures { IfOk result (λ chunk. chunk ≡ self.now) }
    {
        ChunkColumns::new(alloc, self.tokens.lexed(), line)
    }

    /// How many lines are before that chunk. No clause says so: who keeps what was found in a chunk finds it again by this number, and only
    /// cost rests on it.
    pub fn lines_before(&self, line: u32) -> usize {
        self.tokens.lexed().lines_before(line)
    }
}

impl Clone for LexedFile {
    ghost is_clone = { λ it copy. copy ≡ it };

    fn clone(&self) -> Result<LexedFile, AllocError> {
        Ok(LexedFile {
            tokens: self.tokens.clone()?,
        })
    }
}

impl PartialEq for LexedFile {
    ghost eq = { pointwise bytes_eq };

    ghost laws = { lists_per (partial_equiv_from_equiv nat_list_eq_equiv) };

    fn eq(&self, other: &LexedFile) -> bool
        ensures by_line { result ≡ pointwise bytes_eq self.now other.now }
        ensures exact { IsTrue result ↔ (self.now ≡ other.now) }
    {
        self.file() == other.file()
    }
}

impl Eq for LexedFile {
    ghost laws = { lists_equiv nat_list_eq_equiv };
}

impl Datum for LexedFile {
    ghost same = { λ x y. (pointwise_decides bytes_decides x y).0 };

    ghost copy = { λ x y h. h };
}
