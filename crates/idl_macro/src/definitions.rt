//! The macros of a root: those that the root itself defines or removes, and else those of the bank.
//!
//! A macro that is defined again is compared word by word, also at the same line of the same file: no clause says of
//! two counted pointers that they are one.

ghost use Rattle.std.specs.Prelude.{◌≡◌, [], Some, None, IfOk, OnOk, OnErr};
ghost use Rattle.std.specs.Map.{lookup};
ghost use Rattle.std.specs.Option.{option_copied, option_map};
ghost use Rattle.std.specs.Str.{bytes_eq};
ghost use Rattle.idl_map.specs.Table.{insert_entry};
ghost use Rattle.idl_event.specs.Expanding.{arrival, arrived};
ghost use Rattle.idl_lex.specs.tokens.Tokens.{tokens_in};
ghost use Rattle.idl_text.specs.Digest.{digest_of};
ghost use Rattle.idl_macro.specs.Macros.{body_in, macro_of};

use idl_base::Bytes;
use idl_event::{Progress, RootAnswer, RootBank};
use idl_lex::Token;
use idl_map::{Marks, Table};
use idl_text::{TokenRange, digest_of};
use std::alloc::{AllocError, Global};
use std::marker::Model;

// So many words of marks there are.
const WORDS: usize = 16;

/// What a root itself has said of words: the body of a macro, or that the macro is removed.
///
/// Of most words nothing is said, and those are mostly found by the marks of those that something was said of.
#[derive(Drop)]
pub struct Definitions {
    entries: Table<Bytes, Option<TokenRange>>,
    marks: Marks<WORDS>,
}

impl Model for Definitions {
    ghost use Rattle.std.specs.Prelude.{List, ℕ, Option};
    ghost use Rattle.std.specs.Map.{lookup};
    ghost use Rattle.std.specs.Str.{bytes_eq};
    ghost use Rattle.idl_map.specs.Marks.{AreMarked};
    ghost use Rattle.idl_lex.specs.tokens.Tokens.{Token};
    ghost use Rattle.idl_text.specs.Digest.{digest_of};

    ghost Value = { List (List ℕ × Option (List Token)) };

    ghost view = { λ definitions. definitions.entries };

    ghost invariant = { λ definitions. AreMarked definitions.marks digest_of
        (λ word. lookup (bytes_eq word) definitions.entries) };
}

/// The macros of a root: what the root has said of them, and the bank that is asked of the others.
#[derive(Clone, Copy)]
pub struct Macros<'a, B> {
    pub definitions: &'a Definitions,
    pub bank: &'a B,
}

impl Definitions {
    /// Nothing is said of any word. It takes no memory.
    pub fn new(alloc: Global) -> Definitions
        ensures { result ≡ [] }
    {
        Definitions {
            entries: Table::new(alloc),
            marks: Marks::new(),
        }
    }

    /// The body of the macro with this word: what the root said of it, else what the bank answers.
    #[inline(always)]
    pub fn macro_of<'a, B: RootBank>(
        &'a self,
        word: &Bytes,
        bank: &'a B,
        progress: &mut Progress<B>,
    ) -> Result<Option<&'a [Token]>, AllocError>
        ensures { IfOk result (λ body.
            arrived (option_copied body) progress.new
            ≡ arrival (B.at bank.now) (macro_of self.now word.now) progress.old) }
    {
        let digest = digest_of(word.as_bytes());
        match self.said_of(word, digest) {
            Some(said) => Ok(tokens_of(said.as_ref())),
            None => {
                let answer = progress.ask_word(word, digest, bank)?;
                Ok(body_in(answer))
            }
        }
    }

    // What was said of a word with this digest, if anything was.
    fn said_of(&self, word: &Bytes, digest: u64) -> Option<&Option<TokenRange>>
        requires { digest ≡ digest_of word.now }
        ensures { option_copied result ≡ lookup (bytes_eq word.now) self.now }
    {
        if !self.marks.has(digest) {
            return None;
        }
        self.entries.get(word)
    }

    /// The macro with this word has this body from now on, whatever was said of the word. Want of
    /// memory leaves what was said as it was.
    pub fn define(&mut self, word: &Bytes, body: TokenRange) -> Result<(), AllocError>
        ensures ok { OnOk result (self.new ≡ insert_entry bytes_eq self.old word.now (Some body)) }
        ensures err { OnErr result (self.new ≡ self.old) }
    {
        self.say(word, Some(body))
    }

    /// There is no macro with this word from now on. Want of memory leaves what was said as it was.
    pub fn remove(&mut self, word: &Bytes) -> Result<(), AllocError>
        ensures ok { OnOk result (self.new ≡ insert_entry bytes_eq self.old word.now None) }
        ensures err { OnErr result (self.new ≡ self.old) }
    {
        self.say(word, None)
    }

    // This is said of the word from now on.
    fn say(&mut self, word: &Bytes, body: Option<TokenRange>) -> Result<(), AllocError>
        ensures ok { OnOk result (self.new ≡ insert_entry bytes_eq self.old word.now body) }
        ensures err { OnErr result (self.new ≡ self.old) }
    {
        self.marks.mark(digest_of(word.as_bytes()));
        self.entries.insert(word.clone()?, body)?;
        Ok(())
    }
}

// The tokens of a body, if there is one.
fn tokens_of(body: Option<&TokenRange>) -> Option<&[Token]>
    ensures { option_copied result ≡ option_copied body.entry }
{
    Some(body?.as_slice())
}

// The tokens of the body that is answered, if one is.
fn body_in(answer: Option<&RootAnswer>) -> Option<&[Token]>
    ensures { option_copied result ≡ body_in (option_copied answer.entry) }
{
    match answer {
        Some(RootAnswer::Macro(text)) => Some(text.tokens().as_slice()),
        _ => None,
    }
}
