//! The lines of a file, as the preprocessor reads them.

ghost use Rattle.std.specs.Prelude.{◌≡◌, ◌<◌, ◌++◌, ◌∷◌, IfOk, codes, length};
ghost use Rattle.std.specs.Str.{bytes_eq};
ghost use Rattle.idl_lex.specs.tokens.Tokens.{lines_of};
ghost use Rattle.idl_macro.specs.Replace.{place_at};
ghost use Rattle.idl_text.specs.Line.{after_hash, read};
ghost use Rattle.idl_prep.specs.Place.{place_in};
ghost use Rattle.idl_prep.specs.Read.{line_of};

use idl_base::Bytes;
use idl_fault::{FileName, Place};
use idl_lex::Token;
use idl_text::{DirectiveKind, FileToken, FileTokens};
use std::alloc::AllocError;
use std::marker::Model;

/// A directive: its kind, the number of its line, its word, the tokens after that, and both together.
#[derive(Drop)]
pub struct DirectiveLine<'t> {
    pub kind: DirectiveKind,
    pub line: u32,
    pub word: FileToken<'t>,
    pub operands: FileTokens<'t>,
    pub tokens: FileTokens<'t>,
}

impl<'t> Model for DirectiveLine<'t> {
    ghost use Rattle.std.specs.Prelude.{◌≡◌, ◌∷◌};
    ghost use Rattle.idl_text.specs.Line as spec;

    ghost Value = { spec.Directive };

    ghost view = { λ d. record {
      kind = d.kind;
      line = d.line;
      word = d.word;
      operands = d.operands;
    } };

    ghost invariant = { λ d. d.tokens ≡ d.word ∷ d.operands };
}

impl<'t> DirectiveLine<'t> {
    /// Its word.
    pub fn word(&self) -> &'t Bytes
        ensures { result.now ≡ self.now.word.token }
    {
        self.word.token().spelling()
    }

    /// The tokens after its word.
    pub fn operands(&self) -> &FileTokens<'t>
        ensures { result.now ≡ self.now.operands }
    {
        &self.operands
    }

    /// Its word, and the tokens after that.
    pub fn tokens(&self) -> &FileTokens<'t>
        ensures { result.now ≡ self.now.word ∷ self.now.operands }
    {
        &self.tokens
    }

    /// Its place in the file.
    pub fn place(&self, file: &FileName) -> Result<Place, AllocError>
        ensures { IfOk result (λ place. place ≡ place_in file.now self.now) }
    {
        Ok(Place {
            file: file.clone()?,
            line: self.line,
        })
    }

    /// The place of its word in the file.
    pub fn word_place(&self, file: &FileName) -> Result<Place, AllocError>
        ensures { IfOk result (λ place. place ≡ place_at file.now self.now.word) }
    {
        Ok(Place {
            file: file.clone()?,
            line: self.word.line(),
        })
    }

    /// The directive as macros take it.
    pub fn stated(&self, file: &FileName) -> Result<idl_macro::PlacedDirective<'t>, AllocError>
        ensures { IfOk result (λ stated. (stated.place ≡ place_in file.now self.now)
            × (stated.word.now ≡ self.now.word.token)
            × (stated.operands ≡ self.now.operands)) }
    {
        Ok(idl_macro::PlacedDirective {
            place: self.place(file)?,
            word: self.word(),
            operands: self.operands.copied(),
        })
    }
}

/// A line: tokens of the text, `#` alone on a line with this number, or a directive.
#[derive(Drop)]
pub enum LineKind<'t> {
    Text(FileTokens<'t>),
    NullDirective(u32),
    Directed(DirectiveLine<'t>),
}

/// The line that these tokens are: a directive where the first is `#`.
pub fn read<'t>(tokens: &FileTokens<'t>) -> LineKind<'t>
    ensures { line_of result ≡ read tokens.now }
{
    match tokens.split_first() {
        Some((hash, rest)) if is_hash(hash.token()) => after_hash(hash.line(), rest),
        _ => LineKind::Text(tokens.copied()),
    }
}

// Whether it is `#`.
fn is_hash(token: &Token) -> bool
    ensures { result ≡ bytes_eq token.now (codes "#") }
{
    match token.as_bytes() {
        [b] => *b == b'#',
        _ => false,
    }
}

// The line after a `#` with this number.
fn after_hash<'t>(line: u32, tokens: FileTokens<'t>) -> LineKind<'t>
    ensures { line_of result ≡ after_hash line tokens.entry }
{
    match tokens.split_first() {
        Some((word, operands)) => LineKind::Directed(DirectiveLine {
            kind: DirectiveKind::of(word.token().as_bytes()),
            line,
            word,
            operands,
            tokens,
        }),
        None => LineKind::NullDirective(line),
    }
}
