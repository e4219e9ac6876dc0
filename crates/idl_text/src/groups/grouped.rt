//! The tokens of a file with the branches of its groups, and its texts.

ghost use Rattle.std.specs.Prelude.{◌≡◌, ◌≤◌, ◌<◌, ◌++◌, ◌∷◌, ◌↔◌, [], IsTrue, drop, length, map, IfOk, IfSome};
ghost use Rattle.idl_lex.specs.tokens.Tokens.{lines_of, tokens_of};
ghost use Rattle.idl_text.specs.Jump.{IsJump};
ghost use Rattle.idl_text.specs.Line.{Text, lines_from};
ghost use Rattle.idl_text.specs.Matching.{IsTableOf};

use crate::groups::directive::directive_on;
use crate::groups::fault::GroupFault;
use crate::groups::matching::Matching;
use crate::groups::table::BranchTable;
use crate::texts::gathering::find_texts;
use crate::texts::lines::TextLines;
use crate::texts::table::TextTable;
use crate::tokens::file_tokens::FileTokens;
use crate::tokens::lexed::Lexed;
use crate::tokens::tokens_left::TokensLeft;
use std::alloc::{AllocError, Global};
use std::marker::Model;

/// A file with its tokens, and beside them the branches of its groups and its texts. To every contract it is the lines of the
/// file.
pub struct GroupedTokens {
    lexed: Lexed,
    table: BranchTable,
    texts: TextTable,
}

impl Model for GroupedTokens {
    ghost use Rattle.std.specs.Prelude.{List, ℕ};
    ghost use Rattle.idl_lex.specs.tokens.Tokens.{tokens_of};
    ghost use Rattle.idl_text.specs.Matching.{IsTableOf};
    ghost use Rattle.idl_text.specs.Texts.{AreTextsOf};

    ghost Value = { List (List ℕ) };

    ghost view = { λ it. it.lexed };

    ghost invariant = { λ it.
        IsTableOf (tokens_of it.lexed) it.table × AreTextsOf (tokens_of it.lexed) it.texts };
}

impl Drop for GroupedTokens {
    fn drop(self) {
        let GroupedTokens {
            lexed: _lexed,
            table: _table,
            texts: _texts,
        } = self;
    }
}

impl GroupedTokens {
    /// The file, with the branches of its groups and its texts.
    pub fn new(alloc: Global, lexed: Lexed) -> Result<GroupedTokens, AllocError>
        ensures { IfOk result (λ it. it ≡ lexed) }
    {
        let table = match_groups(alloc, &lexed)?;
        let texts = find_texts(alloc, &lexed)?;
        Ok(GroupedTokens {
            lexed,
            table,
            texts,
        })
    }

    /// The file with its tokens, which a later text can take over.
    pub fn lexed(&self) -> &Lexed
        ensures { result.now ≡ self.now }
    {
        &self.lexed
    }

    /// All lines.
    pub fn all(&self) -> LinesLeft<'_>
        ensures { result ≡ tokens_of self.now }
    {
        LinesLeft {
            file: self,
            before: 0,
            tokens: self.lexed.all(),
        }
    }
}

/// The lines of a file that are left, from one on. To every contract they are the list of their tokens.
#[derive(Drop)]
pub struct LinesLeft<'a> {
    file: &'a GroupedTokens,
    // How many tokens of the file are before them.
    before: usize,
    tokens: TokensLeft<'a>,
}

impl<'a> Model for LinesLeft<'a> {
    ghost use Rattle.std.specs.Prelude.{◌≡◌, ◌≤◌, ◌<◌, ◌^◌, List, drop, length};
    ghost use Rattle.idl_lex.specs.tokens.Tokens.{tokens_of};
    ghost use Rattle.idl_lex.specs.declared.tokens.token.PlacedToken.{PlacedToken};

    ghost Value = { List PlacedToken };

    ghost view = { λ left. left.tokens };

    ghost invariant = { λ left. let tokens = tokens_of left.file.now in
        (left.tokens ≡ drop left.before tokens)
        × (left.before ≤ length tokens) × (length tokens < 2 ^ 64) };
}

impl<'a> LinesLeft<'a> {
    /// Whether no line is left.
    pub fn is_empty(&self) -> bool
        ensures { IsTrue result ↔ (self.now ≡ []) }
    {
        self.tokens.is_empty()
    }

    /// The first line, and those after it.
    pub fn first_line(&self) -> (FileTokens<'a>, LinesLeft<'a>)
        requires { 0 < length self.now }
        ensures lines { lines_of self.now ≡ result.0 ∷ lines_of result.1 }
        ensures all { self.now ≡ result.0 ++ result.1 }
        ensures some { 0 < length result.0 }
    {
        let (line, tokens) = self.tokens.first_line();
        let rest = LinesLeft {
            file: self.file,
            before: self.before + line.len(),
            tokens,
        };
        (line, rest)
    }

    /// Lines of text that come first, if some are found, and the lines after them.
    pub fn first_text(&self) -> Option<(TextLines<'a>, LinesLeft<'a>)>
        ensures lines { IfSome result (λ parts.
            lines_from self.now ≡ map Text (lines_of parts.0) ++ lines_from parts.1) }
        ensures all { IfSome result (λ parts. self.now ≡ parts.0 ++ parts.1) }
        ensures some { IfSome result (λ parts. 0 < length parts.0) }
    {
        let file = self.file;
        let text = file.texts.text_from(self.before)?;
        let before = self.before + text.count;
        let rest = LinesLeft {
            file,
            before,
            tokens: file.lexed.behind(before),
        };
        let lines = TextLines::new(self.tokens.copied(), text.count, &text.words);
        Some((lines, rest))
    }

    /// What comes after the branch of a group that begins with these lines, and the faults of groups in that branch; `None`
    /// where no branch begins whose group has come to its `else`, or hasn't.
    pub fn jump(&self, has_else: bool) -> Option<(LinesLeft<'a>, &'a [GroupFault])>
        ensures { IfSome result (λ jump. (length jump.0 ≤ length self.now)
            × IsJump has_else (lines_from self.now) (lines_from jump.0) jump.1.now) }
    {
        let file = self.file;
        let span = file.table.branch_from(self.before)?;
        if span.has_else != has_else {
            return None;
        }
        let faults = &file.table.faults[span.first_fault..span.end_fault];
        let rest = LinesLeft {
            file,
            before: span.to,
            tokens: file.lexed.behind(span.to),
        };
        Some((rest, faults))
    }
}

// Matches the groups of a file.
fn match_groups(alloc: Global, lexed: &Lexed) -> Result<BranchTable, AllocError>
    ensures { IfOk result (λ table. IsTableOf (tokens_of lexed.now) table) }
{
    let mut matching = Matching::new(alloc);
    let mut left = lexed.all();
    let mut at = 0;
    'lines: while !left.is_empty() {
        let (text, behind) = left.first_text();
        if !text.is_empty() {
            at += text.len();
            left = behind;
            continue;
        }
        let (line, rest) = left.first_line();
        let after = at + line.len();
        if let Some(directive) = directive_on(&line) {
            matching.step(&directive, at, after)?;
        }
        left = rest;
        at = after;
    }
    matching.finish(at)
}
