//! The replacement of macros: a word by the tokens of its body, which are scanned again.
//!
//! Replacements that stand in one another are kept on a stack of their own, so that no depth of
//! them is too much.

ghost use Rattle.std.specs.Prelude.{◌≡◌, ◌≢◌, ◌<◌, ◌≤◌, ◌∷◌, [], ℕ, List, Option, None, IfOk, IsTrue, OnOk, drop, is_some, length, reverse, take};
ghost use Rattle.std.specs.Map.{keys_of, lookup};
ghost use Rattle.std.specs.Option.{option_copied, option_map};
ghost use Rattle.std.specs.Str.{bytes_eq};
ghost use Rattle.idl_memo.specs.Progress.{after_item};
ghost use Rattle.idl_memo.specs.Query.{outcome};
ghost use Rattle.idl_event.specs.Expanding.{Reached, after_text, arrival, arrived, reached};
ghost use Rattle.idl_event.specs.Items.{rules, tokens_left, turns_left};
ghost use Rattle.idl_lex.specs.tokens.Tokens.{Token};
ghost use Rattle.idl_macro.specs.Output.{given, given_more, item_of};
ghost use Rattle.idl_macro.specs.declared.replacement.Output.TheVariants.{Text};
ghost use Rattle.idl_macro.specs.Replace.{operand, replaced, replaced_at, replacement, text};

use crate::definitions::{Definitions, Macros};
use idl_base::Bytes;
use idl_event::{Item, Progress, RootAnswer, RootBank, RootKey};
use idl_fault::{FileName, Place};
use idl_lex::Token;
use idl_map::Table;
use idl_text::{FileTokens, TextLines};
use std::alloc::{AllocError, Global};
use std::slice::from_ref;

/// Where the tokens go that come of a replacement.
#[derive(Drop)]
pub enum Output {
    /// They are emitted, as tokens of the text.
    Text,
    /// They are counted, and given: the tokens of a condition, or of the operand of an `include`.
    Operand(Vec<Token>),
}

/// The tokens of a text are replaced, each at its own place, and emitted. In most texts all stand for themselves: each word is
/// asked for once, and then all are emitted.
pub fn replace_text<B: RootBank>(
    macros: &Macros<'_, B>,
    file: &FileName,
    lines: &TextLines<'_>,
    progress: &mut Progress<B>,
) -> Result<(), AllocError>
    ensures { OnOk result (progress.new
        ≡ reached (B.at macros.now.bank.now)
        (text file.now macros.now.definitions.now lines.now) progress.old) }
{
    if are_plain(macros, lines, progress)? {
        return progress.emit_lines(file, lines);
    }
    let mut left = lines.parts();
    'chunks: while let Some((part, rest)) = left.split_first() {
        replace_tokens(macros, file, &part, progress)?;
        left = rest;
    }
    Ok(())
}

// Whether all tokens of a text stand for themselves, where the limits leave as many as there are: these are to be emitted. The
// macros of its words were asked for, up to the first that is one; where those of all its tokens are asked for behind that,
// nothing is another.
fn are_plain<B: RootBank>(
    macros: &Macros<'_, B>,
    lines: &TextLines<'_>,
    progress: &mut Progress<B>,
) -> Result<bool, AllocError>
    ensures room { IfOk result (λ plain. IsTrue plain
        → length lines.now ≤ tokens_left progress.new.left) }
    ensures plain { let bank = B.at macros.now.bank.now in
        let definitions = macros.now.definitions.now in (file : List ℕ) →
        IfOk result (λ plain. IsTrue plain
        → after_text file lines.now progress.new
        ≡ reached bank (text file definitions lines.now) progress.old) }
    ensures again { let bank = B.at macros.now.bank.now in
        let definitions = macros.now.definitions.now in (file : List ℕ) →
        OnOk result (reached bank (text file definitions lines.now) progress.new
        ≡ reached bank (text file definitions lines.now) progress.old) }
{
    if progress.tokens_left() < lines.len() {
        return Ok(false);
    }
    let words = lines.words();
    let mut count = 0;
    'words: while count < words.len() {
        if body_of(macros, &words[count], progress)?.is_some() {
            return Ok(false);
        }
        count += 1;
    }
    Ok(true)
}

/// Tokens are replaced, each at its own place, and emitted. Those that stand for themselves and follow one another are emitted
/// at once, and a replacement begins only where there is a macro.
#[inline(never)]
#[tactic(auto, unfolding(crate::specs::Replace::text))]
pub fn replace_tokens<B: RootBank>(
    macros: &Macros<'_, B>,
    file: &FileName,
    tokens: &FileTokens<'_>,
    progress: &mut Progress<B>,
) -> Result<(), AllocError>
    ensures { OnOk result (progress.new
        ≡ reached (B.at macros.now.bank.now)
        (text file.now macros.now.definitions.now tokens.now) progress.old) }
{
    let mut left = tokens.copied();
    'tokens: while let Some((first, rest)) = left.split_first() {
        let count = count_plain(macros, &left, progress)?;
        if count > 0 {
            let (plain, behind) = left.split_at(count);
            progress.emit_text(file, &plain)?;
            left = behind;
            continue;
        }
        let place = Place {
            file: file.clone()?,
            line: first.line(),
        };
        let first = TokensAt {
            place: &place,
            tokens: from_ref(first.token()),
        };
        replace(macros, first, progress, &mut Output::Text)?;
        left = rest;
    }
    Ok(())
}

// How many tokens come first that stand for themselves, where the limits leave as many as there are: these are to be emitted.
// Their macros were asked for, and so may that of the next one be.
fn count_plain<B: RootBank>(
    macros: &Macros<'_, B>,
    tokens: &FileTokens<'_>,
    progress: &mut Progress<B>,
) -> Result<usize, AllocError>
    ensures within { IfOk result (λ count. count ≤ length tokens.now) }
    ensures room { IfOk result (λ count. count ≤ tokens_left progress.new.left) }
    ensures plain { let bank = B.at macros.now.bank.now in
        let definitions = macros.now.definitions.now in (file : List ℕ) →
        IfOk result (λ count.
        reached bank (text file definitions tokens.now) progress.old
        ≡ reached bank (text file definitions (drop count tokens.now))
        (after_text file (take count tokens.now) progress.new)) }
{
    let tokens = tokens.as_slice();
    if progress.tokens_left() < tokens.len() {
        return Ok(0);
    }
    let mut count = 0;
    'tokens: while count < tokens.len() {
        if body_of(macros, &tokens[count], progress)?.is_some() {
            return Ok(count);
        }
        count += 1;
    }
    Ok(count)
}

// The body that a token in no replacement is replaced by: its macro's, if it is a word.
#[inline(always)]
fn body_of<'a, B: RootBank>(
    macros: &Macros<'a, B>,
    token: &Token,
    progress: &mut Progress<B>,
) -> Result<Option<&'a [Token]>, AllocError>
    ensures { IfOk result (λ body. arrived (option_copied body) progress.new
        ≡ arrival (B.at macros.now.bank.now)
        (replacement macros.now.definitions.now [] token.now) progress.old) }
{
    if !token.is_word() {
        return Ok(None);
    }
    macros
        .definitions
        .macro_of(token.spelling(), macros.bank, progress)
}

/// The tokens of a condition or of an operand are replaced at the place of the directive, counted,
/// and given.
///
/// Where an item was past the limits, nothing is said of the tokens.
#[tactic(auto, unfolding(crate::specs::Replace::operand))]
pub fn replace_operand<B: RootBank>(
    macros: &Macros<'_, B>,
    place: &Place,
    tokens: &[Token],
    progress: &mut Progress<B>,
) -> Result<Vec<Token>, AllocError>
    ensures { IfOk result (λ given. arrived given.items progress.new
        ≡ arrival (B.at macros.now.bank.now)
        (operand place.now macros.now.definitions.now tokens.now) progress.old) }
{
    let alloc = progress.allocator();
    let mut output = Output::Operand(Vec::new(alloc));
    replace(macros, TokensAt { place, tokens }, progress, &mut output)?;
    match output {
        Output::Text => Ok(Vec::new(alloc)),
        Output::Operand(given) => Ok(given),
    }
}

/// How many replacements may stand in one another is no bound: more room for them than there are
/// turns left changes nothing. This does nothing: it carries the law.
pub fn nesting()
    ensures { (bank : RootKey → Option RootAnswer) (item : Token → Item) (place : Place)
        (definitions : Definitions) (room more : ℕ) (hidden : List (List ℕ)) (t : Token)
        (p : Reached)
        → turns_left p.left < room → turns_left p.left < more
        → reached bank (replaced item place definitions room hidden t) p
        ≡ reached bank (replaced item place definitions more hidden t) p }
{}

// Tokens that are replaced at one place.
#[derive(Clone, Copy)]
struct TokensAt<'a> {
    place: &'a Place,
    tokens: &'a [Token],
}

// The tokens are replaced at their place. Words in whose replacement the work stands have an entry
// each, with what follows them, the outermost first.
fn replace<B: RootBank>(
    macros: &Macros<'_, B>,
    source: TokensAt<'_>,
    progress: &mut Progress<B>,
    output: &mut Output,
) -> Result<(), AllocError>
    ensures item { OnOk result (item_of output.new ≡ item_of output.old) }
    ensures progress { OnOk result (progress.new
        ≡ reached (B.at macros.now.bank.now)
        (replaced_at (item_of output.old source.entry.place.now) source.entry.place.now
        macros.now.definitions.now
        source.entry.tokens.now) progress.old) }
    ensures given { OnOk result (progress.new.left ≢ None → given output.new
        ≡ given_more (given output.old)
        (outcome
        (replaced_at (item_of output.old source.entry.place.now) source.entry.place.now
        macros.now.definitions.now
        source.entry.tokens.now) (B.at macros.now.bank.now))) }
{
    let mut stack: Table<Bytes, &[Token]> = Table::new(progress.allocator());
    let mut left = source.tokens;
    'steps: while !progress.is_over() {
        match left.split_first() {
            None => match stack.pop() {
                None => return Ok(()),
                Some((_word, rest)) => left = rest,
            },
            Some((token, rest)) => match replacement(&stack, macros, token, progress)? {
                None => {
                    output.put(source.place, token, progress)?;
                    left = rest;
                }
                Some(body) => {
                    progress.tell(Item::Turn(source.place.clone()?))?;
                    stack.insert(token.spelling().clone()?, rest)?;
                    left = body;
                }
            },
        }
    }
    Ok(())
}

// The body that a token is replaced by: its macro's, if it is a word and doesn't stand in its own
// replacement.
fn replacement<'a, B: RootBank>(
    stack: &Table<Bytes, &'a [Token]>,
    macros: &Macros<'a, B>,
    token: &Token,
    progress: &mut Progress<B>,
) -> Result<Option<&'a [Token]>, AllocError>
    ensures { IfOk result (λ body. arrived (option_copied body) progress.new
        ≡ arrival (B.at macros.now.bank.now)
        (replacement macros.now.definitions.now (keys_of (reverse stack.now)) token.now)
        progress.old) }
{
    if !token.is_word() {
        return Ok(None);
    }
    if stack.contains(token.spelling()) {
        return Ok(None);
    }
    macros
        .definitions
        .macro_of(token.spelling(), macros.bank, progress)
}

impl Output {
    // A token that stands for itself, at the place of the outermost word.
    fn put<B: RootBank>(
        &mut self,
        place: &Place,
        token: &Token,
        progress: &mut Progress<B>,
    ) -> Result<(), AllocError>
        ensures item { OnOk result (item_of self.new ≡ item_of self.old) }
        ensures given { OnOk result
            (given self.new ≡ given_more (given self.old) (token.now ∷ [])) }
        ensures progress { OnOk result
            (progress.new ≡ after_item rules (item_of self.old place.now token.now) progress.old) }
    {
        let place = place.clone()?;
        match self {
            Output::Text => progress.emit(place, token),
            Output::Operand(given) => {
                given.push(token.clone()?)?;
                progress.tell(Item::Counted(place))
            }
        }
    }
}
