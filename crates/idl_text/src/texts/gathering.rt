//! The texts of a file are found, and their words gathered.

ghost use Rattle.std.specs.Prelude.{◌≡◌, ◌<◌, ◌∷◌, ◌++◌, ◌^◌, [], List, IfOk, IsTrue, OnOk, drop, length};
ghost use Rattle.std.specs.List.{Contains};
ghost use Rattle.idl_lex.specs.tokens.Tokens.{tokens_of};
ghost use Rattle.idl_lex.specs.declared.tokens.token.PlacedToken.{PlacedToken};
ghost use Rattle.idl_text.specs.Texts.{AreTextsOf, AreWordsOf, BeginsText};

use crate::texts::digest::digest_of;
use crate::texts::hints::{Hints, Places};
use crate::texts::table::{TextSpan, TextTable};
use crate::tokens::file_tokens::FileTokens;
use crate::tokens::lexed::Lexed;
use crate::tokens::tokens_left::TokensLeft;
use idl_lex::Token;
use std::alloc::{AllocError, Global};

// Of so many words of a text no hints are noted.
const FEW: usize = 16;

/// The texts of a file.
pub fn find_texts(alloc: Global, lexed: &Lexed) -> Result<TextTable, AllocError>
    ensures { IfOk result (λ table. AreTextsOf (tokens_of lexed.now) table) }
{
    let mut texts = Vec::new(alloc);
    let mut hints = Hints::new(alloc);
    let mut left = lexed.all();
    let mut at = 0;
    'lines: while !left.is_empty() {
        let (text, behind) = gather_text(alloc, at, left, &mut hints)?;
        if text.count > 0 {
            at += text.count;
            texts.push(text)?;
            left = behind;
            continue;
        }
        let (line, rest) = behind.first_line();
        at += line.len();
        left = rest;
    }
    texts.shrink_to_fit();
    Ok(TextTable { texts })
}

// The text that comes first, from this token of its file on, and what comes after it.
fn gather_text<'a>(
    alloc: Global,
    from: usize,
    tokens: TokensLeft<'a>,
    hints: &mut Hints,
) -> Result<(TextSpan, TokensLeft<'a>), AllocError>
    requires { length tokens < 2 ^ 64 }
    ensures text { IfOk result (λ it. BeginsText tokens.entry it.0.count it.0.words.items) }
    ensures from { IfOk result (λ it. it.0.from ≡ from) }
    ensures behind { IfOk result (λ it. it.1 ≡ drop it.0.count tokens.entry) }
{
    let mut words = Vec::new(alloc);
    let mut left = tokens;
    let mut count = 0;
    'parts: while !left.is_empty() {
        let (text, behind) = left.first_text();
        if text.is_empty() {
            break;
        }
        gather_words(&text, &mut words, hints)?;
        count += text.len();
        left = behind;
    }
    words.shrink_to_fit();
    Ok((TextSpan { from, count, words }, left))
}

// The words of a text go on with those of more of its tokens.
fn gather_words(
    tokens: &FileTokens<'_>,
    words: &mut Vec<Token>,
    hints: &mut Hints,
) -> Result<(), AllocError>
    ensures { OnOk result ((text : List PlacedToken)
        → AreWordsOf text words.old.items → AreWordsOf (text ++ tokens.now) words.new.items) }
{
    let tokens = tokens.as_slice();
    let mut count = 0;
    'tokens: while count < tokens.len() {
        gather_word(&tokens[count], words, hints)?;
        count += 1;
    }
    Ok(())
}

// They go on with one token more.
fn gather_word(token: &Token, words: &mut Vec<Token>, hints: &mut Hints) -> Result<(), AllocError>
    ensures { OnOk result ((text : List PlacedToken) (t : PlacedToken) → t.token ≡ token.now
        → AreWordsOf text words.old.items → AreWordsOf (text ++ t ∷ []) words.new.items) }
{
    if !token.is_word() {
        return Ok(());
    }
    if is_found(words.as_slice(), token, hints)? {
        return Ok(());
    }
    words.push(token.clone()?)?;
    Ok(())
}

// Whether a word is found among these: few are looked through, and behind as many a hint is needed. Where it isn't found, a hint
// is noted of where it will stand.
fn is_found(words: &[Token], word: &Token, hints: &mut Hints) -> Result<bool, AllocError>
    ensures { IfOk result (λ found. IsTrue found → Contains words.now word.now) }
{
    if words.len() < FEW {
        return Ok(words.contains(word));
    }
    let digest = digest_of(word.as_bytes());
    if is_there(words, hints.places_of(digest), word) {
        return Ok(true);
    }
    hints.note(digest, words.len())?;
    Ok(false)
}

// Whether a word stands at one of these places.
fn is_there(words: &[Token], places: Places, word: &Token) -> bool
    ensures { IsTrue result → Contains words.now word.now }
{
    stands_at(words, places.first, word) || stands_at(words, places.last, word)
}

// Whether it stands there.
fn stands_at(words: &[Token], place: u32, word: &Token) -> bool
    ensures { IsTrue result → Contains words.now word.now }
{
    match words.get(place as usize) {
        Some(there) => there == word,
        None => false,
    }
}
