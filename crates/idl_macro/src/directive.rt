//! The directives that define, remove and test macros.

ghost use Rattle.std.specs.Prelude.{◌≡◌, Option, Some, IfOk, OnOk, true};
ghost use Rattle.std.specs.Option.{option_copied, option_map};
ghost use Rattle.idl_memo.specs.Progress.{after_item};
ghost use Rattle.idl_event.specs.Expanding.{arrival, arrived};
ghost use Rattle.idl_event.specs.Items.{rules};
ghost use Rattle.idl_fault.specs.declared.code.Code.TheVariants.{MalformedMacro, OtherDefinition};
ghost use Rattle.idl_event.specs.declared.told.event.Event.TheVariants.{Fault};
ghost use Rattle.idl_event.specs.declared.told.event.Item.TheVariants.{Kept};
ghost use Rattle.idl_lex.specs.tokens.Tokens.{tokens_in};
ghost use Rattle.idl_macro.specs.Directives.{define, undef, ifdef, ifndef, is_macro_there, definition_in, differs, first_word, same_tokens, opens_parameters};

use crate::definitions::{Definitions, Macros};
use crate::word::is_macro_word;
use idl_base::Bytes;
use idl_event::{Event, Item, Progress, RootAnswer, RootBank, RootKey};
use idl_fault::{Code, Place};
use idl_lex::Token;
use idl_text::{FileToken, FileTokens};
use std::alloc::AllocError;

/// A directive where it stands: its word, and the tokens after that.
#[derive(Drop)]
pub struct PlacedDirective<'a> {
    pub place: Place,
    pub word: &'a Bytes,
    pub operands: FileTokens<'a>,
}

/// `define`: a macro is defined. Where it is there with other tokens, that is a fault, and it
/// stays.
pub fn define<B: RootBank>(
    definitions: &mut Definitions,
    directive: &PlacedDirective<'_>,
    bank: &B,
    progress: &mut Progress<B>,
) -> Result<(), AllocError>
    ensures { OnOk result (arrived definitions.new progress.new
        ≡ arrival (B.at bank.now)
        (define directive.now.place directive.now.word.now definitions.old
        directive.now.operands) progress.old) }
{
    let Some((word, body)) = definition_in(&directive.operands) else {
        return malformed(directive, progress);
    };
    let old = definitions.macro_of(word, bank, progress)?;
    if differs(old, body.as_slice()) {
        return other_definition(directive, word, progress);
    }
    definitions.define(word, body.shared()?)?;
    Ok(())
}

/// `undef`: the macro with the first word after the directive's is removed, if it is there.
pub fn undef<B: RootBank>(
    definitions: &mut Definitions,
    directive: &PlacedDirective<'_>,
    progress: &mut Progress<B>,
) -> Result<(), AllocError>
    ensures { OnOk result ((bank : RootKey → Option RootAnswer) → arrived definitions.new progress.new
        ≡ arrival bank
        (undef directive.now.place directive.now.word.now definitions.old
        directive.now.operands) progress.old) }
{
    match first_word(&directive.operands) {
        Some(word) => {
            definitions.remove(word)?;
            Ok(())
        }
        None => malformed(directive, progress),
    }
}

/// `ifdef`: whether the macro with the first word after the directive's is there. Where there is no
/// word, that is a fault.
pub fn ifdef<B: RootBank>(
    macros: &Macros<'_, B>,
    directive: &PlacedDirective<'_>,
    progress: &mut Progress<B>,
) -> Result<bool, AllocError>
    ensures { IfOk result (λ taken. arrived taken progress.new
        ≡ arrival (B.at macros.now.bank.now)
        (ifdef directive.now.place directive.now.word.now macros.now.definitions.now
        directive.now.operands) progress.old) }
{
    match is_macro_there(macros, directive, progress)? {
        Some(is_there) => Ok(is_there),
        None => Ok(false),
    }
}

/// `ifndef`: whether the macro with the first word after the directive's isn't there. Where there
/// is no word, that is a fault.
pub fn ifndef<B: RootBank>(
    macros: &Macros<'_, B>,
    directive: &PlacedDirective<'_>,
    progress: &mut Progress<B>,
) -> Result<bool, AllocError>
    ensures { IfOk result (λ taken. arrived taken progress.new
        ≡ arrival (B.at macros.now.bank.now)
        (ifndef directive.now.place directive.now.word.now macros.now.definitions.now
        directive.now.operands) progress.old) }
{
    match is_macro_there(macros, directive, progress)? {
        Some(is_there) => Ok(!is_there),
        None => Ok(false),
    }
}

// Whether the macro named by the operands is there, where they name one.
fn is_macro_there<B: RootBank>(
    macros: &Macros<'_, B>,
    directive: &PlacedDirective<'_>,
    progress: &mut Progress<B>,
) -> Result<Option<bool>, AllocError>
    ensures { IfOk result (λ there. arrived there progress.new
        ≡ arrival (B.at macros.now.bank.now)
        (is_macro_there directive.now.place directive.now.word.now macros.now.definitions.now
        directive.now.operands) progress.old) }
{
    match first_word(&directive.operands) {
        Some(word) => {
            let body = macros.definitions.macro_of(word, macros.bank, progress)?;
            Ok(Some(body.is_some()))
        }
        None => {
            malformed(directive, progress)?;
            Ok(None)
        }
    }
}

// The directive names no macro, or gives one parameters.
fn malformed<B: RootBank>(
    directive: &PlacedDirective<'_>,
    progress: &mut Progress<B>,
) -> Result<(), AllocError>
    ensures { OnOk result (progress.new
        ≡ after_item rules
        (Kept (Fault directive.now.place MalformedMacro (Some directive.now.word.now)))
        progress.old) }
{
    let text = directive.word.clone()?;
    let place = directive.place.clone()?;
    progress.tell(Item::Kept(Event::Fault(place, Code::MalformedMacro, Some(text))))
}

// A macro with this word is there with other tokens.
fn other_definition<B: RootBank>(
    directive: &PlacedDirective<'_>,
    word: &Bytes,
    progress: &mut Progress<B>,
) -> Result<(), AllocError>
    ensures { OnOk result (progress.new
        ≡ after_item rules
        (Kept (Fault directive.now.place OtherDefinition (Some word.now))) progress.old) }
{
    let text = word.clone()?;
    let place = directive.place.clone()?;
    progress.tell(Item::Kept(Event::Fault(place, Code::OtherDefinition, Some(text))))
}

// The word at which the operands begin, if they do.
fn first_word<'a>(operands: &FileTokens<'a>) -> Option<&'a Bytes>
    ensures { option_copied result ≡ first_word operands.now }
{
    let (first, _rest) = operands.split_first()?;
    if !first.token().is_word() {
        return None;
    }
    Some(first.token().spelling())
}

// The word and the body of a well-formed definition.
fn definition_in<'a>(operands: &FileTokens<'a>) -> Option<(&'a Bytes, FileTokens<'a>)>
    ensures { option_map (λ d. (d.0.now, tokens_in d.1)) result ≡ definition_in operands.now }
{
    let (first, body) = operands.split_first()?;
    if !is_macro_word(first.token().as_bytes()) {
        return None;
    }
    match body.split_first() {
        Some((next, _rest)) if opens_parameters(&next) => None,
        _ => Some((first.token().spelling(), body)),
    }
}

// Whether the token is a `(` that a word ends before, so that a list of parameters would begin.
fn opens_parameters(token: &FileToken<'_>) -> bool
    ensures { result ≡ opens_parameters token.now }
{
    token.follows_word() && token.token().as_bytes() == b"(".as_slice()
}

// Whether there is a macro with other tokens.
fn differs(old: Option<&[Token]>, body: &[Token]) -> bool
    ensures { result
        ≡ differs (option_copied old.entry) body.now }
{
    match old {
        Some(old) => !are_same(old, body),
        None => false,
    }
}

// Whether two bodies have the same tokens, one after another.
fn are_same(body: &[Token], other: &[Token]) -> bool
    ensures { result ≡ same_tokens body.now other.now }
{
    if body.len() != other.len() {
        return false;
    }
    'tokens: for (i, token) in body.iter().enumerate() {
        if *token != other[i] {
            return false;
        }
    }
    true
}
