//! The condition of a line behind `if` or `elif`.

ghost use Rattle.std.specs.Prelude.{◌≡◌, List, Option, Some, IfOk, OnOk, drop, map, not};
ghost use Rattle.std.specs.Option.{option_map};
ghost use Rattle.idl_memo.specs.Progress.{after_item};
ghost use Rattle.idl_macro.specs.conditions.Arithmetic.{is_zero};
ghost use Rattle.idl_event.specs.Expanding.{arrival, arrived};
ghost use Rattle.idl_event.specs.Items.{rules};
ghost use Rattle.idl_fault.specs.declared.code.Code.TheVariants.{BadCondition};
ghost use Rattle.idl_event.specs.declared.told.event.Event.TheVariants.{Fault};
ghost use Rattle.idl_event.specs.declared.told.event.Item.TheVariants.{Kept};
ghost use Rattle.idl_lex.specs.tokens.Tokens.{Token, tokens_in};
ghost use Rattle.idl_macro.specs.Condition.{condition, defined_at, defined_read, truth, value};

use crate::conditions::{ConditionSymbol, evaluate};
use crate::definitions::Macros;
use crate::directive::PlacedDirective;
use crate::replacement::replace_operand;
use idl_base::Bytes;
use idl_event::{Event, Item, Progress, RootBank};
use idl_fault::Code;
use idl_lex::Token;
use std::alloc::{AllocError, Global};

/// `if` and `elif`: whether the condition of the tokens after the directive's word holds.
///
/// Each `defined X` and `defined ( X )` is read first, then macros are replaced, and then the
/// condition has a value, or it is faulty, which is a fault, and doesn't hold. Where an item was
/// past the limits, nothing is said of the answer.
pub fn condition<B: RootBank>(
    macros: &Macros<'_, B>,
    directive: &PlacedDirective<'_>,
    progress: &mut Progress<B>,
) -> Result<bool, AllocError>
    ensures { IfOk result (λ taken. arrived taken progress.new
        ≡ arrival (B.at macros.now.bank.now)
        (condition directive.now.place directive.now.word.now macros.now.definitions.now
        directive.now.operands) progress.old) }
{
    let read = read_defined(macros, directive.operands.as_slice(), progress)?;
    let given = replace_operand(macros, &directive.place, &read, progress)?;
    match value(progress.allocator(), &given)? {
        Some(value) => Ok(holds(value)),
        None => {
            bad_condition(directive, progress)?;
            Ok(false)
        }
    }
}

// The tokens, in which each `defined X` is one token, `1` or `0`.
fn read_defined<B: RootBank>(
    macros: &Macros<'_, B>,
    operands: &[Token],
    progress: &mut Progress<B>,
) -> Result<Vec<Token>, AllocError>
    ensures { IfOk result (λ read. arrived read.items progress.new
        ≡ arrival (B.at macros.now.bank.now)
        (defined_read macros.now.definitions.now operands.now) progress.old) }
{
    let alloc = progress.allocator();
    let mut read = Vec::new(alloc);
    let mut left = operands;
    'tokens: while let Some((token, rest)) = left.split_first() {
        match defined_at(token, rest) {
            Some((word, after)) => {
                let body = macros.definitions.macro_of(word, macros.bank, progress)?;
                read.push(truth_at(alloc, body.is_some())?)?;
                left = after;
            }
            None => {
                read.push(token.clone()?)?;
                left = rest;
            }
        }
    }
    Ok(read)
}

// The name that is asked for where a token and the rest of the tokens are a `defined X`, and what
// follows it.
fn defined_at<'a>(first: &Token, rest: &'a [Token]) -> Option<(&'a Bytes, &'a [Token])>
    ensures { option_map (λ d. (d.0.now, d.1.now)) result
        ≡ option_map {U = Token × List Token} (λ d. (d.0, drop d.1 rest.entry.now))
        (defined_at first.now rest.entry.now) }
{
    if first.as_bytes() != b"defined".as_slice() {
        return None;
    }
    match rest {
        [name, after @ ..] if name.is_word() => Some((name.spelling(), after)),
        [open, name, close, after @ ..]
            if open.as_bytes() == b"(".as_slice()
                && name.is_word()
                && close.as_bytes() == b")".as_slice() => { Some((name.spelling(), after)) }
        _ => None,
    }
}

// The token `1` or `0` in the place of a `defined`.
fn truth_at(alloc: Global, is_there: bool) -> Result<Token, AllocError>
    ensures { IfOk result (λ token. token ≡ truth is_there) }
{
    let digit = if is_there { b"1" } else { b"0" };
    Ok(Token::new(Bytes::from_slice(alloc, digit)?))
}

// The value of the tokens of a condition, if it has one.
fn value(alloc: Global, tokens: &[Token]) -> Result<Option<i64>, AllocError>
    ensures { IfOk result (λ found. found ≡ value tokens.now) }
{
    let mut symbols = Vec::new(alloc);
    'tokens: for token in tokens {
        symbols.push(ConditionSymbol::from_spelling(token.as_bytes()))?;
    }
    evaluate(alloc, &symbols)
}

// A condition with this value holds unless it is zero.
fn holds(value: i64) -> bool
    ensures { result ≡ not (is_zero value) }
{
    value != 0
}

// The condition has no value.
fn bad_condition<B: RootBank>(
    directive: &PlacedDirective<'_>,
    progress: &mut Progress<B>,
) -> Result<(), AllocError>
    ensures { OnOk result (progress.new
        ≡ after_item rules
        (Kept (Fault directive.now.place BadCondition (Some directive.now.word.now)))
        progress.old) }
{
    let text = directive.word.clone()?;
    let place = directive.place.clone()?;
    progress.tell(Item::Kept(Event::Fault(place, Code::BadCondition, Some(text))))
}
