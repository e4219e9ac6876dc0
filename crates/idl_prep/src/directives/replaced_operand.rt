//! The operand of an include, which a macro may give.

ghost use Rattle.std.specs.Prelude.{◌≡◌, IfOk};
ghost use Rattle.idl_prep.specs.Include.{operand_at, operand_of};
ghost use Rattle.idl_event.specs.Expanding.{arrival, arrived};

use crate::directives::operand::{IncludeOperand, operand_given, operand_in};
use idl_event::{Item, Progress, RootBank};
use idl_fault::Place;
use idl_lex::Token;
use idl_macro::{Macros, replace_operand};
use idl_text::FileTokens;
use std::alloc::AllocError;
use std::slice::from_ref;

/// The operand of an include at this place, of which these are the tokens after the word.
#[tactic(auto, unfolding(crate::specs::Include::operand_of))]
pub fn operand_of<B: RootBank>(
    macros: &Macros<'_, B>,
    place: &Place,
    tokens: &FileTokens<'_>,
    progress: &mut Progress<B>,
) -> Result<Option<IncludeOperand>, AllocError>
    ensures { let query = operand_of place.now macros.now.definitions.now tokens.now in
        IfOk result (λ operand. arrived operand progress.new
        ≡ arrival (B.at macros.now.bank.now) query progress.old) }
{
    match tokens.split_first() {
        Some((first, _rest)) => operand_at(macros, place, first.token(), progress),
        None => Ok(None),
    }
}

// The operand of a token: one that is an operand counts, and a word is replaced.
fn operand_at<B: RootBank>(
    macros: &Macros<'_, B>,
    place: &Place,
    token: &Token,
    progress: &mut Progress<B>,
) -> Result<Option<IncludeOperand>, AllocError>
    ensures { let query = operand_at place.now macros.now.definitions.now token.now in
        IfOk result (λ operand. arrived operand progress.new
        ≡ arrival (B.at macros.now.bank.now) query progress.old) }
{
    if let Some(operand) = operand_in(token)? {
        progress.tell(Item::Counted(place.clone()?))?;
        return Ok(Some(operand));
    }
    if !token.is_word() {
        return Ok(None);
    }
    match macros
        .definitions
        .macro_of(token.spelling(), macros.bank, progress)?
    {
        None => Ok(None),
        Some(_body) => {
            let given = replace_operand(macros, place, from_ref(token), progress)?;
            operand_given(&given)
        }
    }
}
