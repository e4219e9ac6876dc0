//! `pragma`.

ghost use Rattle.std.specs.Prelude.{◌≡◌, Option, OnOk, codes};
ghost use Rattle.std.specs.Option.{option_copied};
ghost use Rattle.std.specs.Str.{bytes_eq};
ghost use Rattle.idl_prep.specs.Directive.{first_spelling, is_of_idl, pragma};
ghost use Rattle.idl_prep.specs.State.{ended, onward};

use crate::directives::line::DirectiveLine;
use crate::walk::root::Root;
use idl_base::Bytes;
use idl_event::{Event, Item, RootAnswer, RootBank, RootKey};
use idl_fault::FileName;
use idl_text::FileTokens;
use std::alloc::AllocError;

/// `pragma`: `once` says that the file isn't to be entered again, and those that mean something to IDL are told.
pub fn pragma<B: RootBank>(
    root: &mut Root<B>,
    file: &FileName,
    directive: &DirectiveLine<'_>,
) -> Result<(), AllocError>
    ensures { OnOk result ((bank : RootKey → Option RootAnswer)
        → ended root.new ≡ onward bank (λ s. pragma file.now directive.now s) root.old) }
{
    let Some(word) = first_spelling(directive.operands()) else {
        return Ok(());
    };
    let word = word.as_bytes();
    if is_once(word) {
        return root.mark_once(file);
    }
    if is_of_idl(word) {
        let tokens = directive.tokens().shared()?;
        return root.tell(Item::Kept(Event::Pragma(directive.word_place(file)?, tokens)));
    }
    Ok(())
}

// How the first of the tokens is spelled.
fn first_spelling<'t>(tokens: &FileTokens<'t>) -> Option<&'t Bytes>
    ensures { option_copied result ≡ first_spelling tokens.now }
{
    let (first, _rest) = tokens.split_first()?;
    Some(first.token().spelling())
}

// Whether it says that the file isn't to be entered again.
fn is_once(word: &[u8]) -> bool
    ensures { result ≡ bytes_eq word.now (codes "once") }
{
    word == b"once".as_slice()
}

// Whether it is one of the three pragmas that mean something to IDL.
fn is_of_idl(word: &[u8]) -> bool
    ensures { result ≡ is_of_idl word.now }
{
    word == b"prefix".as_slice() || word == b"ID".as_slice() || word == b"version".as_slice()
}
