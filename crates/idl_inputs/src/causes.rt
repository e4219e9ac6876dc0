//! The cause of an edit of one answer.

ghost use Rattle.std.specs.Option.{option_copied};
ghost use Rattle.idl_inputs.specs.Bank.{bank_of, bank_with};
ghost use Rattle.idl_inputs.specs.Refiled.{AreCauses};

use crate::bank::SessionBank;
use idl_event::RootKey;
use idl_memo::Edited;
use std::slice::from_ref;

/// The key of an edit, if its answer is another one: the only cause there is.
pub fn causes_by<'a>(edited: &Edited<'a, SessionBank>) -> &'a [RootKey]
    ensures { let before = bank_of edited.now.base.now in
        let after = bank_with edited.now.base.now edited.now.key.now
        (option_copied edited.now.answer) in
        AreCauses before after result.now }
{
    match edited.cause() {
        Some(key) => from_ref(key),
        None => &[],
    }
}
