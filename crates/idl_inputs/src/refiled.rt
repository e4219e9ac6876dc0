//! A session's bank as it would be with edited files.

ghost use Rattle.std.specs.Prelude.{◌≡◌, IfOk, OnOk};
ghost use Rattle.idl_event.specs.declared.asked.key.RootKey.TheVariants as keys;
ghost use Rattle.idl_inputs.specs.Bank.{bank_of};
ghost use Rattle.idl_inputs.specs.Refiled.{AreCauses, IsPushedIf, refiled};

use crate::bank::SessionBank;
use crate::edited_files::EditedFiles;
use crate::no_step::Stepless;
use idl_event::{RootAnswer, RootKey};
use idl_fault::FileName;
use idl_memo::{Bank, Edited, PlainBank};
use std::alloc::{AllocError, Global};

/// A session's bank with the answers of edited files in place of its own.
#[derive(Clone, Copy)]
pub struct Refiled<'a> {
    pub base: &'a SessionBank,
    pub edited: &'a EditedFiles,
}

impl<'a> Bank for Refiled<'a> {
    ghost use Rattle.idl_inputs.specs.Bank.{bank_of};
    ghost use Rattle.idl_inputs.specs.Refiled.{refiled};

    type Key = RootKey;

    type Answer = RootAnswer;

    type Head = ();

    type Step = Stepless;

    ghost at = { λ bank. refiled (bank_of bank.base.now) bank.edited.now.answers.entries };

    #[inline]
    #[tactic(auto, unfolding(crate::specs::Refiled::refiled))]
    fn answer(&self, key: &RootKey) -> Option<&RootAnswer> {
        match key {
            RootKey::File(name) => match self.edited.answer(name) {
                Some(answer) => answer,
                None => self.base.answer(key),
            },
            RootKey::Macro(_) | RootKey::Search => self.base.answer(key),
        }
    }
}

impl<'a> PlainBank for Refiled<'a> {
    ghost use Rattle.std.specs.Prelude.{refl};

    ghost plain = { λ head step. refl };
}

impl<'a> Refiled<'a> {
    /// The keys with other answers than the session's: each edited file is compared once.
    pub fn causes(&self, alloc: Global) -> Result<Vec<RootKey>, AllocError>
        ensures { let before = bank_of self.now.base.now in
            let after = refiled before self.now.edited.now.answers.entries in
            IfOk result (λ causes. AreCauses before after causes.items) }
    {
        let mut causes = Vec::new(alloc);
        for name in self.edited.answers.keys() {
            self.push_cause(name, &mut causes)?;
        }
        Ok(causes)
    }

    // Puts in the key of this file, if its answer is another one.
    fn push_cause(&self, name: &FileName, causes: &mut Vec<RootKey>) -> Result<(), AllocError>
        ensures { let before = bank_of self.now.base.now in
            let after = refiled before self.now.edited.now.answers.entries in
            OnOk result
            (IsPushedIf before after (keys.File name.now) causes.old.items causes.new.items) }
    {
        let key = RootKey::File(name.clone()?);
        let edited = Edited {
            base: self.base,
            key: &key,
            answer: self.answer(&key),
        };
        if edited.cause().is_none() {
            return Ok(());
        }
        causes.push(key)?;
        Ok(())
    }
}
