//! A log in which keys that are asked again are found soon.

ghost use Rattle.std.specs.Prelude.{◌≡◌, IfOk, IfSome, OnOk, true};
ghost use Rattle.std.specs.Option.{option_copied};
ghost use Rattle.idl_event.specs.Key.{key_eq};
ghost use Rattle.idl_event.specs.declared.asked.key.RootKey.TheVariants.{Macro};
ghost use Rattle.idl_memo.specs.Query.{is_logged, noted};

use crate::asked::key::{RootAnswer, RootKey};
use crate::asked::root_bank::RootBank;
use idl_base::Bytes;
use idl_memo::{Bank, Log};
use idl_text::Hints;
use std::alloc::{AllocError, Global};
use std::marker::Model;

/// What a root asked, and where in it keys may stand. To every contract it is the log.
pub struct HintedLog<B: RootBank> {
    log: Log<B>,
    hints: Hints,
}

impl<B: RootBank> Model for HintedLog<B> {
    ghost use Rattle.std.specs.Prelude.{List, Option};
    ghost use Rattle.idl_event.specs.declared.asked.key.RootKey.{RootKey};
    ghost use Rattle.idl_event.specs.declared.asked.key.RootAnswer.{RootAnswer};

    ghost Value = { List (RootKey × Option RootAnswer) };

    ghost view = { λ hinted. hinted.log };
}

impl<B: RootBank> Drop for HintedLog<B> {
    fn drop(self) {
        let HintedLog {
            log: _log,
            hints: _hints,
        } = self;
    }
}

impl<B: RootBank> HintedLog<B> {
    /// A log, of whose keys nothing is noted yet. It takes no memory.
    pub fn new(alloc: Global, log: Log<B>) -> HintedLog<B>
        ensures { result ≡ log }
    {
        HintedLog {
            log,
            hints: Hints::new(alloc),
        }
    }

    /// The log.
    pub fn into_log(self) -> Log<B>
        ensures { result ≡ self }
    {
        let HintedLog { log, hints: _hints } = self;
        log
    }

    /// The bank's answer at a key, which is logged with the key unless the key was asked before.
    ///
    /// After want of memory nothing is said of the log.
    pub fn ask<'b>(
        &mut self,
        key: &RootKey,
        bank: &'b B,
    ) -> Result<Option<&'b RootAnswer>, AllocError>
        ensures answer { IfOk result (λ answer. option_copied answer ≡ B.at bank.now key.now) }
        ensures logged { OnOk result (self.new ≡ noted key_eq (B.at bank.now) self.old key.now) }
    {
        self.log.ask(key, bank)
    }

    /// The same at the key of a macro's word, for who has a digest of the word at hand. The word is found soon where it always
    /// comes with the same: then no key is made. With another one the answer is no other.
    pub fn ask_word<'b>(
        &mut self,
        word: &Bytes,
        digest: u64,
        bank: &'b B,
    ) -> Result<Option<&'b RootAnswer>, AllocError>
        ensures answer { IfOk result (λ answer. option_copied answer ≡ B.at bank.now (Macro word.now)) }
        ensures logged { OnOk result
            (self.new ≡ noted key_eq (B.at bank.now) self.old (Macro word.now)) }
    {
        let places = self.hints.places_of(digest);
        if let Some(key) = word_at(&self.log, places.first, word) {
            return Ok(bank.answer(key));
        }
        self.ask_further(word, digest, bank)
    }

    // The same where the word doesn't stand at the first place that is noted for its digest, as most words do.
    #[inline(never)]
    fn ask_further<'b>(
        &mut self,
        word: &Bytes,
        digest: u64,
        bank: &'b B,
    ) -> Result<Option<&'b RootAnswer>, AllocError>
        ensures answer { IfOk result (λ answer. option_copied answer ≡ B.at bank.now (Macro word.now)) }
        ensures logged { OnOk result
            (self.new ≡ noted key_eq (B.at bank.now) self.old (Macro word.now)) }
    {
        let places = self.hints.places_of(digest);
        if let Some(key) = word_at(&self.log, places.last, word) {
            return Ok(bank.answer(key));
        }
        let place = self.log.len();
        let answer = self.log.ask(&RootKey::Macro(word.clone()?), bank)?;
        if place < self.log.len() {
            self.hints.note(digest, place)?;
        }
        Ok(answer)
    }
}

// The key at a place of a log, if it is that of a word.
#[inline(always)]
fn word_at<'a, B: RootBank>(log: &'a Log<B>, place: u32, word: &Bytes) -> Option<&'a RootKey>
    ensures { IfSome result (λ key. (key.now ≡ Macro word.now)
        × (is_logged key_eq log.now (Macro word.now) ≡ true)) }
{
    let (key, _answer) = log.get(place as usize)?;
    match key {
        RootKey::Macro(logged) if logged == word => Some(key),
        _ => None,
    }
}
