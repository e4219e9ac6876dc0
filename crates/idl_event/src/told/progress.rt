//! How far the expansion of a root has come.

ghost use Rattle.std.specs.Prelude.{◌≡◌, ◌↔◌, ◌++◌, ◌<◌, ◌≤◌, [], None, Some, IfOk, OnOk, IsTrue, length};
ghost use Rattle.std.specs.Option.{option_copied, option_to_list};
ghost use Rattle.idl_memo.specs.Progress.{after_item, after_key};
ghost use Rattle.idl_event.specs.Items.{event_of, rules, tokens_left, turns_left, beginning};
ghost use Rattle.idl_event.specs.Expanding.{after_text};
ghost use Rattle.idl_event.specs.Key.{key_eq};
ghost use Rattle.idl_event.specs.Limits.{turns_at_most};
ghost use Rattle.idl_event.specs.declared.told.event.Event.TheVariants.{Emitted};
ghost use Rattle.idl_event.specs.declared.told.event.Item.TheVariants.{Kept};
ghost use Rattle.idl_event.specs.declared.asked.key.RootKey.TheVariants.{Macro};

use crate::asked::hinted_log::HintedLog;
use crate::asked::key::{RootAnswer, RootKey};
use crate::asked::root_bank::RootBank;
use crate::told::allowance::Allowance;
use crate::told::builder::ExpansionBuilder;
use crate::told::event::{Event, Item};
use idl_base::Bytes;
use idl_fault::{Code, FileName, Place};
use idl_lex::Token;
use idl_memo::{Bank, Log};
use idl_text::{FileTokens, TextLines};
use std::alloc::{AllocError, Global};
use std::marker::Model;

/// The events of a root so far, what is left of its limits, and what was asked of the bank.
///
/// Once an item is past the limits, a fault stands in its place, nothing more is told, and nothing more is logged. After want
/// of memory nothing is said of it.
pub struct Progress<B: RootBank> {
    kept: ExpansionBuilder,
    left: Option<Allowance>,
    log: HintedLog<B>,
}

impl<B: RootBank> Model for Progress<B> {
    ghost use Rattle.std.specs.Prelude.{Option, ◌≤◌};
    ghost use Rattle.idl_memo.specs.Progress.{Progress as Reached};
    ghost use Rattle.idl_event.specs.declared.told.allowance.Allowance.{Allowance};
    ghost use Rattle.idl_event.specs.Limits.{turns_at_most};
    ghost use Rattle.idl_event.specs.declared.told.event.Event.{Event};
    ghost use Rattle.idl_event.specs.declared.asked.key.RootKey.{RootKey};
    ghost use Rattle.idl_event.specs.declared.asked.key.RootAnswer.{RootAnswer};
    ghost use Rattle.idl_event.specs.Items.{turns_left};

    ghost Value = { Reached RootKey (Option RootAnswer) Event Allowance };

    ghost view = { λ p. record { kept = p.kept; left = p.left; log = p.log } };

    ghost invariant = { λ p. turns_left p.left ≤ turns_at_most };
}

impl<B: RootBank> Drop for Progress<B> {
    fn drop(self) {
        let Progress {
            kept: _kept,
            left: _left,
            log: _log,
        } = self;
    }
}

impl<B: RootBank> Progress<B> {
    /// Nothing is told, and nothing of the limits is spent; what is asked goes behind the entries of the log. It takes no
    /// memory.
    pub fn new(alloc: Global, log: Log<B>) -> Progress<B>
        ensures { result ≡ beginning log }
    {
        Progress {
            kept: ExpansionBuilder::new(alloc),
            left: Some(Allowance::new()),
            log: HintedLog::new(alloc, log),
        }
    }

    /// The events, and the log.
    pub fn into_parts(self) -> (ExpansionBuilder, Log<B>)
        ensures events { result.0 ≡ self.kept }
        ensures log { result.1 ≡ self.log }
    {
        let Progress {
            kept,
            left: _left,
            log,
        } = self;
        (kept, log.into_log())
    }

    /// Where its memory comes from.
    pub fn allocator(&self) -> Global {
        self.kept.allocator()
    }

    /// Whether an item was past the limits.
    pub fn is_over(&self) -> bool
        ensures over { IsTrue result ↔ (self.now.left ≡ None) }
        ensures turns { turns_left self.now.left ≤ turns_at_most }
    {
        self.left.is_none()
    }

    /// One item more.
    pub fn tell(&mut self, item: Item) -> Result<(), AllocError>
        ensures { OnOk result (self.new ≡ after_item rules item self.old) }
    {
        let Some(left) = self.left else {
            return Ok(());
        };
        match left.after(&item) {
            Some(rest) => {
                self.left = Some(rest);
                keep(&mut self.kept, item)
            }
            None => {
                self.left = None;
                self.kept.push(item.past_limit())
            }
        }
    }

    /// A token of the text more, at its place: most items are such, and this does the same with one as `tell`, at less cost.
    pub fn emit(&mut self, place: Place, token: &Token) -> Result<(), AllocError>
        ensures { OnOk result
            (self.new ≡ after_item rules (Kept (Emitted place token.now)) self.old) }
    {
        let Some(left) = self.left else {
            return Ok(());
        };
        self.left = left.after_token();
        match self.left {
            Some(_) => self.kept.push_token(place, token),
            None => self.kept.push(Event::Fault(place, Code::PastLimit, None)),
        }
    }

    /// How many tokens the limits leave.
    pub fn tokens_left(&self) -> usize
        ensures { result ≡ tokens_left self.now.left }
    {
        match self.left {
            Some(left) => left.tokens,
            None => 0,
        }
    }

    /// Tokens of the text more, each at its line of a file, where the limits leave as many: the same as `emit` with each, at
    /// less cost.
    pub fn emit_text(&mut self, file: &FileName, tokens: &FileTokens<'_>) -> Result<(), AllocError>
        requires some { 0 < length tokens.now }
        requires room { length tokens.now ≤ tokens_left self.old.left }
        ensures { OnOk result (self.new ≡ after_text file.now tokens.now self.old) }
    {
        let Some(left) = self.left else {
            return Ok(());
        };
        self.left = Some(Allowance {
            turns: left.turns,
            tokens: left.tokens - tokens.len(),
        });
        self.kept.push_text(file, tokens)
    }

    /// All tokens of a text, where the limits leave as many: the same as `emit` with each, at less cost.
    pub fn emit_lines(&mut self, file: &FileName, text: &TextLines<'_>) -> Result<(), AllocError>
        requires { length text.now ≤ tokens_left self.old.left }
        ensures { OnOk result (self.new ≡ after_text file.now text.now self.old) }
    {
        let mut left = text.parts();
        'chunks: while let Some((part, rest)) = left.split_first() {
            self.emit_text(file, &part)?;
            left = rest;
        }
        Ok(())
    }

    /// The bank's answer at a key, which is logged.
    pub fn ask<'b>(
        &mut self,
        key: &RootKey,
        bank: &'b B,
    ) -> Result<Option<&'b RootAnswer>, AllocError>
        ensures answer { IfOk result (λ answer. option_copied answer ≡ B.at bank.now key.now) }
        ensures progress { OnOk result (self.new ≡ after_key key_eq (B.at bank.now) key.now self.old) }
    {
        if self.left.is_none() {
            return Ok(bank.answer(key));
        }
        self.log.ask(key, bank)
    }

    /// The same at the key of a macro's word, for who has a digest of the word at hand. The word is found soon where it always
    /// comes with the same, and with another one the answer is no other.
    pub fn ask_word<'b>(
        &mut self,
        word: &Bytes,
        digest: u64,
        bank: &'b B,
    ) -> Result<Option<&'b RootAnswer>, AllocError>
        ensures answer { IfOk result (λ answer. option_copied answer ≡ B.at bank.now (Macro word.now)) }
        ensures progress { OnOk result
            (self.new ≡ after_key key_eq (B.at bank.now) (Macro word.now) self.old) }
    {
        if self.left.is_none() {
            return answer_at(word, bank);
        }
        self.log.ask_word(word, digest, bank)
    }
}

// The bank's answer at the key of a macro's word.
#[inline(never)]
fn answer_at<'b, B: RootBank>(
    word: &Bytes,
    bank: &'b B,
) -> Result<Option<&'b RootAnswer>, AllocError>
    ensures { IfOk result (λ answer. option_copied answer ≡ B.at bank.now (Macro word.now)) }
{
    Ok(bank.answer(&RootKey::Macro(word.clone()?)))
}

// What is kept of an item goes behind the events.
fn keep(kept: &mut ExpansionBuilder, item: Item) -> Result<(), AllocError>
    ensures { OnOk result (kept.new ≡ kept.old ++ option_to_list (event_of item)) }
{
    if let Some(event) = item.event() {
        kept.push(event)?;
    }
    Ok(())
}
