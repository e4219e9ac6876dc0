//! A root while it is expanded.

ghost use Rattle.std.specs.Prelude.{◌≡◌, ◌↔◌, None, Some, Option, IsTrue, IfOk, OnOk};
ghost use Rattle.std.specs.List.{list_any};
ghost use Rattle.std.specs.Str.{bytes_eq};
ghost use Rattle.indexmap.specs.IndexSet.{insert_key};
ghost use Rattle.std.specs.Option.{option_copied};
ghost use Rattle.idl_memo.specs.Progress.{after_key};
ghost use Rattle.idl_event.specs.Key.{key_eq};
ghost use Rattle.idl_event.specs.Items.{beginning};
ghost use Rattle.idl_event.specs.Expanding.{reached, arrival, arrived};
ghost use Rattle.idl_macro.specs.Replace.{text};
ghost use Rattle.idl_event.specs.declared.told.event.Event.TheVariants.{Fault};
ghost use Rattle.idl_event.specs.declared.asked.key.RootKey.TheVariants.{File};
ghost use Rattle.idl_event.specs.declared.told.event.Item.TheVariants.{Kept, Turn};
ghost use Rattle.idl_prep.specs.Place.{place_in};
ghost use Rattle.idl_prep.specs.State.{ended, nothing_said, onward, telling};
ghost use Rattle.idl_prep.specs.Include.{file_in, file_of, operand_of};
ghost use Rattle.idl_prep.specs.Directive.{redefined, test};
ghost use Rattle.idl_memo.specs.Query.{and_then};
ghost use Rattle.idl_macro.specs.Directives.{define, undef};

use crate::directives::find::{FoundFile, file_named, find};
use crate::directives::line::DirectiveLine;
use crate::directives::operand::IncludeOperand;
use crate::directives::replaced_operand::operand_of;
use crate::walk::walked_file::WalkedFile;
use idl_base::Bytes;
use idl_event::{
    Event, ExpansionBuilder, Item, LexedFile, Progress, RootAnswer, RootBank, RootKey,
};
use idl_fault::{Code, FileName, Place};
use idl_macro::{
    Definitions, Macros, condition, define, ifdef, ifndef, replace_text, replace_tokens, undef,
};
use idl_memo::Log;
use idl_text::{FileTokens, Test, TextLines};
use indexmap::IndexSet;
use std::alloc::{AllocError, Global};
use std::marker::Model;

/// What a root has said so far of macros and of files that are not to be entered again, and how far it has come.
///
/// After want of memory nothing is said of it.
pub struct Root<B: RootBank> {
    definitions: Definitions,
    once: IndexSet<FileName>,
    progress: Progress<B>,
}

impl<B: RootBank> Drop for Root<B> {
    fn drop(self) {
        let Root {
            definitions: _definitions,
            once: _once,
            progress: _progress,
        } = self;
    }
}

impl<B: RootBank> Model for Root<B> {
    ghost use Rattle.idl_prep.specs.State.{Way};

    ghost Value = { Way };

    ghost view = { λ root. record {
      state = record { definitions = root.definitions; once = root.once.keys };
      progress = root.progress;
    } };
}

impl<B: RootBank> Root<B> {
    /// Nothing was said, and nothing is told; what is asked goes behind the entries of the log. It takes no memory.
    pub fn new(alloc: Global, log: Log<B>) -> Root<B>
        ensures { result ≡ record { state = nothing_said; progress = beginning log } }
    {
        Root {
            definitions: Definitions::new(alloc),
            once: IndexSet::new(alloc),
            progress: Progress::new(alloc, log),
        }
    }

    /// The events, and the log.
    pub fn into_parts(self) -> (ExpansionBuilder, Log<B>)
        ensures events { result.0 ≡ self.progress.kept }
        ensures log { result.1 ≡ self.progress.log }
    {
        let Root {
            definitions: _definitions,
            once: _once,
            progress,
        } = self;
        progress.into_parts()
    }

    /// Whether a limit was passed, so that nothing changes any more.
    pub fn is_over(&self) -> bool
        ensures { IsTrue result ↔ (self.now.progress.left ≡ None) }
    {
        self.progress.is_over()
    }

    /// Where its memory comes from.
    pub fn allocator(&self) -> Global {
        self.progress.allocator()
    }

    /// One item more.
    pub fn tell(&mut self, item: Item) -> Result<(), AllocError>
        ensures { OnOk result (self.new ≡ telling item self.old) }
    {
        self.progress.tell(item)
    }

    /// The file with this name, which is asked of the bank.
    pub fn file_named<'b>(
        &mut self,
        name: &FileName,
        bank: &'b B,
    ) -> Result<Option<&'b LexedFile>, AllocError>
        ensures file { let answer = B.at bank.now (File name.now) in
            IfOk result (λ file. option_copied file ≡ file_in answer) }
        ensures way { let key = File name.now in
            let reached = after_key key_eq (B.at bank.now) key self.old.progress in
            OnOk result (self.new ≡ record self.old { progress = reached }) }
    {
        file_named(name, bank, &mut self.progress)
    }

    /// A directive that isn't skipped is a turn.
    pub fn turn(&mut self, file: &FileName, directive: &DirectiveLine<'_>) -> Result<(), AllocError>
        ensures { let place = place_in file.now directive.now in
            OnOk result (self.new ≡ telling (Turn place) self.old) }
    {
        self.tell(Item::Turn(directive.place(file)?))
    }

    /// A fault, with the spelling at which it is decided.
    pub fn fault(&mut self, place: Place, code: Code, text: &Bytes) -> Result<(), AllocError>
        ensures { let fault = Fault place code (Some text.now) in
            OnOk result (self.new ≡ telling (Kept fault) self.old) }
    {
        self.tell(Item::Kept(Event::Fault(place, code, Some(text.clone()?))))
    }

    /// A fault that is decided at a directive's word.
    pub fn fault_at(
        &mut self,
        file: &FileName,
        directive: &DirectiveLine<'_>,
        code: Code,
    ) -> Result<(), AllocError>
        ensures { let word = directive.now.word.token in
            let fault = Fault (place_in file.now directive.now) code (Some word) in
            OnOk result (self.new ≡ telling (Kept fault) self.old) }
    {
        self.fault(directive.place(file)?, code, directive.word())
    }

    /// The tokens of a text, in which macros are replaced.
    pub fn emit_text(
        &mut self,
        site: &WalkedFile<'_, B>,
        lines: &TextLines<'_>,
    ) -> Result<(), AllocError>
        ensures { let query = text site.now.file.now self.old.state.definitions lines.now in
            let reached = reached (B.at site.now.bank.now) query self.old.progress in
            OnOk result (self.new ≡ record self.old { progress = reached }) }
    {
        let definitions = &self.definitions;
        let bank = site.bank;
        let macros = Macros { definitions, bank };
        replace_text(&macros, site.file, lines, &mut self.progress)
    }

    /// The same with the tokens of one line.
    pub fn emit(
        &mut self,
        site: &WalkedFile<'_, B>,
        tokens: &FileTokens<'_>,
    ) -> Result<(), AllocError>
        ensures { let query = text site.now.file.now self.old.state.definitions tokens.now in
            let reached = reached (B.at site.now.bank.now) query self.old.progress in
            OnOk result (self.new ≡ record self.old { progress = reached }) }
    {
        let definitions = &self.definitions;
        let bank = site.bank;
        let macros = Macros { definitions, bank };
        replace_tokens(&macros, site.file, tokens, &mut self.progress)
    }

    /// The tokens of a text, where nothing is logged of those that stand for themselves: their macros are asked for with a progress
    /// that is past its limits.
    pub fn emit_unlogged(
        &mut self,
        site: &WalkedFile<'_, B>,
        lines: &TextLines<'_>,
        asking: &mut Progress<B>,
    ) -> Result<(), AllocError> {
        let has_room = lines.len() <= self.progress.tokens_left();
        if has_room && self.is_plain(site, lines, asking)? {
            return self.progress.emit_lines(site.file, lines);
        }
        self.emit_text(site, lines)
    }

    // Whether these tokens stand for themselves.
    fn is_plain(
        &self,
        site: &WalkedFile<'_, B>,
        lines: &TextLines<'_>,
        asking: &mut Progress<B>,
    ) -> Result<bool, AllocError> {
        'words: for word in lines.words() {
            let body = self
                .definitions
                .macro_of(word.spelling(), site.bank, asking)?;
            if body.is_some() {
                return Ok(false);
            }
        }
        Ok(true)
    }

    /// Whether the first lines of a group are taken that a directive opens.
    pub fn test(
        &mut self,
        site: &WalkedFile<'_, B>,
        directive: &DirectiveLine<'_>,
        what: Test,
    ) -> Result<bool, AllocError>
        ensures arrival { let query = test site.now.file.now directive.now what self.old.state in
            IfOk result (λ taken. arrived taken self.new.progress
            ≡ arrival (B.at site.now.bank.now) query self.old.progress) }
        ensures state { self.new.state ≡ self.old.state }
    {
        let stated = directive.stated(site.file)?;
        let definitions = &self.definitions;
        let bank = site.bank;
        let macros = Macros { definitions, bank };
        let progress = &mut self.progress;
        match what {
            Test::If => condition(&macros, &stated, progress),
            Test::Ifdef => ifdef(&macros, &stated, progress),
            Test::Ifndef => ifndef(&macros, &stated, progress),
        }
    }

    /// The operand of an `include`.
    pub fn operand_of(
        &mut self,
        site: &WalkedFile<'_, B>,
        directive: &DirectiveLine<'_>,
    ) -> Result<Option<IncludeOperand>, AllocError>
        ensures arrival { let place = place_in site.now.file.now directive.now in
            let query = operand_of place self.old.state.definitions directive.now.operands in
            IfOk result (λ operand. arrived operand self.new.progress
            ≡ arrival (B.at site.now.bank.now) query self.old.progress) }
        ensures state { self.new.state ≡ self.old.state }
    {
        let place = directive.place(site.file)?;
        let definitions = &self.definitions;
        let bank = site.bank;
        let macros = Macros { definitions, bank };
        operand_of(&macros, &place, directive.operands(), &mut self.progress)
    }

    /// The file that an operand finds.
    pub fn find<'b>(
        &mut self,
        site: &WalkedFile<'b, B>,
        operand: &IncludeOperand,
    ) -> Result<Option<FoundFile<'b>>, AllocError>
        ensures arrival { let query = file_of site.now.file.now operand.now in
            IfOk result (λ found. arrived found self.new.progress
            ≡ arrival (B.at site.now.bank.now) query self.old.progress) }
        ensures state { self.new.state ≡ self.old.state }
    {
        find(site.file, operand, site.bank, &mut self.progress)
    }

    /// `define`.
    pub fn define(
        &mut self,
        site: &WalkedFile<'_, B>,
        directive: &DirectiveLine<'_>,
    ) -> Result<(), AllocError>
        ensures { let d = directive.now in let place = place_in site.now.file.now d in
            OnOk result (ended self.new ≡ onward (B.at site.now.bank.now)
            (λ s. and_then (define place d.word.token s.definitions d.operands) (redefined s))
            self.old) }
    {
        let stated = directive.stated(site.file)?;
        define(
            &mut self.definitions,
            &stated,
            site.bank,
            &mut self.progress,
        )
    }

    /// `undef`.
    pub fn undef(
        &mut self,
        file: &FileName,
        directive: &DirectiveLine<'_>,
    ) -> Result<(), AllocError>
        ensures { let d = directive.now in let place = place_in file.now d in
            OnOk result ((bank : RootKey → Option RootAnswer) → ended self.new ≡ onward bank
            (λ s. and_then (undef place d.word.token s.definitions d.operands) (redefined s))
            self.old) }
    {
        let stated = directive.stated(file)?;
        undef(&mut self.definitions, &stated, &mut self.progress)
    }

    /// The file isn't to be entered again.
    pub fn mark_once(&mut self, file: &FileName) -> Result<(), AllocError>
        ensures { let once = insert_key bytes_eq self.old.state.once file.now in
            let state = record self.old.state { once = once } in
            OnOk result (self.new ≡ record self.old { state = state }) }
    {
        self.once.insert(file.clone()?)?;
        Ok(())
    }

    /// Whether the file isn't to be entered again.
    pub fn is_once(&self, file: &FileName) -> bool
        ensures { result ≡ list_any (bytes_eq file.now) self.now.state.once }
    {
        self.once.contains(file)
    }
}
