//! Sources: what roots are made of, and what a root compiles to.

ghost use Rattle.std.specs.Prelude.{◌≡◌, IfOk, OnOk, is_some, map};
ghost use Rattle.std.specs.FinMap as finite;
ghost use Rattle.idl_prep.specs.Root.{expanded};
ghost use Rattle.idl_root.specs.Turns.{FitsU64};
ghost use Rattle.idl_inputs.specs.Asked.{asked_over};
ghost use Rattle.idl_inputs.specs.Bank.{bank_of};
ghost use Rattle.idl_sources.specs.Compile.{compiled_root};
ghost use Rattle.idl_sources.specs.Details.{details_over};
ghost use Rattle.idl_inputs.specs.Edits.{Define, Put, Search, Undef};
ghost use Rattle.idl_inputs.specs.Made.{IsMade, rootless};
ghost use Rattle.idl_inputs.specs.Project.{no_inputs};
ghost use Rattle.idl_inputs.specs.WellFormed.{IsWellFormed};

use crate::compile::{CompiledRoot, compile_alone};
use crate::detailed::details_alone;
use idl_base::{Bytes, Seq};
use idl_event::{RootAnswer, RootKey};
use idl_inputs::expanding::asked_alone;
use idl_inputs::{Columns, EditedFiles, FileEdit, MacroBody, SessionBank, Stepless, directories};
use idl_macro::is_macro_word;
use idl_memo::{Bank, PlainBank};
use idl_root::{Details, Memory};
use idl_source::{Line, Name, Refusal};
use std::alloc::{AllocError, Global};
use std::marker::Model;

/// Files, macros and a search list, over which roots are compiled, each by itself.
///
/// Who compiles a root once, after all edits, needs no session: of a root nothing is kept here. An edit is refused as that of a
/// session is, and then nothing has changed.
pub struct Sources {
    memory: Memory,
    bank: SessionBank,
}

impl Model for Sources {
    ghost use Rattle.idl_inputs.specs.Made.{rootless};
    ghost use Rattle.idl_inputs.specs.Project.{Inputs, inputs_code};
    ghost use Rattle.idl_inputs.specs.WellFormed.{IsWellFormed};

    ghost Value = { Inputs };

    ghost coded = { inputs_code };

    ghost view = { λ sources. sources.bank };

    ghost invariant = { λ sources. IsWellFormed (rootless sources.bank) };
}

impl Drop for Sources {
    fn drop(self) {
        let Sources {
            memory: _memory,
            bank: _bank,
        } = self;
    }
}

impl Sources {
    /// No files, no macros and no directories. It takes no memory.
    pub fn new(alloc: Global) -> Sources
        ensures { result ≡ no_inputs }
    {
        Sources {
            memory: Memory::new(alloc),
            bank: SessionBank::new(alloc),
        }
    }

    /// Puts a file of these lines, in place of the one of that name if there is one.
    ///
    /// It is refused where a limit of files or lines is passed. Memory may be refused too. A refusal gives up the lines.
    pub fn put(&mut self, name: &Name, lines: Vec<Line>) -> Result<(), Refusal>
        ensures { IsMade (Put name.now lines.items) self.old self.new result }
    {
        let mut edited = EditedFiles::new(self.memory.alloc());
        if let Err(refusal) = edited.edit(&self.bank, FileEdit::Put(name.as_bytes(), lines)) {
            return Err(refusal);
        }
        self.bank.refile(edited)?;
        Ok(())
    }

    /// Defines a macro that stands before the first line of every root, in place of the one of that word if there is one.
    ///
    /// It is refused where the body has more than [`MAX_BODY`](crate::MAX_BODY) bytes, or the word is new and there are
    /// [`MAX_MACROS`](crate::MAX_MACROS) macros, and then where the word isn't one, or is `defined`. Memory may be refused
    /// too. A refusal gives up the body.
    pub fn define(&mut self, word: &[u8], body: Line) -> Result<(), Refusal>
        ensures { IsMade (Define word.now body) self.old self.new result }
    {
        let word = Bytes::from_slice(self.memory.alloc(), word)?;
        if let Some(refusal) = self.bank.refusal_of_define(&word, &body) {
            return Err(refusal);
        }
        let body = MacroBody::new(self.memory.alloc(), body)?;
        self.bank.define(word, body)?;
        Ok(())
    }

    /// Takes the macro with this word out, if there is one.
    ///
    /// It is refused where the word isn't one, or is `defined`. Memory may be refused too.
    pub fn undef(&mut self, word: &[u8]) -> Result<(), Refusal>
        ensures { IsMade (Undef word.now) self.old self.new result }
    {
        if !is_macro_word(word) {
            return Err(Refusal::BadMacro);
        }
        let word = Bytes::from_slice(self.memory.alloc(), word)?;
        self.bank.undef(&word);
        Ok(())
    }

    /// Searches included files in these directories from now on, in this order.
    ///
    /// It is refused where one of them is no directory, and then where there are more than
    /// [`MAX_DIRECTORIES`](crate::MAX_DIRECTORIES). Memory may be refused too.
    pub fn search(&mut self, list: &[&[u8]]) -> Result<(), Refusal>
        ensures { IsMade (Search (map (λ bytes. bytes.now) list.now)) self.old self.new result }
    {
        let list = directories(self.memory.alloc(), list)?;
        self.bank
            .set_search(RootAnswer::Search(Seq::from_vec(list)));
        Ok(())
    }

    /// What the root of this name compiles to. Its file may be absent.
    pub fn compile(&mut self, root: &Name) -> Result<CompiledRoot, AllocError>
        ensures compiled { IfOk result (λ compiled. compiled ≡ compiled_root self.old root.now) }
        ensures within { OnOk result (FitsU64 (expanded root.now (bank_of self.old)).0) }
        ensures same { self.new ≡ self.old }
    {
        compile_alone(&mut self.memory, &self.bank, root)
    }

    /// The files that the root of this name asks for, there or not, in the order first asked.
    pub fn asked(&self, root: &Name) -> Result<Vec<Name>, AllocError>
        ensures { IfOk result (λ names. names.items ≡ asked_over (bank_of self.now) root.now) }
    {
        asked_alone(self.memory.alloc(), &self.bank, root)
    }

    /// What the listing of the root of this name tells, as data, and of a root with an error what is declared in it.
    pub fn details(&self, root: &Name) -> Result<Details, AllocError>
        ensures { IfOk result (λ details. details ≡ details_over (bank_of self.now) root.now) }
    {
        details_alone(self.memory.alloc(), &self.bank, root)
    }

    /// Whether there is a file of this name.
    pub fn has_file(&self, name: &Name) -> bool
        ensures { result ≡ is_some (finite.get self.now.files name.now) }
    {
        self.bank.files().get(name.as_bytes()).is_some()
    }

    /// Where tokens begin that are found in files, as a session tells it. Each chunk of a file is gone through once.
    pub fn columns(&self) -> Columns<'_>
        ensures { result ≡ self.now.files }
    {
        Columns::new(self.memory.alloc(), &self.bank)
    }

    /// Tells that the inputs are well-formed, whatever edits they come of, as those of a session are.
    ///
    /// This does nothing: it carries the fact.
    pub fn keeps_form(&self)
        ensures { IsWellFormed (rootless self.now) }
    {
        let _bank = &self.bank;
    }

    /// Where memory comes from, for what a caller has to hand in.
    pub fn allocator(&self) -> Global {
        self.memory.alloc()
    }
}

impl Bank for Sources {
    ghost use Rattle.idl_inputs.specs.Bank.{bank_of};

    type Key = RootKey;

    type Answer = RootAnswer;

    type Head = ();

    type Step = Stepless;

    ghost at = { bank_of };

    #[inline]
    fn answer(&self, key: &RootKey) -> Option<&RootAnswer> {
        self.bank.answer(key)
    }
}

impl PlainBank for Sources {
    ghost use Rattle.std.specs.Prelude.{refl};

    ghost plain = { λ head step. refl };
}
