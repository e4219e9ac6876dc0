//! The bank of a session: what its roots are answered.

ghost use Rattle.std.specs.Prelude.{◌≡◌, ◌<◌, ◌≤◌, ◌+◌, ◌||◌, ◌&&◌, [], ◌∷◌, ℕ, List, IfOk, OnOk, OnErr, Some, None, length, nat_le, not, map, slice_get};
ghost use Rattle.std.specs.Map.{lookup, remove_entry};
ghost use Rattle.std.specs.Option.{option_copied, option_map, unwrap_or};
ghost use Rattle.std.specs.Result.{result_err};
ghost use Rattle.std.specs.FinMap as finite;
ghost use Rattle.std.specs.Str.{bytes_eq};
ghost use Rattle.indexmap.specs.IndexMap.{Updates, insert_entry, spare};
ghost use Rattle.idl_event.specs.declared.asked.key.RootAnswer.TheVariants as answers;
ghost use Rattle.idl_event.specs.declared.asked.key.RootKey.TheVariants as keys;
ghost use Rattle.idl_inputs.specs.Bank.{bank_of, bank_with};
ghost use Rattle.idl_inputs.specs.Refiled.{AreRefiled, files_after};
ghost use Rattle.idl_inputs.specs.Columns.{column_at};
ghost use Rattle.idl_inputs.specs.Edits.{macros_with};
ghost use Rattle.idl_prep.specs.Candidate.{AnswersFrom};
ghost use Rattle.idl_prep.specs.Include.{directories_in};
ghost use Rattle.idl_source.specs.Limits.{most_macros};
ghost use Rattle.idl_inputs.specs.Project.{Inputs, is_defined, no_inputs};

use crate::edited_files::EditedFiles;
use crate::limits::{MAX_BODY, MAX_MACROS};
use crate::macro_body::MacroBody;
use crate::no_step::Stepless;
use idl_base::{Bytes, Seq};
use idl_event::{LexedFile, RootAnswer, RootKey};
use idl_fault::{FileName, Place};
use idl_macro::is_macro_word;
use idl_memo::{Bank, PlainBank};
use idl_source::{Files, Line, Refusal};
use indexmap::IndexMap;
use std::alloc::{AllocError, Global};
use std::marker::Model;

/// Files, macros and a search list, with the answers about them: each file and each body is cut into tokens once.
pub struct SessionBank {
    files: Files,
    texts: IndexMap<FileName, RootAnswer>,
    macros: IndexMap<Bytes, MacroBody>,
    search: RootAnswer,
}

impl Model for SessionBank {
    ghost use Rattle.std.specs.Prelude.{◌≡◌, List, ℕ, Some};
    ghost use Rattle.std.specs.FinMap as finite;
    ghost use Rattle.std.specs.Map.{lookup};
    ghost use Rattle.std.specs.Option.{option_map};
    ghost use Rattle.std.specs.Str.{bytes_eq};
    ghost use Rattle.idl_event.specs.declared.asked.key.RootAnswer.TheVariants as answers;
    ghost use Rattle.idl_prep.specs.Include.{directories_in};
    ghost use Rattle.idl_inputs.specs.Project.{Inputs, inputs_code};

    ghost Value = { Inputs };

    ghost coded = { inputs_code };

    ghost view = { λ bank. record {
      files = bank.files;
      macros = bank.macros.entries;
      search = directories_in (Some bank.search);
    } };

    // The texts say what the files say, and the search list is one.
    ghost invariant = { λ bank. ((name : List ℕ) → lookup (bytes_eq name) bank.texts.entries
        ≡ option_map answers.File (finite.get bank.files name))
        × (bank.search ≡ answers.Search (directories_in (Some bank.search))) };
}

impl Drop for SessionBank {
    fn drop(self) {
        let SessionBank {
            files: _files,
            texts: _texts,
            macros: _macros,
            search: _search,
        } = self;
    }
}

impl SessionBank {
    /// No files, no macros and no directories. It takes no memory.
    pub fn new(alloc: Global) -> SessionBank
        ensures { result ≡ no_inputs }
    {
        SessionBank {
            files: Files::new(alloc),
            texts: IndexMap::new(alloc),
            macros: IndexMap::new(alloc),
            search: RootAnswer::Search(Seq::new(alloc)),
        }
    }

    /// The files.
    pub fn files(&self) -> &Files
        ensures { result.now ≡ self.now.files }
    {
        &self.files
    }

    /// The body of the macro with this word. It takes no memory, so no key is made of the word, and all macros are gone through.
    pub fn macro_body(&self, word: &[u8]) -> Option<&[u8]>
        ensures { option_copied result ≡ lookup (bytes_eq word.now) self.now.macros }
    {
        for (known, body) in self.macros.iter() {
            if word == known.as_bytes() {
                return Some(body.as_bytes());
            }
        }
        None
    }

    /// The directory at this place of the search list.
    pub fn directory(&self, at: usize) -> Option<&[u8]>
        ensures { option_copied result ≡ slice_get self.now.search at }
    {
        match &self.search {
            RootAnswer::Search(list) => match list.as_slice().get(at) {
                Some(directory) => Some(directory.as_bytes()),
                None => None,
            },
            RootAnswer::Macro(_) | RootAnswer::File(_) => None,
        }
    }

    /// The file of this name, with its tokens.
    pub(crate) fn lexed(&self, name: &FileName) -> Option<&LexedFile>
        ensures { option_copied result ≡ finite.get self.now.files name.now }
    {
        match self.texts.get(name) {
            Some(RootAnswer::File(file)) => Some(file),
            Some(RootAnswer::Macro(_) | RootAnswer::Search(_)) | None => None,
        }
    }

    /// How many bytes of its line are before a token of a file, by its place, its number there and its spelling.
    pub fn column(&self, place: &Place, number: Option<usize>, text: &[u8]) -> Option<usize>
        ensures { result ≡ column_at self.now.files place.now number text.now }
    {
        self.lexed(&place.file)?.column(place.line, number, text)
    }

    // Whether there are as many macros as there may be, and none with this word.
    fn is_full_for(&self, word: &Bytes) -> bool
        ensures { let macros = self.now.macros in
            result ≡ (nat_le most_macros (length macros) && not (is_defined macros word.now)) }
    {
        self.macros.len() >= MAX_MACROS && !self.macros.contains_key(word)
    }

    /// Why a macro with this word and this body isn't defined.
    pub fn refusal_of_define(&self, word: &Bytes, body: &Line) -> Option<Refusal>
        ensures { result ≡ result_err (macros_with self.now.macros word.now body.now) }
    {
        if body.len() > MAX_BODY || self.is_full_for(word) {
            return Some(Refusal::OverLimit);
        }
        if !is_macro_word(word.as_bytes()) {
            return Some(Refusal::BadMacro);
        }
        None
    }

    /// What is answered of a file, by what these files say of it. The file is cut into tokens here, and what is the same as in
    /// the bank's file of this name is taken over.
    pub fn file_answer(
        &self,
        alloc: Global,
        files: &Files,
        name: &FileName,
    ) -> Result<Option<RootAnswer>, AllocError>
        ensures { IfOk result (λ answer.
            answer ≡ option_map answers.File (finite.get files.now name.now)) }
    {
        let Some(file) = files.get(name.as_bytes()) else {
            return Ok(None);
        };
        let old = self.lexed(name);
        let text = LexedFile::new(alloc, file.clone()?, old)?;
        Ok(Some(RootAnswer::File(text)))
    }

    /// Puts edited files in place, with the answers about them.
    pub fn refile(&mut self, edited: EditedFiles) -> Result<(), AllocError>
        requires { AreRefiled self.old edited }
        ensures ok { let files = files_after self.old.files edited in
            OnOk result (self.new ≡ record self.old { files = files }) }
        ensures err { OnErr result (self.new ≡ self.old) }
    {
        let (files, answers) = edited.into_parts();
        put_all(&mut self.texts, answers)?;
        match files {
            Some(files) => {
                self.files = files;
                Ok(())
            }
            None => Ok(()),
        }
    }

    /// Gives the macro with this word this body, as the last one if it is new.
    pub fn define(&mut self, word: Bytes, body: MacroBody) -> Result<(), AllocError>
        ensures ok { let macros = insert_entry bytes_eq self.old.macros word body in
            OnOk result (self.new ≡ record self.old { macros = macros }) }
        ensures bank { OnOk result (bank_of self.new
            ≡ bank_with self.old (keys.Macro word) (Some (answers.Macro (body ∷ [])))) }
        ensures err { OnErr result (self.new ≡ self.old) }
    {
        self.macros.insert(word, body)?;
        Ok(())
    }

    /// Takes the macro with this word out, if there is one.
    pub fn undef(&mut self, word: &Bytes)
        ensures left { let macros = remove_entry (bytes_eq word.now) self.old.macros in
            self.new ≡ record self.old { macros = macros } }
        ensures bank { bank_of self.new ≡ bank_with self.old (keys.Macro word.now) None }
    {
        self.macros.shift_remove(word);
    }

    /// Puts another search list in place.
    pub fn set_search(&mut self, search: RootAnswer)
        requires { search ≡ answers.Search (directories_in (Some search)) }
        ensures set { self.new ≡ record self.old { search = directories_in (Some search) } }
        ensures bank { bank_of self.new ≡ bank_with self.old keys.Search (Some search) }
    {
        self.search = search;
    }
}

impl Bank for SessionBank {
    ghost use Rattle.idl_inputs.specs.Bank.{bank_of};

    type Key = RootKey;

    type Answer = RootAnswer;

    type Head = ();

    type Step = Stepless;

    ghost at = { bank_of };

    #[inline]
    #[tactic(auto, unfolding(crate::specs::Bank::bank_of))]
    fn answer(&self, key: &RootKey) -> Option<&RootAnswer> {
        match key {
            // Most sessions have no macros, and each word of a text is asked for.
            RootKey::Macro(_) if self.macros.is_empty() => None,
            RootKey::Macro(word) => match self.macros.get(word) {
                Some(body) => Some(body.answer()),
                None => None,
            },
            RootKey::File(name) => self.texts.get(name),
            RootKey::Search => Some(&self.search),
        }
    }
}

impl PlainBank for SessionBank {
    ghost use Rattle.std.specs.Prelude.{refl};

    ghost plain = { λ head step. refl };
}

/// Answers of inputs come from their files and their search list, so that `first_candidate` of `idl_prep` speaks of a session:
/// there too an include finds the first of its candidates that is present. This does nothing: it carries the law.
pub fn answers_come_from_inputs()
    ensures { (inputs : Inputs) → AnswersFrom inputs.files inputs.search (bank_of inputs) }
{}

// Puts in these answers of files, and takes out files that have none.
fn put_all(
    texts: &mut IndexMap<FileName, RootAnswer>,
    answers: IndexMap<FileName, Option<RootAnswer>>,
) -> Result<(), AllocError>
    ensures ok { OnOk result ((name : List ℕ) → lookup (bytes_eq name) texts.new.entries
        ≡ unwrap_or (lookup (bytes_eq name) answers.entries)
        (lookup (bytes_eq name) texts.old.entries)) }
    ensures err { OnErr result (texts.new.entries ≡ texts.old.entries) }
{
    let before = texts.len();
    let mut left = answers;
    texts.reserve(left.len())?;
    for _done in 0..left.len() {
        // There are so many.
        let (name, answer) = left.pop().unwrap();
        put_one(texts, name, answer);
    }
    give_back(texts, before);
    Ok(())
}

// Gives back what memory it can, where there are fewer texts than before.
fn give_back(texts: &mut IndexMap<FileName, RootAnswer>, before: usize)
    ensures { texts.new.entries ≡ texts.old.entries }
{
    if texts.len() < before {
        texts.shrink_to_fit();
    }
}

// Puts in the answer of a file, for which there is room, or takes the file out.
fn put_one(texts: &mut IndexMap<FileName, RootAnswer>, name: FileName, answer: Option<RootAnswer>)
    requires { 0 < spare texts.old }
    ensures updates { Updates bytes_eq texts.old texts.new name answer }
    ensures room { spare texts.old ≤ spare texts.new + 1 }
{
    match answer {
        Some(answer) => {
            texts.insert(name, answer).unwrap();
        }
        None => {
            texts.swap_remove(&name);
        }
    }
}
