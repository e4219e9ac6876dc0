//! The session: its edits, and its queries.
//!
//! A session lends the parts of its project by one clause each, so that who stands above sees that a refused edit left
//! them. Macros are gone through for a word: one that is made would take memory, and a query is never refused any.

mod file_edits;

ghost use Rattle.std.specs.Prelude.{◌≡◌, ℕ, All, List, [], true, Ok, Err, IfOk, IfNone, IfSome, map, slice_get};
ghost use Rattle.std.specs.FinMap as finite;
ghost use Rattle.std.specs.Map.{lookup};
ghost use Rattle.std.specs.Option.{option_copied, option_map};
ghost use Rattle.std.specs.Str.{bytes_eq};
ghost use Rattle.idl_event.specs.declared.asked.key.RootKey.TheVariants as keys;
ghost use Rattle.idl_inputs.specs.Asked.{asked_files, asked_of};
ghost use Rattle.idl_prep.specs.Root.{expanded};
ghost use Rattle.idl_sources.specs.idl_root.Details.{details};
ghost use Rattle.idl_sources.specs.idl_root.Places.{root_pieces};
ghost use Rattle.idl_sources.specs.idl_root.Turns.{FitsU64};
ghost use Rattle.idl_sources.specs.idl_root.idl_root_blocks.Places.{AreStandingOver};
ghost use Rattle.idl_inputs.specs.Bank.{bank_of};
ghost use Rattle.idl_inputs.specs.Columns.{column_of};
ghost use Rattle.idl_project.specs.Details.{details_of, expansion_of};
ghost use Rattle.idl_inputs.specs.Project.{no_project};
ghost use Rattle.idl_project.specs.Work.{no_work};
ghost use Rattle.idl_project.specs.Edited.{IsEdited};
ghost use Rattle.idl_inputs.specs.Edits.{Put, Splice, Define, Undef, Search, AddRoot, DropRoot, after, are_too_long};
ghost use Rattle.idl_project.specs.UpToDate.{compiled_of, diagnostics_of, findings_of, listing_of, dump_of, is_faulty_of, absent_of};
ghost use Rattle.idl_inputs.specs.WellFormed.{IsWellFormed};

use crate::kept_root::{BankChange, KeptRoot};
use crate::root_table::RootTable;
use crate::work::Work;
use idl_base::{Bytes, Seq};
use idl_event::{Expansion, RootAnswer, RootKey};
use idl_fault::Place;
use idl_inputs::{Columns, MacroBody, SessionBank, causes_by, directories};
use idl_macro::is_macro_word;
use idl_memo::{Edited, Meter, freshness, one_bank};
use idl_prep::RootTask;
use idl_source::{Line, Name, Refusal, Span};
use idl_sources::CompiledRoot;
use idl_sources::idl_root::{Finding, Keeper, Row, blocks, comparing, fresh_tasks};
use std::alloc::{AllocError, Global};
use std::marker::Model;

/// A well-formed project, and for each of its roots what it compiles to.
///
/// An edit is accepted, and then all rows are those of the project after it, or it is refused, and then nothing has
/// changed. Queries take no memory, but that `asked` makes a list, and `details` compiles a root.
#[derive(Drop)]
pub struct Session {
    keeper: Keeper,
    bank: SessionBank,
    roots: RootTable,
    work: Work,
    // The roots that the last accepted edit expanded anew.
    touched: Seq<Name>,
}

impl Model for Session {
    ghost use Rattle.std.specs.Map.{keys_of};
    ghost use Rattle.idl_project.specs.UpToDate.{State, state_code, IsUpToDate};

    ghost Value = { State };

    ghost coded = { state_code };

    ghost view = { λ session. record {
      project = record { inputs = session.bank; roots = keys_of session.roots };
      work = session.work;
      touched = session.touched;
    } };

    ghost invariant = { λ session. IsUpToDate session.bank session.roots session.keeper };
}

impl Session {
    /// A session without files, macros, directories and roots. It takes no memory.
    pub fn new(alloc: Global) -> Session
        ensures { result ≡ record { project = no_project; work = no_work; touched = [] } }
    {
        Session {
            keeper: Keeper::new(alloc),
            bank: SessionBank::new(alloc),
            roots: RootTable::new(alloc),
            work: Work::none(),
            touched: Seq::new(alloc),
        }
    }

    /// Defines a macro that stands before the first line of every root, in place of the one of that word if there is one.
    ///
    /// It is refused where the body has more than [`MAX_BODY`](crate::MAX_BODY) bytes, or the word is new and there are
    /// [`MAX_MACROS`](crate::MAX_MACROS) macros, and then where the word isn't one, or is `defined`. Memory may be refused
    /// too. A refusal gives up the body.
    pub fn define(&mut self, word: &[u8], body: Line) -> Result<Work, Refusal>
        ensures { IsEdited (Define word.now body) self.old self.new result }
    {
        let word = Bytes::from_slice(self.keeper.alloc(), word)?;
        if let Some(refusal) = self.bank.refusal_of_define(&word, &body) {
            return Err(refusal);
        }
        let body = MacroBody::new(self.keeper.alloc(), body)?;
        let key = RootKey::Macro(word.clone()?);
        let answer = Some(body.answer());
        let edited = Edited {
            base: &self.bank,
            key: &key,
            answer,
        };
        let change = BankChange {
            base: &self.bank,
            bank: &edited,
            causes: causes_by(&edited),
        };
        let renewed = self.roots.renewed(&mut self.keeper, &change)?;
        if let Err(refusal) = self.bank.define(word, body) {
            self.keeper.discard();
            return Err(refusal.into());
        }
        self.roots = renewed.0;
        self.keeper.commit();
        self.work = renewed.1;
        self.touched = renewed.2;
        Ok(self.work)
    }

    /// Takes the macro with this word out, if there is one.
    ///
    /// It is refused where the word isn't one, or is `defined`. Memory may be refused too.
    pub fn undef(&mut self, word: &[u8]) -> Result<Work, Refusal>
        ensures { IsEdited (Undef word.now) self.old self.new result }
    {
        if !is_macro_word(word) {
            return Err(Refusal::BadMacro);
        }
        let word = Bytes::from_slice(self.keeper.alloc(), word)?;
        let key = RootKey::Macro(word.clone()?);
        let none: Option<RootAnswer> = None;
        let answer = none.as_ref();
        let edited = Edited {
            base: &self.bank,
            key: &key,
            answer,
        };
        let change = BankChange {
            base: &self.bank,
            bank: &edited,
            causes: causes_by(&edited),
        };
        let renewed = self.roots.renewed(&mut self.keeper, &change)?;
        self.bank.undef(&word);
        self.roots = renewed.0;
        self.keeper.commit();
        self.work = renewed.1;
        self.touched = renewed.2;
        Ok(self.work)
    }

    /// Searches included files in these directories from now on, in this order.
    ///
    /// It is refused where one of them is no directory, and then where there are more than
    /// [`MAX_DIRECTORIES`](crate::MAX_DIRECTORIES). Memory may be refused too.
    pub fn search(&mut self, list: &[&[u8]]) -> Result<Work, Refusal>
        ensures { IsEdited (Search (map (λ bytes. bytes.now) list.now)) self.old self.new result }
    {
        let list = directories(self.keeper.alloc(), list)?;
        let search = RootAnswer::Search(Seq::from_vec(list));
        let answer = Some(&search);
        let edited = Edited {
            base: &self.bank,
            key: &RootKey::Search,
            answer,
        };
        let change = BankChange {
            base: &self.bank,
            bank: &edited,
            causes: causes_by(&edited),
        };
        let renewed = self.roots.renewed(&mut self.keeper, &change)?;
        self.bank.set_search(search);
        self.roots = renewed.0;
        self.keeper.commit();
        self.work = renewed.1;
        self.touched = renewed.2;
        Ok(self.work)
    }

    /// Makes the file of this name a root, the last one. The file may be absent.
    ///
    /// It is refused where the name isn't one, and then where it is a root already or there are [`MAX_ROOTS`](crate::MAX_ROOTS) roots.
    /// Memory may be refused too.
    pub fn add_root(&mut self, name: &[u8]) -> Result<Work, Refusal>
        ensures { IsEdited (AddRoot name.now) self.old self.new result }
    {
        let Some(root) = Name::new(name) else {
            return Err(Refusal::BadName);
        };
        if self.roots.contains(&root) {
            return Err(Refusal::RootThere);
        }
        if self.roots.is_full() {
            return Err(Refusal::OverLimit);
        }
        one_bank::<SessionBank, RootTask>();
        freshness::<SessionBank, RootTask>();
        fresh_tasks();
        comparing();
        let mut meter = Meter {
            expanded: 0,
            checked: 0,
            printed: 0,
            compared: self.roots.keys_asked(),
        };
        // First, so that no root is compiled where there is no room for it.
        let mut touched = Seq::new(self.keeper.alloc());
        touched.push(root.copied())?;
        self.roots.reserve_one()?;
        self.roots
            .add_anew(&mut self.keeper, root, &self.bank, &mut meter)?;
        self.keeper.commit();
        self.work = Work::counted(&meter);
        self.touched = touched;
        Ok(self.work)
    }

    /// Makes the file of this name no root any more. The file stays. It takes no memory.
    ///
    /// It is refused where the name isn't one, and then where it is that of no root.
    pub fn drop_root(&mut self, name: &[u8]) -> Result<Work, Refusal>
        ensures { IsEdited (DropRoot name.now) self.old self.new result }
    {
        let Some(root) = Name::new(name) else {
            return Err(Refusal::BadName);
        };
        let Some(at) = self.roots.place_of(&root) else {
            return Err(Refusal::NoSuchRoot);
        };
        one_bank::<SessionBank, RootTask>();
        freshness::<SessionBank, RootTask>();
        fresh_tasks();
        comparing();
        self.keeper.remove(at);
        self.roots.remove(&root);
        self.work = Work {
            expanded: 0,
            checked: 0,
            printed: 0,
            compared: self.roots.keys_asked(),
        };
        self.touched = Seq::new(self.keeper.alloc());
        Ok(self.work)
    }

    /// What is found in a root, of which its diagnostics are the rows, or nothing where the name isn't one of a root. It takes no
    /// memory.
    pub fn findings(&self, root: &[u8]) -> Option<&[Finding]>
        ensures { option_copied result ≡ findings_of self.now.project root.now }
    {
        match self.compiled(root) {
            Some(compiled) => Some(compiled.rows.findings.as_slice()),
            None => None,
        }
    }

    /// Where a token begins that is found in a file: how many bytes of its line are before it. By its number among the tokens of that
    /// line where that one is spelled so, or else by its spelling, if only one is spelled so there; what goes over joined lines has none.
    /// It takes no memory.
    pub fn column(&self, place: &Place, number: Option<usize>, text: &[u8]) -> Option<usize>
        ensures { result ≡ column_of self.now.project place.now number text.now }
    {
        self.bank.column(place, number, text)
    }

    /// Where tokens begin that are found in files, as `column` tells it, for who asks for many: each chunk of a file is gone through once.
    pub fn columns(&self) -> Columns<'_>
        ensures { result ≡ self.now.project.inputs.files }
    {
        Columns::new(self.allocator(), &self.bank)
    }

    /// The diagnostics of a root, or nothing where the name isn't one of a root. It takes no memory.
    pub fn diagnostics(&self, root: &[u8]) -> Option<&[Row]>
        ensures { option_copied result ≡ diagnostics_of self.now.project root.now }
    {
        match self.compiled(root) {
            Some(compiled) => Some(compiled.rows.diagnostics.as_slice()),
            None => None,
        }
    }

    /// The listing of a root, or nothing where the name isn't one of a root. It takes no memory.
    pub fn listing(&self, root: &[u8]) -> Option<&[Row]>
        ensures { option_copied result ≡ listing_of self.now.project root.now }
    {
        match self.compiled(root) {
            Some(compiled) => Some(compiled.rows.listing.get().as_slice()),
            None => None,
        }
    }

    /// The dump of a root, or nothing where the name isn't one of a root. It takes no memory.
    pub fn dump(&self, root: &[u8]) -> Option<&[Row]>
        ensures { option_copied result ≡ dump_of self.now.project root.now }
    {
        match self.compiled(root) {
            Some(compiled) => Some(compiled.rows.dump.get().as_slice()),
            None => None,
        }
    }

    /// Whether there is an error among the diagnostics of a root, or nothing where the name isn't one of a root.
    pub fn is_faulty(&self, root: &[u8]) -> Option<bool>
        ensures { result ≡ is_faulty_of self.now.project root.now }
    {
        match self.compiled(root) {
            Some(compiled) => Some(compiled.rows.is_faulty),
            None => None,
        }
    }

    /// The files that a root asks for and that aren't there, in the order first asked, or nothing where the name isn't one of
    /// a root. It takes no memory.
    pub fn absent(&self, root: &[u8]) -> Option<&[Name]>
        ensures { option_copied result ≡ absent_of self.now.project root.now }
    {
        match self.compiled(root) {
            Some(compiled) => Some(compiled.absent.as_slice()),
            None => None,
        }
    }

    /// The files that a root asks for, there or not, in the order first asked, and none where the name isn't one of a root.
    pub fn asked(&self, root: &[u8]) -> Result<Vec<Name>, AllocError>
        ensures { IfOk result (λ names. names.items ≡ asked_of self.now.project root.now) }
    {
        match self.kept(root) {
            Some(kept) => Ok(kept.asked(self.keeper.alloc())?),
            None => Ok(Vec::new(self.keeper.alloc())),
        }
    }

    /// What a root expands to, or nothing where the name isn't one of a root. It takes no memory.
    pub fn expansion(&self, root: &[u8]) -> Option<&Expansion>
        ensures { option_copied result ≡ expansion_of self.now.project root.now }
    {
        match self.kept(root) {
            Some(kept) => Some(kept.expansion()),
            None => None,
        }
    }

    /// The lines of the file of this name, or nothing where there is no such file. It takes no memory.
    pub fn file(&self, name: &[u8]) -> Option<&[Line]>
        ensures { option_copied result ≡ finite.get self.now.project.inputs.files name.now }
    {
        match self.bank.files().get(name) {
            Some(file) => Some(file.lines()),
            None => None,
        }
    }

    /// The body of the macro with this word that was defined by an edit, or nothing where there is none. It takes no memory.
    pub fn macro_body(&self, word: &[u8]) -> Option<&[u8]>
        ensures { option_copied result ≡ lookup (bytes_eq word.now) self.now.project.inputs.macros }
    {
        self.bank.macro_body(word)
    }

    /// The directory at this place of the search list, of which 0 is the first, or nothing where there is none. It takes no memory.
    pub fn directory(&self, at: usize) -> Option<&[u8]>
        ensures { option_copied result ≡ slice_get self.now.project.inputs.search at }
    {
        self.bank.directory(at)
    }

    /// The root at this place among all, of which 0 is the first, or nothing where there is none. It takes no memory.
    pub fn root(&self, at: usize) -> Option<&Name>
        ensures { option_copied result ≡ slice_get self.now.project.roots at }
    {
        self.roots.name_at(at)
    }

    /// The work of the last accepted edit, and of a new session none. It takes no memory.
    pub fn work(&self) -> Work
        ensures { result ≡ self.now.work }
    {
        self.work
    }

    /// The roots that the last accepted edit expanded anew, which its work counts, in their order. What of every other root is as before
    /// [`untouched_roots_stay`](crate::untouched_roots_stay) tells. It takes no memory.
    pub fn touched(&self) -> &[Name]
        ensures { result.now ≡ self.now.touched }
    {
        self.touched.as_slice()
    }

    /// Tells that the project is well-formed, whatever edits it comes of: names, words and directories obey their rules, each
    /// macro and each root is there once, and nothing is more or longer than the limits allow.
    ///
    /// This does nothing: it carries the fact.
    pub fn keeps_form(&self)
        ensures { IsWellFormed self.now.project }
    {
        let _roots = &self.roots;
    }

    /// Tells of each root that its units need no more turns than their verdicts are taken with, and that each of its blocks stands: so the
    /// laws of verdicts and of blocks speak of it.
    ///
    /// This does nothing: it carries the facts.
    pub fn bounds_turns(&self)
        ensures within { let bank = bank_of self.now.project.inputs in
            All (λ root. FitsU64 (expanded root bank).0) self.now.project.roots }
        ensures blocks { let bank = bank_of self.now.project.inputs in
            All (λ root. AreStandingOver [] (root_pieces (expanded root bank).0))
            self.now.project.roots }
    {
        let _roots = &self.roots;
        blocks();
    }

    /// Where the session's memory comes from, for what a caller has to hand in.
    pub fn allocator(&self) -> Global {
        self.keeper.alloc()
    }

    /// Why lines that are too many or too long for any file aren't put under this name: the least refusal. It takes no memory.
    ///
    /// A caller that doesn't keep such lines asks this in place of the edit.
    pub fn refusal_of_long_put(&self, name: &[u8]) -> Refusal
        ensures { (lines : List (List ℕ)) → are_too_long lines ≡ true
            → after self.now.project (Put name.now lines) ≡ Err result }
    {
        if Name::new(name).is_none() {
            return Refusal::BadName;
        }
        Refusal::OverLimit
    }

    /// Why lines that are too many or too long for any file aren't spliced in there: the least refusal. It takes no memory.
    pub fn refusal_of_long_splice(&self, name: &[u8], span: Span) -> Refusal
        ensures { (lines : List (List ℕ)) → are_too_long lines ≡ true
            → after self.now.project (Splice name.now span.from span.del lines) ≡ Err result }
    {
        if Name::new(name).is_none() {
            return Refusal::BadName;
        }
        let Some(file) = self.bank.files().get(name) else {
            return Refusal::NoSuchFile;
        };
        if !span.is_inside(file.lines()) {
            return Refusal::OutsideFile;
        }
        Refusal::OverLimit
    }

    // What the root of this name compiles to.
    fn compiled(&self, root: &[u8]) -> Option<&CompiledRoot>
        ensures { option_copied result ≡ compiled_of self.now.project root.now }
    {
        let roots = &self.roots;
        roots.get(&Name::new(root)?)
    }

    // What is kept of the root of this name.
    pub(crate) fn kept(&self, root: &[u8]) -> Option<&KeptRoot>
        ensures some { IfSome result (λ kept.
            asked_files kept.now.result.value.log ≡ asked_of self.now.project root.now) }
        ensures none { IfNone result (asked_of self.now.project root.now ≡ []) }
        ensures details { option_map (λ kept. details kept.result.value.out) (option_copied result)
            ≡ details_of self.now.project root.now }
        ensures expansion { option_map (λ kept. kept.result.value.out) (option_copied result)
            ≡ expansion_of self.now.project root.now }
    {
        let roots = &self.roots;
        roots.kept(&Name::new(root)?)
    }
}
