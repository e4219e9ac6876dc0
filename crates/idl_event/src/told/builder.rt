//! The events of a root while it is expanded.

ghost use Rattle.std.specs.Prelude.{◌≡◌, ◌<◌, ◌++◌, ◌∷◌, [], IfOk, OnOk, length, map};
ghost use Rattle.idl_event.specs.Apart.{emitted_in};
ghost use Rattle.idl_event.specs.Runs.{tokens_of};
ghost use Rattle.idl_event.specs.declared.told.event.Event.TheVariants.{Emitted};

use crate::told::event::Event;
use crate::told::expansion::Expansion;
use crate::told::runs::{TokenRuns, push_clones};
use crate::told::sites::Sites;
use idl_fault::{FileName, Place};
use idl_lex::Token;
use idl_text::{FileTokens, TokenRange};
use std::alloc::{AllocError, Global};
use std::marker::Model;
use std::rc::Rc;

// Fewer tokens than these are copied, since a run takes as much memory as some.
const FEW: usize = 16;

/// The events of a root so far: to every contract the list of them.
///
/// The tokens of the text stand apart from the other events, so that units share them. Each token's site has the number of
/// its event, and each other event its own.
pub struct ExpansionBuilder {
    // The tokens of the text: runs of them, and those behind these, which are shared as soon as another run follows.
    runs: Vec<TokenRange>,
    open: Vec<Token>,
    sites: Sites,
    others: Vec<(usize, Event)>,
}

impl Model for ExpansionBuilder {
    ghost use Rattle.std.specs.Prelude.{◌++◌, List};
    ghost use Rattle.idl_event.specs.Apart.{StandApart, woven};
    ghost use Rattle.idl_event.specs.Runs.{tokens_of};
    ghost use Rattle.idl_event.specs.declared.told.event.Event.{Event};

    ghost Value = { List Event };

    ghost view = { λ b. woven b.sites (tokens_of b.runs.items ++ b.open.items) b.others.items };

    ghost invariant = { λ b. StandApart b.sites (tokens_of b.runs.items ++ b.open.items) b.others.items };
}

impl Drop for ExpansionBuilder {
    fn drop(self) {
        let ExpansionBuilder {
            runs: _runs,
            open: _open,
            sites: _sites,
            others: _others,
        } = self;
    }
}

impl ExpansionBuilder {
    /// No events. It takes no memory.
    pub fn new(alloc: Global) -> ExpansionBuilder
        ensures { result ≡ [] }
    {
        ExpansionBuilder {
            runs: Vec::new(alloc),
            open: Vec::new(alloc),
            sites: Sites::new(alloc),
            others: Vec::new(alloc),
        }
    }

    /// Where its memory comes from.
    pub fn allocator(&self) -> Global {
        *self.others.allocator()
    }

    /// A token of the text more, at its place.
    pub fn push_token(&mut self, place: Place, token: &Token) -> Result<(), AllocError>
        ensures { OnOk result (self.new ≡ self.old ++ Emitted place token.now ∷ []) }
    {
        let token = token.clone()?;
        self.open.reserve(1)?;
        self.sites.push(place, self.others.len())?;
        self.open.push_reserved(token);
        Ok(())
    }

    /// Tokens of the text more, each at its line of a file. Unless they are few, they are shared.
    pub fn push_text(&mut self, file: &FileName, tokens: &FileTokens<'_>) -> Result<(), AllocError>
        requires some { 0 < length tokens.now }
        ensures { OnOk result (self.new ≡ self.old ++ map (emitted_in file.now) tokens.now) }
    {
        if tokens.len() < FEW {
            return self.push_copies(file, tokens);
        }
        let range = tokens.shared()?;
        close(&mut self.runs, &mut self.open)?;
        self.runs.reserve(1)?;
        self.sites.push_text(file, self.others.len(), tokens)?;
        self.runs.push_reserved(range);
        Ok(())
    }

    // Copies of a few tokens of a file.
    fn push_copies(&mut self, file: &FileName, tokens: &FileTokens<'_>) -> Result<(), AllocError>
        requires some { 0 < length tokens.now }
        ensures { OnOk result (self.new ≡ self.old ++ map (emitted_in file.now) tokens.now) }
    {
        let before = self.open.len();
        push_clones(&mut self.open, tokens.as_slice())?;
        match self.sites.push_text(file, self.others.len(), tokens) {
            Ok(()) => Ok(()),
            Err(error) => {
                self.open.truncate(before);
                Err(error)
            }
        }
    }

    /// An event more.
    pub fn push(&mut self, event: Event) -> Result<(), AllocError>
        ensures { OnOk result (self.new ≡ self.old ++ event ∷ []) }
    {
        match event {
            Event::Emitted(place, token) => self.push_token(place, &token),
            other => {
                let number = self.sites.len() + self.others.len();
                self.others.push((number, other))?;
                Ok(())
            }
        }
    }

    /// What the events are at the end.
    pub fn build(mut self, alloc: Global) -> Result<Expansion, AllocError>
        ensures { IfOk result (λ expansion. expansion ≡ self) }
    {
        close(&mut self.runs, &mut self.open)?;
        self.runs.shrink_to_fit();
        self.sites.shrink_to_fit();
        let ExpansionBuilder {
            runs,
            open: _open,
            sites,
            others,
        } = self;
        let runs = TokenRuns::new(alloc, runs)?;
        let sites = Rc::new(alloc, sites)?;
        Ok(Expansion::from_parts(runs, sites, others))
    }
}

// The tokens behind the runs are a run too, if there are some.
fn close(runs: &mut Vec<TokenRange>, open: &mut Vec<Token>) -> Result<(), AllocError>
    ensures all { tokens_of runs.new.items ++ open.new.items ≡ tokens_of runs.old.items ++ open.old.items }
    ensures none { OnOk result (open.new.items ≡ []) }
{
    if open.is_empty() {
        return Ok(());
    }
    runs.reserve(1)?;
    open.shrink_to_fit();
    let range = TokenRange::take(open)?;
    runs.push_reserved(range);
    Ok(())
}
