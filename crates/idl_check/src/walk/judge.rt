//! The verdict of a unit of tokens.

ghost use Rattle.std.specs.Prelude.{◌≡◌, ◌≤◌, ◌++◌, ◌∷◌, ◌-◌, [], ℕ, IfOk, OnOk, Some, length, map};
ghost use Rattle.idl_check.specs.walk.Held.{HasRoomFor, held};
ghost use Rattle.idl_check.specs.walk.Placing.{step_of};
ghost use Rattle.idl_check.specs.walk.Verdict.{asking, by_names, judged, refused, row_depth, sound, token_verdict, unit_tree};
ghost use Rattle.idl_check.specs.walk.Walk.{walk};
ghost use Rattle.idl_memo.specs.Query.{and_then, run};
ghost use Rattle.idl_env.specs.Facts.{answers, path_around};
ghost use Rattle.idl_env.specs.keys.Key.{key_eq};
ghost use Rattle.idl_env.specs.Turns.{turns_for};
ghost use Rattle.idl_parts.specs.Item.{item_at, items, items_length};
ghost use Rattle.idl_parts.specs.UnitParts.{unit_parts};
ghost use Rattle.idl_tree.specs.Lexeme.{lexemes};
ghost use Rattle.idl_tree.specs.Unit.{spell};
ghost use Rattle.idl_check.specs.declared.walk.verdict.Verdict.{Verdict as UnitVerdict};
ghost use Rattle.idl_unit.specs.Faults.{least_fault};
ghost use Rattle.idl_unit.specs.TokenRules.{fault_at, token_faults};
ghost use Rattle.idl_fault.specs.declared.code.Code.TheVariants.{NoTree};

use crate::tables::codes::lesser;
use crate::walk::placing::{depth, faulty_step, opened_kind, opening_fault, place_fault, step_of};
use crate::walk::scratch::Scratch;
use crate::walk::verdict::{Verdict, adding};
use crate::walk::walker::Walker;
use idl_base::Bytes;
use idl_dump::{RowSource, write_row};
use idl_entity::Path;
use idl_env::{DigestedKey, Env, Facts, OpenScopes, Step};
use idl_fault::Code;
use idl_lex::Token;
use idl_memo::Journal;
use idl_parse::{SyntaxFault, parse_tokens};
use idl_parts::{UnitPart, sites};
use idl_tree::Tree;
use idl_unit::{Fault, token_fault};
use std::alloc::AllocError;

/// A unit of tokens, in the scopes that are open around it.
#[derive(Clone, Copy)]
pub struct Judge<'a> {
    pub env: &'a Env,
    pub tokens: &'a [Token],
    pub scopes: &'a OpenScopes,
}

// A unit that has a tree, and the sites of that tree.
#[derive(Clone, Copy)]
struct ParsedUnit<'t> {
    judge: Judge<'t>,
    tree: &'t Tree,
    sites: &'t [UnitPart<'t>],
}

impl<'a> Judge<'a> {
    /// The verdict of the unit.
    pub fn verdict(
        self,
        scratch: &mut Scratch,
        log: &mut Journal<Env>,
    ) -> Result<Verdict, AllocError>
        ensures { IfOk result (λ v. (turns : ℕ) → turns_for self.entry.env.now ≤ turns →
            (v, log.new)
            ≡ run key_eq (token_verdict turns self.entry.tokens.now self.entry.scopes.now)
            (answers self.entry.env.now) log.old) }
    {
        match self.tree()? {
            Ok(tree) => self.by_names(scratch, log, &tree),
            Err(fault) => self.refused(log, fault),
        }
    }

    /// The tree of the unit, or the fault for which it has none.
    pub fn tree(self) -> Result<Result<Tree, Fault>, AllocError>
        ensures { IfOk result (λ tree.
            tree ≡ unit_tree self.entry.tokens.now self.entry.scopes.now) }
    {
        if let Some(fault) = opening_fault(self.tokens, self.scopes) {
            return Ok(Err(first_fault(self.tokens, fault)));
        }
        match parse_tokens(self.env.alloc(), self.tokens) {
            Ok(tree) => Ok(Ok(tree)),
            Err(SyntaxFault::Rule(fault)) => Ok(Err(fault)),
            Err(SyntaxFault::NoTree(left)) => Ok(Err(no_tree(self.tokens, left))),
            Err(SyntaxFault::Memory) => Err(AllocError),
        }
    }

    // The verdict of a faulty unit.
    fn refused(self, log: &mut Journal<Env>, fault: Fault) -> Result<Verdict, AllocError>
        ensures { IfOk result (λ v.
            (v, log.new)
            ≡ run key_eq (refused self.entry.tokens.now fault)
            (answers self.entry.env.now) log.old) }
    {
        if opened_kind(self.tokens).is_some() {
            log.ask(&DigestedKey::nameless(), self.env)?;
            return adding(self.env.alloc(), Some(fault), faulty_step(self.tokens));
        }
        adding(self.env.alloc(), Some(fault), faulty_step(self.tokens))
    }

    // The verdict of a unit that has this tree.
    fn by_names(
        self,
        scratch: &mut Scratch,
        log: &mut Journal<Env>,
        tree: &Tree,
    ) -> Result<Verdict, AllocError>
        requires { lexemes self.tokens.now ≡ spell tree.now }
        ensures { IfOk result (λ v. (turns : ℕ) → turns_for self.entry.env.now ≤ turns →
            (v, log.new)
            ≡ run key_eq (by_names turns self.entry.tokens.now self.entry.scopes.now tree.now)
            (answers self.entry.env.now) log.old) }
    {
        let sites = sites(self.env.alloc(), tree)?;
        let unit = ParsedUnit {
            judge: self,
            tree,
            sites: sites.as_slice(),
        };
        let known = place_fault(tree, self.scopes);
        let mut walker = Walker::new(self.env, self.scopes, scratch, known);
        unit.walked(scratch, log, &mut walker)
    }

    // Of a scope that is opened it is asked how often it was before.
    fn ask_step(self, log: &mut Journal<Env>, step: &Step) -> Result<(), AllocError>
        ensures { OnOk result ((v : UnitVerdict) →
            (v, log.new) ≡ run key_eq (asking step.now v) (answers self.entry.env.now) log.old) }
    {
        match step {
            Step::Opens(path, _kind) => {
                let key = DigestedKey::opened(self.env.alloc(), path)?;
                log.ask(&key, self.env)?;
                Ok(())
            }
            Step::Stays
            | Step::OpensNameless(_)
            | Step::Closes
            | Step::Prefixes(_)
            | Step::Enters
            | Step::Leaves => Ok(()),
        }
    }
}

impl<'t> ParsedUnit<'t> {
    // The verdict of a unit that its scope holds, over whose sites this walk goes.
    fn walked(
        self,
        scratch: &mut Scratch,
        log: &mut Journal<Env>,
        walker: &mut Walker<'_>,
    ) -> Result<Verdict, AllocError>
        requires sites { map item_at self.sites.now ≡ items (unit_parts self.tree.now) }
        requires room { HasRoomFor (held walker.old) (map item_at self.sites.now) }
        requires env { walker.old.env.now ≡ self.judge.env.now }
        ensures { IfOk result (λ v. (turns : ℕ) → turns_for self.entry.judge.env.now ≤ turns →
            (v, log.new)
            ≡ run key_eq
            (and_then (walk turns (items (unit_parts self.entry.tree.now)) (held walker.old))
            (λ w. judged self.entry.judge.tokens.now self.entry.judge.scopes.now
            self.entry.tree.now w))
            (answers self.entry.judge.env.now) log.old) }
    {
        walker.walk(log, self.sites)?;
        match walker.fault {
            Some(fault) => self.judge.refused(log, fault),
            None => self.sound(scratch, log, walker),
        }
    }

    // The verdict of a unit without fault, over which a walk has come so far.
    fn sound(
        self,
        scratch: &mut Scratch,
        log: &mut Journal<Env>,
        walker: &mut Walker<'_>,
    ) -> Result<Verdict, AllocError>
        requires sites { map item_at self.sites.now ≡ items (unit_parts self.tree.now) }
        requires room { items_length (map item_at self.sites.now) ≤ 18446744073709551615 }
        ensures { IfOk result (λ v.
            (v, log.new)
            ≡ run key_eq
            (asking (step_of self.entry.tree.now (path_around self.entry.judge.scopes.now))
            (sound self.entry.judge.tokens.now self.entry.judge.scopes.now self.entry.tree.now
            (held walker.old)))
            (answers self.entry.judge.env.now) log.old) }
    {
        let rest = RowSource {
            tokens: self.judge.tokens,
            found: walker.found.as_slice(),
            values: walker.values.told(),
            in_value: false,
        };
        write_row(
            &mut scratch.row,
            row_depth(self.tree, self.judge.scopes),
            self.sites,
            rest,
        )?;
        let step = self.step(&walker.own)?;
        self.judge.ask_step(log, &step)?;
        walker.finish_facts(step)?;
        let writes = scratch.room.hold(&mut walker.own)?;
        let row = Bytes::from_slice(self.judge.env.alloc(), scratch.row.as_slice())?;
        Ok(Verdict {
            fault: None,
            writes,
            row: Some(row),
        })
    }

    // What the unit does to the open scopes, where it adds this.
    fn step(self, own: &Facts) -> Result<Step, AllocError>
        ensures { IfOk result (λ step. step
            ≡ step_of self.entry.tree.now (path_around self.entry.judge.scopes.now)) }
    {
        let around = path_around(self.judge.scopes)?;
        step_of(self.judge.env.alloc(), own, self.tree, &around)
    }
}

// The path of the innermost of these scopes.
fn path_around(scopes: &OpenScopes) -> Result<Path, AllocError>
    ensures { IfOk result (λ path. path ≡ path_around scopes.now) }
{
    match scopes.innermost() {
        Some(innermost) => innermost.path.clone(),
        None => Ok(Path::global()),
    }
}

// How many scopes are open around a unit.
fn row_depth(tree: &Tree, scopes: &OpenScopes) -> usize
    ensures { result ≡ row_depth tree.now scopes.now }
{
    match tree {
        Tree::Closing => depth(scopes).saturating_sub(1),
        _ => depth(scopes),
    }
}

// The least fault of the first step, where an opening has this one.
fn first_fault(tokens: &[Token], opening: Fault) -> Fault
    ensures { least_fault (token_faults tokens.now ++ opening ∷ []) ≡ Some result }
{
    match token_fault(tokens) {
        Some(fault) => lesser(fault, opening),
        None => opening,
    }
}

// The fault of a unit that has no tree, where so many of its tokens are left.
fn no_tree(tokens: &[Token], left: usize) -> Fault
    ensures { result ≡ fault_at (length tokens.now - left) NoTree }
{
    Fault {
        index: tokens.len().saturating_sub(left),
        code: Code::NoTree,
    }
}
