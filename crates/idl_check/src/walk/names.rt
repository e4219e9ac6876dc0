//! The names of a unit, and what each of them denotes.

ghost use Rattle.std.specs.Prelude.{◌≡◌, ◌≤◌, ◌+◌, ◌++◌, ◌∷◌, [], ℕ, IfOk, OnOk, Some, map};
ghost use Rattle.std.specs.Option.{option_copied, option_map};
ghost use Rattle.idl_check.specs.walk.Held.{HasRoomFor, held, visited};
ghost use Rattle.idl_check.specs.walk.Names.{named, names_at, site_names, token_names, tree_names, unit_names};
ghost use Rattle.idl_check.specs.declared.walk.names.NameRole.TheVariants as roles;
ghost use Rattle.idl_memo.specs.Query.{outcome};
ghost use Rattle.idl_env.specs.Facts.{answers};
ghost use Rattle.idl_env.specs.Turns.{most_turns, turns_for};
ghost use Rattle.idl_parts.specs.Item.{item_at, item_length};
ghost use Rattle.idl_tree.specs.Lexeme.{lexemes};
ghost use Rattle.idl_tree.specs.Unit.{spell};

use crate::walk::judge::Judge;
use crate::walk::placing::place_fault;
use crate::walk::scratch::Scratch;
use crate::walk::walker::Walker;
use idl_base::Shared;
use idl_entity::{Entity, Path};
use idl_env::{DigestedKey, Env, OpenScopes, scopes_in};
use idl_memo::{Bank, Journal};
use idl_parts::{UnitPart, sites};
use idl_tree::{Tree, last_at};
use idl_unit::UnitText;
use std::alloc::AllocError;

/// Whether a name is declared or used where it stands.
#[derive(Clone, Copy)]
pub enum NameRole {
    Declared,
    Used,
}

/// A name of a unit that denotes something.
#[derive(Drop)]
pub struct NamedSite {
    /// The number of the name's last token.
    pub index: usize,
    pub role: NameRole,
    /// The path of what it denotes.
    pub path: Path,
}

/// The names of a unit, in the order of its tokens, each with what it denotes: those through the
/// token of the unit's fault, where it has one.
///
/// A unit that is refused before its names are looked at has none, and neither has a pragma.
pub fn names_of(
    scratch: &mut Scratch,
    env: &Env,
    text: &UnitText,
) -> Result<Vec<NamedSite>, AllocError>
    ensures { IfOk result (λ names.
        names.items ≡ unit_names most_turns (answers env.now) text.now) }
{
    env.bounds_turns();
    names_in(scratch, env, text)
}

// The same, with as many turns as the facts need, or more.
fn names_in(scratch: &mut Scratch, env: &Env, text: &UnitText) -> Result<Vec<NamedSite>, AllocError>
    ensures { IfOk result (λ names. (turns : ℕ) → turns_for env.now ≤ turns →
        names.items ≡ unit_names turns (answers env.now) text.now) }
{
    let none = OpenScopes::none();
    let scopes = scopes_in(env.answer(&DigestedKey::cursor()), &none);
    match text {
        UnitText::Tokens(run) => {
            let judge = Judge {
                env,
                tokens: run.as_slice(),
                scopes,
            };
            judge.names(scratch)
        }
        UnitText::Pragma(_tokens, _inside) => Ok(Vec::new(env.alloc())),
    }
}

impl<'a> Judge<'a> {
    // The names of the unit.
    fn names(self, scratch: &mut Scratch) -> Result<Vec<NamedSite>, AllocError>
        ensures { IfOk result (λ names. (turns : ℕ) → turns_for self.entry.env.now ≤ turns →
            names.items
            ≡ token_names turns (answers self.entry.env.now) self.entry.tokens.now
            self.entry.scopes.now) }
    {
        match self.tree()? {
            Ok(tree) => self.names_of_sites(scratch, &tree),
            Err(_fault) => Ok(Vec::new(self.env.alloc())),
        }
    }

    // The names of a unit that has this tree.
    fn names_of_sites(
        self,
        scratch: &mut Scratch,
        tree: &Tree,
    ) -> Result<Vec<NamedSite>, AllocError>
        requires { lexemes self.tokens.now ≡ spell tree.now }
        ensures { IfOk result (λ names. (turns : ℕ) → turns_for self.entry.env.now ≤ turns →
            names.items
            ≡ tree_names turns (answers self.entry.env.now) self.entry.scopes.now tree.now) }
    {
        let sites = sites(self.env.alloc(), tree)?;
        let known = place_fault(tree, self.scopes);
        let mut names = Vec::new(self.env.alloc());
        let mut walker = Walker::new(self.env, self.scopes, scratch, known);
        walker.name_sites(sites.as_slice(), &mut names)?;
        Ok(names)
    }
}

impl<'a> Walker<'a> {
    // Walks over sites, and puts the names there behind those before.
    fn name_sites(
        &mut self,
        sites: &[UnitPart<'_>],
        names: &mut Vec<NamedSite>,
    ) -> Result<(), AllocError>
        requires { HasRoomFor (held self.old) (map item_at sites.now) }
        ensures { OnOk result ((turns : ℕ) → turns_for self.old.env.now ≤ turns →
            names.new.items
            ≡ names.old.items
            ++ site_names turns (answers self.old.env.now) (map item_at sites.now)
            (held self.old)) }
    {
        for site in sites {
            if self.is_known(self.at) {
                return Ok(());
            }
            self.name_site(site, names)?;
        }
        Ok(())
    }

    // Visits a site, and puts the name there behind those before.
    fn name_site(
        &mut self,
        site: &UnitPart<'_>,
        names: &mut Vec<NamedSite>,
    ) -> Result<(), AllocError>
        requires { HasRoomFor (held self.old) (item_at site.now ∷ []) }
        ensures visited { OnOk result ((turns : ℕ) → turns_for self.old.env.now ≤ turns →
            held self.new
            ≡ outcome (visited turns (item_at site.now) (held self.old))
            (answers self.old.env.now)) }
        ensures names { OnOk result
            (names.new.items
            ≡ names.old.items ++ names_at (item_at site.now) (held self.old) (held self.new)) }
        ensures at { OnOk result (self.new.at ≡ self.old.at + item_length (item_at site.now)) }
        ensures env { OnOk result (self.new.env.now ≡ self.old.env.now) }
    {
        let index = self.at;
        let count = self.found.len();
        self.visit(&mut Journal::told(), site)?;
        match *site {
            UnitPart::Declared(_way, _name) => push_declared(names, index, &self.last),
            UnitPart::Used(_way, name) => {
                let found = self.found.as_slice().get(count);
                push_used(names, last_at(index, name), found)
            }
            _ => Ok(()),
        }
    }
}

// Puts a declared name behind others: it denotes what was declared last.
fn push_declared(
    names: &mut Vec<NamedSite>,
    index: usize,
    last: &Option<Shared<Entity>>,
) -> Result<(), AllocError>
    ensures { OnOk result
        (names.new.items
        ≡ names.old.items
        ++ named roles.Declared index (option_map (λ e. e.path) last.now)) }
{
    let Some(entity) = last else {
        return Ok(());
    };
    names.push(NamedSite {
        index,
        role: NameRole::Declared,
        path: entity.get().path().clone()?,
    })?;
    Ok(())
}

// Puts a used name behind others, if it denotes anything.
fn push_used(
    names: &mut Vec<NamedSite>,
    index: usize,
    found: Option<&Path>,
) -> Result<(), AllocError>
    ensures { OnOk result
        (names.new.items
        ≡ names.old.items ++ named roles.Used index (option_copied found.entry)) }
{
    let Some(path) = found else {
        return Ok(());
    };
    names.push(NamedSite {
        index,
        role: NameRole::Used,
        path: path.clone()?,
    })?;
    Ok(())
}
