//! The details of a root: what its listing tells, as data, and where its names stand.

ghost use Rattle.std.specs.Prelude.{◌≡◌, ◌++◌, IfOk, OnOk, flat_map, map};
ghost use Rattle.idl_root.specs.Details.{details, entries_at, listed_entries};
ghost use Rattle.idl_root.specs.Held.{listed_at};
ghost use Rattle.idl_root.specs.Named.{named_as};
ghost use Rattle.idl_root.specs.NamePlaces.{AreNamesOf, AreNumbered};

use crate::compiling::judging::RootState;
use crate::compiling::naming::Naming;
use crate::compiling::places::{DeclaredPlace, PlacedName, RootNames, UsedName};
use crate::compiling::printing::Listed;
use idl_base::Seq;
use idl_entity::Path;
use idl_env::{Env, LentKey, entity_in};
use idl_event::Expansion;
use idl_finding::LineNumbers;
use idl_memo::Bank;
use idl_repo::details::{RowTree, tree_of};
use idl_unit::split;
use std::alloc::{AllocError, Global};

/// What is told of a name that has an id: its row, as a tree, and where it is declared, in order: there is one place at least
/// (`placing`).
pub struct DetailedEntry {
    pub tree: RowTree,
    pub places: Seq<DeclaredPlace>,
}

/// What is told of a root as data: of each name that has an id, in the order of the listing; where each name is declared, also one that
/// has no id, in order; and of each use of a name.
pub struct Details {
    pub entries: Seq<DetailedEntry>,
    pub declared: Seq<PlacedName>,
    pub uses: Seq<UsedName>,
}

impl Drop for DetailedEntry {
    fn drop(self) {
        let DetailedEntry {
            tree: _tree,
            places: _places,
        } = self;
    }
}

impl Drop for Details {
    fn drop(self) {
        let Details {
            entries: _entries,
            declared: _declared,
            uses: _uses,
        } = self;
    }
}

/// The details of what a root expands to, whose units are judged for that alone. A root with an error has those of what its other
/// units declare and use.
pub fn details_of(alloc: Global, expansion: &Expansion) -> Result<Details, AllocError>
    ensures { IfOk result (λ d. d ≡ details expansion.now) }
{
    let units = split(alloc, expansion)?;
    let first = RootState::new(alloc, Vec::new(alloc), units.as_slice().len())?;
    let naming = first.with_all_named(alloc, units.as_slice())?;
    let names = names_of(alloc, expansion, &naming)?;
    let judging = &naming.judging;
    let entries = entries_of(&judging.env, &names, judging.gathered.listed.as_slice())?;
    let (declared, used) = names.into_lists();
    Ok(Details {
        entries: Seq::from_vec(entries),
        declared: Seq::from_vec(declared),
        uses: Seq::from_vec(used),
    })
}

// The names of the units of an expansion.
fn names_of(
    alloc: Global,
    expansion: &Expansion,
    naming: &Naming<'_>,
) -> Result<RootNames, AllocError>
    ensures { IfOk result (λ names. AreNamesOf names expansion.now (map named_as naming.now.units.items)) }
{
    let events = LineNumbers::new(alloc, expansion)?;
    RootNames::of(alloc, &events, &naming.units)
}

// What is told of each of these names over an environment.
fn entries_of(
    env: &Env,
    names: &RootNames,
    listed: &[Listed<'_>],
) -> Result<Vec<DetailedEntry>, AllocError>
    requires { AreNumbered names.now.declared.items names.now.numbers }
    ensures { IfOk result (λ entries. entries.items
        ≡ flat_map (listed_entries env.now names.now.declared.items) (map listed_at listed.now)) }
{
    let mut entries = Vec::with_capacity(env.alloc(), listed.len())?;
    for name in listed {
        push_entry(&mut entries, env, names, &name.path)?;
    }
    Ok(entries)
}

// Puts in what is told of the name at a path, if it is declared.
fn push_entry(
    entries: &mut Vec<DetailedEntry>,
    env: &Env,
    names: &RootNames,
    path: &Path,
) -> Result<(), AllocError>
    requires { AreNumbered names.now.declared.items names.now.numbers }
    ensures { OnOk result
        (entries.new.items
        ≡ entries.old.items ++ entries_at env.now names.now.declared.items path.now) }
{
    let answer = env.answer_lent(&LentKey::of_entity(env.alloc(), path))?;
    if let Some(entity) = entity_in(answer) {
        let tree = tree_of(env, entity.get())?;
        let places = names.places(env.alloc(), path)?;
        entries.push(DetailedEntry { tree, places })?;
    }
    Ok(())
}
