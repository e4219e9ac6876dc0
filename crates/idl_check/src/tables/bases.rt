//! The bases of an interface that were named so far.

ghost use Rattle.std.specs.Prelude.{◌≡◌, ◌&&◌, ◌∷◌, [], ℕ, List, IfOk, OnOk, fold, is_some, not, true};
ghost use Rattle.std.specs.List.{list_any};
ghost use Rattle.std.specs.Map.{keys_of, lookup};
ghost use Rattle.std.specs.Str.{bytes_eq};
ghost use Rattle.idl_check.specs.tables.Codes.{codes_in};
ghost use Rattle.idl_check.specs.tables.Using.{base_table, no_bases, with_base, with_operation};
ghost use Rattle.idl_check.specs.tables.Rules.{is_another};
ghost use Rattle.idl_env.specs.Facts.{joined};
ghost use Rattle.idl_entity.specs.Path.{path_eq};
ghost use Rattle.idl_unit.specs.TokenRules.{first};

use crate::tables::codes::first_code;
use idl_base::{Bytes, Seq};
use idl_entity::{Entity, Path, Stage};
use idl_fault::Code;
use idl_map::{SharedList, Table};
use std::alloc::{AllocError, Global};
use std::marker::Model;

/// The bases that were named so far. Most units name none, which takes no memory.
#[derive(Drop)]
pub struct Bases {
    named: Option<Box<BaseTables>>,
}

// The paths of the bases, and those of the operations and attributes that they bring, by the folded
// names: those of the last two bases wait, as the lists that the bases have, until a third is named.
struct BaseTables {
    paths: Table<Path, ()>,
    operations: Table<Bytes, Path>,
    before_last: SharedList<Path>,
    last: SharedList<Path>,
}

impl Drop for BaseTables {
    fn drop(self) {
        let BaseTables {
            paths: _paths,
            operations: _operations,
            before_last: _before_last,
            last: _last,
        } = self;
    }
}

impl Model for Bases {
    ghost use Rattle.idl_check.specs.Apart.{boxed_or};
    ghost use Rattle.idl_check.specs.tables.Using.{Bases as NamedBases, no_bases};

    ghost Value = { NamedBases };

    ghost view = { λ bases. boxed_or no_bases bases.named };
}

impl Model for BaseTables {
    ghost use Rattle.std.specs.Map.{keys_of};
    ghost use Rattle.std.specs.Prelude.{fold};
    ghost use Rattle.idl_check.specs.tables.Using.{Bases as NamedBases, with_operation};

    ghost Value = { NamedBases };

    ghost view = { λ named. record {
      paths = keys_of named.paths;
      operations =
          fold with_operation (fold with_operation named.operations named.before_last) named.last;
    } };
}

impl Bases {
    /// None. It takes no memory.
    pub fn new() -> Bases
        ensures { result ≡ no_bases }
    {
        Bases { named: None }
    }

    /// The code of the least fault of a base of an interface, which is local or not.
    pub fn code(
        &mut self,
        alloc: Global,
        is_local: bool,
        base: &Entity,
    ) -> Result<Option<Code>, AllocError>
        ensures code { IfOk result (λ code.
            code ≡ first (codes_in (base_table is_local self.old base.now))) }
        ensures same { OnOk result (self.new ≡ self.old) }
    {
        let mut named = self.take(alloc)?;
        let code = named.code(alloc, is_local, base)?;
        self.named = Some(named);
        Ok(code)
    }

    /// One base more.
    pub fn add(&mut self, alloc: Global, base: &Entity) -> Result<(), AllocError>
        ensures { OnOk result (self.new ≡ with_base base.now self.old) }
    {
        let mut named = self.take(alloc)?;
        named.add(alloc, base)?;
        self.named = Some(named);
        Ok(())
    }

    /// Their paths, in order.
    pub fn paths(&self, alloc: Global) -> Result<Seq<Path>, AllocError>
        ensures { IfOk result (λ paths. paths ≡ self.now.paths) }
    {
        match &self.named {
            Some(named) => named.paths(alloc),
            None => Ok(Seq::new(alloc)),
        }
    }

    // Those so far.
    fn take(&mut self, alloc: Global) -> Result<Box<BaseTables>, AllocError>
        ensures { IfOk result (λ named. named.value ≡ self.old) }
    {
        match self.named.take() {
            Some(named) => Ok(named),
            None => Ok(Box::new(alloc, BaseTables::new(alloc))?),
        }
    }
}

impl BaseTables {
    // None. It takes no memory.
    fn new(alloc: Global) -> BaseTables
        ensures { result ≡ no_bases }
    {
        BaseTables {
            paths: Table::new(alloc),
            operations: Table::new(alloc),
            before_last: SharedList::new(),
            last: SharedList::new(),
        }
    }

    // The code of the least fault of a base of an interface, which is local or not.
    fn code(
        &mut self,
        alloc: Global,
        is_local: bool,
        base: &Entity,
    ) -> Result<Option<Code>, AllocError>
        ensures code { IfOk result (λ code.
            code ≡ first (codes_in (base_table is_local self.old base.now))) }
        ensures same { OnOk result (self.new ≡ self.old) }
    {
        let brings_another = self.brings_another(alloc, base)?;
        Ok(first_code(&[
            (base.stage() != Stage::Complete, Code::IncompleteBase),
            (contains(&self.paths, base.path()), Code::RepeatedBase),
            (brings_another, Code::DeclaredAgain),
            (is_local_for(is_local, base), Code::LocalBase),
        ]))
    }

    // One base more.
    fn add(&mut self, alloc: Global, base: &Entity) -> Result<(), AllocError>
        ensures { OnOk result (self.new ≡ with_base base.now self.old) }
    {
        bring(alloc, &mut self.operations, &mut self.before_last)?;
        self.before_last = self.last.clone()?;
        self.last = base.operations()?;
        add_path(&mut self.paths, base.path())
    }

    // Whether a base brings an operation or attribute that stands beside another one.
    fn brings_another(&mut self, alloc: Global, base: &Entity) -> Result<bool, AllocError>
        ensures brings { IfOk result (λ b.
            b ≡ list_any (is_another self.old.operations) base.now.operations) }
        ensures same { OnOk result (self.new ≡ self.old) }
    {
        bring(alloc, &mut self.operations, &mut self.before_last)?;
        if self.operations.is_empty() {
            return brings_beside(alloc, &self.last, base);
        }
        bring(alloc, &mut self.operations, &mut self.last)?;
        let paths = base.operations()?.to_vec(alloc)?;
        any_another(alloc, &self.operations, paths.as_slice())
    }

    // Their paths, in order.
    fn paths(&self, alloc: Global) -> Result<Seq<Path>, AllocError>
        ensures { IfOk result (λ paths. paths ≡ self.now.paths) }
    {
        let paths = listed(alloc, &self.paths)?;
        Ok(Seq::from_vec(paths))
    }
}

// Puts those that wait into the table.
fn bring(
    alloc: Global,
    operations: &mut Table<Bytes, Path>,
    waiting: &mut SharedList<Path>,
) -> Result<(), AllocError>
    ensures operations { OnOk result
        (operations.new ≡ fold with_operation operations.old waiting.old) }
    ensures waiting { OnOk result (waiting.new ≡ []) }
{
    let paths = waiting.to_vec(alloc)?;
    add_operations(alloc, operations, paths.as_slice())?;
    *waiting = SharedList::new();
    Ok(())
}

// Whether a base brings an operation or attribute that stands beside another one of these.
fn brings_beside(
    alloc: Global,
    others: &SharedList<Path>,
    base: &Entity,
) -> Result<bool, AllocError>
    ensures { IfOk result (λ b.
        b ≡ list_any (is_another (fold with_operation [] others.now)) base.now.operations) }
{
    if *others == SharedList::new() {
        return Ok(false);
    }
    let others = others.to_vec(alloc)?;
    let paths = base.operations()?.to_vec(alloc)?;
    let mut near = Table::new(alloc);
    add_near(alloc, &mut near, others.as_slice(), paths.as_slice())?;
    any_another(alloc, &near, paths.as_slice())
}

// These operations and attributes are brought that have the names of others, or all of them where they are no more than the
// others: so the fewer ones are held in a table, and the more are looked up in it.
fn add_near(
    alloc: Global,
    operations: &mut Table<Bytes, Path>,
    paths: &[Path],
    others: &[Path],
) -> Result<(), AllocError>
    ensures { OnOk result
        ((n : List ℕ) → is_some (lookup (bytes_eq n) (fold with_operation [] others.now)) ≡ true
        → lookup (bytes_eq n) operations.new
        ≡ lookup (bytes_eq n) (fold with_operation operations.old paths.now)) }
{
    if paths.len() <= others.len() {
        add_operations(alloc, operations, paths)?;
        return Ok(());
    }
    let mut asked = Table::new(alloc);
    add_operations(alloc, &mut asked, others)?;
    add_asked(alloc, operations, &asked, paths)?;
    Ok(())
}

// Those of the operations and attributes at these paths are brought too whose names are asked for.
fn add_asked(
    alloc: Global,
    operations: &mut Table<Bytes, Path>,
    asked: &Table<Bytes, Path>,
    paths: &[Path],
) -> Result<(), AllocError>
    ensures { OnOk result
        ((n : List ℕ) → is_some (lookup (bytes_eq n) asked.now) ≡ true
        → lookup (bytes_eq n) operations.new
        ≡ lookup (bytes_eq n) (fold with_operation operations.old paths.now)) }
{
    for path in paths {
        let name = path.folded(alloc)?;
        if asked.contains(&name) {
            operations.insert(name, path.clone()?)?;
        }
    }
    Ok(())
}

// Whether one of these stands beside another operation or attribute.
fn any_another(
    alloc: Global,
    operations: &Table<Bytes, Path>,
    paths: &[Path],
) -> Result<bool, AllocError>
    ensures { IfOk result (λ b. b ≡ list_any (is_another operations.now) paths.now) }
{
    for path in paths {
        if is_another(alloc, operations, path)? {
            return Ok(true);
        }
    }
    Ok(false)
}

// Whether another operation or attribute was brought under the name of this one.
fn is_another(
    alloc: Global,
    operations: &Table<Bytes, Path>,
    path: &Path,
) -> Result<bool, AllocError>
    ensures { IfOk result (λ b. b ≡ is_another operations.now path.now) }
{
    let name = path.folded(alloc)?;
    match operations.get(&name) {
        Some(other) => Ok(*path != *other),
        None => Ok(false),
    }
}

// Whether a path is in a table.
fn contains(paths: &Table<Path, ()>, path: &Path) -> bool
    ensures { result ≡ list_any (path_eq path.now) (keys_of paths.now) }
{
    paths.contains(path)
}

// Whether a base is local, and the interface isn't.
fn is_local_for(is_local: bool, base: &Entity) -> bool
    ensures { result ≡ (base.now.is_local && not is_local) }
{
    base.is_local() && !is_local
}

// The paths of a table in order.
fn listed(alloc: Global, table: &Table<Path, ()>) -> Result<Vec<Path>, AllocError>
    ensures { IfOk result (λ paths. paths.items ≡ keys_of table.now) }
{
    let mut paths = Vec::new(alloc);
    for index in 0..table.len() {
        let Some((path, ())) = table.get_index(index) else {
            continue;
        };
        paths.push(path.clone()?)?;
    }
    Ok(paths)
}

// The operations and attributes at these paths are brought too.
fn add_operations(
    alloc: Global,
    operations: &mut Table<Bytes, Path>,
    paths: &[Path],
) -> Result<(), AllocError>
    ensures { OnOk result (operations.new ≡ fold with_operation operations.old paths.now) }
{
    for path in paths {
        let name = path.folded(alloc)?;
        operations.insert(name, path.clone()?)?;
    }
    Ok(())
}

// A path more, unless it is there.
fn add_path(paths: &mut Table<Path, ()>, path: &Path) -> Result<(), AllocError>
    ensures { OnOk result (keys_of paths.new ≡ joined (keys_of paths.old) (path.now ∷ [])) }
{
    if paths.contains(path) {
        return Ok(());
    }
    paths.push(path.clone()?, ())?;
    Ok(())
}
