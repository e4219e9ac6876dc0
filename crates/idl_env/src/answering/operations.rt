//! The operations and attributes of interfaces: those so far of the open scopes, and those that an interface has once it
//! is closed.

ghost use Rattle.std.specs.Prelude.{◌≡◌, ◌∷◌, ◌++◌, ◌||◌, ℕ, List, [], IfOk, OnOk, drop, reverse, true};
ghost use Rattle.idl_env.specs.Facts.{entity_in, entity_key, gathered, inherited, innermost, joined, more_inside, operations_among, operations_of};
ghost use Rattle.idl_env.specs.Stamps.{stamped_in};
ghost use Rattle.idl_entity.specs.Path.{path_eq};
ghost use Rattle.std.specs.List.{list_any};
ghost use Rattle.std.specs.Map.{keys_of};

use crate::additions::addition::Addition;
use crate::additions::facts::Facts;
use crate::answering::answer::entity_in;
use crate::answering::answers::Answers;
use crate::answering::queue::{join, join_one};
use crate::keys::lent_key::LentKey;
use idl_base::Seq;
use idl_entity::Path;
use idl_map::{SharedList, Table};
use std::alloc::{AllocError, Global};

/// What an interface with these bases inherits: the list of the first base, shared with it, and behind it those of the
/// others that are not yet there.
pub fn inherited(
    alloc: Global,
    answers: &Answers,
    bases: &[Path],
) -> Result<SharedList<Path>, AllocError>
    ensures { IfOk result (λ paths.
        paths ≡ inherited (stamped_in answers.now).at bases.now) }
{
    match bases {
        [] => Ok(SharedList::new()),
        [base] => operations_at(alloc, answers, base),
        [base, other] => {
            let others = operations_at(alloc, answers, other)?.to_vec(alloc)?;
            joined(
                alloc,
                operations_at(alloc, answers, base)?,
                others.as_slice(),
            )
        }
        [base, others @ ..] => {
            let found = operations_at(alloc, answers, base)?;
            gathered(alloc, answers, found, others)
        }
    }
}

// These operations and attributes, and those of bases that are not yet there.
fn gathered(
    alloc: Global,
    answers: &Answers,
    found: SharedList<Path>,
    bases: &[Path],
) -> Result<SharedList<Path>, AllocError>
    ensures { IfOk result (λ paths.
        paths ≡ gathered (stamped_in answers.now).at found bases.now) }
{
    let mut found = found;
    let mut there = Table::new(alloc);
    join(&mut there, found.to_vec(alloc)?.as_slice())?;
    for base in bases {
        let paths = operations_at(alloc, answers, base)?.to_vec(alloc)?;
        join_new(alloc, &mut found, &mut there, paths.as_slice())?;
    }
    Ok(found)
}

// These operations and attributes, and those of others that are not yet there.
fn joined(
    alloc: Global,
    found: SharedList<Path>,
    others: &[Path],
) -> Result<SharedList<Path>, AllocError>
    ensures { IfOk result (λ paths. paths ≡ joined found others.now) }
{
    let mut found = found;
    let mut there = Table::new(alloc);
    put_there(alloc, &mut there, found.to_vec(alloc)?.as_slice(), others)?;
    join_new(alloc, &mut found, &mut there, others)?;
    Ok(found)
}

// Puts those of the paths in that are among others, or all of them where they are no more than the others: so the fewer ones
// are held in a table, and the more are looked up in it.
fn put_there(
    alloc: Global,
    there: &mut Table<Path, ()>,
    found: &[Path],
    others: &[Path],
) -> Result<(), AllocError>
    requires { there.old ≡ [] }
    ensures { OnOk result
        ((p : List (List ℕ)) → list_any (path_eq p) others.now ≡ true
        → list_any (path_eq p) (keys_of there.new) ≡ list_any (path_eq p) found.now) }
{
    if found.len() <= others.len() {
        return join(there, found);
    }
    let mut asked = Table::new(alloc);
    join(&mut asked, others)?;
    join_asked(there, &asked, found)
}

// Puts those of the paths last that are asked for and not yet there.
fn join_asked(
    there: &mut Table<Path, ()>,
    asked: &Table<Path, ()>,
    paths: &[Path],
) -> Result<(), AllocError>
    ensures { OnOk result
        ((p : List (List ℕ)) → list_any (path_eq p) (keys_of asked.now) ≡ true
        → list_any (path_eq p) (keys_of there.new)
        ≡ (list_any (path_eq p) (keys_of there.old) || list_any (path_eq p) paths.now)) }
{
    for path in paths {
        if asked.contains(path) {
            join_one(there, path)?;
        }
    }
    Ok(())
}

// The operations and attributes of the closed interface at a path.
fn operations_at(
    alloc: Global,
    answers: &Answers,
    path: &Path,
) -> Result<SharedList<Path>, AllocError>
    ensures { IfOk result (λ paths.
        paths ≡ operations_of (entity_in ((stamped_in answers.now).at (entity_key path.now)))) }
{
    let key = LentKey::of_entity(alloc, path);
    match entity_in(answers.get_lent(&key)?) {
        Some(entity) => entity.get().operations(),
        None => Ok(SharedList::new()),
    }
}

// Puts those of the paths last that are not yet there, where a table tells of each whether it is there.
fn join_new(
    alloc: Global,
    found: &mut SharedList<Path>,
    there: &mut Table<Path, ()>,
    paths: &[Path],
) -> Result<(), AllocError>
    requires { (p : List (List ℕ)) → list_any (path_eq p) paths.now ≡ true
        → list_any (path_eq p) (keys_of there.old) ≡ list_any (path_eq p) found.old }
    ensures joined { OnOk result (found.new ≡ joined found.old paths.now) }
    ensures there { OnOk result
        ((p : List (List ℕ)) → list_any (path_eq p) (keys_of there.old) ≡ list_any (path_eq p) found.old
        → list_any (path_eq p) (keys_of there.new) ≡ list_any (path_eq p) found.new) }
{
    for path in paths {
        join_one_new(alloc, found, there, path)?;
    }
    Ok(())
}

// Puts the path last, unless it is there.
fn join_one_new(
    alloc: Global,
    found: &mut SharedList<Path>,
    there: &mut Table<Path, ()>,
    path: &Path,
) -> Result<(), AllocError>
    requires { list_any (path_eq path.now) (keys_of there.old) ≡ list_any (path_eq path.now) found.old }
    ensures joined { OnOk result (found.new ≡ joined found.old (path.now ∷ [])) }
    ensures there { OnOk result
        ((p : List (List ℕ)) → list_any (path_eq p) (keys_of there.old) ≡ list_any (path_eq p) found.old
        → list_any (path_eq p) (keys_of there.new) ≡ list_any (path_eq p) found.new) }
{
    if there.contains(path) {
        return Ok(());
    }
    there.push(path.clone()?, ())?;
    found.push(alloc, path.clone()?)?;
    Ok(())
}

/// The innermost ones.
pub fn innermost(inside: &[Seq<Path>]) -> &[Path]
    ensures { result.now ≡ innermost (reverse inside.now) }
{
    match inside.last() {
        Some(own) => own.as_slice(),
        None => &[],
    }
}

/// The innermost ones with those that are declared.
pub fn add_inside(inside: &mut Vec<Seq<Path>>, facts: &Facts) -> Result<(), AllocError>
    ensures { OnOk result
        (reverse inside.new.items
        ≡ more_inside (reverse inside.old.items) (operations_among facts.now.additions)) }
{
    if !facts.has_operations() {
        return Ok(());
    }
    let Some(own) = inside.pop() else {
        return Ok(());
    };
    let mut own = own.into_vec();
    put_operations(&mut own, facts)?;
    inside.push(Seq::from_vec(own))?;
    Ok(())
}

// Puts the paths of the operations and attributes last that are declared.
fn put_operations(own: &mut Vec<Path>, facts: &Facts) -> Result<(), AllocError>
    ensures { OnOk result (own.new.items ≡ own.old.items ++ operations_among facts.now.additions) }
{
    for index in 0..facts.len() {
        let Some(addition) = facts.addition(index) else {
            continue;
        };
        put_operation(own, addition)?;
    }
    Ok(())
}

// Puts the path of what an addition declares last, if it is an operation or attribute.
fn put_operation(own: &mut Vec<Path>, addition: &Addition) -> Result<(), AllocError>
    ensures { OnOk result (own.new.items ≡ own.old.items ++ operations_among (addition.now ∷ [])) }
{
    if let Some(path) = addition.operation() {
        own.push(path.clone()?)?;
    }
    Ok(())
}

/// Puts copies of the paths last.
pub fn put_last(alloc: Global, own: &mut SharedList<Path>, paths: &[Path]) -> Result<(), AllocError>
    ensures { OnOk result (own.new ≡ own.old ++ paths.now) }
{
    for path in paths {
        own.push(alloc, path.clone()?)?;
    }
    Ok(())
}

/// All but the innermost.
pub fn leave(inside: &mut Vec<Seq<Path>>)
    ensures { reverse inside.new.items ≡ drop 1 (reverse inside.old.items) }
{
    let _own = inside.pop();
}
