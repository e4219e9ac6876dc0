//! What stands under a name where it is declared.

ghost use Rattle.std.specs.Prelude.{◌≡◌, ℕ, IfOk, OnOk, is_some, map};
ghost use Rattle.std.specs.Option.{option_copied};
ghost use Rattle.std.specs.List.{list_any};
ghost use Rattle.idl_check.specs.tables.Declaring.{inherited, is_any, standing};
ghost use Rattle.idl_memo.specs.Query.{Done, and_then, noted, run};
ghost use Rattle.idl_lex.specs.kinds.Keywords.{folded};
ghost use Rattle.idl_entity.specs.Entity.{is_operation};
ghost use Rattle.idl_env.specs.Facts.{answers, entity_in, entity_key, over};
ghost use Rattle.idl_env.specs.keys.Key.{key_eq};
ghost use Rattle.idl_scope.specs.Lookup.{bases_of, under};
ghost use Rattle.idl_entity.specs.Path.{name_of, scope_of};
ghost use Rattle.idl_env.specs.declared.keys.key.Key.TheVariants.{Introduced};
ghost use Rattle.idl_env.specs.Turns.{HasTurnsFor};

use crate::ids::identifying::{Ids, ids_of};
use idl_base::Shared;
use idl_entity::{Entity, Path};
use idl_env::{Env, LentKey, Scope};
use idl_memo::Journal;
use idl_scope::View;
use std::alloc::AllocError;

/// What stands under a folded name in the scope in which it is declared.
#[derive(Drop)]
pub struct Standing {
    /// What it is declared as already.
    pub there: Option<Shared<Entity>>,
    /// Whether a use has introduced it there.
    pub is_used: bool,
    /// Whether an operation or attribute is reached under it through bases.
    pub brings_operation: bool,
    /// Whether anything is.
    pub is_reached: bool,
    /// What is told of its id, if it has one.
    pub ids: Option<Ids>,
}

/// What stands under the name of an entity in the scope in which it is declared.
pub fn standing_of(
    view: View<'_>,
    log: &mut Journal<Env>,
    scope: &Scope,
    new: &Entity,
) -> Result<Standing, AllocError>
    requires { scope_of new.now.path ≡ scope.now.path }
    ensures { IfOk result (λ found. (turns : ℕ)
        → HasTurnsFor view.entry.env.now view.entry.own.now.additions turns
        → (found, log.new)
        ≡ run key_eq (under view.entry.own.now.additions (standing turns scope.now new.now))
        (answers view.entry.env.now) log.old) }
{
    let there = there(view, log, new.path())?;
    let is_used = is_used(view, log, scope, new.path())?;
    let brought = brought(view, log, scope, new.path())?;
    let ids = ids_of(view, log, &there, new)?;
    Ok(Standing {
        there,
        is_used,
        brings_operation: brought.0,
        is_reached: brought.1,
        ids,
    })
}

// What the name at a path is declared as already.
fn there(
    view: View<'_>,
    log: &mut Journal<Env>,
    path: &Path,
) -> Result<Option<Shared<Entity>>, AllocError>
    ensures there { IfOk result (λ e.
        let key = entity_key path.now in
        e ≡ entity_in (over view.entry.own.now.additions key (answers view.entry.env.now key))) }
    ensures logged { OnOk result
        (log.new
        ≡ noted key_eq (answers view.entry.env.now) log.old (entity_key path.now)) }
{
    copied(view.standing_at(log, path)?)
}

// The entity, if there is one.
fn copied(entity: Option<&Shared<Entity>>) -> Result<Option<Shared<Entity>>, AllocError>
    ensures { IfOk result (λ copy. copy ≡ option_copied entity.entry) }
{
    match entity {
        Some(found) => Ok(Some(found.clone()?)),
        None => Ok(None),
    }
}

// Whether a use has introduced the name at a path into a body.
fn is_used(
    view: View<'_>,
    log: &mut Journal<Env>,
    scope: &Scope,
    path: &Path,
) -> Result<bool, AllocError>
    ensures used { IfOk result (λ b.
        let key = Introduced (folded (name_of path.now)) scope.now.path scope.now.body in
        b ≡ is_some (over view.entry.own.now.additions key (answers view.entry.env.now key))) }
    ensures logged { OnOk result
        (log.new
        ≡ noted key_eq (answers view.entry.env.now) log.old
        (Introduced (folded (name_of path.now)) scope.now.path scope.now.body)) }
{
    let key = LentKey::introduced(view.env.alloc(), path, &scope.path, scope.body);
    let before = log.ask_lent(&key, view.env)?;
    match view.own.get(&key)? {
        Some(_addition) => Ok(true),
        None => Ok(before.is_some()),
    }
}

// Whether an operation or attribute is reached under the name at a path through the scope's bases, and whether anything is.
fn brought(
    view: View<'_>,
    log: &mut Journal<Env>,
    scope: &Scope,
    path: &Path,
) -> Result<(bool, bool), AllocError>
    ensures { IfOk result (λ b. (turns : ℕ)
        → HasTurnsFor view.entry.env.now view.entry.own.now.additions turns
        → (b, log.new)
        ≡ run key_eq
        (under view.entry.own.now.additions
        (and_then (inherited turns scope.now (folded (name_of path.now)))
        (λ found. Done (list_any is_operation found, is_any found))))
        (answers view.entry.env.now) log.old) }
{
    if !scope.kind.inherits() {
        return Ok((false, false));
    }
    let entity = view.standing_at(log, &scope.path)?;
    let name = path.folded(view.env.alloc())?;
    let found = view.reached(log, &name, bases_of(entity))?;
    Ok((has_operation(found.as_slice()), is_any(found.as_slice())))
}

// The bases of an entity that count.
fn bases_of<'a>(entity: Option<&'a Shared<Entity>>) -> &'a [Path]
    ensures { result.now ≡ bases_of (option_copied entity.entry) }
{
    match entity {
        Some(shared) if shared.get().stage().has_bases() => shared.get().bases(),
        _ => &[],
    }
}

// Whether one of them is an operation or attribute.
fn has_operation(entities: &[&Shared<Entity>]) -> bool
    ensures { result ≡ list_any is_operation (map (λ e. e.now) entities.now) }
{
    for entity in entities {
        if entity.get().is_operation() {
            return true;
        }
    }
    false
}

// Whether there is any.
fn is_any(entities: &[&Shared<Entity>]) -> bool
    ensures { result ≡ is_any (map (λ e. e.now) entities.now) }
{
    let [_first, ..] = entities else {
        return false;
    };
    true
}
