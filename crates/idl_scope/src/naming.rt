//! What a scoped name denotes.

ghost use Rattle.std.specs.Prelude.{◌≡◌, ◌≤◌, ◌∷◌, [], ℕ, IfOk, length};
ghost use Rattle.idl_memo.specs.Query.{run};
ghost use Rattle.idl_env.specs.Facts.{answers};
ghost use Rattle.idl_scope.specs.Finds.{those};
ghost use Rattle.idl_env.specs.keys.Key.{key_eq};
ghost use Rattle.idl_scope.specs.Lookup.{before_module, decided, declares_at, denoted, extent, first_part, further, has, judged, named, part_of, placed, reach_of, searched, under, IfSettled};
ghost use Rattle.idl_scope.specs.Meaning.{Denotes, Reaches, entity_found, seen};
ghost use Rattle.idl_env.specs.Turns.{HasTurnsFor};
ghost use Rattle.idl_lex.specs.kinds.Keywords.{folded};

use crate::fault::{NameCode, NameFault};
use crate::finds::Finds;
use crate::found::{Found, Reach};
use crate::lookup::{ScopeAt, View};
use idl_base::{Bytes, Shared};
use idl_entity::idl_tree::ScopedName;
use idl_entity::{Entity, Kind, Path};
use idl_env::{Env, Facts, OpenScopes};
use idl_memo::Journal;
use std::alloc::AllocError;

/// Where a name stands.
#[derive(Clone, Copy)]
pub struct Standpoint<'a> {
    /// What the unit's earlier tokens add.
    pub own: &'a Facts,
    /// The scopes around the name, the innermost first and the global one last.
    pub cursor: &'a OpenScopes,
}

/// What a scoped name denotes, and into which scopes its use introduces it. The keys asked are logged; after want of memory
/// nothing is said of the log.
///
/// The definition of a lookup bounds the turns of a walk over bases: under each bound that the facts and the unit's earlier tokens
/// need at most, the same is given and logged.
pub fn resolve(
    env: &Env,
    log: &mut Journal<Env>,
    place: Standpoint<'_>,
    name: &ScopedName,
) -> Result<Found, NameFault>
    ensures denotes { IfSettled result (λ r.
        Denotes (seen place.entry.own.now.additions env.now) place.entry.cursor.now name.now
        (entity_found r)) }
    ensures introduces { IfOk result (λ found.
        Reaches (seen place.entry.own.now.additions env.now) place.entry.cursor.now name.now
        found.reach) }
    ensures asked { IfSettled result (λ r.
        (turns : ℕ) → HasTurnsFor env.now place.entry.own.now.additions turns →
        (r, log.new)
        ≡ run key_eq
        (under place.entry.own.now.additions (denoted turns place.entry.cursor.now name.now))
        (answers env.now) log.old) }
{
    let view = View {
        env,
        own: place.own,
    };
    view.denoted(log, place.cursor, name)?
}

impl<'a> View<'a> {
    // What a scoped name denotes, and how far its use introduces it.
    fn denoted(
        self,
        log: &mut Journal<Env>,
        cursor: &OpenScopes,
        name: &ScopedName,
    ) -> Result<Result<Found, NameFault>, AllocError>
        ensures { IfOk result (λ r.
            (turns : ℕ) → usize.MAX ≤ turns →
            (r, log.new)
            ≡ run key_eq
            (under self.entry.own.now.additions (denoted turns cursor.now name.now))
            (answers self.entry.env.now) log.old) }
    {
        let (first, inside) = self.first_part(log, cursor, name)?;
        let first = match first {
            Ok(first) => first,
            Err(fault) => return Ok(Err(fault)),
        };
        match self.further(log, first, name.rest.as_slice())? {
            Ok(last) => {
                let entity = last.clone()?;
                let reach = reach_of(name, cursor, inside, first.get());
                Ok(Ok(Found { entity, reach }))
            }
            Err(fault) => Ok(Err(fault)),
        }
    }

    // What the first part of a name denotes, and how many scopes are inside the one that decides it.
    fn first_part(
        self,
        log: &mut Journal<Env>,
        cursor: &OpenScopes,
        name: &ScopedName,
    ) -> Result<(Result<&'a Shared<Entity>, NameFault>, usize), AllocError>
        ensures { IfOk result (λ r.
            (turns : ℕ) → usize.MAX ≤ turns →
            ((named r.0, r.1), log.new)
            ≡ run key_eq
            (under self.entry.own.now.additions (first_part turns cursor.now name.now))
            (answers self.entry.env.now) log.old) }
    {
        let (found, inside) = self.first_found(log, cursor, name)?;
        Ok((judged(0, name.first.as_bytes(), &found), inside))
    }

    // What there is under the first part of a name, and how many scopes are inside the one that has it.
    fn first_found(
        self,
        log: &mut Journal<Env>,
        cursor: &OpenScopes,
        name: &ScopedName,
    ) -> Result<(Finds<'a>, usize), AllocError>
        ensures { IfOk result (λ found.
            (turns : ℕ) → usize.MAX ≤ turns →
            ((those found.0, found.1), log.new)
            ≡ run key_eq (under self.entry.own.now.additions
            (decided turns 0 (searched name.now.is_global cursor.now) (folded name.now.first)))
            (answers self.entry.env.now) log.old) }
    {
        let folded = name.first.to_folded(self.env.alloc())?;
        if name.is_global {
            let path = Path::global();
            let place = ScopeAt {
                kind: Kind::Module,
                path: &path,
            };
            return Ok((self.found_in(log, place, &folded)?, 0));
        }
        self.found_outward(log, cursor, &folded)
    }

    // What the part with a number denotes in the entity before it.
    fn next_part(
        self,
        log: &mut Journal<Env>,
        before: &Entity,
        part: usize,
        name: &Bytes,
    ) -> Result<Result<&'a Shared<Entity>, NameFault>, AllocError>
        ensures { IfOk result (λ r.
            (turns : ℕ) → usize.MAX ≤ turns →
            (named r, log.new)
            ≡ run key_eq (under self.entry.own.now.additions
            (part_of part name.now (has turns before.now.kind before.now.path (folded name.now))))
            (answers self.entry.env.now) log.old) }
    {
        let folded = name.to_folded(self.env.alloc())?;
        let place = ScopeAt {
            kind: before.kind(),
            path: before.path(),
        };
        let found = self.found_in(log, place, &folded)?;
        Ok(judged(part, name.as_bytes(), &found))
    }

    // What the parts behind the first denote.
    fn further(
        self,
        log: &mut Journal<Env>,
        first: &'a Shared<Entity>,
        names: &[Bytes],
    ) -> Result<Result<&'a Shared<Entity>, NameFault>, AllocError>
        ensures { IfOk result (λ r.
            (turns : ℕ) → usize.MAX ≤ turns →
            (named r, log.new)
            ≡ run key_eq
            (under self.entry.own.now.additions (further turns 0 first.now names.now))
            (answers self.entry.env.now) log.old) }
    {
        let mut entity = first;
        for (part, name) in names.iter().enumerate() {
            if !entity.get().kind().is_scope() {
                return Ok(Err(NameFault::At(NameCode::NoScope, part)));
            }
            match self.next_part(log, entity.get(), part + 1, name)? {
                Ok(next) => entity = next,
                Err(fault) => return Ok(Err(fault)),
            }
        }
        Ok(Ok(entity))
    }
}

// The one entity, spelled so, or the fault at the part with a number.
fn judged<'a>(part: usize, name: &[u8], found: &Finds<'a>) -> Result<&'a Shared<Entity>, NameFault>
    ensures { named result ≡ placed part (judged name.now (those found.now)) }
{
    match found {
        Finds::Own(entity) => spelled(part, name, *entity),
        Finds::Reached(found) => match found.as_slice() {
            [] => Err(NameFault::At(NameCode::Undeclared, part)),
            [entity] => spelled(part, name, *entity),
            _ => Err(NameFault::At(NameCode::Ambiguous, part)),
        },
    }
}

// The entity, if it is spelled so.
fn spelled<'a>(
    part: usize,
    name: &[u8],
    entity: &'a Shared<Entity>,
) -> Result<&'a Shared<Entity>, NameFault>
    ensures { named result ≡ placed part (judged name.now (entity.now ∷ [])) }
{
    if entity.get().path().name() == name {
        Ok(entity)
    } else {
        Err(NameFault::At(NameCode::OtherSpelling, part))
    }
}

// How far the use of a name introduces its first part, which denotes this by the scope with so many inside it.
#[tactic(auto, using(crate::proofs::ReachLemmas::reach_past, crate::proofs::ReachLemmas::reach_up_to, crate::proofs::ReachLemmas::reach_on))]
fn reach_of(name: &ScopedName, cursor: &OpenScopes, inside: usize, first: &Entity) -> Reach
    ensures { result ≡ reach_of name.now cursor.now inside first.now }
{
    if name.is_global {
        return Reach {
            certain: 0,
            further: 0,
        };
    }
    let extent = extent(cursor);
    if inside >= extent {
        return Reach {
            certain: extent,
            further: 0,
        };
    }
    if declares_at(cursor, inside, first) {
        return Reach {
            certain: inside,
            further: 0,
        };
    }
    Reach {
        certain: inside + 1,
        further: extent - (inside + 1),
    }
}

// Whether the scope with so many of these inside it itself declares this.
fn declares_at(scopes: &OpenScopes, inside: usize, first: &Entity) -> bool
    ensures { result ≡ declares_at scopes.now inside first.now }
{
    let mut rest = scopes;
    for _passed in 0..inside {
        let Some((_scope, outer)) = rest.split_first() else {
            return false;
        };
        rest = outer;
    }
    match rest.innermost() {
        Some(scope) => first.path().around().are_those(&scope.path.lent()),
        None => false,
    }
}

// Into how many of these scopes the use of a name in them may go.
fn extent(scopes: &OpenScopes) -> usize
    ensures { result ≡ extent scopes.now }
{
    let Some((innermost, outer)) = scopes.split_first() else {
        return 0;
    };
    if innermost.kind == Kind::Module {
        return 1;
    }
    1 + before_module(outer)
}

// How many of the scopes outward from one that is no module there are before a module.
fn before_module(scopes: &OpenScopes) -> usize
    ensures count { result ≡ before_module scopes.now }
    ensures within { result ≤ length scopes.now }
{
    let mut rest = scopes;
    for index in 0..scopes.len() {
        let Some((scope, outer)) = rest.split_first() else {
            return index;
        };
        if scope.kind == Kind::Module {
            return index;
        }
        rest = outer;
    }
    scopes.len()
}
