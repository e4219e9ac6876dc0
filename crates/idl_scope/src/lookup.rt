//! What a scope has under a name, over an environment and what a unit's earlier tokens add.

ghost use Rattle.std.specs.Prelude.{◌≡◌, ◌<◌, ◌≤◌, ◌+◌, ◌++◌, ℕ, IfOk, OnOk, Some, length, map, option_to_list};
ghost use Rattle.std.specs.Option.{option_copied};
ghost use Rattle.idl_memo.specs.Query.{noted, run};
ghost use Rattle.idl_env.specs.Facts.{answer_of, answers, entity_in, entity_key, over, prefix_in};
ghost use Rattle.idl_scope.specs.Finds.{those};
ghost use Rattle.idl_env.specs.keys.Key.{key_eq};
ghost use Rattle.idl_env.specs.declared.keys.key.Key.TheVariants.{Declared, Prefix as PrefixKey};
ghost use Rattle.idl_scope.specs.Known.{known};
ghost use Rattle.idl_scope.specs.Lookup.{bases_of, decided, entered, has, reached, under};
ghost use Rattle.idl_env.specs.Turns.{HasTurnsFor, declared_among, declared_named};

use crate::finds::Finds;
use idl_base::{Bytes, Shared};
use idl_entity::{Entity, Kind, Path, Prefix};
use idl_env::{
    Addition, BaseQueue, DigestedKey, Env, Facts, LentKey, OpenScopes, entity_in, prefix_in,
};
use idl_memo::Journal;
use std::alloc::AllocError;

/// An environment, and over it what a unit's earlier tokens add.
#[derive(Clone, Copy)]
pub struct View<'a> {
    pub env: &'a Env,
    pub own: &'a Facts,
}

/// A scope in which a name is looked for: what it is of, and its path.
#[derive(Clone, Copy)]
pub struct ScopeAt<'a> {
    pub kind: Kind,
    pub path: &'a Path,
}

impl<'a> View<'a> {
    // What is declared at a key.
    #[inline(always)]
    fn entity(
        self,
        log: &mut Journal<Env>,
        key: &LentKey<'_>,
    ) -> Result<Option<&'a Shared<Entity>>, AllocError>
        ensures entity { IfOk result (λ e.
            option_copied e
            ≡ entity_in
            (over self.entry.own.now.additions key.now (answers self.entry.env.now key.now))) }
        ensures logged { OnOk result (log.new ≡ noted key_eq (answers self.entry.env.now) log.old key.now) }
    {
        let before = log.ask_lent(key, self.env)?;
        match self.own.get(key)? {
            Some(addition) => Ok(declared_by(addition)),
            None => Ok(entity_in(before)),
        }
    }

    /// The prefix in force, which no addition changes.
    #[tactic(auto, using(idl_env::proofs::AnswerLaws::AnswerLemmas::over_prefix))]
    pub fn prefix(self, log: &mut Journal<Env>) -> Result<Shared<Prefix>, AllocError>
        ensures prefix { IfOk result (λ prefix.
            prefix
            ≡ prefix_in
            (over self.entry.own.now.additions PrefixKey
            (answers self.entry.env.now PrefixKey))) }
        ensures logged { OnOk result
            (log.new ≡ noted key_eq (answers self.entry.env.now) log.old PrefixKey) }
    {
        match prefix_in(log.ask(&DigestedKey::prefix(), self.env)?) {
            Some(prefix) => prefix.clone(),
            None => Prefix::none(self.env.alloc()),
        }
    }

    /// No fewer than the entities that are declared in the environment and by the unit's earlier tokens.
    pub fn most_declared(self) -> u128
        ensures most { length (declared_named self.entry.env.now)
            + length (declared_among self.entry.own.now.additions) ≤ result }
        ensures bound { result < 36893488147419103232 }
    {
        self.env.most_declared() as u128 + self.own.len() as u128
    }

    // What a scope itself declares a name as.
    #[inline(always)]
    fn own(
        self,
        log: &mut Journal<Env>,
        path: &Path,
        name: &Bytes,
    ) -> Result<Option<&'a Shared<Entity>>, AllocError>
        ensures entity { IfOk result (λ e.
            option_copied e
            ≡ entity_in (over self.entry.own.now.additions (Declared name.now path.now)
            (answers self.entry.env.now (Declared name.now path.now)))) }
        ensures logged { OnOk result
            (log.new ≡ noted key_eq (answers self.entry.env.now) log.old (Declared name.now path.now)) }
    {
        let key = LentKey::declared(self.env.alloc(), name, path);
        self.entity(log, &key)
    }

    /// The entity at a path.
    #[inline(always)]
    pub fn standing_at(
        self,
        log: &mut Journal<Env>,
        path: &Path,
    ) -> Result<Option<&'a Shared<Entity>>, AllocError>
        ensures entity { IfOk result (λ e.
            option_copied e
            ≡ entity_in (over self.entry.own.now.additions (entity_key path.now)
            (answers self.entry.env.now (entity_key path.now)))) }
        ensures logged { OnOk result
            (log.new ≡ noted key_eq (answers self.entry.env.now) log.old (entity_key path.now)) }
    {
        let key = LentKey::of_entity(self.env.alloc(), path);
        self.entity(log, &key)
    }

    // What a base itself declares a name as, or else its bases, which are entered next.
    fn enter(
        self,
        log: &mut Journal<Env>,
        name: &Shared<Bytes>,
        base: &Path,
    ) -> Result<(Option<&'a Shared<Entity>>, &'a [Path]), AllocError>
        ensures { IfOk result (λ r.
            ((option_copied r.0, r.1.now), log.new)
            ≡ run key_eq
            (under self.entry.own.now.additions (entered name.now base.now))
            (answers self.entry.env.now) log.old) }
    {
        let key = LentKey::under(self.env.alloc(), name, base);
        if let Some(declared) = self.entity(log, &key)? {
            return Ok((Some(declared), &[]));
        }
        Ok((None, bases_of(self.standing_at(log, base)?)))
    }

    /// What is reached under a name through bases.
    #[inline(always)]
    pub fn reached(
        self,
        log: &mut Journal<Env>,
        name: &Bytes,
        bases: &[Path],
    ) -> Result<Vec<&'a Shared<Entity>>, AllocError>
        ensures { IfOk result (λ es.
            (turns : ℕ) → usize.MAX ≤ turns →
            (map (λ e. e.now) es.items, log.new)
            ≡ run key_eq
            (under self.entry.own.now.additions (reached turns name.now bases.now))
            (answers self.entry.env.now) log.old) }
    {
        if bases.is_empty() {
            return Ok(Vec::new(self.env.alloc()));
        }
        self.reached_through(log, name, bases)
    }

    // The same, where there may be bases. It stands apart, since it takes much stack.
    #[inline(never)]
    fn reached_through(
        self,
        log: &mut Journal<Env>,
        name: &Bytes,
        bases: &[Path],
    ) -> Result<Vec<&'a Shared<Entity>>, AllocError>
        ensures { IfOk result (λ es.
            (turns : ℕ) → usize.MAX ≤ turns →
            (map (λ e. e.now) es.items, log.new)
            ≡ run key_eq
            (under self.entry.own.now.additions (reached turns name.now bases.now))
            (answers self.entry.env.now) log.old) }
    {
        let shared = Shared::new(self.env.alloc(), name.clone()?)?;
        let mut queue = BaseQueue::new(self.env.alloc());
        queue.join(bases)?;
        let mut found = Vec::new(self.env.alloc());
        let mut turn = 0;
        'bases: while let Some(base) = queue.get(turn) {
            let (declared, more) = self.enter(log, &shared, base)?;
            keep(&mut found, declared)?;
            queue.join(more)?;
            turn += 1;
        }
        Ok(found)
    }

    /// What a scope has under a name.
    pub fn has(
        self,
        log: &mut Journal<Env>,
        place: ScopeAt<'_>,
        name: &Bytes,
    ) -> Result<Vec<&'a Shared<Entity>>, AllocError>
        ensures { IfOk result (λ es.
            (turns : ℕ) → HasTurnsFor self.entry.env.now self.entry.own.now.additions turns →
            (map (λ e. e.now) es.items, log.new)
            ≡ run key_eq
            (under self.entry.own.now.additions
            (has turns place.entry.kind place.entry.path.now name.now))
            (answers self.entry.env.now) log.old) }
    {
        let found = self.found_in(log, place, name)?;
        found.into_vec(self.env.alloc())
    }

    /// What a scope has under a name, as it is held.
    pub(crate) fn found_in(
        self,
        log: &mut Journal<Env>,
        place: ScopeAt<'_>,
        name: &Bytes,
    ) -> Result<Finds<'a>, AllocError>
        ensures { IfOk result (λ found.
            (turns : ℕ) → usize.MAX ≤ turns →
            (those found, log.new)
            ≡ run key_eq
            (under self.entry.own.now.additions
            (has turns place.entry.kind place.entry.path.now name.now))
            (answers self.entry.env.now) log.old) }
    {
        let own = self.own(log, place.path, name)?;
        if !place.kind.inherits() {
            return Ok(Finds::own(self.env.alloc(), own));
        }
        let scope = self.standing_at(log, place.path)?;
        if let Some(declared) = own {
            return Ok(Finds::Own(declared));
        }
        Ok(Finds::Reached(self.reached(log, name, bases_of(scope))?))
    }

    /// What the innermost of these scopes has that has the name, as it is held, and how many are inside that one.
    pub(crate) fn found_outward(
        self,
        log: &mut Journal<Env>,
        scopes: &OpenScopes,
        name: &Bytes,
    ) -> Result<(Finds<'a>, usize), AllocError>
        ensures { IfOk result (λ found.
            (turns : ℕ) → usize.MAX ≤ turns →
            ((those found.0, found.1), log.new)
            ≡ run key_eq
            (under self.entry.own.now.additions (decided turns 0 scopes.now name.now))
            (answers self.entry.env.now) log.old) }
    {
        let mut rest = scopes;
        for inside in 0..scopes.len() {
            let Some((scope, outer)) = rest.split_first() else {
                return Ok((Finds::own(self.env.alloc(), None), 0));
            };
            let place = ScopeAt {
                kind: scope.kind,
                path: &scope.path,
            };
            let found = self.found_in(log, place, name)?;
            if !found.is_nothing() {
                return Ok((found, inside));
            }
            rest = outer;
        }
        Ok((Finds::own(self.env.alloc(), None), 0))
    }
}

// The entity that an addition declares, if it does.
fn declared_by(addition: &Addition) -> Option<&Shared<Entity>>
    ensures { option_copied result ≡ entity_in (Some (answer_of addition.now)) }
{
    match addition {
        Addition::Declares(entity) => Some(entity),
        _ => None,
    }
}

// The bases of an entity that count.
fn bases_of<'a>(entity: Option<&'a Shared<Entity>>) -> &'a [Path]
    ensures { result.now ≡ bases_of (option_copied entity.entry) }
{
    match entity {
        Some(shared) if shared.get().stage().has_bases() => shared.get().bases(),
        _ => &[],
    }
}

// Keeps a declaration, if there is one.
fn keep<'a>(
    found: &mut Vec<&'a Shared<Entity>>,
    declared: Option<&'a Shared<Entity>>,
) -> Result<(), AllocError>
    ensures { OnOk result
        (map (λ e. e.now) found.new.items
        ≡ map (λ e. e.now) found.old.items ++ option_to_list (option_copied declared.entry)) }
{
    if let Some(entity) = declared {
        found.push(entity)?;
    }
    Ok(())
}
