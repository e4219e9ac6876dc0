//! The walk over a unit, a site at a time, for who looks at what is known between two of them.

ghost use Rattle.std.specs.Prelude.{◌≡◌, ◌≤◌, ◌<◌, ◌+◌, ◌∷◌, ◌&&◌, [], ℕ, IfNone, IfSome, OnOk, length, nat_le, nat_lt};
ghost use Rattle.idl_check.specs.walk.Held.{held};
ghost use Rattle.idl_check.specs.walk.Walk.{first_walk, walk};
ghost use Rattle.idl_env.specs.Facts.{answers};
ghost use Rattle.idl_env.specs.Turns.{turns_for};
ghost use Rattle.idl_memo.specs.Query.{outcome};
ghost use Rattle.idl_parts.specs.Item.{item_at, item_length};
ghost use Rattle.idl_tree.specs.Name.{spell_name};

use crate::walk::scratch::Scratch;
use crate::walk::walker::Walker;
use idl_entity::Path;
use idl_env::{Env, Facts, OpenScopes};
use idl_memo::Journal;
use idl_parts::UnitPart;
use idl_tree::ScopedName;
use idl_value::Value;
use std::alloc::AllocError;
use std::marker::Model;

/// How far the walk over a unit has come, which goes on a site at a time. What it asks is not kept.
pub struct UnitWalk<'a> {
    walker: Walker<'a>,
}

impl<'a> Model for UnitWalk<'a> {
    ghost use Rattle.idl_check.specs.walk.Steps.{Stepped};
    ghost use Rattle.idl_check.specs.walk.Held.{held};

    ghost Value = { Stepped };

    ghost view = { λ steps. record { facts = steps.walker.env.now; walk = held steps.walker } };
}

impl<'a> Drop for UnitWalk<'a> {
    fn drop(self) {
        let UnitWalk { walker: _walker } = self;
    }
}

impl<'a> UnitWalk<'a> {
    /// Before the first site of a unit in these scopes. What is added takes the room that there is.
    pub fn new(scratch: &mut Scratch, env: &'a Env, scopes: &'a OpenScopes) -> UnitWalk<'a>
        ensures { result ≡ record { facts = env.now; walk = first_walk scopes.now } }
    {
        UnitWalk {
            walker: Walker::new(env, scopes, scratch, None),
        }
    }

    /// Passes the next site of the unit. Behind the token of a fault nothing changes. More tokens than a word counts are as want of
    /// memory.
    pub fn pass(&mut self, site: UnitPart<'_>) -> Result<(), AllocError>
        ensures walk { OnOk result ((turns : ℕ) → turns_for self.old.facts ≤ turns →
            self.new.walk
            ≡ outcome (walk turns (item_at site.entry ∷ []) self.old.walk)
            (answers self.old.facts)) }
        ensures facts { OnOk result (self.new.facts ≡ self.old.facts) }
    {
        let Some(length) = length_of(&site) else {
            return Err(AllocError);
        };
        if self.walker.at.checked_add(length).is_none() {
            return Err(AllocError);
        }
        self.walker.walk(&mut Journal::told(), &[site])
    }

    /// The number of the next token.
    pub fn at(&self) -> usize
        ensures { result ≡ self.now.walk.at }
    {
        self.walker.at
    }

    /// Whether the token with this number is one of the site that is next.
    pub fn is_in(&self, index: usize, site: &UnitPart<'_>) -> bool
        ensures { let at = self.now.walk.at in
            result ≡ (nat_le at index && nat_lt index (at + item_length (item_at site.now))) }
    {
        let Some(further) = index.checked_sub(self.walker.at) else {
            return false;
        };
        match length_of(site) {
            Some(length) => further < length,
            None => true,
        }
    }

    /// What the tokens so far add.
    pub fn own(&self) -> &Facts
        ensures { result.now.additions ≡ self.now.walk.own }
    {
        &self.walker.own
    }

    /// The scopes around the next token, the innermost first.
    pub fn cursor(&self) -> &OpenScopes
        ensures { result.now ≡ self.now.walk.cursor }
    {
        self.walker.cursor.scopes()
    }

    /// The paths of what the used names so far denote, in order.
    pub fn found(&self) -> &[Path]
        ensures { result.now ≡ self.now.walk.found }
    {
        self.walker.found.as_slice()
    }

    /// The values of the expressions so far, in order.
    pub fn values(&self) -> &[Value]
        ensures { result.now ≡ self.now.walk.values.told }
    {
        self.walker.values.told()
    }
}

// How many tokens a site is, if a word counts them.
fn length_of(site: &UnitPart<'_>) -> Option<usize>
    ensures some { IfSome result (λ n. n ≡ item_length (item_at site.now)) }
    ensures none { IfNone result (18446744073709551615 < item_length (item_at site.now)) }
{
    match *site {
        UnitPart::Tokens(count) => Some(count),
        UnitPart::Declared(_way, _name) => Some(1),
        UnitPart::Used(_way, name) => name_length(name),
        UnitPart::Joined(_purpose, text) => text.rest.len().checked_add(1),
        UnitPart::ScopeBegins(_, _)
        | UnitPart::ScopeEnds
        | UnitPart::ValueBegins
        | UnitPart::ValueEnds(_, _)
        | UnitPart::TypeEnds(_)
        | UnitPart::ArrayEnds
        | UnitPart::Enumerates(_)
        | UnitPart::Identifies(_)
        | UnitPart::Switches(_)
        | UnitPart::Default
        | UnitPart::GivesBack => Some(0),
    }
}

// How many tokens a name is, if a word counts them.
fn name_length(name: &ScopedName) -> Option<usize>
    ensures some { IfSome result (λ n. n ≡ length (spell_name name.now)) }
    ensures none { IfNone result (18446744073709551615 < length (spell_name name.now)) }
{
    let further = name.rest.len().checked_mul(2)?;
    further.checked_add(1 + usize::from(name.is_global))
}
