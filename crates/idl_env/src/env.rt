//! The environment: what the facts so far answer.

ghost use Rattle.std.specs.Prelude.{◌≡◌, ◌∷◌, ◌++◌, [], ℕ, IfOk, IsFalse, List, None, ◌+◌, ◌<◌, ◌≤◌, length};
ghost use Rattle.std.specs.Option.{option_copied};
ghost use Rattle.idl_entity.specs.DataType.{plain_type};
ghost use Rattle.idl_env.specs.Facts.{answers};
ghost use Rattle.idl_env.specs.Turns.{bases_among, declared_named, most_turns, turns_for};
ghost use Rattle.idl_env.specs.Written.{last_written};
ghost use Rattle.idl_env.specs.declared.keys.key.Key.TheVariants.{Typeprefix};

use crate::additions::facts::Facts;
use crate::additions::room::{Room, Writes};
use crate::answering::answer::Answer;
use crate::answering::count::{one_more, sum};
use crate::answering::state::State;
use crate::answering::steps::Walked;
use crate::keys::digested::DigestedKey;
use crate::keys::key::Key;
use crate::plain::PlainTypes;
use idl_base::{GhostList, Shared};
use idl_entity::{DataType, Element};
use idl_map::Lent;
use idl_memo::{Bank, LentBank};
use std::alloc::{AllocError, Global};
use std::marker::Model;

/// The answers over the facts that units added so far. To every contract it is the list of these facts, none of which is
/// kept once it is answered by.
pub struct Env {
    alloc: Global,
    facts: GhostList<Facts>,
    // No fewer than the facts, the turns that they need and what they declare, since no count among the answers is larger, no walk
    // takes more turns, and no chain of typedefs is longer.
    count: usize,
    // It stands apart, since an environment is handed on with each unit.
    state: Box<State>,
    plain: PlainTypes,
}

impl Model for Env {
    ghost use Rattle.std.specs.Prelude.{◌≡◌, ◌+◌, ◌≤◌, List, length};
    ghost use Rattle.idl_env.specs.Facts.{UnitFacts, world};
    ghost use Rattle.idl_env.specs.Held.{held};
    ghost use Rattle.idl_env.specs.Stamps.{stamped_in, stamps_of};
    ghost use Rattle.idl_env.specs.Turns.{turns_for};

    ghost Value = { List UnitFacts };

    ghost view = { λ env. env.facts };

    ghost invariant = { λ env.
        (length env.facts + turns_for env.facts ≤ env.count)
        × ((held env.state.value ≡ world env.facts)
        × ((stamped_in env.state.value.answers).stamps ≡ stamps_of env.facts)) };
}

impl Drop for Env {
    fn drop(self) {
        let Env {
            alloc: _alloc,
            facts: _facts,
            count: _count,
            state: _state,
            plain: _plain,
        } = self;
    }
}

impl Env {
    /// Nothing is declared, and the global scope is open.
    pub fn new(alloc: Global) -> Result<Env, AllocError>
        ensures { IfOk result (λ env. env ≡ []) }
    {
        let state = Box::new(alloc, State::new(alloc)?)?;
        let plain = PlainTypes::new(alloc)?;
        Ok(Env {
            alloc,
            facts: GhostList::new(),
            count: 0,
            state,
            plain,
        })
    }

    /// No fewer than the entities that are declared, each as often as it is.
    pub fn most_declared(&self) -> usize
        ensures { length (declared_named self.now) ≤ result }
    {
        self.count
    }

    /// The law that no walk over the facts takes more turns than a word of 64 bits counts. It does nothing.
    #[inline]
    #[tactic(auto, unfolding(crate::specs::Turns::most_turns))]
    pub fn bounds_turns(&self)
        ensures { turns_for self.now ≤ most_turns }
    {
        // The count is a word of 64 bits.
        let _count = self.count;
    }

    /// Whether a scope may have a typeprefix.
    #[inline]
    pub fn has_typeprefixes(&self) -> bool
        ensures { IsFalse result
            → (path : List (List ℕ)) → answers self.now (Typeprefix path) ≡ None }
    {
        self.state.answers.has_typeprefixes()
    }

    /// How many facts there are.
    pub fn len(&self) -> usize
        ensures { result ≡ length self.now }
    {
        self.state.answers.count()
    }

    /// Which of the facts wrote last at a key, counted from 1, and 0 where none did.
    pub fn written_at(&self, key: &DigestedKey) -> usize
        ensures { result ≡ last_written self.now key.now }
    {
        self.state.answers.writer(key)
    }

    /// Where it takes memory.
    pub fn alloc(&self) -> Global {
        self.alloc
    }

    /// The facts so far and these. Refused, this environment is given up.
    pub fn add(self, facts: &Facts) -> Result<Env, AllocError>
        ensures { IfOk result (λ env. env ≡ self ++ facts.now ∷ []) }
    {
        let Env {
            alloc,
            facts: before,
            count,
            mut state,
            plain,
        } = self;
        let count = counted(count, facts)?;
        state.add(alloc, facts)?;
        Ok(Env {
            alloc,
            facts: before.and(facts),
            count,
            state,
            plain,
        })
    }

    /// The facts so far and these, which are given up. Refused, this environment is too. Their memory is room for others.
    pub fn add_own(self, facts: Writes, room: &mut Room) -> Result<Env, AllocError>
        ensures { IfOk result (λ env. env ≡ self ++ facts ∷ []) }
    {
        let Env {
            alloc,
            facts: before,
            count,
            mut state,
            plain,
        } = self;
        let count = counted(count, facts.get())?;
        let after = before.and(facts.get());
        let mut facts = facts;
        state.add_own(alloc, &mut facts.inner)?;
        room.give(facts);
        Ok(Env {
            alloc,
            facts: after,
            count,
            state,
            plain,
        })
    }

    /// A type without sequences and arrays. One of keywords is shared by all that is declared with it.
    pub fn plain(&self, element: Element) -> Result<Shared<DataType>, AllocError>
        ensures { IfOk result (λ t. t ≡ plain_type element) }
    {
        match self.plain.find(&element) {
            Some(t) => t.clone(),
            None => DataType::plain(self.alloc, element),
        }
    }
}

// The count with these facts, what they add and the bases that they name. One that is larger than memory can hold things is want
// of it.
fn counted(count: usize, facts: &Facts) -> Result<usize, AllocError>
    ensures more { let added = facts.now.additions in
        IfOk result (λ n. n ≡ count + length added + length (bases_among added) + 1) }
    ensures room { IfOk result (λ n. count < 18446744073709551615) }
{
    let added = sum(count, facts.len())?;
    let named = facts.bases()?;
    one_more(sum(added, named)?)
}

impl Bank for Env {
    ghost use Rattle.idl_env.specs.Facts.{answers};

    type Key = DigestedKey;

    type Answer = Answer;

    type Head = Walked;

    type Step = Answer;

    ghost at = { answers };

    fn answer(&self, key: &DigestedKey) -> Option<&Answer>
        ensures { option_copied result ≡ answers self.now key.now }
    {
        self.state.answers.get(key)
    }

    fn answer_lent<L: Lent<DigestedKey>>(&self, key: &L) -> Result<Option<&Answer>, AllocError>
        ensures { IfOk result (λ answer. option_copied answer ≡ answers self.now (L.key key.now)) }
    {
        self.state.answers.get_lent(key)
    }
}

impl LentBank for Env {
    fn answer_at<L: Lent<DigestedKey>>(&self, key: &L) -> Option<&Answer>
        ensures { option_copied result ≡ answers self.now (L.key key.now) }
    {
        self.state.answers.get_at(key)
    }
}
