//! Names that are looked up before their rows are written.

ghost use Rattle.std.specs.Prelude.{◌≡◌, IfOk};
ghost use Rattle.idl_memo.specs.Query.{outcome};
ghost use Rattle.idl_repo.specs.Entry.{IsPushed, entry};
ghost use Rattle.idl_env.specs.Facts.{answers};

use crate::entry::{Pushed, push_entry};
use crate::shown::members_of;
use crate::words::kind_word;
use idl_base::Shared;
use idl_entity::{DataType, Element, Entity, Path};
use idl_env::{Answer, Env, LentKey, entity_in};
use idl_memo::{Bank, Journal};
use std::alloc::AllocError;
use std::marker::Model;

/// A name, and what an environment answered that it is declared as. To every contract it is the facts and the path.
///
/// What is known of a name is seldom near in memory. Whoever looks several names up before the first of their rows is written,
/// and reckons their room, waits for them together.
pub struct Answered<'e> {
    env: &'e Env,
    path: &'e Path,
    answer: Option<&'e Answer>,
}

impl<'e> Model for Answered<'e> {
    ghost use Rattle.std.specs.Prelude.{◌≡◌, List, ℕ};
    ghost use Rattle.std.specs.Option.{option_copied};
    ghost use Rattle.idl_env.specs.Facts.{UnitFacts, answers, entity_key};

    ghost Value = { List UnitFacts × List (List ℕ) };

    ghost view = { λ answered. (answered.env.now, answered.path.now) };

    ghost invariant = { λ answered.
        option_copied answered.answer ≡ answers answered.env.now (entity_key answered.path.now) };
}

impl<'e> Drop for Answered<'e> {
    fn drop(self) {
        let Answered {
            env: _env,
            path: _path,
            answer: _answer,
        } = self;
    }
}

impl<'e> Answered<'e> {
    /// The name at a path over an environment, which is asked.
    pub fn of(env: &'e Env, path: &'e Path) -> Result<Answered<'e>, AllocError>
        ensures { IfOk result (λ answered. answered ≡ (env.now, path.now)) }
    {
        let answer = env.answer_lent(&LentKey::of_entity(env.alloc(), path))?;
        Ok(Answered { env, path, answer })
    }

    /// How much room the first word of its row takes.
    pub fn word_room(&self) -> usize {
        match entity_in(self.answer) {
            Some(entity) => kind_word(entity.get().kind()).len(),
            None => 0,
        }
    }

    /// How much room its name takes, with one for each type that its row tells.
    pub fn parts_room(&self) -> usize {
        match entity_in(self.answer) {
            Some(entity) => parts_room(entity.get()),
            None => 0,
        }
    }

    /// Writes its row behind what stands in a buffer. What it asks is not kept.
    #[tactic(auto, unfolding(crate::specs::Entry::entry))]
    pub fn push_entry(&self, buffer: &mut Vec<u8>) -> Result<Pushed, AllocError>
        ensures { IfOk result (λ pushed.
            IsPushed (outcome (entry self.now.1) (answers self.now.0))
            pushed buffer.old.items buffer.new.items) }
    {
        push_entry(buffer, self.env, &mut Journal::told(), self.answer)
    }
}

// How much room the name of what is declared so takes, with one for each type that its row tells.
fn parts_room(entity: &Entity) -> usize {
    let name = entity.path().name().len();
    let own = type_room(entity.data_type());
    let mut room = name
        .saturating_add(own)
        .saturating_add(entity.bases().len());
    for member in members_of(entity) {
        room = room.saturating_add(type_room(&member.data_type));
    }
    room
}

// One for a named type, and one for each sequence and array around a type.
fn type_room(data_type: &Option<Shared<DataType>>) -> usize {
    let Some(data_type) = data_type else {
        return 0;
    };
    let DataType { element, layers } = data_type.get();
    let named = matches!(element, Element::Named(_path));
    layers.len().saturating_add(named as usize)
}
