//! What a unit adds, on its way to the environment.

ghost use Rattle.std.specs.Prelude.{◌≡◌, ◌++◌, IfOk};
ghost use Rattle.idl_root.specs.Added.{told_by};

use crate::kept::reading::kept_verdict;
use idl_env::{Env, Room, Writes};
use idl_kept::KeptDeclaration;
use std::alloc::AllocError;
use std::rc::Rc;

/// What a unit adds.
#[derive(Drop)]
pub enum Added {
    /// Not even how the open scopes change.
    Nothing,
    /// These facts, which are given up to the environment.
    Given(Writes),
    /// The facts of a result that is kept.
    Kept(Rc<KeptDeclaration>),
}

impl Added {
    /// The facts of an environment, and these behind them. Facts that are given up leave their room.
    pub fn behind(self, env: Env, room: &mut Room) -> Result<Env, AllocError>
        ensures { IfOk result (λ after. after ≡ env ++ told_by self) }
    {
        match self {
            Added::Nothing => Ok(env),
            Added::Given(facts) => env.add_own(facts, room),
            Added::Kept(declaration) => env.add(kept_verdict(&declaration).writes.get()),
        }
    }
}
