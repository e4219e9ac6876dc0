//! What is answered of repository ids.

ghost use Rattle.std.specs.Prelude.{◌≡◌, ◌++◌, IfOk, OnOk};
ghost use Rattle.idl_memo.specs.Query.{run};
ghost use Rattle.idl_repo.specs.Pieces.{told_id};
ghost use Rattle.idl_env.specs.Facts.{answers};
ghost use Rattle.idl_env.specs.keys.Key.{key_eq};
ghost use Rattle.idl_scope.specs.Known.{id_of};

use idl_base::{Bytes, Shared};
use idl_entity::Path;
use idl_env::{Answer, Env, LentKey, push_id_at};
use idl_memo::Journal;
use idl_scope::typeprefix_around;
use std::alloc::AllocError;

/// The id of the name at a path, by what is answered of it and of the typeprefixes around it: nothing of that is copied.
#[derive(Clone, Copy)]
pub struct AnsweredId<'e> {
    pub path: &'e Path,
    pub typeprefix: Option<&'e Shared<Bytes>>,
    pub answer: Option<&'e Answer>,
}

impl<'e> AnsweredId<'e> {
    /// Writes it; no bytes where none is told.
    #[inline(always)]
    pub fn write(self, text: &mut Vec<u8>) -> Result<(), AllocError>
        ensures { OnOk result (text.new.items ≡ text.old.items ++ told_id self.entry) }
    {
        push_id_at(text, self.path, self.typeprefix, self.answer)
    }
}

/// The id of what is declared at a path, which is asked for.
#[inline(always)]
pub fn id_of<'e>(
    env: &'e Env,
    log: &mut Journal<Env>,
    path: &'e Path,
) -> Result<AnsweredId<'e>, AllocError>
    ensures { IfOk result (λ id.
        (told_id id, log.new) ≡ run key_eq (id_of path.now) (answers env.now) log.old) }
{
    let key = LentKey::id_of(env.alloc(), path);
    let answer = log.ask_lent(&key, env)?;
    let typeprefix = typeprefix_around(env, log, path)?;
    Ok(AnsweredId {
        path,
        typeprefix,
        answer,
    })
}
