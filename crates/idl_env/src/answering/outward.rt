//! What is asked for typeprefixes from a scope outward, where no scope has one.

ghost use Rattle.std.specs.Prelude.{◌≡◌, ◌++◌, All, IsFalse, OnOk, Option};
ghost use Rattle.idl_env.specs.answering.Walked.{entries_outward};
ghost use Rattle.idl_env.specs.declared.answering.answer.Answer.{Answer};
ghost use Rattle.idl_env.specs.keys.Key.{key_digest, key_eq};
ghost use Rattle.idl_memo.specs.Query.{is_logged};

use crate::answering::answer::Answer;
use crate::keys::digested::DigestedKey;
use crate::keys::lent_key::LentKey;
use idl_entity::paths::Names;
use idl_map::Lent;
use idl_memo::Digests;
use std::alloc::{AllocError, Global};

/// Puts what is asked from the scope with a path of these names outward behind other entries.
pub(crate) fn append_outward(
    alloc: Global,
    scope: Names<'_>,
    entries: &mut Vec<(DigestedKey, Option<Answer>)>,
) -> Result<(), AllocError>
    ensures { OnOk result
        (entries.new.items ≡ entries.old.items ++ entries_outward scope.entry) }
{
    let mut names = scope;
    'scopes: while let Some((_name, around)) = names.again().split_first() {
        let key = LentKey::typeprefix(alloc, names).owned()?;
        entries.push((key, None))?;
        names = around;
    }
    Ok(())
}

/// Whether a key is among those that are asked.
pub(crate) fn is_outward(alloc: Global, scope: Names<'_>, key: &DigestedKey) -> bool
    ensures { result
        ≡ is_logged {V = Option Answer} key_eq (entries_outward scope.entry) key.now }
{
    let mut names = scope;
    'scopes: while let Some((_name, around)) = names.again().split_first() {
        if LentKey::typeprefix(alloc, names).is(key) {
            return true;
        }
        names = around;
    }
    false
}

/// Whether a digest of one of the keys that are asked may be among these.
pub(crate) fn shares_outward<D: Digests>(alloc: Global, scope: Names<'_>, digests: &D) -> bool
    ensures { IsFalse result
        → All (λ e. D.has digests.now (key_digest e.0) → ⊥)
        (entries_outward {A = Answer} scope.entry) }
{
    let mut names = scope;
    'scopes: while let Some((_name, around)) = names.again().split_first() {
        if digests.has(LentKey::typeprefix(alloc, names).digest()) {
            return true;
        }
        names = around;
    }
    false
}
