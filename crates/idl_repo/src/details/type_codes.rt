//! The trees of TypeCodes.

ghost use Rattle.std.specs.Prelude.{◌≡◌, ◌++◌, IfOk, OnOk};
ghost use Rattle.idl_repo.specs.details.Tree.{case_over, cases_of, union_over};
ghost use Rattle.idl_env.specs.Facts.{answers};

use crate::details::type_code_tree::{CaseTree, UnionTree};
use crate::details::types::{listed, member_of, type_of};
use crate::shown::members_of;
use crate::type_code::default_at;
use idl_base::Seq;
use idl_entity::{Entity, Member};
use idl_env::Env;
use idl_value::Value;
use std::alloc::AllocError;

/// What the TypeCode of a union has behind the name: the type of its labels, and an entry for each label of each member.
pub fn union_of(env: &Env, entity: &Entity) -> Result<UnionTree, AllocError>
    ensures { IfOk result (λ tree. tree ≡ union_over (answers env.now) entity.now) }
{
    let members = members_of(entity);
    let discriminator = type_of(env, entity.data_type())?;
    let default = default_at(members)?;
    let mut cases = Vec::new(env.alloc());
    for member in members {
        push_cases(&mut cases, env, member)?;
    }
    Ok(UnionTree {
        discriminator,
        default,
        cases: Seq::from_vec(cases),
    })
}

// Puts in an entry for each label of a member.
fn push_cases(cases: &mut Vec<CaseTree>, env: &Env, member: &Member) -> Result<(), AllocError>
    ensures { OnOk result
        (cases.new.items ≡ cases.old.items ++ cases_of (answers env.now) member.now) }
{
    for label in member.labels.as_slice() {
        cases.push(case_of(env, member, label)?)?;
    }
    Ok(())
}

// The entry of one label.
fn case_of(env: &Env, member: &Member, label: &Option<Value>) -> Result<CaseTree, AllocError>
    ensures { IfOk result (λ tree. tree ≡ case_over (answers env.now) member.now label.now) }
{
    let label = listed(env.alloc(), label.as_ref())?;
    let member = member_of(env, member)?;
    Ok(CaseTree { label, member })
}
