//! What is answered about names.

ghost use Rattle.std.specs.Prelude.{◌≡◌, ◌++◌, [], IfOk, IfSome, None, OnOk};
ghost use Rattle.std.specs.Option.{option_copied};
ghost use Rattle.idl_env.specs.Facts.{count_in, entity_in, global_scope, id_at, identity_in, prefix_in, scopes_in, typeprefix_in};
ghost use Rattle.idl_entity.specs.Identity.{no_prefix};
ghost use Rattle.idl_env.specs.declared.answering.answer.Answer.TheVariants as answers;

use crate::answering::open_scopes::OpenScopes;
use idl_base::{Bytes, Datum, Shared};
use idl_entity::{Entity, FixedIdentity, Identity, Kind, Path, Prefix};
use std::alloc::AllocError;
use std::mem::size_of;

/// An open scope: its path, what it is of, and which of its bodies this is. The one body of the global scope has the number 0,
/// and those of others are counted from 1.
#[derive(Clone, PartialEq, Eq, PartialOrd, Ord, Drop)]
pub struct Scope {
    pub path: Path,
    pub kind: Kind,
    pub body: usize,
}

/// What an environment answers.
#[derive(Clone, PartialEq, Eq, PartialOrd, Ord)]
pub enum Answer {
    /// These scopes are open, the innermost first and the global one last.
    Open(Shared<OpenScopes>),
    /// The name is declared as this.
    Known(Shared<Entity>),
    /// The name was introduced.
    Used,
    /// So many were opened.
    Count(usize),
    /// This prefix is in force.
    InForce(Shared<Prefix>),
    /// The name was declared first under this prefix, which tells its id with the path; it was met in a scope around the name.
    Appeared(Shared<Prefix>),
    /// This was fixed of the id of the name.
    Identified(Shared<FixedIdentity>),
    /// The scope has this typeprefix.
    Prefixed(Shared<Bytes>),
}

// A log has many of them, and an environment tens of thousands.
const _: () = prove!(size_of::<Answer>() <= 16);

impl Scope {
    /// The global scope.
    pub fn global() -> Scope
        ensures { result ≡ global_scope }
    {
        Scope {
            path: Path::global(),
            kind: Kind::Module,
            body: 0,
        }
    }
}

impl Drop for Answer {
    fn drop(self) {
        match self {
            Answer::Open(_scopes) => {}
            Answer::Known(_entity) => {}
            Answer::Used | Answer::Count(_) => {}
            Answer::InForce(_prefix) => {}
            Answer::Appeared(_prefix) => {}
            Answer::Identified(_fixed) => {}
            Answer::Prefixed(_text) => {}
        }
    }
}

impl Datum for Scope {
    ghost use Rattle.idl_env.specs.answering.Scope.{same_scope, copied_scope};

    ghost same = { same_scope };

    ghost copy = { copied_scope };
}

impl Datum for Answer {
    ghost use Rattle.idl_env.specs.SameAnswer.{same_answer, copied_answer};

    ghost same = { same_answer };

    ghost copy = { copied_answer };
}

/// The open scopes that an answer tells, if it does, and else those that are lent, of which none is open.
pub fn scopes_in<'a>(answer: Option<&'a Answer>, none: &'a OpenScopes) -> &'a OpenScopes
    ensures { none.now ≡ [] → result.now ≡ scopes_in (option_copied answer.entry) }
{
    match answer {
        Some(Answer::Open(scopes)) => scopes.get(),
        _ => none,
    }
}

/// The entity that an answer tells, if it does.
pub fn entity_in<'a>(answer: Option<&'a Answer>) -> Option<&'a Shared<Entity>>
    ensures { option_copied result ≡ entity_in (option_copied answer.entry) }
{
    match answer {
        Some(Answer::Known(entity)) => Some(entity),
        _ => None,
    }
}

/// The count that an answer tells, or 0.
pub fn count_in(answer: Option<&Answer>) -> usize
    ensures { result ≡ count_in (option_copied answer.entry) }
{
    match answer {
        Some(Answer::Count(count)) => *count,
        _ => 0,
    }
}

/// The prefix that an answer tells is in force, if it does.
pub fn prefix_in<'a>(answer: Option<&'a Answer>) -> Option<&'a Shared<Prefix>>
    ensures none { result ≡ None → prefix_in (option_copied answer.entry) ≡ no_prefix }
    ensures some { IfSome result (λ prefix. prefix_in (option_copied answer.entry) ≡ prefix.now) }
{
    match answer {
        Some(Answer::InForce(prefix)) => Some(prefix),
        _ => None,
    }
}

/// The typeprefix that an answer tells, if it does.
pub fn typeprefix_in<'a>(answer: Option<&'a Answer>) -> Option<&'a Shared<Bytes>>
    ensures { option_copied result ≡ typeprefix_in (option_copied answer.entry) }
{
    match answer {
        Some(Answer::Prefixed(text)) => Some(text),
        _ => None,
    }
}

/// What identifies a name under a typeprefix, if there is one, if an answer about its id tells it.
pub fn identity_in(
    typeprefix: Option<&Shared<Bytes>>,
    answer: Option<&Answer>,
) -> Result<Option<Identity>, AllocError>
    ensures { IfOk result (λ d.
        d ≡ identity_in (option_copied typeprefix.entry) (option_copied answer.entry)) }
{
    let typeprefix = match typeprefix {
        Some(text) => Some(text.clone()?),
        None => None,
    };
    match answer {
        Some(Answer::Appeared(shared)) => {
            let prefix = shared.clone()?;
            Ok(Some(Identity {
                prefix,
                typeprefix,
                fixed: None,
            }))
        }
        Some(Answer::Identified(fixed)) => Ok(Some(fixed.get().identity(typeprefix)?)),
        _ => Ok(None),
    }
}

/// The id of the name at a path under a typeprefix, if there is one, written; no bytes where no id is told.
pub fn push_id_at(
    text: &mut Vec<u8>,
    path: &Path,
    typeprefix: Option<&Shared<Bytes>>,
    answer: Option<&Answer>,
) -> Result<(), AllocError>
    ensures { OnOk result
        (text.new.items
        ≡ text.old.items
        ++ id_at path.now (option_copied typeprefix.entry) (option_copied answer.entry)) }
{
    match answer {
        Some(Answer::Appeared(prefix)) => prefix.get().push_id(text, path, typeprefix),
        Some(Answer::Identified(fixed)) => fixed.get().push_id(text, path, typeprefix),
        _ => Ok(()),
    }
}
