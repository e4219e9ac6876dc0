//! Used names: what they may denote where they stand.

ghost use Rattle.std.specs.Prelude.{◌≡◌, [], IfOk, OnOk, None, drop, false, fold, is_some, map, take};
ghost use Rattle.idl_check.specs.tables.Using.{further_uses, is_base, name_code, suited_table, used_table, with_uses, Bases as NamedBases};
ghost use Rattle.idl_check.specs.tables.Rules.{is_type, suits};
ghost use Rattle.idl_check.specs.tables.Codes.{codes_in};
ghost use Rattle.idl_check.specs.told.Types.{constants_of};
ghost use Rattle.idl_entity.specs.declared.entity.Entity.{Entity as ScopeEntity};
ghost use Rattle.idl_env.specs.Facts.{over, with_addition};
ghost use Rattle.idl_env.specs.declared.additions.addition.Addition.TheVariants.{Uses};
ghost use Rattle.idl_lex.specs.kinds.Keywords.{folded};
ghost use Rattle.idl_scope.specs.Meaning.{own_at, undeclared};
ghost use Rattle.idl_unit.specs.TokenRules.{first};

use crate::tables::bases::Bases;
use crate::tables::codes::first_code;
use crate::told::types::{is_incomplete, may_switch};
use idl_base::{Seq, Shared};
use idl_entity::paths::OwnName;
use idl_entity::{Entity, Kind, Path};
use idl_env::{Addition, Facts, Further, LentKey, OpenScopes};
use idl_fault::Code;
use idl_parts::Use;
use idl_scope::{NameCode, Reach};
use idl_tree::ScopedName;
use idl_value::ConstantType;
use std::alloc::{AllocError, Global};

/// A used name, the path of what it denotes, and how far its use introduces it.
#[derive(Clone, Copy)]
pub struct Denoting<'a> {
    pub name: &'a ScopedName,
    pub path: &'a Path,
    pub reach: Reach,
}

/// The code of what a name denotes nothing for.
pub fn name_code(code: NameCode) -> Code
    ensures { result ≡ name_code code }
{
    match code {
        NameCode::Undeclared => Code::NameNotFound,
        NameCode::Ambiguous => Code::AmbiguousName,
        NameCode::OtherSpelling => Code::OtherCase,
        NameCode::NoScope => Code::NoScope,
    }
}

fn is_type(kind: Kind) -> bool
    ensures { result ≡ is_type kind }
{
    match kind {
        Kind::Interface
        | Kind::Structure
        | Kind::Union
        | Kind::Enumeration
        | Kind::Alias
        | Kind::Native => true,
        _ => false,
    }
}

// Whether a name may be used so that denotes this.
fn suits(way: Use, entity: &Entity) -> bool
    ensures { result ≡ suits way entity.now }
{
    match way {
        Use::AsBase(_) => entity.kind() == Kind::Interface,
        Use::AsStructBase => entity.kind() == Kind::Structure,
        Use::AsType | Use::AsElement | Use::AsConstantType | Use::AsDiscriminator => {
            is_type(entity.kind())
        }
        Use::AsOperand => entity.value().is_some(),
        Use::Raised | Use::RaisedBySet => entity.kind() == Kind::Exception,
        Use::AsIdentified | Use::AsPrefixed => true,
    }
}

/// What a name denotes, what stands behind that, and the type that its constants have.
#[derive(Clone, Copy)]
pub struct Denoted<'a> {
    pub entity: &'a Entity,
    pub constants: &'a Option<ConstantType>,
}

/// The code of the least fault of a name that is used so and denotes this.
pub fn used_code(
    alloc: Global,
    way: Use,
    bases: &mut Bases,
    denoted: Denoted<'_>,
) -> Result<Option<Code>, AllocError>
    ensures code { IfOk result (λ code. (behind : ScopeEntity) →
        denoted.entry.constants.now ≡ constants_of behind →
        code ≡ first (codes_in (used_table way bases.old denoted.entry.entity.now behind))) }
    ensures same { OnOk result (bases.new ≡ bases.old) }
{
    if !suits(way, denoted.entity) {
        return Ok(Some(Code::WrongKind));
    }
    match way {
        Use::AsBase(is_local) => bases.code(alloc, is_local, denoted.entity),
        _ => Ok(type_code(way, denoted)),
    }
}

// The code of the least fault of the name of a type.
fn type_code(way: Use, denoted: Denoted<'_>) -> Option<Code>
    ensures { (behind : ScopeEntity) → (bases : NamedBases) →
        denoted.entry.constants.now ≡ constants_of behind →
        is_base way ≡ false →
        result ≡ first (codes_in (suited_table way bases denoted.entry.entity.now behind)) }
{
    let is_incomplete = is_incomplete(denoted.entity);
    match way {
        Use::AsType | Use::AsStructBase => first_code(&[(is_incomplete, Code::IncompleteType)]),
        Use::AsConstantType => first_code(&[
            (denoted.constants.is_none(), Code::NoConstantType),
            (is_incomplete, Code::IncompleteType),
        ]),
        Use::AsDiscriminator => first_code(&[
            (is_incomplete, Code::IncompleteType),
            (!may_switch(denoted.constants), Code::BadDiscriminator),
        ]),
        _ => None,
    }
}

/// Puts in that the use of a name introduces its first part into these scopes, as far as it reaches.
pub fn introduce(
    alloc: Global,
    own: &mut Facts,
    used: Denoting<'_>,
    scopes: &OpenScopes,
) -> Result<(), AllocError>
    ensures { OnOk result
        (own.new
        ≡ record own.old {
          additions =
              with_uses (folded used.entry.name.now.first) used.entry.reach scopes.now
              own.old.additions;
        }) }
{
    let reach = used.reach;
    if reach.certain == 0 && reach.further == 0 {
        return Ok(());
    }
    let folded = OwnName::within(alloc, used.path, &used.name.first)?;
    let left = introduce_certain(own, &folded, reach.certain, scopes)?;
    if reach.further == 0 {
        return Ok(());
    }
    introduce_further(alloc, own, used, left)
}

// Puts in that a use introduces a name into so many of these scopes for certain; the others.
#[inline]
fn introduce_certain<'s>(
    own: &mut Facts,
    name: &OwnName,
    count: usize,
    scopes: &'s OpenScopes,
) -> Result<&'s OpenScopes, AllocError>
    ensures added { OnOk result
        (own.new
        ≡ record own.old {
          additions =
              fold with_addition own.old.additions
              (map (λ s. Uses name.now s.path s.body) (take count scopes.now));
        }) }
    ensures left { IfOk result (λ left. left.now ≡ drop count scopes.now) }
{
    let mut rest = scopes;
    for _reached in 0..count {
        let Some((scope, outer)) = rest.split_first() else {
            return Ok(rest);
        };
        own.add(Addition::Uses(name.clone()?, scope.path.clone()?, scope.body))?;
        rest = outer;
    }
    Ok(rest)
}

// Puts in that the use of a name goes on into these scopes, as far as it does. It stands apart, since few uses do.
#[inline(never)]
fn introduce_further(
    alloc: Global,
    own: &mut Facts,
    used: Denoting<'_>,
    scopes: &OpenScopes,
) -> Result<(), AllocError>
    ensures { let n = folded used.entry.name.now.first in
        OnOk result
        (own.new
        ≡ record own.old {
          additions =
              fold with_addition own.old.additions (further_uses n []
              (undeclared (λ k. over own.old.additions k None) n
              (take used.entry.reach.further scopes.now)));
        }) }
{
    let name = OwnName::within(alloc, used.path, &used.name.first)?;
    let mut rest = scopes;
    let mut unless = Seq::new(alloc);
    for _passed in 0..used.reach.further {
        let Some((scope, outer)) = rest.split_first() else {
            return Ok(());
        };
        if declares(alloc, own, &name, &scope.path)? {
            return Ok(());
        }
        unless.push(scope.path.clone()?)?;
        let further = Further {
            body: scope.body,
            unless: unless.clone()?,
        };
        let further = Shared::new(alloc, further)?;
        own.add(Addition::UsesFurther(name.clone()?, scope.path.clone()?, further))?;
        rest = outer;
    }
    Ok(())
}

// Whether these facts declare the name in the scope at a path.
fn declares(alloc: Global, own: &Facts, name: &OwnName, path: &Path) -> Result<bool, AllocError>
    ensures { IfOk result (λ is.
        is ≡ is_some (own_at (λ k. over own.now.additions k None) name.now path.now)) }
{
    let key = LentKey::declared(alloc, name.spelling(), path);
    Ok(matches!(own.get(&key)?, Some(Addition::Declares(_))))
}
