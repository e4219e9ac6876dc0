//! What is said of what a name denotes: by `typeid` and `typeprefix`, by the text that stands behind the name; and by pragmas of
//! an id or a version.

ghost use Rattle.std.specs.Prelude.{◌≡◌, ℕ, IfOk, None, OnOk, Some, fold, if◌then◌else◌, option_to_list};
ghost use Rattle.idl_check.specs.ids.About.{said_at};
ghost use Rattle.idl_check.specs.ids.Identifying.{changed};
ghost use Rattle.idl_check.specs.ids.Remarks.{identified, is_bad_id, is_bad_text, purpose_of, remark, remarked, unless};
ghost use Rattle.idl_check.specs.tables.Rules.{is_id, is_no_id, is_prefixed, is_visible};
ghost use Rattle.idl_check.specs.walk.Held.{fixed_by};
ghost use Rattle.std.specs.Option.{option_copied};
ghost use Rattle.idl_env.specs.Facts.{answers, with_addition};
ghost use Rattle.idl_env.specs.declared.additions.addition.Addition.TheVariants.{Identifies, TypePrefixes};
ghost use Rattle.idl_env.specs.keys.Key.{key_eq};
ghost use Rattle.idl_entity.specs.declared.identity.Fixed.TheVariants.{Id as FixedId, Version as FixedVersion};
ghost use Rattle.idl_memo.specs.Query.{run};
ghost use Rattle.idl_parts.specs.declared.part.TextPurpose.TheVariants.{Id, Prefix};
ghost use Rattle.idl_scope.specs.Lookup.{under};

use crate::ids::identifying::{
    changed, has_id, id_text, is_fixed, is_given, is_id, is_visible, visible,
};
use crate::tables::codes::first_code;
use idl_base::{Bytes, Shared};
use idl_entity::{Entity, Fixed, Identity, Path};
use idl_env::{Addition, Env, Facts};
use idl_fault::Code;
use idl_memo::Journal;
use idl_parts::{TextPurpose, Use};
use idl_scope::View;
use std::alloc::{AllocError, Global};

/// What is said of an entity: the code of what is wrong with that, and what it adds.
#[derive(Drop)]
pub struct Remark {
    pub code: Option<Code>,
    pub adds: Option<Addition>,
}

/// Puts in what is added, if anything is.
pub fn add_any(own: &mut Facts, adds: Option<Addition>) -> Result<(), AllocError>
    ensures { OnOk result
        (own.new
        ≡ record own.old {
          additions = fold with_addition own.old.additions (option_to_list adds);
        }) }
{
    match adds {
        Some(addition) => own.add(addition),
        None => Ok(()),
    }
}

/// What the text behind a name is for that is used so, if something is said by it.
pub fn purpose_of(way: Use) -> Option<TextPurpose>
    ensures { result ≡ purpose_of way }
{
    match way {
        Use::AsIdentified => Some(TextPurpose::Id),
        Use::AsPrefixed => Some(TextPurpose::Prefix),
        _ => None,
    }
}

/// A text that stands behind a name.
#[derive(Clone, Copy)]
pub struct PragmaText<'a> {
    pub purpose: TextPurpose,
    pub characters: &'a [u16],
}

impl<'a> PragmaText<'a> {
    /// What is said by it of an entity that has the name.
    pub fn remark(
        self,
        view: View<'_>,
        log: &mut Journal<Env>,
        entity: &Entity,
    ) -> Result<Remark, AllocError>
        ensures { IfOk result (λ r. (at : ℕ) →
            (remarked at r, log.new)
            ≡ run key_eq
            (under view.entry.own.now.additions
            (remark self.entry.purpose at self.entry.characters.now entity.now))
            (answers view.entry.env.now) log.old) }
    {
        match self.purpose {
            TextPurpose::Context => Ok(Remark {
                code: None,
                adds: None,
            }),
            TextPurpose::Id => IdStatement::Text(self.characters).remark(view, log, entity),
            TextPurpose::Prefix => prefixed(view, log, entity, self.characters),
        }
    }
}

/// What is said of an id: that it is a text, or of which version it is.
#[derive(Clone, Copy)]
pub enum IdStatement<'a> {
    Text(&'a [u16]),
    Version(u16, u16),
}

impl<'a> IdStatement<'a> {
    /// Whether its text may be no id.
    pub fn is_bad(self) -> bool
        ensures { result ≡ is_bad_id (fixed_by self.entry) }
    {
        match self {
            IdStatement::Text(text) => !is_id(text),
            IdStatement::Version(_major, _minor) => false,
        }
    }

    /// What is said by it of an entity, as by `typeid` and by the pragmas.
    pub fn remark(
        self,
        view: View<'_>,
        log: &mut Journal<Env>,
        entity: &Entity,
    ) -> Result<Remark, AllocError>
        ensures { IfOk result (λ r. (at : ℕ) →
            (remarked at r, log.new)
            ≡ run key_eq
            (under view.entry.own.now.additions (identified at (fixed_by self.entry) entity.now))
            (answers view.entry.env.now) log.old) }
    {
        if !has_id(entity.kind()) {
            return Ok(Remark {
                code: Some(Code::NoRepositoryId),
                adds: None,
            });
        }
        let path = entity.path();
        let found = view.known(log, path)?;
        match found {
            Some(identity) => self.of_identity(view.env.alloc(), path, &identity),
            None => Ok(Remark {
                code: None,
                adds: None,
            }),
        }
    }

    // What is said by it of what is declared at a path, and identified so.
    fn of_identity(
        self,
        alloc: Global,
        path: &Path,
        before: &Identity,
    ) -> Result<Remark, AllocError>
        ensures { IfOk result (λ r. (at : ℕ) →
            remarked at r
            ≡ unless (is_bad_id (fixed_by self.entry))
            (said_at at (fixed_by self.entry) path.now before.now)) }
    {
        match self {
            IdStatement::Text(text) => given(alloc, path, before, text),
            IdStatement::Version(major, minor) => versioned(alloc, path, before, (major, minor)),
        }
    }
}

// What is said of what is declared at a path, and identified so, where a text is its id.
fn given(alloc: Global, path: &Path, before: &Identity, text: &[u16]) -> Result<Remark, AllocError>
    ensures { IfOk result (λ r. (at : ℕ) →
        remarked at r
        ≡ unless (is_no_id text.now) (said_at at (FixedId text.now) path.now before.now)) }
{
    let is_again = is_given(alloc, text, path, before)?;
    let adds = identifying(alloc, path, before, text)?;
    Ok(Remark {
        code: first_code(&[(is_again, Code::RepeatedId)]),
        adds,
    })
}

// What identifies it, where a text may be its id.
fn identifying(
    alloc: Global,
    path: &Path,
    before: &Identity,
    text: &[u16],
) -> Result<Option<Addition>, AllocError>
    ensures { IfOk result (λ adds.
        adds
        ≡ (if is_id text.now
        then Some (Identifies path.now (changed (FixedId text.now) before.now))
        else None)) }
{
    let spelled = id_text(alloc, text)?;
    match spelled {
        Some(id) => {
            let addition = fixing(alloc, path, before, Fixed::Id(id))?;
            Ok(Some(addition))
        }
        None => Ok(None),
    }
}

// What is said of it where this is its version.
fn versioned(
    alloc: Global,
    path: &Path,
    before: &Identity,
    version: (u16, u16),
) -> Result<Remark, AllocError>
    ensures { IfOk result (λ r. (at : ℕ) →
        remarked at r ≡ said_at at (FixedVersion version.0 version.1) path.now before.now) }
{
    let addition = fixing(alloc, path, before, Fixed::Version(version.0, version.1))?;
    Ok(Remark {
        code: first_code(&[(is_fixed(before), Code::RepeatedVersion)]),
        adds: Some(addition),
    })
}

// What fixes this of the id of what is declared at a path, and identified so.
fn fixing(alloc: Global, path: &Path, before: &Identity, by: Fixed) -> Result<Addition, AllocError>
    ensures { IfOk result (λ addition.
        addition ≡ Identifies path.now (changed by before.now)) }
{
    let identity = changed(alloc, before, by)?;
    let path = path.clone()?;
    Ok(Addition::Identifies(path, identity))
}

// What is said of an entity where a text is its typeprefix.
fn prefixed(
    view: View<'_>,
    log: &mut Journal<Env>,
    entity: &Entity,
    text: &[u16],
) -> Result<Remark, AllocError>
    ensures { IfOk result (λ r. (at : ℕ) →
        (remarked at r, log.new)
        ≡ run key_eq
        (under view.entry.own.now.additions (remark Prefix at text.now entity.now))
        (answers view.entry.env.now) log.old) }
{
    if !entity.kind().is_scope() {
        return Ok(Remark {
            code: Some(Code::NoScope),
            adds: None,
        });
    }
    let path = entity.path();
    let before = view.typeprefix(log, path)?;
    let is_again = is_prefixed(before);
    let adds = prefixing(view.env.alloc(), path, text)?;
    Ok(Remark {
        code: first_code(&[(is_again, Code::RepeatedTypeprefix)]),
        adds,
    })
}

// Whether a scope has a typeprefix.
fn is_prefixed(typeprefix: Option<&Shared<Bytes>>) -> bool
    ensures { result ≡ is_prefixed (option_copied typeprefix.entry) }
{
    match typeprefix {
        Some(_text) => true,
        None => false,
    }
}

// What gives the scope at a path a typeprefix, where a text may be one.
fn prefixing(alloc: Global, path: &Path, text: &[u16]) -> Result<Option<Addition>, AllocError>
    ensures { IfOk result (λ adds.
        adds ≡ (if is_visible text.now then Some (TypePrefixes path.now text.now) else None)) }
{
    let spelled = visible(alloc, text)?;
    match spelled {
        Some(prefix) => {
            let typeprefix = Shared::new(alloc, prefix)?;
            let path = path.clone()?;
            Ok(Some(Addition::TypePrefixes(path, typeprefix)))
        }
        None => Ok(None),
    }
}

/// Whether a text may not be what it is for.
pub fn is_bad_text(purpose: TextPurpose, text: &[u16]) -> bool
    ensures { result ≡ is_bad_text purpose text.now }
{
    match purpose {
        TextPurpose::Context => false,
        TextPurpose::Id => !is_id(text),
        TextPurpose::Prefix => !is_visible(text),
    }
}
