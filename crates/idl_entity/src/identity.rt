//! What identifies a declared name: the prefix under which it was declared first, the typeprefix of a scope around it, and what was
//! fixed of its repository id. The three tell the id.
//!
//! `FixedIdentity` can't say "nothing", so no identity has two answers. Nothing fixed is an answer of its own
//! (`Appeared`), since a block for it would cost each declared name an allocation.

ghost use Rattle.std.specs.Prelude.{◌≡◌, ◌++◌, ◌∷◌, [], IfOk, None, OnOk, Some, decimal};
ghost use Rattle.std.specs.Option.{option_copied};
ghost use Rattle.idl_entity.specs.Identity.{first_identity, fixed_for, identity_of, is_within, no_prefix, prefix_for, prefixed, relative, slashed, stem, told, told_by, without_scope};
ghost use Rattle.idl_entity.specs.Path.{scope_of};

use crate::paths::name::shared_name;
use crate::paths::names::Names;
use crate::paths::path::Path;
use idl_base::{Bytes, Datum, Shared};
use itoa::Buffer;
use std::alloc::{AllocError, Global};

/// A prefix of repository ids: its text, and the path of the scope in which it was met.
#[derive(Clone, PartialEq, Eq, PartialOrd, Ord)]
pub struct Prefix {
    pub text: Bytes,
    pub scope: Path,
}

/// What is fixed of an id, by a pragma or a typeid.
#[derive(Clone, PartialEq, Eq, PartialOrd, Ord)]
pub enum Fixed {
    /// Its version.
    Version(u16, u16),
    /// All of it.
    Id(Bytes),
}

/// What identifies a declared name.
pub struct Identity {
    /// The prefix that was in force where the name was declared first.
    pub prefix: Shared<Prefix>,
    /// The typeprefix that takes its place: that of the innermost scope which has one, of the name itself and those around it.
    pub typeprefix: Option<Shared<Bytes>>,
    /// What was fixed so far, if anything was.
    pub fixed: Option<Fixed>,
}

/// What identifies a name of whose id something was fixed.
#[derive(Clone, PartialEq, Eq, PartialOrd, Ord)]
pub struct FixedIdentity {
    /// The prefix that was in force where the name was declared first.
    pub prefix: Shared<Prefix>,
    /// What was fixed.
    pub by: Fixed,
}

impl Drop for Prefix {
    fn drop(self) {
        let Prefix {
            text: _text,
            scope: _scope,
        } = self;
    }
}

impl Drop for Fixed {
    fn drop(self) {
        match self {
            Fixed::Version(_, _) => {}
            Fixed::Id(_text) => {}
        }
    }
}

impl Drop for Identity {
    fn drop(self) {
        let Identity {
            prefix: _prefix,
            typeprefix: _typeprefix,
            fixed: _fixed,
        } = self;
    }
}

impl Drop for FixedIdentity {
    fn drop(self) {
        let FixedIdentity {
            prefix: _prefix,
            by: _by,
        } = self;
    }
}

impl Prefix {
    /// The empty prefix, met in the global scope.
    pub fn none(alloc: Global) -> Result<Shared<Prefix>, AllocError>
        ensures { IfOk result (λ prefix. prefix ≡ no_prefix) }
    {
        let text = shared_name(alloc, b"")?;
        let scope = Path::global();
        Shared::new(alloc, Prefix { text, scope })
    }

    // A typeprefix as a prefix: it stands before the whole path.
    fn of_scope(typeprefix: &Bytes) -> Result<Prefix, AllocError>
        ensures { IfOk result (λ prefix. prefix ≡ record { text = typeprefix.now; scope = [] }) }
    {
        Ok(Prefix {
            text: typeprefix.clone()?,
            scope: Path::global(),
        })
    }

    // Whether the name at a path stands in the scope in which it was met.
    #[tactic(auto, using(crate::proofs::IdLemmas::within_global))]
    fn is_around(&self, path: &Path) -> bool
        ensures { result ≡ is_within (scope_of path.now) self.now.scope }
    {
        self.scope.lent().is_empty() || path.around().are_within(&self.scope)
    }

    // It with its text alone.
    fn without_scope(&self, alloc: Global) -> Result<Shared<Prefix>, AllocError>
        ensures { IfOk result (λ prefix. prefix ≡ without_scope self.now) }
    {
        let text = self.text.clone()?;
        let scope = Path::global();
        Shared::new(alloc, Prefix { text, scope })
    }

    // Writes the id of the name at a path up to its version.
    #[inline(always)]
    fn push_stem(&self, text: &mut Vec<u8>, path: &Path) -> Result<(), AllocError>
        ensures { OnOk result (text.new.items ≡ text.old.items ++ stem path.now self.now) }
    {
        text.extend_from_slice(b"IDL:")?;
        push_prefix(text, self.text.as_bytes())?;
        push_slashed(text, path.lent(), &self.scope)?;
        Ok(())
    }

    // Writes the id of the name at a path that has this prefix, of which nothing is fixed.
    fn push_first(&self, text: &mut Vec<u8>, path: &Path) -> Result<(), AllocError>
        ensures { OnOk result
            (text.new.items ≡ text.old.items ++ told_by path.now self.now None) }
    {
        self.push_stem(text, path)?;
        text.extend_from_slice(b":1.0")?;
        Ok(())
    }

    /// Writes the id of the name at a path that was declared first under this prefix, of which nothing is fixed, under a typeprefix,
    /// if there is one.
    pub fn push_id(
        &self,
        text: &mut Vec<u8>,
        path: &Path,
        typeprefix: Option<&Shared<Bytes>>,
    ) -> Result<(), AllocError>
        ensures { OnOk result
            (text.new.items
            ≡ text.old.items
            ++ told path.now (first_identity (option_copied typeprefix.entry) self.now)) }
    {
        match typeprefix {
            Some(over) => Prefix::of_scope(over.get())?.push_first(text, path),
            None => self.push_first(text, path),
        }
    }
}

/// A prefix as it tells the id of the name at a path: where the name stands outside of the scope in which it was met, it is told as
/// if that was the global scope.
pub fn prefix_for(
    alloc: Global,
    path: &Path,
    prefix: Shared<Prefix>,
) -> Result<Shared<Prefix>, AllocError>
    ensures { IfOk result (λ told. told ≡ prefix_for path.now prefix) }
{
    if prefix.get().is_around(path) {
        return Ok(prefix);
    }
    prefix.get().without_scope(alloc)
}

// A prefix with the `/` behind it.
fn push_prefix(id: &mut Vec<u8>, text: &[u8]) -> Result<(), AllocError>
    ensures { OnOk result (id.new.items ≡ id.old.items ++ prefixed text.now) }
{
    if text.is_empty() {
        return Ok(());
    }
    id.extend_from_slice(text)?;
    id.push(b'/')?;
    Ok(())
}

// The parts of a path as it is told in a scope, the outermost first, with `/` between them.
#[tactic(auto, using(crate::proofs::IdLemmas::slashed_none, crate::proofs::IdLemmas::slashed_ends, crate::proofs::IdLemmas::slashed_last, crate::proofs::IdLemmas::slashed_further))]
fn push_slashed(id: &mut Vec<u8>, path: Names<'_>, scope: &Path) -> Result<(), AllocError>
    ensures { OnOk result (id.new.items ≡ id.old.items ++ slashed (relative path.entry scope.now)) }
{
    let Some((name, around)) = path.split_first() else {
        return Ok(());
    };
    if around.is_empty() || around.are_those(&scope.lent()) {
        id.extend_from_slice(name)?;
        return Ok(());
    }
    push_slashed(id, around, scope)?;
    id.push(b'/')?;
    id.extend_from_slice(name)?;
    Ok(())
}

// A version.
fn push_version(id: &mut Vec<u8>, major: u16, minor: u16) -> Result<(), AllocError>
    ensures { OnOk result (id.new.items ≡ id.old.items ++ decimal major ++ 46 ∷ decimal minor) }
{
    push_number(id, major)?;
    id.push(b'.')?;
    push_number(id, minor)?;
    Ok(())
}

// A number in decimal.
fn push_number(id: &mut Vec<u8>, number: u16) -> Result<(), AllocError>
    ensures { OnOk result (id.new.items ≡ id.old.items ++ decimal number) }
{
    let mut buffer = Buffer::new();
    id.extend_from_slice(buffer.format(number).as_bytes())?;
    Ok(())
}

impl Identity {
    /// Writes the id of the name at a path that this identifies.
    pub fn push_id(&self, text: &mut Vec<u8>, path: &Path) -> Result<(), AllocError>
        ensures { OnOk result (text.new.items ≡ text.old.items ++ told path.now self.now) }
    {
        match &self.typeprefix {
            Some(over) => push_told(text, path, &Prefix::of_scope(over.get())?, &self.fixed),
            None => push_told(text, path, self.prefix.get(), &self.fixed),
        }
    }
}

impl FixedIdentity {
    /// Writes the id of the name at a path that this identifies, under a typeprefix, if there is one.
    pub fn push_id(
        &self,
        text: &mut Vec<u8>,
        path: &Path,
        typeprefix: Option<&Shared<Bytes>>,
    ) -> Result<(), AllocError>
        ensures { OnOk result
            (text.new.items
            ≡ text.old.items ++ told path.now (identity_of (option_copied typeprefix.entry) self.now)) }
    {
        match typeprefix {
            Some(over) => push_fixed(text, path, &Prefix::of_scope(over.get())?, &self.by),
            None => push_fixed(text, path, self.prefix.get(), &self.by),
        }
    }

    /// What a name is identified by that has it, under a typeprefix, if there is one.
    pub fn identity(&self, typeprefix: Option<Shared<Bytes>>) -> Result<Identity, AllocError>
        ensures { IfOk result (λ d. d ≡ identity_of typeprefix self.now) }
    {
        let prefix = self.prefix.clone()?;
        let fixed = Some(self.by.clone()?);
        Ok(Identity {
            prefix,
            typeprefix,
            fixed,
        })
    }

    /// It with no more than tells the id of the name at a path: of an id that was given the prefix has its text alone.
    pub fn told_at(&self, alloc: Global, path: &Path) -> Result<Shared<FixedIdentity>, AllocError>
        ensures { IfOk result (λ d. d ≡ fixed_for path.now self.now) }
    {
        let prefix = match &self.by {
            Fixed::Version(_, _) => prefix_for(alloc, path, self.prefix.clone()?)?,
            Fixed::Id(_) => self.prefix.get().without_scope(alloc)?,
        };
        let by = self.by.clone()?;
        Shared::new(alloc, FixedIdentity { prefix, by })
    }
}

// Writes the id of the name at a path that has a prefix, of which so much is fixed.
fn push_told(
    text: &mut Vec<u8>,
    path: &Path,
    prefix: &Prefix,
    fixed: &Option<Fixed>,
) -> Result<(), AllocError>
    ensures { OnOk result
        (text.new.items ≡ text.old.items ++ told_by path.now prefix.now fixed.now) }
{
    match fixed {
        Some(by) => push_fixed(text, path, prefix, by),
        None => prefix.push_first(text, path),
    }
}

// The same, where this is fixed.
fn push_fixed(
    text: &mut Vec<u8>,
    path: &Path,
    prefix: &Prefix,
    by: &Fixed,
) -> Result<(), AllocError>
    ensures { OnOk result
        (text.new.items ≡ text.old.items ++ told_by path.now prefix.now (Some by.now)) }
{
    match by {
        Fixed::Version(major, minor) => {
            prefix.push_stem(text, path)?;
            text.push(b':')?;
            push_version(text, *major, *minor)
        }
        Fixed::Id(id) => text.extend_from_slice(id.as_bytes()),
    }
}

impl Datum for Fixed {
    ghost use Rattle.idl_entity.specs.SameIdentity.{same_fixed, copied_fixed};

    ghost same = { same_fixed };

    ghost copy = { copied_fixed };
}

impl Datum for Prefix {
    ghost use Rattle.idl_entity.specs.SameIdentity.{same_prefix, copied_prefix};

    ghost same = { same_prefix };

    ghost copy = { copied_prefix };
}

impl Datum for FixedIdentity {
    ghost use Rattle.idl_entity.specs.SameIdentity.{same_identity, copied_identity};

    ghost same = { same_identity };

    ghost copy = { copied_identity };
}
