//! Repository ids: which names have one, and what pragmas make of it.

ghost use Rattle.std.specs.Prelude.{◌≡◌, IfOk, None, Some, if◌then◌else◌};
ghost use Rattle.std.specs.Str.{bytes_eq};
ghost use Rattle.idl_check.specs.ids.Identifying.{changed, id_before, ids_of};
ghost use Rattle.idl_check.specs.tables.Rules.{has_id, has_other_prefix, is_fixed, is_given, is_id, is_visible, may_be_ahead};
ghost use Rattle.idl_memo.specs.Query.{run};
ghost use Rattle.idl_env.specs.Facts.{answers};
ghost use Rattle.idl_env.specs.keys.Key.{key_eq};
ghost use Rattle.idl_scope.specs.Lookup.{under};

use idl_base::{Bytes, Shared};
use idl_entity::paths::shared_name;
use idl_entity::{Entity, Fixed, FixedIdentity, Identity, Kind, Path, Prefix};
use idl_env::Env;
use idl_memo::Journal;
use idl_scope::View;
use std::alloc::{AllocError, Global};

// What an id has in it.
const COLON: u16 = 58;

/// What a declared name that has an id is told of ids.
pub struct Ids {
    /// The prefix in force.
    pub prefix: Shared<Prefix>,
    /// Its own id, if it was declared before and may have been declared ahead.
    pub before: Option<Identity>,
}

impl Drop for Ids {
    fn drop(self) {
        let Ids {
            prefix: _prefix,
            before: _before,
        } = self;
    }
}

/// Whether a name was declared first under another prefix.
pub fn is_of_other_prefix(ids: &Option<Ids>) -> bool
    ensures { result ≡ has_other_prefix ids.now }
{
    let Some(ids) = ids else {
        return false;
    };
    match &ids.before {
        Some(identity) => identity.prefix.get().text != ids.prefix.get().text,
        None => false,
    }
}

/// Whether it may be declared ahead.
pub fn may_be_ahead(kind: Kind) -> bool
    ensures { result ≡ may_be_ahead kind }
{
    kind == Kind::Interface || kind == Kind::Structure || kind == Kind::Union
}

/// Whether what is of this kind has an id.
pub fn has_id(kind: Kind) -> bool
    ensures { result ≡ has_id kind }
{
    match kind {
        Kind::Enumerator | Kind::Parameter | Kind::Member => false,
        _ => true,
    }
}

/// What a declared name is told of ids, under which that stands already.
pub fn ids_of(
    view: View<'_>,
    log: &mut Journal<Env>,
    there: &Option<Shared<Entity>>,
    new: &Entity,
) -> Result<Option<Ids>, AllocError>
    ensures { IfOk result (λ ids.
        (ids, log.new)
        ≡ run key_eq (under view.entry.own.now.additions (ids_of there.now new.now))
        (answers view.entry.env.now) log.old) }
{
    if !has_id(new.kind()) {
        return Ok(None);
    }
    let prefix = view.prefix(log)?;
    let before = id_before(view, log, there)?;
    Ok(Some(Ids { prefix, before }))
}

// The id of what was declared before under its name, if that may have been declared ahead.
fn id_before(
    view: View<'_>,
    log: &mut Journal<Env>,
    there: &Option<Shared<Entity>>,
) -> Result<Option<Identity>, AllocError>
    ensures { IfOk result (λ d.
        (d, log.new)
        ≡ run key_eq (under view.entry.own.now.additions (id_before there.now))
        (answers view.entry.env.now) log.old) }
{
    match there {
        Some(old) if may_be_ahead(old.get().kind()) => { view.known(log, old.get().path()) }
        _ => Ok(None),
    }
}

/// What identifies the name once this of its id is fixed.
pub fn changed(
    alloc: Global,
    before: &Identity,
    by: Fixed,
) -> Result<Shared<FixedIdentity>, AllocError>
    ensures { IfOk result (λ d. d ≡ changed by before.now) }
{
    let prefix = before.prefix.clone()?;
    Shared::new(alloc, FixedIdentity { prefix, by })
}

/// Whether an id was given of the name at a path, or another one than this told with its version.
pub fn is_given(
    alloc: Global,
    text: &[u16],
    path: &Path,
    before: &Identity,
) -> Result<bool, AllocError>
    ensures { IfOk result (λ b. b ≡ is_given text.now path.now before.now) }
{
    match &before.fixed {
        None => Ok(false),
        Some(Fixed::Id(_given)) => Ok(true),
        Some(Fixed::Version(_, _)) => {
            let mut id = Vec::new(alloc);
            before.push_id(&mut id, path)?;
            Ok(!is_spelled(text, id.as_slice()))
        }
    }
}

// Whether these are the characters of a text.
fn is_spelled(text: &[u16], id: &[u8]) -> bool
    ensures { result ≡ bytes_eq text.now id.now }
{
    let mut left = id;
    for character in text {
        let [byte, rest @ ..] = left else {
            return false;
        };
        if *character != u16::from(*byte) {
            return false;
        }
        left = rest;
    }
    left.is_empty()
}

/// Whether an id was given, or told with its version.
pub fn is_fixed(before: &Identity) -> bool
    ensures { result ≡ is_fixed before.now }
{
    before.fixed.is_some()
}

/// The bytes of a text of visible characters.
pub fn visible(alloc: Global, text: &[u16]) -> Result<Option<Bytes>, AllocError>
    ensures { IfOk result (λ spelled.
        spelled ≡ (if is_visible text.now then Some text.now else None)) }
{
    let mut bytes = Vec::new(alloc);
    for character in text {
        match u8::try_from(*character) {
            Ok(byte) if byte.is_ascii_graphic() => bytes.push(byte)?,
            _ => return Ok(None),
        }
    }
    Ok(Some(shared_name(alloc, bytes.as_slice())?))
}

/// The bytes of a text that may be an id.
pub fn id_text(alloc: Global, text: &[u16]) -> Result<Option<Bytes>, AllocError>
    ensures { IfOk result (λ spelled.
        spelled ≡ (if is_id text.now then Some text.now else None)) }
{
    if !is_id(text) {
        return Ok(None);
    }
    visible(alloc, text)
}

/// Whether a text has visible characters alone.
pub fn is_visible(text: &[u16]) -> bool
    ensures { result ≡ is_visible text.now }
{
    text.iter().all(|c| 33 <= *c && *c <= 126)
}

/// Whether a text may be an id.
pub fn is_id(text: &[u16]) -> bool
    ensures { result ≡ is_id text.now }
{
    is_visible(text) && text.contains(&COLON)
}
