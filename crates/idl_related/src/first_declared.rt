//! Where a name that is declared again is declared first.

ghost use Rattle.std.specs.Prelude.{◌≡◌, ◌++◌, [], IfOk, OnOk, Some, flat_map, nat_eq};
ghost use Rattle.std.specs.List.{fold};
ghost use Rattle.std.specs.Map.{lookup};
ghost use Rattle.std.specs.Option.{option_or};
ghost use Rattle.idl_env.specs.keys.Key.{key_eq};
ghost use Rattle.idl_related.specs.FirstDeclared.{declared_at, first_declaration, names_over, seconds_at, with_name};

use crate::about::push;
use crate::second::{Reason, Second, TokenPosition};
use idl_check::{NameRole, NamedSite, Scratch, names_of};
use idl_env::{DigestedKey, Env, Key};
use idl_map::Table;
use idl_unit::UnitText;
use std::alloc::{AllocError, Global};

/// The names that the unit with a number declares, up to its fault where it has one, each at the key by which it is asked.
pub fn names_in(
    scratch: &mut Scratch,
    env: &Env,
    number: usize,
    text: &UnitText,
) -> Result<Vec<(DigestedKey, TokenPosition)>, AllocError>
    ensures { IfOk result (λ names. names.items ≡ names_over env.now number text.now) }
{
    let names = names_of(scratch, env, text)?;
    declared_in(env.alloc(), number, names.as_slice())
}

// Those of these names of the unit with this number that it declares.
fn declared_in(
    alloc: Global,
    number: usize,
    sites: &[NamedSite],
) -> Result<Vec<(DigestedKey, TokenPosition)>, AllocError>
    ensures { IfOk result (λ names. names.items ≡ flat_map (declared_at number) sites.now) }
{
    let mut names = Vec::new(alloc);
    for site in sites {
        push_declared(&mut names, alloc, number, site)?;
    }
    Ok(names)
}

// Puts in a name of the unit with this number, if it declares.
fn push_declared(
    names: &mut Vec<(DigestedKey, TokenPosition)>,
    alloc: Global,
    number: usize,
    site: &NamedSite,
) -> Result<(), AllocError>
    ensures { OnOk result
        (names.new.items ≡ names.old.items ++ declared_at number site.now) }
{
    match site.role {
        NameRole::Declared => {
            let key = Key::of_entity(alloc, &site.path)?;
            let spot = TokenPosition {
                unit: number,
                token: site.index,
            };
            names.push((key, spot))?;
            Ok(())
        }
        NameRole::Used => Ok(()),
    }
}

/// Puts in those of these names at whose keys there is none.
pub fn add_names(
    first: &mut Table<DigestedKey, TokenPosition>,
    names: &[(DigestedKey, TokenPosition)],
) -> Result<(), AllocError>
    ensures { OnOk result (first.new ≡ fold with_name first.old names.now) }
{
    for name in names {
        add_name(first, name)?;
    }
    Ok(())
}

// Puts in a name, if there is none at its key.
fn add_name(
    first: &mut Table<DigestedKey, TokenPosition>,
    name: &(DigestedKey, TokenPosition),
) -> Result<(), AllocError>
    ensures { OnOk result (first.new ≡ with_name first.old name.now) }
{
    if first.contains(&name.0) {
        return Ok(());
    }
    let key = name.0.clone()?;
    first.insert(key, name.1)
}

/// Where that of a unit's own names which stands at a token is declared first, if that is before it: by the first of others at its key, or
/// else of those before it.
pub fn first_declaration(
    alloc: Global,
    first: &Table<DigestedKey, TokenPosition>,
    own: &[(DigestedKey, TokenPosition)],
    token: usize,
) -> Result<Option<TokenPosition>, AllocError>
    ensures { IfOk result (λ spot. spot ≡ first_declaration token first.now [] own.now) }
{
    let mut before = Table::new(alloc);
    for name in own {
        if is_at(name, token) {
            return Ok(first_of(first, &before, &name.0));
        }
        add_name(&mut before, name)?;
    }
    Ok(None)
}

// Whether a name stands at a token.
fn is_at(name: &(DigestedKey, TokenPosition), token: usize) -> bool
    ensures { result ≡ nat_eq name.now.1.token token }
{
    name.1.token == token
}

// Where the one of these names that is at a key stands, or else the one of others.
fn first_of(
    names: &Table<DigestedKey, TokenPosition>,
    others: &Table<DigestedKey, TokenPosition>,
    key: &DigestedKey,
) -> Option<TokenPosition>
    ensures { result
        ≡ option_or (lookup (key_eq key.now) names.now) (lookup (key_eq key.now) others.now) }
{
    match names.get(key) {
        Some(spot) => Some(*spot),
        None => others.get(key).copied(),
    }
}

/// The second place of a name that is declared first there, if it is declared before.
pub fn seconds_at(alloc: Global, spot: Option<TokenPosition>) -> Result<Vec<Second>, AllocError>
    ensures { IfOk result (λ seconds. seconds.items ≡ seconds_at spot) }
{
    match spot {
        Some(spot) => second_at(alloc, spot),
        None => Ok(Vec::new(alloc)),
    }
}

// The same, where it is.
fn second_at(alloc: Global, spot: TokenPosition) -> Result<Vec<Second>, AllocError>
    ensures { IfOk result (λ seconds. seconds.items ≡ seconds_at (Some spot)) }
{
    let mut seconds = Vec::new(alloc);
    push(&mut seconds, Reason::Declared, spot)?;
    Ok(seconds)
}
