//! Types without aliases.

ghost use Rattle.std.specs.Prelude.{◌≡◌, IfOk, length, option_copied, slice_get, take};
ghost use Rattle.std.specs.Option.{option_and_then};
ghost use Rattle.idl_changes.specs.Plain.{around, named_by, opened_before, plain};
ghost use Rattle.idl_changes.specs.Tables.{each, plain_alias};

use crate::listing::{Listing, alias_of};
use idl_base::Seq;
use idl_repo::details::{ElementTree, LayeredType, Reference, RowTree};
use std::alloc::{AllocError, Global};

/// The plain type of each alias, which are looked up where one names another; nothing of what isn't an alias.
pub fn plain_aliases(
    alloc: Global,
    listing: &Listing<'_>,
) -> Result<Vec<Option<LayeredType>>, AllocError>
    ensures { IfOk result (λ plains.
        plains.items ≡ each (plain_alias listing.now) listing.now) }
{
    let mut plains = Vec::with_capacity(alloc, listing.len())?;
    for tree in listing.trees() {
        let plain = plain_alias(listing, &plains, tree)?;
        plains.push(plain)?;
    }
    Ok(plains)
}

// The plain type of the next entry, if it is an alias, where these are those of the entries before it.
fn plain_alias(
    listing: &Listing<'_>,
    plains: &[Option<LayeredType>],
    entry: &RowTree,
) -> Result<Option<LayeredType>, AllocError>
    requires { plains.now
        ≡ take (length plains.now) (each (plain_alias listing.now) listing.now) }
    ensures { IfOk result (λ plain.
        plain ≡ plain_alias listing.now (length plains.now) entry.now) }
{
    let Some(data_type) = alias_of(entry) else {
        return Ok(None);
    };
    let plain = opened(listing, plains, data_type)?;
    Ok(Some(plain))
}

/// A type without aliases, where these are the plain types of the aliases.
pub fn plain(
    listing: &Listing<'_>,
    plains: &[Option<LayeredType>],
    data_type: &LayeredType,
) -> Result<LayeredType, AllocError>
    requires { plains.now ≡ each (plain_alias listing.now) listing.now }
    ensures { IfOk result (λ t. t ≡ plain listing.now data_type.now) }
{
    opened(listing, plains, data_type)
}

// A type without the aliases that stand among the first entries, where these are their plain types.
fn opened(
    listing: &Listing<'_>,
    plains: &[Option<LayeredType>],
    data_type: &LayeredType,
) -> Result<LayeredType, AllocError>
    requires { plains.now
        ≡ take (length plains.now) (each (plain_alias listing.now) listing.now) }
    ensures { IfOk result (λ t. t ≡ opened_before listing.now (length plains.now) data_type.now) }
{
    match alias_among(listing, plains, &data_type.element) {
        Some(alias) => around(data_type, alias),
        None => copy_of(data_type),
    }
}

// The plain type of the alias that a type names, if it is among these.
fn alias_among<'p>(
    listing: &Listing<'_>,
    plains: &'p [Option<LayeredType>],
    element: &ElementTree,
) -> Option<&'p LayeredType>
    ensures { option_copied result
        ≡ option_and_then
        (λ n. option_and_then (λ plain. plain) (slice_get plains.entry.now n))
        (named_by listing.now element.now) }
{
    let place = named_by(listing, element)?;
    plains.get(place)?.as_ref()
}

/// The place of the entry that a type names.
pub fn named_by(listing: &Listing<'_>, element: &ElementTree) -> Option<usize>
    ensures { result ≡ named_by listing.now element.now }
{
    match element {
        ElementTree::Named(reference) => listing.place_of(&reference.path),
        _ => None,
    }
}

// A type with the layers of another one around it.
fn around(outer: &LayeredType, inner: &LayeredType) -> Result<LayeredType, AllocError>
    ensures { IfOk result (λ t. t ≡ around outer.now inner.now) }
{
    let mut layers = inner.layers.clone()?.into_vec();
    layers.extend_from_slice(outer.layers.as_slice())?;
    let element = element_copy(&inner.element)?;
    Ok(LayeredType {
        element,
        layers: Seq::from_vec(layers),
    })
}

// A copy of a type.
fn copy_of(data_type: &LayeredType) -> Result<LayeredType, AllocError>
    ensures { IfOk result (λ t. t ≡ data_type.now) }
{
    let layers = data_type.layers.clone()?;
    let element = element_copy(&data_type.element)?;
    Ok(LayeredType { element, layers })
}

// A copy of what a type is of.
fn element_copy(element: &ElementTree) -> Result<ElementTree, AllocError>
    ensures { IfOk result (λ copy. copy ≡ element.now) }
{
    Ok(match element {
        ElementTree::Void => ElementTree::Void,
        ElementTree::Constants(target) => ElementTree::Constants(target.clone()?),
        ElementTree::Unvalued(kind) => ElementTree::Unvalued(*kind),
        ElementTree::Named(reference) => ElementTree::Named(reference_copy(reference)?),
    })
}

// A copy of a reference.
fn reference_copy(reference: &Reference) -> Result<Reference, AllocError>
    ensures { IfOk result (λ copy. copy ≡ reference.now) }
{
    let id = reference.id.clone()?;
    let path = reference.path.clone()?;
    Ok(Reference { id, path })
}
