//! The type that was written last.

ghost use Rattle.std.specs.Prelude.{◌≡◌, IfOk, None, Some};
ghost use Rattle.idl_check.specs.told.Types.{named_or_told};
ghost use Rattle.idl_entity.specs.DataType.{plain_type};
ghost use Rattle.idl_entity.specs.declared.data_type.Element.TheVariants.{Named};

use idl_base::Shared;
use idl_entity::{DataType, Element, Path};
use std::alloc::{AllocError, Global};
use std::marker::Model;

/// The type that was written last, if there is one. Most scopes that end are used as a type no more:
/// so of such a type the path alone is kept, and it takes memory where it is asked for.
#[derive(Drop)]
pub struct LastType {
    told: Option<Shared<DataType>>,
    named: Option<Path>,
}

impl Model for LastType {
    ghost use Rattle.std.specs.Prelude.{Option};
    ghost use Rattle.idl_check.specs.told.Types.{named_or_told};
    ghost use Rattle.idl_entity.specs.declared.data_type.DataType.{DataType};

    ghost Value = { Option DataType };

    ghost view = { λ last. named_or_told last.named last.told };
}

impl LastType {
    /// None as yet.
    pub fn none() -> LastType
        ensures { result ≡ None }
    {
        LastType::told(None)
    }

    /// This one, if there is one.
    pub fn told(told: Option<Shared<DataType>>) -> LastType
        ensures { result ≡ told }
    {
        LastType { told, named: None }
    }

    /// What is declared at a path.
    pub fn named(path: Path) -> LastType
        ensures { result ≡ Some (plain_type (Named path)) }
    {
        LastType {
            told: None,
            named: Some(path),
        }
    }

    /// The type.
    #[inline(always)]
    pub fn get(&self, alloc: Global) -> Result<Option<Shared<DataType>>, AllocError>
        ensures { IfOk result (λ t. t ≡ self.now) }
    {
        match &self.named {
            Some(path) => type_named(alloc, path),
            None => self.told.clone(),
        }
    }
}

// The type that is what is declared at a path.
#[inline(never)]
fn type_named(alloc: Global, path: &Path) -> Result<Option<Shared<DataType>>, AllocError>
    ensures { IfOk result (λ t. t ≡ Some (plain_type (Named path.now))) }
{
    let element = Element::Named(path.clone()?);
    Ok(Some(DataType::plain(alloc, element)?))
}
