//! Types, as they are written where a name is declared.

ghost use Rattle.std.specs.Option.{option_copied};
ghost use Rattle.std.specs.Prelude.{◌≡◌, IfOk};
ghost use Rattle.idl_entity.specs.DataType.{constants_in, named_in, plain_type, with_arrays, with_layer};

use crate::paths::path::Path;
use crate::unvalued::Unvalued;
use idl_base::{Datum, Seq, Shared};
use idl_value::ConstantType;
use std::alloc::{AllocError, Global};

/// What a type is of, without the sequences and arrays around it.
#[derive(PartialEq, Eq, PartialOrd, Ord)]
pub enum Element {
    /// A type of keywords of which there are constants.
    Constants(ConstantType),
    /// What is declared at this path.
    Named(Path),
    /// Another type of keywords.
    Unvalued(Unvalued),
}

/// What is around a type.
#[derive(Clone, Copy, PartialEq, Eq, PartialOrd, Ord)]
pub enum Layer {
    /// A sequence of it, with its bound, or 0 if it has none.
    Sequence(u32),
    /// An array of it, with its length.
    Array(u32),
}

/// A type: what it is of, and what is around that, the innermost first.
#[derive(PartialEq, Eq, PartialOrd, Ord)]
pub struct DataType {
    pub element: Element,
    pub layers: Seq<Layer>,
}

impl Drop for Element {
    fn drop(self) {
        match self {
            Element::Constants(_target) => {}
            Element::Named(_path) => {}
            Element::Unvalued(_kind) => {}
        }
    }
}

impl Drop for DataType {
    fn drop(self) {
        let DataType {
            element: _element,
            layers: _layers,
        } = self;
    }
}

impl DataType {
    /// A type without sequences and arrays.
    pub fn plain(alloc: Global, element: Element) -> Result<Shared<DataType>, AllocError>
        ensures { IfOk result (λ t. t ≡ plain_type element) }
    {
        let layers = Seq::new(alloc);
        Shared::new(alloc, DataType { element, layers })
    }

    /// It with one layer more around it.
    pub fn within(&self, alloc: Global, layer: Layer) -> Result<Shared<DataType>, AllocError>
        ensures { IfOk result (λ t. t ≡ with_layer layer self.now) }
    {
        let element = self.element.clone()?;
        let mut layers = Vec::from_clones(alloc, self.layers.as_slice())?;
        layers.push(layer)?;
        let layers = Seq::from_vec(layers);
        Shared::new(alloc, DataType { element, layers })
    }

    /// It as what arrays are of that have these lengths, the outermost first.
    pub fn in_arrays(&self, alloc: Global, lengths: &[u32]) -> Result<Shared<DataType>, AllocError>
        ensures { IfOk result (λ t. t ≡ with_arrays lengths.now self.now) }
    {
        let element = self.element.clone()?;
        let mut layers = Vec::from_clones(alloc, self.layers.as_slice())?;
        let count = lengths.len();
        for back in 0..count {
            layers.push(Layer::Array(lengths[count - 1 - back]))?;
        }
        let layers = Seq::from_vec(layers);
        Shared::new(alloc, DataType { element, layers })
    }

    /// The type that its constants have, if it is one of keywords that has any.
    pub fn constants(&self) -> Option<&ConstantType>
        ensures { option_copied result ≡ constants_in self.now }
    {
        match &self.element {
            Element::Constants(target) if self.layers.is_empty() => Some(target),
            _ => None,
        }
    }

    /// The path of what it is another name for, if it is one.
    pub fn named(&self) -> Option<&Path>
        ensures { option_copied result ≡ named_in self.now }
    {
        match &self.element {
            Element::Named(path) if self.layers.is_empty() => Some(path),
            _ => None,
        }
    }
}

impl Clone for Element {
    ghost is_clone = { λ element copy. copy ≡ element };

    fn clone(&self) -> Result<Element, AllocError> {
        Ok(match self {
            Element::Constants(target) => Element::Constants(target.clone()?),
            Element::Named(path) => Element::Named(path.clone()?),
            Element::Unvalued(kind) => Element::Unvalued(*kind),
        })
    }
}

impl Clone for DataType {
    ghost is_clone = { λ t copy. copy ≡ t };

    fn clone(&self) -> Result<DataType, AllocError> {
        let element = self.element.clone()?;
        let layers = self.layers.clone()?;
        Ok(DataType { element, layers })
    }
}

impl Datum for Element {
    ghost use Rattle.idl_entity.specs.DataType.{same_element};

    ghost same = { same_element };

    ghost copy = { λ x y h. h };
}

impl Datum for Layer {
    ghost use Rattle.idl_entity.specs.DataType.{same_layer};

    ghost same = { same_layer };

    ghost copy = { λ x y h. h };
}

impl Datum for DataType {
    ghost use Rattle.idl_entity.specs.DataType.{same_data_type};

    ghost same = { same_data_type };

    ghost copy = { λ x y h. h };
}
