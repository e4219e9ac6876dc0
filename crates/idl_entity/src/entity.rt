//! Entities: what names are declared as.
//!
//! An entity holds what it names itself: behind a typedef each next one is asked, so that a typedef that changes makes
//! only those stale that asked it. A constant's value stands here: one that gets another is another answer to that
//! question alone.

ghost use Rattle.std.specs.Prelude.{◌≡◌, [], IfOk, None, OnOk, Some, refl};
ghost use Rattle.std.specs.Cmp.{partial_order_from_agreeing_total};
ghost use Rattle.std.specs.Cmp.Lexicographic.{pointwise, slice_cmp};
ghost use Rattle.std.specs.Option.{option_cmp, option_copied, option_eq};
ghost use Rattle.idl_entity.specs.Entity.{declared_eq, entity_eq, entity_equiv, entity_per, is_operation, pathless_eq, rare_of};
ghost use Rattle.idl_entity.specs.Order.{declared_cmp, entity_cmp, entity_ties, entity_total, nature_cmp, path_cmp};
ghost use Rattle.idl_entity.specs.Path.{path_eq};
ghost use Rattle.idl_value.specs.idl_map.Order.{backwards_cmp};

use crate::data_type::DataType;
use crate::details::{Details, Rare};
use crate::kind::{Kind, Stage};
use crate::paths::path::Path;
use crate::signature::Signature;
use idl_base::{Bytes, Datum, Seq, Shared, copied_of};
use idl_value::Value;
use idl_value::idl_map::SharedList;
use std::alloc::{AllocError, Global};
use std::cmp::Ordering;
use std::marker::Model;
use std::mem::size_of;

/// What is known of a declared name, beside places and ids. To every contract it is the record of its parts.
///
/// A copy shares all that stands behind a pointer, and then a part of it can be set. What few entities have stands apart, so
/// that the others take little memory.
pub struct Entity {
    path: Path,
    nature: Nature,
    data_type: Option<Shared<DataType>>,
    details: Details,
}

/// What a name is declared as, and how far that has come.
#[derive(Clone, Copy)]
pub struct Nature {
    pub kind: Kind,
    /// Whether it is an interface that is declared `local`.
    pub is_local: bool,
    /// Whether it is an attribute that is declared `readonly`.
    pub is_readonly: bool,
    /// Whether it is an operation that is declared `oneway`.
    pub is_oneway: bool,
    pub stage: Stage,
}

// A large root declares hundreds of thousands of names.
const _: () = prove!(size_of::<Entity>() <= 56);

impl Model for Entity {
    ghost use Rattle.idl_entity.specs.Entity as specs;
    ghost use Rattle.idl_entity.specs.Details.{rare_in};

    ghost Value = { specs.Entity };

    ghost view = { λ entity. record {
      path = entity.path;
      kind = entity.nature.kind;
      is_local = entity.nature.is_local;
      is_readonly = entity.nature.is_readonly;
      is_oneway = entity.nature.is_oneway;
      stage = entity.nature.stage;
      data_type = entity.data_type;
      bases = (rare_in entity.details).bases;
      operations = (rare_in entity.details).operations;
      value = (rare_in entity.details).value;
      enumerators = (rare_in entity.details).enumerators;
      signature = (rare_in entity.details).signature;
    } };
}

impl Drop for Entity {
    fn drop(self) {
        let Entity {
            path: _path,
            nature: _nature,
            data_type: _data_type,
            details: _details,
        } = self;
    }
}

impl Clone for Entity {
    ghost is_clone = { λ entity copy. copy ≡ entity };

    fn clone(&self) -> Result<Entity, AllocError> {
        let path = self.path.clone()?;
        let data_type = self.data_type.clone()?;
        let details = self.details.clone()?;
        Ok(Entity {
            path,
            nature: self.nature,
            data_type,
            details,
        })
    }
}

impl PartialEq for Entity {
    ghost eq = { entity_eq };

    ghost laws = { entity_per };

    fn eq(&self, other: &Entity) -> bool
        ensures { result ≡ entity_eq self.now other.now }
    {
        self.path == other.path && self.is_like(other)
    }
}

impl Entity {
    // Whether another is one with it but for its path.
    fn is_like(&self, other: &Entity) -> bool
        ensures { result ≡ pathless_eq self.now other.now }
    {
        self.kind() == other.kind()
            && self.is_local() == other.is_local()
            && self.is_readonly() == other.is_readonly()
            && self.is_oneway() == other.is_oneway()
            && self.stage() == other.stage()
            && self.is_declared_like(other)
    }

    // Whether another is declared with what it is declared with.
    fn is_declared_like(&self, other: &Entity) -> bool
        ensures { result ≡ declared_eq self.now other.now }
    {
        self.data_type == other.data_type
            && self.bases() == other.bases()
            && self.has_operations_of(other)
            && are_one(self.value(), other.value())
            && self.enumerators() == other.enumerators()
            && are_one(self.signature(), other.signature())
    }

    // Whether the operations and attributes of another are its own.
    fn has_operations_of(&self, other: &Entity) -> bool
        ensures { result ≡ pointwise path_eq self.now.operations other.now.operations }
    {
        let none = SharedList::new();
        *self.operations_or(&none) == *other.operations_or(&none)
    }

    // The paths of its operations and attributes; those that are lent where it has none.
    fn operations_or<'a>(&'a self, none: &'a SharedList<Path>) -> &'a SharedList<Path>
        requires { none.now ≡ [] }
        ensures { result.now ≡ self.now.operations }
    {
        match &self.details {
            Details::Several(rare) => &rare.get().operations,
            _ => none,
        }
    }
}

// Whether both are there and one, or neither is.
fn are_one<T: Datum>(one: Option<&T>, other: Option<&T>) -> bool
    ensures { result ≡ option_eq T.eq (option_copied one.entry) (option_copied other.entry) }
{
    match (one, other) {
        (Some(one), Some(other)) => *one == *other,
        (None, None) => true,
        _ => false,
    }
}

impl Eq for Entity {
    ghost laws = { entity_equiv };
}

impl PartialOrd for Entity {
    ghost partial_cmp = { λ x y. Some (entity_cmp x y) };

    ghost laws = { partial_order_from_agreeing_total entity_cmp entity_total (λ x y. refl) entity_ties };

    fn partial_cmp(&self, other: &Entity) -> Option<Ordering> {
        Some(self.cmp(other))
    }
}

impl Ord for Entity {
    ghost cmp = { entity_cmp };

    ghost total = { entity_total };

    ghost matches_partial_cmp = { λ x y. refl };

    ghost matches_eq = { entity_ties };

    fn cmp(&self, other: &Entity) -> Ordering
        ensures { result ≡ entity_cmp self.now other.now }
    {
        self.path
            .cmp(&other.path)
            .then(self.nature_order(other))
            .then(self.declared_order(other))
    }
}

impl Entity {
    // Which comes first by what it is declared as.
    fn nature_order(&self, other: &Entity) -> Ordering
        ensures { result ≡ nature_cmp self.now other.now }
    {
        self.kind()
            .cmp(&other.kind())
            .then(self.is_local().cmp(&other.is_local()))
            .then(self.is_readonly().cmp(&other.is_readonly()))
            .then(self.is_oneway().cmp(&other.is_oneway()))
            .then(self.stage().cmp(&other.stage()))
    }

    // Which comes first by what it is declared with.
    fn declared_order(&self, other: &Entity) -> Ordering
        ensures { result ≡ declared_cmp self.now other.now }
    {
        self.data_type
            .cmp(&other.data_type)
            .then(self.bases().cmp(&other.bases()))
            .then(self.operations_order(other))
            .then(order_of(self.value(), other.value()))
            .then(self.enumerators().cmp(&other.enumerators()))
            .then(order_of(self.signature(), other.signature()))
    }

    // Which comes first by its operations and attributes.
    fn operations_order(&self, other: &Entity) -> Ordering
        ensures { result ≡ backwards_cmp path_cmp self.now.operations other.now.operations }
    {
        let none = SharedList::new();
        self.operations_or(&none).cmp(other.operations_or(&none))
    }
}

// Which comes first; nothing does before all.
fn order_of<T: Datum + Ord>(one: Option<&T>, other: Option<&T>) -> Ordering
    ensures { result ≡ option_cmp T.cmp (option_copied one.entry) (option_copied other.entry) }
{
    match (one, other) {
        (Some(one), Some(other)) => one.cmp(other),
        (None, None) => Ordering::Equal,
        (None, Some(_)) => Ordering::Less,
        (Some(_), None) => Ordering::Greater,
    }
}

impl Datum for Entity {
    ghost use Rattle.idl_entity.specs.Entity.{same_entity};

    ghost same = { same_entity };

    ghost copy = { λ x y h. h };
}

impl Entity {
    /// An entity without bases, operations, enumerators and signature, as most are.
    pub fn listless(
        path: Path,
        nature: Nature,
        data_type: Option<Shared<DataType>>,
        value: Option<Shared<Value>>,
    ) -> Entity
        ensures { result
            ≡ record {
              path = path;
              kind = nature.kind;
              is_local = nature.is_local;
              is_readonly = nature.is_readonly;
              is_oneway = nature.is_oneway;
              stage = nature.stage;
              data_type = data_type;
              bases = [];
              operations = [];
              value = value;
              enumerators = [];
              signature = None;
            } }
    {
        Entity {
            path,
            nature,
            data_type,
            details: Details::valued(value),
        }
    }

    /// It has come to this stage.
    pub fn set_stage(&mut self, stage: Stage)
        ensures { self.new ≡ record (self.old) { stage = stage } }
    {
        self.nature.stage = stage;
    }

    /// It has this type.
    pub fn set_data_type(&mut self, data_type: Option<Shared<DataType>>)
        ensures { self.new ≡ record (self.old) { data_type = data_type } }
    {
        self.data_type = data_type;
    }

    /// It has this value.
    pub fn set_value(
        &mut self,
        alloc: Global,
        value: Option<Shared<Value>>,
    ) -> Result<(), AllocError>
        ensures { OnOk result (self.new ≡ record (self.old) { value = value }) }
    {
        if let Details::Nothing | Details::Valued(_) = self.details {
            self.details = Details::valued(value);
            return Ok(());
        }
        let mut rare = self.rare(alloc)?;
        rare.value = value;
        self.set_rare(alloc, rare)
    }

    /// It shows this behind its name.
    pub fn set_signature(
        &mut self,
        alloc: Global,
        signature: Shared<Signature>,
    ) -> Result<(), AllocError>
        ensures { OnOk result (self.new ≡ record (self.old) { signature = Some signature }) }
    {
        if let Details::Nothing | Details::Signed(_) = self.details {
            self.details = Details::Signed(signature);
            return Ok(());
        }
        let mut rare = self.rare(alloc)?;
        rare.signature = Some(signature);
        self.set_rare(alloc, rare)
    }

    /// It has these bases.
    pub fn set_bases(&mut self, alloc: Global, bases: Seq<Path>) -> Result<(), AllocError>
        ensures { OnOk result (self.new ≡ record (self.old) { bases = bases }) }
    {
        let mut rare = self.rare(alloc)?;
        rare.bases = bases;
        self.set_rare(alloc, rare)
    }

    /// It has these operations and attributes.
    pub fn set_operations(
        &mut self,
        alloc: Global,
        operations: SharedList<Path>,
    ) -> Result<(), AllocError>
        ensures { OnOk result (self.new ≡ record (self.old) { operations = operations }) }
    {
        let mut rare = self.rare(alloc)?;
        rare.operations = operations;
        self.set_rare(alloc, rare)
    }

    /// It has these enumerators.
    pub fn set_enumerators(&mut self, alloc: Global, names: Seq<Bytes>) -> Result<(), AllocError>
        ensures { OnOk result (self.new ≡ record (self.old) { enumerators = names }) }
    {
        let mut rare = self.rare(alloc)?;
        rare.enumerators = names;
        self.set_rare(alloc, rare)
    }

    // What few have, each by itself: a copy.
    fn rare(&self, alloc: Global) -> Result<Rare, AllocError>
        ensures { IfOk result (λ rare. rare ≡ rare_of self.now) }
    {
        let bases = Seq::from_vec(Vec::from_clones(alloc, self.bases())?);
        let operations = self.operations()?;
        let value = copied_of(self.value())?;
        let enumerators = Seq::from_vec(Vec::from_clones(alloc, self.enumerators())?);
        let signature = copied_of(self.signature())?;
        Ok(Rare {
            bases,
            operations,
            value,
            enumerators,
            signature,
        })
    }

    // It has these, and what all have stays.
    fn set_rare(&mut self, alloc: Global, rare: Rare) -> Result<(), AllocError>
        ensures { OnOk result
            (self.new
            ≡ record (self.old) {
              bases = rare.bases;
              operations = rare.operations;
              value = rare.value;
              enumerators = rare.enumerators;
              signature = rare.signature;
            }) }
    {
        self.details = Details::Several(Shared::new(alloc, rare)?);
        Ok(())
    }
}

impl Entity {
    /// Its name as it is spelled, in the scope in which it is declared.
    pub fn path(&self) -> &Path
        ensures { result.now ≡ self.now.path }
    {
        &self.path
    }

    /// What it is.
    pub fn kind(&self) -> Kind
        ensures { result ≡ self.now.kind }
    {
        self.nature.kind
    }

    /// Whether it is an interface that is declared `local`.
    pub fn is_local(&self) -> bool
        ensures { result ≡ self.now.is_local }
    {
        self.nature.is_local
    }

    /// Whether it is an attribute that is declared `readonly`.
    pub fn is_readonly(&self) -> bool
        ensures { result ≡ self.now.is_readonly }
    {
        self.nature.is_readonly
    }

    /// Whether it is an operation that is declared `oneway`.
    pub fn is_oneway(&self) -> bool
        ensures { result ≡ self.now.is_oneway }
    {
        self.nature.is_oneway
    }

    /// How far it has come.
    pub fn stage(&self) -> Stage
        ensures { result ≡ self.now.stage }
    {
        self.nature.stage
    }

    /// The type that it is declared with: what an operation gives back, if it does, and of a union that of its labels.
    pub fn data_type(&self) -> &Option<Shared<DataType>>
        ensures { result.now ≡ self.now.data_type }
    {
        &self.data_type
    }

    /// The paths of the direct bases, in order.
    pub fn bases(&self) -> &[Path]
        ensures { result.now ≡ self.now.bases }
    {
        match &self.details {
            Details::Several(rare) => rare.get().bases.as_slice(),
            _ => &[],
        }
    }

    /// The paths of the operations and attributes of a closed interface.
    pub fn operations(&self) -> Result<SharedList<Path>, AllocError>
        ensures { IfOk result (λ paths. paths ≡ self.now.operations) }
    {
        match &self.details {
            Details::Several(rare) => rare.get().operations.clone(),
            _ => Ok(SharedList::new()),
        }
    }

    /// The value of a constant, once it is told, and of an enumerator.
    pub fn value(&self) -> Option<&Shared<Value>>
        ensures { option_copied result ≡ self.now.value }
    {
        match &self.details {
            Details::Valued(value) => Some(value),
            Details::Several(rare) => rare.get().value.as_ref(),
            _ => None,
        }
    }

    /// The names of the enumerators of an enum, in order.
    pub fn enumerators(&self) -> &[Bytes]
        ensures { result.now ≡ self.now.enumerators }
    {
        match &self.details {
            Details::Several(rare) => rare.get().enumerators.as_slice(),
            _ => &[],
        }
    }

    /// What it shows behind its name, once that is told.
    pub fn signature(&self) -> Option<&Shared<Signature>>
        ensures { option_copied result ≡ self.now.signature }
    {
        match &self.details {
            Details::Signed(signature) => Some(signature),
            Details::Several(rare) => rare.get().signature.as_ref(),
            _ => None,
        }
    }

    /// Whether it is an operation or an attribute.
    pub fn is_operation(&self) -> bool
        ensures { result ≡ is_operation self.now }
    {
        self.kind() == Kind::Operation || self.kind() == Kind::Attribute
    }
}
