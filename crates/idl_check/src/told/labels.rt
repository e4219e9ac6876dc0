//! The labels of a union.

ghost use Rattle.std.specs.Prelude.{◌≡◌, OnOk, length, pos};
ghost use Rattle.std.specs.Option.{option_copied};
ghost use Rattle.std.specs.Map.{keys_of};
ghost use Rattle.idl_check.specs.told.Labels.{count_of, is_among, is_idle, is_labelled, no_labels, with_default, with_label, with_one};

use idl_map::Table;
use idl_value::{ConstantType, Value};
use std::alloc::{AllocError, Global};
use std::marker::Model;

/// The labels of a union so far.
pub struct UnionLabels {
    /// The type of the discriminator, if it may be one.
    target: Option<ConstantType>,
    /// Of an enum, how many enumerators it has.
    enumerators: u64,
    values: Table<Value, ()>,
    has_default: bool,
}

impl Drop for UnionLabels {
    fn drop(self) {
        let UnionLabels {
            target: _target,
            enumerators: _enumerators,
            values: _values,
            has_default: _has_default,
        } = self;
    }
}

impl Model for UnionLabels {
    ghost use Rattle.std.specs.Map.{keys_of};
    ghost use Rattle.idl_check.specs.told.Labels.{Labels};

    ghost Value = { Labels };

    ghost view = { λ labels. record {
      target = labels.target;
      enumerators = labels.enumerators;
      values = keys_of labels.values;
      has_default = labels.has_default;
    } };
}

impl UnionLabels {
    /// Before the first label. It takes no memory.
    pub fn new(alloc: Global, target: Option<ConstantType>, enumerators: u64) -> UnionLabels
        ensures { result ≡ no_labels target enumerators }
    {
        UnionLabels {
            target,
            enumerators,
            values: Table::new(alloc),
            has_default: false,
        }
    }

    /// The type of the discriminator, if it may be one.
    pub fn target(&self) -> Option<&ConstantType>
        ensures { option_copied result ≡ self.now.target }
    {
        self.target.as_ref()
    }

    /// Whether a value is labelled already.
    pub fn is_labelled(&self, value: &Value) -> bool
        ensures { result ≡ is_labelled self.now value.now }
    {
        is_among(&self.values, value)
    }

    /// A label more.
    pub fn add(&mut self, value: &Value) -> Result<(), AllocError>
        ensures { OnOk result (self.new ≡ with_label self.old value.now) }
    {
        add_one(&mut self.values, value)
    }

    /// Whether there is a `default`.
    pub fn has_default(&self) -> bool
        ensures { result ≡ self.now.has_default }
    {
        self.has_default
    }

    /// There is a `default`.
    pub fn add_default(&mut self)
        ensures { self.new ≡ with_default self.old }
    {
        self.has_default = true;
    }

    /// Whether there is a `default`, though all values are labelled.
    pub fn is_idle(&self) -> bool
        ensures { result ≡ is_idle self.now }
    {
        match self.count() {
            Some(count) => self.has_default && self.labelled() == count,
            None => false,
        }
    }

    // How many values there are to be labelled.
    fn count(&self) -> Option<i128>
        ensures { result ≡ count_of self.now }
    {
        match &self.target {
            Some(target) => target.value_count(self.enumerators),
            None => None,
        }
    }

    // How many of them are.
    fn labelled(&self) -> i128
        ensures { result ≡ pos (length self.now.values) }
    {
        self.values.len() as i128
    }
}

// Whether a value is in a table.
fn is_among(values: &Table<Value, ()>, value: &Value) -> bool
    ensures { result ≡ is_among (keys_of values.now) value.now }
{
    values.contains(value)
}

// A value more, unless it is there.
fn add_one(values: &mut Table<Value, ()>, value: &Value) -> Result<(), AllocError>
    ensures { OnOk result (keys_of values.new ≡ with_one (keys_of values.old) value.now) }
{
    if values.contains(value) {
        return Ok(());
    }
    values.push(value.clone()?, ())?;
    Ok(())
}
