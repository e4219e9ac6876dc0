//! The walk over types, expressions and labels.

ghost use Rattle.std.specs.Prelude.{◌≡◌, ◌∷◌, ◌++◌, [], IfOk, None, OnOk, Some, if◌then◌else◌, not, take};
ghost use Rattle.std.specs.List.{list_any};
ghost use Rattle.idl_check.specs.walk.Held.{held, held_values, held_written};
ghost use Rattle.idl_check.specs.told.Labels.{no_labels, with_default};
ghost use Rattle.idl_check.specs.told.Bodies.{with_body_label};
ghost use Rattle.idl_check.specs.told.Types.{target_in, written_as};
ghost use Rattle.idl_entity.specs.DataType.{plain_type};
ghost use Rattle.idl_entity.specs.declared.data_type.Element.TheVariants.{Constants};
ghost use Rattle.idl_check.specs.told.Values.{begun_at, code_of};
ghost use Rattle.idl_check.specs.walk.Walk.{begin_of, faulty_if, is_repeated, noted, noted_in, outcome_at, token_of, ended_array, value_visit, valued_after, with_labels};
ghost use Rattle.idl_fault.specs.declared.code.Code.TheVariants.{RepeatedLabel};
ghost use Rattle.idl_parts.specs.declared.part.Purpose.TheVariants as purpose;
ghost use Rattle.idl_unit.specs.TokenRules.{fault_at};
ghost use Rattle.idl_value.specs.ConstantType.{target_of};
ghost use Rattle.idl_value.specs.declared.outcome.Outcome.TheVariants as outcome;

use crate::tables::declaring::array_of;
use crate::told::bodies::{label_member, make_array};
use crate::told::labels::UnionLabels;
use crate::told::last_type::LastType;
use crate::told::types::{target_in, written_as};
use crate::told::values::{Types, code_of};
use crate::walk::walker::Walker;
use idl_base::{Bytes, Seq};
use idl_entity::Element;
use idl_env::Addition;
use idl_fault::Code;
use idl_parts::{Purpose, Shape};
use idl_tree::declarations::DiscreteType;
use idl_tree::{Expression, Several};
use idl_value::{ConstantType, Outcome, Value, ValueFault};
use std::alloc::{AllocError, Global};

impl<'a> Walker<'a> {
    /// An expression begins.
    pub fn begin_value(&mut self) -> Result<(), AllocError>
        ensures visit { held self.new
            ≡ record (held self.old) {
              values = begun_at self.old.at (held_values self.old.values);
            } }
        ensures env { self.new.env.now ≡ self.old.env.now }
    {
        self.values.begin(self.at);
        Ok(())
    }

    /// It ends.
    pub fn end_value(&mut self, way: Purpose, expression: &Expression) -> Result<(), AllocError>
        ensures visit { OnOk result
            (held self.new
            ≡ noted_in
            (value_visit (held self.old) way (outcome_at (held self.old) way expression.now))
            self.old.fault) }
        ensures at { OnOk result (self.new.at ≡ self.old.at) }
        ensures env { OnOk result (self.new.env.now ≡ self.old.env.now) }
    {
        let outcome = self.outcome(way, expression)?;
        match &outcome {
            Outcome::Value(value) => self.end_valued(way, value),
            Outcome::Fault(fault) => {
                self.note_value(*fault);
                self.values.end();
                Ok(())
            }
            Outcome::Told => {
                self.values.end();
                Ok(())
            }
        }
    }

    // What an expression comes to.
    fn outcome(&self, way: Purpose, expression: &Expression) -> Result<Outcome, AllocError>
        ensures { IfOk result (λ outcome. outcome ≡ outcome_at (held self.now) way expression.now) }
    {
        let types = Types {
            constant: self.written.constants.as_ref(),
            label: match self.unions.first() {
                Some(labels) => labels.target(),
                None => None,
            },
        };
        self.values
            .outcome(self.env.alloc(), way, types, expression)
    }

    // The number of its first token, not behind the next.
    fn begin_of(&self) -> usize
        ensures { result ≡ begin_of (held self.now) }
    {
        match self.values.begin {
            Some(at) => at.min(self.at),
            None => self.at,
        }
    }

    // The number of its token so many further on, not behind the next.
    fn token_of(&self, count: usize) -> usize
        ensures { result ≡ token_of (held self.now) count }
    {
        self.begin_of().saturating_add(count).min(self.at)
    }

    // Notes a fault in it.
    fn note_value(&mut self, fault: ValueFault)
        ensures { self.new
            ≡ record self.old {
              fault =
                  noted self.old.fault
                  (fault_at (token_of (held self.old) fault.token) (code_of fault.code) ∷ []);
            } }
    {
        let index = self.token_of(fault.token);
        self.note(index, Some(code_of(fault.code)));
    }

    // It has a value.
    fn end_valued(&mut self, way: Purpose, value: &Value) -> Result<(), AllocError>
        ensures visit { OnOk result
            (held self.new
            ≡ noted_in (value_visit (held self.old) way (outcome.Value value.now))
            self.old.fault) }
        ensures at { OnOk result (self.new.at ≡ self.old.at) }
        ensures env { OnOk result (self.new.env.now ≡ self.old.env.now) }
    {
        match way {
            Purpose::Label => self.label(value)?,
            Purpose::Bound | Purpose::Length | Purpose::Constant => {}
        }
        self.values.end_with(way, value)
    }

    // A label of the innermost union.
    fn label(&mut self, value: &Value) -> Result<(), AllocError>
        ensures visit { OnOk result
            (held self.new
            ≡ noted_in (record {
              faults =
                  if is_repeated (held self.old) purpose.Label value.now
                  then fault_at (begin_of (held self.old)) RepeatedLabel ∷ [] else [];
              after = valued_after (held self.old) purpose.Label value.now;
            }) self.old.fault) }
        ensures at { OnOk result (self.new.at ≡ self.old.at) }
        ensures env { OnOk result (self.new.env.now ≡ self.old.env.now) }
    {
        let begin = self.begin_of();
        label_member(&mut self.bodies, Some(value.clone()?))?;
        let Some(labels) = self.unions.first_mut() else {
            return Ok(());
        };
        if labels.is_labelled(value) {
            self.note(begin, Some(Code::RepeatedLabel));
            return Ok(());
        }
        labels.add(value)
    }

    /// The lengths of the array that was declared last are told.
    pub fn end_array(&mut self) -> Result<(), AllocError>
        ensures visit { OnOk result
            (held self.new ≡ ended_array (held self.old)) }
        ensures at { OnOk result (self.new.at ≡ self.old.at) }
        ensures env { OnOk result (self.new.env.now ≡ self.old.env.now) }
    {
        let alloc = self.env.alloc();
        let lengths = self.values.take_lengths();
        let Some(entity) = &self.last else {
            return Ok(());
        };
        let array = array_of(alloc, entity.get(), lengths.as_slice())?;
        make_array(&mut self.bodies, array.get())?;
        self.own.add(Addition::Declares(array))
    }

    /// A type ends that is no name.
    pub fn end_type(&mut self, shape: Shape) -> Result<(), AllocError>
        ensures visit { OnOk result
            (let t = written_as shape self.old.values.bound self.old.written.data_type in
            held self.new
            ≡ record (held self.old) {
              written = record (held_written self.old.written) {
                data_type = t;
                constants = target_in t;
              };
            }) }
        ensures at { OnOk result (self.new.at ≡ self.old.at) }
        ensures env { OnOk result (self.new.env.now ≡ self.old.env.now) }
    {
        let before = &self.written.data_type;
        let written = written_as(self.env, shape, self.values.bound, before)?;
        self.written.constants = match &written {
            Some(data_type) => target_in(data_type.get())?,
            None => None,
        };
        self.written.data_type = LastType::told(written);
        Ok(())
    }

    /// The enum that is declared next has these enumerators.
    pub fn enumerate(&mut self, names: &Several<Bytes>) -> Result<(), AllocError>
        ensures visit { OnOk result
            (held self.new
            ≡ record (held self.old) {
              written = record (held_written self.old.written) {
                enumerators = names.now.first ∷ names.now.rest;
              };
            }) }
        ensures at { OnOk result (self.new.at ≡ self.old.at) }
        ensures env { OnOk result (self.new.env.now ≡ self.old.env.now) }
    {
        self.written.enumerators = spelled(self.env.alloc(), names)?;
        Ok(())
    }

    /// A discriminator of keywords follows: a type of which there may be one, as the grammar has no other there.
    pub fn switch(&mut self, discrete: DiscreteType) -> Result<(), AllocError>
        ensures visit { OnOk result
            (held self.new
            ≡ record (held self.old) {
              written = record (held_written self.old.written) {
                data_type = Some (plain_type (Constants (target_of discrete)));
              };
              unions = no_labels (Some (target_of discrete)) 0 ∷ self.old.unions.items;
            }) }
        ensures at { OnOk result (self.new.at ≡ self.old.at) }
        ensures env { OnOk result (self.new.env.now ≡ self.old.env.now) }
    {
        let target = ConstantType::of_keywords(discrete);
        let element = Element::Constants(target.clone()?);
        self.written.data_type = LastType::told(Some(self.env.plain(element)?));
        let labels = UnionLabels::new(self.env.alloc(), Some(target), 0);
        self.unions.insert(0, labels)?;
        Ok(())
    }

    /// The label `default` follows.
    pub fn label_default(&mut self) -> Result<(), AllocError>
        ensures visit { OnOk result
            (held self.new
            ≡ noted_in
            (faulty_if (list_any (λ l. l.has_default) (take 1 self.old.unions.items))
            RepeatedLabel (held self.old) (record (held self.old) {
              unions = with_labels with_default self.old.unions.items;
              bodies = with_body_label None self.old.bodies;
            })) self.old.fault) }
        ensures at { OnOk result (self.new.at ≡ self.old.at) }
        ensures env { OnOk result (self.new.env.now ≡ self.old.env.now) }
    {
        label_member(&mut self.bodies, None)?;
        let Some(labels) = self.unions.first_mut() else {
            return Ok(());
        };
        let is_repeated = labels.has_default();
        labels.add_default();
        if is_repeated {
            self.note(self.at, Some(Code::RepeatedLabel));
            return Ok(());
        }
        Ok(())
    }
}

// Names as they are spelled.
fn spelled(alloc: Global, names: &Several<Bytes>) -> Result<Seq<Bytes>, AllocError>
    ensures { IfOk result (λ spelled. spelled ≡ names.now.first ∷ names.now.rest) }
{
    let mut spelled = Vec::new(alloc);
    spelled.push(names.first.clone()?)?;
    spell_each(&mut spelled, names.rest.as_slice())?;
    Ok(Seq::from_vec(spelled))
}

// Names more as they are spelled.
fn spell_each(spelled: &mut Vec<Bytes>, names: &[Bytes]) -> Result<(), AllocError>
    ensures { OnOk result (spelled.new.items ≡ spelled.old.items ++ names.now) }
{
    for name in names {
        spelled.push(name.clone()?)?;
    }
    Ok(())
}
