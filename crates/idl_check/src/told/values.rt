//! The expressions of a unit.

ghost use Rattle.std.specs.Prelude.{◌≡◌, ◌∷◌, ◌++◌, [], IfOk, None, OnOk};
ghost use Rattle.std.specs.Option.{option_copied};
ghost use Rattle.idl_check.specs.walk.Held.{held_values};
ghost use Rattle.idl_check.specs.Apart.{boxed_or};
ghost use Rattle.idl_check.specs.told.Values.{begun_at, code_of, evaluation_for, evaluation_in, no_values, nothing_kept, number_of, with_operand, with_value};
ghost use Rattle.idl_value.specs.Evaluation.{first_of};

use idl_base::Shared;
use idl_fault::Code;
use idl_parts::Purpose;
use idl_tree::Expression;
use idl_value::{ConstantType, Outcome, Value, ValueCode, evaluate, evaluate_bound};
use std::alloc::{AllocError, Global};
use std::marker::Model;
use std::mem::replace;

/// How far the expressions of a unit have come. Most units have none, which takes no memory.
#[derive(Drop)]
pub struct Values {
    alloc: Global,
    /// Inside one, the number of its first token.
    pub begin: Option<usize>,
    /// The last bound.
    pub bound: Option<u32>,
    /// The value of a constant.
    pub constant: Option<Value>,
    /// What is kept of them, if there are any.
    pub kept: Option<Box<ValuesSoFar>>,
}

/// What is kept of the expressions of a unit that has some.
pub struct ValuesSoFar {
    /// The values of the names of the last so far.
    operands: Vec<Option<Value>>,
    /// Those of the expressions before, in order.
    told: Vec<Value>,
    /// The lengths of an array so far.
    lengths: Vec<u32>,
}

impl Drop for ValuesSoFar {
    fn drop(self) {
        let ValuesSoFar {
            operands: _operands,
            told: _told,
            lengths: _lengths,
        } = self;
    }
}

impl Model for ValuesSoFar {
    ghost use Rattle.idl_check.specs.told.Values.{ValuesSoFar as KeptValues};

    ghost Value = { KeptValues };

    ghost view = { λ kept. record {
      operands = kept.operands.items;
      told = kept.told.items;
      lengths = kept.lengths.items;
    } };
}

/// The types that constants and labels are to be of, where they are known.
#[derive(Clone, Copy)]
pub struct Types<'a> {
    pub constant: Option<&'a ConstantType>,
    pub label: Option<&'a ConstantType>,
}

impl Values {
    /// Before the first. It takes no memory.
    pub fn new(alloc: Global) -> Values
        ensures { held_values result ≡ no_values }
    {
        Values {
            alloc,
            begin: None,
            bound: None,
            constant: None,
            kept: None,
        }
    }

    /// One begins at this token.
    pub fn begin(&mut self, at: usize)
        ensures { held_values self.new ≡ begun_at at (held_values self.old) }
    {
        self.begin = Some(at);
        if let Some(kept) = &mut self.kept {
            kept.operands.clear();
        }
    }

    // What is kept of them so far.
    fn take(&mut self) -> Result<Box<ValuesSoFar>, AllocError>
        ensures kept { IfOk result (λ kept. kept.value ≡ boxed_or nothing_kept self.old.kept) }
        ensures rest { self.new ≡ record self.old { kept = None } }
    {
        match self.kept.take() {
            Some(kept) => Ok(kept),
            None => Ok(Box::new(self.alloc, ValuesSoFar::new(self.alloc))?),
        }
    }

    /// The values of the expressions before, in order.
    pub fn told(&self) -> &[Value]
        ensures { result.now ≡ (held_values self.now).told }
    {
        match &self.kept {
            Some(kept) => kept.told.as_slice(),
            None => &[],
        }
    }

    /// The lengths of an array so far, which are taken out.
    pub fn take_lengths(&mut self) -> Vec<u32>
        ensures lengths { result.items ≡ (held_values self.old).lengths }
        ensures rest { held_values self.new ≡ record (held_values self.old) { lengths = [] } }
    {
        match &mut self.kept {
            Some(kept) => replace(&mut kept.lengths, Vec::new(self.alloc)),
            None => Vec::new(self.alloc),
        }
    }

    /// The value of its next name, if it has one.
    pub fn add_operand(&mut self, value: Option<&Shared<Value>>) -> Result<(), AllocError>
        ensures { OnOk result
            (held_values self.new
            ≡ with_operand (option_copied value.entry) (held_values self.old)) }
    {
        let operand = match value {
            Some(value) => Some(value.get().clone()?),
            None => None,
        };
        let mut kept = self.take()?;
        kept.operands.push(operand)?;
        self.kept = Some(kept);
        Ok(())
    }

    /// What it comes to.
    pub fn outcome(
        &self,
        alloc: Global,
        way: Purpose,
        types: Types<'_>,
        expression: &Expression,
    ) -> Result<Outcome, AllocError>
        ensures { IfOk result (λ outcome.
            outcome
            ≡ first_of
            (evaluation_for way (option_copied types.entry.constant)
            (option_copied types.entry.label) (held_values self.now).operands expression.now)) }
    {
        let operands = match &self.kept {
            Some(kept) => kept.operands.as_slice(),
            None => &[],
        };
        match way {
            Purpose::Bound | Purpose::Length => evaluate_bound(alloc, operands, expression),
            Purpose::Constant => value_for(alloc, types.constant, operands, expression),
            Purpose::Label => value_for(alloc, types.label, operands, expression),
        }
    }

    /// It has no value.
    pub fn end(&mut self)
        ensures { held_values self.new ≡ record (held_values self.old) { begin = None } }
    {
        self.begin = None;
    }

    /// It is for this, and has this value.
    #[tactic(auto, using(idl_value::specs::Exact::copied_value))]
    pub fn end_with(&mut self, way: Purpose, value: &Value) -> Result<(), AllocError>
        ensures { OnOk result
            (held_values self.new ≡ with_value way value.now (held_values self.old)) }
    {
        self.begin = None;
        self.add_told(value.clone()?)?;
        match way {
            Purpose::Bound => {
                self.bound = number_of(value);
                Ok(())
            }
            Purpose::Constant => {
                self.constant = Some(value.clone()?);
                Ok(())
            }
            Purpose::Length => {
                if let Some(length) = number_of(value) {
                    self.add_length(length)?;
                }
                Ok(())
            }
            Purpose::Label => Ok(()),
        }
    }

    // The value of one more.
    fn add_told(&mut self, value: Value) -> Result<(), AllocError>
        ensures { OnOk result
            (held_values self.new
            ≡ record (held_values self.old) {
              told = (held_values self.old).told ++ value ∷ [];
            }) }
    {
        let mut kept = self.take()?;
        kept.told.push(value)?;
        self.kept = Some(kept);
        Ok(())
    }

    // One more length of an array.
    fn add_length(&mut self, length: u32) -> Result<(), AllocError>
        ensures { OnOk result
            (held_values self.new
            ≡ record (held_values self.old) {
              lengths = (held_values self.old).lengths ++ length ∷ [];
            }) }
    {
        let mut kept = self.take()?;
        kept.lengths.push(length)?;
        self.kept = Some(kept);
        Ok(())
    }
}

impl ValuesSoFar {
    // Nothing. It takes no memory.
    fn new(alloc: Global) -> ValuesSoFar
        ensures { result ≡ nothing_kept }
    {
        ValuesSoFar {
            operands: Vec::new(alloc),
            told: Vec::new(alloc),
            lengths: Vec::new(alloc),
        }
    }
}

// What an expression comes to for a type, if it is known.
fn value_for(
    alloc: Global,
    target: Option<&ConstantType>,
    operands: &[Option<Value>],
    expression: &Expression,
) -> Result<Outcome, AllocError>
    ensures { IfOk result (λ outcome.
        outcome
        ≡ first_of (evaluation_in (option_copied target.entry) operands.now expression.now)) }
{
    match target {
        Some(target) => evaluate(alloc, target, operands, expression),
        None => Ok(Outcome::Told),
    }
}

/// The code of a fault in an expression.
pub fn code_of(code: ValueCode) -> Code
    ensures { result ≡ code_of code }
{
    match code {
        ValueCode::WrongKind => Code::OtherType,
        ValueCode::OutOfRange => Code::OutOfRange,
        ValueCode::DivisionByZero => Code::DivisionByZero,
        ValueCode::BadShift => Code::BadShift,
        ValueCode::NotPositive => Code::BoundNotPositive,
    }
}

// A bound as a number.
fn number_of(value: &Value) -> Option<u32>
    ensures { result ≡ number_of value.now }
{
    match value {
        Value::Integer(number) if 0 <= *number && *number <= 4294967295 => Some(*number as u32),
        _ => None,
    }
}
