//! The values of constant expressions.
//!
//! A whole number has no size here but by conditions, and what a name denotes is handed in: nothing here knows scopes,
//! declarations or places.
//!
//! `specs/Term.antt` takes the ranks of the grammar away, `Evaluation.antt` lists all faults of a term, `Operate.antt`
//! has the operators. The code is one walk from the left (`walk.rt`) that keeps the first fault. A target, the names'
//! values in order and the expression are handed in, so all is asked before.
#![tactic(auto)]

mod constant;
mod constant_type;
mod integer;
mod laws;
mod operator;
mod outcome;
mod part_value;
mod spelling;
mod value;
mod walk;
mod whole;

pub use constant::{evaluate, evaluate_bound, joined, literal_value};
pub use constant_type::ConstantType;
pub use idl_map;
pub use idl_tree;
pub use integer::IntegerKind;
pub use laws::{ascending, counting, deciding, standing};
pub use operator::BinaryOperator;
pub use outcome::{Outcome, ValueCode, ValueFault};
pub use spelling::{push_name, push_part, push_value};
pub use value::Value;
