//! Definitions by which the code goes, told once more in fewer words, and the laws that both say the same.
//!
//! Who asks what is promised reads these in place of those. Nothing here runs.
//!
//! It stands apart since none of the code stands on it.
#![tactic(auto)]

mod cases;
mod directives;
mod forms;
mod laws;
mod lexemes;
mod names;
mod paths;
mod rows;
mod rules;
mod tables;
mod visits;

pub use cases::{begun, chosen, optional};
pub use directives::{files, macros, operands};
pub use forms::{beginnings, firsts, kinds, tests};
pub use laws::{additions, answers, conditions, pragmas, sameness, units};
pub use lexemes::spellings;
pub use names::{denoting, remarks};
pub use paths::outward;
pub use rows::listing;
pub use rules::{refusals, writings};
pub use tables::{
    allowances, codes, declarations, expressions, literals, marks, numbers, operators, ranges,
    ranks, steps, tokens, types, uses,
};
pub use visits::{behind, sites, verdicts};
