//! The laws of verdicts, of which `idl_check` gives the definition.
//!
//! They hold over any answers, and for any number of turns; `meaning` alone over the facts of an environment. Nothing here runs.
//!
//! They stand apart since three fifths of the lemmas prove these alone, and none of the code stands on them.
#![tactic(auto)]

mod laws;
mod unit_names;

pub use idl_check;
pub use idl_check::idl_parse;
pub use laws::{
    acceptance, bracketing, denoting, evaluating, fitting, identification, inheriting, least,
    more_turns, naming, numbering, questions, refusal, speaking, stopping, wording,
};
pub use unit_names::{ahead, meaning, names};
