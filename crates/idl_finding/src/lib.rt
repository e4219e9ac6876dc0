//! What is found in a root: the parts of a row, in the order of the events that they name, and the number of a token in its line.
//!
//! Nothing here knows how units are judged, or how a row is shown.
#![tactic(auto)]

mod finding;
mod number;

pub use finding::{
    EventFinding, Finding, Spelled, event_findings, in_order, push_fault, push_numbered, rows_of,
};
pub use number::{LineNumbers, token_number};
