//! What each code of a row and each refusal means: in words, by an example, and how to mend it.
//!
//! Nothing here compiles: that each example is told so, and its mended form nothing, tests find.
#![tactic(auto)]

mod codes;
mod explanation;
mod meaning;
mod refusals;
mod spelling;
mod topics;

pub use explanation::{ExampleOutcome, Explanation, Topic, Words};
pub use topics::{all_codes, all_refusals, explanation_of, topic_named};
