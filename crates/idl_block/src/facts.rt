//! The facts of a block: what is answered behind them over a bank.
//!
//! Nothing here runs.

mod answered;
mod beneath;
mod known;
mod written;

pub use answered::answering;
pub use beneath::{lying, within};
pub use known::{FactUnits, agreeing, inside, knowing, looking, nested};
pub use written::{opening, untouched};
