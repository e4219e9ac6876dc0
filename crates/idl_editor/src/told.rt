//! What an editor is told, as JSON: texts, ranges, findings, symbols.
//!
//! Nothing here finds anything, or looks a name up.

mod diagnostics;
mod found;
mod hover;
mod published;
mod ranges;
mod shown;
mod symbols;

pub use diagnostics::{SecondWords, diagnostic_value, message_of, more_value, second_value};
pub use found::{MOST_RELATED, MOST_TOLD, RootFinding, first_told, in_order, put_all};
pub use hover::hover_value;
pub use published::found_params;
pub use ranges::{highlight_value, location_value, range_value};
pub use shown::shown_value;
pub use symbols::{DocumentSymbol, nested};
