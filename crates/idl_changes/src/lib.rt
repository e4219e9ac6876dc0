//! What changes from one listing to another, and for whom it counts: on the wire, for clients, for servants, or for names alone.
//!
//! Listings are compared as trees. Nothing here knows how the trees came about, or where they were declared.
//!
//! `listing.rt`, `plain.rt` and `offered.rt` look things up in one listing, each worked out once (`side.rt`). `joined.rt` and
//! `sides.rt` say which entries belong together: by ids, and what is called by names. `rows.rt` has the table of what counts for
//! whom. `parts.rt`, `types.rt`, `lists.rt`, `sets.rt`, `unions.rt` and `interfaces.rt` compare parts of entries, `details.rt` and
//! `entries.rt` whole ones. `text.rt` writes rows, and `chosen.rt` reads which weights a text
//! names. Laws say what is inherited, and what it means that no change has a weight.
#![tactic(auto)]

mod change;
mod chosen;
mod comparison;
mod details;
mod entries;
mod interfaces;
mod joined;
mod keys;
mod labels;
mod laws;
mod listing;
mod lists;
mod matched;
mod offered;
mod parts;
mod plain;
mod rows;
mod sets;
mod side;
mod sides;
mod spelled;
mod text;
mod types;
mod unions;

pub use change::{Change, Difference, Turn};
pub use comparison::changes;
pub use laws::{
    inherited_by_chains, nothing_changes, nothing_for_clients, nothing_for_servants,
    nothing_on_the_wire,
};
pub use rows::Weights;
pub use text::{entry_of, push_change, weight_names};
