//! Collections: a map by the digests of its keys, a table with such a map as its index, marks of digests, and a list whose
//! copies share items.
#![tactic(auto)]

mod arena;
mod bits;
mod buckets;
mod digest;
mod index;
mod lent;
mod list;
mod map;
mod marks;
mod rare_table;
mod table;

pub use digest::Digest;
pub use lent::Lent;
pub use list::{Links, SharedList};
pub use map::Map;
pub use marks::Marks;
pub use rare_table::RareTable;
pub use table::Table;
