//! The compilation of a root: its units are judged in order, each over what those before it added, and what is found is told
//! in the order of the events that it names. Then each name that has an id is printed over what all of them added.
//!
//! Nothing here knows how a root is expanded, what a unit asks, or what became of other roots.
//!
//! `compiling/` has units (`judging.rt`), pieces (`passing.rt`), entries (`printing.rt`) and details (`detailing.rt`,
//! `naming.rt`, `places.rt`). `kept/` has the units of before (`course.rt`), beside those of now (`following.rt`,
//! `changed.rt`), open blocks (`keeping_blocks.rt`) and entries (`reprinting.rt`). `specs/Compared.antt` says at how many
//! keys is compared. Without a keeper what verdicts add is given up to the `Env` (`added.rt`).
#![tactic(auto)]

mod compiling;
mod kept;

pub use compiling::compiled::{Compiled, RootAfter, RootBefore, Row, compile, compile_kept};
pub use compiling::detailing::{DetailedEntry, Details, details_of};
pub use compiling::laws::{
    blocks, closing, compiled, detailing, facts, judging, ordering, outline, placing,
    reading_units, telling, texts,
};
pub use compiling::memory::Memory;
pub use compiling::places::{DeclaredPlace, PlacedName, SitedToken, UsedName};
pub use idl_finding::Finding;
pub use idl_root_blocks;
pub use idl_root_blocks::{idl_check, idl_parse};
pub use idl_scope;
pub use kept::comparing::comparing;
pub use kept::fresh::fresh_tasks;
pub use kept::keeper::Keeper;
pub use kept::marks::Marks;
