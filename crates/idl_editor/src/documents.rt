//! Documents that an editor has open: their texts, names and URIs, what it tells of them, and what isn't done.
//!
//! Nothing here compiles a text, or has the files that texts are of.

mod changes;
mod document;
mod naming;
mod refused;

pub use changes::{changes_told, text_after_all};
pub use document::{Document, set_behind, set_text};
pub use naming::{name_for, name_in, uri_for, version_for};
pub use refused::{RefusedEdit, RefusedReason, push_reason, push_refused, shown_params};
