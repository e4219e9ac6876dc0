//! A session: a project of files, macros, directories and roots, and the rows that each root compiles to, kept up to date
//! through edits.
//!
//! Names, words and lines come from a caller, and rows are lent to one. Nothing here knows of commands, replies or devices.
//!
//! An edit is data (`specs/Edits.antt` of `idl_inputs`), and each call has one clause, `IsEdited`, or `IsBatch` where it
//! does many. What an edit makes waits in drafts until it is settled.
#![tactic(auto)]

mod answered;
mod compile;
mod detailed;
mod kept_root;
mod related;
mod root_table;
mod session;
mod work;

pub use compile::diagnostics_are_findings;
pub use detailed::listing_is_details;
pub use idl_inputs::{
    FileEdit, MAX_BODY, MAX_DIRECTORIES, MAX_MACROS, MAX_ROOTS, Stepless, answers_come_from_inputs,
    edits_keep_form, edits_keep_limits,
};
pub use idl_prep;
pub use idl_source::Span;
pub use idl_sources;
pub use idl_sources::idl_root::{
    Compiled, DeclaredPlace, DetailedEntry, Details, Finding, PlacedName, Row, SitedToken,
    UsedName, idl_check, idl_parse, idl_root_blocks, idl_scope,
};
pub use idl_sources::{CompiledRoot, Sources, idl_root, related_over};
pub use related::related_in;
pub use session::Session;
pub use work::{Work, compared_is_bounded, untouched_roots_stay};
