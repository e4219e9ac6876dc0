//! A language server: what it knows of an editor's documents, one step of it for a message, and the service over an editor's streams.
//!
//! Nothing here opens a disk or a terminal, and nothing but the service reads a stream or writes one: a caller hands in where messages and
//! files come from, and where what is to be said goes.
//!
//! `server.rt` is a step, `beginning.rt` and `notices.rt` its parts; `edits.rt`, `closing.rt`, `loading.rt`, `roots.rt`
//! change the workspace. Each file of the session is an open document's or the loader's, by two clauses for each
//! operation: what it does to a name, and nothing beside. `found.rt`, `publishing.rt` tell findings; `named.rt`,
//! `includes.rt`, `references.rt`, `declarations.rt`, `symbols.rt` answer of names; `service.rt` is the loop. What names
//! no session stands in `idl_editor`.
#![tactic(auto)]

mod beginning;
mod closing;
mod declarations;
mod diagnostics;
mod edits;
mod found;
mod includes;
mod loading;
mod named;
mod notices;
mod places;
mod publishing;
mod references;
mod requests;
mod roots;
mod server;
mod service;
mod symbols;
mod workspace;

pub use idl_editor::messages::Outbox;
pub use idl_loader;
pub use server::{Server, StepOutcome};
pub use service::LanguageServer;
