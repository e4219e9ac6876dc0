//! Where a program's files come from, how lines go out of it, how it ends, and what serves an editor in its place.
//!
//! Nothing here opens a disk or a terminal, and nothing knows a session: who compiles and who serves an editor load files alike.
#![tactic(auto)]

mod loader;
mod reply;
mod service;
mod status;
mod stop;

pub use idl_source;
pub use loader::{Loaded, Loader, PathLoader};
pub use reply::{Reply, write_lines};
pub use service::{Service, ServiceFault};
pub use status::Status;
pub use stop::Stop;
