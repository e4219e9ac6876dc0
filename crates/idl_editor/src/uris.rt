//! URIs of files, the paths that they stand for, and the names that files have in a workspace.
//!
//! Nothing here reads a disk.

mod behind;
mod folders;
mod laws;
mod uri;

pub use folders::{Folder, Folders};
pub use laws::{names_lead_back, uris_read_back};
pub use uri::{path_of, uri_of};
