//! Names, and paths of them.

pub(crate) mod digest;
pub(crate) mod name;
pub(crate) mod named_path;
pub(crate) mod names;
pub(crate) mod own_name;
pub(crate) mod path;

pub use digest::{identified, introduced, opened, typeprefixed, under};
pub use name::shared_name;
pub use named_path::NamedPath;
pub use names::Names;
pub use own_name::OwnName;
pub use path::{Path, PathPart};
