//! What a row refers to.

use idl_base::Bytes;

/// A named type, a base or an exception, as a row refers to it. Several entries may have one id; the path says which of them it is.
#[derive(PartialEq, Eq)]
pub struct Reference {
    /// The id, which is listed.
    pub id: Bytes,
    /// The path, as the row of what is declared there tells it.
    pub path: Bytes,
}

impl Drop for Reference {
    fn drop(self) {
        let Reference {
            id: _id,
            path: _path,
        } = self;
    }
}
