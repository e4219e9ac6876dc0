//! What a server knows: the documents that are open, and the session that compiles them.
//!
//! Documents keep texts beside the session's lines: positions are over the text, and two texts can have the same lines.
//! After several changes told at once the text is put whole: a text between them may be over a limit. Of changes that
//! wait one behind another the session gets the text after the last one, of each document. Files that roots
//! ask for are loaded before an open document is made a root, since until then it isn't known who asks for it. Where
//! there are as many roots as there may be one is turned away, told once, and becomes a root when there is room. A name
//! at a position is looked for by the columns of declared and used names. What is told of a file is kept as text, and
//! told where it becomes another.

use idl_editor::Encoding;
use idl_editor::documents::{Document, RefusedEdit};
use idl_editor::uris::Folders;
use idl_project::Session;
use idl_source::Name;
use indexmap::{IndexMap, IndexSet};
use std::alloc::AllocError;

/// The documents of an editor, and the session that compiles them.
///
/// Of each document that isn't behind, the file of the session is the text's lines.
#[derive(Drop)]
pub(crate) struct Workspace {
    pub encoding: Encoding,
    pub folders: Folders,
    pub session: Session,
    pub documents: IndexMap<Name, Document>,
    /// Names that roots ask for, that weren't open, and of which there was no file.
    pub tried: IndexSet<Name>,
    /// Names of files that couldn't be read, or that the session refused.
    pub unread: IndexSet<Name>,
    /// Documents that the session refused as roots, since there are as many as there may be.
    pub turned_away: IndexSet<Name>,
    /// Roots that were compiled anew since it was last told what is found.
    pub touched: IndexSet<Name>,
    /// Roots that went since then.
    pub dropped: IndexSet<Name>,
    /// What was refused since then.
    pub refused: Vec<RefusedEdit>,
}

/// Adds names to others.
pub(crate) fn keep_all(kept: &mut IndexSet<Name>, names: &[Name]) -> Result<(), AllocError> {
    'names: for name in names {
        kept.insert(name.copied())?;
    }
    Ok(())
}
