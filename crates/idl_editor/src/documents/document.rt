//! Documents that an editor has open: their texts.

ghost use Rattle.std.specs.Prelude.{◌≡◌, Some, true};
ghost use Rattle.std.specs.Map.{lookup};
ghost use Rattle.std.specs.Str.{bytes_eq};
ghost use Rattle.idl_editor.specs.documents.Documents.{AreSameBeside};
ghost use Rattle.idl_editor.specs.declared.documents.document.Document.{Document};

use idl_source::Name;
use indexmap::IndexMap;

/// A document that is open: the editor has its text, and this is the same one.
#[derive(Drop)]
pub struct Document {
    /// How the editor names it.
    pub uri: String,
    /// What the editor numbers its text by, if it does.
    pub version: Option<u64>,
    pub text: Vec<u8>,
    /// Whether the session may have the file as it was before, since it refused the text.
    pub is_behind: bool,
}

impl Document {
    /// A document of this text, which the session doesn't have yet.
    pub fn new(uri: String, version: Option<u64>, text: Vec<u8>) -> Document
        ensures version { result.version ≡ version }
        ensures text { result.text ≡ text }
        ensures behind { result.is_behind ≡ true }
    {
        Document {
            uri,
            version,
            text,
            is_behind: true,
        }
    }
}

/// The text of a document becomes this one, of this version, which the session doesn't have yet.
pub fn set_text(
    documents: &mut IndexMap<Name, Document>,
    name: &Name,
    version: Option<u64>,
    text: Vec<u8>,
)
    ensures there { (document : Document)
        → lookup (bytes_eq name.now) documents.old.entries ≡ Some document
        → lookup (bytes_eq name.now) documents.new.entries
        ≡ Some (record document { version = version; text = text; is_behind = true }) }
    ensures beside { AreSameBeside name.now documents.old.entries documents.new.entries }
{
    if let Some(document) = documents.get_mut(name) {
        document.version = version;
        document.text = text;
        document.is_behind = true;
    }
}

/// The session has the text of a document, or it may have the file as it was before.
pub fn set_behind(documents: &mut IndexMap<Name, Document>, name: &Name, is_behind: bool)
    ensures there { (document : Document)
        → lookup (bytes_eq name.now) documents.old.entries ≡ Some document
        → lookup (bytes_eq name.now) documents.new.entries
        ≡ Some (record document { is_behind = is_behind }) }
    ensures beside { AreSameBeside name.now documents.old.entries documents.new.entries }
{
    if let Some(document) = documents.get_mut(name) {
        document.is_behind = is_behind;
    }
}
