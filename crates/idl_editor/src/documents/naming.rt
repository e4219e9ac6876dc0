//! Names and URIs of files, as an editor has them.

ghost use Rattle.std.specs.Prelude.{◌≡◌, IfOk, string_bytes};
ghost use Rattle.serde_json.specs.View.{view};
ghost use Rattle.idl_editor.specs.documents.Notices.{name_in};
ghost use Rattle.idl_editor.specs.documents.Uris.{name_for, uri_among, version_among};

use crate::documents::document::Document;
use crate::messages;
use crate::uris::{Folders, path_of, uri_of};
use idl_source::Name;
use indexmap::IndexMap;
use serde_json::Value;
use std::alloc::{AllocError, Global};

/// The name of the file that a URI stands for, if it has one.
pub fn name_for(alloc: Global, folders: &Folders, uri: &str) -> Result<Option<Name>, AllocError>
    ensures { IfOk result (λ name. name ≡ name_for folders.now uri.now) }
{
    match path_of(alloc, uri.as_bytes())? {
        Some(path) => folders.name_of(&path),
        None => Ok(None),
    }
}

/// The name of the document that parameters are about.
pub fn name_in(alloc: Global, folders: &Folders, params: &Value) -> Result<Option<Name>, AllocError>
    ensures { IfOk result (λ name. name ≡ name_in folders.now (view params.now)) }
{
    match messages::uri_of(params) {
        Some(uri) => name_for(alloc, folders, uri),
        None => Ok(None),
    }
}

/// The URI of a file: the editor's own of a document that is open.
pub fn uri_for(
    documents: &IndexMap<Name, Document>,
    folders: &Folders,
    name: &Name,
) -> Result<String, AllocError>
    ensures { IfOk result (λ uri. string_bytes uri
        ≡ uri_among documents.now.entries folders.now name.now) }
{
    let alloc = *documents.allocator();
    if let Some(document) = documents.get(name) {
        return String::from_str(alloc, document.uri.as_str());
    }
    match folders.path_for(name.as_bytes())? {
        Some(path) => uri_of(alloc, &path),
        None => uri_of(alloc, name.as_bytes()),
    }
}

/// The version of a document that is open and that the session has, if the editor told one.
pub fn version_for(documents: &IndexMap<Name, Document>, name: &Name) -> Option<u64>
    ensures { result ≡ version_among documents.now.entries name.now }
{
    match documents.get(name) {
        Some(document) if !document.is_behind => document.version,
        _ => None,
    }
}
