//! How a server begins: what an editor offers and sets, and what the server tells of itself.
//!
//! Nothing here defines a macro, or has files searched.

use crate::column::Encoding;
use crate::documents::{RefusedEdit, RefusedReason, push_reason, push_refused};
use crate::messages::{items_at, text_at};
use crate::uris::{Folders, path_of};
use idl_source::path::{directory_at, is_rooted};
use idl_source::{Directory, MAX_NAME, Name, Refusal};
use serde_json::{Value, json};
use std::alloc::{AllocError, Global};

// What leads from a folder to the one around it.
const STEP_UP: &[u8] = b"../";

// So many steps up a name has at most.
const MOST_STEPS: usize = MAX_NAME / 3;

/// What the server can do.
pub fn abilities(alloc: Global, encoding: Encoding) -> Result<Value, AllocError> {
    json!(in alloc; {
        "capabilities": capabilities(alloc, encoding)?,
        "serverInfo": json!(in alloc; {"name": "idltool", "version": "0.1.0"})?,
    })
}

// What it can do in documents.
fn capabilities(alloc: Global, encoding: Encoding) -> Result<Value, AllocError> {
    let encoding = match encoding {
        Encoding::Utf8 => "utf-8",
        Encoding::Utf16 => "utf-16",
    };
    let sync = json!(in alloc; {"change": 2, "openClose": true, "save": true})?;
    json!(in alloc; {
        "textDocumentSync": sync,
        "definitionProvider": true,
        "documentHighlightProvider": true,
        "documentSymbolProvider": true,
        "hoverProvider": true,
        "referencesProvider": true,
        "positionEncoding": encoding,
    })
}

/// Adds the folders of the workspace. Names in the only one begin with nothing, and names around it with steps up, as includes have
/// them; of several they begin with the folder's own name.
pub fn add_folders(alloc: Global, folders: &mut Folders, params: &Value) -> Result<(), AllocError> {
    match items_at(params, "workspaceFolders") {
        [] => add_only(alloc, folders, text_at(params, "rootUri")),
        [folder] => add_only(alloc, folders, text_at(folder, "uri")),
        several => add_each(alloc, folders, several),
    }
}

// Adds the only folder, if there is one.
fn add_only(alloc: Global, folders: &mut Folders, uri: Option<&str>) -> Result<(), AllocError> {
    let Some(uri) = uri else {
        return Ok(());
    };
    let Some(path) = path_of(alloc, uri.as_bytes())? else {
        return Ok(());
    };
    let path = without_slash(&path);
    folders.add(path, b"")?;
    add_around(alloc, folders, path)
}

// Adds the folders around a folder, from within outward, as far as a name can lead.
fn add_around(alloc: Global, folders: &mut Folders, folder: &[u8]) -> Result<(), AllocError> {
    let mut front = Vec::new(alloc);
    let mut path = folder;
    'around: for _ in 0..MOST_STEPS {
        let Some(place) = memchr::memrchr(b'/', path) else {
            return Ok(());
        };
        path = &path[..place];
        front.extend_from_slice(STEP_UP)?;
        folders.add(path, &front)?;
    }
    Ok(())
}

// Adds several folders.
fn add_each(alloc: Global, folders: &mut Folders, several: &[Value]) -> Result<(), AllocError> {
    'several: for folder in several {
        if let Some(uri) = text_at(folder, "uri") {
            add_one(alloc, folders, uri)?;
        }
    }
    Ok(())
}

// Adds one folder of several.
fn add_one(alloc: Global, folders: &mut Folders, uri: &str) -> Result<(), AllocError> {
    let Some(path) = path_of(alloc, uri.as_bytes())? else {
        return Ok(());
    };
    let path = without_slash(&path);
    if let Some(name) = name_in_parent(alloc, path)? {
        let front = front_of(alloc, &name)?;
        folders.add(path, &front)?;
    }
    Ok(())
}

// The name that a path has in the folder that it is in.
fn name_in_parent(alloc: Global, path: &[u8]) -> Result<Option<Name>, AllocError> {
    let mut parent = Folders::new(alloc);
    parent.add(without_slash(folder_of(path)), b"")?;
    parent.name_of(path)
}

// What the names of files in a folder begin with.
fn front_of(alloc: Global, folder: &Name) -> Result<Vec<u8>, AllocError> {
    let mut front = Vec::from_slice(alloc, folder.as_bytes())?;
    front.push(b'/')?;
    Ok(front)
}

/// Refuses options that are no object.
pub fn check_options(refused: &mut Vec<RefusedEdit>, options: &Value) -> Result<(), AllocError> {
    if options.is_object() || is_empty(options) {
        return Ok(());
    }
    push_reason(refused, b"initializationOptions", RefusedReason::NoObject)
}

/// The texts of the list under a key of options. Where something else stands there, or in the list, that is refused.
pub fn texts_in<'a>(
    alloc: Global,
    refused: &mut Vec<RefusedEdit>,
    options: &'a Value,
    key: &str,
) -> Result<Vec<&'a [u8]>, AllocError> {
    let mut texts = Vec::new(alloc);
    let mut is_bad = is_no_list(options.get(key));
    'items: for item in items_at(options, key) {
        match item.as_str() {
            Some(text) => texts.push(text.as_bytes())?,
            None => is_bad = true,
        }
    }
    if is_bad {
        push_reason(refused, key.as_bytes(), RefusedReason::NoTexts)?;
    }
    Ok(texts)
}

// Whether what stands under a key is something else than a list.
fn is_no_list(value: Option<&Value>) -> bool {
    match value {
        Some(value) => !value.is_array() && !is_empty(value),
        None => false,
    }
}

// Whether a value is nothing, or what some editors send in the place of an empty list or object: the other one.
fn is_empty(value: &Value) -> bool {
    if let Some(items) = value.as_array() {
        return items.is_empty();
    }
    if let Some(members) = value.as_object() {
        return members.is_empty();
    }
    value.is_null()
}

/// The directories that words are, each in every folder, or that of a whole path. Words that are none are refused.
pub fn directories_in(
    alloc: Global,
    folders: &Folders,
    refused: &mut Vec<RefusedEdit>,
    words: &[&[u8]],
) -> Result<Vec<Directory>, AllocError> {
    let mut directories = Vec::new(alloc);
    'words: for word in words {
        if !push_named(folders, *word, &mut directories)? {
            push_refused(refused, *word, Refusal::BadName)?;
        }
    }
    Ok(directories)
}

// Puts in the directories that a word is, and tells whether it is one wherever it counts from.
fn push_named(
    folders: &Folders,
    word: &[u8],
    directories: &mut Vec<Directory>,
) -> Result<bool, AllocError> {
    let alloc = *directories.allocator();
    if is_rooted(word) {
        return push_if(whole_directory(alloc, folders, word)?, directories);
    }
    if folders.as_slice().is_empty() {
        return push_if(directory_at(word), directories);
    }
    let mut is_one = true;
    'folders: for folder in folders.as_slice() {
        // One around the only folder isn't the editor's.
        if folder.front().starts_with(STEP_UP) {
            continue;
        }
        let mut path = Vec::from_slice(alloc, folder.front())?;
        path.extend_from_slice(word)?;
        if !push_if(directory_at(&path), directories)? {
            is_one = false;
        }
    }
    Ok(is_one)
}

// Puts in a directory, if there is one, and tells so.
fn push_if(found: Option<Directory>, directories: &mut Vec<Directory>) -> Result<bool, AllocError> {
    match found {
        Some(directory) => {
            directories.push(directory)?;
            Ok(true)
        }
        None => Ok(false),
    }
}

// The directory of a whole path, if it is one, as it stands in the names of the files in it.
fn whole_directory(
    alloc: Global,
    folders: &Folders,
    word: &[u8],
) -> Result<Option<Directory>, AllocError> {
    let found = directory_at(word);
    let path = match &found {
        Some(directory) => directory.as_bytes(),
        None => word,
    };
    let mut file = Vec::from_slice(alloc, without_slash(path))?;
    file.extend_from_slice(b"/file")?;
    match folders.name_of(&file)? {
        Some(name) => Ok(directory_at(folder_of(name.as_bytes()))),
        None => Ok(None),
    }
}

/// What columns count: bytes, if the editor offers that.
pub fn encoding_in(params: &Value) -> Encoding {
    let Some(capabilities) = params.get("capabilities") else {
        return Encoding::Utf16;
    };
    let Some(general) = capabilities.get("general") else {
        return Encoding::Utf16;
    };
    'offered: for value in items_at(general, "positionEncodings") {
        if value.as_str() == Some("utf-8") {
            return Encoding::Utf8;
        }
    }
    Encoding::Utf16
}

// A path without a slash at its end.
fn without_slash(path: &[u8]) -> &[u8] {
    match path {
        [front @ .., b'/'] => front,
        _ => path,
    }
}

// The path of the folder that a path is in, with the slash behind it.
fn folder_of(path: &[u8]) -> &[u8] {
    match memchr::memrchr(b'/', path) {
        Some(place) => &path[..=place],
        None => b"",
    }
}
