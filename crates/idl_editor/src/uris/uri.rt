//! URIs of files.

ghost use Rattle.std.specs.Prelude.{◌≡◌, IfOk, string_bytes};
ghost use Rattle.std.specs.Option.{option_map};
ghost use Rattle.idl_editor.specs.uris.Uri.{path_of, uri_of};

use crate::uris::behind::behind;
use idl_source::path::is_rooted;
use percent_encoding::{AsciiSet, NON_ALPHANUMERIC, ascii_set, percent_decode, percent_encode};
use std::alloc::{AllocError, Global};

/// The bytes of a path that a URI escapes: all but letters, digits and `- . _ ~ /`.
pub const ESCAPED_IN_URIS: AsciiSet = ascii_set!(
    NON_ALPHANUMERIC
        .remove(b'-')
        .remove(b'.')
        .remove(b'_')
        .remove(b'~')
        .remove(b'/')
);

/// The path that a URI of a file stands for. A URI of another scheme, or of another host, stands for none.
pub fn path_of(alloc: Global, uri: &[u8]) -> Result<Option<Vec<u8>>, AllocError>
    ensures { IfOk result (λ path. option_map (λ p. p.items) path ≡ path_of uri.now) }
{
    match behind(b"file://", uri) {
        Some(escaped) if is_rooted(escaped) => {
            let mut path = Vec::new(alloc);
            percent_decode(escaped).append_to(&mut path)?;
            Ok(Some(path))
        }
        _ => Ok(None),
    }
}

/// The URI of the file at a path.
#[tactic(auto, using(crate::proofs::UriLemmas::uri_escaped))]
pub fn uri_of(alloc: Global, path: &[u8]) -> Result<String, AllocError>
    ensures { IfOk result (λ uri. string_bytes uri ≡ uri_of path.now) }
{
    let mut uri = String::from_str(alloc, "file://")?;
    percent_encode(path, ESCAPED_IN_URIS).append_to(&mut uri)?;
    Ok(uri)
}
