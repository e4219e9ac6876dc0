//! What stands behind the front of a text.

ghost use Rattle.std.specs.Prelude.{◌≡◌};
ghost use Rattle.std.specs.Option.{option_copied};
ghost use Rattle.idl_editor.specs.uris.Uri.{behind};

/// The bytes behind a front, if they begin with it.
pub fn behind<'a>(front: &[u8], bytes: &'a [u8]) -> Option<&'a [u8]>
    ensures { option_copied result ≡ behind front.now bytes.now }
{
    bytes.strip_prefix(front)
}
