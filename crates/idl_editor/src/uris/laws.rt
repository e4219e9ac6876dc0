//! What holds of URIs and names. Nothing here runs.

ghost use Rattle.std.specs.Prelude.{◌≡◌, ◌<◌, All, ℕ, List, IsTrue, Some};
ghost use Rattle.idl_source.specs.names.Path.{is_rooted};
ghost use Rattle.idl_editor.specs.uris.Folders.{AreApart, FolderNamed, name_of, path_for};
ghost use Rattle.idl_editor.specs.uris.Uri.{path_of, uri_of};

/// The URI of a path stands for it.
pub fn uris_read_back()
    ensures { (path : List ℕ) → All (λ b. b < 256) path → IsTrue (is_rooted path)
        → path_of (uri_of path) ≡ Some path }
{}

/// The name of the file at a path leads back to it, so two paths have two names.
pub fn names_lead_back()
    ensures { (folders : List FolderNamed) (path : List ℕ) → AreApart folders
        → All (λ b. b < 256) path → IsTrue (is_rooted path)
        → path_for folders (name_of folders path) ≡ Some path }
{}
