//! Where files come from.

ghost use Rattle.std.specs.Prelude.{◌≡◌, ℕ, List};
ghost use Rattle.idl_loader.specs.Holding.{Holding, IsLoadedBy};

use idl_source::Name;

/// What came of loading a file.
#[derive(Drop)]
pub enum Loaded {
    /// Its bytes.
    Bytes(Vec<u8>),
    /// There is no file of this name.
    Missing,
    /// It is there, and can't be read.
    Failed,
    /// There was no memory for it.
    NoMemory,
}

/// Where the files come from that a root names.
pub trait Loader {
    /// What the loader tells of each name.
    ghost told: { Self → List ℕ → Holding };

    /// Loads the file of this name.
    fn load(&mut self, name: &Name) -> Loaded
        ensures gives { IsLoadedBy (told self.old name.now) result }
        ensures stays { told self.new ≡ told self.old };
}

/// Where files come from by their paths.
pub trait PathLoader {
    /// What the loader tells of each path.
    ghost told_of: { Self → List ℕ → Holding };

    /// Loads the file at this path.
    fn load_path(&mut self, path: &[u8]) -> Loaded
        ensures gives { IsLoadedBy (told_of self.old path.now) result }
        ensures stays { told_of self.new ≡ told_of self.old };
}
