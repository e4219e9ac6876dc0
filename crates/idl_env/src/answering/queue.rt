//! Queues of paths.

ghost use Rattle.std.specs.Prelude.{◌≡◌, ◌<◌, ◌∷◌, [], IsSome, OnOk, slice_get};
ghost use Rattle.std.specs.Map.{keys_of};
ghost use Rattle.std.specs.Option.{option_copied};
ghost use Rattle.idl_env.specs.Facts.{joined};

use idl_entity::Path;
use idl_map::Table;
use std::alloc::{AllocError, Global};
use std::marker::Model;

/// The bases that a walk enters, in the order in which they were put in, each once. To every contract it is the list of them.
#[derive(Drop)]
pub struct BaseQueue {
    paths: Table<Path, ()>,
}

impl Model for BaseQueue {
    ghost use Rattle.std.specs.Prelude.{List, ℕ};
    ghost use Rattle.std.specs.Map.{keys_of};

    ghost Value = { List (List (List ℕ)) };

    ghost view = { λ queue. keys_of queue.paths };
}

impl BaseQueue {
    /// The queue without bases. It takes no memory.
    pub fn new(alloc: Global) -> BaseQueue
        ensures { result ≡ [] }
    {
        BaseQueue {
            paths: Table::new(alloc),
        }
    }

    /// The base at a place, or nothing past the last. There is none at the last place that an index counts.
    pub fn get(&self, place: usize) -> Option<&Path>
        ensures path { option_copied result ≡ slice_get self.now place }
        ensures counted { IsSome result → place < usize.MAX }
    {
        path_at(&self.paths, place)
    }

    /// Puts those of the paths last that are not yet there.
    pub fn join(&mut self, paths: &[Path]) -> Result<(), AllocError>
        ensures { OnOk result (self.new ≡ joined self.old paths.now) }
    {
        join(&mut self.paths, paths)
    }
}

// The path at a place of a table, or nothing past the last.
fn path_at(paths: &Table<Path, ()>, place: usize) -> Option<&Path>
    ensures path { option_copied result ≡ slice_get (keys_of paths.now) place }
    ensures counted { IsSome result → place < usize.MAX }
{
    if place >= paths.len() {
        return None;
    }
    let (path, ()) = paths.get_index(place)?;
    Some(path)
}

/// Puts those of the paths last that are not yet there.
pub fn join(queue: &mut Table<Path, ()>, paths: &[Path]) -> Result<(), AllocError>
    ensures { OnOk result (keys_of queue.new ≡ joined (keys_of queue.old) paths.now) }
{
    for path in paths {
        join_one(queue, path)?;
    }
    Ok(())
}

/// Puts the path last, unless it is there.
pub fn join_one(queue: &mut Table<Path, ()>, path: &Path) -> Result<(), AllocError>
    ensures { OnOk result (keys_of queue.new ≡ joined (keys_of queue.old) (path.now ∷ [])) }
{
    if queue.contains(path) {
        return Ok(());
    }
    queue.push(path.clone()?, ())
}
