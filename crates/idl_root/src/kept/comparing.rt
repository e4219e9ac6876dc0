//! What is compared where the tasks of a root are met.

ghost use Rattle.std.specs.Prelude.{◌≡◌, ◌≤◌, ◌+◌, ◌++◌, ◌∷◌, [], All, Contains, List};
ghost use Rattle.idl_event.specs.declared.told.event.Event.{Event};
ghost use Rattle.idl_root.specs.Compared.{AreSamePlaces, compared_root, most_shared_entry, root_keys, shared_entries, shared_entry};
ghost use Rattle.idl_root.specs.Places.{EntryPlace, blocks_of, declarations_of, entries_of};
ghost use Rattle.idl_root_blocks.specs.Met.{Known};

use idl_env::Env;
use idl_memo::{freshness, sharing};
use idl_repo::EntryTask;
use idl_root_blocks::{cutting, meeting, repeating};

/// At how many keys known tasks are compared in a root hangs on which are known, and not on their order. Where all of the root's are
/// known, these are the keys that its names ask, and its units and blocks that stand in no block. Names are met one after another, each
/// beside those before it, and none is compared at more keys than all known ones of its path asked.
///
/// This does nothing: it carries the laws.
pub fn comparing()
    ensures same { (known other : Known) (these those : List EntryPlace) (events : List Event)
        → AreSamePlaces known.declarations other.declarations
        → AreSamePlaces known.blocks other.blocks
        → AreSamePlaces these those
        → compared_root known these events ≡ compared_root other those events }
    ensures known { (known : Known) (entries : List EntryPlace) (events : List Event)
        → All (Contains known.declarations) (declarations_of events)
        → All (Contains known.blocks) (blocks_of events)
        → All (Contains entries) (entries_of events)
        → compared_root known entries events ≡ root_keys events }
    ensures entries_none { (known : List EntryPlace) → shared_entries known [] ≡ 0 }
    ensures entries_more { (known : List EntryPlace) (here : EntryPlace) (more : List EntryPlace)
        → shared_entries known (here ∷ more)
        ≡ shared_entry known here + shared_entries (known ++ here ∷ []) more }
    ensures entries_most { (known : List EntryPlace) (here : EntryPlace)
        → shared_entry known here ≤ most_shared_entry known here }
{
    cutting();
    meeting();
    repeating();
    freshness::<Env, EntryTask>();
    sharing::<Env, EntryTask>();
}
