//! The laws of what is stored.

ghost use Rattle.std.specs.Prelude.{◌≡◌, ℕ, ◌++◌, [], List};
ghost use Rattle.idl_store.specs.Stored.{Stored, begun, committed, grown, placed, results_in};

/// A draft that is begun and grows is told by one list of results: these stand behind all others, and in the place of their
/// list once they are committed.
pub fn storing<R>()
    ensures none { (stored : Stored R) (at : ℕ) → grown (begun stored at) [] ≡ begun stored at }
    ensures twice { (stored : Stored R) (first then : List R)
        → grown (grown stored first) then ≡ grown stored (first ++ then) }
    ensures results { (stored : Stored R) (at : ℕ) (results : List R)
        → results_in (grown (begun stored at) results) ≡ results_in stored ++ results }
    ensures committed { (stored : Stored R) (at : ℕ) (results : List R)
        → committed (grown (begun stored at) results)
        ≡ record { lists = placed (committed stored).lists (at, results); drafts = [] } }
{}
