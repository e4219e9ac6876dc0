//! The laws of fresh tasks.

ghost use Rattle.std.specs.Prelude.{◌≡◌, ◌↔◌, ◌+◌, ◌≤◌, ◌++◌, ◌∷◌, [], List, Option, All, Contains, sum_by, true};
ghost use Rattle.std.specs.List.{IsDistinct};
ghost use Rattle.std.specs.Option.{option_eq};
ghost use Rattle.idl_memo.specs.Fresh.{AreAmong, Place, fresh_among, fresh_at, is_alike, keys_at, log_at, most_shared_at, places_over, shared_among, shared_at, stale_among};

use crate::bank::Bank;
use crate::task::Task;

/// How many places are fresh against others.
///
/// Alike are places of one text and one log. The count is a sum over parts, and places that are known may be left out.
pub fn freshness<B: Bank, T: Task<B>>()
    ensures class { (here task : Place B.Key (Option B.Answer) T.Text)
        → (is_alike T.Text.eq (option_eq B.Answer.eq) T.query here task ≡ true
        ↔ (here.0 ≡ task.0)
        × (log_at B.Key.eq T.query here ≡ log_at B.Key.eq T.query task)) }
    ensures none { (known : List (Place B.Key (Option B.Answer) T.Text))
        → fresh_among T.Text.eq (option_eq B.Answer.eq) T.query known [] ≡ 0 }
    ensures one { (known : List (Place B.Key (Option B.Answer) T.Text))
        (here : Place B.Key (Option B.Answer) T.Text)
        → fresh_among T.Text.eq (option_eq B.Answer.eq) T.query known (here ∷ [])
        ≡ fresh_at T.Text.eq (option_eq B.Answer.eq) T.query known here }
    ensures split { (old a b : List (Place B.Key (Option B.Answer) T.Text))
        → fresh_among T.Text.eq (option_eq B.Answer.eq) T.query old (a ++ b)
        ≡ fresh_among T.Text.eq (option_eq B.Answer.eq) T.query old a
        + fresh_among T.Text.eq (option_eq B.Answer.eq) T.query (old ++ a) b }
    ensures aside { (old front stay rest : List (Place B.Key (Option B.Answer) T.Text))
        → AreAmong T.Text.eq (option_eq B.Answer.eq) T.query stay old
        → fresh_among T.Text.eq (option_eq B.Answer.eq) T.query old (front ++ (stay ++ rest))
        ≡ fresh_among T.Text.eq (option_eq B.Answer.eq) T.query old (front ++ rest) }
    ensures there { (these those : List (Place B.Key (Option B.Answer) T.Text))
        → All (Contains those) these
        → AreAmong T.Text.eq (option_eq B.Answer.eq) T.query these those }
{}

/// How many tasks are fresh in a project with one bank for all, where no two places have one text.
///
/// With the same places, those tasks are fresh that aren't alike at their own. Over the same bank a place more is fresh,
/// and a place less makes none so.
pub fn one_bank<B: Bank, T: Task<B>>()
    ensures same_places { (old new : B.Key → Option B.Answer) (places : List T.Text)
        → IsDistinct T.Text.eq places
        → fresh_among T.Text.eq (option_eq B.Answer.eq) T.query (places_over old places)
        (places_over new places)
        ≡ stale_among T.Text.eq (option_eq B.Answer.eq) T.query old new places }
    ensures one_more { (bank : B.Key → Option B.Answer) (places : List T.Text) (here : T.Text)
        → IsDistinct T.Text.eq (places ++ here ∷ [])
        → fresh_among T.Text.eq (option_eq B.Answer.eq) T.query (places_over bank places)
        (places_over bank (places ++ here ∷ [])) ≡ 1 }
    ensures fewer { (bank : B.Key → Option B.Answer) (tasks places : List T.Text)
        → All (Contains tasks) places
        → fresh_among T.Text.eq (option_eq B.Answer.eq) T.query (places_over bank tasks)
        (places_over bank places) ≡ 0 }
{}

/// How many keys the places share with known tasks: those of each place where a known task, or one of an earlier place, is
/// alike.
///
/// The count is a sum over parts, and hangs on which tasks are known, not on their order. Places that are known add their keys; and
/// none adds more than all known tasks of its text asked.
pub fn sharing<B: Bank, T: Task<B>>()
    ensures none { (known : List (Place B.Key (Option B.Answer) T.Text))
        → shared_among T.Text.eq (option_eq B.Answer.eq) T.query B.Key.eq known [] ≡ 0 }
    ensures one { (known : List (Place B.Key (Option B.Answer) T.Text))
        (here : Place B.Key (Option B.Answer) T.Text)
        → shared_among T.Text.eq (option_eq B.Answer.eq) T.query B.Key.eq known (here ∷ [])
        ≡ shared_at T.Text.eq (option_eq B.Answer.eq) T.query B.Key.eq known here }
    ensures split { (old a b : List (Place B.Key (Option B.Answer) T.Text))
        → shared_among T.Text.eq (option_eq B.Answer.eq) T.query B.Key.eq old (a ++ b)
        ≡ shared_among T.Text.eq (option_eq B.Answer.eq) T.query B.Key.eq old a
        + shared_among T.Text.eq (option_eq B.Answer.eq) T.query B.Key.eq (old ++ a) b }
    ensures known { (a b new : List (Place B.Key (Option B.Answer) T.Text))
        → AreAmong T.Text.eq (option_eq B.Answer.eq) T.query a b
        → AreAmong T.Text.eq (option_eq B.Answer.eq) T.query b a
        → shared_among T.Text.eq (option_eq B.Answer.eq) T.query B.Key.eq a new
        ≡ shared_among T.Text.eq (option_eq B.Answer.eq) T.query B.Key.eq b new }
    ensures aside { (old front stay rest : List (Place B.Key (Option B.Answer) T.Text))
        → AreAmong T.Text.eq (option_eq B.Answer.eq) T.query stay old
        → shared_among T.Text.eq (option_eq B.Answer.eq) T.query B.Key.eq old
        (front ++ (stay ++ rest))
        ≡ shared_among T.Text.eq (option_eq B.Answer.eq) T.query B.Key.eq old (front ++ rest)
        + sum_by (keys_at T.Text.eq (option_eq B.Answer.eq) T.query B.Key.eq) stay }
    ensures most { (known : List (Place B.Key (Option B.Answer) T.Text))
        (here : Place B.Key (Option B.Answer) T.Text)
        → shared_at T.Text.eq (option_eq B.Answer.eq) T.query B.Key.eq known here
        ≤ most_shared_at T.Text.eq (option_eq B.Answer.eq) T.query B.Key.eq known here }
{}
