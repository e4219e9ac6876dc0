//! The laws of passes over places.

ghost use Rattle.std.specs.Prelude.{◌≡◌, ◌⊎◌, ℕ, ◌+◌, ◌++◌, ◌∷◌, [], List, Option};
ghost use Rattle.std.specs.Option.{option_eq};
ghost use Rattle.idl_memo.specs.Fresh.{Place};
ghost use Rattle.idl_memo.specs.Kept.{Kept, NoneAlikeAt, SomeAlikeAt, result_over};
ghost use Rattle.idl_memo.specs.Passes.{IsPass};

use crate::bank::Bank;
use crate::keeping::fresh::freshness;
use crate::keeping::places::placement;
use crate::task::Task;

/// One task is a pass over one place, and two passes, one behind the other, are one over the places of both.
///
/// A task is counted where no result is alike, and its result is put behind the others in both cases.
pub fn passing<B: Bank, T: Task<B>>()
    ensures none { (old : List (Kept B.Key (Option B.Answer) T.Text T.Out)) (count : ℕ)
        → IsPass B.Key.eq T.Text.eq (option_eq B.Answer.eq) T.query [] old old count count }
    ensures one { (here : Place B.Key (Option B.Answer) T.Text)
        (old new : List (Kept B.Key (Option B.Answer) T.Text T.Out)) (before after : ℕ)
        → new ≡ old ++ result_over B.Key.eq T.query here ∷ []
        → (SomeAlikeAt here old × (after ≡ before)) ⊎ (NoneAlikeAt here old × (after ≡ before + 1))
        → IsPass B.Key.eq T.Text.eq (option_eq B.Answer.eq) T.query (here ∷ []) old new
        before after }
    ensures both { (first then : List (Place B.Key (Option B.Answer) T.Text))
        (old between new : List (Kept B.Key (Option B.Answer) T.Text T.Out))
        (before at after : ℕ)
        → IsPass B.Key.eq T.Text.eq (option_eq B.Answer.eq) T.query first old between before at
        → IsPass B.Key.eq T.Text.eq (option_eq B.Answer.eq) T.query then between new at after
        → IsPass B.Key.eq T.Text.eq (option_eq B.Answer.eq) T.query (first ++ then) old new
        before after }
{
    freshness::<B, T>();
    placement::<B, T>();
}
