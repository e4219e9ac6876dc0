//! The laws of the results of places.

ghost use Rattle.std.specs.Prelude.{◌≡◌, List, Option, map};
ghost use Rattle.std.specs.Option.{option_eq};
ghost use Rattle.idl_memo.specs.Fresh.{Place, fresh_at};
ghost use Rattle.idl_memo.specs.Kept.{NoneAlikeAt, SomeAlikeAt, result_over};

use crate::bank::Bank;
use crate::task::Task;

/// A place is fresh against known ones just where none of their results is alike there.
pub fn placement<B: Bank, T: Task<B>>()
    ensures none { (known : List (Place B.Key (Option B.Answer) T.Text))
        (here : Place B.Key (Option B.Answer) T.Text)
        → NoneAlikeAt here (map (λ p. result_over B.Key.eq T.query p) known)
        → fresh_at T.Text.eq (option_eq B.Answer.eq) T.query known here ≡ 1 }
    ensures some { (known : List (Place B.Key (Option B.Answer) T.Text))
        (here : Place B.Key (Option B.Answer) T.Text)
        → SomeAlikeAt here (map (λ p. result_over B.Key.eq T.query p) known)
        → fresh_at T.Text.eq (option_eq B.Answer.eq) T.query known here ≡ 0 }
{}
