//! The laws of equality of exact data.

ghost use Rattle.std.specs.Prelude.{◌≡◌, true};
ghost use Rattle.std.specs.Cmp.{IsEquivalence};

use idl_base::Datum;

// Equality of what is compared is an equivalence, and what is equal is one.
pub(crate) fn exact<T: Datum>()
    ensures equal { IsEquivalence T.eq }
    ensures same { (x y : T) → T.eq x y ≡ true → x ≡ y }
{}
