//! Types of which there are no constants.

ghost use Rattle.std.specs.Cmp.{nat_cmp_total, nat_eq_equiv, on_equiv, on_per, on_po, on_total, partial_equiv_from_equiv, unsigned_po, unsigned_ties};
ghost use Rattle.std.specs.Ordering.{nat_cmp, on};
ghost use Rattle.std.specs.Prelude.{◌≡◌, Some, refl};
ghost use Rattle.idl_entity.specs.Unvalued.{unvalued_number, unvalued_eq, same_unvalued};

use idl_base::Datum;
use std::cmp::Ordering;

/// A type of keywords of which there are no constants.
#[derive(Clone, Copy)]
pub enum Unvalued {
    Float,
    Double,
    LongDouble,
    Any,
    Object,
}

impl Unvalued {
    // A number for each.
    fn number(self) -> u8
        ensures { result ≡ unvalued_number self }
    {
        match self {
            Unvalued::Float => 0,
            Unvalued::Double => 1,
            Unvalued::LongDouble => 2,
            Unvalued::Any => 3,
            Unvalued::Object => 4,
        }
    }
}

impl PartialEq for Unvalued {
    ghost eq = { unvalued_eq };

    ghost laws = { on_per unvalued_number (partial_equiv_from_equiv nat_eq_equiv) };

    fn eq(&self, other: &Unvalued) -> bool
        ensures { result ≡ unvalued_eq self.now other.now }
    {
        self.number() == other.number()
    }
}

impl Eq for Unvalued {
    ghost laws = { on_equiv unvalued_number nat_eq_equiv };
}

impl PartialOrd for Unvalued {
    ghost partial_cmp = { λ x y. Some (nat_cmp (unvalued_number x) (unvalued_number y)) };

    ghost laws = { on_po unvalued_number unsigned_po };

    fn partial_cmp(&self, other: &Unvalued) -> Option<Ordering> {
        Some(self.cmp(other))
    }
}

impl Ord for Unvalued {
    ghost cmp = { on unvalued_number nat_cmp };

    ghost total = { on_total unvalued_number nat_cmp_total };

    ghost matches_partial_cmp = { λ x y. refl };

    ghost matches_eq = { λ x y. unsigned_ties (unvalued_number x) (unvalued_number y) };

    fn cmp(&self, other: &Unvalued) -> Ordering {
        self.number().cmp(&other.number())
    }
}

impl Datum for Unvalued {
    ghost same = { same_unvalued };

    ghost copy = { λ x y h. h };
}
