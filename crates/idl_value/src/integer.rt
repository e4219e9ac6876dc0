//! The integer types.

ghost use Rattle.std.specs.Prelude.{◌≡◌, Some, refl};
ghost use Rattle.std.specs.Cmp.{nat_cmp_total, nat_eq_equiv, on_equiv, on_per, on_po, on_total, partial_equiv_from_equiv, unsigned_po, unsigned_ties};
ghost use Rattle.std.specs.Ordering.{nat_cmp, on};
ghost use Rattle.idl_value.specs.integers.Integer.{greatest, holds, holds_part, is_signed, least, power, width};
ghost use Rattle.idl_value.specs.integers.SameInteger.{integer_number, integer_eq, same_integer_kind};

use idl_base::Datum;
use std::cmp::Ordering;

/// A type whose values are whole numbers.
#[derive(Clone, Copy)]
pub enum IntegerKind {
    Octet,
    Int8,
    Uint8,
    Short,
    UnsignedShort,
    Long,
    UnsignedLong,
    LongLong,
    UnsignedLongLong,
}

impl IntegerKind {
    // A number for each.
    fn number(self) -> u8
        ensures { result ≡ integer_number self }
    {
        match self {
            IntegerKind::Octet => 0,
            IntegerKind::Int8 => 1,
            IntegerKind::Uint8 => 2,
            IntegerKind::Short => 3,
            IntegerKind::UnsignedShort => 4,
            IntegerKind::Long => 5,
            IntegerKind::UnsignedLong => 6,
            IntegerKind::LongLong => 7,
            IntegerKind::UnsignedLongLong => 8,
        }
    }

    // How many bits a value of the type has.
    fn width(self) -> u32
        ensures { result ≡ width self }
    {
        match self {
            IntegerKind::Octet | IntegerKind::Int8 | IntegerKind::Uint8 => 8,
            IntegerKind::Short | IntegerKind::UnsignedShort => 16,
            IntegerKind::Long | IntegerKind::UnsignedLong => 32,
            IntegerKind::LongLong | IntegerKind::UnsignedLongLong => 64,
        }
    }

    /// Whether the type has negative values.
    pub fn is_signed(self) -> bool
        ensures { result ≡ is_signed self }
    {
        match self {
            IntegerKind::Int8 | IntegerKind::Short | IntegerKind::Long | IntegerKind::LongLong =>
                true,
            IntegerKind::Octet
            | IntegerKind::Uint8
            | IntegerKind::UnsignedShort
            | IntegerKind::UnsignedLong
            | IntegerKind::UnsignedLongLong => false,
        }
    }

    /// How many values the type has.
    pub fn value_count(self) -> i128
        ensures { result ≡ power (width self) }
    {
        1i128 << self.width()
    }

    /// The least value of the type.
    pub fn least(self) -> i128
        ensures { result ≡ least self }
    {
        if self.is_signed() {
            -(self.value_count() / 2)
        } else {
            0
        }
    }

    /// The greatest value of the type.
    pub fn greatest(self) -> i128
        ensures { result ≡ greatest self }
    {
        self.least() + (self.value_count() - 1)
    }

    /// Whether it is a value of the type.
    pub fn holds(self, value: i128) -> bool
        ensures { result ≡ holds self value }
    {
        self.least() <= value && value <= self.greatest()
    }

    /// Whether a part of a value of the type may have this value.
    pub fn holds_part(self, value: i128) -> bool
        ensures { result ≡ holds_part self value }
    {
        if self.width() > 32 {
            i64::MIN as i128 <= value && value <= u64::MAX as i128
        } else {
            i32::MIN as i128 <= value && value <= u32::MAX as i128
        }
    }
}

impl PartialEq for IntegerKind {
    ghost eq = { integer_eq };

    ghost laws = { on_per integer_number (partial_equiv_from_equiv nat_eq_equiv) };

    fn eq(&self, other: &IntegerKind) -> bool
        ensures { result ≡ integer_eq self.now other.now }
    {
        self.number() == other.number()
    }
}

impl Eq for IntegerKind {
    ghost laws = { on_equiv integer_number nat_eq_equiv };
}

impl PartialOrd for IntegerKind {
    ghost partial_cmp = { λ x y. Some (nat_cmp (integer_number x) (integer_number y)) };

    ghost laws = { on_po integer_number unsigned_po };

    fn partial_cmp(&self, other: &IntegerKind) -> Option<Ordering> {
        Some(self.cmp(other))
    }
}

impl Ord for IntegerKind {
    ghost cmp = { on integer_number nat_cmp };

    ghost total = { on_total integer_number nat_cmp_total };

    ghost matches_partial_cmp = { λ x y. refl };

    ghost matches_eq = { λ x y. unsigned_ties (integer_number x) (integer_number y) };

    fn cmp(&self, other: &IntegerKind) -> Ordering {
        self.number().cmp(&other.number())
    }
}

impl Datum for IntegerKind {
    ghost same = { same_integer_kind };

    ghost copy = { λ x y h. h };
}
