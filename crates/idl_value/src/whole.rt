//! The bit operators on two's complement without end.

ghost use Rattle.std.specs.Prelude.{◌≡◌, ℕ, ◌+◌, ◌%◌, min, max};
ghost use Rattle.idl_value.specs.integers.Bits.{bit_of, whole_and, whole_or, whole_xor};

/// Bit by bit, 1 where both are.
pub fn and(a: i128, b: i128) -> i128
    ensures value { result ≡ whole_and a b }
    ensures bits { (i : ℕ) → bit_of result i ≡ min (bit_of a i) (bit_of b i) }
{
    a & b
}

/// Bit by bit, 1 where one is.
pub fn or(a: i128, b: i128) -> i128
    ensures value { result ≡ whole_or a b }
    ensures bits { (i : ℕ) → bit_of result i ≡ max (bit_of a i) (bit_of b i) }
{
    a | b
}

/// Bit by bit, 1 where one alone is.
pub fn xor(a: i128, b: i128) -> i128
    ensures value { result ≡ whole_xor a b }
    ensures bits { (i : ℕ) → bit_of result i ≡ (bit_of a i + bit_of b i) % 2 }
{
    a ^ b
}
