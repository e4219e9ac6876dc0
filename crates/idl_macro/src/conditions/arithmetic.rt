//! Arithmetic on signed numbers of 64 bits, as a condition has it: what these bits do not hold is a fault.

ghost use Rattle.std.specs.Prelude.{◌≡◌, pos};
ghost use Rattle.idl_macro.specs.conditions.Arithmetic.{checked, truth, divided, remaining, shifted_left, shifted_right};

/// A number without sign, where 63 bits hold it.
pub fn signed(number: u64) -> Option<i64>
    ensures { result ≡ checked (pos number) }
{
    i64::try_from(number).ok()
}

/// 1 or 0.
pub fn truth(holds: bool) -> Option<i64>
    ensures { result ≡ truth holds }
{
    Some(i64::from(holds))
}

/// `a / b`, cut towards zero.
pub fn divide(a: i64, b: i64) -> Option<i64>
    ensures { result ≡ divided a b }
{
    a.checked_div(b)
}

/// `a % b`, with the sign of `a`.
pub fn remain(a: i64, b: i64) -> Option<i64>
    ensures { result ≡ remaining a b }
{
    if b == 0 {
        None
    } else {
        Some(a.wrapping_rem(b))
    }
}

/// `a << count`.
pub fn shift_left(a: i64, count: i64) -> Option<i64>
    ensures { result ≡ shifted_left a count }
{
    if a < 0 || count < 0 || count > 63 {
        return None;
    }
    signed((a as u64).checked_mul(1u64 << count as u32)?)
}

/// `a >> count`.
pub fn shift_right(a: i64, count: i64) -> Option<i64>
    ensures { result ≡ shifted_right a count }
{
    if a < 0 || count < 0 || count > 63 {
        return None;
    }
    Some(a >> count as u32)
}
