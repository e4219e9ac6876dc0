//! Versions, as a pragma gives them.

ghost use Rattle.std.specs.Prelude.{◌≡◌, ◌<◌, IfSome, length, position};
ghost use Rattle.idl_lex.specs.bytes.Byte.{is_digit};
ghost use Rattle.idl_tree.specs.Pragma.{is_dot, version_number, version_of};

/// The most that a number of a version may be.
const MAX_NUMBER: u32 = 65_535;

/// The two numbers of digits, `.` and digits, if neither is too large.
pub fn version(bytes: &[u8]) -> Option<(u16, u16)>
    ensures { result ≡ version_of bytes.now }
{
    let dot = first_dot(bytes)?;
    let major = version_number(&bytes[..dot])?;
    let minor = version_number(&bytes[dot + 1..])?;
    Some((major, minor))
}

/// The place of the first `.`.
fn first_dot(bytes: &[u8]) -> Option<usize>
    ensures first { result ≡ position is_dot bytes.now }
    ensures within { IfSome result (λ i. i < length bytes.now) }
{
    bytes.iter().position(|b| *b == b'.')
}

/// The number that digits spell, if there are any and it isn't too large.
fn version_number(bytes: &[u8]) -> Option<u16>
    ensures { result ≡ version_number bytes.now }
{
    if bytes.is_empty() {
        return None;
    }
    let mut value = 0u32;
    for b in bytes {
        if !is_digit(*b) {
            return None;
        }
        value = value * 10 + u32::from(*b - b'0');
        if value > MAX_NUMBER {
            return None;
        }
    }
    u16::try_from(value).ok()
}

fn is_digit(b: u8) -> bool
    ensures { result ≡ is_digit b }
{
    48 <= b && b <= 57
}
