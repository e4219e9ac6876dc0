//! The integers of a condition.

ghost use Rattle.std.specs.Prelude.{◌≡◌, ◌≤◌, length};
ghost use Rattle.std.specs.List.{list_all};
ghost use Rattle.idl_macro.specs.conditions.Number.{integer, is_suffix, number_len};

use idl_lex::kinds::integer_value;

/// The value of an integer of C (C 2011, 6.4.4.1), with any letters of suffixes behind it, if it is below 2^64.
pub fn integer(spelling: &[u8]) -> Option<u64>
    ensures { result ≡ integer spelling.now }
{
    let (number, suffix) = spelling.split_at(number_len(spelling));
    if are_suffixes(suffix) {
        integer_value(number)
    } else {
        None
    }
}

// How many bytes stand before the first letter of a suffix.
fn number_len(spelling: &[u8]) -> usize
    ensures len { result ≡ number_len spelling.now }
    ensures within { result ≤ length spelling.now }
{
    spelling.iter().take_while(|b| !is_suffix(**b)).count()
}

// Whether these are letters of suffixes alone.
fn are_suffixes(bytes: &[u8]) -> bool
    ensures { result ≡ list_all is_suffix bytes.now }
{
    bytes.iter().all(|b| is_suffix(*b))
}

fn is_suffix(b: u8) -> bool
    ensures { result ≡ is_suffix b }
{
    b == b'u' || b == b'U' || b == b'l' || b == b'L'
}
