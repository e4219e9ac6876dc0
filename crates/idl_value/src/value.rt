//! Values.

ghost use Rattle.std.specs.Prelude.{◌≡◌};
ghost use Rattle.idl_value.specs.Digest.{integer_digest};

use idl_base::{Bytes, Datum, Seq, mixed, with_bytes};
use idl_map::Digest;

/// The value of a constant, of a label or of an expression, with its kind. Two labels of one union are the same where their values
/// are equal; the order has no meaning, and lets values be looked up.
#[derive(Clone, PartialEq, Eq, PartialOrd, Ord)]
pub enum Value {
    Integer(i128),
    Boolean(bool),
    Character(u16),
    WideCharacter(u16),
    /// The characters of a narrow string.
    Text(Seq<u16>),
    /// The characters of a wide string.
    WideText(Seq<u16>),
    /// The path of an enum, the innermost name first; and the name of one of its enumerators, which is declared in the scope
    /// around the enum.
    Enumerator(Seq<Bytes>, Bytes),
}

impl Drop for Value {
    fn drop(self) {
        match self {
            Value::Integer(_) | Value::Boolean(_) => {}
            Value::Character(_) | Value::WideCharacter(_) => {}
            Value::Text(_characters) | Value::WideText(_characters) => {}
            Value::Enumerator(_enumeration, _name) => {}
        }
    }
}

impl Datum for Value {
    ghost use Rattle.idl_value.specs.Exact.{same_value, copied_value};

    ghost same = { same_value };

    ghost copy = { copied_value };
}

impl Digest for Value {
    ghost use Rattle.idl_value.specs.Digest.{value_digest};

    ghost digest_of = { value_digest };

    #[tactic(auto, unfolding(crate::specs::Digest::value_digest))]
    fn digest(&self) -> u64 {
        match self {
            Value::Integer(number) => integer_digest(*number),
            Value::Boolean(_) => 1,
            Value::Character(c) => mixed(2, u64::from(*c)),
            Value::WideCharacter(c) => mixed(3, u64::from(*c)),
            Value::Text(_) => 4,
            Value::WideText(_) => 5,
            Value::Enumerator(_, name) => with_bytes(6, name.as_bytes()),
        }
    }
}

// The digest of an integer.
fn integer_digest(number: i128) -> u64
    ensures { result ≡ integer_digest number }
{
    with_bytes(0, &number.to_le_bytes())
}
