//! The faults of a token by a table.

ghost use Rattle.std.specs.Prelude.{◌≡◌};
ghost use Rattle.idl_check.specs.tables.Codes.{codes_in};
ghost use Rattle.idl_unit.specs.Faults.{lesser_fault};
ghost use Rattle.idl_unit.specs.TokenRules.{first};

use idl_fault::Code;
use idl_unit::Fault;

/// The code of the first test that holds.
pub fn first_code(table: &[(bool, Code)]) -> Option<Code>
    ensures { result ≡ first (codes_in table.now) }
{
    for (holds, code) in table {
        if *holds {
            return Some(*code);
        }
    }
    None
}

/// The lesser of two faults: by the token, and at one token by the code.
pub fn lesser(fault: Fault, other: Fault) -> Fault
    ensures { result ≡ lesser_fault fault other }
{
    if other.index < fault.index
        || (other.index == fault.index && other.code.number() < fault.code.number())
    {
        other
    } else {
        fault
    }
}
