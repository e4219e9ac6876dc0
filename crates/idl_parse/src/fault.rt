//! Why a unit of tokens has no tree.

ghost use Rattle.std.specs.Prelude.{◌≡◌};
ghost use Rattle.idl_parse.specs.declared.fault.SyntaxFault.TheVariants as fault;

use idl_unit::Fault;
use std::alloc::AllocError;

/// Why a unit of tokens has no tree.
#[derive(Clone, Copy)]
pub enum SyntaxFault {
    /// There is no more memory.
    Memory,
    /// The rules of tokens find this (E01 to E09, E21, E24, E36): it is the least fault, by the token
    /// and then by the code.
    Rule(Fault),
    /// No tree has this spelling (E20). So many tokens are left from the one on at which they stop
    /// being the beginning of a tree.
    NoTree(usize),
}

impl From<AllocError> for SyntaxFault {
    ghost from_gives = { λ _ why. why ≡ fault.Memory };

    fn from(_refused: AllocError) -> SyntaxFault {
        SyntaxFault::Memory
    }
}
