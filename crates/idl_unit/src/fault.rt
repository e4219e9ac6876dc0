//! Faults of units.

use idl_fault::Code;

/// A fault of a unit: its code, and the number of the token at which it is decided, from 0.
#[derive(Clone, Copy)]
pub struct Fault {
    pub index: usize,
    pub code: Code,
}
