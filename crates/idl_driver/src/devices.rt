//! What a program reads and writes.

/// What a program reads and writes.
#[derive(Drop)]
pub struct Devices<L, S, O, E> {
    /// Where files come from.
    pub loader: L,
    /// Where commands and messages come from.
    pub source: S,
    /// Where dumps, listings and answers go.
    pub output: O,
    /// Where errors go, and why the program fails.
    pub errors: E,
}
