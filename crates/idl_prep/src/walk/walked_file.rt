//! Where lines are walked.

use idl_fault::FileName;

/// The file whose lines are walked, and the bank that is asked.
#[derive(Clone, Copy)]
pub struct WalkedFile<'a, B> {
    pub file: &'a FileName,
    pub bank: &'a B,
}
