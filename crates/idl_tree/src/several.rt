//! One or more.

use idl_base::Seq;

/// A list that isn't empty.
pub struct Several<T> {
    pub first: T,
    pub rest: Seq<T>,
}

impl<T: Drop> Drop for Several<T> {
    fn drop(self) {
        let Several {
            first: _first,
            rest: _rest,
        } = self;
    }
}
