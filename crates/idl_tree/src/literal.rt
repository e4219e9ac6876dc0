//! Literals.

use crate::several::Several;
use idl_base::Seq;

/// A literal, by its value. A string is one literal or more, side by side.
pub enum Literal {
    Integer(u64),
    Character(u16),
    WideCharacter(u16),
    Text(Several<Seq<u16>>),
    WideText(Several<Seq<u16>>),
    True,
    False,
}

impl Drop for Literal {
    fn drop(self) {
        match self {
            Literal::Integer(_a) => {}
            Literal::Character(_a) => {}
            Literal::WideCharacter(_a) => {}
            Literal::Text(_a) => {}
            Literal::WideText(_a) => {}
            Literal::True => {}
            Literal::False => {}
        }
    }
}
