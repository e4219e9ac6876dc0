//! What verdicts are made in.

use idl_env::Room;
use std::alloc::Global;

/// What the verdicts of many units are made in, one after another. A verdict is the same whatever stands there.
#[derive(Drop)]
pub struct Scratch {
    /// In which a row is written before it is copied.
    pub row: Vec<u8>,
    /// Where what a unit adds is gathered.
    pub room: Room,
}

impl Scratch {
    /// Nothing stands there. It takes no memory.
    pub fn new(alloc: Global) -> Scratch {
        Scratch {
            row: Vec::new(alloc),
            room: Room::new(alloc),
        }
    }
}
