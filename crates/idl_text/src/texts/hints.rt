//! Where words may stand in a list.

use std::alloc::{AllocError, Global};

// So many numbers there are, by one of which a word is found.
const NUMBERS: usize = 2048;

/// Where in a list words may stand: beside the number of words the first place that was noted for one, and the last.
///
/// Words share numbers, so nothing is promised of a place: who looks there compares the word.
#[derive(Drop)]
pub struct Hints {
    noted: Vec<Places>,
}

/// Two places in a list.
#[derive(Clone, Copy)]
pub struct Places {
    pub first: u32,
    pub last: u32,
}

// Where nothing is noted: past the end of each list.
const NOWHERE: Places = Places {
    first: u32::MAX,
    last: u32::MAX,
};

impl Hints {
    /// Nothing is noted. It takes no memory.
    pub fn new(alloc: Global) -> Hints {
        Hints {
            noted: Vec::new(alloc),
        }
    }

    /// Where a word with this digest may stand: nowhere, or at one of two places.
    pub fn places_of(&self, digest: u64) -> Places {
        match self.noted.get(number_in(digest)) {
            Some(places) => *places,
            None => NOWHERE,
        }
    }

    /// Notes where a word with this digest stands.
    pub fn note(&mut self, digest: u64, place: usize) -> Result<(), AllocError> {
        let Ok(place) = u32::try_from(place) else {
            return Ok(());
        };
        if self.noted.is_empty() {
            self.noted.resize(NUMBERS, NOWHERE)?;
        }
        if let Some(places) = self.noted.get_mut(number_in(digest)) {
            if places.first == NOWHERE.first {
                places.first = place;
            }
            places.last = place;
        }
        Ok(())
    }
}

// The number of the words with a digest.
fn number_in(digest: u64) -> usize {
    (digest >> 53) as usize
}
