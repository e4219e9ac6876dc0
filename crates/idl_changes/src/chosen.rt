//! Sets of weights that a text names.

ghost use Rattle.std.specs.Prelude.{◌≡◌, []};
ghost use Rattle.idl_changes.specs.Chosen.{meets, weights_named, with_names, with_weight};
ghost use Rattle.idl_changes.specs.Rows.{callers, nobody};

use crate::rows::{CALLERS, NOBODY, Weights};

impl Weights {
    /// Those of callers: on the wire, and for clients.
    pub fn of_callers() -> Weights
        ensures { result ≡ callers }
    {
        CALLERS
    }

    /// Whether one of these is among those.
    pub fn meets(self, among: Weights) -> bool
        ensures { result ≡ meets self among }
    {
        (self.wire && among.wire)
            || (self.client && among.client)
            || (self.servant && among.servant)
            || (self.names && among.names)
            || (self.added && among.added)
    }

    /// Those that a text names, with commas between: `never` none.
    #[tactic(auto, unfolding(crate::specs::Chosen::weights_named))]
    pub fn named(text: &[u8]) -> Option<Weights>
        ensures { result ≡ weights_named text.now }
    {
        if text == b"never".as_slice() {
            return Some(NOBODY);
        }
        with_names(text)
    }
}

// Those whose names stand in a text with commas between.
fn with_names(text: &[u8]) -> Option<Weights>
    ensures { result ≡ with_names [] text.now nobody }
{
    let mut weights = NOBODY;
    let mut start = 0;
    for (place, byte) in text.iter().enumerate() {
        if *byte == b',' {
            weights = with_weight(&text[start..place], weights)?;
            start = place + 1;
        }
    }
    with_weight(&text[start..], weights)
}

// These, and the weight that has a name.
fn with_weight(name: &[u8], weights: Weights) -> Option<Weights>
    ensures { result ≡ with_weight name.now weights }
{
    let mut more = weights;
    if name == b"wire".as_slice() {
        more.wire = true;
    } else if name == b"client".as_slice() {
        more.client = true;
    } else if name == b"servant".as_slice() {
        more.servant = true;
    } else if name == b"names".as_slice() {
        more.names = true;
    } else if name == b"new".as_slice() {
        more.added = true;
    } else {
        return None;
    }
    Some(more)
}
