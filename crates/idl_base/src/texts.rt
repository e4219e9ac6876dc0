//! Texts that stand among bytes.

ghost use Rattle.std.specs.Prelude.{◌≡◌, ◌++◌, OnOk};
ghost use Rattle.idl_base.specs.Spans.{AreWithin, pieces};

use crate::bytes::Bytes;
use std::alloc::AllocError;
use std::rc::RcSlice;

/// Where a text stands among bytes: from one place up to another.
#[derive(Clone, Copy)]
pub struct ByteRange {
    pub from: usize,
    pub to: usize,
}

/// Puts in the texts that stand at these places among bytes. All but the short ones share one block of memory, which is there
/// as long as one of them is: so few of them should be cut at once.
pub fn push_texts(
    texts: &mut Vec<Bytes>,
    bytes: &[u8],
    spans: &[ByteRange],
) -> Result<(), AllocError>
    requires { AreWithin bytes.now spans.now }
    ensures { OnOk result (texts.new.items ≡ texts.old.items ++ pieces bytes.now spans.now) }
{
    let alloc = *texts.allocator();
    let block = RcSlice::from_slice(alloc, bytes)?;
    for span in spans {
        let text = Bytes::of_block(alloc, &block, span.from, span.to)?;
        texts.push(text)?;
    }
    Ok(())
}
