//! Where the tokens of a unit stand.

ghost use Rattle.std.specs.Prelude.{◌≡◌, ◌≤◌, IfOk, length, slice_get, slice_range};

use idl_event::{Site, Sites};
use std::alloc::AllocError;
use std::marker::Model;
use std::rc::Rc;

/// A part of the sites of a text, which is shared: to every contract the list of them.
#[derive(Drop)]
pub struct SiteRun {
    all: Rc<Sites>,
    from: u32,
    to: u32,
}

// A root has thousands of units.
const _: () = prove!(size_of::<SiteRun>() <= 16);

impl Model for SiteRun {
    ghost use Rattle.std.specs.Prelude.{◌≤◌, List, length, slice_range};
    ghost use Rattle.idl_event.specs.declared.told.site.Site.{Site};

    ghost Value = { List Site };

    ghost view = { λ run. slice_range run.all.value run.from run.to };

    ghost invariant = { λ run. (run.from ≤ run.to) × (run.to ≤ length run.all.value) };
}

impl SiteRun {
    /// The sites from one number up to another. Numbers from the first 2^32 on are as want of memory.
    pub fn new(all: Rc<Sites>, from: usize, to: usize) -> Result<SiteRun, AllocError>
        requires order { from ≤ to }
        requires within { to ≤ length all.value }
        ensures { IfOk result (λ run. run ≡ slice_range all.value from to) }
    {
        let (Ok(from), Ok(to)) = (u32::try_from(from), u32::try_from(to)) else {
            return Err(AllocError);
        };
        Ok(SiteRun { all, from, to })
    }

    /// The site of the token with this number.
    pub fn site(&self, index: usize) -> Result<Option<Site>, AllocError>
        ensures { IfOk result (λ site. site ≡ slice_get self.now index) }
    {
        let from = self.from as usize;
        let to = self.to as usize;
        if index >= to - from {
            return Ok(None);
        }
        self.all.site(from + index)
    }
}
