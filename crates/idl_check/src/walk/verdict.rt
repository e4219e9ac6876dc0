//! What comes of a unit.

ghost use Rattle.std.specs.Prelude.{◌≡◌, [], IfOk, None};

use idl_base::Bytes;
use idl_env::{Facts, Room, Step, Writes};
use idl_unit::Fault;
use std::alloc::{AllocError, Global};

/// What comes of a unit. It names tokens by their numbers, and no place.
pub struct Verdict {
    /// Its least fault.
    pub fault: Option<Fault>,
    /// What it adds: names only where there is no fault.
    pub writes: Writes,
    /// Its row in the dump, which a faulty unit and a pragma have not.
    pub row: Option<Bytes>,
}

impl Drop for Verdict {
    fn drop(self) {
        let Verdict {
            fault: _fault,
            writes: _writes,
            row: _row,
        } = self;
    }
}

impl Verdict {
    /// What it adds, taken out.
    pub fn into_writes(self) -> Writes
        ensures { result ≡ self.writes }
    {
        let Verdict {
            fault: _fault,
            writes,
            row: _row,
        } = self;
        writes
    }
}

impl Verdict {
    /// The same in no more memory than it needs. What it had is room for others.
    pub fn fitted(self, room: &mut Room) -> Result<Verdict, AllocError>
        ensures { IfOk result (λ verdict. verdict ≡ self) }
    {
        let Verdict { fault, writes, row } = self;
        let writes = writes.fitted(room)?;
        Ok(Verdict { fault, writes, row })
    }
}

/// A verdict that adds no name.
pub fn adding(alloc: Global, fault: Option<Fault>, step: Step) -> Result<Verdict, AllocError>
    ensures { IfOk result (λ verdict.
        verdict
        ≡ record {
          fault = fault;
          writes = record { additions = []; step = step };
          row = None;
        }) }
{
    let mut facts = Facts::new(alloc);
    facts.then(step);
    let writes = Writes::new(alloc, facts)?;
    Ok(Verdict {
        fault,
        writes,
        row: None,
    })
}
