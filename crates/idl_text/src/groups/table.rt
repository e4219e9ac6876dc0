//! The branches of a file.

ghost use Rattle.std.specs.Prelude.{◌≡◌, IfSome};
ghost use Rattle.std.specs.List.{Contains};

use crate::groups::branch::BranchSpan;
use crate::groups::fault::GroupFault;

/// The branches of a file's groups, in the order in which they begin, and the faults of its groups.
pub struct BranchTable {
    pub spans: Vec<BranchSpan>,
    pub faults: Vec<GroupFault>,
}

impl Drop for BranchTable {
    fn drop(self) {
        let BranchTable {
            spans: _spans,
            faults: _faults,
        } = self;
    }
}

impl BranchTable {
    /// The branch that begins with this token, if one does.
    pub fn branch_from(&self, from: usize) -> Option<&BranchSpan>
        ensures { IfSome result
            (λ span. Contains self.now.spans.items span.now × (span.now.from ≡ from)) }
    {
        match self.spans.binary_search_by_key(&from, |span| span.from) {
            Ok(place) => Some(&self.spans[place]),
            Err(_) => None,
        }
    }
}
