//! Names of files that are shared.

ghost use Rattle.std.specs.Prelude.{◌≡◌, ◌↔◌, IfOk, IsTrue, Some, refl};
ghost use Rattle.std.specs.Cmp.{partial_equiv_from_equiv};
ghost use Rattle.std.specs.Cmp.Lexicographic.{bytes_decides, nat_list_cmp_total, nat_list_eq_equiv, slice_cmp, texts_po, texts_ties};
ghost use Rattle.std.specs.Hash as fed;
ghost use Rattle.std.specs.Ordering.{nat_cmp};
ghost use Rattle.std.specs.Str.{bytes_eq};
ghost use Rattle.std.proofs.Common.{ap};
ghost use Rattle.idl_source.specs.names.Name.{is_name};

use idl_source::Name;
use idl_source::idl_base::Datum;
use std::alloc::{AllocError, Global};
use std::cmp::Ordering;
use std::hash::{Hash, Hasher};
use std::marker::Model;
use std::rc::RcSlice;

/// The name of a file, which keys, places and events share. A clone copies a pointer.
#[derive(Drop)]
pub struct FileName {
    bytes: RcSlice<u8>,
}

impl Model for FileName {
    ghost use Rattle.std.specs.Prelude.{List, ℕ, IsTrue};
    ghost use Rattle.std.specs.Rc.{rc_slice_items};
    ghost use Rattle.idl_source.specs.names.Name.{is_name};

    ghost Value = { List ℕ };

    ghost view = { λ file. rc_slice_items file.bytes };

    ghost invariant = { λ file. IsTrue (is_name (rc_slice_items file.bytes)) };
}

impl FileName {
    /// The name, from now on shared.
    pub fn new(alloc: Global, name: &Name) -> Result<FileName, AllocError>
        ensures { IfOk result (λ file. file ≡ name.now) }
    {
        let bytes = RcSlice::from_slice(alloc, name.as_bytes())?;
        Ok(FileName { bytes })
    }

    /// The bytes of the name.
    pub fn as_bytes(&self) -> &[u8]
        ensures bytes { result.now ≡ self.now }
        ensures allowed { IsTrue (is_name self.now) }
    {
        self.bytes.as_slice()
    }

    /// The name itself. It takes no memory.
    pub fn name(&self) -> Name
        ensures { result ≡ self.now }
    {
        Name::new(self.as_bytes()).unwrap()
    }
}

impl Clone for FileName {
    ghost is_clone = { λ file copy. copy ≡ file };

    fn clone(&self) -> Result<FileName, AllocError> {
        let bytes = self.bytes.clone()?;
        Ok(FileName { bytes })
    }
}

impl PartialEq for FileName {
    ghost eq = { bytes_eq };

    ghost laws = { partial_equiv_from_equiv nat_list_eq_equiv };

    fn eq(&self, other: &FileName) -> bool
        ensures by_byte { result ≡ bytes_eq self.now other.now }
        ensures exact { IsTrue result ↔ (self.now ≡ other.now) }
    {
        self.bytes.as_slice() == other.bytes.as_slice()
    }
}

impl Eq for FileName {
    ghost laws = { nat_list_eq_equiv };
}

impl PartialOrd for FileName {
    ghost partial_cmp = { λ x y. Some (slice_cmp nat_cmp x y) };

    ghost laws = { texts_po };

    fn partial_cmp(&self, other: &FileName) -> Option<Ordering> {
        Some(self.cmp(other))
    }
}

impl Ord for FileName {
    ghost cmp = { slice_cmp nat_cmp };

    ghost total = { nat_list_cmp_total };

    ghost matches_partial_cmp = { λ x y. refl };

    ghost matches_eq = { texts_ties };

    fn cmp(&self, other: &FileName) -> Ordering
        ensures { result ≡ slice_cmp nat_cmp self.now other.now }
    {
        self.as_bytes().cmp(&other.as_bytes())
    }
}

impl Hash for FileName {
    ghost hash_input = { fed.slice fed.u8 };

    ghost respects_eq = { λ x y h. ap (fed.slice fed.u8) ((bytes_decides x y).0 h) };

    fn hash<H: Hasher>(&self, state: &mut H) {
        self.bytes.as_slice().hash(state);
    }
}

impl Datum for FileName {
    ghost same = { λ x y. (bytes_decides x y).0 };

    ghost copy = { λ x y h. h };
}
