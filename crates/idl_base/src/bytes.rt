//! Bytes, of which few stand in place and more are shared.
//!
//! Names, tokens, lines, rows and ids are one type, so all share by one rule.

ghost use Rattle.std.specs.Prelude.{◌≡◌, ◌≤◌, ◌↔◌, ◌∷◌, [], IfOk, IsTrue, Some, length, refl, slice_range};
ghost use Rattle.std.specs.Cmp.{partial_equiv_from_equiv};
ghost use Rattle.std.specs.Cmp.Lexicographic.{bytes_decides, nat_list_cmp_total, nat_list_eq_equiv, slice_cmp, texts_po, texts_ties};
ghost use Rattle.std.specs.Hash as fed;
ghost use Rattle.std.specs.Ordering.{nat_cmp};
ghost use Rattle.std.specs.Rc.{rc_slice_items};
ghost use Rattle.std.specs.Str.{bytes_eq, str_to_ascii_lowercase};
ghost use Rattle.std.proofs.Common.{ap};

use crate::datum::Datum;
use crate::form::{Form, Short};
use std::alloc::{AllocError, Global};
use std::cmp::Ordering;
use std::hash::{Hash, Hasher};
use std::marker::Model;
use std::rc::RcSlice;

/// Bytes. To every contract they are the plain list, and two are equal where it is one.
///
/// Up to 14 of them stand in place and take no memory. More stand in a block, which their clones and parts share.
pub struct Bytes {
    form: Form,
}

// A file has a hundred thousands of tokens.
const _: () = prove!(size_of::<Bytes>() <= 16);

impl Model for Bytes {
    ghost use Rattle.std.specs.Prelude.{List, ℕ};
    ghost use Rattle.idl_base.specs.Form.{IsWithin, form_bytes};

    ghost Value = { List ℕ };

    ghost view = { λ bytes. form_bytes bytes.form };

    ghost invariant = { λ bytes. IsWithin bytes.form };
}

impl Drop for Bytes {
    fn drop(self) {
        let Bytes { form: _form } = self;
    }
}

impl Bytes {
    /// A copy of these bytes, or want of memory.
    pub fn from_slice(alloc: Global, bytes: &[u8]) -> Result<Bytes, AllocError>
        ensures { IfOk result (λ copy. copy ≡ bytes.now) }
    {
        match Short::new(bytes) {
            Some(short) => Ok(Bytes::few(short)),
            None => Bytes::whole(alloc, RcSlice::from_slice(alloc, bytes)?),
        }
    }

    /// These bytes. More than few stay in their memory, which is shared from now on.
    pub fn from_vec(bytes: Vec<u8>) -> Result<Bytes, AllocError>
        ensures { IfOk result (λ same. same ≡ bytes.items) }
    {
        match Short::new(bytes.as_slice()) {
            Some(short) => Ok(Bytes::few(short)),
            None => Bytes::whole(*bytes.allocator(), RcSlice::from_vec(bytes)?),
        }
    }

    /// This byte.
    pub fn of_byte(b: u8) -> Bytes
        ensures { result ≡ b ∷ [] }
    {
        Bytes::few(Short::of_byte(b))
    }

    /// The bytes of a block from one place up to another: a copy of few, and more share the block.
    pub fn of_block(
        alloc: Global,
        block: &RcSlice<u8>,
        from: usize,
        to: usize,
    ) -> Result<Bytes, AllocError>
        requires order { from ≤ to }
        requires within { to ≤ length (rc_slice_items block.now) }
        ensures { IfOk result (λ bytes. bytes ≡ slice_range (rc_slice_items block.now) from to) }
    {
        match Short::new(&block.as_slice()[from..to]) {
            Some(short) => Ok(Bytes::few(short)),
            None => Bytes::shared(alloc, block.clone()?, from, to),
        }
    }

    /// These bytes with each capital letter made small: few bytes are copied whole.
    #[inline(always)]
    pub fn to_folded(&self, alloc: Global) -> Result<Bytes, AllocError>
        ensures { IfOk result (λ folded. folded ≡ str_to_ascii_lowercase self.now) }
    {
        match &self.form {
            Form::Few(short) => Ok(Bytes::few(short.copied().folded())),
            form => {
                let bytes = Bytes::folded_apart(alloc, form.as_bytes())?;
                Ok(bytes)
            }
        }
    }

    /// Those from one place up to another: a copy of few, and more share the block.
    #[inline(always)]
    pub fn part(&self, from: usize, to: usize) -> Result<Bytes, AllocError>
        requires order { from ≤ to }
        requires within { to ≤ length self.now }
        ensures { IfOk result (λ part. part ≡ slice_range self.now from to) }
    {
        match Short::new(&self.as_bytes()[from..to]) {
            Some(short) => Ok(Bytes::few(short)),
            None => {
                let form = self.form.part(from, to)?;
                Ok(Bytes { form })
            }
        }
    }

    /// The bytes in order.
    #[inline(always)]
    pub fn as_bytes(&self) -> &[u8]
        ensures { result.now ≡ self.now }
    {
        match &self.form {
            Form::Few(short) => short.as_bytes(),
            form => form.as_bytes(),
        }
    }

    /// How many bytes there are.
    pub fn len(&self) -> usize
        ensures { result ≡ length self.now }
    {
        self.as_bytes().len()
    }

    /// Whether there is no byte.
    pub fn is_empty(&self) -> bool
        ensures { IsTrue result ↔ (self.now ≡ []) }
    {
        self.as_bytes().is_empty()
    }

    // Few bytes.
    fn few(short: Short) -> Bytes
        ensures { result ≡ short }
    {
        Bytes {
            form: Form::Few(short),
        }
    }

    // Many bytes, with each capital letter made small.
    #[inline(never)]
    fn folded_apart(alloc: Global, bytes: &[u8]) -> Result<Bytes, AllocError>
        ensures { IfOk result (λ folded. folded ≡ str_to_ascii_lowercase bytes.now) }
    {
        Bytes::from_vec(bytes.to_ascii_lowercase(alloc)?)
    }

    // All of a block.
    fn whole(alloc: Global, block: RcSlice<u8>) -> Result<Bytes, AllocError>
        ensures { IfOk result (λ bytes. bytes ≡ rc_slice_items block) }
    {
        let to = block.len();
        Bytes::shared(alloc, block, 0, to)
    }

    // A block from one place up to another.
    fn shared(
        alloc: Global,
        block: RcSlice<u8>,
        from: usize,
        to: usize,
    ) -> Result<Bytes, AllocError>
        requires order { from ≤ to }
        requires within { to ≤ length (rc_slice_items block) }
        ensures { IfOk result (λ bytes. bytes ≡ slice_range (rc_slice_items block) from to) }
    {
        let form = Form::shared(alloc, block, from, to)?;
        Ok(Bytes { form })
    }
}

impl Clone for Bytes {
    ghost is_clone = { λ bytes copy. copy ≡ bytes };

    #[inline]
    fn clone(&self) -> Result<Bytes, AllocError> {
        match &self.form {
            Form::Few(short) => Ok(Bytes::few(short.copied())),
            form => {
                let form = form.copied()?;
                Ok(Bytes { form })
            }
        }
    }
}

impl PartialEq for Bytes {
    ghost eq = { bytes_eq };

    ghost laws = { partial_equiv_from_equiv nat_list_eq_equiv };

    fn eq(&self, other: &Bytes) -> bool
        ensures by_byte { result ≡ bytes_eq self.now other.now }
        ensures exact { IsTrue result ↔ (self.now ≡ other.now) }
    {
        match (&self.form, &other.form) {
            (Form::Few(own), Form::Few(theirs)) if own.is_copy_of(theirs) => true,
            _ => are_equal(self.as_bytes(), other.as_bytes()),
        }
    }
}

// Whether these are the same bytes, one by one.
#[inline(never)]
fn are_equal(bytes: &[u8], others: &[u8]) -> bool
    ensures { result ≡ bytes_eq bytes.now others.now }
{
    bytes == others
}

impl Eq for Bytes {
    ghost laws = { nat_list_eq_equiv };
}

impl PartialOrd for Bytes {
    ghost partial_cmp = { λ x y. Some (slice_cmp nat_cmp x y) };

    ghost laws = { texts_po };

    fn partial_cmp(&self, other: &Bytes) -> Option<Ordering> {
        Some(self.cmp(other))
    }
}

impl Ord for Bytes {
    ghost cmp = { slice_cmp nat_cmp };

    ghost total = { nat_list_cmp_total };

    ghost matches_partial_cmp = { λ x y. refl };

    ghost matches_eq = { texts_ties };

    fn cmp(&self, other: &Bytes) -> Ordering
        ensures by_byte { result ≡ slice_cmp nat_cmp self.now other.now }
        ensures exact { (result ≡ Ordering.Equal) ↔ (self.now ≡ other.now) }
    {
        self.as_bytes().cmp(&other.as_bytes())
    }
}

impl Hash for Bytes {
    ghost hash_input = { fed.slice fed.u8 };

    ghost respects_eq = { λ x y h. ap (fed.slice fed.u8) ((bytes_decides x y).0 h) };

    fn hash<H: Hasher>(&self, state: &mut H) {
        self.as_bytes().hash(state);
    }
}

impl Datum for Bytes {
    ghost same = { λ x y. (bytes_decides x y).0 };

    ghost copy = { λ x y h. h };
}
