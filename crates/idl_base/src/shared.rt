//! Values that are shared.

ghost use Rattle.std.specs.Option.{option_copied};
ghost use Rattle.std.specs.Prelude.{◌≡◌, IfOk, Some, refl};
ghost use Rattle.std.specs.Cmp.{partial_order_from_agreeing_total};

use crate::datum::Datum;
use std::alloc::{AllocError, Global};
use std::cmp::Ordering;
use std::marker::Model;
use std::rc::Rc;

/// A value behind a pointer, which its clones share. To every contract it is the value itself.
#[derive(Drop)]
pub struct Shared<T> {
    inner: Rc<T>,
}

impl<T> Model for Shared<T> {
    ghost Value = { T };

    ghost coded = { T.code };

    ghost view = { λ shared. shared.inner.value };
}

impl<T> Shared<T> {
    /// The value.
    pub fn get(&self) -> &T
        ensures { result.now ≡ self.now }
    {
        &self.inner
    }
}

impl<T: Drop> Shared<T> {
    /// The value, from now on shared.
    pub fn new(alloc: Global, value: T) -> Result<Shared<T>, AllocError>
        ensures { IfOk result (λ shared. shared ≡ value) }
    {
        let inner = Rc::new(alloc, value)?;
        Ok(Shared { inner })
    }
}

impl<T: Drop> Clone for Shared<T> {
    ghost is_clone = { λ shared copy. copy ≡ shared };

    fn clone(&self) -> Result<Shared<T>, AllocError> {
        let inner = self.inner.clone()?;
        Ok(Shared { inner })
    }
}

/// A copy of what is there, if anything is.
pub fn copied<T: Datum>(value: &Option<T>) -> Result<Option<T>, AllocError>
    ensures { IfOk result (λ copy. copy ≡ value.now) }
{
    match value {
        Some(there) => Ok(Some(there.clone()?)),
        None => Ok(None),
    }
}

/// A copy of what is lent, if anything is.
pub fn copied_of<T: Datum>(value: Option<&T>) -> Result<Option<T>, AllocError>
    ensures { IfOk result (λ copy. copy ≡ option_copied value.entry) }
{
    match value {
        Some(there) => Ok(Some(there.clone()?)),
        None => Ok(None),
    }
}

impl<T: Datum> PartialEq for Shared<T> {
    ghost eq = { T.eq };

    ghost laws = { T.PartialEq.laws };

    fn eq(&self, other: &Shared<T>) -> bool
        ensures { result ≡ T.eq self.now other.now }
    {
        *self.get() == *other.get()
    }
}

impl<T: Datum> Eq for Shared<T> {
    ghost laws = { T.Eq.laws };
}

impl<T: Datum + Ord> PartialOrd for Shared<T> {
    ghost partial_cmp = { λ x y. Some (T.cmp x y) };

    ghost laws = { partial_order_from_agreeing_total T.cmp T.total (λ x y. refl) T.matches_eq };

    fn partial_cmp(&self, other: &Shared<T>) -> Option<Ordering> {
        Some(self.cmp(other))
    }
}

impl<T: Datum + Ord> Ord for Shared<T> {
    ghost cmp = { T.cmp };

    ghost total = { T.total };

    ghost matches_partial_cmp = { λ x y. refl };

    ghost matches_eq = { T.matches_eq };

    fn cmp(&self, other: &Shared<T>) -> Ordering
        ensures { result ≡ T.cmp self.now other.now }
    {
        self.get().cmp(other.get())
    }
}

impl<T: Datum + Drop> Datum for Shared<T> {
    ghost same = { T.same };

    ghost copy = { λ x y h. h };
}
