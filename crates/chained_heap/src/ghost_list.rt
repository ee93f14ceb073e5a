//! A list that only contracts and proofs read. It takes no memory, and its methods do nothing at run time.
ghost use Rattle.std.specs.Prelude.{◌≡◌, List, replicate, slice_set};
ghost use Rattle.std.specs.Borrow.{ftrue};

use std::marker::{Model, PhantomData};

/// A clause reads the list as `items`. Nothing but the invariant of the struct that keeps it says what it has to do with memory.
#[derive(Drop)]
pub struct GhostList<T> {
    of: PhantomData<T>,
    pub ghost items: { List T },
}

impl<T> Model for GhostList<T> {
    ghost also_owns = { λ _. ftrue };
}

// It owns nothing.
unsafe impl<T: Send> Send for GhostList<T> {}

impl<T> GhostList<T> {
    /// The list of so many times one item.
    #[inline(always)]
    pub fn filled(_count: &usize, _item: &T) -> GhostList<T>
        ensures { result.items ≡ replicate _count.now _item.now }
    {
        GhostList { of: PhantomData }
    }

    /// The list with another item at one place.
    #[inline(always)]
    pub fn with(&self, _at: &usize, _item: &T) -> GhostList<T>
        ensures { result.items ≡ slice_set self.now.items _at.now _item.now }
    {
        GhostList { of: PhantomData }
    }
}
