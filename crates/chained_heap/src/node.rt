//! The parts of the heap.
ghost use Rattle.std.specs.Prelude.{◌≡◌};

use std::alloc::AllocError;

/// A monomial of the heap, and the first row of its chain.
#[derive(Clone, Copy)]
pub struct Node<M> {
    pub mono: M,
    pub row: u32,
}

/// Where a row is: in no part of the heap, at a monomial, or taken.
pub enum Place<M> {
    Out,
    In(M),
    Taken,
}

impl<M: Copy> Clone for Place<M> {
    ghost is_clone = { λ x y. y ≡ x };

    fn clone(&self) -> Result<Place<M>, AllocError> {
        Ok(*self)
    }
}

impl<M: Copy> Copy for Place<M> {}
