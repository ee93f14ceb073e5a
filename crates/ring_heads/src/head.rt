//! What a merge holds of one worker.
ghost use Rattle.std.specs.Prelude.{◌≡◌};

use canonical_terms::TermOf;
use coeff_ring::CoeffRing;
use std::alloc::AllocError;

/// The last term that was taken from a worker and is not yet summed, or that there is none, or that the worker took its end.
pub enum HeadOf<M, E> {
    Missing,
    Term(TermOf<M, E>),
    Ended,
}

/// The head of a worker over the ring `R` in the monomials `M`.
pub type Head<R, M> = HeadOf<M, <R as CoeffRing>::E>;

impl<M: Copy, E: Copy> Clone for HeadOf<M, E> {
    ghost is_clone = { λ x y. y ≡ x };

    fn clone(&self) -> Result<HeadOf<M, E>, AllocError> {
        Ok(*self)
    }
}

impl<M: Copy, E: Copy> Copy for HeadOf<M, E> {}
