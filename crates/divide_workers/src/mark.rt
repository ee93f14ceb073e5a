//! The latest mark of a worker.
ghost use Rattle.std.specs.Prelude.{◌≡◌, ◌↔◌, IsTrue};
ghost use Rattle.divide_workers.specs.Inside.{mark_of};

use packed_monomial::Monomial;
use std::cmp::Ordering;
use step_count::Steps;

/// How many quotient terms a worker knows, and the greatest monomial of its known products that it hasn't handed out.
#[derive(Clone, Copy)]
pub struct Mark<M> {
    pub(crate) known: u32,
    pub(crate) top: Option<M>,
}

/// Whether two marks tell the same.
pub(crate) fn is_same<M: Monomial>(left: Mark<M>, right: Mark<M>, steps: &mut Steps) -> bool
    ensures { IsTrue result ↔ mark_of M.vector left ≡ mark_of M.vector right }
{
    if left.known != right.known {
        return false;
    }
    match left.top {
        None => right.top.is_none(),
        Some(top) => match right.top {
            None => false,
            Some(other) => matches!(top.higher(other, steps), Ordering::Equal),
        },
    }
}
