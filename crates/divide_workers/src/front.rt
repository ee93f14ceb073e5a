//! What a worker knows of the quotient terms to come.
ghost use Rattle.std.specs.Prelude.{◌≡◌, ◌≤◌, ◌↔◌, List, IsTrue, Some};
ghost use Rattle.sdmp_laws.specs.Order.{◌⋅◌, degree};
ghost use Rattle.sdmp_laws.specs.Poly.{Term};
ghost use Rattle.sdmp_laws.specs.Division.{Division};
ghost use Rattle.divide_workers.specs.Fronts.{plain_front, front_of, FrontFalls, IsPastBy, IsAhead};

use packed_monomial::Monomial;
use std::cmp::Ordering;
use step_count::Steps;

/// Each quotient term to come, times the leading monomial of the divisor, is at the monomial or below, and below it where the front is strict.
#[derive(Clone, Copy)]
pub struct Front<M> {
    pub(crate) mono: M,
    pub(crate) is_strict: bool,
}

/// The lower of what was known and the news. At one monomial a strict front is the lower.
pub(crate) fn lower<M: Monomial>(
    known: Option<Front<M>>,
    news: Front<M>,
    steps: &mut Steps,
) -> Front<M>
    ensures known { FrontFalls M.order (plain_front M.vector known) (Some (front_of M.vector result)) }
    ensures news { FrontFalls M.order (Some (front_of M.vector news)) (Some (front_of M.vector result)) }
    ensures ahead { (d : Division) (later : List Term) → IsAhead d (plain_front M.vector known) later → IsAhead d (Some (front_of M.vector news)) later → IsAhead d (Some (front_of M.vector result)) later }
{
    let Some(front) = known else { return news };
    match news.mono.higher(front.mono, steps) {
        Ordering::Less => news,
        Ordering::Greater => front,
        Ordering::Equal => { if front.is_strict { front } else { news } }
    }
}

/// Whether a worker may hand out the sum at `top`, where this is its front times its first row.
#[inline(always)]
pub(crate) fn is_past<M: Monomial>(top: M, lead: M, frontier: Front<M>, steps: &mut Steps) -> bool
    requires top { degree (M.vector top) ≤ M.LIM }
    requires lead { degree (M.vector lead) ≤ M.LIM }
    ensures { IsTrue result ↔ IsPastBy frontier.is_strict M.order (M.vector frontier.mono) (M.vector top ⋅ M.vector lead) }
{
    match top.times(lead).higher(frontier.mono, steps) {
        Ordering::Less => false,
        Ordering::Greater => true,
        Ordering::Equal => frontier.is_strict,
    }
}
