//! What a merge of a division finds at the monomial that it reads next.
ghost use Rattle.std.specs.Prelude.{◌≡◌, ◌≢◌, ◌↔◌, ◌<◌, ℕ, List, ℤ, MatchOption, IsTrue, Some, None, false, cond, eqb};
ghost use Rattle.sdmp_laws.specs.Order.{IsUnder};
ghost use Rattle.sdmp_laws.specs.Poly.{coef};
ghost use Rattle.divide_merge.specs.Inside.{vector_of};
ghost use Rattle.divide_merge.specs.Reading.{IsReadNext, IsGreatest, IsLowTop, IsGreater};
ghost use Rattle.divide_merge.specs.Verdicts.{NoneStuck, IsFirstStuck};
ghost use Rattle.dividing_rounds.specs.Found.{read_coef};
ghost use Rattle.dividing_rounds.specs.Stalls.{IsGreatestRead, IsAsked, IsCurrent, IsStuck, IsDue};

use crate::mark::Next;
use crate::merge::DivideMerge;
use coeff_ring::CoeffRing;
use packed_monomial::Monomial;
use std::cmp::Ordering;
use step_count::Steps;

impl<R: CoeffRing, M: Monomial> DivideMerge<R, M> {
    /// The greatest monomial of the unread terms and of the heads, and None exactly where there is neither.
    pub(crate) fn next_read(&self, steps: &mut Steps) -> Option<Next<M>>
        ensures { MatchOption result (IsGreatestRead self.now.run.state None) (λ x. IsReadNext M.vector self.now.run.state x) }
    {
        let terms = self.dividend.terms();
        let Some(top) = self.heads.top(steps) else {
            if self.read >= terms.len() {
                return None;
            }
            return Some(Next {
                mono: terms[self.read].mono,
                unread: true,
                headed: false,
            });
        };
        if self.read >= terms.len() {
            return Some(Next {
                mono: top,
                unread: false,
                headed: true,
            });
        }
        Some(greater(terms[self.read].mono, top, steps))
    }

    /// Whether the worker may owe a product: it has no head, and a part of the divisor.
    fn is_asked(&self, worker: usize) -> bool
        requires { worker < self.now.run.state.workers }
        ensures { IsTrue result ↔ IsAsked self.now.run.state worker }
    {
        if !self.heads.is_missing(worker) {
            return false;
        }
        first_place(worker, self.readers.len()) < self.divisor.terms
    }

    /// Whether the latest mark of the worker knows each quotient term that is found.
    fn is_current(&self, worker: usize) -> bool
        requires { worker < self.now.run.state.workers }
        ensures { IsTrue result ↔ IsCurrent self.now.run.state worker }
    {
        self.marks[worker].known as usize == self.q.len()
    }

    /// Whether the worker need not be waited for.
    fn is_ready(&self, next: Option<M>, worker: usize, steps: &mut Steps) -> bool
        requires { worker < self.now.run.state.workers }
        ensures yes { IsTrue result → IsStuck self.now.run.state (vector_of M.vector next) worker → ⊥ }
        ensures no { result ≡ false → IsStuck self.now.run.state (vector_of M.vector next) worker }
    {
        if !self.is_asked(worker) {
            return true;
        }
        self.is_current(worker) && is_top_low(next, self.marks[worker].top, steps)
    }

    /// The first worker that has to be waited for.
    pub(crate) fn first_stuck(&self, next: Option<M>, steps: &mut Steps) -> Option<u32>
        ensures { MatchOption
            result
            (NoneStuck self.now.run.state (vector_of M.vector next))
            (λ w. IsFirstStuck self.now.run.state (vector_of M.vector next) w) }
    {
        for worker in 0..self.readers.len() {
            if !self.is_ready(next, worker, steps) {
                return Some(worker as u32);
            }
        }
        None
    }

    /// The bound of the front that is due, where one is.
    pub(crate) fn due_bound(&self, next: Option<M>, steps: &mut Steps) -> Option<M>
        requires { IsGreatestRead self.now.run.state (vector_of M.vector next) }
        ensures { MatchOption
            result
            ((x : List ℕ) → IsDue self.now.run.state x → ⊥)
            (λ b. IsDue self.now.run.state (M.vector b)) }
    {
        let mut bound = next;
        for worker in 0..self.readers.len() {
            if !self.is_asked(worker) {
                continue;
            }
            if !self.is_current(worker) {
                return None;
            }
            bound = greatest(bound, self.marks[worker].top, steps);
        }
        let bound = bound?;
        if self.is_under_front(bound, steps) {
            Some(bound)
        } else {
            None
        }
    }

    /// Whether the monomial is below the present front, or there is none.
    fn is_under_front(&self, mono: M, steps: &mut Steps) -> bool
        ensures { IsTrue result ↔ IsUnder M.order self.now.run.state.front (M.vector mono) }
    {
        match self.front {
            None => true,
            Some(front) => matches!(mono.higher(front, steps), Ordering::Less),
        }
    }

    /// The coefficient of the unread terms less the heads at the monomial that is read next.
    pub(crate) fn coefficient(&self, next: Next<M>, steps: &mut Steps) -> R::E
        requires next { IsReadNext M.vector self.now.run.state next }
        requires heard { NoneStuck self.now.run.state (Some (M.vector next.mono)) }
        ensures belongs { R.belongs self.now.run.state.division.p result }
        ensures value { R.value result ≡ read_coef self.now.run.state (M.vector next.mono) }
    {
        let unread = self.unread_coefficient(next);
        if !next.headed {
            return unread;
        }
        let Some(sum) = self.heads.sum_at_top(self.coefficients, steps) else {
            unreachable!()
        };
        let heads = self.coefficients.neg(sum.coef);
        self.coefficients.add(unread, heads)
    }

    // the coefficient of the unread term there, and zero where there is none
    fn unread_coefficient(&self, next: Next<M>) -> R::E
        requires next { IsReadNext M.vector self.now.run.state next }
        ensures belongs { R.belongs self.now.run.state.division.p result }
        ensures value { R.value result ≡ coef self.now.run.state.division.p self.now.run.state.unread (M.vector next.mono) }
    {
        if next.unread {
            self.dividend.terms()[self.read].coef
        } else {
            self.coefficients.zero()
        }
    }
}

// the place of a worker's first row in the divisor
fn first_place(worker: usize, workers: usize) -> usize
    ensures { result ≡ cond (eqb worker 0) workers worker }
{
    if worker == 0 { workers } else { worker }
}

// the greater of an unread monomial and the greatest head
fn greater<M: Monomial>(unread: M, top: M, steps: &mut Steps) -> Next<M>
    ensures { IsGreater M.vector M.order unread top result }
{
    match unread.higher(top, steps) {
        Ordering::Less => Next {
            mono: top,
            unread: false,
            headed: true,
        },
        Ordering::Equal => Next {
            mono: unread,
            unread: true,
            headed: true,
        },
        Ordering::Greater => Next {
            mono: unread,
            unread: true,
            headed: false,
        },
    }
}

// the greater of the monomials that there are
fn greatest<M: Monomial>(a: Option<M>, b: Option<M>, steps: &mut Steps) -> Option<M>
    ensures { IsGreatest M.order (vector_of M.vector a) (vector_of M.vector b) (vector_of M.vector result) }
{
    match a {
        None => b,
        Some(left) => match b {
            None => Some(left),
            Some(right) => match left.higher(right, steps) {
                Ordering::Less => Some(right),
                _ => Some(left),
            },
        },
    }
}

// whether the top of a mark is below what is read next
fn is_top_low<M: Monomial>(next: Option<M>, top: Option<M>, steps: &mut Steps) -> bool
    ensures { IsTrue result ↔ IsLowTop M.order (vector_of M.vector next) (vector_of M.vector top) }
{
    let Some(top) = top else {
        return true;
    };
    let Some(next) = next else {
        return false;
    };
    matches!(top.higher(next, steps), Ordering::Less)
}
