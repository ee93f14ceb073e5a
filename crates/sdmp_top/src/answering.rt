//! The lines of a session are answered one by one.
ghost use Rattle.std.specs.Prelude.{◌≡◌, ◌+◌, ◌≤◌, ◌∷◌, [], ℕ, false, List, length, Ok, IsErrOf, OnOk, OnErr};
ghost use Rattle.calc_session.specs.Answers.{before, refused};
ghost use Rattle.calc_session.specs.Lines.{lines};
ghost use Rattle.calc_session.specs.View.{answers_of};
ghost use Rattle.sdmp_top.specs.Work.{IsTallied, IsTalliedUpTo, calculations_by, tally_of};
ghost use Rattle.sdmp_top.specs.Written.{IsAnswering};

use crate::answering_fault::AnsweringFault;
use crate::commands::answer_line;
use crate::ends::Ends;
use crate::outside::Sink;
use crate::workers::Workers;
use crate::writing::write_all;
use calc_session::{BodySession, Ending, LineFault, split_line, write_fault};
use coeff_ring::CoeffRing;
use packed_monomial::Monomial;
use sdmp_laws::NoMemory;
use std::alloc::Global;
use std::thread::Threads;
use turnstile::Gate;

/// What follows a line: the next one, or nothing, since the line has a fault.
#[derive(Clone, Copy, Debug, PartialEq, Eq)]
pub enum Next {
    More,
    Refused,
}

/// Answers the line of this number into `out`, which is empty: with what the line writes, or with its fault line where the session ends here. After NoMemory `out` is empty, and the session is good for nothing more.
fn answer<T: Threads + Sync, G: Gate, R: CoeffRing, M: Monomial>(
    alloc: Global,
    by: &Workers<'_, T, G>,
    ends: &mut Ends,
    session: &mut BodySession<R, M>,
    number: u64,
    line: &[u8],
    out: &mut Vec<u8>,
) -> Result<Next, NoMemory>
    requires { out.old.items ≡ [] }
    ensures more { result ≡ Ok Next.More → (later : List (List ℕ))
        → answers_of session.old number (line.now ∷ later) ≡ before out.new.items (answers_of session.new (number + 1) later) }
    ensures refused { result ≡ Ok Next.Refused → (later : List (List ℕ))
        → answers_of session.old number (line.now ∷ later) ≡ refused out.new.items }
    ensures wanting { OnErr result (out.new.items ≡ []) }
    ensures more_tallied { result ≡ Ok Next.More → (later : List (List ℕ))
        → IsTalliedUpTo by.now.workers (calculations_by session.old (line.now ∷ later)) (calculations_by session.new later) (tally_of ends.old) (tally_of ends.new) }
    ensures refused_tallied { result ≡ Ok Next.Refused → (later : List (List ℕ))
        → IsTalliedUpTo by.now.workers (calculations_by session.old (line.now ∷ later)) [] (tally_of ends.old) (tally_of ends.new) }
{
    let Err(fault) = answer_line(alloc, by, ends, session, line, out) else {
        return Ok(Next::More);
    };
    if let LineFault::NoMemory = fault {
        return Err(NoMemory);
    }
    if write_fault(alloc, number, &fault, out).is_err() {
        return Err(NoMemory);
    }
    Ok(Next::Refused)
}

/// Answers the lines of a body, of which the first has the number `first`. Each line's answer is made whole and then written.
pub fn answer_lines<T: Threads + Sync, G: Gate, R: CoeffRing, M: Monomial, K: Sink>(
    alloc: Global,
    by: &Workers<'_, T, G>,
    ends: &mut Ends,
    session: &mut BodySession<R, M>,
    first: u64,
    body: &[u8],
    sink: &mut K,
) -> Result<Ending, AnsweringFault>
    requires { first + length body.now ≤ u64.MAX }
    ensures answering { IsAnswering (answers_of session.old first (lines body.now)) (K.held sink.old) (K.held sink.new) (K.faults sink.old) (K.faults sink.new) (K.at_last sink.new) result }
    ensures no_flush { IsErrOf result AnsweringFault.WriteFault → K.flush_failed sink.new ≡ false }
    ensures tallied { OnOk result (IsTallied by.now.workers (calculations_by session.old (lines body.now)) (tally_of ends.old) (tally_of ends.new)) }
{
    let mut number = first;
    let mut rest = body;
    let mut out = Vec::new(alloc);
    while !rest.is_empty() {
        let (line, later) = split_line(rest);
        out.clear();
        let Ok(next) = answer(alloc, by, ends, session, number, line, &mut out) else {
            return Err(AnsweringFault::NoMemory);
        };
        if write_all(sink, &out).is_err() {
            return Err(AnsweringFault::WriteFault);
        }
        match next {
            Next::Refused => return Ok(Ending::Refused),
            Next::More => {
                number += 1;
                rest = later;
            }
        }
    }
    Ok(Ending::Done)
}
