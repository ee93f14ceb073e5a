//! One session for each number of variables.
ghost use Rattle.std.specs.Prelude.{◌≡◌, ◌≢◌, ◌+◌, ◌≤◌, false, Err, IfOk, IsErrOf, OnOk, length};
ghost use Rattle.calc_session.specs.Lines.{lines};
ghost use Rattle.sdmp_laws.specs.Order.{Grlex};
ghost use Rattle.wide_monomial.specs.Packing.{limit_of};
ghost use Rattle.calc_session.specs.Header.{IsChoice, characteristic_of, monomial_order};
ghost use Rattle.calc_session.specs.Says.{head_said};
ghost use Rattle.calc_session.specs.Faults.{fault_line};
ghost use Rattle.calc_session.specs.Answers.{Answers, refused, text};
ghost use Rattle.calc_session.specs.Session.{answers, body_answers, setting_of, undefined};
ghost use Rattle.sdmp_top.specs.Outside.{Appends, AppendsPart, Rose};
ghost use Rattle.sdmp_top.specs.Work.{IsTallied, body_calculations, calculations, tally_of};
ghost use Rattle.sdmp_top.specs.Written.{AppendsPieces, IsAnswering};

use crate::answering::answer_lines;
use crate::answering_fault::AnsweringFault;
use crate::ends::Ends;
use crate::outside::Sink;
use crate::workers::Workers;
use crate::writing::write_all;
use calc_session::{
    BodySession, Ending, Header, HeaderFault, LineFault, Order, RingChoice, parse_header,
    write_fault,
};
use chosen_ring::ChosenRing;
use coeff_residue::Residues;
use coeff_ring::CoeffRing;
use packed_monomial::Monomial;
use std::alloc::Global;
use std::thread::Threads;
use turnstile::Gate;
use wide_monomial::Wide;

/// Answers the lines of the input. Each line's answer is made whole and then written.
pub fn answer_input<T: Threads + Sync, G: Gate, K: Sink>(
    alloc: Global,
    by: &Workers<'_, T, G>,
    ends: &mut Ends,
    input: &[u8],
    sink: &mut K,
) -> Result<Ending, AnsweringFault>
    ensures ending { IfOk result (λ ending. (answers input.now).ending ≡ ending) }
    ensures text { IfOk result (λ _. Appends (K.held sink.old) (K.held sink.new) (text (answers input.now))) }
    ensures write_fault { IsErrOf result AnsweringFault.WriteFault → AppendsPart (K.held sink.old) (K.held sink.new) (text (answers input.now)) }
    ensures no_memory { IsErrOf result AnsweringFault.NoMemory → AppendsPieces (K.held sink.old) (K.held sink.new) (answers input.now).pieces }
    ensures later { K.faults sink.old ≤ K.faults sink.new }
    ensures rose { IsErrOf result AnsweringFault.WriteFault → Rose (K.faults sink.old) (K.faults sink.new) (K.at_last sink.new) }
    ensures steady { result ≢ Err AnsweringFault.WriteFault → K.faults sink.new ≡ K.faults sink.old }
    ensures no_flush { IsErrOf result AnsweringFault.WriteFault → K.flush_failed sink.new ≡ false }
    ensures tallied { OnOk result (IsTallied by.now.workers (calculations input.now) (tally_of ends.old) (tally_of ends.new)) }
{
    match parse_header(alloc, input) {
        Ok(header) => answer_body(alloc, by, ends, header, sink),
        Err(HeaderFault { line, fault }) => refuse(alloc, line, fault, sink),
    }
}

// Ends the session with a fault line.
fn refuse<K: Sink>(
    alloc: Global,
    line: u64,
    fault: LineFault,
    sink: &mut K,
) -> Result<Ending, AnsweringFault>
    ensures answering { (told : Answers) → (fault ≢ LineFault.NoMemory → told ≡ refused (fault_line line fault))
        → IsAnswering told (K.held sink.old) (K.held sink.new) (K.faults sink.old) (K.faults sink.new) (K.at_last sink.new) result }
    ensures no_flush { IsErrOf result AnsweringFault.WriteFault → K.flush_failed sink.new ≡ false }
    ensures told { OnOk result (fault ≢ LineFault.NoMemory) }
{
    if let LineFault::NoMemory = fault {
        return Err(AnsweringFault::NoMemory);
    }
    let mut out = Vec::new(alloc);
    if write_fault(alloc, line, &fault, &mut out).is_err() {
        return Err(AnsweringFault::NoMemory);
    }
    if write_all(sink, &out).is_err() {
        return Err(AnsweringFault::WriteFault);
    }
    Ok(Ending::Refused)
}

// Makes the ring of a choice.
fn ring_of(choice: RingChoice) -> ChosenRing
    requires { IsChoice choice }
    ensures { ⟦<ChosenRing as CoeffRing>⟧.characteristic result ≡ characteristic_of choice }
{
    match choice {
        RingChoice::Integers => ChosenRing::Integers,
        RingChoice::Modulus(p) => match Residues::new(p) {
            Some(ring) => ChosenRing::Residues(ring),
            None => unreachable!(),
        },
    }
}

macro_rules! by_variables {
    ($alloc:expr, $by:expr, $ends:expr, $header:expr, $sink:expr; $($n:literal),*) => {
        match $header.names.len() {
            $($n => answer_over::<T, G, Wide<$n>, K>($alloc, $by, $ends, $header, $sink),)*
            _ => unreachable!(),
        }
    };
}

// Chooses the monomials by the number of variables.
fn answer_body<T: Threads + Sync, G: Gate, K: Sink>(
    alloc: Global,
    by: &Workers<'_, T, G>,
    ends: &mut Ends,
    header: Header<'_>,
    sink: &mut K,
) -> Result<Ending, AnsweringFault>
    requires ring { IsChoice header.ring }
    requires numbers { header.line + length header.body.now ≤ u64.MAX }
    ensures answering { IsAnswering (body_answers (setting_of (head_said header.entry)) undefined header.entry.line (lines header.entry.body.now)) (K.held sink.old) (K.held sink.new) (K.faults sink.old) (K.faults sink.new) (K.at_last sink.new) result }
    ensures no_flush { IsErrOf result AnsweringFault.WriteFault → K.flush_failed sink.new ≡ false }
    ensures tallied { OnOk result (IsTallied by.now.workers (body_calculations (setting_of (head_said header.entry)) undefined (lines header.entry.body.now)) (tally_of ends.old) (tally_of ends.new)) }
{
    by_variables!(alloc, by, ends, header, sink; 1, 2, 3, 4, 5, 6, 7, 8, 9, 10, 11, 12, 13, 14, 15)
}

// Chooses the order and the ring. The monomials are those of graded lexicographic order.
fn answer_over<T: Threads + Sync, G: Gate, M: Monomial, K: Sink>(
    alloc: Global,
    by: &Workers<'_, T, G>,
    ends: &mut Ends,
    header: Header<'_>,
    sink: &mut K,
) -> Result<Ending, AnsweringFault>
    requires order { M.order ≡ Grlex }
    requires vars { M.VARS ≡ length header.names }
    requires limit { M.LIM ≡ limit_of (length header.names) }
    requires ring { IsChoice header.ring }
    requires numbers { header.line + length header.body.now ≤ u64.MAX }
    ensures answering { IsAnswering (body_answers (setting_of (head_said header.entry)) undefined header.entry.line (lines header.entry.body.now)) (K.held sink.old) (K.held sink.new) (K.faults sink.old) (K.faults sink.new) (K.at_last sink.new) result }
    ensures no_flush { IsErrOf result AnsweringFault.WriteFault → K.flush_failed sink.new ≡ false }
    ensures tallied { OnOk result (IsTallied by.now.workers (body_calculations (setting_of (head_said header.entry)) undefined (lines header.entry.body.now)) (tally_of ends.old) (tally_of ends.new)) }
{
    let ring = ring_of(header.ring);
    match header.order {
        Order::Grlex => answer_in::<T, G, ChosenRing, M, K>(alloc, by, ends, ring, header, sink),
    }
}

// The session of this ring and of these monomials.
fn answer_in<T: Threads + Sync, G: Gate, R: CoeffRing, M: Monomial, K: Sink>(
    alloc: Global,
    by: &Workers<'_, T, G>,
    ends: &mut Ends,
    ring: R,
    header: Header<'_>,
    sink: &mut K,
) -> Result<Ending, AnsweringFault>
    requires ring { R.characteristic ring ≡ characteristic_of header.ring }
    requires order { M.order ≡ monomial_order header.order }
    requires vars { M.VARS ≡ length header.names }
    requires limit { M.LIM ≡ limit_of (length header.names) }
    requires numbers { header.line + length header.body.now ≤ u64.MAX }
    ensures answering { IsAnswering (body_answers (setting_of (head_said header.entry)) undefined header.entry.line (lines header.entry.body.now)) (K.held sink.old) (K.held sink.new) (K.faults sink.old) (K.faults sink.new) (K.at_last sink.new) result }
    ensures no_flush { IsErrOf result AnsweringFault.WriteFault → K.flush_failed sink.new ≡ false }
    ensures tallied { OnOk result (IsTallied by.now.workers (body_calculations (setting_of (head_said header.entry)) undefined (lines header.entry.body.now)) (tally_of ends.old) (tally_of ends.new)) }
{
    let mut session = BodySession::<R, M>::new(alloc, ring, header.names);
    answer_lines(
        alloc,
        by,
        ends,
        &mut session,
        header.line,
        header.body,
        sink,
    )
}
