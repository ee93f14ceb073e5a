//! The lines before the body.
ghost use Rattle.std.specs.Prelude.{◌≡◌, ◌≢◌, ◌+◌, ◌≤◌, length, Ok, Err, IfOk, MatchResult};
ghost use Rattle.calc_session.specs.Lines.{lines, effective};
ghost use Rattle.calc_session.specs.Header.{IsChoice};
ghost use Rattle.calc_session.specs.Heads.{head_of, ring_head, order_head};
ghost use Rattle.calc_session.specs.Says.{head_said, header_said};

use crate::effective::effective_line;
use crate::fault::LineFault;
use crate::order::Order;
use crate::order_line::parse_order;
use crate::ring::RingChoice;
use crate::ring_line::parse_ring;
use crate::vars::parse_vars;
use poly_text::Names;
use std::alloc::Global;

/// What the lines before the body say. The bytes of the body are left, and its first line has the number `line`, counted from 1 over all lines.
#[derive(Drop)]
pub struct Header<'a> {
    pub names: Names,
    pub ring: RingChoice,
    pub order: Order,
    pub line: u64,
    pub body: &'a [u8],
}

/// The number of a line, counted from 1, and its fault.
#[derive(Clone, Copy, PartialEq, Eq, Debug, Drop)]
pub struct HeaderFault {
    pub line: u64,
    pub fault: LineFault,
}

/// Reads the variables, the ring and the order of a session, of which `bytes` is the whole input.
pub fn parse_header(alloc: Global, bytes: &[u8]) -> Result<Header<'_>, HeaderFault>
    ensures head { MatchResult
        result
        (λ header. head_of bytes.now ≡ Ok (head_said header))
        (λ e. e.fault ≢ LineFault.NoMemory → head_of bytes.now ≡ Err e) }
    ensures ring { IfOk result (λ header. IsChoice header.ring) }
    ensures within { IfOk result (λ header. header.line + length header.body.now ≤ 1 + length bytes.now) }
{
    let first = effective_line(bytes, 1);
    let Some(line) = first.line else {
        return Err(HeaderFault {
            line: first.number,
            fault: LineFault::VarsExpected,
        });
    };
    match parse_vars(alloc, line) {
        Ok(names) => after_vars(names, first.rest, first.number + 1),
        Err(fault) => Err(HeaderFault {
            line: first.number,
            fault,
        }),
    }
}

// the lines behind that with the variables, of which the first has this number
#[tactic(auto, using(crate::proofs::HeadLemmas::no_second, crate::proofs::HeadLemmas::second_fault, crate::proofs::HeadLemmas::second_ring, crate::proofs::HeaderLemmas::ring_choice))]
fn after_vars(names: Names, bytes: &[u8], first: u64) -> Result<Header<'_>, HeaderFault>
    requires { first + length bytes.now ≤ u64.MAX }
    ensures head { header_said result ≡ ring_head names (effective first (lines bytes.now)) }
    ensures ring { IfOk result (λ header. IsChoice header.ring) }
    ensures within { IfOk result (λ header. header.line + length header.body.now ≤ first + length bytes.now) }
{
    let second = effective_line(bytes, first);
    let Some(line) = second.line else {
        return Err(HeaderFault {
            line: second.number,
            fault: LineFault::RingExpected,
        });
    };
    match parse_ring(line) {
        Ok(ring) => after_ring(names, ring, second.rest, second.number + 1),
        Err(fault) => Err(HeaderFault {
            line: second.number,
            fault,
        }),
    }
}

// the lines behind that with the ring, of which the first has this number
#[tactic(auto, using(crate::proofs::HeadLemmas::no_third, crate::proofs::HeadLemmas::third_order, crate::proofs::HeadLemmas::third_body, crate::proofs::HeadLemmas::third_fault))]
fn after_ring(
    names: Names,
    ring: RingChoice,
    bytes: &[u8],
    first: u64,
) -> Result<Header<'_>, HeaderFault>
    requires { first + length bytes.now ≤ u64.MAX }
    ensures head { header_said result ≡ order_head names ring (effective first (lines bytes.now)) }
    ensures ring { IfOk result (λ header. header.ring ≡ ring) }
    ensures within { IfOk result (λ header. header.line + length header.body.now ≤ first + length bytes.now) }
{
    let third = effective_line(bytes, first);
    let Some(line) = third.line else {
        return Ok(Header {
            names,
            ring,
            order: Order::Grlex,
            line: third.number,
            body: third.from,
        });
    };
    match parse_order(line) {
        Ok(Some(order)) => Ok(Header {
            names,
            ring,
            order,
            line: third.number + 1,
            body: third.rest,
        }),
        Ok(None) => Ok(Header {
            names,
            ring,
            order: Order::Grlex,
            line: third.number,
            body: third.from,
        }),
        Err(fault) => Err(HeaderFault {
            line: third.number,
            fault,
        }),
    }
}
