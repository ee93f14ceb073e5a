//! What a ring's writer is to send.
ghost use Rattle.std.specs.Prelude.{◌≡◌};
ghost use Rattle.term_ring.specs.Scripts.{script_of};

use canonical_terms::Poly;
use coeff_ring::CoeffRing;
use packed_monomial::Monomial;
use sdmp_laws::Mode;
use std::marker::Model;
use std::snapshot::Snapshot;

/// What the worker with this number of so many workers sends: the terms of its part of the product of `f` and `g`, or those of its part of the quotient of `f` by `g` times `g` without its leading term.
#[derive(Drop)]
pub enum Script<'a, R: CoeffRing, M: Monomial> {
    Product {
        f: &'a Poly<R, M>,
        g: &'a Poly<R, M>,
        workers: u32,
        worker: u32,
    },
    Quotient {
        f: &'a Poly<R, M>,
        g: &'a Poly<R, M>,
        mode: Mode,
        workers: u32,
        worker: u32,
    },
}

/// A script that outlives its polynomials. Contracts see it as plain data.
#[derive(Drop)]
pub struct Plan<R: CoeffRing, M: Monomial> {
    f: Snapshot<Poly<R, M>>,
    g: Snapshot<Poly<R, M>>,
    mode: Option<Mode>,
    workers: u32,
    worker: u32,
}

impl<R: CoeffRing, M: Monomial> Model for Plan<R, M> {
    ghost use Rattle.whole_laws.specs.Notes.{Script};
    ghost use Rattle.term_ring.specs.Plain.{plain_script};

    ghost Value = { Script };

    ghost view = { λ p. plain_script M.order M.VARS p.f.value p.g.value p.mode p.workers p.worker };
}

impl<R: CoeffRing, M: Monomial> Plan<R, M> {
    pub(crate) fn of(script: &Script<'_, R, M>) -> Plan<R, M>
        ensures { result ≡ script_of M.order M.VARS script.now }
    {
        match script {
            Script::Product {
                f,
                g,
                workers,
                worker,
            } => Plan {
                f: Snapshot::of(*f),
                g: Snapshot::of(*g),
                mode: None,
                workers: *workers,
                worker: *worker,
            },
            Script::Quotient {
                f,
                g,
                mode,
                workers,
                worker,
            } => Plan {
                f: Snapshot::of(*f),
                g: Snapshot::of(*g),
                mode: Some(*mode),
                workers: *workers,
                worker: *worker,
            },
        }
    }
}
