//! What a row is for.
ghost use Rattle.std.specs.Prelude.{◌≡◌};
ghost use Rattle.quotient_row.specs.Names.{row_name};

use canonical_terms::Poly;
use coeff_ring::CoeffRing;
use packed_monomial::Monomial;
use sdmp_laws::Mode;
use std::marker::Model;
use std::snapshot::Snapshot;

/// Which division a row is for, and how many quotient terms came before it. It outlives the polynomials; contracts see it as plain data.
#[derive(Drop)]
pub struct Name<R: CoeffRing, M: Monomial> {
    f: Snapshot<Poly<R, M>>,
    g: Snapshot<Poly<R, M>>,
    mode: Mode,
    start: u32,
}

impl<R: CoeffRing, M: Monomial> Model for Name<R, M> {
    ghost use Rattle.quotient_row.specs.Names.{RowName, row_name};

    ghost Value = { RowName };

    ghost view = { λ n. row_name M.order M.VARS n.f.value n.g.value n.mode n.start };
}

impl<R: CoeffRing, M: Monomial> Name<R, M> {
    pub(crate) fn of(f: &Poly<R, M>, g: &Poly<R, M>, mode: Mode, start: u32) -> Name<R, M>
        ensures { result ≡ row_name M.order M.VARS f.now g.now mode start }
    {
        Name {
            f: Snapshot::of(f),
            g: Snapshot::of(g),
            mode,
            start,
        }
    }
}
