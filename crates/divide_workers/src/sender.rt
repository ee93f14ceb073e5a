//! What a dividing worker knows and sends, and how far it has come.
ghost use Rattle.std.specs.Prelude.{◌≡◌, ◌≢◌, ◌≤◌, ◌<◌, ◌↔◌, ◌+◌, ◌-◌, [], length, vec_len, IsTrue, Some, OnOk, OnErr};
ghost use Rattle.sdmp_laws.specs.Poly.{lm};
ghost use Rattle.whole_laws.specs.Notes.{QuotientScript, divisor_rows};
ghost use Rattle.term_ring.specs.Ends.{sent, head_seen, full_looks};
ghost use Rattle.term_ring.specs.Names.{writer_name, IsWriting};
ghost use Rattle.quotient_row.specs.Ends.{IsNew};
ghost use Rattle.divide_merge.specs.Names.{IsFit, IsLooking, reader_row};
ghost use Rattle.divide_workers.specs.Views.{script_workers};
ghost use Rattle.divide_workers.specs.Inside.{view_of};
ghost use Rattle.divide_workers.specs.Paying.{HasRows, IsFewSent};
ghost use Rattle.divide_workers.specs.Working.{IsWorking};

use crate::front::Front;
use crate::mark::Mark;
use canonical_terms::Term;
use coeff_ring::CoeffRing;
use packed_monomial::Monomial;
use quotient_row::RowReader;
use row_merge::QuotientRows;
use sdmp_laws::NoMemory;
use std::marker::Model;
use term_ring::Writer;

/// A worker's rows, the writer of its ring and its reader of the row, what it knows of the quotient terms to come, and the term that a full ring refused.
///
/// Contracts see what it holds, its ring and its row, the notes that it knows of this, and the counts of its two ends.
#[derive(Drop)]
pub struct Sender<'a, R: CoeffRing, M: Monomial> {
    pub(crate) worker: u32,
    pub(crate) rows: QuotientRows<'a, R, M>,
    pub(crate) writer: Writer<R, M>,
    pub(crate) reader: RowReader<R, M>,
    pub(crate) coefficients: R,
    // the leading monomial of the divisor
    pub(crate) lead: M,
    // the number in the quotient of the row's next term
    pub(crate) place: u64,
    pub(crate) front: Option<Front<M>>,
    pub(crate) kept: Option<Term<R, M>>,
    pub(crate) marked: Mark<M>,
}

impl<'a, R: CoeffRing, M: Monomial> Model for Sender<'a, R, M> {
    ghost use Rattle.divide_workers.specs.Views.{WorkerView};
    ghost use Rattle.divide_workers.specs.Inside.{view_of, IsSender};

    ghost Value = { WorkerView };

    ghost view = { λ s. view_of M.vector R.value s.worker s.rows s.writer s.reader s.front s.kept };

    ghost invariant = { λ s. IsSender M.vector R.value R.belongs M.order M.VARS M.LIM (R.characteristic s.coefficients) s.worker s.rows s.writer s.reader s.lead s.place s.front s.kept s.marked };
}

impl<'a, R: CoeffRing, M: Monomial> Sender<'a, R, M> {
    /// A worker that knows and has sent nothing.
    pub fn new(
        worker: u32,
        rows: QuotientRows<'a, R, M>,
        writer: Writer<R, M>,
        reader: RowReader<R, M>,
    ) -> Sender<'a, R, M>
        requires writing { IsWriting writer }
        requires looking { IsLooking reader }
        requires script { (writer_name writer).script ≡ QuotientScript (reader_row reader).name.division (script_workers (writer_name writer).script) worker }
        requires fit { IsFit M.LIM (reader_row reader).name.division }
        requires order { (reader_row reader).name.division.ord ≡ M.order }
        requires variables { (reader_row reader).name.division.n ≡ M.VARS }
        requires modulus { rows.modulus ≡ (reader_row reader).name.division.p }
        requires divisor { rows.divisor ≡ (reader_row reader).name.division.g }
        requires rows { rows.rows ≡ divisor_rows rows.divisor (script_workers (writer_name writer).script) worker }
        requires start { (reader_row reader).name.start ≡ 0 }
        requires learned { (rows.learned ≡ []) × (rows.unread ≡ []) }
        requires sent { sent writer ≡ [] }
        requires known { IsNew reader }
        ensures { result ≡ view_of M.vector R.value worker rows.entry writer reader None None }
    {
        let divisor = rows.divisor();
        let lead = divisor.terms()[0].mono;
        let marked = Mark {
            known: 0,
            top: None,
        };
        Sender {
            worker,
            rows,
            writer,
            reader,
            coefficients: divisor.ring(),
            lead,
            place: 0,
            front: None,
            kept: None,
            marked,
        }
    }

    /// What always holds of it. The call does nothing.
    pub fn whole(&self)
        ensures working { IsWorking M.LIM self.now }
        ensures order { self.now.state.division.ord ≡ M.order }
        ensures variables { self.now.state.division.n ≡ M.VARS }
        ensures few { IsFewSent self.now.state }
    {
        let _place = self.place;
    }

    /// The worker's number.
    pub fn worker(&self) -> u32
        ensures { result ≡ self.now.state.worker }
    {
        self.worker
    }

    /// How many quotient terms it knows.
    pub fn known(&self) -> u32
        ensures { result ≡ length self.now.state.known }
    {
        self.rows.known() as u32
    }

    /// Whether it has a part of the divisor.
    pub fn has_rows(&self) -> bool
        ensures { IsTrue result ↔ HasRows self.now.state }
    {
        self.rows.first().is_some()
    }

    /// Makes room for `n` more quotient terms, where it has rows.
    pub fn reserve(&mut self, n: usize) -> Result<(), NoMemory>
        ensures same { self.new ≡ record self.old { spare = self.new.spare } }
        ensures room { OnOk result (HasRows self.old.state → n ≤ self.new.spare) }
    {
        if !self.has_rows() {
            return Ok(());
        }
        self.rows.reserve(n)
    }
}
