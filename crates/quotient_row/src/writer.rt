//! What the publishing end of a row does.
ghost use Rattle.std.specs.Prelude.{◌≡◌, ◌↔◌, ◌+◌, ◌^◌, ◌<◌, [], ◌∷◌, ◌++◌, length, IfOk, IfErr, IsTrue};
ghost use mathlib.Core.List.{IsPrefix};
ghost use Rattle.quotient_row.specs.Legal.{Fits, Legal};
ghost use Rattle.quotient_row.specs.Ends.{IsWriterOf, IsReaderOf, name_of, places_of, table_of, published, writer_places, known, count_seen, count_loads, told_published};
ghost use Rattle.quotient_row.specs.declared.kind.Kind.TheVariants.{Publishing};

use crate::note::{RowNote, to_words};
use crate::row::{Row, RowFull, RowReader, RowWriter};
use crate::steps::{Check, Copy, Publish, Put, RowView, Tell};
use atomic_table::Seat;
use coeff_ring::CoeffRing;
use packed_monomial::Monomial;

// stores the words of the next note into its place
fn write_note<R: CoeffRing, M: Monomial>(
    row: &Row<R, M>,
    seat: &mut Seat<(), RowView<R, M>>,
    number: u64,
    bits: &[u64; 5],
)
    requires table { (seat.old.table_id ≡ table_of row.now) × (seat.old.me.0.places ≡ places_of row.now) }
    requires writing { (seat.old.me.0.kind ≡ Publishing) × (seat.old.me.0.words ≡ []) }
    requires free { (length seat.old.me.0.notes ≡ number) × (number < places_of row.now) × (places_of row.now < 2 ^ 32) }
    ensures { (seat.new.table_id ≡ seat.old.table_id) × (seat.new.id ≡ seat.old.id) × (seat.new.me ≡ (record seat.old.me.0 { words = bits.now }, seat.old.me.1)) }
{
    let base = 1 + 5 * number as usize;
    for k in 0..5 {
        row.table.shared.store::<Put>(seat, base + k, bits[k]);
    }
}

impl<R: CoeffRing, M: Monomial> RowWriter<R, M> {
    /// Whether as many notes are published as there are places.
    pub fn is_full(&self) -> bool
        ensures { IsTrue result ↔ length (published self.now) ≡ writer_places self.now }
    {
        self.end.number == self.end.places
    }

    /// Publishes the note. It is refused exactly where as many notes are published as there are places; then nothing is published. It allocates nothing.
    pub fn publish(&mut self, row: &Row<R, M>, note: RowNote<R, M>) -> Result<(), RowFull>
        requires of { IsWriterOf row.now self.old }
        requires fits { Fits R.belongs (name_of row.now) note }
        requires legal { Legal M.vector R.value (name_of row.now) (published self.old ++ note ∷ []) }
        ensures of { IsWriterOf row.now self.new }
        ensures published { IfOk result (λ _. published self.new ≡ published self.old ++ note ∷ []) }
        ensures room { IfOk result (λ _. length (published self.old) < places_of row.now) }
        ensures kept { IfErr result (λ _. published self.new ≡ published self.old) }
        ensures full { IfErr result (λ _. length (published self.old) ≡ places_of row.now) }
    {
        let end = &mut self.end;
        if end.number == end.places {
            return Err(RowFull);
        }
        let bits = to_words(&row.scalars.coefficients(), note);
        write_note(row, &mut end.seat, end.number, &bits);
        row.table
            .shared
            .store::<Publish<R, M>>(&mut end.seat, 0, end.number + 1);
        end.number += 1;
        Ok(())
    }

    /// What the reader knows begins what the writer has published. It allocates nothing.
    pub fn meet(&mut self, row: &Row<R, M>, reader: &mut RowReader<R, M>)
        requires writer { IsWriterOf row.now self.old }
        requires reader { IsReaderOf row.now reader.old }
        ensures of { IsWriterOf row.now self.new }
        ensures reader { IsReaderOf row.now reader.new }
        ensures reader_known { known reader.new ≡ known reader.old }
        ensures reader_count { (count_seen reader.new ≡ count_seen reader.old) × (count_loads reader.new ≡ count_loads reader.old) }
        ensures reader_told { told_published reader.new ≡ told_published reader.old }
        ensures published { published self.new ≡ published self.old }
        ensures prefix { IsPrefix (known reader.new) (published self.new) }
    {
        let shared = &row.table.shared;
        let copy = shared.split_seat::<Copy>(&mut reader.end.seat);
        shared.join_seat::<Tell>(&mut self.end.seat, copy);
        shared.load::<Check>(&mut self.end.seat, 0);
    }
}
