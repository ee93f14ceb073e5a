//! What a looking end of a row does.
ghost use Rattle.std.specs.Prelude.{◌≡◌, ◌+◌, ◌^◌, ◌<◌, ◌≤◌, [], ◌∷◌, ◌++◌, length, IfOk, IfErr};
ghost use Rattle.std.specs.Bool.{OnTrue, OnFalse};
ghost use mathlib.Core.List.{IsPrefix};
ghost use Rattle.term_ring.specs.Views.{Comparable};
ghost use Rattle.quotient_row.specs.Legal.{Fits, Legal};
ghost use Rattle.quotient_row.specs.Ends.{IsWriterOf, IsReaderOf, name_of, places_of, table_of, published, known, count_seen, count_loads, told_published};
ghost use Rattle.quotient_row.specs.declared.kind.Kind.TheVariants.{Looking};

use crate::note::{RowNote, from_words};
use crate::row::{Nothing, Row, RowReader, RowWriter};
use crate::steps::{Copy, Learn, LookAtCount, Peek, RowView, Tell};
use atomic_table::Seat;
use coeff_ring::CoeffRing;
use packed_monomial::Monomial;

// loads the first four words of the next note from its place
fn read_four<R: CoeffRing, M: Monomial>(
    row: &Row<R, M>,
    seat: &mut Seat<(), RowView<R, M>>,
    number: u64,
) -> [u64; 4]
    requires table { (seat.old.table_id ≡ table_of row.now) × (seat.old.me.0.places ≡ places_of row.now) }
    requires looking { (seat.old.me.0.kind ≡ Looking) × (seat.old.me.0.words ≡ []) }
    requires ahead { (length seat.old.me.0.notes ≡ number) × (number < seat.old.me.0.seen) × (number < places_of row.now) × (places_of row.now < 2 ^ 32) }
    ensures { (seat.new.table_id ≡ seat.old.table_id) × (seat.new.id ≡ seat.old.id) × (length result ≡ 4) × (seat.new.me ≡ (record seat.old.me.0 { words = result }, seat.old.me.1)) }
{
    let base = 1 + 5 * number as usize;
    let mut bits = [0u64; 4];
    for k in 0..4 {
        bits[k] = row.table.shared.load::<Peek>(seat, base + k);
    }
    bits
}

// the five words of a note
fn with_fifth(four: &[u64; 4], fifth: u64) -> [u64; 5]
    ensures { result ≡ four.now ++ fifth ∷ [] }
{
    [four[0], four[1], four[2], four[3], fifth]
}

impl<R: CoeffRing, M: Monomial> RowReader<R, M> {
    // whether a note is published that the reader doesn't know, by the count that it loads
    fn sees_more(&mut self, row: &Row<R, M>) -> bool
        requires { IsReaderOf row.now self.old }
        ensures of { IsReaderOf row.now self.new }
        ensures known { known self.new ≡ known self.old }
        ensures loads { count_loads self.new ≡ count_loads self.old + 1 }
        ensures count { (count_seen self.old ≤ count_seen self.new) × (count_seen self.new ≤ places_of row.now) }
        ensures told { told_published self.new ≡ told_published self.old }
        ensures more { OnTrue result (length (known self.new) < count_seen self.new) }
        ensures none { OnFalse result ((count_seen self.new ≡ length (known self.new)) × Comparable (known self.new) (told_published self.new)) }
    {
        let end = &mut self.end;
        let count = row.table.shared.load::<LookAtCount>(&mut end.seat, 0);
        end.number < count
    }

    /// The next note that the reader doesn't know. It loads the count once, and there is none exactly where each note that was published by then is known. It allocates nothing.
    pub fn look(&mut self, row: &Row<R, M>) -> Result<RowNote<R, M>, Nothing>
        requires { IsReaderOf row.now self.old }
        ensures of { IsReaderOf row.now self.new }
        ensures loads { count_loads self.new ≡ count_loads self.old + 1 }
        ensures count { (count_seen self.old ≤ count_seen self.new) × (count_seen self.new ≤ places_of row.now) }
        ensures told { told_published self.new ≡ told_published self.old }
        ensures next { Comparable (known self.new) (told_published self.old) }
        ensures known { IfOk result (λ n. known self.new ≡ known self.old ++ n ∷ []) }
        ensures found { IfOk result (λ _. length (known self.old) < count_seen self.new) }
        ensures fits { IfOk result (λ n. Fits R.belongs (name_of row.now) n) }
        ensures legal { IfOk result (λ _. Legal M.vector R.value (name_of row.now) (known self.new)) }
        ensures kept { IfErr result (λ _. known self.new ≡ known self.old) }
        ensures nothing { IfErr result (λ _. count_seen self.new ≡ length (known self.old)) }
    {
        if !self.sees_more(row) {
            return Err(Nothing);
        }
        let end = &mut self.end;
        let four = read_four(row, &mut end.seat, end.number);
        let last = 5 + 5 * end.number as usize;
        let fifth = row.table.shared.load::<Learn<R, M>>(&mut end.seat, last);
        end.number += 1;
        Ok(from_words(&row.scalars.coefficients(), &with_fifth(&four, fifth)))
    }

    /// From here on the reader has seen all that the writer had published, so a later look finds a note until those are known; and it knows no more than the writer has published. It allocates nothing.
    pub fn meet(&mut self, row: &Row<R, M>, writer: &mut RowWriter<R, M>)
        requires reader { IsReaderOf row.now self.old }
        requires writer { IsWriterOf row.now writer.old }
        ensures of { IsReaderOf row.now self.new }
        ensures writer { IsWriterOf row.now writer.new }
        ensures published { published writer.new ≡ published writer.old }
        ensures known { known self.new ≡ known self.old }
        ensures count { count_seen self.old ≤ count_seen self.new }
        ensures seen { length (published writer.new) ≤ count_seen self.new }
        ensures told { told_published self.new ≡ published writer.new }
        ensures prefix { IsPrefix (known self.new) (published writer.new) }
    {
        writer.meet(row, self);
        let shared = &row.table.shared;
        let copy = shared.split_seat::<Copy>(&mut writer.end.seat);
        shared.join_seat::<Tell>(&mut self.end.seat, copy);
        shared.load::<LookAtCount>(&mut self.end.seat, 0);
    }
}
