//! How a row is made.
ghost use Rattle.std.specs.Prelude.{◌≡◌, ◌<◌, [], All, IfOk, vec_len};
ghost use Rattle.quotient_row.specs.Names.{row_name};
ghost use Rattle.quotient_row.specs.Steps.{first};
ghost use Rattle.quotient_row.specs.Ends.{IsWriterOf, IsReaderOf, IsNew, name_of, places_of, published};

use crate::name::Name;
use crate::row::{End, Row, RowReader, RowWriter};
use crate::steps::{Key, NewReader, RowView};
use atomic_table::{Seat, Table};
use canonical_terms::Poly;
use coeff_ring::CoeffRing;
use packed_monomial::Monomial;
use sdmp_laws::{Mode, NoMemory};
use std::alloc::Global;
use std::snapshot::Snapshot;
use term_ring::Scalars;

impl<R: CoeffRing, M: Monomial> Row<R, M> {
    /// A row of so many places for the quotient of `f` by `g`, where `start` quotient terms came before, with its writer and so many readers. Nothing is published. The one refusal is want of memory.
    pub fn new(
        alloc: Global,
        ring: R,
        f: &Poly<R, M>,
        g: &Poly<R, M>,
        mode: Mode,
        start: u32,
        places: u32,
        readers: u32,
    ) -> Result<(Row<R, M>, RowWriter<R, M>, Vec<RowReader<R, M>>), NoMemory>
        requires { R.characteristic ring ≡ f.now.modulus }
        ensures name { IfOk result (λ t. name_of t.0 ≡ row_name M.order M.VARS f.now g.now mode start) }
        ensures places { IfOk result (λ t. places_of t.0 ≡ places) }
        ensures writer { IfOk result (λ t. IsWriterOf t.0 t.1) }
        ensures published { IfOk result (λ t. published t.1 ≡ []) }
        ensures readers { IfOk result (λ t. vec_len t.2 ≡ readers) }
        ensures each { IfOk result (λ t. All (λ r. IsReaderOf t.0 r × IsNew r) t.2.items) }
    {
        let name = Name::of(f, g, mode, start);
        let key = Key {
            name: Snapshot::of(&name),
            places: places as u64,
        };
        let Ok(words) = Vec::from_elem(alloc, 0u64, 1 + 5 * places as usize) else {
            return Err(NoMemory);
        };
        let Ok(made) = Table::of_words(alloc, words.as_slice(), &key) else {
            return Err(NoMemory);
        };
        let (table, mut seat) = made;
        let row = Row {
            table,
            scalars: Scalars::new(ring),
        };
        let ends = make_readers(alloc, &row, &mut seat, &name, places, readers)?;
        let writer = RowWriter {
            end: End {
                seat,
                name: Snapshot::of(&name),
                places: places as u64,
                number: 0,
            },
        };
        Ok((row, writer, ends))
    }
}

// so many readers, split off the writer's seat
fn make_readers<R: CoeffRing, M: Monomial>(
    alloc: Global,
    row: &Row<R, M>,
    seat: &mut Seat<(), RowView<R, M>>,
    name: &Name<R, M>,
    places: u32,
    readers: u32,
) -> Result<Vec<RowReader<R, M>>, NoMemory>
    requires row { (name_of row.now ≡ name.now) × (places_of row.now ≡ places) }
    requires seat { (seat.old.table_id ≡ row.now.table.shared.table_id) × (seat.old.me ≡ (first name.now places, [])) }
    ensures seat { (seat.new.table_id ≡ seat.old.table_id) × (seat.new.me ≡ seat.old.me) }
    ensures count { IfOk result (λ v. vec_len v ≡ readers) }
    ensures each { IfOk result (λ v. All (λ r. IsReaderOf row.now r × IsNew r) v.items) }
{
    let mut out = Vec::new(alloc);
    for _ in 0..readers {
        let other = row.table.shared.split_seat::<NewReader>(seat);
        let reader = RowReader {
            end: End {
                seat: other,
                name: Snapshot::of(name),
                places: places as u64,
                number: 0,
            },
        };
        if out.push(reader).is_err() {
            return Err(NoMemory);
        }
    }
    Ok(out)
}
