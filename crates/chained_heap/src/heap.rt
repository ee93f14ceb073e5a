//! The heap. Insertion and taking are inlined into the loop of a merge: so the heap's fields stay in registers there, and counts of steps that nothing reads take no time.
ghost use Rattle.std.specs.Prelude.{◌≡◌, ◌≢◌, ◌+◌, ◌*◌, ◌^◌, ◌<◌, ◌≤◌, ℕ, List, length, IfOk, MatchOption, replicate, map, slice_set, slice_index_or, false};
ghost use Rattle.chained_heap.specs.Shape.{no_row, place_at, is_taken, is_at, never, count_at, taken_at, IsTop, IsEmpty, HasShape, TakesChain, Shape};

use crate::ghost_list::GhostList;
use crate::node::{Node, Place};
use crate::sift::{Spot, add_node, find, remove_root};
use packed_monomial::Monomial;
use sdmp_laws::NoMemory;
use std::alloc::Global;
use std::cmp::Ordering;
use std::marker::Model;
use step_count::Steps;

/// A heap of rows, each at a monomial. Rows that meet at one monomial on the way of an insertion share a node and are chained, so that equal products cost few comparisons (Monagan and Pearce, "Polynomial division using dynamic arrays, heaps, and packed exponent vectors", 2007).
///
/// Contracts see it as the list of the places of the rows 0, 1, .. in this order: `Out`, `In` with the row's monomial, or `Taken`. No call but `with_rows` allocates.
#[derive(Drop)]
pub struct ChainedHeap<M: Monomial> {
    // a binary heap in the first `len` nodes
    nodes: Vec<Node<M>>,
    len: usize,
    // the row after each row of a chain, or `u32::MAX` at the end
    next: Vec<u32>,
    places: GhostList<Place<M>>,
    // the first of the chain of taken rows
    taken: u32,
}

impl<M: Monomial> Model for ChainedHeap<M> {
    ghost use Rattle.std.specs.Prelude.{List};
    ghost use Rattle.chained_heap.specs.declared.node.Place.{Place};
    ghost use Rattle.chained_heap.specs.Shape.{IsChainedHeap};

    ghost Value = { List (Place M) };

    ghost view = { λ h. h.places.items };

    ghost invariant = { λ h. IsChainedHeap M.cmp h.nodes.items h.len h.next.items h.places.items h.taken };
}

impl<M: Monomial> ChainedHeap<M> {
    /// An empty heap for the rows from 0 to `rows - 1`.
    pub fn with_rows(alloc: Global, rows: u32) -> Result<ChainedHeap<M>, NoMemory>
        ensures { IfOk result (λ h. h ≡ replicate rows Place.Out) }
    {
        let node = Node {
            mono: M::one(),
            row: 0,
        };
        let nodes = vec![in alloc; node; rows as usize]?;
        let next = vec![in alloc; u32::MAX; rows as usize]?;
        Ok(ChainedHeap {
            nodes,
            len: 0,
            next,
            places: GhostList::filled(&(rows as usize), &Place::Out),
            taken: u32::MAX,
        })
    }

    /// Puts a row that is out at a monomial. For rows whose number has l binary digits it makes at most l comparisons.
    #[inline(always)]
    pub fn insert(&mut self, row: u32, mono: M, steps: &mut Steps)
        requires below { row < length self.old }
        requires out { slice_index_or self.old row Place.Out ≡ Place.Out }
        ensures places { self.new ≡ slice_set self.old row (Place.In mono) }
        ensures compares { (l : ℕ) → length self.old < 2 ^ l → steps.new.compares ≤ steps.old.compares + l }
        ensures products { steps.new.products ≡ steps.old.products }
    {
        let slot = row as usize;
        let len = self.len;
        match find(&self.nodes[..len], mono, steps) {
            Spot::Chain(at) => {
                let first = self.nodes[at].row;
                self.next[slot] = first;
                self.nodes[at].row = row;
                self.places = self.places.with(&slot, &Place::In(mono));
            }
            Spot::Room(at) => {
                self.next[slot] = u32::MAX;
                add_node(&mut self.nodes, len, at, Node { mono, row });
                self.len = len + 1;
                self.places = self.places.with(&slot, &Place::In(mono));
            }
        }
    }

    /// The greatest monomial, and None exactly where no row is in the heap.
    pub fn top(&self) -> Option<M>
        ensures { MatchOption result (IsEmpty self.now) (λ x. IsTop M.cmp self.now x) }
    {
        if self.len == 0 {
            return None;
        }
        Some(self.nodes[0].mono)
    }

    /// Takes all rows at the greatest monomial and gives that monomial, and None exactly where no row is in the heap. For k rows it makes at most 2*l*k comparisons, l as in `insert`.
    #[inline(always)]
    pub fn take_top(&mut self, steps: &mut Steps) -> Option<M>
        ensures places { MatchOption
            result
            (IsEmpty self.old × self.new ≡ self.old)
            (λ x. IsTop M.cmp self.old x × self.new ≡ map (taken_at M.cmp x) self.old) }
        ensures compares { MatchOption
            result
            (steps.new.compares ≡ steps.old.compares)
            (λ x. (l : ℕ) → length self.old < 2 ^ l → steps.new.compares ≤ steps.old.compares + 2 * l * count_at (is_at M.cmp x) self.old) }
        ensures products { steps.new.products ≡ steps.old.products }
    {
        if self.len == 0 {
            return None;
        }
        let mono = self.nodes[0].mono;
        loop {
            let first = self.nodes[0].row;
            let len = self.len - 1;
            let last = self.nodes[len];
            remove_root(&mut self.nodes, len, last, steps);
            self.len = len;
            self.taken = take_chain::<M>(&mut self.next, &mut self.places, first, self.taken);
            if self.len == 0 {
                return Some(mono);
            }
            if self.nodes[0].mono.higher(mono, steps) != Ordering::Equal {
                return Some(mono);
            }
        }
    }

    /// Puts out one of the taken rows, and None exactly where none is taken.
    pub fn pop_taken(&mut self) -> Option<u32>
        ensures { MatchOption
            result
            (((r : ℕ) → is_taken (place_at self.old r) ≡ false) × self.new ≡ self.old)
            (λ r. (r < length self.old) × (place_at self.old r ≡ Place.Taken) × self.new ≡ slice_set self.old r Place.Out) }
    {
        let row = self.taken;
        if row == u32::MAX {
            return None;
        }
        self.taken = self.next[row as usize];
        self.places = self.places.with(&(row as usize), &Place::Out);
        Some(row)
    }
}

// Moves the rows of the chain that begins at `first` to the front of the taken ones.
fn take_chain<M: Monomial>(
    next: &mut [u32],
    places: &mut GhostList<Place<M>>,
    first: u32,
    taken: u32,
) -> u32
    requires { HasShape M.cmp next.old places.old.items first taken }
    ensures { (want : _) (H : _) →
        want Place.Taken ≡ false →
        Shape M.cmp want H next.old places.old.items first taken →
        TakesChain M.cmp want H places.old.items first next.new places.new.items no_row result }
{
    let mut row = first;
    let mut taken = taken;
    while row != u32::MAX {
        let slot = row as usize;
        let after = next[slot];
        next[slot] = taken;
        *places = places.with(&slot, &Place::Taken);
        taken = row;
        row = after;
    }
    taken
}
