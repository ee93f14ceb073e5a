//! Moves up and down the heap. The nodes are a slice whose length is that of the heap.
ghost use Rattle.std.specs.Prelude.{◌≡◌, ◌≢◌, ◌+◌, ◌-◌, ◌*◌, ◌/◌, ◌^◌, ◌<◌, ◌≤◌, ◌⊎◌, ℕ, length, slice_set, slice_index_or, take, ◌++◌, ◌∷◌, [], false};
ghost use Rattle.std.specs.List.Sorted.{IsPermutation};
ghost use Rattle.std.specs.BinaryHeap.Sift.{SiftsUp, RestoresHeap};
ghost use Rattle.std.specs.Slice.Heapsort.{IsNotBelowChildren, IsHeapWithin};
ghost use Rattle.chained_heap.specs.Order.{node_cmp, node_lt, Climbs};
ghost use Rattle.chained_heap.specs.Spot.{IsSpot};

use crate::node::Node;
use packed_monomial::Monomial;
use std::cmp::Ordering;
use step_count::Steps;

/// Where a monomial goes: into the chain of a node, or into a node of its own.
pub enum Spot {
    Chain(usize),
    Room(usize),
}

/// Looks at the root first, which has the monomial in a third of the calls where many products meet.
pub fn find<M: Monomial>(nodes: &[Node<M>], mono: M, steps: &mut Steps) -> Spot
    ensures spot { IsSpot M.cmp nodes.now mono result }
    ensures compares { (l : ℕ) → length nodes.now + 1 < 2 ^ l → steps.new.compares ≤ steps.old.compares + l }
    ensures products { steps.new.products ≡ steps.old.products }
{
    if nodes.len() == 0 {
        return Spot::Room(0);
    }
    match nodes[0].mono.higher(mono, steps) {
        Ordering::Equal => Spot::Chain(0),
        _ => climb(nodes, mono, steps),
    }
}

// Follows the path from the place past the end to the root.
fn climb<M: Monomial>(nodes: &[Node<M>], mono: M, steps: &mut Steps) -> Spot
    ensures spot { IsSpot M.cmp nodes.now mono result }
    ensures compares { (l : ℕ) → length nodes.now + 1 < 2 ^ (l + 1) → steps.new.compares ≤ steps.old.compares + l }
    ensures products { steps.new.products ≡ steps.old.products }
{
    let mut at = nodes.len();
    while at > 0 {
        let parent = (at - 1) / 2;
        match nodes[parent].mono.higher(mono, steps) {
            Ordering::Less => at = parent,
            Ordering::Equal => return Spot::Chain(parent),
            Ordering::Greater => return Spot::Room(at),
        }
    }
    Spot::Room(0)
}

/// Moves the nodes on the path from the last place to `to` down by one place, and puts x there.
pub fn lower<M: Monomial>(nodes: &mut [Node<M>], to: usize, x: Node<M>)
    requires nonempty { 0 < length nodes.old }
    requires climbs { Climbs M.cmp nodes.old x.mono (length nodes.old - 1) to }
    requires rests { (to ≡ 0) ⊎ ((d : _) → node_lt M.cmp (slice_index_or nodes.old ((to - 1) / 2) d) x ≡ false) }
    ensures permutation { IsPermutation (slice_set nodes.old (length nodes.old - 1) x) nodes.new }
    ensures sifts { SiftsUp (node_cmp M.cmp) (slice_set nodes.old (length nodes.old - 1) x) (length nodes.old - 1) nodes.new }
{
    let mut at = nodes.len() - 1;
    while at != to {
        let parent = (at - 1) / 2;
        nodes[at] = nodes[parent];
        at = parent;
    }
    nodes[at] = x;
}

/// Moves nodes down the path from `at` until x fits there.
pub fn rise<M: Monomial>(nodes: &mut [Node<M>], from: usize, x: Node<M>, steps: &mut Steps)
    requires { from < length nodes.old }
    ensures permutation { IsPermutation (slice_set nodes.old from x) nodes.new }
    ensures sifts { SiftsUp (node_cmp M.cmp) (slice_set nodes.old from x) from nodes.new }
    ensures compares { (l : ℕ) → from + 1 < 2 ^ (l + 1) → steps.new.compares ≤ steps.old.compares + l }
    ensures products { steps.new.products ≡ steps.old.products }
{
    let mut at = from;
    while at > 0 {
        let parent = (at - 1) / 2;
        if nodes[parent].mono.higher(x.mono, steps) != Ordering::Less {
            nodes[at] = x;
            return;
        }
        nodes[at] = nodes[parent];
        at = parent;
    }
    nodes[at] = x;
}

/// The child of `at` that no child of `at` exceeds.
pub fn greater_child<M: Monomial>(nodes: &[Node<M>], at: usize, steps: &mut Steps) -> usize
    requires { 2 * at + 1 < length nodes.now }
    ensures bound { (result < length nodes.now) × (at * 2 + 1 ≤ result) × (result ≤ at * 2 + 2) }
    ensures best { IsNotBelowChildren (node_lt M.cmp) nodes.now at result (length nodes.now) }
    ensures compares { steps.new.compares ≤ steps.old.compares + 1 }
    ensures products { steps.new.products ≡ steps.old.products }
{
    let left = 2 * at + 1;
    if nodes.len() <= left + 1 {
        return left;
    }
    // a branch here is foretold wrongly half the time
    let is_left = nodes[left + 1].mono.higher(nodes[left].mono, steps).is_lt();
    left + !is_left as usize
}

/// The root goes, and x comes in for it.
pub fn replace_root<M: Monomial>(nodes: &mut [Node<M>], x: Node<M>, steps: &mut Steps)
    ensures permutation { IsPermutation (slice_set nodes.old 0 x) nodes.new }
    ensures mends { RestoresHeap (node_cmp M.cmp) (slice_set nodes.old 0 x) 1 (length nodes.old) nodes.new }
    ensures compares { (l : ℕ) → length nodes.old < 2 ^ (l + 1) → steps.new.compares ≤ steps.old.compares + 2 * l }
    ensures products { steps.new.products ≡ steps.old.products }
{
    let len = nodes.len();
    if len == 0 {
        return;
    }
    let mut at = 0;
    while at < len / 2 {
        let child = greater_child(nodes, at, steps);
        nodes[at] = nodes[child];
        at = child;
    }
    rise(nodes, at, x, steps);
}

/// A new node comes into a heap of the first `len` nodes.
pub fn add_node<M: Monomial>(nodes: &mut [Node<M>], len: usize, to: usize, x: Node<M>)
    requires within { len < length nodes.old }
    requires climbs { Climbs M.cmp (take len nodes.old) x.mono len to }
    requires rests { (to ≡ 0) ⊎ ((d : _) → node_lt M.cmp (slice_index_or (take len nodes.old) ((to - 1) / 2) d) x ≡ false) }
    ensures permutation { IsPermutation (take len nodes.old ++ x ∷ []) (take (len + 1) nodes.new) }
    ensures ordered { IsHeapWithin (node_lt M.cmp) (take len nodes.old) 0 len → IsHeapWithin (node_lt M.cmp) (take (len + 1) nodes.new) 0 (len + 1) }
{
    lower(&mut nodes[..len + 1], to, x);
}

/// The root leaves a heap of the first `len + 1` nodes, whose last is x.
pub fn remove_root<M: Monomial>(nodes: &mut [Node<M>], len: usize, x: Node<M>, steps: &mut Steps)
    requires within { len < length nodes.old }
    requires last { (d : _) → slice_index_or nodes.old len d ≡ x }
    ensures permutation { (root : _) → ((d : _) → slice_index_or nodes.old 0 d ≡ root) → IsPermutation (take (len + 1) nodes.old) (root ∷ take len nodes.new) }
    ensures ordered { IsHeapWithin (node_lt M.cmp) (take (len + 1) nodes.old) 0 (len + 1) → IsHeapWithin (node_lt M.cmp) (take len nodes.new) 0 len }
    ensures compares { (l : ℕ) → len < 2 ^ (l + 1) → steps.new.compares ≤ steps.old.compares + 2 * l }
    ensures products { steps.new.products ≡ steps.old.products }
{
    replace_root(&mut nodes[..len], x, steps);
}
