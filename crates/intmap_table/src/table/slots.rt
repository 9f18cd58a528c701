//! The slots of a table, whose further pairs lie in the nodes of one pool. Contracts see the pairs
//! of each slot, its row, and for how many pairs behind the first ones there is memory. Which slots
//! hold a pair is known here alone.
//!
//! `pairs` has the calls on a pair of one slot, `closures` those with a closure, `keep` that which
//! removes pairs as bits say, `writing` that which lends a value and that which drops all pairs,
//! `walk` has the pairs by reference, `reached` those from a cursor on, `owned` those by value, and
//! `clone` copies the slots. Of growth, `grow` adds slots and goes over the old ones, and `refill`
//! puts each pair into its slot.

mod clone;
mod closures;
mod grow;
mod keep;
pub(crate) mod owned;
mod pairs;
pub(crate) mod reached;
mod refill;
pub mod walk;
mod writing;

ghost use Rattle.std.specs.Prelude.{◌≡◌, ◌+◌, ◌-◌, ◌<◌, ◌≤◌, ℕ, [], ◌++◌, count_by, length, nat_lt, position, replicate, IfNone, IfOk, IfSome, slice_index_or, vec_capacity};
ghost use Rattle.std.specs.Option.{option_map};
ghost use Rattle.intmap_table.specs.Bindings.{value_of};
ghost use Rattle.intmap_table.specs.Classes.{IsCapacity, same_key};
ghost use Rattle.intmap_table.specs.Reach.{through_first};
ghost use Rattle.intmap_table.specs.Tables.Bits.{IsWordFrom};
ghost use Rattle.intmap_table.specs.Tables.Nodes.{empty, further};
ghost use Rattle.intmap_table.specs.Tables.Rows.{row_at};
ghost use Rattle.intmap_table.specs.Tables.Slots.{joined, IsNextRow};

use crate::bits::{Bits, MarksLeft};
use crate::key::IntKey;
use crate::linked::node::{NOWHERE, Node};
use crate::linked::pool::Pool;
use crate::linked::row;
use crate::steps::Steps;
use crate::table::stored::{Sought, Stored};
use std::alloc::{AllocError, Allocator};
use std::marker::Model;
use walk::Pairs;

/// Slots, the nodes of their further pairs, and one bit for each slot, which says whether it holds
/// a pair.
#[derive(Drop)]
pub(crate) struct Slots<K: IntKey, X, A: Allocator> {
    /// Their number less one: a mask with exactly the bits that the number of a slot may have.
    mask: usize,
    bits: Bits<A>,
    slots: Vec<Node<(Stored<K>, X)>, A>,
    pool: Pool<(Stored<K>, X), A>,
}

// Invariant: each slot's link leads through pairs of its own, and the bits mark the slots that hold
// some.
impl<K: IntKey, X, A: Allocator> Model for Slots<K, X, A> {
    ghost use Rattle.intmap_table.specs.Tables.Nodes.{rows_in};
    ghost use Rattle.intmap_table.specs.Tables.Rows.{Contents, AreRows};

    ghost Value = { Contents K X };

    ghost view = { λ s. record {
      rows = rows_in s.slots.items s.pool.nodes;
      total = s.pool.total;
    } };

    ghost invariant = { λ s. AreRows K.number_of s.slots.items s.pool s.bits s.mask };
}

impl<K: IntKey, X, A: Allocator> Slots<K, X, A> {
    /// Their number.
    pub(crate) fn len(&self) -> usize
        ensures { result ≡ length self.now.rows }
    {
        self.slots.len()
    }

    /// Their number less one.
    #[inline(always)]
    pub(crate) fn mask(&self) -> usize
        ensures { result + 1 ≡ length self.now.rows }
    {
        self.mask
    }

    /// How many of them hold a pair.
    pub(crate) fn count(&self) -> usize
        ensures { result ≡ count_by (λ row. nat_lt 0 (length row)) self.now.rows }
    {
        self.bits.count()
    }

    /// The number of pairs of all slots: those that are first in their slots, and those in nodes.
    pub(crate) fn pair_count(&self) -> usize
        ensures { result ≡ length (joined self.now.rows) }
    {
        self.bits.count() + self.pool.held()
    }

    /// The number of pairs of a slot.
    pub(crate) fn row_len(&self, index: usize) -> usize
        requires { index < length self.now.rows }
        ensures { result ≡ length (row_at self.now index) }
    {
        row::len(&self.slots[index], &self.pool)
    }

    /// The place of the key's pair in a slot. The keys are compared from the front, up to the one
    /// sought. Each comparison is one step.
    #[inline(always)]
    pub(crate) fn find(&self, index: usize, key: &Sought<K>, steps: &mut Steps) -> Option<usize>
        requires { index < length self.now.rows }
        ensures place { result
            ≡ position (λ p. same_key K.number_of key.now p.0) (row_at self.now index) }
        ensures counted { steps.new ≡ steps.old + length
            (through_first (λ p. same_key K.number_of key.now p.0) (row_at self.now index)) }
    {
        row::find(&self.slots[index], &self.pool, key, steps)
    }

    /// The key's pair in a slot. The keys are compared from the front, up to the one sought. Each
    /// comparison is one step.
    #[inline(always)]
    pub(crate) fn pair_of(
        &self,
        index: usize,
        key: &Sought<K>,
        steps: &mut Steps,
    ) -> Option<&(Stored<K>, X)>
        requires { index < length self.now.rows }
        ensures key { IfSome result (λ pair. K.number_of pair.now.0 ≡ K.number_of key.now) }
        ensures value { option_map (λ pair. pair.now.1) result
            ≡ value_of K.number_of (row_at self.now index) key.now }
        ensures counted { steps.new ≡ steps.old + length
            (through_first (λ p. same_key K.number_of key.now p.0) (row_at self.now index)) }
    {
        row::pair_of(&self.slots[index], &self.pool, key, steps)
    }

    /// The stored key of the pair at a place of a slot.
    #[inline(always)]
    pub(crate) fn key_at(&self, index: usize, place: usize) -> &Stored<K>
        requires { place < length (row_at self.now index) }
        ensures { (p : K × X) → result.now ≡ (slice_index_or (row_at self.now index) place p).0 }
    {
        let pair = row::pair_at(&self.slots[index], &self.pool, place);
        &pair.0
    }

    /// The value of the pair at a place of a slot.
    #[inline(always)]
    pub(crate) fn value_at(&self, index: usize, place: usize) -> &X
        requires { place < length (row_at self.now index) }
        ensures { (p : K × X) → result.now ≡ (slice_index_or (row_at self.now index) place p).1 }
    {
        let pair = row::pair_at(&self.slots[index], &self.pool, place);
        &pair.1
    }

    /// Which slots from an index on hold a pair, as far as the word of this index says.
    #[inline(always)]
    pub(crate) fn marks_from(&self, from: usize) -> MarksLeft
        ensures { IsWordFrom (λ i. nat_lt 0 (length (row_at self.now i))) from result.at
            result.word }
    {
        self.bits.marks_from(from)
    }

    /// The first slot from an index on that holds a pair. Before the call `left` has the marks of
    /// its word from this index on, and afterwards those behind the returned slot. Slots before the
    /// index may change between two calls.
    #[inline(always)]
    pub(crate) fn next_in(&self, left: &mut MarksLeft, from: usize) -> Option<usize>
        requires { IsWordFrom (λ i. nat_lt 0 (length (row_at self.now i))) from left.old.at
            left.old.word }
        ensures some { IfSome result (IsNextRow self.now.rows from) }
        ensures left { IfSome result (λ i. IsWordFrom (λ j. nat_lt 0 (length (row_at self.now j)))
            (i + 1) left.new.at left.new.word) }
        ensures none { IfNone result ((j : ℕ) → from ≤ j → row_at self.now j ≡ []) }
        ensures stays { IfNone result (IsWordFrom (λ i. nat_lt 0 (length (row_at self.now i))) from
            left.new.at left.new.word) }
    {
        self.bits.next_in(left, from)
    }

    /// The first slot from an index on that holds a pair.
    #[inline(always)]
    pub(crate) fn next_filled(&self, from: usize) -> Option<usize>
        ensures some { IfSome result (IsNextRow self.now.rows from) }
        ensures none { IfNone result ((j : ℕ) → from ≤ j → row_at self.now j ≡ []) }
    {
        let mut left = self.marks_from(from);
        self.next_in(&mut left, from)
    }

    /// Whether a slot holds a pair.
    #[inline(always)]
    pub(crate) fn holds_pair(&self, index: usize) -> bool
        requires { index < length self.now.rows }
        ensures { result ≡ nat_lt 0 (length (row_at self.now index)) }
    {
        !self.slots[index].is_empty()
    }

    /// The pairs, slot after slot.
    #[inline(always)]
    pub(crate) fn pairs(&self) -> Pairs<'_, K, X, A>
        ensures { result ≡ joined self.now.rows }
    {
        Pairs {
            link: NOWHERE,
            filled: self.bits.iter(),
            slots: &self.slots,
            pool: &self.pool,
        }
    }
}

/// Adds slots without a pair, so that there are `count`. There is room for them.
#[inline(never)]
fn add_empty<P: Drop, A: Allocator>(slots: &mut Vec<Node<P>, A>, count: usize)
    requires more { length slots.old.items ≤ count }
    requires room { count ≤ vec_capacity slots.old }
    ensures items { slots.new.items
        ≡ slots.old.items ++ replicate (count - length slots.old.items) empty }
    ensures capacity { vec_capacity slots.old ≤ vec_capacity slots.new }
{
    let make = || -> Node<P>
        ensures { result ≡ empty }
    { Node::empty() };
    if slots.resize_with(count, make).is_err() {
        unreachable!();
    }
}

impl<K: IntKey, X: Drop, A: Allocator + Copy> Slots<K, X, A> {
    /// The allocator of the slots.
    pub(crate) fn allocator(&self) -> A {
        *self.slots.allocator()
    }

    /// `capacity` slots without a pair, and room for `room` pairs that share a slot with another.
    /// It allocates the slots, then their bits, then the nodes if there is to be room, and writes
    /// no slot before.
    pub(crate) fn new(alloc: A, capacity: usize, room: usize) -> Result<Slots<K, X, A>, AllocError>
        requires { IsCapacity capacity }
        ensures rows { IfOk result (λ made. made.rows ≡ replicate capacity []) }
        ensures further { IfOk result (λ made. further made.rows ≡ 0) }
        ensures total { IfOk result (λ made. made.total ≡ room) }
    {
        let mut slots = Vec::with_capacity(alloc, capacity)?;
        let bits = Bits::new(alloc, capacity)?;
        let pool = Pool::with_room(alloc, room)?;
        add_empty(&mut slots, capacity);
        Ok(Slots {
            mask: capacity - 1,
            bits,
            slots,
            pool,
        })
    }
}
