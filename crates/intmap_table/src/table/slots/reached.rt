//! The pairs of the slots from a cursor on, by reference.
ghost use Rattle.std.specs.Prelude.{◌≡◌, ◌+◌, ◌-◌, ◌∷◌, ◌^◌, ◌<◌, ℕ, [], cond, drop, length, min, nat_lt, slice_index_or, IfNone, IfSome};
ghost use Rattle.intmap_table.specs.Tables.Nodes.{chain_of, empty, rows_in, IsChain, IsSlot};
ghost use Rattle.intmap_table.specs.Tables.Slots.{joined, count_before};

use crate::bits::{Bits, MarksLeft};
use crate::key::IntKey;
use crate::linked::chain::skip;
use crate::linked::node::{NOWHERE, Node};
use crate::linked::pool::Pool;
use crate::table::slots::Slots;
use crate::table::stored::Stored;
use crate::table::walk::Cursor;
use std::alloc::Allocator;
use std::marker::Model;

/// The pairs from a cursor on, which moves behind each pair that is returned. `link` leads through
/// those of the cursor's slot that are behind its first one. The first pairs that are left are those
/// of the slots from `from` on, of which `left` has the marks of one word.
#[derive(Drop)]
pub(crate) struct PairsFrom<'a, K: IntKey, X, A: Allocator> {
    pub(crate) at: Cursor,
    link: usize,
    from: usize,
    left: MarksLeft,
    bits: &'a Bits<A>,
    slots: &'a [Node<(Stored<K>, X)>],
    pool: &'a Pool<(Stored<K>, X), A>,
}

// Invariant: the link and the marks lead through the pairs from the cursor on.
impl<'a, K: IntKey, X, A: Allocator> Model for PairsFrom<'a, K, X, A> {
    ghost use Rattle.intmap_table.specs.Tables.Nodes.{rows_in};
    ghost use Rattle.intmap_table.specs.Tables.Reached.{Position, IsPosition};

    ghost Value = { Position K X };

    ghost view = { λ it. record {
      rows = rows_in it.slots.now it.pool.now.nodes;
      at = it.at;
    } };

    ghost invariant = { λ it. IsPosition it.slots.now it.pool.now.nodes it.bits.now it.at it.link
        it.from it.left.at it.left.word };
}

/// The first slot whose first pair isn't before the cursor.
#[inline(always)]
fn first_from(at: Cursor) -> usize
    ensures { result ≡ cond (nat_lt 0 at.place) (min (at.slot + 1) (2 ^ 64 - 1)) at.slot }
{
    if at.place == 0 {
        return at.slot;
    }
    at.slot.saturating_add(1)
}

/// A link that leads through the pairs of the cursor's slot from its place on, but for the first one
/// of the slot. It leads nowhere if there is no such pair.
#[inline(always)]
fn link_to<P, A: Allocator>(slots: &[Node<P>], pool: &Pool<P, A>, at: Cursor) -> usize
    requires { (i : ℕ) → i < length slots.now
        → IsSlot pool.now.nodes (slice_index_or slots.now i empty) }
    ensures chain { IsChain pool.now.nodes result }
    ensures pairs { chain_of pool.now.nodes result ≡ cond (nat_lt 0 at.place)
        (drop at.place (slice_index_or (rows_in slots.now pool.now.nodes) at.slot [])) [] }
{
    if at.place == 0 {
        return NOWHERE;
    }
    if at.slot >= slots.len() {
        return NOWHERE;
    }
    let Some((link, _)) = slots[at.slot].get() else {
        return NOWHERE;
    };
    skip(pool, link, at.place - 1)
}

impl<K: IntKey, X, A: Allocator> Slots<K, X, A> {
    /// The pairs from a cursor on, slot after slot. Any cursor will do.
    #[inline(always)]
    pub(crate) fn pairs_from(&self, at: Cursor) -> PairsFrom<'_, K, X, A>
        ensures { result ≡ record { rows = self.now.rows; at = at } }
    {
        let from = first_from(at);
        PairsFrom {
            at,
            link: link_to(&self.slots, &self.pool, at),
            from,
            left: self.bits.marks_from(from),
            bits: &self.bits,
            slots: &self.slots,
            pool: &self.pool,
        }
    }
}

impl<'a, K: IntKey, X, A: Allocator> PairsFrom<'a, K, X, A> {
    /// The next stored pair, behind which the cursor moves, or `None` if no pair is left. Then the
    /// cursor stays.
    #[inline(always)]
    pub(crate) fn next(&mut self) -> Option<&'a (Stored<K>, X)>
        ensures some { IfSome result (λ pair. (drop (count_before self.old.rows self.old.at.slot
            self.old.at.place) (joined self.old.rows) ≡ pair.now ∷ drop (count_before self.old.rows
            self.new.at.slot self.new.at.place) (joined self.old.rows))
            × (count_before self.old.rows self.new.at.slot self.new.at.place
            ≡ count_before self.old.rows self.old.at.slot self.old.at.place + 1)) }
        ensures here { IfSome result (λ pair. (j : ℕ) × (self.new.at.place ≡ j + 1)
            × (j < length (slice_index_or self.old.rows self.new.at.slot []))
            × (pair.now ≡ slice_index_or (slice_index_or self.old.rows self.new.at.slot []) j
            pair.now)) }
        ensures none { IfNone result (drop (count_before self.old.rows self.old.at.slot
            self.old.at.place) (joined self.old.rows) ≡ []) }
        ensures stays { IfNone result (self.new.at ≡ self.old.at) }
        ensures rows { self.new.rows ≡ self.old.rows }
    {
        if let Some((next, pair)) = self.pool.get(self.link) {
            self.link = next;
            self.at.place += 1;
            return Some(pair);
        }
        let Some(slot) = self.bits.next_in(&mut self.left, self.from) else {
            return None;
        };
        let Some((next, first)) = self.slots[slot].get() else {
            unreachable!();
        };
        self.at = Cursor { slot, place: 1 };
        self.link = next;
        self.from = slot + 1;
        Some(first)
    }
}
