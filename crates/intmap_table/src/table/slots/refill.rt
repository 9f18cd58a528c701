//! How a pair of a growth gets into its slot. One function puts each of them, those that move and
//! the new one.
ghost use Rattle.std.specs.Prelude.{◌≡◌, ◌+◌, ◌<◌, ◌≤◌, [], length, set, slice_index_or, true};
ghost use Rattle.intmap_table.specs.Tables.Growing.{place_in, put_in};
ghost use Rattle.intmap_table.specs.Tables.Nodes.{Node, empty, row_in, IsSlot, IsSlotSet};

use crate::bits::Bits;
use crate::linked::node::Node;
use crate::linked::pool::Pool;
use crate::linked::row::growth::{Order, put_in};
use crate::steps::Steps;
use std::alloc::Allocator;

/// Puts a pair into its slot, where `order` says, marks the slot, counts the pair, and returns its
/// place. If the slot holds a pair, there must be room for another.
#[inline(always)]
pub(super) fn put_at<P, A: Allocator>(
    slots: &mut Vec<Node<P>, A>,
    bits: &mut Bits<A>,
    pool: &mut Pool<P, A>,
    index: usize,
    order: Order,
    pair: P,
    placed: &mut Steps,
) -> usize
    requires within { index < length slots.old.items }
    requires mark { index < length bits.old }
    requires leads { IsSlot pool.old.nodes (slice_index_or slots.old.items index empty) }
    requires ready { 0 < length (row_in pool.old.nodes (slice_index_or slots.old.items index empty))
        → pool.old.held < pool.old.total }
    ensures row { (t : Node P) × (slots.new.items ≡ set slots.old.items index t)
        × IsSlotSet pool.old (slice_index_or slots.old.items index empty)
        (put_in order (row_in pool.old.nodes (slice_index_or slots.old.items index empty)) pair)
        pool.new t }
    ensures place { result
        ≡ place_in order (row_in pool.old.nodes (slice_index_or slots.old.items index empty)) }
    ensures bits { bits.new ≡ set bits.old index true }
    ensures total { pool.old.total ≤ pool.new.total }
    ensures counted { placed.new ≡ placed.old + 1 }
{
    let place = put_in(&mut slots[index], pool, order, pair);
    bits.set(index);
    placed.tick();
    place
}
