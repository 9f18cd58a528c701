//! Growth puts pairs before others of a slot, between them, or behind them.
ghost use Rattle.std.specs.Prelude.{◌≡◌, ◌+◌, ◌<◌, ◌≤◌, [], ◌∷◌, ◌++◌, length, Some};
ghost use Rattle.intmap_table.specs.Tables.Nodes.{row_in, IsSlot, IsSlotSet};
ghost use Rattle.intmap_table.specs.Tables.Growing.{place_in, put_in};
ghost use Rattle.intmap_table.specs.Tables.Putting.{put_last};
ghost use Rattle.intmap_table.specs.Tables.Rows.{put_second};

use crate::linked::node::{NOWHERE, Node};
use crate::linked::pool::Pool;
use crate::linked::row::insertion::push_further;
use std::alloc::Allocator;

/// Where among the pairs of its slot a pair goes.
#[derive(Clone, Copy)]
pub(crate) enum Order {
    First,
    Second,
    Last,
}

/// Puts a pair before those of a slot, behind the first of them, or last, and returns its place. If
/// the slot holds a pair, the pool has room for another.
#[inline(always)]
pub(crate) fn put_in<P, A: Allocator>(
    slot: &mut Node<P>,
    pool: &mut Pool<P, A>,
    order: Order,
    pair: P,
) -> usize
    requires leads { IsSlot pool.old.nodes slot.old }
    requires ready { 0 < length (row_in pool.old.nodes slot.old)
        → pool.old.held < pool.old.total }
    ensures row { IsSlotSet pool.old slot.old
        (put_in order (row_in pool.old.nodes slot.old) pair) pool.new slot.new }
    ensures place { result ≡ place_in order (row_in pool.old.nodes slot.old) }
    ensures total { pool.old.total ≤ pool.new.total }
{
    let Some(_) = slot.get() else {
        slot.fill(NOWHERE, pair);
        return 0;
    };
    match order {
        Order::First => put_before_first(slot, pool, pair),
        Order::Second => put_behind_first(slot, pool, pair),
        Order::Last => put_last(slot, pool, pair),
    }
}

/// Puts a pair last in a slot that holds some, and returns its place. There is room for it.
#[inline(always)]
fn put_last<P, A: Allocator>(slot: &mut Node<P>, pool: &mut Pool<P, A>, pair: P) -> usize
    requires leads { IsSlot pool.old.nodes slot.old }
    requires filled { 0 < length (row_in pool.old.nodes slot.old) }
    requires ready { pool.old.held < pool.old.total }
    ensures row { IsSlotSet pool.old slot.old (row_in pool.old.nodes slot.old ++ pair ∷ [])
        pool.new slot.new }
    ensures place { result ≡ length (row_in pool.old.nodes slot.old) }
    ensures total { pool.old.total ≤ pool.new.total }
{
    match push_further(slot, pool, pair) {
        Ok(place) => place,
        Err(_) => unreachable!(),
    }
}

/// Puts a pair behind the first one of a slot that holds some, and returns its place. There is room
/// for it.
#[inline(never)]
fn put_behind_first<P, A: Allocator>(slot: &mut Node<P>, pool: &mut Pool<P, A>, pair: P) -> usize
    requires leads { IsSlot pool.old.nodes slot.old }
    requires filled { 0 < length (row_in pool.old.nodes slot.old) }
    requires ready { pool.old.held < pool.old.total }
    ensures row { IsSlotSet pool.old slot.old
        (put_second (row_in pool.old.nodes slot.old) pair) pool.new slot.new }
    ensures place { result ≡ 1 }
    ensures total { pool.old.total ≤ pool.new.total }
{
    let Some((link, _)) = slot.get() else {
        unreachable!();
    };
    match pool.add(link, pair) {
        Ok(at) => slot.set_link(at),
        Err(_) => unreachable!(),
    }
    1
}

/// Puts a pair before the first one of a slot that holds some, and returns its place. There is room
/// for it.
#[inline(never)]
fn put_before_first<P, A: Allocator>(slot: &mut Node<P>, pool: &mut Pool<P, A>, pair: P) -> usize
    requires leads { IsSlot pool.old.nodes slot.old }
    requires filled { 0 < length (row_in pool.old.nodes slot.old) }
    requires ready { pool.old.held < pool.old.total }
    ensures row { IsSlotSet pool.old slot.old (pair ∷ row_in pool.old.nodes slot.old)
        pool.new slot.new }
    ensures place { result ≡ 0 }
    ensures total { pool.old.total ≤ pool.new.total }
{
    let Some((link, _)) = slot.get() else {
        unreachable!();
    };
    let first = slot.replace(pair);
    match pool.add(link, first) {
        Ok(at) => slot.set_link(at),
        Err(_) => unreachable!(),
    }
    0
}
