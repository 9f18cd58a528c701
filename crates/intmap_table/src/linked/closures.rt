//! Closures are called at the pairs of one slot.
ghost use Rattle.std.specs.Prelude.{◌≡◌, ◌<◌, ◌≤◌, ◌∷◌, List, drop, length};
ghost use Rattle.intmap_table.specs.Picking.{AsksAt, ExtractsBehind, PicksAt};
ghost use Rattle.intmap_table.specs.Retaining.{KeepsAt, Retains, TakesPair};
ghost use Rattle.intmap_table.specs.Taking.{TakesEach};
ghost use Rattle.intmap_table.specs.Writes.{TakesPairMut, Writes, WritesAt};
ghost use Rattle.intmap_table.specs.Tables.Nodes.{Held, chain_of, row_in, IsChain, IsSlot, IsSlotSet};

use crate::kept::Kept;
use crate::key::IntKey;
use crate::linked::chain::seek_behind;
use crate::linked::node::{NODE_LIMIT, NOWHERE, Node};
use crate::linked::pool::Pool;
use crate::linked::row::removal;
use crate::table::closure_calls::keeps_pair;
use crate::table::stored::Stored;
use std::alloc::Allocator;

/// Keeps the pairs behind the first one of a slot for which the closure returns true, in their
/// order.
#[inline(never)]
fn retain_behind<K: IntKey, V: Drop, A: Allocator, F: FnMut(K, &V) -> bool>(
    slot: &mut Node<(Stored<K>, Kept<V>)>,
    link: usize,
    pool: &mut Pool<(Stored<K>, Kept<V>), A>,
    f: &mut F,
)
    requires filled { (p : K × V) × (slot.old ≡ Held link p) }
    requires leads { IsChain pool.old.nodes link }
    requires callable { TakesEach (KeepsAt F.FnMut) (TakesPair F.FnMut) f.old
        (chain_of pool.old.nodes link) }
    ensures row { (p : K × V) × (slot.old ≡ Held link p)
        × (row : List (K × V)) × IsSlotSet pool.old slot.old (p ∷ row) pool.new slot.new
        × Retains (KeepsAt F.FnMut) f.old (chain_of pool.old.nodes link) row f.new }
    ensures total { pool.new.total ≡ pool.old.total }
{
    let mut before = NOWHERE;
    let mut at = link;
    while let Some((next, pair)) = pool.get(at) {
        if keeps_pair(pair, f) {
            before = at;
        } else {
            removal::unlink(slot, pool, before, at);
        }
        at = next;
    }
}

/// Keeps the pairs of a slot for which the closure returns true, in their order. The closure is
/// called once at each pair, from the front, and a pair is unlinked at once when it returns false.
#[inline(always)]
pub(crate) fn retain<K: IntKey, V: Drop, A: Allocator, F: FnMut(K, &V) -> bool>(
    slot: &mut Node<(Stored<K>, Kept<V>)>,
    pool: &mut Pool<(Stored<K>, Kept<V>), A>,
    f: &mut F,
)
    requires leads { IsSlot pool.old.nodes slot.old }
    requires callable { TakesEach (KeepsAt F.FnMut) (TakesPair F.FnMut) f.old
        (row_in pool.old.nodes slot.old) }
    ensures row { (row : List (K × V)) × IsSlotSet pool.old slot.old row pool.new slot.new
        × Retains (KeepsAt F.FnMut) f.old (row_in pool.old.nodes slot.old) row f.new }
    ensures total { pool.new.total ≡ pool.old.total }
{
    while let Some((link, first)) = slot.get() {
        if keeps_pair(first, f) {
            if link < NODE_LIMIT {
                retain_behind(slot, link, pool, f);
            }
            return;
        }
        removal::pop_front(slot, link, pool);
    }
}

/// Calls the closure at each pair of a slot in turn, with a mutable reference to its value.
pub(crate) fn write_each<K: IntKey, V, A: Allocator, F: FnMut(K, &mut V)>(
    slot: &mut Node<(Stored<K>, Kept<V>)>,
    pool: &mut Pool<(Stored<K>, Kept<V>), A>,
    f: &mut F,
)
    requires leads { IsSlot pool.old.nodes slot.old }
    requires callable { TakesEach (WritesAt F.FnMut) (TakesPairMut F.FnMut) f.old
        (row_in pool.old.nodes slot.old) }
    ensures row { (row : List (K × V)) × IsSlotSet pool.old slot.old row pool.new slot.new
        × Writes (WritesAt F.FnMut) f.old (row_in pool.old.nodes slot.old) row f.new }
    ensures total { pool.new.total ≡ pool.old.total }
{
    let Some((link, _)) = slot.get() else {
        return;
    };
    slot.write(f);
    let mut at = link;
    while let Some((next, _)) = pool.get(at) {
        pool.write(at, f);
        at = next;
    }
}

/// Asks the closure about each pair behind the first one of a slot, from the place on, and removes
/// the first one that it picks. Those behind it move up, and the place moves on to the first of
/// them.
#[inline(never)]
fn extract_behind<K: IntKey, V, A: Allocator, F: FnMut(K, &mut V) -> bool>(
    slot: &mut Node<(Stored<K>, Kept<V>)>,
    link: usize,
    pool: &mut Pool<(Stored<K>, Kept<V>), A>,
    place: &mut usize,
    f: &mut F,
) -> Option<(Stored<K>, Kept<V>)>
    requires filled { (p : K × V) × (slot.old ≡ Held link p) }
    requires leads { IsChain pool.old.nodes link }
    requires behind { 0 < place.old }
    requires within { place.old ≤ length (row_in pool.old.nodes slot.old) }
    requires callable { TakesEach (AsksAt F.FnMut) (TakesPairMut F.FnMut) f.old
        (drop place.old (row_in pool.old.nodes slot.old)) }
    ensures step { (row : List (K × V))
        × ((q : K × V) → IsSlotSet pool.old (Held link q) row pool.new slot.new)
        × ExtractsBehind (PicksAt F.FnMut) f.old (row_in pool.old.nodes slot.old) place.old result
        f.new row place.new
        × (place.new ≤ length row) }
    ensures on { place.old ≤ place.new }
    ensures total { pool.new.total ≡ pool.old.total }
{
    let (mut before, mut at) = seek_behind(pool, link, *place - 1);
    while let Some((next, _)) = pool.get(at) {
        if pool.pick(at, f) {
            return Some(removal::unlink(slot, pool, before, at));
        }
        before = at;
        at = next;
        *place += 1;
    }
    None
}

/// Asks the closure about each pair of a slot, from the place on, and removes the first one that it
/// picks. Those behind it move up, and the place moves on to the first of them.
#[inline(always)]
pub(crate) fn extract<K: IntKey, V, A: Allocator, F: FnMut(K, &mut V) -> bool>(
    slot: &mut Node<(Stored<K>, Kept<V>)>,
    pool: &mut Pool<(Stored<K>, Kept<V>), A>,
    place: &mut usize,
    f: &mut F,
) -> Option<(Stored<K>, Kept<V>)>
    requires leads { IsSlot pool.old.nodes slot.old }
    requires within { place.old ≤ length (row_in pool.old.nodes slot.old) }
    requires callable { TakesEach (AsksAt F.FnMut) (TakesPairMut F.FnMut) f.old
        (drop place.old (row_in pool.old.nodes slot.old)) }
    ensures step { (row : List (K × V)) × IsSlotSet pool.old slot.old row pool.new slot.new
        × ExtractsBehind (PicksAt F.FnMut) f.old (row_in pool.old.nodes slot.old) place.old result
        f.new row place.new
        × (place.new ≤ length row) }
    ensures on { place.old ≤ place.new }
    ensures total { pool.new.total ≡ pool.old.total }
{
    let Some((link, _)) = slot.get() else {
        return None;
    };
    if *place > 0 {
        return extract_behind(slot, link, pool, place, f);
    }
    if slot.pick(f) {
        return Some(removal::pop_front(slot, link, pool));
    }
    *place = 1;
    if link >= NODE_LIMIT {
        return None;
    }
    extract_behind(slot, link, pool, place, f)
}
