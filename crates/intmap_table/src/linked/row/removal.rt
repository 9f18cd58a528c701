//! Pairs are removed from a slot.
ghost use Rattle.std.specs.Prelude.{◌≡◌, ◌+◌, ◌<◌, ◌≤◌, ℕ, true, ◌++◌, drop, length, swap_remove, take, slice_index_or, None, Some, IfNone, IfSome};
ghost use Rattle.intmap_table.specs.Bindings.{swap_out, value_of};
ghost use Rattle.intmap_table.specs.Classes.{same_key};
ghost use Rattle.intmap_table.specs.Reach.{through_first};
ghost use Rattle.intmap_table.specs.Tables.Behind.{IsBehind, IsBehindFirst};
ghost use Rattle.intmap_table.specs.Tables.Nodes.{Held, chain_of, row_in, IsChain, IsSlot, IsSlotSet, IsSwapRemoved};
ghost use Rattle.intmap_table.specs.Tables.Walked.{IsUnlinked};

use crate::key::IntKey;
use crate::linked::chain::{find_behind, last_from, search, seek_behind};
use crate::linked::node::{NODE_LIMIT, NOWHERE, Node};
use crate::linked::pool::Pool;
use crate::steps::Steps;
use crate::table::stored::{Sought, Stored};
use std::alloc::Allocator;

/// Removes the pair of node `at`, which is behind the first pair of a slot. The link to this node
/// is in node `before`, or in the slot if `before` is no node.
#[inline(always)]
pub(crate) fn unlink<P, A: Allocator>(
    slot: &mut Node<P>,
    pool: &mut Pool<P, A>,
    before: usize,
    at: usize,
) -> P
    requires { IsBehindFirst pool.old.nodes slot.old before at }
    ensures cut { IsUnlinked pool.old slot.old before at result pool.new slot.new }
    ensures filled { (l : ℕ) × (p : P) × (slot.new ≡ Held l p) }
    ensures total { pool.new.total ≡ pool.old.total }
    ensures ready { pool.new.held < pool.new.total }
{
    let next = pool.link(at);
    let pair = pool.release(at);
    if before >= NODE_LIMIT {
        slot.set_link(next);
        return pair;
    }
    pool.set_link(before, next);
    pair
}

/// Removes the first pair of a slot that holds others. The last one takes its place.
#[inline(always)]
fn swap_remove_first<P, A: Allocator>(slot: &mut Node<P>, link: usize, pool: &mut Pool<P, A>) -> P
    requires filled { (p : P) × (slot.old ≡ Held link p) }
    requires leads { IsChain pool.old.nodes link }
    requires several { 0 < length (chain_of pool.old.nodes link) }
    ensures row { IsSwapRemoved pool.old slot.old 0 result pool.new slot.new }
    ensures filled { (l : ℕ) × (p : P) × (slot.new ≡ Held l p) }
    ensures total { pool.new.total ≡ pool.old.total }
    ensures ready { pool.new.held < pool.new.total }
{
    let (before, last) = last_from(pool, NOWHERE, link);
    let pair = unlink(slot, pool, before, last);
    slot.replace(pair)
}

/// Removes the pair of a node behind the first pair of a slot. The last pair takes its place. The
/// node before is given too.
#[inline(always)]
fn swap_remove_behind<P, A: Allocator>(
    slot: &mut Node<P>,
    pool: &mut Pool<P, A>,
    before: usize,
    at: usize,
) -> P
    requires { IsBehindFirst pool.old.nodes slot.old before at }
    ensures row { (l i : ℕ) (p : P) → slot.old ≡ Held l p
        → IsBehind pool.old.nodes l i before at
        → IsSwapRemoved pool.old slot.old (i + 1) result pool.new slot.new }
    ensures filled { (l : ℕ) × (p : P) × (slot.new ≡ Held l p) }
    ensures total { pool.new.total ≡ pool.old.total }
    ensures ready { pool.new.held < pool.new.total }
{
    let (before_last, last) = last_from(pool, before, at);
    let pair = unlink(slot, pool, before_last, last);
    if last == at {
        return pair;
    }
    pool.replace(at, pair)
}

/// Removes the pair at a place of a slot that holds several. The last one takes its place.
#[inline(never)]
pub(crate) fn swap_remove_of_several<P, A: Allocator>(
    slot: &mut Node<P>,
    link: usize,
    pool: &mut Pool<P, A>,
    place: usize,
) -> P
    requires filled { (p : P) × (slot.old ≡ Held link p) }
    requires leads { IsChain pool.old.nodes link }
    requires several { 0 < length (chain_of pool.old.nodes link) }
    requires within { place < length (row_in pool.old.nodes slot.old) }
    ensures value { result ≡ slice_index_or (row_in pool.old.nodes slot.old) place result }
    ensures row { IsSlotSet pool.old slot.old
        (swap_remove (row_in pool.old.nodes slot.old) place result) pool.new slot.new }
    ensures filled { (l : ℕ) × (p : P) × (slot.new ≡ Held l p) }
    ensures total { pool.new.total ≡ pool.old.total }
    ensures ready { pool.new.held < pool.new.total }
{
    if place == 0 {
        return swap_remove_first(slot, link, pool);
    }
    let (before, at) = seek_behind(pool, link, place - 1);
    swap_remove_behind(slot, pool, before, at)
}

/// Removes the key's pair from a slot that holds several. The last one takes its place. The keys
/// are compared from the front, up to the one sought.
#[inline(never)]
pub(crate) fn remove_of_several<K: IntKey, X, A: Allocator>(
    slot: &mut Node<(Stored<K>, X)>,
    link: usize,
    pool: &mut Pool<(Stored<K>, X), A>,
    key: Sought<K>,
    steps: &mut Steps,
) -> Option<X>
    requires filled { (p : K × X) × (slot.old ≡ Held link p) }
    requires leads { IsChain pool.old.nodes link }
    requires several { 0 < length (chain_of pool.old.nodes link) }
    ensures value { result ≡ value_of K.number_of (row_in pool.old.nodes slot.old) key }
    ensures row { IsSlotSet pool.old slot.old (swap_out (λ p. same_key K.number_of key p.0)
        (λ _. true) (row_in pool.old.nodes slot.old)) pool.new slot.new }
    ensures total { pool.new.total ≡ pool.old.total }
    ensures filled { (l : ℕ) × (p : K × X) × (slot.new ≡ Held l p) }
    ensures counted { steps.new ≡ steps.old + length
        (through_first (λ p. same_key K.number_of key p.0) (row_in pool.old.nodes slot.old)) }
{
    let Some((_, first)) = slot.get() else {
        unreachable!();
    };
    if first.0.matches(&key, steps) {
        let (_, value) = swap_remove_first(slot, link, pool);
        return Some(value);
    }
    let Ok(spot) = search(pool, link, &key, steps) else {
        return None;
    };
    let (_, value) = swap_remove_behind(slot, pool, spot.before, spot.at);
    Some(value)
}

/// Removes the first pair of a slot with this link. The others move up by one place.
#[inline(always)]
pub(crate) fn pop_front<P, A: Allocator>(
    slot: &mut Node<P>,
    link: usize,
    pool: &mut Pool<P, A>,
) -> P
    requires filled { (p : P) × (slot.old ≡ Held link p) }
    requires leads { IsChain pool.old.nodes link }
    ensures value { slot.old ≡ Held link result }
    ensures row { (first : P) → IsSlotSet pool.old (Held link first)
        (chain_of pool.old.nodes link) pool.new slot.new }
    ensures total { pool.new.total ≡ pool.old.total }
{
    if link >= NODE_LIMIT {
        return slot.take().1;
    }
    pop_front_of_several(slot, link, pool)
}

/// Removes the first pair of a slot that holds others, which move up by one place.
#[inline(never)]
pub(crate) fn pop_front_of_several<P, A: Allocator>(
    slot: &mut Node<P>,
    link: usize,
    pool: &mut Pool<P, A>,
) -> P
    requires filled { (p : P) × (slot.old ≡ Held link p) }
    requires leads { IsChain pool.old.nodes link }
    requires several { 0 < length (chain_of pool.old.nodes link) }
    ensures value { slot.old ≡ Held link result }
    ensures row { (first : P) → IsSlotSet pool.old (Held link first)
        (chain_of pool.old.nodes link) pool.new slot.new }
    ensures total { pool.new.total ≡ pool.old.total }
{
    let second = unlink(slot, pool, NOWHERE, link);
    slot.replace(second)
}

/// Removes the pair at a place, if there is one. Those behind it move up by one place.
pub(crate) fn remove<P, A: Allocator>(
    slot: &mut Node<P>,
    pool: &mut Pool<P, A>,
    place: usize,
) -> Option<P>
    requires { IsSlot pool.old.nodes slot.old }
    ensures value { IfSome result (λ pair. (place < length (row_in pool.old.nodes slot.old))
        × (pair ≡ slice_index_or (row_in pool.old.nodes slot.old) place pair)) }
    ensures none { IfNone result (length (row_in pool.old.nodes slot.old) ≤ place) }
    ensures row { IsSlotSet pool.old slot.old (take place (row_in pool.old.nodes slot.old)
        ++ drop (place + 1) (row_in pool.old.nodes slot.old)) pool.new slot.new }
    ensures total { pool.new.total ≡ pool.old.total }
{
    let Some((link, _)) = slot.get() else {
        return None;
    };
    if place == 0 {
        return Some(pop_front(slot, link, pool));
    }
    let Some((before, at)) = find_behind(pool, link, place - 1) else {
        return None;
    };
    Some(unlink(slot, pool, before, at))
}
